//! How many members a list has.
ghost use Rattle.std.specs.Prelude.{◌≡◌, ◌++◌, ◌<◌, codes, length, OnOk};
ghost use Rattle.std.specs.Fmt.{signed_decimal};
ghost use Rattle.ss_program.specs.declared.kinds.Owner.TheVariants.{System};
ghost use Rattle.ss_store.specs.Store.{number_of, members_of};
ghost use Rattle.ss_machine.specs.Moment.{position};
ghost use Rattle.ss_debug.specs.Entities.{shape_of};
ghost use Rattle.ss_trace.specs.Question.{counted_text, list_count_text, count_text};

use crate::attribute::push_no_entity;
use ss_debug::{class_value, find_set, push_integer, push_number};
use ss_links::SetBoard;
use ss_machine::Machine;
use ss_program::Owner;
use std::alloc::AllocError;

/// How many members the list of a set has, none if its owner does not exist.
#[tactic(auto, using(ss_debug::proofs::Tables::sets_kept))]
pub fn member_count<S: SetBoard>(machine: &Machine<S>, set: usize, owner: i64) -> u32
    requires { set < length machine.now.input.program.sets }
    ensures { result ≡ length (members_of (shape_of machine.now.input.program set)
        machine.now.state.store (number_of owner)) }
{
    machine.store().count(set, owner).unwrap_or(0)
}

/// Appends how many members the list of a set has, and ends the line.
fn push_counted<S: SetBoard>(
    bytes: &mut Vec<u8>,
    machine: &Machine<S>,
    set: usize,
    owner: i64,
) -> Result<(), AllocError>
    requires { set < length machine.now.input.program.sets }
    ensures { OnOk result (bytes.new.items ≡ bytes.old.items
        ++ counted_text machine.now.input.program machine.now.state.store set owner) }
{
    bytes.extend_from_slice(b": ")?;
    push_number(bytes, u64::from(member_count(machine, set, owner)))?;
    bytes.extend_from_slice(b"\n")
}

/// Appends that line for the list of an owner, whose number follows the set's name.
fn push_owned_count<S: SetBoard>(
    bytes: &mut Vec<u8>,
    name: &[u8],
    machine: &Machine<S>,
    set: usize,
    owner: i64,
) -> Result<(), AllocError>
    requires { set < length machine.now.input.program.sets }
    ensures { OnOk result (bytes.new.items ≡ bytes.old.items
        ++ codes "COUNT " ++ name.now ++ codes " " ++ signed_decimal owner
        ++ counted_text machine.now.input.program machine.now.state.store set owner) }
{
    bytes.extend_from_slice(b"COUNT ")?;
    bytes.extend_from_slice(name)?;
    bytes.extend_from_slice(b" ")?;
    push_integer(bytes, owner)?;
    push_counted(bytes, machine, set, owner)
}

/// Appends that line for a set of the system, whose list has no owner's number.
fn push_system_count<S: SetBoard>(
    bytes: &mut Vec<u8>,
    name: &[u8],
    machine: &Machine<S>,
    set: usize,
    owner: Option<i64>,
) -> Result<(), AllocError>
    requires { set < length machine.now.input.program.sets }
    ensures { OnOk result (bytes.new.items ≡ bytes.old.items
        ++ list_count_text name.now owner machine.now.input.program machine.now.state set System) }
{
    if let Some(x) = owner {
        return push_no_entity(bytes, b"SYSTEM", x);
    }
    bytes.extend_from_slice(b"COUNT ")?;
    bytes.extend_from_slice(name)?;
    push_counted(bytes, machine, set, 0)
}

/// Appends how many members the list of the set of this name has, `NO SET s` or `NO ENTITY c k`.
#[tactic(auto, unfolding(crate::specs::Question::count_text))]
pub fn push_count<S: SetBoard>(
    bytes: &mut Vec<u8>,
    machine: &Machine<S>,
    name: &[u8],
    owner: Option<i64>,
) -> Result<(), AllocError>
    ensures { OnOk result (bytes.new.items ≡ bytes.old.items
        ++ count_text name.now owner machine.now.input (position machine.now)) }
{
    machine.known();
    let program = machine.program();
    program.known();
    let Some(set) = find_set(program, name) else {
        bytes.extend_from_slice(b"NO SET ")?;
        bytes.extend_from_slice(name)?;
        return bytes.extend_from_slice(b"\n");
    };
    match program.set_owner(set) {
        Owner::System => push_system_count(bytes, name, machine, set, owner),
        Owner::OwnedBy(class) => {
            let x = owner.unwrap_or(class_value(machine, class));
            if !machine.store().exists(class, x) {
                return push_no_entity(bytes, program.class_name(class), x);
            }
            push_owned_count(bytes, name, machine, set, x)
        }
    }
}

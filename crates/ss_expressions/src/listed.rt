//! The members of lists, and the entities of classes.
ghost use Rattle.std.specs.Prelude.{◌≡◌, ◌++◌, ◌∷◌, ◌<◌, [], length, OnOk, IfOk, Some};
ghost use Rattle.ss_words.specs.declared.fault.RunFault.{RunFault};
ghost use Rattle.ss_store.specs.Store.{number_of, members_of};
ghost use Rattle.ss_state.specs.Readings.{readings};
ghost use Rattle.ss_debug.specs.Entities.{shape_of, no_entity_text, owned_list_text};
ghost use Rattle.ss_program.specs.Program.{class_of, set_of};
ghost use Rattle.ss_readings.specs.ValueView.{value_if};
ghost use Rattle.ss_expressions.specs.Meanings.{listed_if};
ghost use Rattle.ss_expressions.specs.Answers as spec;

use ss_debug::{push_integer, push_listed};
use ss_inspect::{living_numbers, members_page};
use ss_links::SetBoard;
use ss_machine::Machine;
use ss_program::Owner;
use ss_readings::{Value, push_members};
use std::alloc::{AllocError, Global};

/// The members of the list of a set, which has `count` members.
#[tactic(auto, using(crate::proofs::Lists::whole_page))]
fn all_members<S: SetBoard>(
    alloc: Global,
    machine: &Machine<S>,
    set: usize,
    owner: i64,
    count: u32,
) -> Result<Vec<u32>, AllocError>
    requires set { set < length machine.now.input.program.sets }
    requires count { count ≡ length (members_of (shape_of machine.now.input.program set)
        machine.now.state.store (number_of owner)) }
    ensures { IfOk result (λ members. members.items
        ≡ members_of (shape_of machine.now.input.program set) machine.now.state.store
        (number_of owner)) }
{
    members_page(alloc, machine, set, owner, 0, count as usize)
}

/// The members of the list of a set for the owner that a value names, if there is such an owner.
#[tactic(auto, using(ss_debug::proofs::Tables::sets_kept))]
pub(crate) fn list_value<S: SetBoard>(
    alloc: Global,
    machine: &Machine<S>,
    set: usize,
    owner: i64,
) -> Result<Option<Value>, AllocError>
    requires { set < length machine.now.input.program.sets }
    ensures { IfOk result (λ value. value_if value ≡ listed_if machine.now.input.program
        machine.now.state.store set (Some (Ok owner))) }
{
    match machine.store().count(set, owner) {
        Err(_) => Ok(None),
        Ok(count) => Ok(Some(Value::Members(all_members(alloc, machine, set, owner, count)?))),
    }
}

/// Appends that there is no such entity of a class.
fn push_no_entity(text: &mut Vec<u8>, class: &[u8], x: i64) -> Result<(), AllocError>
    ensures { OnOk result (text.new.items ≡ text.old.items ++ no_entity_text class.now x) }
{
    text.extend_from_slice(b"NO ENTITY ")?;
    text.extend_from_slice(class)?;
    text.extend_from_slice(b" ")?;
    push_integer(text, x)?;
    text.extend_from_slice(b"\n")
}

/// Appends the list of a set for an entity of a class, or that there is no such entity.
fn push_owned<S: SetBoard>(
    text: &mut Vec<u8>,
    machine: &Machine<S>,
    set: usize,
    class: usize,
    owner: i64,
) -> Result<(), AllocError>
    requires { set < length machine.now.input.program.sets }
    ensures { OnOk result (text.new.items ≡ text.old.items
        ++ owned_list_text (set_of machine.now.input.program set).name machine.now.input.program
        machine.now.state.store set class owner) }
{
    let program = machine.program();
    if !machine.store().exists(class, owner) {
        return push_no_entity(text, program.class_name(class), owner);
    }
    text.extend_from_slice(program.set_name(set))?;
    text.extend_from_slice(b" ")?;
    push_integer(text, owner)?;
    push_listed(text, machine, set, owner)
}

/// Appends the list of a set for the owner that a value names, or that there is no such owner.
pub(crate) fn push_list<S: SetBoard>(
    text: &mut Vec<u8>,
    machine: &Machine<S>,
    set: usize,
    owner: i64,
) -> Result<(), AllocError>
    requires { set < length machine.now.input.program.sets }
    ensures { OnOk result (text.new.items ≡ text.old.items
        ++ spec.list_told machine.now.input.program machine.now.state set owner) }
{
    let program = machine.program();
    match program.set_owner(set) {
        Owner::System => {
            text.extend_from_slice(program.set_name(set))?;
            push_listed(text, machine, set, 0)
        }
        Owner::OwnedBy(class) => push_owned(text, machine, set, class, owner),
    }
}

/// Appends the name of a class and the numbers of its entities that live.
pub(crate) fn push_class<S: SetBoard>(
    text: &mut Vec<u8>,
    machine: &Machine<S>,
    class: usize,
) -> Result<(), AllocError>
    ensures { OnOk result (text.new.items ≡ text.old.items
        ++ spec.class_told machine.now.input.program machine.now.state class) }
{
    let members = living_numbers(*text.allocator(), machine, class)?;
    text.extend_from_slice(machine.program().class_name(class))?;
    text.extend_from_slice(b": ")?;
    push_members(text, &members)?;
    text.extend_from_slice(b"\n")
}

//! The answer to a question about the list of a set.
ghost use Rattle.std.specs.Prelude.{◌≡◌, ◌++◌, ◌<◌, length, OnOk, IfOk, true, slice_index_or, pos};
ghost use Rattle.ss_links.specs.Seats.{has, next_in};
ghost use Rattle.ss_program.specs.declared.kinds.Owner.TheVariants.{System};
ghost use Rattle.ss_program.specs.Program.{class_of};
ghost use Rattle.ss_store.specs.Tables.{set_of};
ghost use Rattle.ss_store.specs.Store.{number_of, members_of};
ghost use Rattle.ss_machine.specs.Moment.{position};
ghost use Rattle.ss_debug.specs.Entities.{shape_of, further_members, members_text, members_behind, listed_text};
ghost use Rattle.ss_debug.specs.Entities.{owned_list_text, list_text, set_text};

use crate::entity_text::no_entity_text;
use crate::name::Name;
use crate::program_rows::find_set;
use crate::text::{push_integer, push_number};
use ss_links::SetBoard;
use ss_machine::Machine;
use ss_program::{Owner, Variable};
use ss_store::Store;
use std::alloc::{AllocError, Global};

/// The member after one in the list of a set, or none if it is the last.
pub fn member_behind<S: SetBoard>(
    store: &Store<S>,
    set: usize,
    owner: i64,
    member: u32,
) -> Option<u32>
    requires set { set < length store.now.tables.sets }
    requires there { has (members_of (set_of store.now.tables set) store.now.state
        (number_of owner)) member ≡ true }
    ensures { result
        ≡ next_in (members_of (set_of store.now.tables set) store.now.state
        (number_of owner)) member }
{
    store.known();
    store
        .walk_next(set, owner, i64::from(member))
        .unwrap_or(None)
}

/// Appends the members after one, each after a blank.
fn push_further<S: SetBoard>(
    text: &mut Vec<u8>,
    store: &Store<S>,
    set: usize,
    owner: i64,
    first: u32,
) -> Result<(), AllocError>
    requires set { set < length store.now.tables.sets }
    requires there { has (members_of (set_of store.now.tables set) store.now.state
        (number_of owner)) first ≡ true }
    ensures ok { OnOk result (text.new.items ≡ text.old.items ++ further_members
        (members_behind (members_of (set_of store.now.tables set) store.now.state
        (number_of owner)) first)) }
{
    store.known();
    let mut member = first;
    while let Some(next) = member_behind(store, set, owner, member) {
        text.extend_from_slice(b" ")?;
        push_number(text, next as u64)?;
        member = next;
    }
    Ok(())
}

/// Appends the members of the list of a set with a blank between, or `EMPTY`.
///
/// `AllocError` if a growth was refused; then the appended bytes do not count.
#[tactic(auto, using(crate::proofs::Tables::sets_kept))]
pub fn push_list<S: SetBoard>(
    text: &mut Vec<u8>,
    machine: &Machine<S>,
    set: usize,
    owner: i64,
) -> Result<(), AllocError>
    requires { set < length machine.now.input.program.sets }
    ensures ok { OnOk result (text.new.items ≡ text.old.items
        ++ members_text (members_of (shape_of machine.now.input.program set)
        machine.now.state.store (number_of owner))) }
{
    let store = machine.store();
    let Ok(Some(first)) = store.walk_first(set, owner) else {
        return text.extend_from_slice(b"EMPTY");
    };
    push_number(text, first as u64)?;
    push_further(text, store, set, owner, first)
}

/// Appends the members of the list of a set, and ends the line.
pub fn push_listed<S: SetBoard>(
    text: &mut Vec<u8>,
    machine: &Machine<S>,
    set: usize,
    owner: i64,
) -> Result<(), AllocError>
    requires { set < length machine.now.input.program.sets }
    ensures ok { OnOk result (text.new.items ≡ text.old.items
        ++ listed_text machine.now.input.program machine.now.state.store set owner) }
{
    text.extend_from_slice(b": ")?;
    push_list(text, machine, set, owner)?;
    text.extend_from_slice(b"\n")
}

/// The list of a set for an entity of this class, or `NO ENTITY c k`.
fn owned_list_text<S: SetBoard>(
    alloc: Global,
    name: &[u8],
    machine: &Machine<S>,
    set: usize,
    class: usize,
    owner: i64,
) -> Result<Vec<u8>, AllocError>
    requires { set < length machine.now.input.program.sets }
    ensures { IfOk result (λ text. text.items
        ≡ owned_list_text name.now machine.now.input.program machine.now.state.store set class
        owner) }
{
    if !machine.store().exists(class, owner) {
        return no_entity_text(alloc, machine.program().class_name(class), owner);
    }
    let mut text = Vec::from_slice(alloc, name)?;
    text.extend_from_slice(b" ")?;
    push_integer(&mut text, owner)?;
    push_listed(&mut text, machine, set, owner)?;
    Ok(text)
}

/// The value of the variable of a class.
pub fn class_value<S: SetBoard>(machine: &Machine<S>, class: usize) -> i64
    requires { class < length machine.now.input.program.classes }
    ensures { result ≡ slice_index_or machine.now.state.variables
        (class_of machine.now.input.program class).variable (pos 0) }
{
    machine.known();
    let program = machine.program();
    program.known();
    machine.variable(Variable::Global(program.class_variable(class)))
}

/// The list of a set of the system, which has no owner's number.
fn system_list_text<S: SetBoard>(
    alloc: Global,
    name: &[u8],
    machine: &Machine<S>,
    set: usize,
    owner: Option<i64>,
) -> Result<Vec<u8>, AllocError>
    requires { set < length machine.now.input.program.sets }
    ensures { IfOk result (λ text. text.items
        ≡ list_text name.now owner machine.now.input.program machine.now.state set System) }
{
    if let Some(x) = owner {
        return no_entity_text(alloc, b"SYSTEM", x);
    }
    let mut text = Vec::from_slice(alloc, name)?;
    push_listed(&mut text, machine, set, 0)?;
    Ok(text)
}

/// The members of a set's list, `NO SET s` or `NO ENTITY c k`.
#[tactic(auto, unfolding(crate::specs::Entities::set_text))]
pub fn set_text<S: SetBoard>(
    alloc: Global,
    name: &Name,
    owner: Option<i64>,
    machine: &Machine<S>,
) -> Result<Vec<u8>, AllocError>
    ensures { IfOk result (λ text. text.items
        ≡ set_text name.now owner machine.now.input (position machine.now)) }
{
    machine.known();
    let program = machine.program();
    program.known();
    let name = name.as_slice();
    let Some(set) = find_set(program, name) else {
        let mut text = Vec::from_slice(alloc, b"NO SET ")?;
        text.extend_from_slice(name)?;
        text.extend_from_slice(b"\n")?;
        return Ok(text);
    };
    match program.set_owner(set) {
        Owner::System => system_list_text(alloc, name, machine, set, owner),
        Owner::OwnedBy(class) => {
            let x = owner.unwrap_or(class_value(machine, class));
            owned_list_text(alloc, name, machine, set, class, x)
        }
    }
}

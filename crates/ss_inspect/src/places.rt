//! The answer to SHOW IN: where an entity is.
ghost use Rattle.std.specs.Prelude.{◌≡◌, ◌++◌, ◌<◌, length, OnOk, true, [], codes, decimal};
ghost use Rattle.ss_links.specs.Seats.{has};
ghost use Rattle.ss_program.specs.Program.{set_of};
ghost use Rattle.ss_program.specs.declared.kinds.Owner.TheVariants.{OwnedBy};
ghost use Rattle.ss_events.specs.Agenda.{pending_at};
ghost use Rattle.ss_store.specs.Store.{number_of, exists, greatest_number, members_of};
ghost use Rattle.ss_store.specs.Tables as tables;
ghost use Rattle.ss_machine.specs.Moment.{position};
ghost use Rattle.ss_debug.specs.Entities.{shape_of};
ghost use Rattle.ss_inspect.specs.Lists.{list_with, owned_list_with, class_lists_with, due_text};
ghost use Rattle.ss_inspect.specs.Lists.{entity_places_text, places_text};
ghost use Rattle.ss_inspect.specs.Texts.{texts_below};

use crate::entities::number_limit;
use crate::texts::{push_no_entity, push_no_such};
use ss_debug::{find_class, push_listed, push_notice, push_number};
use ss_links::SetBoard;
use ss_machine::Machine;
use ss_program::Owner;
use ss_store::Store;
use std::alloc::{AllocError, Global};

/// Whether an entity that exists is in the list of a set.
fn holds<S: SetBoard>(store: &Store<S>, set: usize, owner: i64, x: i64) -> bool
    requires set { set < length store.now.tables.sets }
    requires there { exists store.now.state (tables.set_of store.now.tables set).member
        (number_of x) ≡ true }
    ensures { result ≡ has (members_of (tables.set_of store.now.tables set) store.now.state
        (number_of owner)) (number_of x) }
{
    store.is_in(set, owner, x).unwrap_or(false)
}

/// Whether an entity that exists is in the list of a set of the program.
#[tactic(auto, using(crate::proofs::Shapes::shape_is, ss_debug::proofs::Tables::sets_kept))]
fn is_listed<S: SetBoard>(machine: &Machine<S>, set: usize, owner: i64, x: i64) -> bool
    requires set { set < length machine.now.input.program.sets }
    requires there { exists machine.now.state.store (set_of machine.now.input.program set).member
        (number_of x) ≡ true }
    ensures { result ≡ has (members_of (shape_of machine.now.input.program set)
        machine.now.state.store (number_of owner)) (number_of x) }
{
    holds(machine.store(), set, owner, x)
}

/// Appends the list of a set for an owner, if the entity is in it.
fn push_owned_list_with<S: SetBoard>(
    text: &mut Vec<u8>,
    machine: &Machine<S>,
    set: usize,
    x: i64,
    owner: u32,
) -> Result<(), AllocError>
    requires set { set < length machine.now.input.program.sets }
    requires there { exists machine.now.state.store (set_of machine.now.input.program set).member
        (number_of x) ≡ true }
    ensures { OnOk result (text.new.items ≡ text.old.items
        ++ list_with machine.now.input.program machine.now.state.store set (number_of x)
        (codes " " ++ decimal owner) owner) }
{
    if !is_listed(machine, set, i64::from(owner), x) {
        return Ok(());
    }
    text.extend_from_slice(machine.program().set_name(set))?;
    text.extend_from_slice(b" ")?;
    push_number(text, u64::from(owner))?;
    push_listed(text, machine, set, i64::from(owner))
}

/// Appends the list of a set of the system, if the entity is in it.
fn push_system_list_with<S: SetBoard>(
    text: &mut Vec<u8>,
    machine: &Machine<S>,
    set: usize,
    x: i64,
) -> Result<(), AllocError>
    requires set { set < length machine.now.input.program.sets }
    requires there { exists machine.now.state.store (set_of machine.now.input.program set).member
        (number_of x) ≡ true }
    ensures { OnOk result (text.new.items ≡ text.old.items
        ++ list_with machine.now.input.program machine.now.state.store set (number_of x) [] 0) }
{
    if !is_listed(machine, set, 0, x) {
        return Ok(());
    }
    text.extend_from_slice(machine.program().set_name(set))?;
    push_listed(text, machine, set, 0)
}

/// Appends the lists of a set, of all entities of the class that owns it, in which the entity is.
fn push_owned_lists_with<S: SetBoard>(
    text: &mut Vec<u8>,
    machine: &Machine<S>,
    set: usize,
    x: i64,
    class: usize,
) -> Result<(), AllocError>
    requires set { set < length machine.now.input.program.sets }
    requires there { exists machine.now.state.store (set_of machine.now.input.program set).member
        (number_of x) ≡ true }
    requires owner { (set_of machine.now.input.program set).owner ≡ OwnedBy class }
    ensures { OnOk result (text.new.items ≡ text.old.items
        ++ texts_below (owned_list_with machine.now.input.program machine.now.state.store set
        (number_of x)) (greatest_number machine.now.state.store class)) }
{
    for below in 0..number_limit(machine.store(), class) {
        push_owned_list_with(text, machine, set, x, below + 1)?;
    }
    Ok(())
}

/// Appends the lists of a set in which the entity is, if the set's members are of this class.
fn push_class_lists_with<S: SetBoard>(
    text: &mut Vec<u8>,
    machine: &Machine<S>,
    class: usize,
    x: i64,
    set: usize,
) -> Result<(), AllocError>
    requires set { set < length machine.now.input.program.sets }
    requires there { exists machine.now.state.store class (number_of x) ≡ true }
    ensures { OnOk result (text.new.items ≡ text.old.items
        ++ class_lists_with machine.now.input.program machine.now.state.store class
        (number_of x) set) }
{
    let program = machine.program();
    if program.member_class(set) != class {
        return Ok(());
    }
    match program.set_owner(set) {
        Owner::System => push_system_list_with(text, machine, set, x),
        Owner::OwnedBy(owner) => push_owned_lists_with(text, machine, set, x, owner),
    }
}

/// Appends all lists in which the entity is.
fn push_lists_with<S: SetBoard>(
    text: &mut Vec<u8>,
    machine: &Machine<S>,
    class: usize,
    x: i64,
) -> Result<(), AllocError>
    requires { exists machine.now.state.store class (number_of x) ≡ true }
    ensures { OnOk result (text.new.items ≡ text.old.items
        ++ texts_below (class_lists_with machine.now.input.program machine.now.state.store class
        (number_of x)) (length machine.now.input.program.sets)) }
{
    for set in 0..machine.program().sets.len() {
        push_class_lists_with(text, machine, class, x, set)?;
    }
    Ok(())
}

/// Appends when the entity is due, if it is a pending notice.
fn push_due<S: SetBoard>(
    text: &mut Vec<u8>,
    machine: &Machine<S>,
    class: usize,
    x: i64,
) -> Result<(), AllocError>
    requires { exists machine.now.state.store class (number_of x) ≡ true }
    ensures { OnOk result (text.new.items ≡ text.old.items
        ++ due_text machine.now.input.program class (number_of x)
        (pending_at machine.now.state.agenda.pending (number_of x))) }
{
    machine.store().known();
    let notice = x as u32;
    let Some(slot) = machine.agenda().slot(notice) else {
        return Ok(());
    };
    if slot.class != class {
        return Ok(());
    }
    push_notice(text, machine.program(), notice, slot)
}

/// Appends where an entity that exists is: its lists, and when it is due.
fn push_entity_places<S: SetBoard>(
    alloc: Global,
    text: &mut Vec<u8>,
    machine: &Machine<S>,
    class: usize,
    x: i64,
) -> Result<(), AllocError>
    requires { exists machine.now.state.store class (number_of x) ≡ true }
    ensures { OnOk result (text.new.items ≡ text.old.items
        ++ entity_places_text machine.now.input.program machine.now.state class (number_of x)) }
{
    let mut lines = Vec::new(alloc);
    push_lists_with(&mut lines, machine, class, x)?;
    push_due(&mut lines, machine, class, x)?;
    if lines.is_empty() {
        return text.extend_from_slice(b"IN NO LIST\n");
    }
    text.extend_from_slice(&lines)
}

/// Appends the answer to SHOW IN: each list in which the entity of the class of this name with the
/// number x is, in the order of the sets, as SHOW SET gives it, and the time of a pending notice;
/// else `IN NO LIST`, `NO CLASS c` or `NO ENTITY c k`. For each set it looks once at each number
/// that an owner may have.
#[tactic(auto, unfolding(crate::specs::Lists::places_text))]
pub fn push_places<S: SetBoard>(
    alloc: Global,
    text: &mut Vec<u8>,
    machine: &Machine<S>,
    name: &[u8],
    x: i64,
) -> Result<(), AllocError>
    ensures { OnOk result (text.new.items
        ≡ text.old.items ++ places_text name.now x machine.now.input (position machine.now)) }
{
    machine.known();
    let Some(class) = find_class(machine.program(), name) else {
        return push_no_such(text, b"CLASS", name);
    };
    if !machine.store().exists(class, x) {
        return push_no_entity(text, name, x);
    }
    push_entity_places(alloc, text, machine, class, x)
}

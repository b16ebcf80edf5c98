//! The values of parts in the state at a machine's position.
ghost use Rattle.std.specs.Prelude.{◌≡◌, ◌<◌, ◌-◌, length, map, IfOk, slice_get};
ghost use Rattle.ss_store.specs.Store.{members_of, attribute_of, exists};
ghost use Rattle.ss_store.specs.Tables.{set_of};
ghost use Rattle.ss_events.specs.Agenda.{pending_at};
ghost use Rattle.ss_state.specs.Frames.{frame_local};
ghost use Rattle.ss_debug.specs.Entities.{shape_of};
ghost use Rattle.ss_changes.specs.declared.part.Part.TheVariants as parts;
ghost use Rattle.ss_changes.specs.Values.{number_if, number_read, life_of, time_of, listed_in, value_in};

use crate::part::Part;
use crate::value::{Members, PartValue};
use ss_events::Agenda;
use ss_inspect::members_page;
use ss_links::SetBoard;
use ss_machine::Machine;
use ss_program::Variable;
use ss_store::Store;
use std::alloc::{AllocError, Global};

/// A number, if there is one.
fn number_if(number: Option<i64>) -> PartValue
    ensures { result ≡ number_if number }
{
    match number {
        None => PartValue::Absent,
        Some(x) => PartValue::Number(x),
    }
}

/// The value of the global variable with this number.
#[tactic(auto, using(crate::proofs::StateLaws::there, crate::proofs::StateLaws::past))]
fn global_value<S: SetBoard>(machine: &Machine<S>, number: usize) -> PartValue
    ensures { result ≡ number_if (slice_get machine.now.state.variables number) }
{
    machine.known();
    if machine.program().globals.len() <= number {
        return PartValue::Absent;
    }
    PartValue::Number(machine.variable(Variable::Global(number)))
}

/// The value of the local with this number of the frame with `below` frames below it.
fn local_value<S: SetBoard>(machine: &Machine<S>, below: usize, number: usize) -> PartValue
    ensures { result ≡ number_if
        (frame_local machine.now.state (length machine.now.state.below - below) number) }
{
    let depth = (machine.frames() - 1).saturating_sub(below);
    number_if(machine.frame_local(depth, number))
}

/// The members of the list of a set, which has `count` members.
#[tactic(auto, using(crate::proofs::StateLaws::whole_page))]
fn members<S: SetBoard>(
    alloc: Global,
    machine: &Machine<S>,
    set: usize,
    owner: u32,
    count: u32,
) -> Result<Members, AllocError>
    requires set { set < length machine.now.input.program.sets }
    requires count { count ≡ length (members_of (shape_of machine.now.input.program set)
        machine.now.state.store owner) }
    ensures { IfOk result (λ members. members
        ≡ members_of (shape_of machine.now.input.program set) machine.now.state.store owner) }
{
    let numbers = members_page(alloc, machine, set, i64::from(owner), 0, count as usize)?;
    Ok(Members { numbers })
}

/// The members of the list of a set, if its owner is there.
#[tactic(auto, using(ss_debug::proofs::Tables::sets_kept))]
fn listed<S: SetBoard>(
    alloc: Global,
    machine: &Machine<S>,
    set: usize,
    owner: u32,
) -> Result<PartValue, AllocError>
    requires { set < length machine.now.input.program.sets }
    ensures { IfOk result (λ value. value
        ≡ listed_in (shape_of machine.now.input.program set) machine.now.state.store owner) }
{
    match machine.store().count(set, i64::from(owner)) {
        Err(_) => Ok(PartValue::Absent),
        Ok(count) => Ok(PartValue::Listed(members(alloc, machine, set, owner, count)?)),
    }
}

/// The members of the list of a set, if there is such a set and owner.
fn list_value<S: SetBoard>(
    alloc: Global,
    machine: &Machine<S>,
    set: usize,
    owner: u32,
) -> Result<PartValue, AllocError>
    ensures { IfOk result (λ value. value ≡ value_in machine.now.input.program machine.now.state
        (parts.List set owner)) }
{
    if machine.program().sets.len() <= set {
        return Ok(PartValue::Absent);
    }
    listed(alloc, machine, set, owner)
}

/// When a notice is due, if it is pending.
#[tactic(auto, using(crate::proofs::StateLaws::no_notice))]
fn notice_value<S: SetBoard>(agenda: &Agenda<S>, notice: u32) -> PartValue
    ensures { result ≡ time_of (pending_at agenda.now.agenda.pending notice) }
{
    agenda.known();
    if notice == 0 {
        return PartValue::Absent;
    }
    match agenda.slot(notice) {
        None => PartValue::Absent,
        Some(slot) => PartValue::Number(slot.time),
    }
}

/// The value of an attribute of an entity.
fn attribute_value<S: SetBoard>(
    store: &Store<S>,
    class: usize,
    entity: u32,
    attribute: usize,
) -> PartValue
    ensures { result ≡ number_read (attribute_of store.now.state class attribute entity) }
{
    match store.get(class, attribute, i64::from(entity)) {
        Err(_) => PartValue::Absent,
        Ok(x) => PartValue::Number(x),
    }
}

/// Whether an entity lives.
fn life_of<S: SetBoard>(store: &Store<S>, class: usize, entity: u32) -> PartValue
    ensures { result ≡ life_of (exists store.now.state class entity) }
{
    if store.exists(class, i64::from(entity)) {
        PartValue::Lives
    } else {
        PartValue::Absent
    }
}

/// The value of a part.
pub fn value_of<S: SetBoard>(
    alloc: Global,
    machine: &Machine<S>,
    part: Part,
) -> Result<PartValue, AllocError>
    ensures { IfOk result (λ value. value
        ≡ value_in machine.now.input.program machine.now.state part) }
{
    Ok(match part {
        Part::Global { number } => global_value(machine, number),
        Part::Local { below, number } => local_value(machine, below, number),
        Part::Attribute {
            class,
            entity,
            attribute,
        } => attribute_value(machine.store(), class, entity, attribute),
        Part::Entity { class, entity } => life_of(machine.store(), class, entity),
        Part::List { set, owner } => return list_value(alloc, machine, set, owner),
        Part::Notice { notice, .. } => notice_value(machine.agenda(), notice),
        Part::Taken => PartValue::Count(machine.taken()),
        Part::Entry => PartValue::Entered(machine.entry()),
        Part::Clock => PartValue::Number(machine.clock()),
        Part::Report => PartValue::Bytes(machine.report().len()),
    })
}

/// The values of some parts.
pub fn values_of<S: SetBoard>(
    alloc: Global,
    machine: &Machine<S>,
    parts: &[Part],
) -> Result<Vec<PartValue>, AllocError>
    ensures { IfOk result (λ values. values.items
        ≡ map (value_in machine.now.input.program machine.now.state) parts.now) }
{
    let mut values = Vec::new(alloc);
    for part in parts {
        values.push(value_of(alloc, machine, *part)?)?;
    }
    Ok(values)
}

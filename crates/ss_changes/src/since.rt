//! The changes since a state that a movement left.
ghost use Rattle.std.specs.Prelude.{◌≡◌, ◌++◌, [], length, map, slice_index_or, OnOk, IfOk};
ghost use Rattle.std.specs.List.Sorted.{IsNonDecreasing};
ghost use Rattle.ss_state.specs.Run.{run};
ghost use Rattle.ss_changes.specs.Parts.{notices_in};
ghost use Rattle.ss_changes.specs.Changes.{changes_across, turned};
ghost use Rattle.ss_changes.specs.Snapshots.{AreRising, noted_against, frames_against, value_before};
ghost use Rattle.ss_changes.specs.Snapshots.{is_among, new_among, numbers_of, IsTakenIn};
ghost use Rattle.ss_changes.specs.View.{living_in, entities_among};

use crate::change::Change;
use crate::changes::push_told;
use crate::listing::{living, notices_now, push_all_entities};
use crate::numbers::{has_number, rising_numbers};
use crate::part::Part;
use crate::rows::{is_same_section, section_below};
use crate::snapshot::{FrameNoted, Noted, Snapshot};
use crate::value::{Members, PartValue};
use ss_links::SetBoard;
use ss_machine::Machine;
use std::alloc::{AllocError, Global};

/// Appends those of some noted parts whose values now are shown as changed.
fn push_noted<S: SetBoard>(
    alloc: Global,
    machine: &Machine<S>,
    notes: &Noted,
    changes: &mut Vec<Change>,
) -> Result<(), AllocError>
    ensures { OnOk result (changes.new.items ≡ changes.old.items
        ++ noted_against machine.now.input.program machine.now.state notes.now) }
{
    push_told(alloc, machine, &notes.parts, &notes.values, changes)
}

/// Appends the locals that changed, of the last frame that both states have.
fn push_shared_locals<S: SetBoard>(
    alloc: Global,
    machine: &Machine<S>,
    frames: &[FrameNoted],
    changes: &mut Vec<Change>,
) -> Result<(), AllocError>
    ensures { OnOk result (changes.new.items ≡ changes.old.items
        ++ frames_against machine.now.input.program machine.now.state frames.now) }
{
    let below = frames.len().min(machine.frames()).saturating_sub(1);
    let Some(frame) = frames.get(below) else {
        return Ok(());
    };
    if !is_same_section(frame.section, section_below(machine, below)) {
        return Ok(());
    }
    push_noted(alloc, machine, &frame.locals, changes)
}

/// The numbers of the entities of a class that lived.
fn lived_of(lived: &[Members], class: usize) -> &[u32]
    ensures { result.now ≡ slice_index_or lived.now class [] }
{
    match lived.get(class) {
        None => &[],
        Some(members) => &members.numbers,
    }
}

/// The value that a part had, by the entities that lived: no notice was pending.
fn value_before(lived: &[Members], part: Part) -> PartValue
    requires { AreRising lived.now }
    ensures { result ≡ value_before lived.now part }
{
    let Part::Entity { class, entity } = part else {
        return PartValue::Absent;
    };
    if has_number(lived_of(lived, class), entity) {
        PartValue::Lives
    } else {
        PartValue::Absent
    }
}

/// The values that some parts had.
fn values_before(
    alloc: Global,
    lived: &[Members],
    parts: &[Part],
) -> Result<Vec<PartValue>, AllocError>
    requires { AreRising lived.now }
    ensures { IfOk result (λ values. values.items ≡ map (value_before lived.now) parts.now) }
{
    let mut values = Vec::new(alloc);
    for part in parts {
        values.push(value_before(lived, *part))?;
    }
    Ok(values)
}

/// Some parts with the values that they had.
fn noted_before(alloc: Global, lived: &[Members], parts: Vec<Part>) -> Result<Noted, AllocError>
    requires { AreRising lived.now }
    ensures { IfOk result (λ notes. notes ≡ record {
      parts = parts.items;
      values = map (value_before lived.now) parts.items;
    }) }
{
    let values = values_before(alloc, lived, &parts)?;
    Ok(Noted { parts, values })
}

/// The entities that lived, and those that live now, with the values that they had.
fn entities_noted<S: SetBoard>(
    alloc: Global,
    machine: &Machine<S>,
    lived: &[Members],
) -> Result<Noted, AllocError>
    requires classes { length lived.now ≡ length machine.now.input.program.classes }
    requires rising { AreRising lived.now }
    ensures { IfOk result (λ notes. notes ≡ record {
      parts = entities_among lived.now (living_in machine.now.input.program machine.now.state);
      values = map (value_before lived.now)
          (entities_among lived.now (living_in machine.now.input.program machine.now.state));
    }) }
{
    let now = living(alloc, machine)?;
    let mut parts = Vec::new(alloc);
    push_all_entities(&mut parts, lived, &now)?;
    noted_before(alloc, lived, parts)
}

/// Whether a part is a notice with one of some numbers.
fn is_among(known: &[u32], part: Part) -> bool
    requires { IsNonDecreasing known.now }
    ensures { result ≡ is_among known.now part }
{
    match part {
        Part::Notice { notice, .. } => has_number(known, notice),
        _ => false,
    }
}

/// Those of some parts that are no notices with these numbers.
fn new_among(alloc: Global, known: &[u32], among: &[Part]) -> Result<Vec<Part>, AllocError>
    requires { IsNonDecreasing known.now }
    ensures { IfOk result (λ parts. parts.items ≡ new_among known.now among.now) }
{
    let mut parts = Vec::new(alloc);
    for part in among {
        if !is_among(known, *part) {
            parts.push(*part)?;
        }
    }
    Ok(parts)
}

/// The notices that are pending now, but none that was pending, with the values that they had.
fn new_notices_noted<S: SetBoard>(
    alloc: Global,
    machine: &Machine<S>,
    pending: &[Part],
) -> Result<Noted, AllocError>
    ensures { IfOk result (λ notes. notes ≡ record {
      parts = new_among (numbers_of pending.now)
          (notices_in machine.now.input.program machine.now.state);
      values = map (value_before [])
          (new_among (numbers_of pending.now)
          (notices_in machine.now.input.program machine.now.state));
    }) }
{
    let known = rising_numbers(alloc, pending)?;
    let now = notices_now(alloc, machine)?;
    noted_before(alloc, &[], new_among(alloc, &known, &now)?)
}

/// The changes from the state that a snapshot was taken in to this one, earlier or later.
pub fn changes_since<S: SetBoard>(
    alloc: Global,
    machine: &Machine<S>,
    left: &Snapshot,
) -> Result<Vec<Change>, AllocError>
    requires { IsTakenIn machine.now.input left.now }
    ensures { IfOk result (λ changes. changes.items ≡ changes_across machine.now.input.program
        (run machine.now.input left.now.position) machine.now.state) }
{
    machine.program().known();
    let entities = entities_noted(alloc, machine, &left.living)?;
    let notices = new_notices_noted(alloc, machine, &left.notices.parts)?;
    let mut changes = Vec::new(alloc);
    push_noted(alloc, machine, &left.globals, &mut changes)?;
    push_shared_locals(alloc, machine, &left.frames, &mut changes)?;
    push_noted(alloc, machine, &left.attributes, &mut changes)?;
    push_noted(alloc, machine, &entities, &mut changes)?;
    push_noted(alloc, machine, &left.lists, &mut changes)?;
    push_noted(alloc, machine, &left.notices, &mut changes)?;
    push_noted(alloc, machine, &notices, &mut changes)?;
    push_noted(alloc, machine, &left.singles, &mut changes)?;
    Ok(changes)
}

/// The same changes with their values exchanged.
pub fn turned(alloc: Global, changes: Vec<Change>) -> Result<Vec<Change>, AllocError>
    ensures { IfOk result (λ turned_ones. turned_ones.items ≡ map turned changes.items) }
{
    let mut exchanged = Vec::new(alloc);
    for change in changes {
        exchanged.push(Change {
            part: change.part,
            before: change.after,
            after: change.before,
        })?;
    }
    Ok(exchanged)
}

//! What is noted of a state before a movement leaves it.
ghost use Rattle.std.specs.Prelude.{◌≡◌, length, IfOk};
ghost use Rattle.ss_machine.specs.Moment.{position};
ghost use Rattle.ss_changes.specs.Parts.{below_of, global_part, local_part, local_names, notices_in};
ghost use Rattle.ss_changes.specs.Parts.{section_below};
ghost use Rattle.ss_changes.specs.Snapshots.{noted, frame_noted, frames_noted, snapshot_of, IsTakenIn};
ghost use Rattle.ss_changes.specs.View.{living_in, attributes_among, lists_among, single_parts};

use crate::listing::{
    living, notices_now, push_all_attributes, push_all_lists, push_globals, push_locals,
};
use crate::part::Part;
use crate::reading::values_of;
use crate::rows::{local_names, section_below};
use crate::value::{Members, PartValue};
use ss_debug::Debugger;
use ss_links::SetBoard;
use ss_machine::Machine;
use std::alloc::{AllocError, Global};
use std::marker::Model;

/// Some parts, and their values in a state.
#[derive(Drop)]
pub struct Noted {
    /// The parts.
    pub parts: Vec<Part>,
    /// Their values, in the same order.
    pub values: Vec<PartValue>,
}

impl Model for Noted {
    ghost use Rattle.std.specs.Prelude.{◌≡◌, length};
    ghost use Rattle.ss_changes.specs.Snapshots.{NotedView};

    ghost Value = { NotedView };

    ghost view = { λ n. record { parts = n.parts.items; values = n.values.items } };

    ghost invariant = { λ n. length n.values.items ≡ length n.parts.items };
}

/// A frame of a state.
#[derive(Drop)]
pub struct FrameNoted {
    /// The number of the section that it runs.
    pub section: Option<usize>,
    /// Its locals.
    pub locals: Noted,
}

impl Model for FrameNoted {
    ghost use Rattle.ss_changes.specs.Snapshots.{FrameView};

    ghost Value = { FrameView };

    ghost view = { λ f. record { section = f.section; locals = f.locals } };
}

/// All that is compared of a state.
#[derive(Drop)]
pub struct Snapshot {
    /// The position of the state.
    pub position: u64,
    /// The global variables.
    pub globals: Noted,
    /// The frames, MAIN's first.
    pub frames: Vec<FrameNoted>,
    /// The attributes of the entities that live.
    pub attributes: Noted,
    /// The numbers of the entities that live, class by class.
    pub living: Vec<Members>,
    /// The lists.
    pub lists: Noted,
    /// The pending notices, in their order.
    pub notices: Noted,
    /// The parts of which there is one.
    pub singles: Noted,
}

impl Model for Snapshot {
    ghost use Rattle.ss_changes.specs.Snapshots.{SnapshotView};

    ghost Value = { SnapshotView };

    ghost view = { λ s. record {
      position = s.position;
      globals = s.globals;
      frames = s.frames.items;
      attributes = s.attributes;
      living = s.living.items;
      lists = s.lists;
      notices = s.notices;
      singles = s.singles;
    } };
}

/// Some parts with their values.
fn with_values<S: SetBoard>(
    alloc: Global,
    machine: &Machine<S>,
    parts: Vec<Part>,
) -> Result<Noted, AllocError>
    ensures { IfOk result (λ notes. notes
        ≡ noted machine.now.input.program machine.now.state parts.items) }
{
    let values = values_of(alloc, machine, &parts)?;
    Ok(Noted { parts, values })
}

/// The global variables.
fn globals_noted<S: SetBoard>(alloc: Global, machine: &Machine<S>) -> Result<Noted, AllocError>
    ensures { IfOk result (λ notes. notes ≡ noted machine.now.input.program machine.now.state
        (below_of global_part (length machine.now.input.program.globals))) }
{
    let mut parts = Vec::new(alloc);
    push_globals(&mut parts, machine.program().globals.len())?;
    with_values(alloc, machine, parts)
}

/// The frame with `below` frames below it.
fn frame_noted<S: SetBoard>(
    alloc: Global,
    machine: &Machine<S>,
    below: usize,
) -> Result<FrameNoted, AllocError>
    ensures { IfOk result (λ frame. frame
        ≡ frame_noted machine.now.input.program machine.now.state below) }
{
    let mut parts = Vec::new(alloc);
    push_locals(&mut parts, below, local_names(machine, below).len())?;
    Ok(FrameNoted {
        section: section_below(machine, below),
        locals: with_values(alloc, machine, parts)?,
    })
}

/// All frames, MAIN's first.
fn frames_noted<S: SetBoard>(
    alloc: Global,
    machine: &Machine<S>,
) -> Result<Vec<FrameNoted>, AllocError>
    ensures { IfOk result (λ frames. frames.items
        ≡ frames_noted machine.now.input.program machine.now.state) }
{
    let mut frames = Vec::new(alloc);
    for below in 0..machine.frames() {
        frames.push(frame_noted(alloc, machine, below)?)?;
    }
    Ok(frames)
}

/// The attributes of some entities of each class.
fn attributes_noted<S: SetBoard>(
    alloc: Global,
    machine: &Machine<S>,
    living: &[Members],
) -> Result<Noted, AllocError>
    ensures { IfOk result (λ notes. notes ≡ noted machine.now.input.program machine.now.state
        (attributes_among machine.now.input.program living.now)) }
{
    let mut parts = Vec::new(alloc);
    push_all_attributes(&mut parts, machine.program(), living)?;
    with_values(alloc, machine, parts)
}

/// The lists for the system and for some entities of each class.
fn lists_noted<S: SetBoard>(
    alloc: Global,
    machine: &Machine<S>,
    living: &[Members],
) -> Result<Noted, AllocError>
    ensures { IfOk result (λ notes. notes ≡ noted machine.now.input.program machine.now.state
        (lists_among machine.now.input.program living.now)) }
{
    let mut parts = Vec::new(alloc);
    push_all_lists(&mut parts, machine.program(), living)?;
    with_values(alloc, machine, parts)
}

/// The parts of which there is one.
fn singles_noted<S: SetBoard>(alloc: Global, machine: &Machine<S>) -> Result<Noted, AllocError>
    ensures { IfOk result (λ notes. notes
        ≡ noted machine.now.input.program machine.now.state single_parts) }
{
    let singles = [Part::Taken, Part::Entry, Part::Clock, Part::Report];
    with_values(alloc, machine, Vec::from_slice(alloc, &singles)?)
}

/// All that is compared of the state at a machine's position.
fn snapshot_of<S: SetBoard>(alloc: Global, machine: &Machine<S>) -> Result<Snapshot, AllocError>
    ensures { IfOk result (λ left. left ≡ snapshot_of machine.now.input.program
        machine.now.state (position machine.now)) }
{
    let living = living(alloc, machine)?;
    Ok(Snapshot {
        position: machine.position(),
        globals: globals_noted(alloc, machine)?,
        frames: frames_noted(alloc, machine)?,
        attributes: attributes_noted(alloc, machine, &living)?,
        lists: lists_noted(alloc, machine, &living)?,
        notices: with_values(alloc, machine, notices_now(alloc, machine)?)?,
        singles: singles_noted(alloc, machine)?,
        living,
    })
}

impl Snapshot {
    /// All that is compared of the state at a debugger's position. It takes as long, and as much
    /// memory, as reading all parts of the state.
    ///
    /// `AllocError` if memory was refused.
    pub fn of<S: SetBoard>(alloc: Global, debugger: &Debugger<S>) -> Result<Snapshot, AllocError>
        ensures taken { IfOk result (λ left. IsTakenIn debugger.now.machine.input left) }
        ensures here { IfOk result (λ left. left.position ≡ position debugger.now.machine) }
    {
        let machine = debugger.machine();
        machine.known();
        let left = snapshot_of(alloc, machine)?;
        Ok(left)
    }
}

//! The parts whose values in two states are compared.
ghost use Rattle.std.specs.Prelude.{◌≡◌, ◌<◌, length, IfOk};
ghost use Rattle.ss_state.specs.State.{State};
ghost use Rattle.ss_changes.specs.Parts.{notices_in};
ghost use Rattle.ss_changes.specs.Changes.{changes_between, changes_among};
ghost use Rattle.ss_changes.specs.View.{local_counts, living_in};

use crate::listing::{
    living, notices_now, push_absent, push_all_attributes, push_all_entities, push_all_lists,
    push_globals, push_locals,
};
use crate::part::Part;
use crate::value::Members;
use ss_links::SetBoard;
use ss_machine::Machine;
use std::alloc::{AllocError, Global};

/// The parts whose values in this state and a later one are compared, in order. The later state is
/// given by the number of locals of each frame, the entities that live, and the pending notices.
/// Some of the parts did not change: an entity that lives in both states is named twice.
pub fn compared_parts<S: SetBoard>(
    alloc: Global,
    machine: &Machine<S>,
    counts: &[usize],
    later: &[Members],
    notices: &[Part],
) -> Result<Vec<Part>, AllocError>
    requires frames { 0 < length counts.now }
    requires classes { length later.now ≡ length machine.now.input.program.classes }
    ensures { IfOk result (λ parts. (u : State)
        → counts.now ≡ local_counts machine.now.input.program u
        → later.now ≡ living_in machine.now.input.program u
        → notices.now ≡ notices_in machine.now.input.program u
        → changes_among machine.now.input.program machine.now.state u parts.items
        ≡ changes_between machine.now.input.program machine.now.state u) }
{
    let program = machine.program();
    program.known();
    let earlier = living(alloc, machine)?;
    let pending = notices_now(alloc, machine)?;
    let below = (machine.frames() - 1).min(counts.len() - 1);
    let mut parts = Vec::new(alloc);
    push_globals(&mut parts, program.globals.len())?;
    push_locals(&mut parts, below, counts[below])?;
    push_all_attributes(&mut parts, program, later)?;
    push_all_entities(&mut parts, &earlier, later)?;
    push_all_lists(&mut parts, program, later)?;
    parts.extend_from_slice(&pending)?;
    push_absent(alloc, &mut parts, machine, notices)?;
    parts.extend_from_slice(&[Part::Taken, Part::Entry, Part::Clock, Part::Report])?;
    Ok(parts)
}

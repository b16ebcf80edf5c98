//! The answer to SHOW EVENTS.
ghost use Rattle.std.specs.Prelude.{◌≡◌, ◌++◌, length, OnOk, IfOk};
ghost use Rattle.ss_events.specs.Rules.{rules_of};
ghost use Rattle.ss_events.specs.Agenda.{in_order};
ghost use Rattle.ss_machine.specs.Moment.{position};
ghost use Rattle.ss_debug.specs.Answer.{notice_line, notice_lines, events_text};

use crate::text::{push_integer, push_number};
use ss_events::Slot;
use ss_links::SetBoard;
use ss_machine::Machine;
use ss_program::Program;
use std::alloc::{AllocError, Global};

/// Appends the line of a pending notice: its class, its reference and its time.
pub fn push_notice(
    text: &mut Vec<u8>,
    program: &Program,
    notice: u32,
    slot: Slot,
) -> Result<(), AllocError>
    ensures { OnOk result (text.new.items ≡ text.old.items
        ++ notice_line program.now notice slot) }
{
    text.extend_from_slice(program.class_name(slot.class))?;
    text.extend_from_slice(b" ")?;
    push_number(text, u64::from(notice))?;
    text.extend_from_slice(b" AT ")?;
    push_integer(text, slot.time)?;
    text.extend_from_slice(b"\n")
}

/// Appends a line for each pending notice, the next first. Gives their number.
///
/// `AllocError` if a growth was refused; then the appended bytes do not count.
pub fn push_notices<S: SetBoard>(
    text: &mut Vec<u8>,
    machine: &Machine<S>,
) -> Result<usize, AllocError>
    ensures lines { OnOk result (text.new.items ≡ text.old.items
        ++ notice_lines machine.now.input.program
        (in_order (rules_of machine.now.input.program) machine.now.state.agenda)) }
    ensures count { IfOk result (λ count. count
        ≡ length (in_order (rules_of machine.now.input.program) machine.now.state.agenda)) }
{
    machine.known();
    let agenda = machine.agenda();
    agenda.known();
    let mut listing = agenda.listing();
    while let Some(notice) = agenda.list_next(&mut listing) {
        let slot = agenda.slot(notice).unwrap();
        push_notice(text, machine.program(), notice, slot)?;
    }
    Ok(listing.listed)
}

/// A line for each pending notice, the next first, or `NO EVENTS`.
#[tactic(auto, unfolding(crate::specs::Answer::events_text))]
pub fn events_text<S: SetBoard>(alloc: Global, machine: &Machine<S>) -> Result<Vec<u8>, AllocError>
    ensures { IfOk result (λ text. text.items
        ≡ events_text machine.now.input (position machine.now)) }
{
    machine.known();
    let mut text = Vec::new(alloc);
    let count = push_notices(&mut text, machine)?;
    if count == 0 {
        return Vec::from_slice(alloc, b"NO EVENTS\n");
    }
    Ok(text)
}

//! Rows of the pending notices, after the answer to SHOW EVENTS.
ghost use Rattle.std.specs.Prelude.{◌≡◌, ◌++◌, OnOk};
ghost use Rattle.ss_machine.specs.Moment.{position};
ghost use Rattle.ss_prompt.specs.Rows.{further_cells, cells, row_if_any, notice_row, notice_rows_text};

use crate::rows::{push_cell, push_row_head};
use ss_events::Slot;
use ss_links::SetBoard;
use ss_machine::Machine;
use ss_program::Name;
use std::alloc::AllocError;

/// Appends attributes of a notice, each after a comma.
fn push_further_cells<S: SetBoard>(
    text: &mut Vec<u8>,
    machine: &Machine<S>,
    class: usize,
    notice: u32,
    names: &[Name],
) -> Result<(), AllocError>
    ensures { OnOk result (text.new.items ≡ text.old.items
        ++ further_cells machine.now.input.program machine.now.state.store class notice names.now) }
{
    for name in names {
        text.extend_from_slice(b", ")?;
        push_cell(text, machine, class, notice, &name.bytes)?;
    }
    Ok(())
}

/// Appends attributes of a notice, a comma between.
fn push_cells<S: SetBoard>(
    text: &mut Vec<u8>,
    machine: &Machine<S>,
    class: usize,
    notice: u32,
    names: &[Name],
) -> Result<(), AllocError>
    ensures { OnOk result (text.new.items ≡ text.old.items
        ++ cells machine.now.input.program machine.now.state.store class notice names.now) }
{
    let Some(name) = names.first() else {
        return Ok(());
    };
    push_cell(text, machine, class, notice, &name.bytes)?;
    push_further_cells(text, machine, class, notice, &names[1..])
}

/// Appends the row of a pending notice with the attributes of its class; nothing if that has none.
fn push_notice_row<S: SetBoard>(
    text: &mut Vec<u8>,
    machine: &Machine<S>,
    notice: u32,
    slot: Slot,
) -> Result<(), AllocError>
    ensures { OnOk result (text.new.items ≡ text.old.items
        ++ notice_row machine.now.input.program machine.now.state.store notice slot) }
{
    let program = machine.program();
    let names = program.attributes(slot.class);
    if names.is_empty() {
        return Ok(());
    }
    push_row_head(text, program.class_name(slot.class), notice)?;
    push_cells(text, machine, slot.class, notice, names)?;
    text.extend_from_slice(b"\n")
}

/// Appends a row for each pending notice whose class has attributes, in the order of SHOW EVENTS.
#[tactic(auto, unfolding(crate::specs::Rows::notice_rows_text))]
pub(crate) fn push_notice_rows<S: SetBoard>(
    text: &mut Vec<u8>,
    machine: &Machine<S>,
) -> Result<(), AllocError>
    ensures { OnOk result (text.new.items ≡ text.old.items
        ++ notice_rows_text machine.now.input (position machine.now)) }
{
    machine.known();
    let agenda = machine.agenda();
    agenda.known();
    let mut listing = agenda.listing();
    while let Some(notice) = agenda.list_next(&mut listing) {
        let slot = agenda.slot(notice).unwrap();
        push_notice_row(text, machine, notice, slot)?;
    }
    Ok(())
}

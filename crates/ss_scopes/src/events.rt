//! The event list.
ghost use Rattle.std.specs.Prelude.{◌≡◌, ◌++◌, OnOk};
ghost use Rattle.ss_scopes.specs.Events.{notice_item, event_items};

use crate::entities::entity_name;
use crate::group::class_reference;
use ss_debug::push_integer;
use ss_events::Slot;
use ss_links::SetBoard;
use ss_machine::Machine;
use ss_messages::variable_item;
use ss_program::Program;
use std::alloc::AllocError;

/// Appends a pending notice.
fn push_event(
    out: &mut Vec<u8>,
    program: &Program,
    notice: u32,
    slot: Slot,
) -> Result<(), AllocError>
    ensures { OnOk result (out.new.items
        ≡ out.old.items ++ notice_item program.now notice slot) }
{
    let alloc = *out.allocator();
    let name = entity_name(alloc, program, slot.class, notice)?;
    let mut due = Vec::from_slice(alloc, b"AT ")?;
    push_integer(&mut due, slot.time)?;
    let item = variable_item(alloc, &name, &due, class_reference(slot.class, notice))?;
    out.extend_from_slice(&item)
}

/// Appends the pending notices, the next first.
pub fn push_events<S: SetBoard>(out: &mut Vec<u8>, machine: &Machine<S>) -> Result<(), AllocError>
    ensures { OnOk result (out.new.items ≡ out.old.items
        ++ event_items machine.now.input.program machine.now.state.agenda) }
{
    let agenda = machine.agenda();
    agenda.known();
    let mut listing = agenda.listing();
    while let Some(notice) = agenda.list_next(&mut listing) {
        let slot = agenda.slot(notice).unwrap();
        push_event(out, machine.program(), notice, slot)?;
    }
    Ok(())
}

//! The question to the history about a fault.
ghost use Rattle.std.specs.Prelude.{◌≡◌, ◌++◌, OnOk};
ghost use Rattle.ss_program.specs.Program.{spot_at};
ghost use Rattle.ss_faults.specs.Asked as spec;

use crate::missing::place_told;
use crate::reading::index_told;
use crate::texts::push_integer;
use crate::told::Told;
use ss_links::SetBoard;
use ss_machine::Machine;
use ss_program::{Looping, Owner, Phrase, Place, Program, SetRef};
use ss_state::Status;
use ss_words::RunFault;
use std::alloc::AllocError;

/// Appends an entity, as WHY asks about it.
fn push_entity_asked(
    text: &mut Vec<u8>,
    program: &Program,
    class: usize,
    number: i64,
) -> Result<(), AllocError>
    ensures { OnOk result (text.new.items
        ≡ text.old.items ++ spec.entity_asked program.now class number) }
{
    if number < 1 {
        return Ok(());
    }
    text.extend_from_slice(program.class_name(class))?;
    text.extend_from_slice(b" ")?;
    push_integer(text, number)
}

/// Appends the owner of a list, as WHY asks about it.
fn push_owner_asked(text: &mut Vec<u8>, owner: Owner, number: i64) -> Result<(), AllocError>
    ensures { OnOk result (text.new.items ≡ text.old.items ++ spec.owner_asked owner number) }
{
    match owner {
        Owner::System => Ok(()),
        Owner::OwnedBy(_) => {
            text.extend_from_slice(b" ")?;
            push_integer(text, number)
        }
    }
}

/// Appends a list, as WHY asks about it.
fn push_list_asked(
    text: &mut Vec<u8>,
    program: &Program,
    set: usize,
    owner: i64,
) -> Result<(), AllocError>
    ensures { OnOk result (text.new.items
        ≡ text.old.items ++ spec.list_asked program.now set owner) }
{
    text.extend_from_slice(b"SET ")?;
    text.extend_from_slice(program.set_name(set))?;
    push_owner_asked(text, program.set_owner(set), owner)
}

/// Appends the question about an entity that is missing.
fn push_missing_asked(text: &mut Vec<u8>, program: &Program, told: Told) -> Result<(), AllocError>
    ensures { OnOk result (text.new.items ≡ text.old.items ++ spec.missing_asked program.now told) }
{
    match told {
        Told::Missing { class, number } => push_entity_asked(text, program, class, number),
        Told::Value(_) | Told::Untold | Told::Unclear => Ok(()),
    }
}

/// Appends the question about the list that a phrase names now.
fn push_list_of<S: SetBoard>(
    text: &mut Vec<u8>,
    machine: &Machine<S>,
    list: &SetRef,
) -> Result<(), AllocError>
    ensures { OnOk result (text.new.items ≡ text.old.items
        ++ spec.named_list_asked machine.now.input.program machine.now.state list.now) }
{
    match index_told(machine, &list.owner) {
        Told::Value(owner) => push_list_asked(text, machine.program(), list.set, owner),
        Told::Untold | Told::Missing { .. } | Told::Unclear => Ok(()),
    }
}

/// Appends the question about a loop.
fn push_loop_asked<S: SetBoard>(
    text: &mut Vec<u8>,
    machine: &Machine<S>,
    place: &Place,
) -> Result<(), AllocError>
    ensures { OnOk result (text.new.items ≡ text.old.items
        ++ spec.loop_asked machine.now.input.program machine.now.state place.now) }
{
    let Place::Looping(Looping::For(phrase)) = place else {
        return Ok(());
    };
    match &phrase.value().phrase {
        Phrase::Walking { set, .. } => push_list_of(text, machine, set),
        Phrase::Counting { .. } | Phrase::Each { .. } => Ok(()),
    }
}

/// Appends the question about a fault at a statement.
fn push_fault_asked<S: SetBoard>(
    text: &mut Vec<u8>,
    machine: &Machine<S>,
    fault: RunFault,
    place: &Place,
) -> Result<(), AllocError>
    ensures { OnOk result (text.new.items ≡ text.old.items
        ++ spec.fault_asked machine.now.input.program machine.now.state fault place.now) }
{
    match fault {
        RunFault::NoEntity => push_missing_asked(
            text,
            machine.program(),
            place_told(machine, place),
        ),
        RunFault::MemberLeft => push_loop_asked(text, machine, place),
        _ => Ok(()),
    }
}

/// Appends the question about a fault at the place of the machine's last frame.
fn push_asked_here<S: SetBoard>(
    text: &mut Vec<u8>,
    machine: &Machine<S>,
    fault: RunFault,
) -> Result<(), AllocError>
    ensures { OnOk result (text.new.items ≡ text.old.items
        ++ spec.asked_here machine.now.input.program machine.now.state fault
        (spot_at machine.now.input.program machine.now.state.frame.section
        machine.now.state.frame.place)) }
{
    let (section, place) = machine.place();
    match machine.program().spot_at(section, place) {
        None => Ok(()),
        Some(spot) => push_fault_asked(text, machine, fault, &spot.place),
    }
}

/// Appends the question to the history about the fault of the machine's state, as WHY asks it: for
/// F3 an entity that is missing, as `JOB 7`; for F14 the list that the loop names, as
/// `SET ROADS 1`. Appends nothing for other faults, if the entity or list is not known, and if the
/// state is not faulted. The only error is that memory was refused.
#[tactic(auto, unfolding(crate::specs::Asked::state_asked))]
pub fn push_asked_of_fault<S: SetBoard>(
    machine: &Machine<S>,
    text: &mut Vec<u8>,
) -> Result<(), AllocError>
    ensures { OnOk result (text.new.items ≡ text.old.items
        ++ spec.state_asked machine.now.input.program machine.now.state machine.now.state.status) }
{
    match machine.status() {
        Status::Faulted(fault) => push_asked_here(text, machine, fault),
        Status::Ready | Status::Stopped | Status::Finished => Ok(()),
    }
}

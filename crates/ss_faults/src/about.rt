//! The parts that the sentence of a fault names.
ghost use Rattle.std.specs.Prelude.{◌≡◌, ◌++◌, OnOk};
ghost use Rattle.ss_faults.specs.About as spec;

use crate::missing::place_told;
use crate::operands::{
    push_entity_of, push_if_told, push_list_of, push_member_and_list, push_member_of,
};
use crate::reading::{expression_told, variable_value};
use crate::sizes::{push_report_size, push_sum};
use crate::texts::{
    push_class, push_counted, push_entity, push_missing, push_section, push_set, push_valued,
};
use ss_links::SetBoard;
use ss_machine::Machine;
use ss_program::{
    Begin, Expr, Filing, Looping, Making, Notice, Output, Phrase, Place, Position, SetRef, Timing,
    Variable, When,
};
use ss_state::Entry;
use ss_words::RunFault;
use std::alloc::AllocError;

/// F4: the member, and the set.
fn push_already_filed<S: SetBoard>(
    text: &mut Vec<u8>,
    machine: &Machine<S>,
    place: &Place,
) -> Result<(), AllocError>
    ensures { OnOk result (text.new.items ≡ text.old.items
        ++ spec.member_already_filed machine.now.input.program machine.now.state place.now) }
{
    let Place::Filing(filing) = place else {
        return Ok(());
    };
    match filing.value() {
        Filing::File { member, set, .. } | Filing::FileAt { member, set, .. } => {
            push_member_of(text, machine, member, set)?;
            push_set(text, machine.program(), set.set)
        }
        Filing::RemoveAt { .. } | Filing::Remove { .. } => Ok(()),
    }
}

/// The member that BEFORE or AFTER names, and the list.
fn push_beside<S: SetBoard>(
    text: &mut Vec<u8>,
    machine: &Machine<S>,
    position: &Position,
    list: &SetRef,
) -> Result<(), AllocError>
    ensures { OnOk result (text.new.items ≡ text.old.items
        ++ spec.beside_of machine.now.input.program machine.now.state position.now list.now) }
{
    match position {
        Position::ByRule | Position::AtEnd(_) => Ok(()),
        Position::Before(e) | Position::After(e) => push_member_and_list(text, machine, e, list),
    }
}

/// The member that FILE or REMOVE looks for, and the list.
fn push_sought<S: SetBoard>(
    text: &mut Vec<u8>,
    machine: &Machine<S>,
    filing: &Filing,
) -> Result<(), AllocError>
    ensures { OnOk result (text.new.items ≡ text.old.items
        ++ spec.member_sought machine.now.input.program machine.now.state filing.now) }
{
    match filing {
        Filing::File { position, set, .. } => push_beside(text, machine, position, set),
        Filing::Remove { member, set } => push_member_and_list(text, machine, member, set),
        Filing::FileAt { .. } | Filing::RemoveAt { .. } => Ok(()),
    }
}

/// The member at which a phrase begins, and the list.
fn push_begun<S: SetBoard>(
    text: &mut Vec<u8>,
    machine: &Machine<S>,
    phrase: &Phrase,
) -> Result<(), AllocError>
    ensures { OnOk result (text.new.items ≡ text.old.items
        ++ spec.beginning_of machine.now.input.program machine.now.state phrase.now) }
{
    let Phrase::Walking { set, begin, .. } = phrase else {
        return Ok(());
    };
    match begin {
        Begin::AtTheEnd => Ok(()),
        Begin::From(e) | Begin::After(e) => push_member_and_list(text, machine, e, set),
    }
}

/// F5: the member that is looked for, and the list.
fn push_not_filed<S: SetBoard>(
    text: &mut Vec<u8>,
    machine: &Machine<S>,
    place: &Place,
) -> Result<(), AllocError>
    ensures { OnOk result (text.new.items ≡ text.old.items
        ++ spec.member_not_filed machine.now.input.program machine.now.state place.now) }
{
    match place {
        Place::Filing(filing) => push_sought(text, machine, filing.value()),
        Place::Looping(Looping::For(phrase)) => push_begun(text, machine, &phrase.value().phrase),
        _ => Ok(()),
    }
}

/// F6: the list.
fn push_empty_list<S: SetBoard>(
    text: &mut Vec<u8>,
    machine: &Machine<S>,
    place: &Place,
) -> Result<(), AllocError>
    ensures { OnOk result (text.new.items ≡ text.old.items
        ++ spec.empty_list machine.now.input.program machine.now.state place.now) }
{
    let Place::Filing(filing) = place else {
        return Ok(());
    };
    match filing.value() {
        Filing::RemoveAt { set, .. } => push_list_of(text, machine, set),
        Filing::File { .. } | Filing::FileAt { .. } | Filing::Remove { .. } => Ok(()),
    }
}

/// F7, F8: the entity.
fn push_ended<S: SetBoard>(
    text: &mut Vec<u8>,
    machine: &Machine<S>,
    place: &Place,
) -> Result<(), AllocError>
    ensures { OnOk result (text.new.items ≡ text.old.items
        ++ spec.ending_entity machine.now.input.program machine.now.state place.now) }
{
    let Place::Making(making) = place else {
        return Ok(());
    };
    match making.value() {
        Making::Destroy { class, entity, .. } => push_entity_of(text, machine, *class, entity),
        Making::Create { .. } | Making::CreateEvery { .. } => Ok(()),
    }
}

/// The time that SCHEDULE asks for.
fn push_time<S: SetBoard>(
    text: &mut Vec<u8>,
    machine: &Machine<S>,
    when: &When,
) -> Result<(), AllocError>
    ensures { OnOk result (text.new.items ≡ text.old.items
        ++ spec.time_of machine.now.input.program machine.now.state when.now) }
{
    match when {
        When::At(e) => push_if_told(text, b" Time: ", expression_told(machine, e)),
        When::In(e) => push_if_told(text, b" Days: ", expression_told(machine, e)),
        When::Now => Ok(()),
    }
}

/// F9: the class, the time and the clock.
fn push_too_early<S: SetBoard>(
    text: &mut Vec<u8>,
    machine: &Machine<S>,
    place: &Place,
) -> Result<(), AllocError>
    ensures { OnOk result (text.new.items ≡ text.old.items
        ++ spec.too_early machine.now.input.program machine.now.state place.now) }
{
    let Place::Timing(timing) = place else {
        return Ok(());
    };
    match timing.value() {
        Timing::Schedule(schedule) => {
            push_class(text, machine.program(), schedule.class)?;
            push_time(text, machine, &schedule.when)?;
            push_valued(text, b" Clock: ", machine.clock())
        }
        Timing::Cancel { .. } | Timing::Start => Ok(()),
    }
}

/// F10: the notice of THE.
fn push_scheduled_twice<S: SetBoard>(
    text: &mut Vec<u8>,
    machine: &Machine<S>,
    place: &Place,
) -> Result<(), AllocError>
    ensures { OnOk result (text.new.items ≡ text.old.items
        ++ spec.notice_scheduled_twice machine.now.input.program machine.now.state place.now) }
{
    let Place::Timing(timing) = place else {
        return Ok(());
    };
    let Timing::Schedule(schedule) = timing.value() else {
        return Ok(());
    };
    match &schedule.notice {
        Notice::New { .. } => Ok(()),
        Notice::Known { notice, .. } => push_entity_of(text, machine, schedule.class, notice),
    }
}

/// F11: the notice.
fn push_not_scheduled<S: SetBoard>(
    text: &mut Vec<u8>,
    machine: &Machine<S>,
    place: &Place,
) -> Result<(), AllocError>
    ensures { OnOk result (text.new.items ≡ text.old.items
        ++ spec.notice_not_scheduled machine.now.input.program machine.now.state place.now) }
{
    let Place::Timing(timing) = place else {
        return Ok(());
    };
    match timing.value() {
        Timing::Cancel { class, notice, .. } => push_entity_of(text, machine, *class, notice),
        Timing::Schedule(_) | Timing::Start => Ok(()),
    }
}

/// The class of a notice that is scheduled.
fn push_timed_class<S: SetBoard>(
    text: &mut Vec<u8>,
    machine: &Machine<S>,
    timing: &Timing,
) -> Result<(), AllocError>
    ensures { OnOk result (text.new.items ≡ text.old.items
        ++ spec.timed_class machine.now.input.program timing.now) }
{
    match timing {
        Timing::Schedule(schedule) => push_class(text, machine.program(), schedule.class),
        Timing::Cancel { .. } | Timing::Start => Ok(()),
    }
}

/// F12, F20: the class.
fn push_made_class<S: SetBoard>(
    text: &mut Vec<u8>,
    machine: &Machine<S>,
    place: &Place,
) -> Result<(), AllocError>
    ensures { OnOk result (text.new.items ≡ text.old.items
        ++ spec.made_class machine.now.input.program place.now) }
{
    match place {
        Place::Making(making) => {
            match making.value() {
                Making::Create { class, .. } | Making::CreateEvery { class, .. } => {
                    push_class(text, machine.program(), *class)
                }
                Making::Destroy { .. } => Ok(()),
            }
        }
        Place::Timing(timing) => push_timed_class(text, machine, timing.value()),
        _ => Ok(()),
    }
}

/// The number of entities that CREATE EVERY asks for.
fn push_number_of<S: SetBoard>(
    text: &mut Vec<u8>,
    machine: &Machine<S>,
    number: &Option<Expr>,
    count: usize,
) -> Result<(), AllocError>
    ensures { OnOk result (text.new.items ≡ text.old.items
        ++ spec.number_of machine.now.input.program machine.now.state number.now count) }
{
    match number {
        None => push_valued(
            text,
            b" Value: ",
            variable_value(machine, Variable::Global(count)),
        ),
        Some(e) => push_if_told(text, b" Value: ", expression_told(machine, e)),
    }
}

/// The number of entities that a statement makes, after their class.
fn push_made<S: SetBoard>(
    text: &mut Vec<u8>,
    machine: &Machine<S>,
    making: &Making,
) -> Result<(), AllocError>
    ensures { OnOk result (text.new.items ≡ text.old.items
        ++ spec.creation_count machine.now.input.program machine.now.state making.now) }
{
    match making {
        Making::CreateEvery {
            class,
            number,
            count,
        } => {
            push_class(text, machine.program(), *class)?;
            push_number_of(text, machine, number, *count)
        }
        Making::Create { .. } | Making::Destroy { .. } => Ok(()),
    }
}

/// F13: the class, and the count.
fn push_out_of_count<S: SetBoard>(
    text: &mut Vec<u8>,
    machine: &Machine<S>,
    place: &Place,
) -> Result<(), AllocError>
    ensures { OnOk result (text.new.items ≡ text.old.items
        ++ spec.out_of_count machine.now.input.program machine.now.state place.now) }
{
    match place {
        Place::Making(making) => push_made(text, machine, making.value()),
        Place::Output(output) => {
            match output.value() {
                Output::Skip(e) => push_if_told(text, b" Value: ", expression_told(machine, e)),
                Output::Print { .. } => Ok(()),
            }
        }
        _ => Ok(()),
    }
}

/// F14: the set.
fn push_left_set<S: SetBoard>(
    text: &mut Vec<u8>,
    machine: &Machine<S>,
    place: &Place,
) -> Result<(), AllocError>
    ensures { OnOk result (text.new.items ≡ text.old.items
        ++ spec.left_set machine.now.input.program place.now) }
{
    let Place::Looping(Looping::For(phrase)) = place else {
        return Ok(());
    };
    match &phrase.value().phrase {
        Phrase::Walking { set, .. } => push_set(text, machine.program(), set.set),
        Phrase::Counting { .. } | Phrase::Each { .. } => Ok(()),
    }
}

/// F15: the step.
fn push_below_one<S: SetBoard>(
    text: &mut Vec<u8>,
    machine: &Machine<S>,
    place: &Place,
) -> Result<(), AllocError>
    ensures { OnOk result (text.new.items ≡ text.old.items
        ++ spec.below_one machine.now.input.program machine.now.state place.now) }
{
    let Place::Looping(Looping::For(phrase)) = place else {
        return Ok(());
    };
    match &phrase.value().phrase {
        Phrase::Counting { step: Some(e), .. } => {
            push_if_told(text, b" Value: ", expression_told(machine, e))
        }
        Phrase::Counting { step: None, .. } | Phrase::Each { .. } | Phrase::Walking { .. } => Ok(
            (),
        ),
    }
}

/// F16, F17, F21: the number of pieces of the data that are taken before the statement.
fn push_taken<S: SetBoard>(text: &mut Vec<u8>, machine: &Machine<S>) -> Result<(), AllocError>
    ensures { OnOk result (text.new.items
        ≡ text.old.items ++ spec.pieces_taken machine.now.state) }
{
    push_counted(text, b" Taken before: ", machine.taken() as u64)
}

/// F18: the section.
fn push_too_deep<S: SetBoard>(
    text: &mut Vec<u8>,
    machine: &Machine<S>,
    place: &Place,
) -> Result<(), AllocError>
    ensures { OnOk result (text.new.items ≡ text.old.items
        ++ spec.too_deep machine.now.input.program place.now) }
{
    let Place::Call(call) = place else {
        return Ok(());
    };
    push_section(text, machine.program(), call.value().section)
}

/// F22: the entry's notice, if there is one.
fn push_entry<S: SetBoard>(text: &mut Vec<u8>, machine: &Machine<S>) -> Result<(), AllocError>
    ensures { OnOk result (text.new.items ≡ text.old.items
        ++ spec.entry_of machine.now.input.program machine.now.state.entry) }
{
    match machine.entry() {
        Entry::Absent => Ok(()),
        Entry::Waiting { class, notice } | Entry::Running { class, notice } => {
            push_entity(text, machine.program(), class, i64::from(notice))
        }
    }
}

/// Appends the parts that a fault names at a statement.
#[tactic(auto, unfolding(crate::specs::About::about))]
pub fn push_about<S: SetBoard>(
    text: &mut Vec<u8>,
    machine: &Machine<S>,
    fault: RunFault,
    place: &Place,
) -> Result<(), AllocError>
    ensures { OnOk result (text.new.items ≡ text.old.items
        ++ spec.about machine.now.input.program machine.now.state fault place.now) }
{
    match fault {
        RunFault::OutOfRange => push_sum(text, machine, place),
        RunFault::ZeroDivisor => Ok(()),
        RunFault::NoEntity => push_missing(text, machine.program(), place_told(machine, place)),
        RunFault::AlreadyInSet => push_already_filed(text, machine, place),
        RunFault::NotInList => push_not_filed(text, machine, place),
        RunFault::EmptySet => push_empty_list(text, machine, place),
        RunFault::EndedInUse | RunFault::EndedOwner => push_ended(text, machine, place),
        RunFault::TimeBeforeClock => push_too_early(text, machine, place),
        RunFault::AlreadyScheduled => push_scheduled_twice(text, machine, place),
        RunFault::NotScheduled => push_not_scheduled(text, machine, place),
        RunFault::AlreadyCreated | RunFault::TooManyReferences => {
            push_made_class(text, machine, place)
        }
        RunFault::CountOutOfRange => push_out_of_count(text, machine, place),
        RunFault::MemberLeft => push_left_set(text, machine, place),
        RunFault::StepBelowOne => push_below_one(text, machine, place),
        RunFault::NoMoreData | RunFault::NotANumber | RunFault::NotExternal => {
            push_taken(text, machine)
        }
        RunFault::TooManyFrames => push_too_deep(text, machine, place),
        RunFault::ReportFull => push_report_size(text, machine),
        RunFault::OutsideEntry => push_entry(text, machine),
    }
}

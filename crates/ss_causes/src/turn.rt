//! WHY CAUSE and BACK CAUSE.
ghost use Rattle.std.specs.Prelude.{◌≡◌, ◌++◌, OnOk, OnErr, IfOk, codes};
ghost use Rattle.std.specs.Fmt.{signed_decimal};
ghost use Rattle.ss_machine.specs.Moment.{position};
ghost use Rattle.ss_debug.specs.Answer.{earliest_word};
ghost use Rattle.ss_debug.specs.View.{debugger_state_of};
ghost use Rattle.ss_trace.specs.History.{change_line};
ghost use Rattle.ss_trace.specs.View.{IsAt, IsBetween};
ghost use Rattle.ss_causes.specs.Causes.{cause_at};
ghost use Rattle.ss_causes.specs.Turn.{cause_head, cause_line, cause_change, cause_word, cause_end, notice_name};
ghost use Rattle.ss_causes.specs.Turn.{state_after_back_cause, back_cause_answer};
ghost use Rattle.ss_causes.specs.View.{IsAtCause};

use crate::cause::Cause;
use crate::search::back_to_cause;
use crate::walk::back_to_earliest;
use ss_debug::{Debugger, Question, push_integer, push_number};
use ss_events::Slot;
use ss_links::SetBoard;
use ss_program::Program;
use ss_trace::{present_line, return_to};
use std::alloc::AllocError;

/// The word at the earliest kept position.
fn earliest_word<S: SetBoard>(debugger: &Debugger<S>) -> &'static [u8]
    requires { position debugger.now.machine ≡ debugger.now.machine.forgotten }
    ensures { result.now ≡ earliest_word debugger.now.machine.forgotten }
{
    if debugger.machine().position() == 0 {
        b"START"
    } else {
        b"NOTHING KEPT"
    }
}

/// Goes to the step of a cause, at which the debugger is if there is one; else to the earliest kept
/// position. Gives the word of BACK CAUSE.
fn arrive<S: SetBoard>(debugger: &mut Debugger<S>, cause: Cause) -> &'static [u8]
    requires { IsAtCause cause debugger.old }
    ensures place { IsAt debugger.old (cause_end debugger.old.machine.forgotten cause) debugger.new }
    ensures word { result.now ≡ cause_word debugger.old.machine.forgotten cause }
{
    match cause {
        Cause::Start => {
            back_to_earliest(debugger);
            earliest_word(debugger)
        }
        Cause::NotKept => {
            back_to_earliest(debugger);
            b"NOTHING KEPT"
        }
        Cause::Called(_) | Cause::Scheduled { .. } => b"CAUSE",
    }
}

/// BACK CAUSE (docs/PROMPT.md): goes back to the step that brought the last frame about, and appends
/// its whole answer to `bytes`. If there is no such step, or it is not kept, it goes to the earliest
/// kept state.
///
/// `AllocError` if a growth was refused: `bytes` is as before, and the movement was made.
pub fn back_cause<S: SetBoard>(
    debugger: &mut Debugger<S>,
    bytes: &mut Vec<u8>,
) -> Result<(), AllocError>
    ensures input { debugger.new.machine.input ≡ debugger.old.machine.input }
    ensures place { debugger_state_of debugger.new
        ≡ state_after_back_cause debugger.old.machine.input (debugger_state_of debugger.old) }
    ensures said { OnOk result (bytes.new.items ≡ bytes.old.items
        ++ back_cause_answer debugger.old.machine.input (debugger_state_of debugger.old)) }
    ensures memory { OnErr result (bytes.new.items ≡ bytes.old.items) }
{
    let cause = back_to_cause(debugger);
    let word = arrive(debugger, cause);
    debugger.push_movement(word, bytes)
}

/// Appends the time of a notice of this class, as it is asked for.
#[tactic(auto, unfolding(crate::specs::Turn::notice_name))]
fn push_notice_name(
    text: &mut Vec<u8>,
    program: &Program,
    class: usize,
    notice: u32,
) -> Result<(), AllocError>
    ensures { OnOk result (text.new.items ≡ text.old.items
        ++ notice_name program.now class notice) }
{
    text.extend_from_slice(program.class_name(class))?;
    text.extend_from_slice(b" ")?;
    push_number(text, u64::from(notice))?;
    text.extend_from_slice(b" AT")
}

/// Appends that a notice was made pending, and for when.
fn push_scheduled(
    text: &mut Vec<u8>,
    program: &Program,
    notice: u32,
    slot: Slot,
) -> Result<(), AllocError>
    ensures { OnOk result (text.new.items ≡ text.old.items
        ++ change_line (codes "CHANGED") (notice_name program.now slot.class notice) (codes "NONE")
        (signed_decimal slot.time)) }
{
    text.extend_from_slice(b"CHANGED ")?;
    push_notice_name(text, program, slot.class, notice)?;
    text.extend_from_slice(b": NONE -> ")?;
    push_integer(text, slot.time)?;
    text.extend_from_slice(b"\n")
}

/// Appends the texts of WHY CAUSE, at the step of a cause if it has one. Gives the line of the model.
fn push_cause<S: SetBoard>(
    debugger: &Debugger<S>,
    cause: Cause,
    head: &mut Vec<u8>,
    change: &mut Vec<u8>,
) -> Result<Option<usize>, AllocError>
    requires { IsAtCause cause debugger.now }
    ensures head { OnOk result (head.new.items ≡ head.old.items
        ++ cause_head debugger.now.machine.input cause) }
    ensures line { IfOk result (λ line. line ≡ cause_line debugger.now.machine.input cause) }
    ensures change { OnOk result (change.new.items ≡ change.old.items
        ++ cause_change debugger.now.machine.input cause) }
{
    match cause {
        Cause::Start => {
            head.extend_from_slice(b"START\n")?;
            return Ok(None);
        }
        Cause::NotKept => {
            head.extend_from_slice(b"NOTHING KEPT\n")?;
            return Ok(None);
        }
        Cause::Called(_) => {}
        Cause::Scheduled { notice, slot, .. } => {
            push_scheduled(change, debugger.machine().program(), notice, slot)?;
        }
    }
    let text = debugger.answer_to(&Question::Where)?;
    head.extend_from_slice(&text)?;
    Ok(Some(present_line(debugger)))
}

/// WHY CAUSE (docs/PROMPT.md): looks for the step that brought the last frame about. Appends to `head`
/// its state line, or that the start of the run did, or that the step is not kept; of an event, to
/// `change` that its notice was made pending, and for when. Gives the line of the model of that step.
/// Position, break lines and earliest kept position stay as they are: the debugger goes back, and
/// forward again over the same steps.
///
/// `AllocError` if a text or a step was refused memory: then the debugger is perhaps at an earlier
/// position that is kept, and the appended bytes do not count.
pub fn push_why_cause<S: SetBoard>(
    debugger: &mut Debugger<S>,
    head: &mut Vec<u8>,
    change: &mut Vec<u8>,
) -> Result<Option<usize>, AllocError>
    ensures input { debugger.new.machine.input ≡ debugger.old.machine.input }
    ensures place { OnOk result (debugger_state_of debugger.new ≡ debugger_state_of debugger.old) }
    ensures head { OnOk result (head.new.items ≡ head.old.items
        ++ cause_head debugger.old.machine.input (cause_at debugger.old.machine.input
        debugger.old.machine.forgotten (position debugger.old.machine))) }
    ensures line { IfOk result (λ line. line ≡ cause_line debugger.old.machine.input
        (cause_at debugger.old.machine.input debugger.old.machine.forgotten
        (position debugger.old.machine))) }
    ensures change { OnOk result (change.new.items ≡ change.old.items
        ++ cause_change debugger.old.machine.input (cause_at debugger.old.machine.input
        debugger.old.machine.forgotten (position debugger.old.machine))) }
    ensures memory { OnErr result (IsBetween debugger.old debugger.old.machine.forgotten
        (position debugger.old.machine) debugger.new) }
{
    debugger.machine().known();
    let from = debugger.machine().position();
    let cause = back_to_cause(debugger);
    let line = push_cause(debugger, cause, head, change)?;
    return_to(debugger, from)?;
    Ok(line)
}

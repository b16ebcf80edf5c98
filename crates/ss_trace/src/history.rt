//! The history of a question: the steps at which it changes, the newest first.
ghost use Rattle.std.specs.Prelude.{◌≡◌, ◌++◌, ◌∷◌, ◌+◌, ◌<◌, ◌≤◌, [], OnOk, OnErr, IfOk, ℕ, true, false};
ghost use Rattle.std.specs.Prelude.{take, length};
ghost use Rattle.ss_machine.specs.Moment.{position};
ghost use Rattle.ss_state.specs.declared.limits.TheConstants.{LAST_POSITION};
ghost use Rattle.ss_debug.specs.Move.{is_ready_at};
ghost use Rattle.ss_debug.specs.View.{debugger_state_of};
ghost use Rattle.ss_trace.specs.Value.{value_at};
ghost use Rattle.ss_trace.specs.Reading.{IsReadAt};
ghost use Rattle.ss_trace.specs.History.{history, step_row, step_rows, history_text, newest_change};
ghost use Rattle.ss_trace.specs.History.{why_head, why_line, why_change};
ghost use Rattle.ss_trace.specs.View.{IsAt, IsBetween, HasLookedBack};

use crate::question::Question;
use crate::reading::Reading;
use crate::sought::{is_ready_now, step_once};
use crate::table::{present_line, push_change_line, push_no_change, push_row_of, push_with_head};
use crate::value::push_value;
use ss_debug::{Debugger, Question as Shown};
use ss_links::SetBoard;
use std::alloc::AllocError;

/// Goes back to the newest earlier step at which a question changes, if it is kept, and else to the
/// earliest kept position. Says whether there is one. The reading is that of the debugger's state,
/// before and after the call.
fn back_to_newest<S: SetBoard>(
    debugger: &mut Debugger<S>,
    question: &Question,
    reading: &mut Reading,
) -> Result<bool, AllocError>
    requires { IsReadAt debugger.old.machine.input question.now (position debugger.old.machine)
        reading.old }
    ensures gone { OnOk result (HasLookedBack debugger.old debugger.new) }
    ensures reading { OnOk result (IsReadAt debugger.old.machine.input question.now
        (position debugger.new.machine) reading.new) }
    ensures moved { IfOk result (λ found. found ≡ true →
        position debugger.new.machine < position debugger.old.machine) }
    ensures found { IfOk result (λ found. found ≡ true →
        history debugger.old.machine.input question.now debugger.old.machine.forgotten
        (position debugger.old.machine)
        ≡ position debugger.new.machine
        ∷ history debugger.old.machine.input question.now debugger.old.machine.forgotten
        (position debugger.new.machine)) }
    ensures none { IfOk result (λ found. found ≡ false →
        history debugger.old.machine.input question.now debugger.old.machine.forgotten
        (position debugger.old.machine) ≡ []) }
    ensures memory { OnErr result (IsBetween debugger.old debugger.old.machine.forgotten
        (position debugger.old.machine) debugger.new) }
{
    while debugger.step_back() {
        if !is_ready_now(debugger) {
            // Never met: a step was made from this state (`no_movement_passes_an_end`).
            return Err(AllocError);
        }
        let touched = reading.touched(debugger);
        if reading.follow(debugger, question, touched)?.is_some() {
            return Ok(true);
        }
    }
    Ok(false)
}

/// Appends the value of a question after the debugger's next step: the debugger makes the step, and
/// goes back.
fn push_value_after<S: SetBoard>(
    debugger: &mut Debugger<S>,
    question: &Question,
    bytes: &mut Vec<u8>,
) -> Result<(), AllocError>
    requires ready { is_ready_at debugger.old.machine.input
        (position debugger.old.machine) ≡ true }
    requires before_last { position debugger.old.machine < LAST_POSITION }
    ensures back { OnOk result (IsAt debugger.old (position debugger.old.machine) debugger.new) }
    ensures said { OnOk result (bytes.new.items ≡ bytes.old.items
        ++ value_at debugger.old.machine.input question.now
        (position debugger.old.machine + 1)) }
    ensures memory { OnErr result (IsBetween debugger.old (position debugger.old.machine)
        (position debugger.old.machine + 1) debugger.new) }
{
    step_once(debugger)?;
    push_value(debugger, question, bytes)?;
    debugger.step_back();
    Ok(())
}

/// Appends the row of the debugger's next step, which changes a question.
fn push_step_row<S: SetBoard>(
    debugger: &mut Debugger<S>,
    question: &Question,
    bytes: &mut Vec<u8>,
) -> Result<(), AllocError>
    requires ready { is_ready_at debugger.old.machine.input
        (position debugger.old.machine) ≡ true }
    requires before_last { position debugger.old.machine < LAST_POSITION }
    ensures back { OnOk result (IsAt debugger.old (position debugger.old.machine) debugger.new) }
    ensures said { OnOk result (bytes.new.items ≡ bytes.old.items
        ++ step_row debugger.old.machine.input question.now (position debugger.old.machine)) }
    ensures memory { OnErr result (IsBetween debugger.old (position debugger.old.machine)
        (position debugger.old.machine + 1) debugger.new) }
{
    let mut value = Vec::new(*bytes.allocator());
    push_value_after(debugger, question, &mut value)?;
    debugger.machine().known();
    push_row_of(bytes, debugger, &value)
}

/// Appends the rows of the newest earlier steps at which a question changes, at most `most`. Gives
/// their number.
fn push_rows<S: SetBoard>(
    debugger: &mut Debugger<S>,
    question: &Question,
    most: u64,
    bytes: &mut Vec<u8>,
) -> Result<u64, AllocError>
    ensures gone { OnOk result (HasLookedBack debugger.old debugger.new) }
    ensures rows { OnOk result (bytes.new.items ≡ bytes.old.items
        ++ step_rows debugger.old.machine.input question.now
        (take most (history debugger.old.machine.input question.now
        debugger.old.machine.forgotten (position debugger.old.machine)))) }
    ensures count { IfOk result (λ count. count
        ≡ length (take most (history debugger.old.machine.input question.now
        debugger.old.machine.forgotten (position debugger.old.machine)))) }
    ensures memory { OnErr result (IsBetween debugger.old debugger.old.machine.forgotten
        (position debugger.old.machine) debugger.new) }
{
    debugger.machine().known();
    let mut reading = Reading::new(*bytes.allocator(), debugger, question)?;
    let mut count = 0;
    while count < most {
        if !back_to_newest(debugger, question, &mut reading)? {
            return Ok(count);
        }
        push_step_row(debugger, question, bytes)?;
        count += 1;
    }
    Ok(count)
}

/// Goes back, and appends the history of a question as a table, or that it did not change.
#[tactic(auto, using(crate::proofs::Histories::told_some, crate::proofs::Histories::told_none))]
fn push_table<S: SetBoard>(
    debugger: &mut Debugger<S>,
    question: &Question,
    most: u64,
    bytes: &mut Vec<u8>,
) -> Result<(), AllocError>
    ensures gone { OnOk result (HasLookedBack debugger.old debugger.new) }
    ensures said { OnOk result (bytes.new.items ≡ bytes.old.items
        ++ history_text debugger.old.machine.input question.now most
        debugger.old.machine.forgotten (position debugger.old.machine)) }
    ensures memory { OnErr result (IsBetween debugger.old debugger.old.machine.forgotten
        (position debugger.old.machine) debugger.new) }
{
    let mut rows = Vec::new(*bytes.allocator());
    let count = push_rows(debugger, question, most, &mut rows)?;
    if count == 0 {
        return push_no_change(bytes, debugger);
    }
    push_with_head(bytes, question, &rows)
}

/// Goes forward again to a position over steps that were made.
///
/// `AllocError` if a step was refused memory: the machine is at the position to which the steps
/// before it led.
pub fn return_to<S: SetBoard>(debugger: &mut Debugger<S>, to: u64) -> Result<(), AllocError>
    requires later { position debugger.old.machine ≤ to }
    requires ready { (j : ℕ) → position debugger.old.machine ≤ j → j < to →
        is_ready_at debugger.old.machine.input j ≡ true }
    requires within { to ≤ LAST_POSITION }
    ensures ok { OnOk result (IsAt debugger.old to debugger.new) }
    ensures memory { OnErr result (IsBetween debugger.old (position debugger.old.machine) to
        debugger.new) }
{
    for _ in debugger.machine().position()..to {
        step_once(debugger)?;
    }
    Ok(())
}

/// Appends the history of a question as a table, the newest steps first and at most `most`, or
/// that it did not change since the earliest kept state. Position, break lines and earliest kept
/// position stay as they are: the debugger goes back, and forward again over the same steps.
///
/// `AllocError` if a text or a step was refused memory: then the debugger is perhaps at an earlier
/// position that is kept, and the appended bytes do not count.
pub fn push_history<S: SetBoard>(
    debugger: &mut Debugger<S>,
    question: &Question,
    most: u64,
    bytes: &mut Vec<u8>,
) -> Result<(), AllocError>
    ensures input { debugger.new.machine.input ≡ debugger.old.machine.input }
    ensures place { OnOk result (debugger_state_of debugger.new ≡ debugger_state_of debugger.old) }
    ensures said { OnOk result (bytes.new.items ≡ bytes.old.items
        ++ history_text debugger.old.machine.input question.now most
        debugger.old.machine.forgotten (position debugger.old.machine)) }
    ensures memory { OnErr result (IsBetween debugger.old debugger.old.machine.forgotten
        (position debugger.old.machine) debugger.new) }
{
    debugger.machine().known();
    let from = debugger.machine().position();
    push_table(debugger, question, most, bytes)?;
    return_to(debugger, from)
}

/// Appends the line of a question with its values before and after the debugger's next step.
fn push_change<S: SetBoard>(
    debugger: &mut Debugger<S>,
    question: &Question,
    bytes: &mut Vec<u8>,
) -> Result<(), AllocError>
    requires ready { is_ready_at debugger.old.machine.input
        (position debugger.old.machine) ≡ true }
    requires before_last { position debugger.old.machine < LAST_POSITION }
    ensures back { OnOk result (IsAt debugger.old (position debugger.old.machine) debugger.new) }
    ensures said { OnOk result (bytes.new.items ≡ bytes.old.items
        ++ why_change debugger.old.machine.input question.now
        (Some (position debugger.old.machine))) }
    ensures memory { OnErr result (IsBetween debugger.old (position debugger.old.machine)
        (position debugger.old.machine + 1) debugger.new) }
{
    let mut before = Vec::new(*bytes.allocator());
    push_value(debugger, question, &mut before)?;
    let mut after = Vec::new(*bytes.allocator());
    push_value_after(debugger, question, &mut after)?;
    push_change_line(bytes, question, &before, &after)
}

/// Goes back to the newest earlier step at which a question changes, and appends its texts.
#[tactic(auto, using(crate::proofs::Histories::newest_is, crate::proofs::Histories::newest_none))]
fn push_newest<S: SetBoard>(
    debugger: &mut Debugger<S>,
    question: &Question,
    head: &mut Vec<u8>,
    change: &mut Vec<u8>,
) -> Result<Option<usize>, AllocError>
    ensures gone { OnOk result (HasLookedBack debugger.old debugger.new) }
    ensures head { OnOk result (head.new.items ≡ head.old.items
        ++ why_head debugger.old.machine.input debugger.old.machine.forgotten
        (newest_change debugger.old.machine.input question.now
        debugger.old.machine.forgotten (position debugger.old.machine))) }
    ensures line { IfOk result (λ line. line ≡ why_line debugger.old.machine.input
        (newest_change debugger.old.machine.input question.now
        debugger.old.machine.forgotten (position debugger.old.machine))) }
    ensures change { OnOk result (change.new.items ≡ change.old.items
        ++ why_change debugger.old.machine.input question.now
        (newest_change debugger.old.machine.input question.now
        debugger.old.machine.forgotten (position debugger.old.machine))) }
    ensures memory { OnErr result (IsBetween debugger.old debugger.old.machine.forgotten
        (position debugger.old.machine) debugger.new) }
{
    debugger.machine().known();
    let mut reading = Reading::new(*head.allocator(), debugger, question)?;
    if !back_to_newest(debugger, question, &mut reading)? {
        push_no_change(head, debugger)?;
        return Ok(None);
    }
    let text = debugger.answer_to(&Shown::Where)?;
    head.extend_from_slice(&text)?;
    push_change(debugger, question, change)?;
    Ok(Some(present_line(debugger)))
}

/// Looks for the newest earlier step at which a question changes. Appends to `head` its state line,
/// or that there was none since the earliest kept state; to `change` the line of the values before
/// and after. Gives the line of the model of that step. Position, break lines and earliest kept
/// position stay as they are.
///
/// `AllocError` as for [`push_history`].
pub fn push_why<S: SetBoard>(
    debugger: &mut Debugger<S>,
    question: &Question,
    head: &mut Vec<u8>,
    change: &mut Vec<u8>,
) -> Result<Option<usize>, AllocError>
    ensures input { debugger.new.machine.input ≡ debugger.old.machine.input }
    ensures place { OnOk result (debugger_state_of debugger.new ≡ debugger_state_of debugger.old) }
    ensures head { OnOk result (head.new.items ≡ head.old.items
        ++ why_head debugger.old.machine.input debugger.old.machine.forgotten
        (newest_change debugger.old.machine.input question.now
        debugger.old.machine.forgotten (position debugger.old.machine))) }
    ensures line { IfOk result (λ line. line ≡ why_line debugger.old.machine.input
        (newest_change debugger.old.machine.input question.now
        debugger.old.machine.forgotten (position debugger.old.machine))) }
    ensures change { OnOk result (change.new.items ≡ change.old.items
        ++ why_change debugger.old.machine.input question.now
        (newest_change debugger.old.machine.input question.now
        debugger.old.machine.forgotten (position debugger.old.machine))) }
    ensures memory { OnErr result (IsBetween debugger.old debugger.old.machine.forgotten
        (position debugger.old.machine) debugger.new) }
{
    debugger.machine().known();
    let from = debugger.machine().position();
    let line = push_newest(debugger, question, head, change)?;
    return_to(debugger, from)?;
    Ok(line)
}

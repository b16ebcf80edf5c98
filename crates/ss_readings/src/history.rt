//! The steps at which a reading changes, the newest first: HISTORY and WHY.
ghost use Rattle.std.specs.Prelude.{◌≡◌, ◌++◌, ◌∷◌, ◌+◌, ◌<◌, ◌≤◌, [], OnOk, OnErr, IfOk, MatchBool};
ghost use Rattle.std.specs.Prelude.{take, length, option_map};
ghost use Rattle.ss_machine.specs.Moment.{position};
ghost use Rattle.ss_debug.specs.View.{debugger_state_of};
ghost use Rattle.ss_trace.specs.History.{why_head, why_line};
ghost use Rattle.ss_trace.specs.View.{IsBetween, HasLookedBack};
ghost use Rattle.ss_readings.specs.Seen as seen;
ghost use Rattle.ss_readings.specs.Seen.{changes_before};
ghost use Rattle.ss_readings.specs.ValueView.{value_if};
ghost use Rattle.ss_readings.specs.History.{step_place, step_rows, history_text, why_change};
ghost use Rattle.ss_readings.specs.Followed.{IsFollowed};

use crate::followed::Followed;
use crate::reading::Reading;
use crate::step_place::StepPlace;
use crate::table::{present_step, push_change_line, push_step_row, push_with_head};
use ss_debug::{Debugger, Question};
use ss_links::SetBoard;
use ss_trace::{present_line, push_no_change, return_to};
use std::alloc::AllocError;

/// Goes back to the newest earlier step at which a reading changes, if it is kept, and else to the
/// earliest kept position. Says whether there is one.
fn back_to_newest<S: SetBoard, R: Reading>(
    debugger: &mut Debugger<S>,
    reading: &R,
    followed: &mut Followed,
) -> Result<bool, AllocError>
    requires suits { R.suits reading.now debugger.old.machine.input.program }
    requires earlier { position debugger.old.machine ≤ followed.old.asked }
    requires followed { IsFollowed debugger.old.machine.input
        (R.subject reading.now debugger.old.machine.input.program)
        (position debugger.old.machine) followed.old }
    ensures gone { OnOk result (HasLookedBack debugger.old debugger.new) }
    ensures asked { OnOk result (followed.new.asked ≡ followed.old.asked) }
    ensures followed { OnOk result (IsFollowed debugger.old.machine.input
        (R.subject reading.now debugger.old.machine.input.program)
        (position debugger.new.machine) followed.new) }
    ensures found { IfOk result (λ found. MatchBool found
        ((value_if followed.new.passed ≡ seen.seen debugger.old.machine.input
        (R.subject reading.now debugger.old.machine.input.program) followed.old.asked
        (position debugger.new.machine + 1))
        × (seen.changes_until debugger.old.machine.input
        (R.subject reading.now debugger.old.machine.input.program) followed.old.asked
        debugger.old.machine.forgotten (position debugger.old.machine)
        ≡ position debugger.new.machine
        ∷ seen.changes_until debugger.old.machine.input
        (R.subject reading.now debugger.old.machine.input.program) followed.old.asked
        debugger.old.machine.forgotten (position debugger.new.machine)))
        (seen.changes_until debugger.old.machine.input
        (R.subject reading.now debugger.old.machine.input.program) followed.old.asked
        debugger.old.machine.forgotten (position debugger.old.machine) ≡ [])) }
    ensures memory { OnErr result (IsBetween debugger.old debugger.old.machine.forgotten
        (position debugger.old.machine) debugger.new) }
{
    while debugger.step_back() {
        debugger.machine().known();
        if followed.follow_back(debugger, reading)? {
            return Ok(true);
        }
    }
    Ok(false)
}

/// Appends the rows of the newest earlier steps at which a reading changes, at most `most`. Gives
/// their number.
fn push_rows<S: SetBoard, R: Reading>(
    debugger: &mut Debugger<S>,
    reading: &R,
    most: u64,
    bytes: &mut Vec<u8>,
) -> Result<u64, AllocError>
    requires { R.suits reading.now debugger.old.machine.input.program }
    ensures gone { OnOk result (HasLookedBack debugger.old debugger.new) }
    ensures rows { OnOk result (bytes.new.items ≡ bytes.old.items
        ++ step_rows debugger.old.machine.input
        (R.subject reading.now debugger.old.machine.input.program) (position debugger.old.machine)
        (take most (changes_before debugger.old.machine.input
        (R.subject reading.now debugger.old.machine.input.program) debugger.old.machine.forgotten
        (position debugger.old.machine)))) }
    ensures count { IfOk result (λ count. count
        ≡ length (take most (changes_before debugger.old.machine.input
        (R.subject reading.now debugger.old.machine.input.program) debugger.old.machine.forgotten
        (position debugger.old.machine)))) }
    ensures memory { OnErr result (IsBetween debugger.old debugger.old.machine.forgotten
        (position debugger.old.machine) debugger.new) }
{
    let mut followed = Followed::new(debugger, reading)?;
    let mut count = 0;
    while count < most {
        if !back_to_newest(debugger, reading, &mut followed)? {
            return Ok(count);
        }
        debugger.machine().known();
        push_step_row(bytes, debugger, &followed.passed)?;
        count += 1;
    }
    Ok(count)
}

/// Goes back, and appends the history of a reading of this name as a table, or that it did not
/// change.
#[tactic(auto, using(crate::proofs::Tables::told_some, crate::proofs::Tables::told_none))]
fn push_table<S: SetBoard, R: Reading>(
    debugger: &mut Debugger<S>,
    reading: &R,
    name: &[u8],
    most: u64,
    bytes: &mut Vec<u8>,
) -> Result<(), AllocError>
    requires { R.suits reading.now debugger.old.machine.input.program }
    ensures gone { OnOk result (HasLookedBack debugger.old debugger.new) }
    ensures said { OnOk result (bytes.new.items ≡ bytes.old.items
        ++ history_text debugger.old.machine.input
        (R.subject reading.now debugger.old.machine.input.program) name.now most
        debugger.old.machine.forgotten (position debugger.old.machine)) }
    ensures memory { OnErr result (IsBetween debugger.old debugger.old.machine.forgotten
        (position debugger.old.machine) debugger.new) }
{
    let mut rows = Vec::new(*bytes.allocator());
    let count = push_rows(debugger, reading, most, &mut rows)?;
    if count == 0 {
        return push_no_change(bytes, debugger);
    }
    push_with_head(bytes, name, &rows)
}

/// HISTORY (docs/PROMPT.md): appends the history of a reading of this name as a table, the newest
/// steps first and at most `most`, or that it did not change since the earliest kept state.
/// Position, break lines and earliest kept position stay as they are: the debugger goes back, and
/// forward again over the same steps.
///
/// `AllocError` if a value, a text or a step was refused memory: then the debugger is perhaps at an
/// earlier position that is kept, and the appended bytes do not count.
pub fn push_history<S: SetBoard, R: Reading>(
    debugger: &mut Debugger<S>,
    reading: &R,
    name: &[u8],
    most: u64,
    bytes: &mut Vec<u8>,
) -> Result<(), AllocError>
    requires { R.suits reading.now debugger.old.machine.input.program }
    ensures input { debugger.new.machine.input ≡ debugger.old.machine.input }
    ensures place { OnOk result (debugger_state_of debugger.new ≡ debugger_state_of debugger.old) }
    ensures said { OnOk result (bytes.new.items ≡ bytes.old.items
        ++ history_text debugger.old.machine.input
        (R.subject reading.now debugger.old.machine.input.program) name.now most
        debugger.old.machine.forgotten (position debugger.old.machine)) }
    ensures memory { OnErr result (IsBetween debugger.old debugger.old.machine.forgotten
        (position debugger.old.machine) debugger.new) }
{
    debugger.machine().known();
    let from = debugger.machine().position();
    push_table(debugger, reading, name, most, bytes)?;
    return_to(debugger, from)
}

/// Goes back to the newest earlier step at which a reading changes, and appends its texts.
#[tactic(auto, using(crate::proofs::Tables::newest_is, crate::proofs::Tables::newest_none))]
fn push_newest<S: SetBoard, R: Reading>(
    debugger: &mut Debugger<S>,
    reading: &R,
    name: &[u8],
    head: &mut Vec<u8>,
    change: &mut Vec<u8>,
) -> Result<Option<usize>, AllocError>
    requires { R.suits reading.now debugger.old.machine.input.program }
    ensures gone { OnOk result (HasLookedBack debugger.old debugger.new) }
    ensures head { OnOk result (head.new.items ≡ head.old.items
        ++ why_head debugger.old.machine.input debugger.old.machine.forgotten
        (seen.last_change debugger.old.machine.input
        (R.subject reading.now debugger.old.machine.input.program) debugger.old.machine.forgotten
        (position debugger.old.machine))) }
    ensures line { IfOk result (λ line. line ≡ why_line debugger.old.machine.input
        (seen.last_change debugger.old.machine.input
        (R.subject reading.now debugger.old.machine.input.program) debugger.old.machine.forgotten
        (position debugger.old.machine))) }
    ensures change { OnOk result (change.new.items ≡ change.old.items
        ++ why_change debugger.old.machine.input
        (R.subject reading.now debugger.old.machine.input.program) name.now
        (position debugger.old.machine)
        (seen.last_change debugger.old.machine.input
        (R.subject reading.now debugger.old.machine.input.program) debugger.old.machine.forgotten
        (position debugger.old.machine))) }
    ensures memory { OnErr result (IsBetween debugger.old debugger.old.machine.forgotten
        (position debugger.old.machine) debugger.new) }
{
    let mut followed = Followed::new(debugger, reading)?;
    if !back_to_newest(debugger, reading, &mut followed)? {
        push_no_change(head, debugger)?;
        return Ok(None);
    }
    let text = debugger.answer_to(&Question::Where)?;
    head.extend_from_slice(&text)?;
    push_change_line(change, name, &followed.value, &followed.passed)?;
    Ok(Some(present_line(debugger)))
}

/// WHY (docs/PROMPT.md): looks for the newest earlier step at which a reading of this name changes.
/// Appends to `head` its state line, or that there was none since the earliest kept state; to
/// `change` the line of the values before and after. Gives the line of the model of that step.
/// Position, break lines and earliest kept position stay as they are.
///
/// `AllocError` as for [`push_history`].
pub fn push_why<S: SetBoard, R: Reading>(
    debugger: &mut Debugger<S>,
    reading: &R,
    name: &[u8],
    head: &mut Vec<u8>,
    change: &mut Vec<u8>,
) -> Result<Option<usize>, AllocError>
    requires { R.suits reading.now debugger.old.machine.input.program }
    ensures input { debugger.new.machine.input ≡ debugger.old.machine.input }
    ensures place { OnOk result (debugger_state_of debugger.new ≡ debugger_state_of debugger.old) }
    ensures head { OnOk result (head.new.items ≡ head.old.items
        ++ why_head debugger.old.machine.input debugger.old.machine.forgotten
        (seen.last_change debugger.old.machine.input
        (R.subject reading.now debugger.old.machine.input.program) debugger.old.machine.forgotten
        (position debugger.old.machine))) }
    ensures line { IfOk result (λ line. line ≡ why_line debugger.old.machine.input
        (seen.last_change debugger.old.machine.input
        (R.subject reading.now debugger.old.machine.input.program) debugger.old.machine.forgotten
        (position debugger.old.machine))) }
    ensures change { OnOk result (change.new.items ≡ change.old.items
        ++ why_change debugger.old.machine.input
        (R.subject reading.now debugger.old.machine.input.program) name.now
        (position debugger.old.machine)
        (seen.last_change debugger.old.machine.input
        (R.subject reading.now debugger.old.machine.input.program) debugger.old.machine.forgotten
        (position debugger.old.machine))) }
    ensures memory { OnErr result (IsBetween debugger.old debugger.old.machine.forgotten
        (position debugger.old.machine) debugger.new) }
{
    debugger.machine().known();
    let from = debugger.machine().position();
    let line = push_newest(debugger, reading, name, head, change)?;
    return_to(debugger, from)?;
    Ok(line)
}

/// Goes back to the newest earlier step at which a reading changes, if it is kept, and gives it.
#[tactic(auto, using(crate::proofs::Tables::newest_is, crate::proofs::Tables::newest_none))]
fn back_to_last<S: SetBoard, R: Reading>(
    debugger: &mut Debugger<S>,
    reading: &R,
) -> Result<Option<StepPlace>, AllocError>
    requires { R.suits reading.now debugger.old.machine.input.program }
    ensures gone { OnOk result (HasLookedBack debugger.old debugger.new) }
    ensures last { IfOk result (λ last. last
        ≡ option_map (step_place debugger.old.machine.input)
        (seen.last_change debugger.old.machine.input
        (R.subject reading.now debugger.old.machine.input.program) debugger.old.machine.forgotten
        (position debugger.old.machine))) }
    ensures memory { OnErr result (IsBetween debugger.old debugger.old.machine.forgotten
        (position debugger.old.machine) debugger.new) }
{
    let mut followed = Followed::new(debugger, reading)?;
    if back_to_newest(debugger, reading, &mut followed)? {
        return Ok(Some(present_step(debugger)));
    }
    Ok(None)
}

/// The newest earlier step at which a reading changes; `None` if there was none since the earliest
/// kept state. Position, break lines and earliest kept position stay as they are.
///
/// `AllocError` if a value or a step was refused memory: then the debugger is perhaps at an earlier
/// position that is kept.
pub fn last_change<S: SetBoard, R: Reading>(
    debugger: &mut Debugger<S>,
    reading: &R,
) -> Result<Option<StepPlace>, AllocError>
    requires { R.suits reading.now debugger.old.machine.input.program }
    ensures input { debugger.new.machine.input ≡ debugger.old.machine.input }
    ensures place { OnOk result (debugger_state_of debugger.new ≡ debugger_state_of debugger.old) }
    ensures last { IfOk result (λ last. last
        ≡ option_map (step_place debugger.old.machine.input)
        (seen.last_change debugger.old.machine.input
        (R.subject reading.now debugger.old.machine.input.program) debugger.old.machine.forgotten
        (position debugger.old.machine))) }
    ensures memory { OnErr result (IsBetween debugger.old debugger.old.machine.forgotten
        (position debugger.old.machine) debugger.new) }
{
    debugger.machine().known();
    let from = debugger.machine().position();
    let last = back_to_last(debugger, reading)?;
    return_to(debugger, from)?;
    Ok(last)
}

//! Forward and back to a step at which a question changes.
ghost use Rattle.std.specs.Prelude.{◌≡◌, ◌<◌, ◌≤◌, OnOk, OnErr, IfOk, ℕ, Bool, true, nat_lt};
ghost use Rattle.ss_machine.specs.Moment.{position};
ghost use Rattle.ss_debug.specs.Move.{is_stop, search_back_end};
ghost use Rattle.ss_trace.specs.Question.{changes_at};
ghost use Rattle.ss_trace.specs.Movements.{has_changed, ahead_condition, ahead_end, is_met, is_met_back};
ghost use Rattle.ss_trace.specs.View.{IsAt, IsBetween};

use crate::question::Question;
use crate::reading::Reading;
use crate::sought::{is_ready_now, step_once};
use ss_debug::Debugger;
use ss_links::SetBoard;
use ss_state::LAST_POSITION;
use std::alloc::{AllocError, Global};

/// Whether a movement from position `from` stops at the machine's present state. `met` says whether
/// it met the state that it looks for.
pub fn is_at_stop<S: SetBoard>(debugger: &Debugger<S>, from: u64, met: bool) -> bool
    ensures { (test : ℕ → Bool) → met ≡ is_met test from (position debugger.now.machine)
        → result ≡ is_stop debugger.now.machine.input
        (ahead_condition debugger.now.machine.input debugger.now.breaks test) from
        (position debugger.now.machine) }
{
    if !is_ready_now(debugger) || met {
        return true;
    }
    from < debugger.machine().position() && debugger.stands_on_break()
}

/// Steps to the least later position after a step at which a question changes, or on a break line,
/// or whose status isn't ready, within the bound and not past the last position. Says whether the
/// question changed there.
///
/// `AllocError` if a step or an answer was refused memory: the machine is at the position to which
/// the steps before it led.
pub fn ahead_to_change<S: SetBoard>(
    alloc: Global,
    debugger: &mut Debugger<S>,
    question: &Question,
    bound: u64,
) -> Result<bool, AllocError>
    ensures ok { OnOk result (IsAt debugger.old (ahead_end debugger.old.machine.input
        debugger.old.breaks (has_changed debugger.old.machine.input question.now)
        (position debugger.old.machine) bound) debugger.new) }
    ensures met { IfOk result (λ met. met
        ≡ is_met (has_changed debugger.old.machine.input question.now)
        (position debugger.old.machine) (position debugger.new.machine)) }
    ensures memory { OnErr result (IsBetween debugger.old (position debugger.old.machine)
        (ahead_end debugger.old.machine.input debugger.old.breaks
        (has_changed debugger.old.machine.input question.now) (position debugger.old.machine)
        bound) debugger.new) }
{
    debugger.machine().known();
    let mut reading = Reading::new(alloc, debugger, question)?;
    let mut met = false;
    let from = debugger.machine().position();
    let steps = bound.min(LAST_POSITION - from);
    for _k in 0..steps {
        if is_at_stop(debugger, from, met) {
            return Ok(met);
        }
        let touched = reading.touched(debugger);
        step_once(debugger)?;
        met = reading.follow(debugger, question, touched)?.is_some();
    }
    Ok(met)
}

/// Steps back to the greatest earlier position at whose step a question changes, or to the earliest
/// kept position, within the bound. Says whether the question changes there.
///
/// `AllocError` if an answer was refused memory: the machine is at the position to which the steps
/// before it led.
pub fn back_to_change<S: SetBoard>(
    alloc: Global,
    debugger: &mut Debugger<S>,
    question: &Question,
    bound: u64,
) -> Result<bool, AllocError>
    ensures ok { OnOk result (IsAt debugger.old
        (search_back_end (changes_at debugger.old.machine.input question.now)
        debugger.old.machine.forgotten (position debugger.old.machine) bound) debugger.new) }
    ensures met { IfOk result (λ met. met
        ≡ is_met_back (changes_at debugger.old.machine.input question.now)
        (position debugger.old.machine) (position debugger.new.machine)) }
    ensures memory { OnErr result (IsBetween debugger.old
        (search_back_end (changes_at debugger.old.machine.input question.now)
        debugger.old.machine.forgotten (position debugger.old.machine) bound)
        (position debugger.old.machine) debugger.new) }
{
    let mut reading = Reading::new(alloc, debugger, question)?;
    for _k in 0..bound {
        if !debugger.step_back() {
            return Ok(false);
        }
        let touched = reading.touched(debugger);
        if reading.follow(debugger, question, touched)?.is_some() {
            return Ok(true);
        }
    }
    Ok(false)
}

//! Forward and back to a step at which a reading changes.
ghost use Rattle.std.specs.Prelude.{◌≡◌, OnOk, OnErr, IfOk};
ghost use Rattle.ss_machine.specs.Moment.{position};
ghost use Rattle.ss_debug.specs.Move.{search_back_end};
ghost use Rattle.ss_trace.specs.Movements.{ahead_end, is_met, is_met_back};
ghost use Rattle.ss_trace.specs.View.{IsAt, IsBetween};
ghost use Rattle.ss_readings.specs.Seen.{changes_in, has_changed_in};

use crate::followed::Followed;
use crate::reading::Reading;
use ss_debug::Debugger;
use ss_links::SetBoard;
use ss_state::LAST_POSITION;
use ss_trace::{is_at_stop, step_once};
use std::alloc::AllocError;

/// Steps to the least later position after a step at which a reading changes, or on a break line,
/// or whose status isn't ready, within the bound and not past the last position. Says whether the
/// reading changed there.
///
/// `AllocError` if a step or a value was refused memory: the machine is at the position to which
/// the steps before it led.
pub fn ahead_to_change<S: SetBoard, R: Reading>(
    debugger: &mut Debugger<S>,
    reading: &R,
    bound: u64,
) -> Result<bool, AllocError>
    requires { R.suits reading.now debugger.old.machine.input.program }
    ensures ok { OnOk result (IsAt debugger.old (ahead_end debugger.old.machine.input
        debugger.old.breaks (has_changed_in debugger.old.machine.input
        (R.subject reading.now debugger.old.machine.input.program) (position debugger.old.machine))
        (position debugger.old.machine) bound) debugger.new) }
    ensures met { IfOk result (λ met. met ≡ is_met (has_changed_in debugger.old.machine.input
        (R.subject reading.now debugger.old.machine.input.program) (position debugger.old.machine))
        (position debugger.old.machine) (position debugger.new.machine)) }
    ensures memory { OnErr result (IsBetween debugger.old (position debugger.old.machine)
        (ahead_end debugger.old.machine.input debugger.old.breaks
        (has_changed_in debugger.old.machine.input
        (R.subject reading.now debugger.old.machine.input.program) (position debugger.old.machine))
        (position debugger.old.machine) bound) debugger.new) }
{
    debugger.machine().known();
    let mut followed = Followed::new(debugger, reading)?;
    let mut met = false;
    let from = debugger.machine().position();
    let steps = bound.min(LAST_POSITION - from);
    for _k in 0..steps {
        if is_at_stop(debugger, from, met) {
            return Ok(met);
        }
        step_once(debugger)?;
        met = followed.follow_on(debugger, reading)?;
    }
    Ok(met)
}

/// Steps back to the greatest earlier position at whose step a reading changes, or to the earliest
/// kept position, within the bound. Says whether the reading changes there.
///
/// `AllocError` if a value was refused memory: the machine is at the position to which the steps
/// before it led.
pub fn back_to_change<S: SetBoard, R: Reading>(
    debugger: &mut Debugger<S>,
    reading: &R,
    bound: u64,
) -> Result<bool, AllocError>
    requires { R.suits reading.now debugger.old.machine.input.program }
    ensures ok { OnOk result (IsAt debugger.old
        (search_back_end (changes_in debugger.old.machine.input
        (R.subject reading.now debugger.old.machine.input.program) (position debugger.old.machine))
        debugger.old.machine.forgotten (position debugger.old.machine) bound) debugger.new) }
    ensures met { IfOk result (λ met. met ≡ is_met_back (changes_in debugger.old.machine.input
        (R.subject reading.now debugger.old.machine.input.program) (position debugger.old.machine))
        (position debugger.old.machine) (position debugger.new.machine)) }
    ensures memory { OnErr result (IsBetween debugger.old
        (search_back_end (changes_in debugger.old.machine.input
        (R.subject reading.now debugger.old.machine.input.program) (position debugger.old.machine))
        debugger.old.machine.forgotten (position debugger.old.machine) bound)
        (position debugger.old.machine) debugger.new) }
{
    let mut followed = Followed::new(debugger, reading)?;
    for _k in 0..bound {
        if !debugger.step_back() {
            return Ok(false);
        }
        if followed.follow_back(debugger, reading)? {
            return Ok(true);
        }
    }
    Ok(false)
}

//! Forward to a state that is looked for, or to a break line.
ghost use Rattle.std.specs.Prelude.{◌≡◌, OnOk, OnErr};
ghost use Rattle.ss_machine.specs.Moment.{position};
ghost use Rattle.ss_trace.specs.Movements.{ahead_end};
ghost use Rattle.ss_trace.specs.View.{IsAt, IsBetween, sought_test};

use crate::sought::{Sought, is_at_stop, step_once};
use ss_debug::Debugger;
use ss_links::SetBoard;
use ss_state::LAST_POSITION;
use std::alloc::AllocError;

/// Steps to the least later position that is looked for, or on a break line, or whose status isn't
/// ready, within the bound and not past the last position.
///
/// `AllocError` if a step was refused memory: the machine is at the position to which the steps
/// before it led.
#[tactic(auto, using(ss_debug::proofs::Moves::least_steps))]
pub fn ahead<S: SetBoard>(
    debugger: &mut Debugger<S>,
    sought: Sought,
    bound: u64,
) -> Result<(), AllocError>
    ensures ok { OnOk result (IsAt debugger.old (ahead_end debugger.old.machine.input
        debugger.old.breaks (sought_test debugger.old.machine.input sought)
        (position debugger.old.machine) bound) debugger.new) }
    ensures memory { OnErr result (IsBetween debugger.old (position debugger.old.machine)
        (ahead_end debugger.old.machine.input debugger.old.breaks
        (sought_test debugger.old.machine.input sought) (position debugger.old.machine) bound)
        debugger.new) }
{
    debugger.machine().known();
    let from = debugger.machine().position();
    let steps = bound.min(LAST_POSITION - from);
    for _k in 0..steps {
        if is_at_stop(debugger, sought, from) {
            return Ok(());
        }
        step_once(debugger)?;
    }
    Ok(())
}

//! All that differs between the state that a movement left and the present one.
ghost use Rattle.std.specs.Prelude.{◌≡◌, ◌++◌, OnOk, OnErr};
ghost use Rattle.ss_machine.specs.Moment.{position};
ghost use Rattle.ss_debug.specs.View.{debugger_state_of};
ghost use Rattle.ss_trace.specs.Turn.{state_after};
ghost use Rattle.ss_trace.specs.declared.movement.Movement.TheVariants.{Go};
ghost use Rattle.ss_changes.specs.Texts.{all_changes_since};
ghost use Rattle.ss_prompt.specs.Left.{IsOnTheWay};

use ss_changes::{Snapshot, push_all_changes_since};
use ss_debug::Debugger;
use ss_links::SetBoard;
use ss_trace::{Movement, make_movement};
use std::alloc::{AllocError, Global};

/// Goes to a position as GO does, without an answer.
fn go_to<S: SetBoard>(alloc: Global, debugger: &mut Debugger<S>, to: u64) -> Result<(), AllocError>
    ensures input { debugger.new.machine.input ≡ debugger.old.machine.input }
    ensures place { OnOk result (debugger_state_of debugger.new
        ≡ state_after debugger.old.machine.input (debugger_state_of debugger.old) (Go to)) }
    ensures way { IsOnTheWay (debugger_state_of debugger.old) to (debugger_state_of debugger.new) }
{
    debugger.machine().known();
    let mut said = Vec::new(alloc);
    make_movement(debugger, Movement::Go(to), &mut said)?;
    Ok(())
}

/// Goes back to a position at which the debugger was.
fn come_back<S: SetBoard>(
    alloc: Global,
    debugger: &mut Debugger<S>,
    here: u64,
) -> Result<(), AllocError>
    ensures input { debugger.new.machine.input ≡ debugger.old.machine.input }
    ensures place { OnOk result (position debugger.new.machine ≡ here) }
    ensures way { IsOnTheWay (debugger_state_of debugger.old) here (debugger_state_of debugger.new) }
{
    go_to(alloc, debugger, here)?;
    if debugger.machine().position() != here {
        // Never met: GO leads to each position at which it was (`states_left_are_found`).
        return Err(AllocError);
    }
    Ok(())
}

/// Appends all that differs between the present state and the one to which GO goes from here. The
/// debugger goes there, and back again.
///
/// `AllocError` if memory was refused: then the debugger is on the way, and the appended text does
/// not count.
pub(crate) fn push_changed_since<S: SetBoard>(
    alloc: Global,
    debugger: &mut Debugger<S>,
    left: u64,
    answer: &mut Vec<u8>,
) -> Result<(), AllocError>
    ensures input { debugger.new.machine.input ≡ debugger.old.machine.input }
    ensures place { OnOk result (debugger_state_of debugger.new ≡ debugger_state_of debugger.old) }
    ensures said { OnOk result (answer.new.items ≡ answer.old.items
        ++ all_changes_since debugger.old.machine.input (state_after debugger.old.machine.input
        (debugger_state_of debugger.old) (Go left)).position (position debugger.old.machine)) }
    ensures memory { OnErr result
        (IsOnTheWay (debugger_state_of debugger.old) left (debugger_state_of debugger.new)) }
{
    let here = debugger.machine().position();
    go_to(alloc, debugger, left)?;
    let snapshot = Snapshot::of(alloc, debugger)?;
    come_back(alloc, debugger, here)?;
    push_all_changes_since(alloc, debugger, &snapshot, answer)
}

//! RUN CHANGE and BACK CHANGE of a reading.
ghost use Rattle.std.specs.Prelude.{◌≡◌, ◌++◌, OnOk, OnErr};
ghost use Rattle.ss_machine.specs.Moment.{position};
ghost use Rattle.ss_debug.specs.View.{debugger_state_of};
ghost use Rattle.ss_trace.specs.Turn.{state_after_shape, shape_answer, IsAfterRefusedShape};
ghost use Rattle.ss_readings.specs.Changes.{run_change, back_change};

use crate::reading::Reading;
use crate::search::{ahead_to_change, back_to_change};
use ss_debug::{Debugger, GREATEST_BOUND};
use ss_links::SetBoard;
use ss_trace::{backward_word, forward_word};
use std::alloc::AllocError;

/// RUN CHANGE (docs/PROMPT.md): goes forward to the state after the next step at which a reading
/// changes, at most `GREATEST_BOUND` steps, and appends its whole answer to `bytes`. It ends early
/// at a break line, and in a state that isn't ready.
///
/// `AllocError` if a growth was refused: `bytes`, the break lines and the earliest kept position
/// are as before, and the machine is at the position to which the steps that were made led.
pub fn run_change<S: SetBoard, R: Reading>(
    debugger: &mut Debugger<S>,
    reading: &R,
    bytes: &mut Vec<u8>,
) -> Result<(), AllocError>
    requires { R.suits reading.now debugger.old.machine.input.program }
    ensures input { debugger.new.machine.input ≡ debugger.old.machine.input }
    ensures place { OnOk result (debugger_state_of debugger.new
        ≡ state_after_shape debugger.old.machine.input (debugger_state_of debugger.old)
        (run_change debugger.old.machine.input
        (R.subject reading.now debugger.old.machine.input.program)
        (position debugger.old.machine))) }
    ensures said { OnOk result (bytes.new.items ≡ bytes.old.items
        ++ shape_answer debugger.old.machine.input (debugger_state_of debugger.old)
        (run_change debugger.old.machine.input
        (R.subject reading.now debugger.old.machine.input.program)
        (position debugger.old.machine))) }
    ensures memory { OnErr result ((bytes.new.items ≡ bytes.old.items)
        × IsAfterRefusedShape debugger.old.machine.input (debugger_state_of debugger.old)
        (run_change debugger.old.machine.input
        (R.subject reading.now debugger.old.machine.input.program)
        (position debugger.old.machine))
        (debugger_state_of debugger.new)) }
{
    let from = debugger.machine().position();
    let met = ahead_to_change(debugger, reading, GREATEST_BOUND)?;
    debugger.push_movement(forward_word(debugger, b"CHANGE", from, met), bytes)
}

/// BACK CHANGE (docs/PROMPT.md): goes back to the state before the last step at which a reading
/// changed, at most `GREATEST_BOUND` steps, and appends its whole answer to `bytes`. If there is
/// none it ends at the earliest kept state. It passes break lines.
///
/// `AllocError` if a growth was refused: `bytes`, the break lines and the earliest kept position
/// are as before, and the machine is at the position to which the steps that were made led.
pub fn back_change<S: SetBoard, R: Reading>(
    debugger: &mut Debugger<S>,
    reading: &R,
    bytes: &mut Vec<u8>,
) -> Result<(), AllocError>
    requires { R.suits reading.now debugger.old.machine.input.program }
    ensures input { debugger.new.machine.input ≡ debugger.old.machine.input }
    ensures place { OnOk result (debugger_state_of debugger.new
        ≡ state_after_shape debugger.old.machine.input (debugger_state_of debugger.old)
        (back_change debugger.old.machine.input
        (R.subject reading.now debugger.old.machine.input.program)
        (position debugger.old.machine))) }
    ensures said { OnOk result (bytes.new.items ≡ bytes.old.items
        ++ shape_answer debugger.old.machine.input (debugger_state_of debugger.old)
        (back_change debugger.old.machine.input
        (R.subject reading.now debugger.old.machine.input.program)
        (position debugger.old.machine))) }
    ensures memory { OnErr result ((bytes.new.items ≡ bytes.old.items)
        × IsAfterRefusedShape debugger.old.machine.input (debugger_state_of debugger.old)
        (back_change debugger.old.machine.input
        (R.subject reading.now debugger.old.machine.input.program)
        (position debugger.old.machine))
        (debugger_state_of debugger.new)) }
{
    let met = back_to_change(debugger, reading, GREATEST_BOUND)?;
    debugger.push_movement(backward_word(debugger, b"CHANGE", met), bytes)
}

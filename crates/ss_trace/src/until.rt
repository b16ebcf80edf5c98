//! RUN UNTIL, BACK UNTIL and GO FIRST: movements to a state at which an aim is met.
ghost use Rattle.std.specs.Prelude.{◌≡◌, ◌++◌, OnOk, OnErr};
ghost use Rattle.ss_debug.specs.View.{debugger_state_of};
ghost use Rattle.ss_trace.specs.Turn.{state_after_shape, shape_answer, IsAfterRefusedShape};
ghost use Rattle.ss_trace.specs.Until.{run_until, back_until};
ghost use Rattle.ss_trace.specs.Until.{state_after_first, first_answer, IsAfterRefusedFirst};

use crate::aim::{Aim, ahead_to_aim, back_to_aim, back_to_earliest, on_to_aim};
use crate::text::{backward_word, forward_word};
use ss_debug::{Debugger, GREATEST_BOUND};
use ss_links::SetBoard;
use std::alloc::AllocError;

/// RUN UNTIL (docs/PROMPT.md): goes forward to the least later state at which an aim is met, at most
/// `GREATEST_BOUND` steps, and appends its whole answer to `bytes`. It ends early at a break line,
/// and in a state that isn't ready.
///
/// `AllocError` if a growth was refused: `bytes`, the break lines and the earliest kept position
/// are as before, and the machine is at the position to which the steps that were made led.
pub fn run_until<S: SetBoard, A: Aim>(
    debugger: &mut Debugger<S>,
    aim: &A,
    bytes: &mut Vec<u8>,
) -> Result<(), AllocError>
    requires { A.suits aim.now debugger.old.machine.input.program }
    ensures input { debugger.new.machine.input ≡ debugger.old.machine.input }
    ensures place { OnOk result (debugger_state_of debugger.new
        ≡ state_after_shape debugger.old.machine.input (debugger_state_of debugger.old)
        (run_until (A.test aim.now debugger.old.machine.input))) }
    ensures said { OnOk result (bytes.new.items ≡ bytes.old.items
        ++ shape_answer debugger.old.machine.input (debugger_state_of debugger.old)
        (run_until (A.test aim.now debugger.old.machine.input))) }
    ensures memory { OnErr result ((bytes.new.items ≡ bytes.old.items)
        × IsAfterRefusedShape debugger.old.machine.input (debugger_state_of debugger.old)
        (run_until (A.test aim.now debugger.old.machine.input))
        (debugger_state_of debugger.new)) }
{
    let from = debugger.machine().position();
    let met = ahead_to_aim(debugger, aim, GREATEST_BOUND)?;
    debugger.push_movement(forward_word(debugger, b"UNTIL", from, met), bytes)
}

/// BACK UNTIL (docs/PROMPT.md): goes back to the greatest earlier kept state at which an aim is met,
/// at most `GREATEST_BOUND` steps, and appends its whole answer to `bytes`. If there is none it ends
/// at the earliest kept state. It passes break lines.
///
/// `AllocError` if a growth was refused: `bytes`, the break lines and the earliest kept position
/// are as before, and the machine is at the position to which the steps that were made led.
pub fn back_until<S: SetBoard, A: Aim>(
    debugger: &mut Debugger<S>,
    aim: &A,
    bytes: &mut Vec<u8>,
) -> Result<(), AllocError>
    requires { A.suits aim.now debugger.old.machine.input.program }
    ensures input { debugger.new.machine.input ≡ debugger.old.machine.input }
    ensures place { OnOk result (debugger_state_of debugger.new
        ≡ state_after_shape debugger.old.machine.input (debugger_state_of debugger.old)
        (back_until (A.test aim.now debugger.old.machine.input))) }
    ensures said { OnOk result (bytes.new.items ≡ bytes.old.items
        ++ shape_answer debugger.old.machine.input (debugger_state_of debugger.old)
        (back_until (A.test aim.now debugger.old.machine.input))) }
    ensures memory { OnErr result ((bytes.new.items ≡ bytes.old.items)
        × IsAfterRefusedShape debugger.old.machine.input (debugger_state_of debugger.old)
        (back_until (A.test aim.now debugger.old.machine.input))
        (debugger_state_of debugger.new)) }
{
    let met = back_to_aim(debugger, aim, GREATEST_BOUND)?;
    debugger.push_movement(backward_word(debugger, b"UNTIL", met), bytes)
}

/// GO FIRST (docs/PROMPT.md): goes to the least state, from the earliest kept one on, at which an aim
/// is met, and appends its whole answer to `bytes`. It goes past the present state if need be,
/// passes break lines, and has no bound; it ends early in a state that isn't ready.
///
/// `AllocError` if a growth was refused: `bytes`, the break lines and the earliest kept position
/// are as before, and the machine is at a position from the earliest kept one to the end.
pub fn go_first<S: SetBoard, A: Aim>(
    debugger: &mut Debugger<S>,
    aim: &A,
    bytes: &mut Vec<u8>,
) -> Result<(), AllocError>
    requires { A.suits aim.now debugger.old.machine.input.program }
    ensures input { debugger.new.machine.input ≡ debugger.old.machine.input }
    ensures place { OnOk result (debugger_state_of debugger.new
        ≡ state_after_first debugger.old.machine.input (debugger_state_of debugger.old)
        (A.test aim.now debugger.old.machine.input)) }
    ensures said { OnOk result (bytes.new.items ≡ bytes.old.items
        ++ first_answer debugger.old.machine.input (debugger_state_of debugger.old)
        (A.test aim.now debugger.old.machine.input)) }
    ensures memory { OnErr result ((bytes.new.items ≡ bytes.old.items)
        × IsAfterRefusedFirst debugger.old.machine.input (debugger_state_of debugger.old)
        (A.test aim.now debugger.old.machine.input) (debugger_state_of debugger.new)) }
{
    back_to_earliest(debugger);
    let met = on_to_aim(debugger, aim)?;
    let end = debugger.machine().position();
    debugger.push_movement(forward_word(debugger, b"UNTIL", end, met), bytes)
}

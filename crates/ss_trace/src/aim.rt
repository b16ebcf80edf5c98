//! The states at which an aim is met: the trait, and the searches for them.
ghost use Rattle.std.specs.Prelude.{◌≡◌, ◌&&◌, OnOk, OnErr, IfOk};
ghost use Rattle.ss_machine.specs.Moment.{position};
ghost use Rattle.ss_debug.specs.Move.{is_ready_at, search_back_end};
ghost use Rattle.ss_trace.specs.Movements.{ahead_end, is_met, is_met_back};
ghost use Rattle.ss_trace.specs.Until.{first_end};
ghost use Rattle.ss_trace.specs.View.{IsAt, IsBetween};

use crate::change_search::is_at_stop;
use crate::sought::{is_ready_now, step_once};
use ss_debug::Debugger;
use ss_links::SetBoard;
use ss_state::LAST_POSITION;
use std::alloc::AllocError;

/// The states that a movement looks for: those at which a test holds, such as a condition of the
/// language. The test may want memory.
pub trait Aim {
    ghost use Rattle.std.specs.Prelude.{◌≡◌, ℕ, Bool, IfOk};
    ghost use Rattle.ss_program.specs.Program.{ProgramTable};
    ghost use Rattle.ss_machine.specs.Moment.{position};
    ghost use Rattle.ss_state.specs.Run.{Input};

    // whether the aim is one for the runs of a program: what it names is the program's
    ghost suits: { Self → ProgramTable → Type 0 };

    // whether it is met in the state of this number of a run
    ghost test: { Self → Input → ℕ → Bool };

    /// Whether the aim is met in the debugger's present state. `AllocError` if memory was refused.
    fn is_met<S: SetBoard>(&self, debugger: &Debugger<S>) -> Result<bool, AllocError>
        requires { suits self.now debugger.now.machine.input.program }
        ensures { IfOk result (λ met. met
            ≡ test self.now debugger.now.machine.input (position debugger.now.machine)) };
}

/// Steps to the least later position at which an aim is met, or on a break line, or whose status
/// isn't ready, within the bound and not past the last position. Says whether the aim is met there.
///
/// `AllocError` if a step or the aim was refused memory: the machine is at the position to which
/// the steps before it led.
pub fn ahead_to_aim<S: SetBoard, A: Aim>(
    debugger: &mut Debugger<S>,
    aim: &A,
    bound: u64,
) -> Result<bool, AllocError>
    requires { A.suits aim.now debugger.old.machine.input.program }
    ensures ok { OnOk result (IsAt debugger.old (ahead_end debugger.old.machine.input
        debugger.old.breaks (A.test aim.now debugger.old.machine.input)
        (position debugger.old.machine) bound) debugger.new) }
    ensures met { IfOk result (λ met. met
        ≡ is_met (A.test aim.now debugger.old.machine.input)
        (position debugger.old.machine) (position debugger.new.machine)) }
    ensures memory { OnErr result (IsBetween debugger.old (position debugger.old.machine)
        (ahead_end debugger.old.machine.input debugger.old.breaks
        (A.test aim.now debugger.old.machine.input) (position debugger.old.machine) bound)
        debugger.new) }
{
    debugger.machine().known();
    let mut met = false;
    let from = debugger.machine().position();
    let steps = bound.min(LAST_POSITION - from);
    for _k in 0..steps {
        if is_at_stop(debugger, from, met) {
            return Ok(met);
        }
        step_once(debugger)?;
        met = aim.is_met(debugger)?;
    }
    Ok(met)
}

/// Steps back to the greatest earlier position at which an aim is met, or to the earliest kept
/// position, within the bound. Says whether the aim is met there.
///
/// `AllocError` if the aim was refused memory: the machine is at the position to which the steps
/// before it led.
pub fn back_to_aim<S: SetBoard, A: Aim>(
    debugger: &mut Debugger<S>,
    aim: &A,
    bound: u64,
) -> Result<bool, AllocError>
    requires { A.suits aim.now debugger.old.machine.input.program }
    ensures ok { OnOk result (IsAt debugger.old
        (search_back_end (A.test aim.now debugger.old.machine.input)
        debugger.old.machine.forgotten (position debugger.old.machine) bound) debugger.new) }
    ensures met { IfOk result (λ met. met
        ≡ is_met_back (A.test aim.now debugger.old.machine.input)
        (position debugger.old.machine) (position debugger.new.machine)) }
    ensures memory { OnErr result (IsBetween debugger.old
        (search_back_end (A.test aim.now debugger.old.machine.input)
        debugger.old.machine.forgotten (position debugger.old.machine) bound)
        (position debugger.old.machine) debugger.new) }
{
    for _k in 0..bound {
        if !debugger.step_back() {
            return Ok(false);
        }
        if aim.is_met(debugger)? {
            return Ok(true);
        }
    }
    Ok(false)
}

/// Goes back to the earliest kept position. It takes no memory.
pub fn back_to_earliest<S: SetBoard>(debugger: &mut Debugger<S>)
    ensures { IsAt debugger.old debugger.old.machine.forgotten debugger.new }
{
    while debugger.step_back() {}
}

/// Steps to the least position, the present one included, at which an aim is met or whose status
/// isn't ready, not past the last position. Says whether the aim is met there in a ready state.
///
/// `AllocError` if a step or the aim was refused memory: the machine is at the position to which
/// the steps before it led.
pub fn on_to_aim<S: SetBoard, A: Aim>(
    debugger: &mut Debugger<S>,
    aim: &A,
) -> Result<bool, AllocError>
    requires { A.suits aim.now debugger.old.machine.input.program }
    ensures ok { OnOk result (IsAt debugger.old (first_end debugger.old.machine.input
        (A.test aim.now debugger.old.machine.input) (position debugger.old.machine))
        debugger.new) }
    ensures met { IfOk result (λ met. met
        ≡ (is_ready_at debugger.old.machine.input (position debugger.new.machine)
        && A.test aim.now debugger.old.machine.input (position debugger.new.machine))) }
    ensures memory { OnErr result (IsBetween debugger.old (position debugger.old.machine)
        (first_end debugger.old.machine.input (A.test aim.now debugger.old.machine.input)
        (position debugger.old.machine)) debugger.new) }
{
    debugger.machine().known();
    let steps = LAST_POSITION - debugger.machine().position();
    for _k in 0..steps {
        if !is_ready_now(debugger) {
            return Ok(false);
        }
        if aim.is_met(debugger)? {
            return Ok(true);
        }
        step_once(debugger)?;
    }
    if !is_ready_now(debugger) {
        return Ok(false);
    }
    aim.is_met(debugger)
}

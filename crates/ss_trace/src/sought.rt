//! The states that a movement looks for, and single steps on the way there. The definitions name
//! the type, only for proofs.
ghost use Rattle.std.specs.Prelude.{◌≡◌, ◌+◌, ◌<◌, OnOk, OnErr, true};
ghost use Rattle.ss_machine.specs.Moment.{position};
ghost use Rattle.ss_state.specs.declared.limits.TheConstants.{LAST_POSITION};
ghost use Rattle.ss_debug.specs.Move.{is_ready_at, is_stop};
ghost use Rattle.ss_trace.specs.Movements.{ahead_condition};
ghost use Rattle.ss_trace.specs.View.{IsAt, sought_test};

use ss_debug::Debugger;
use ss_links::SetBoard;
use ss_state::Status;
use std::alloc::AllocError;

/// The states that a movement looks for, at another position than its start.
#[derive(Clone, Copy)]
pub enum Sought {
    /// No more than this number of frames.
    Level(usize),
    /// Fewer than this number of frames.
    Outside(usize),
    /// A clock before this time.
    Before(u64),
}

/// Whether the next step runs a place.
pub fn is_ready_now<S: SetBoard>(debugger: &Debugger<S>) -> bool
    ensures { result
        ≡ is_ready_at debugger.now.machine.input (position debugger.now.machine) }
{
    debugger.machine().known();
    matches!(debugger.machine().status(), Status::Ready)
}

/// Whether the machine's state is one that a movement looks for.
pub fn is_found<S: SetBoard>(debugger: &Debugger<S>, sought: Sought) -> bool
    ensures { result ≡ sought_test debugger.now.machine.input sought
        (position debugger.now.machine) }
{
    let machine = debugger.machine();
    machine.known();
    match sought {
        Sought::Level(frames) => machine.frames() <= frames,
        Sought::Outside(frames) => machine.frames() < frames,
        Sought::Before(time) => i128::from(machine.clock()) < i128::from(time),
    }
}

/// Whether a movement from position `from` stops at the machine's present state.
pub fn is_at_stop<S: SetBoard>(debugger: &Debugger<S>, sought: Sought, from: u64) -> bool
    ensures { result ≡ is_stop debugger.now.machine.input
        (ahead_condition debugger.now.machine.input debugger.now.breaks
        (sought_test debugger.now.machine.input sought)) from
        (position debugger.now.machine) }
{
    !is_ready_now(debugger)
        || (from < debugger.machine().position()
            && (is_found(debugger, sought) || debugger.stands_on_break()))
}

/// One step from a state that is ready and not the last.
pub fn step_once<S: SetBoard>(debugger: &mut Debugger<S>) -> Result<(), AllocError>
    requires ready { is_ready_at debugger.old.machine.input
        (position debugger.old.machine) ≡ true }
    requires before_last { position debugger.old.machine < LAST_POSITION }
    ensures ok { OnOk result (IsAt debugger.old (position debugger.old.machine + 1) debugger.new) }
    ensures err { OnErr result (debugger.new ≡ debugger.old) }
{
    debugger.machine().known();
    debugger.step_forward()?;
    Ok(())
}

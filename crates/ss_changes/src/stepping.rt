//! One step back, and forward again over the same step.
ghost use Rattle.std.specs.Prelude.{◌≡◌, ◌+◌, ◌-◌, ◌<◌, OnOk, OnErr};
ghost use Rattle.ss_machine.specs.Moment.{position};
ghost use Rattle.ss_changes.specs.View.{IsAt};

use ss_debug::Debugger;
use ss_links::SetBoard;
use ss_state::Stepped;
use std::alloc::AllocError;

/// One step back, if a step is kept.
pub fn go_back<S: SetBoard>(debugger: &mut Debugger<S>)
    requires { debugger.old.machine.forgotten < position debugger.old.machine }
    ensures { IsAt debugger.old (position debugger.old.machine - 1) debugger.new }
{
    let _ = debugger.step_back();
}

/// One step forward over a step that was made.
pub fn go_on<S: SetBoard>(debugger: &mut Debugger<S>) -> Result<(), AllocError>
    ensures ok { OnOk result (IsAt debugger.old (position debugger.old.machine + 1) debugger.new) }
    ensures err { OnErr result (debugger.new ≡ debugger.old) }
{
    match debugger.step_forward()? {
        Stepped::Moved => Ok(()),
        // Never met: the step was made before.
        Stepped::AtEnd => Err(AllocError),
    }
}

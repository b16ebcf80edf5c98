//! Steps that test nothing again.
ghost use Rattle.std.specs.Prelude.{◌≡◌, ◌<◌, true, OnOk, OnErr};
ghost use Rattle.ss_state.specs.declared.limits.TheConstants.{LAST_POSITION};
ghost use Rattle.ss_timeline.specs.Moment.{position, HasMoved};
ghost use Rattle.ss_debug.specs.Move.{is_ready_at};

use ss_links::SetBoard;
use ss_machine::Machine;
use ss_timeline::Timeline;
use std::alloc::AllocError;

/// A run whose step does not repeat the tests of its caller. A movement of many steps tests before
/// each step whether it stops there, and so whether the run goes on.
pub trait StepReady: Timeline {
    /// One step forward from a state that is ready, at a position that is not the last one.
    ///
    /// `AllocError` if memory was refused; then nothing has changed.
    fn step_ready(&mut self) -> Result<(), AllocError>
        requires ready { is_ready_at (Self.moment self.old).input (position (Self.moment self.old))
            ≡ true }
        requires before_last { position (Self.moment self.old) < LAST_POSITION }
        ensures ok { OnOk result (HasMoved (Self.moment self.old) (Self.moment self.new)) }
        ensures err { OnErr result (Self.moment self.new ≡ Self.moment self.old) };
}

impl<S: SetBoard> StepReady for Machine<S> {
    #[tactic(auto, using(crate::proofs::Timelines::ready_by, crate::proofs::Timelines::machine_moved))]
    #[inline(always)]
    fn step_ready(&mut self) -> Result<(), AllocError> {
        self.known();
        Machine::step_ready(self)
    }
}

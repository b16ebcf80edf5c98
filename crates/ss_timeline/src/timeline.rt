//! A run that is walked forwards and backwards.
ghost use Rattle.std.specs.Prelude.{◌≡◌, ◌+◌, ◌≤◌, length, false, IfOk, OnErr, IsOk};
ghost use Rattle.ss_program.specs.ProgramSound.{IsSoundExpr, IsSoundCondition, IsSoundSubscript};
ghost use Rattle.ss_state.specs.declared.limits.TheConstants.{LAST_POSITION};
ghost use Rattle.ss_state.specs.Frames.{frame_at, frame_place, frame_local};
ghost use Rattle.ss_state.specs.Readings.{variable_in, HasVariable, IsSoundIn, value_in, truth_in, subscript_in};
ghost use Rattle.ss_state.specs.Well.{IsWell};

use ss_program::{Condition, Expr, Index, Program, Variable};
use ss_state::{Entry, Status, Stepped};
use ss_words::RunFault;
use std::alloc::AllocError;

/// One run, a position in it, and the kept steps by which one can go back.
///
/// Its meaning is `moment`: the input of the run, the earliest position that one can go back to,
/// and how many steps are kept. The state is the run's at that position by definition, so no method
/// can answer anything else.
pub trait Timeline: Drop {
    ghost use Rattle.ss_timeline.specs.Moment.{Moment, position, state_of, goes_on};
    ghost use Rattle.ss_timeline.specs.Moment.{Steps, GoesBack, with_newest};

    ghost moment: { Self → Moment };

    /// Steps forward less steps back; those that are forgotten count. It is at most 2^63 - 1, and
    /// the state there is well-formed.
    fn position(&self) -> u64
        ensures place { result ≡ position (moment self.now) }
        ensures within { position (moment self.now) ≤ LAST_POSITION }
        ensures well { IsWell (moment self.now).input.program (state_of (moment self.now)) };

    /// How many steps are kept: [`Timeline::back`] can go back as many steps.
    fn kept(&self) -> u64
        ensures { result ≡ (moment self.now).kept };

    /// The program.
    fn program(&self) -> &Program
        ensures { result.now ≡ (moment self.now).input.program };

    /// How far the run is.
    fn status(&self) -> Status
        ensures { result ≡ (state_of (moment self.now)).status };

    /// The clock.
    fn clock(&self) -> i64
        ensures { result ≡ (state_of (moment self.now)).clock };

    /// The entry of an external event.
    fn entry(&self) -> Entry
        ensures { result ≡ (state_of (moment self.now)).entry };

    /// How many items of the data are taken.
    fn taken(&self) -> usize
        ensures { result ≡ (state_of (moment self.now)).feed.taken };

    /// The bytes of the report.
    fn report(&self) -> &[u8]
        ensures { result.now ≡ (state_of (moment self.now)).report };

    /// The value of a global variable, of a local of the last frame, or the clock's.
    fn variable(&self, of: Variable) -> i64
        requires { HasVariable (state_of (moment self.now)) of }
        ensures { result ≡ variable_in (state_of (moment self.now)) of };

    /// How many frames there are: MAIN's, and those of the events and routines that run.
    fn frames(&self) -> usize
        ensures { result ≡ 1 + length (state_of (moment self.now)).below };

    /// The section of the last frame, and the number of its place.
    fn place(&self) -> (usize, usize)
        ensures { result ≡ (
          (state_of (moment self.now)).frame.section,
          (state_of (moment self.now)).frame.place,
        ) };

    /// The section and place of the frame with `depth` others above it; `None` if there are fewer.
    fn frame_place(&self, depth: usize) -> Option<(usize, usize)>
        ensures { result ≡ frame_place (state_of (moment self.now)) depth };

    /// The value of the local with this number, in the order of the section's table, of the frame
    /// with `depth` others above it; `None` if there is no such frame or no such local.
    fn frame_local(&self, depth: usize, number: usize) -> Option<i64>
        ensures { result ≡ frame_local (state_of (moment self.now)) depth number };

    /// The value of an expression of the section of the frame with `depth` others above it, with
    /// that frame's locals, or its first fault; `None` if there is no such frame. It takes no memory.
    fn value_in(&self, depth: usize, e: &Expr) -> Option<Result<i64, RunFault>>
        requires { IsSoundIn IsSoundExpr (moment self.now).input.program
            (frame_at (state_of (moment self.now)) depth) e.now }
        ensures { result ≡ value_in (moment self.now).input.program (state_of (moment self.now))
            depth e.now };

    /// Whether a condition of that section holds there, or its first fault; `None` if there is no
    /// such frame. It takes no memory.
    fn truth_in(&self, depth: usize, c: &Condition) -> Option<Result<bool, RunFault>>
        requires { IsSoundIn IsSoundCondition (moment self.now).input.program
            (frame_at (state_of (moment self.now)) depth) c.now }
        ensures { result ≡ truth_in (moment self.now).input.program (state_of (moment self.now))
            depth c.now };

    /// The number that a subscript of that section means there, or its first fault; `None` if there
    /// is no such frame. It takes no memory.
    fn subscript_in(&self, depth: usize, index: &Index) -> Option<Result<i64, RunFault>>
        requires { IsSoundIn IsSoundSubscript (moment self.now).input.program
            (frame_at (state_of (moment self.now)) depth) index.now }
        ensures { result ≡ subscript_in (moment self.now).input.program
            (state_of (moment self.now)) depth index.now };

    /// One step forward. `AtEnd` if the status isn't ready, or at the last position; then
    /// nothing changes, and no memory is taken.
    ///
    /// `AllocError` if memory was refused; then nothing has changed.
    fn step(&mut self) -> Result<Stepped, AllocError>
        ensures ok { IfOk result (λ stepped. Steps stepped (moment self.old) (moment self.new)) }
        ensures err { OnErr result (moment self.new ≡ moment self.old) }
        ensures at_end { goes_on (moment self.old).input (position (moment self.old)) ≡ false
            → IsOk result };

    /// One step back, to a position from which the run goes on. False if no step is kept, and then
    /// nothing changes. It takes no memory.
    fn back(&mut self) -> bool
        ensures { GoesBack result (moment self.old) (moment self.new) };

    /// Forgets the oldest kept steps, so that the newest `n` are left, or all if there are
    /// fewer. It takes no memory.
    fn forget(&mut self, n: u64)
        ensures { moment self.new ≡ with_newest n (moment self.old) };
}

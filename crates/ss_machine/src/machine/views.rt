//! The frames of a machine's state, for who shows them, and what is read in them.
ghost use Rattle.std.specs.Prelude.{◌≡◌, option_map};
ghost use Rattle.ss_program.specs.ProgramSound.{IsSoundExpr, IsSoundCondition, IsSoundSubscript};
ghost use Rattle.ss_state.specs.Frames.{frame_at, frame_place, frame_local};
ghost use Rattle.ss_state.specs.Loops.{innermost, loop_of_phrase};
ghost use Rattle.ss_state.specs.Readings.{IsSoundIn, value_in, truth_in, subscript_in};
ghost use Rattle.ss_state.specs.Statements.Timing.{loads};

use crate::machine::Machine;
use ss_links::SetBoard;
use ss_program::{Condition, Expr, Index};
use ss_values::{holds, subscript_value, value};
use ss_words::RunFault;

impl<S: SetBoard> Machine<S> {
    /// The section of the frame with `depth` others above it, and the number of its current place;
    /// `None` if there are not as many frames. The last frame has none above it, so 0 is the last
    /// one and [`Machine::frames`] - 1 is MAIN's.
    pub fn frame_place(&self, depth: usize) -> Option<(usize, usize)>
        ensures { result ≡ frame_place self.now.state depth }
    {
        self.executor.held.frame_place(depth)
    }

    /// The value of the local with this number, in the order of the section's table, of the frame
    /// with `depth` others above it; `None` if there is no such frame or no such local.
    pub fn frame_local(&self, depth: usize, number: usize) -> Option<i64>
        ensures { result ≡ frame_local self.now.state depth number }
    {
        self.executor.held.frame_local(depth, number)
    }

    /// The value of an expression of the section of the frame with `depth` others above it, with
    /// that frame's locals, or its first fault; `None` if there is no such frame.
    #[tactic(auto, using(crate::proofs::InFrames::expression_there, crate::proofs::InFrames::value_there, crate::proofs::InFrames::nothing_there))]
    pub fn value_in(&self, depth: usize, e: &Expr) -> Option<Result<i64, RunFault>>
        requires { IsSoundIn IsSoundExpr self.now.input.program
            (frame_at self.now.state depth) e.now }
        ensures { result ≡ value_in self.now.input.program self.now.state depth e.now }
    {
        self.known();
        let view = self.executor.held.view_in(depth)?;
        Some(value(view, e))
    }

    /// Whether a condition of that section holds there, or its first fault; `None` if there is no
    /// such frame.
    #[tactic(auto, using(crate::proofs::InFrames::condition_there, crate::proofs::InFrames::truth_there, crate::proofs::InFrames::nothing_there))]
    pub fn truth_in(&self, depth: usize, c: &Condition) -> Option<Result<bool, RunFault>>
        requires { IsSoundIn IsSoundCondition self.now.input.program
            (frame_at self.now.state depth) c.now }
        ensures { result ≡ truth_in self.now.input.program self.now.state depth c.now }
    {
        self.known();
        let view = self.executor.held.view_in(depth)?;
        Some(holds(view, c))
    }

    /// The number that a subscript of that section means there, or its first fault; `None` if there
    /// is no such frame.
    #[tactic(auto, using(crate::proofs::InFrames::subscript_there, crate::proofs::InFrames::number_there, crate::proofs::InFrames::nothing_there))]
    pub fn subscript_in(&self, depth: usize, index: &Index) -> Option<Result<i64, RunFault>>
        requires { IsSoundIn IsSoundSubscript self.now.input.program
            (frame_at self.now.state depth) index.now }
        ensures { result ≡ subscript_in self.now.input.program self.now.state depth index.now }
    {
        self.known();
        let view = self.executor.held.view_in(depth)?;
        Some(subscript_value(view, index))
    }

    /// The candidate that comes next in the loop of the FOR phrase at the current place of the last
    /// frame, `Some(None)` if none is left; `None` if that loop is not open, or no FOR phrase is there.
    pub fn candidate_here(&self) -> Option<Option<i64>>
        ensures { result ≡ option_map (λ l. l.candidate)
            (loop_of_phrase self.now.state.frame.place (innermost self.now.state.frame.loops)) }
    {
        let open = self.executor.held.loop_here()?;
        Some(open.candidate)
    }

    /// Whether an entry of the data is to be loaded: a START SIMULATION does that before it starts an
    /// event (docs/LANGUAGE.md, "External events").
    pub fn loads_entry(&self) -> bool
        ensures { result ≡ loads self.now.input.program self.now.state }
    {
        self.executor.held.loads_entry(&self.program)
    }
}

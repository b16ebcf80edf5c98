//! The frames of a state: the place of the last one, its loops, and the frames below it.
ghost use Rattle.std.specs.Prelude.{◌≡◌, ◌<◌, ◌≤◌, ◌∷◌, [], length, drop, OnOk, IfOk};
ghost use Rattle.std.specs.Prelude.{OnErr, ◌++◌, MatchOption, MatchBool, slice_get};
ghost use Rattle.ss_program.specs.Program.{locals_of};
ghost use Rattle.ss_state.specs.Change.{Fits, unapply, FrameOpened, FrameDropped};
ghost use Rattle.ss_machine.specs.Locals.{small_frame, IsSmall};
ghost use Rattle.ss_machine.specs.Dropping.{HasDropped};
ghost use Rattle.ss_state.specs.Loops.{innermost, loops_with_candidate, loop_of_phrase};
ghost use Rattle.ss_state.specs.Statements.{state_at_place, state_with_frame};
ghost use Rattle.ss_state.specs.Statements.Looping.{state_with_loops, state_with_found, state_with_statistics};
ghost use Rattle.ss_machine.specs.ChangeView.{as_change};

use crate::state::State;
use crate::state::change::Change;
use crate::state::frame::{Frame, FrameBox, SmallFrame};
use crate::state::loops::OpenLoop;
use crate::state::statistics::Statistics;
use ss_links::SetBoard;
use ss_program::Program;
use ss_state::MOST_BELOW;
use std::alloc::{AllocError, Global};
use std::mem;

impl<S: SetBoard> State<S> {
    /// The innermost loop of the last frame, if it is that of the phrase at the current place.
    pub fn loop_here(&self) -> Option<OpenLoop>
        ensures { result
            ≡ loop_of_phrase self.now.state.frame.place (innermost self.now.state.frame.loops) }
    {
        let frame = self.last();
        match frame.loops.top() {
            None => None,
            Some(top) => {
                if top.phrase == frame.place {
                    Some(top)
                } else {
                    None
                }
            }
        }
    }

    /// The answer of FIND.
    pub fn found(&self) -> bool
        ensures { result ≡ self.now.state.frame.found }
    {
        self.last().found
    }

    /// The values gathered by COMPUTE.
    pub fn statistics(&self) -> Statistics
        ensures { result ≡ self.now.state.frame.statistics }
    {
        self.last().statistics
    }

    /// Appends to `values` the locals of the last frame.
    pub fn append_locals(&self, values: &mut Vec<i64>) -> Result<(), AllocError>
        ensures { OnOk result (values.new.items ≡ values.old.items ++ self.now.state.frame.locals) }
    {
        append_all(self.last().locals.as_slice(), values)
    }

    /// How many frames are below the last one.
    pub fn below(&self) -> usize
        ensures { result ≡ length self.now.state.below }
    {
        self.below.len()
    }

    /// The last frame goes to another place.
    #[inline(always)]
    pub fn go_to(&mut self, place: usize) -> Change
        ensures state { self.new.state ≡ state_at_place place self.old.state }
        ensures fits { Fits (as_change result) self.new }
        ensures back { unapply (as_change result) self.new ≡ self.old }
    {
        let frame = &mut self.frame;
        let old = frame.place;
        frame.place = place;
        Change::Place(old)
    }

    /// Sets the answer of FIND.
    #[inline(always)]
    pub fn set_found(&mut self, found: bool) -> Change
        ensures state { self.new.state ≡ state_with_found self.old.state found }
        ensures fits { Fits (as_change result) self.new }
        ensures back { unapply (as_change result) self.new ≡ self.old }
    {
        let frame = &mut self.frame;
        let old = frame.found;
        frame.found = found;
        Change::Found(old)
    }

    /// Sets the values gathered by COMPUTE.
    #[inline(always)]
    pub fn set_statistics(&mut self, statistics: Statistics) -> Change
        ensures state { self.new.state ≡ state_with_statistics self.old.state statistics }
        ensures fits { Fits (as_change result) self.new }
        ensures back { unapply (as_change result) self.new ≡ self.old }
    {
        let frame = &mut self.frame;
        let old = frame.statistics;
        frame.statistics = statistics;
        Change::Statistics {
            number: old.number,
            sum: old.sum,
            greatest: old.greatest,
            least: old.least,
        }
    }

    /// Opens a loop in the last frame. After an error nothing has changed.
    pub fn open_loop(&mut self, alloc: Global, open_loop: OpenLoop) -> Result<Change, AllocError>
        ensures state { IfOk result
            (λ _. self.new.state
            ≡ state_with_loops self.old.state (open_loop ∷ self.old.state.frame.loops)) }
        ensures fits { IfOk result (λ c. Fits (as_change c) self.new) }
        ensures back { IfOk result (λ c. unapply (as_change c) self.new ≡ self.old) }
        ensures err { OnErr result (self.new ≡ self.old) }
    {
        let frame = &mut self.frame;
        frame.loops.open(alloc, open_loop)?;
        Ok(Change::LoopOpened)
    }

    /// Gives the innermost loop another candidate.
    #[inline(always)]
    pub fn move_loop(&mut self, candidate: Option<i64>) -> Change
        requires { 0 < length self.old.state.frame.loops }
        ensures state { self.new.state
            ≡ state_with_loops self.old.state
            (loops_with_candidate candidate self.old.state.frame.loops) }
        ensures beside { self.new.beside ≡ self.old.beside }
        ensures fits { Fits (as_change result) self.new }
        ensures back { unapply (as_change result) self.new ≡ self.old }
    {
        let frame = &mut self.frame;
        let old = match frame.loops.top() {
            None => None,
            Some(top) => top.candidate,
        };
        frame.loops.set_candidate(candidate);
        Change::LoopMoved(old)
    }

    /// Closes the innermost loop; none if none is open, and then nothing changes.
    #[inline(always)]
    pub fn close_loop(&mut self) -> Option<Change>
        ensures state { self.new.state
            ≡ state_with_loops self.old.state (drop 1 self.old.state.frame.loops) }
        ensures fits { MatchOption result (self.new ≡ self.old) (λ c. Fits (as_change c) self.new) }
        ensures back { MatchOption result (self.new ≡ self.old)
            (λ c. unapply (as_change c) self.new ≡ self.old) }
    {
        let frame = &mut self.frame;
        match frame.loops.close() {
            None => None,
            Some(closed) => Some(Change::LoopClosed(closed)),
        }
    }

    /// The frame of a section with these values in its first locals becomes the last one. After an
    /// error nothing has changed.
    #[inline(always)]
    pub fn open_frame(
        &mut self,
        program: &Program,
        section: usize,
        given: &[i64],
    ) -> Result<(), AllocError>
        requires room { length self.old.state.below < MOST_BELOW }
        requires section { section < length program.now.sections }
        requires few { length given.now
            ≤ length (locals_of (slice_get program.now.sections section)) }
        ensures state { OnOk result (self.new.state
            ≡ state_with_frame program.now self.old.state section given.now) }
        ensures beside { self.new.beside ≡ self.old.beside }
        ensures fits { OnOk result (Fits FrameOpened self.new) }
        ensures back { OnOk result (unapply FrameOpened self.new ≡ self.old) }
        ensures err { OnErr result (self.new ≡ self.old) }
    {
        let frame = Frame::new(self.alloc, program, section, given)?;
        let last = mem::replace(&mut self.frame, frame);
        self.below.push_reserved(last);
        Ok(())
    }

    /// Whether the last frame is small.
    #[inline(always)]
    pub fn is_small(&self) -> bool
        ensures { MatchBool result (IsSmall self.now.state.frame) (Unit {0}) }
    {
        self.frame.is_small()
    }

    /// The last frame, which is small.
    #[inline(always)]
    pub fn small_frame(&self) -> SmallFrame
        requires { IsSmall self.now.state.frame }
        ensures { small_frame result ≡ self.now.state.frame }
    {
        self.frame.small()
    }

    /// Drops the last frame, which is given back whole by its undo.
    #[inline(always)]
    pub fn drop_small(&mut self)
        requires some { 0 < length self.old.state.below }
        requires few { length self.old.state.below ≤ MOST_BELOW }
        ensures state { HasDropped self.old.state self.new.state }
        ensures beside { self.new.beside ≡ self.old.beside }
        ensures fits { Fits (FrameDropped self.old.state.frame) self.new }
        ensures back { unapply (FrameDropped self.old.state.frame) self.new ≡ self.old }
    {
        match self.below.pop() {
            Some(next) => self.frame = next,
            None => unreachable!(),
        }
    }

    /// Drops the last frame; answers it in memory of its own. After an error nothing has changed.
    #[cold]
    #[inline(never)]
    pub fn drop_large(&mut self) -> Result<FrameBox, AllocError>
        requires some { 0 < length self.old.state.below }
        requires few { length self.old.state.below ≤ MOST_BELOW }
        ensures state { IfOk result (λ _. HasDropped self.old.state self.new.state) }
        ensures beside { self.new.beside ≡ self.old.beside }
        ensures fits { IfOk result (λ dropped. Fits (FrameDropped dropped) self.new) }
        ensures back { IfOk result
            (λ dropped. unapply (FrameDropped dropped) self.new ≡ self.old) }
        ensures err { OnErr result (self.new ≡ self.old) }
    {
        let mut dropped = FrameBox::new(self.alloc)?;
        match self.below.pop() {
            Some(next) => dropped.put(mem::replace(&mut self.frame, next)),
            None => unreachable!(),
        }
        Ok(dropped)
    }
}

fn append_all(part: &[i64], values: &mut Vec<i64>) -> Result<(), AllocError>
    ensures { OnOk result (values.new.items ≡ values.old.items ++ part.now) }
{
    for &value in part {
        values.push(value)?;
    }
    Ok(())
}

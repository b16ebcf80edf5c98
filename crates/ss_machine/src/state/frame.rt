//! One frame of a run, in its full form and in a small form that needs no memory.

ghost use Rattle.std.specs.Prelude.{◌≡◌, ◌<◌, ◌≤◌, length, slice_get, slice_set, IfOk, MatchBool};
ghost use Rattle.ss_program.specs.Program.{locals_of};
ghost use Rattle.ss_state.specs.State.{new_frame};
ghost use Rattle.ss_machine.specs.Locals.{small_frame, IsSmall};

use crate::state::locals::{FewValues, Locals, MOST_WITHIN};
use crate::state::loops::Loops;
use crate::state::statistics::{Statistics, no_statistics};
use ss_program::Program;
use std::alloc::{AllocError, Global};
use std::marker::Model;

/// A frame: the number of its section, the number of its current place, the values of its locals in
/// the order of the section's table, its open loops, the innermost first, the flag of FIND, and the
/// values gathered by COMPUTE.
#[derive(Drop)]
pub struct Frame {
    pub section: usize,
    pub place: usize,
    pub locals: Locals,
    pub loops: Loops,
    pub found: bool,
    pub statistics: Statistics,
}

impl Model for Frame {
    ghost use Rattle.ss_state.specs.State.{FrameState};

    ghost Value = { FrameState };

    ghost view = { λ a. record {
      section = a.section;
      place = a.place;
      locals = a.locals;
      loops = a.loops;
      found = a.found;
      statistics = a.statistics;
    } };
}

/// A frame in memory of its own.
#[derive(Drop)]
pub struct FrameBox {
    frame: Box<Frame>,
}

impl Model for FrameBox {
    ghost use Rattle.ss_state.specs.State.{FrameState};

    ghost Value = { FrameState };

    ghost view = { λ a. a.frame.value };
}

/// A frame with few locals, without open loops and statistics. It has no memory.
#[derive(Clone, Copy)]
pub struct SmallFrame {
    pub section: usize,
    pub place: usize,
    pub locals: FewValues,
    pub found: bool,
}

impl Frame {
    /// The frame of a section at its first place, with these values in its first locals. It takes
    /// memory if the locals are many.
    #[inline(always)]
    pub fn new(
        alloc: Global,
        program: &Program,
        section: usize,
        values: &[i64],
    ) -> Result<Self, AllocError>
        requires section { section < length program.now.sections }
        requires few { length values.now
            ≤ length (locals_of (slice_get program.now.sections section)) }
        ensures { IfOk result (λ frame. frame ≡ new_frame program.now section values.now) }
    {
        let count = program.section(section).locals.len();
        Ok(Frame {
            section,
            place: 0,
            locals: Locals::new(alloc, values, count)?,
            loops: Loops::new(),
            found: false,
            statistics: no_statistics(),
        })
    }

    /// The frame that a small one is.
    #[inline(always)]
    pub fn of_small(alloc: Global, small: &SmallFrame) -> Self
        ensures { result ≡ small_frame small.now }
    {
        Frame {
            section: small.section,
            place: small.place,
            locals: Locals::of_few(alloc, small.locals),
            loops: Loops::new(),
            found: small.found,
            statistics: no_statistics(),
        }
    }

    /// Whether the frame is small.
    #[inline(always)]
    pub fn is_small(&self) -> bool
        ensures { MatchBool result (IsSmall self.now) (Unit {0}) }
    {
        self.locals.are_few() && self.loops.are_none() && self.statistics.are_none()
    }

    /// A small frame without its memory.
    #[inline(always)]
    pub fn small(&self) -> SmallFrame
        requires { IsSmall self.now }
        ensures { small_frame result ≡ self.now }
    {
        SmallFrame {
            section: self.section,
            place: self.place,
            locals: self.locals.few(),
            found: self.found,
        }
    }

    /// Gives a local another value; answers the old one.
    #[inline(always)]
    pub fn assign(&mut self, number: usize, value: i64) -> i64
        requires { number < length self.old.locals }
        ensures state { self.new
            ≡ record self.old { locals = slice_set self.old.locals number value } }
        ensures back { record self.new { locals = slice_set self.new.locals number result }
            ≡ self.old }
    {
        self.locals.set(number, value)
    }
}

impl FrameBox {
    /// Memory for a frame.
    pub fn new(alloc: Global) -> Result<Self, AllocError> {
        let (section, place, found) = (0, 0, false);
        let locals = FewValues {
            count: 0,
            values: [0; MOST_WITHIN],
        };
        let none = SmallFrame {
            section,
            place,
            locals,
            found,
        };
        Ok(FrameBox {
            frame: Box::new(alloc, Frame::of_small(alloc, &none))?,
        })
    }

    /// Puts a frame into the memory.
    pub fn put(&mut self, frame: Frame)
        ensures { self.new ≡ frame }
    {
        *self.frame = frame;
    }

    /// The frame; its memory is given back.
    pub fn frame(self) -> Frame
        ensures { result ≡ self }
    {
        Box::into_inner(self.frame)
    }
}

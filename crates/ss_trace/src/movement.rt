//! The movements over and out of sections, to a time, to a position and to a change.
use crate::question::Question;

/// The most steps of GO END (docs/PROMPT.md, "To a time, to a state").
pub const GREATEST_JOURNEY: u64 = 100_000_000;

/// A movement in addition to those of the debugger (docs/DEBUGGER.md).
///
/// Those forward end at a state that isn't ready, and, but for `Go` and `GoEnd`, at a break line;
/// those back end at the earliest kept position. All but `Go` and `GoEnd` are bounded by
/// `GREATEST_BOUND` steps; `GoEnd` is by `GREATEST_JOURNEY`.
#[derive(Drop)]
pub enum Movement {
    /// OVER: this number of times forward to a state with no more frames.
    Over(u64),
    /// OUT: forward to a state with fewer frames.
    Out,
    /// BACK OVER: this number of times back to a state with no more frames.
    BackOver(u64),
    /// BACK OUT: back to a state with fewer frames: there the statement that opened the last frame
    /// is the next to run.
    BackOut,
    /// BACK TO: back to a state whose clock is before this time.
    BackTo(u64),
    /// GO: to this position, forward or back.
    Go(u64),
    /// GO END: forward to the first state that isn't ready, if the bound does not come before.
    GoEnd,
    /// RUN CHANGE: forward to the state after a step at which this question changes.
    RunChange(Question),
    /// BACK CHANGE: back to a state at whose step this question changes: the statement that changes
    /// it is the next to run.
    BackChange(Question),
}

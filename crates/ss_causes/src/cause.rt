//! What brought the last frame of a state about.
use ss_events::Slot;

/// What brought the last frame of a state about.
#[derive(Clone, Copy, PartialEq, Eq, Debug)]
pub enum Cause {
    /// It is MAIN's: the start of the run.
    Start,
    /// It is a routine's: the CALL at this position.
    Called(u64),
    /// It is an event's: the step at a position that last made its notice pending.
    Scheduled {
        /// The position.
        step: u64,
        /// The notice.
        notice: u32,
        /// When the notice was due, and of which class it is.
        slot: Slot,
    },
    /// A step that is not kept.
    NotKept,
}

//! The changes of a state as the code notes them, by which each write can be undone.

use crate::state::frame::FrameBox;
use crate::state::loops::ClosedLoop;
use ss_events::AgendaChange;
use ss_store::StoreChange;

/// The note of a change of the state, enough to take it back.
#[derive(Drop)]
pub enum Change {
    /// A global variable was assigned; its old value.
    Variable {
        number: usize,
        old: i64,
    },
    /// A local of the last frame was assigned; its old value.
    Local {
        number: usize,
        old: i64,
    },
    /// The last frame went to another place; its old place.
    Place(usize),
    /// The clock was set; its old time.
    Clock(i64),
    /// The store was changed; the change that takes this back.
    Store(StoreChange),
    /// A notice was scheduled or taken off; the change that takes this back.
    Agenda(AgendaChange),
    /// Items of the data were taken; how many were before.
    Taken(usize),
    /// The report was lengthened; its old length.
    Report(usize),
    /// The entry of an external event changed; the old one.
    Entry(ss_state::Entry),
    /// The status was changed; the old one.
    Status(ss_state::Status),
    /// A loop was opened in the last frame.
    LoopOpened,
    /// The innermost loop went to its next candidate; the old one.
    LoopMoved(Option<i64>),
    /// The innermost loop was closed.
    LoopClosed(ClosedLoop),
    /// A frame was opened.
    FrameOpened,
    /// The last frame was dropped.
    FrameDropped(FrameBox),
    /// FIND's answer changed; the old one.
    Found(bool),
    /// The values gathered by COMPUTE changed; the old ones.
    Statistics {
        number: i64,
        sum: i64,
        greatest: i64,
        least: i64,
    },
}

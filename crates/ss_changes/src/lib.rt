//! The changes of a step from one state to the next, and those of a movement over many steps: the
//! parts of the state whose values in the two differ, other than frames and places, each with its
//! value before and after. The definition speaks only of the two states.
//!
//! Each call appends an answer, and leaves the debugger at its position. For a step it goes one step
//! back and forward again over the same step. The state after the step is read twice: first which
//! parts it has, at the end their values. The state before it is read once: the parts that it alone
//! has, and the values of all. So a call takes as long, and as much memory, as reading all parts of
//! the two states.
//!
//! For a movement a [`Snapshot`] of the state that it leaves is taken first. At the end that is
//! compared with the state reached, and no step is made again.
#![tactic(auto)]

mod answers;
mod change;
mod changes;
mod compared;
mod examples;
mod laws;
mod limits;
mod listing;
mod movement;
mod numbers;
mod part;
mod reading;
mod rows;
mod since;
mod snapshot;
mod stepping;
mod texts;
mod value;

pub use answers::{push_changed, push_stop_changes, push_stop_changes_ahead};
pub use change::Change;
pub use laws::{what_a_step_changed_is_all, what_a_step_changed_is_exact};
pub use movement::{push_all_changes_since, push_stop_changes_since};
pub use part::Part;
pub use snapshot::{FrameNoted, Noted, Snapshot};
pub use value::{Members, PartValue};

//! The definition of a run: its state, one step, and the one run of a program over data.
//!
//! Nearly all of it is definitions, in specs/. The code has the few values that the definitions
//! and the code share: the status of a run, the entry of an external event, the result of a step,
//! and the limits; and the laws on the definitions.
#![tactic(auto)]

mod entry;
mod examples;
pub mod laws;
mod limits;
mod status;
mod stepped;

pub use entry::Entry;
pub use limits::{LAST_POSITION, MOST_BELOW, MOST_SKIPPED_LINES, MOST_STEP_CHANGES};
pub use status::Status;
pub use stepped::Stepped;

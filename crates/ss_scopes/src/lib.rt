//! The parts of a state that an editor shows: frames, scopes, and the variables of each, a page at
//! a time. All is read off the state of the run at the machine's position. A reference is a number
//! that is the same for the same part of each state.
//!
//! A call that appends needs memory for it. After `AllocError` a part may be left after the bytes
//! that `out` held before. That part counts for nothing.
#![tactic(auto)]

mod entities;
mod events;
mod frames;
mod group;
mod kept;
mod laws;
mod pages;
mod scopes;
mod sets;
mod variables;

pub use frames::push_frames;
pub use group::{Group, class_reference, group_of, set_reference};
pub use laws::references_are_read_back;
pub use pages::Page;
pub use scopes::push_scopes;
pub use variables::{push_variables, question_value};

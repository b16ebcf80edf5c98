//! A journal of changes, kept step by step, and the law by which they are undone.
//!
//! Whoever changes a state notes each change in the open step of a [`Journal`] and closes the step
//! when its work is done. To go one step back, the last step is reopened and its changes are taken
//! back, the newest first. A state that can take its own changes back has the trait [`Undo`];
//! [`roll_back`] then does so with all changes of the open step.
#![tactic(auto)]

mod journal;
mod sizes;
mod undo;

pub use journal::Journal;
pub use undo::{Undo, roll_back};

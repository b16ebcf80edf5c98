//! A run of a checked program that steps forwards and backwards.
//!
//! A [`Machine`] holds a program, the state of its run at a position, and the changes of each step
//! that led there. One step runs one place of the program (docs/LANGUAGE.md, "Steps"); one step
//! back restores the state before it, whole.
#![tactic(auto)]

mod examples;
mod executor;
mod history;
mod machine;
mod state;
mod statements;

pub use machine::Machine;

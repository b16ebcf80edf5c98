//! The checker: the first statement that breaks a rule of the language, or the program with the
//! number of each name in its table (docs/LANGUAGE.md, "Rules of the checker").
//!
//! `declared` keeps the declarations of a text, `uses` gives the uses of names at its places,
//! `rules` finds the first breach, and `resolved` makes the program.
//!
//! If a function ends early, it lets go by `drop(..)` of the parts that it still owns: so the proof
//! of that end speaks of no tree.
#![tactic(auto)]

mod asked;
mod declared;
mod fault;
pub mod laws;
mod program;
mod resolved;
mod rules;
mod symbols;
mod uses;
mod wrong;

pub use asked::AskedFault;
pub use fault::{CheckFault, CheckRule};
pub use program::check;
pub use ss_program::{Named, Program};
pub use symbols::SymbolTable;
pub use wrong::{Reason, Wrong};

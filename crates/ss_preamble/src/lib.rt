//! The preamble of a program: its grammar and the list of its items.
#![tactic(auto)]

mod clause;
pub mod examples;
mod item;
mod key;
pub mod laws;
mod limits;
mod reader;
mod text;

pub use item::{
    Clause, Decls, Definition, EventRule, Heading, Item, ItemAt, Key, Names, SetDiscipline,
};
pub use ss_words::Rank;
pub use text::preamble;

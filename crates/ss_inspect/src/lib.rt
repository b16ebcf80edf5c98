//! Answers that show a state, in addition to the debugger's own: frames and locals, global
//! variables, the entities of a class that live, one attribute, parts of lists, where an entity is,
//! and the tables of the program. Each answer is read off the state of the run at the machine's
//! position. Names are given in upper case.
//!
//! A call that appends an answer needs memory for it. After `AllocError`, a part of the answer may
//! follow the earlier content of `text`. That part counts for nothing.
#![tactic(auto)]

mod attribute;
mod entities;
mod examples;
mod frames;
mod laws;
mod overview;
mod pages;
mod places;
mod tables;
mod texts;

pub use attribute::{push_by_variable, variable_value};
pub use entities::{count_living, living_numbers, push_living};
pub use laws::the_living_are_those_that_exist;
pub use overview::{Overview, push_overview};
pub use pages::members_page;
pub use places::push_places;

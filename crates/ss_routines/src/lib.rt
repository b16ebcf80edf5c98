//! The sections of a program: their grammar, their trees and the flat lists of their places.
#![tactic(auto)]

mod asked;
pub mod laws;
mod misfit;
mod program;
mod reading;
mod tree;

pub use asked::{condition, expression};
pub use misfit::{Misfit, condition_misfit};
pub use program::sections;
pub use ss_words::{Comparison, Copula, Direction, QualifierWord, SetEnd, Statistic};
pub use tree::condition::{Condition, Conjunction, Reference, Relation};
pub use tree::expr::{Added, Application, Expr, Factor, Term};
pub use tree::place::{
    Branch, Computed, Loop, Phrase, Place, Qualifier, Question, Range, Spot, WalkStart,
};
pub use tree::section::{LocalNames, Section, SectionKind, Sections};
pub use tree::simple::{
    Article, Assign, Details, Exchange, FilePlace, Filing, Listing, Making, Simple, Timing,
    Transfer, When,
};

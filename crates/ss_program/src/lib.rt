//! The checked program: tables of distinct names, and sections as lists of places. In a place each
//! name is its number in a table. Each place has its ways on. `Program` keeps its soundness.
#![tactic(auto)]

mod boxed;
mod branch;
mod call;
mod condition;
mod expr;
mod filing;
mod find;
mod keys;
mod kinds;
pub mod laws;
mod looping;
mod lowering;
mod making;
mod name;
mod name_counts;
mod name_table;
mod names;
mod op;
mod place;
mod program;
mod rows;
mod section;
mod sum;
mod tables;
mod target;
mod timing;
mod variable;
mod ways;

pub use boxed::Boxed;
pub use branch::{Branch, Question};
pub use call::{Call, Targets};
pub use condition::{Condition, Conjunction, Disjunction, Relation};
pub use expr::{Expr, Values};
pub use filing::{Filing, Position};
pub use find::Named;
pub use keys::{Key, Keys};
pub use kinds::{ClassKind, Discipline, EventClass, Owner, SectionKind};
pub use looping::{Begin, ForPhrase, Looping, Phrase, Qualifier, Qualifiers, Telling, Tellings};
pub use making::Making;
pub use name::Name;
pub use name_counts::NameCounts;
pub use name_table::NameTable;
pub use op::Op;
pub use place::{Assign, Control, Output, Place, Spot};
pub use program::Program;
pub use rows::name_at;
pub use section::{Head, LocalDefine, Section};
pub use ss_words::{
    Comparison, Copula, Direction, MemberKept, OwnerKept, QualifierWord, Rank, SetEnd, Statistic,
    TermSign,
};
pub use sum::{Arguments, Factor, SignedTerm, Subscript, Subscripted, Sum, Term};
pub use tables::{Class, Set};
pub use target::{Index, SetRef, Target};
pub use timing::{Listing, Notice, Schedule, Timing, When};
pub use variable::Variable;
pub use ways::{Resets, Ways};

//! The words of a model's text, its plain words, and the names of its refusals and faults.
#![tactic(auto)]

pub mod characters;
mod cursor;
mod cursor_lists;
mod fault;
pub mod limits;
mod mark;
mod name;
mod plain_laws;
mod plain_list;
mod plain_rules;
mod plain_word;
mod refusal;
pub mod refusal_laws;
mod reserved;
mod scan;
mod several;
mod spelling;
mod terms;
mod text_laws;
mod word;

pub use cursor::Cursor;
pub use fault::{RunFault, StepFault, TextFault, TextRule};
pub use mark::Mark;
pub use name::Name;
pub use plain_list::plain_words;
pub use plain_word::{Plain, PlainWord};
pub use refusal::Refusal;
pub use reserved::Reserved;
pub use scan::{without_stops, words};
pub use several::Several;
pub use spelling::is_reserved_name;
pub use terms::{
    Comparison, Copula, Direction, MemberKept, OwnerKept, QualifierWord, Rank, SetEnd, Statistic,
    TermSign,
};
pub use word::{Sign, Word, WordKind, Words};

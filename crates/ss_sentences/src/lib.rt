//! The meaning of a refusal of a model and of a fault of a run, in English: a sentence for each
//! code, and for a refused text the word at which it is refused, its place, and the words that
//! could be there.
#![tactic(auto)]

mod breach;
mod candidate;
mod expected;
mod fitting;
mod grammar;
mod hints;
mod laws;
mod meant;
mod near;
mod pieces;
mod prompt_text;
mod refusal;
mod typed;
mod unread;
mod wording;

pub use candidate::{Judgement, Tried};
pub use laws::one_thing_is_said;
pub use prompt_text::{TypedText, misread};
pub use refusal::{LONGEST_TEXT_JUDGED, text_refusal};
pub use typed::line_misread;
pub use wording::{fault_sentence, rule_sentence};

//! Expressions and conditions of the language that are asked at the prompt: they are read by the
//! grammar, judged by the checker in the section of the last frame, and valued in the present state.
#![tactic(auto)]

mod aim;
mod answer;
mod asked;
mod listed;
mod local_names;
mod meaning;
mod sense;
mod valued;
mod wanted;

pub use aim::{Aimed, ConditionAim, aim_in, aim_of};
pub use answer::asked_answer;
pub use meaning::{Meaning, Meant, meaning_of};
pub use valued::{Judgement, judged_text, value_asked};

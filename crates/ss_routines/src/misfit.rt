//! Why plain words are no condition.

ghost use Rattle.std.specs.Prelude.{IfOk, Some, ◌≡◌};
ghost use Rattle.ss_words.specs.Plain.{plains_of};
ghost use Rattle.ss_words.specs.Reading.{Gives, whole};
ghost use Rattle.ss_routines.specs.ConditionReading.{condition_at};
ghost use Rattle.ss_routines.specs.Misfit as spec;
ghost use Rattle.ss_routines.specs.View.{condition_view};

use crate::reading::conditions::condition;
use crate::tree::condition::Condition;
use ss_words::limits::MOST_PARENTHESES;
use ss_words::{Cursor, PlainWord, Refusal, TextRule};
use std::alloc::{AllocError, Global};

/// The rule of the grammar that refuses plain words, P1, P2 or P3, and the word at which it does.
#[derive(Clone, Copy, Debug, PartialEq, Eq)]
pub struct Misfit {
    pub rule: TextRule,
    /// The number of the plain word, from 0.
    pub word: usize,
}

/// The condition that all the words are that are left.
#[tactic(auto, unfolding(crate::proofs::Unfoldings::whole_text))]
fn whole_condition(cursor: &mut Cursor<'_>) -> Result<Condition, Refusal>
    ensures exact { Gives condition_view result cursor.new
        (whole (condition_at MOST_PARENTHESES) cursor.old) }
{
    let condition = condition(cursor, MOST_PARENTHESES)?;
    if !cursor.is_empty() {
        return Err(Refusal::Unexpected);
    }
    Ok(condition)
}

/// The misfit of a refusal that leaves `left` of `count` words.
fn misfit_at(count: usize, refusal: Refusal, left: usize) -> Result<Misfit, AllocError>
    ensures { IfOk result (λ m. Some m ≡ spec.misfit_at count refusal left) }
{
    let (rule, word) = match refusal {
        Refusal::Memory => return Err(AllocError),
        Refusal::Unexpected if left > 0 => (TextRule::UnexpectedWord, count.saturating_sub(left)),
        Refusal::PastLimit if left > 1 => (TextRule::PastLimit, count.saturating_sub(left)),
        _ => (TextRule::UnexpectedEnd, count.saturating_sub(1)),
    };
    Ok(Misfit { rule, word })
}

/// Why these plain words are no condition (docs/LANGUAGE.md, "Conditions"); `None` if they are one.
/// The only error is that memory was refused.
///
/// - P1 at the first word with which no condition begins. Some condition begins with each
///   expression, so no expression begins with it either.
/// - P2 at the last word: conditions go on there, and none ends; also if that word passes the limit
///   [`ss_words::limits::MOST_PARENTHESES`]. It is at word 0 if there is no word.
/// - P3 at another word that passes that limit.
#[tactic(auto, using(crate::proofs::Misfits::told, crate::proofs::Misfits::fits))]
pub fn condition_misfit(
    alloc: Global,
    words: &[PlainWord<'_>],
) -> Result<Option<Misfit>, AllocError>
    ensures { IfOk result (λ m. m ≡ spec.condition_misfit (plains_of words.now)) }
{
    let mut cursor = Cursor::new(alloc, words);
    match whole_condition(&mut cursor) {
        Ok(_) => Ok(None),
        Err(refusal) => Ok(Some(misfit_at(words.len(), refusal, cursor.len())?)),
    }
}

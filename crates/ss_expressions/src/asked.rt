//! A text as it is asked: an expression or a condition of the language.
ghost use Rattle.std.specs.Prelude.{◌≡◌, IfOk, Ok, Some};
ghost use Rattle.ss_words.specs.Plain.{plains_of};
ghost use Rattle.ss_words.specs.Reading.{option_view};
ghost use Rattle.ss_expressions.specs.Asked.{after_if, asked_by, asked_in};
ghost use Rattle.ss_expressions.specs.AskedView.{asked_view};

use ss_routines::{Condition, Expr, condition, expression};
use ss_words::{PlainWord, TextFault, Words, plain_words, words};
use std::alloc::{AllocError, Global};

/// The word before a condition in a statement: AND then joins conditions, and no names.
const IF: &[u8] = b"IF ";

/// What a text asks.
#[derive(Drop)]
pub(crate) enum Asked {
    /// The value of an expression.
    Value(Expr),
    /// Whether a condition holds.
    Truth(Condition),
}

/// What plain words ask.
fn asked_by(alloc: Global, words: &[PlainWord<'_>]) -> Result<Option<Asked>, AllocError>
    ensures { IfOk result (λ o. option_view asked_view o ≡ asked_by (Some (plains_of words.now))) }
{
    if let Some(e) = expression(alloc, words)? {
        return Ok(Some(Asked::Value(e)));
    }
    match condition(alloc, words)? {
        Some(c) => Ok(Some(Asked::Truth(c))),
        None => Ok(None),
    }
}

/// What the words after IF ask.
#[tactic(auto, using(crate::proofs::AfterIf::words_after, crate::proofs::AfterIf::no_words))]
fn asked_after_if(alloc: Global, words: &Words) -> Result<Option<Asked>, AllocError>
    ensures { IfOk result
        (λ o. option_view asked_view o ≡ asked_by (after_if (Ok words.now))) }
{
    let plain = plain_words(alloc, words)?;
    match plain.split_first() {
        Some((_, rest)) => asked_by(alloc, rest),
        None => asked_by(alloc, &[]),
    }
}

/// What a text asks; none if it is neither an expression nor a condition. `AllocError` if memory
/// was refused.
pub(crate) fn asked_in(alloc: Global, text: &[u8]) -> Result<Option<Asked>, AllocError>
    ensures { IfOk result (λ o. option_view asked_view o ≡ asked_in text.now) }
{
    let mut line = Vec::from_slice(alloc, IF)?;
    line.extend_from_slice(text)?;
    match words(alloc, &line) {
        Ok(words) => asked_after_if(alloc, &words),
        Err(TextFault::Memory) => Err(AllocError),
        Err(TextFault::Refused { .. }) => Ok(None),
    }
}

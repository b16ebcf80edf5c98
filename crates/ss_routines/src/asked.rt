//! An expression or a condition by itself, as it is asked for outside a program.

ghost use Rattle.std.specs.Prelude.{IfOk, ◌≡◌};
ghost use Rattle.ss_words.specs.Plain.{plains_of};
ghost use Rattle.ss_words.specs.Reading.{option_view};
ghost use Rattle.ss_routines.specs.Asked.{condition_in, expression_in};
ghost use Rattle.ss_routines.specs.View.{condition_view, expr_view};

use crate::reading::{conditions, expressions};
use crate::tree::condition::Condition;
use crate::tree::expr::Expr;
use ss_words::limits::MOST_PARENTHESES;
use ss_words::{Cursor, PlainWord, Refusal};
use std::alloc::{AllocError, Global};

/// The expression that all of these plain words are (docs/LANGUAGE.md, "Expressions"); `None` if
/// they are none, or one with more than [`ss_words::limits::MOST_PARENTHESES`] parentheses open at
/// once. The only error is that memory was refused.
#[tactic(auto, unfolding(crate::proofs::Unfoldings::whole_text))]
pub fn expression(alloc: Global, words: &[PlainWord<'_>]) -> Result<Option<Expr>, AllocError>
    ensures { IfOk result (λ e. option_view expr_view e ≡ expression_in (plains_of words.now)) }
{
    let mut cursor = Cursor::new(alloc, words);
    match expressions::expression(&mut cursor, MOST_PARENTHESES) {
        Ok(expression) if cursor.is_empty() => Ok(Some(expression)),
        Err(Refusal::Memory) => Err(AllocError),
        _ => Ok(None),
    }
}

/// The condition that all of these plain words are (docs/LANGUAGE.md, "Conditions"); `None` if they
/// are none, or one with more than [`ss_words::limits::MOST_PARENTHESES`] parentheses open at once.
/// The only error is that memory was refused.
#[tactic(auto, unfolding(crate::proofs::Unfoldings::whole_text))]
pub fn condition(alloc: Global, words: &[PlainWord<'_>]) -> Result<Option<Condition>, AllocError>
    ensures { IfOk result
        (λ c. option_view condition_view c ≡ condition_in (plains_of words.now)) }
{
    let mut cursor = Cursor::new(alloc, words);
    match conditions::condition(&mut cursor, MOST_PARENTHESES) {
        Ok(condition) if cursor.is_empty() => Ok(Some(condition)),
        Err(Refusal::Memory) => Err(AllocError),
        _ => Ok(None),
    }
}

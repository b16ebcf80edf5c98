//! The reading of the preamble of a whole text, and its faults.

ghost use Rattle.std.specs.Prelude.{IfOk, IfErr, All, map, slice_index, Ok, Err, ◌≡◌, ◌+◌, ◌-◌, ◌<◌};
ghost use Rattle.ss_words.specs.Plain.{plain_at, plains_of, word_lines};
ghost use Rattle.ss_words.specs.declared.refusal.Refusal.TheVariants.{Unexpected};
ghost use Rattle.ss_words.specs.Reading.{Fails};
ghost use Rattle.ss_words.specs.Noting.{line};
ghost use Rattle.ss_preamble.specs.ItemsAtLines.{preamble_at};
ghost use Rattle.ss_words.specs.PlainRules.{plain_words_of};
ghost use Rattle.ss_words.specs.declared.fault.TextFault.TheVariants.{Refused};
ghost use Rattle.ss_preamble.specs.Refused.{AreDecls, HasPreamble, IsFault, no_decls};
ghost use Rattle.ss_preamble.specs.View.{decls_view};
ghost use Rattle.ss_preamble.specs.Limits.{IsWithin};
ghost use Rattle.ss_preamble.specs.Tree.{items_of};

use crate::item::Decls;
use crate::limits::past_limit;
use crate::reader::declarations;
use ss_words::{
    Cursor, Mark, PlainWord, Refusal, Reserved, TextFault, TextRule, Words, plain_words,
};
use std::alloc::Global;

/// The declarations in the preamble of a program (docs/LANGUAGE.md, "The preamble"), and the number
/// of the first word after its END, counted from 0: no items, and 0, if the text begins with no
/// PREAMBLE. The words are left as they are.
///
/// # Errors
///
/// - P1 at the word with which no preamble goes on; P2 at the last word, if the text ends before
///   the preamble's END; P3 at the name that passes a limit of [`ss_words::limits`]: on classes,
///   attributes of a class, variables, sets or keys of a ranking. If several of them hold, the
///   earliest word counts, then the lowest number (docs/LANGUAGE.md, "Refusals of the grammar").
/// - `Memory` if memory was refused.
#[tactic(auto, using(crate::proofs::Indexes::indexes_below))]
pub fn preamble(alloc: Global, words: &Words) -> Result<(Decls, usize), TextFault>
    // The words begin with no preamble, or with one within the limits, and these are its items.
    ensures declared { IfOk result (λ d. AreDecls (decls_view d.0) d.1 (plain_words_of words.now)) }
    // They are within the limits.
    ensures limits { IfOk result (λ d. IsWithin (items_of (decls_view d.0))) }
    // Otherwise a preamble begins there and is refused by this rule at this line.
    ensures refused { IfErr result (λ f. IsFault f (plain_words_of words.now)) }
{
    let plain = plain_words(alloc, words)?;
    read(alloc, &plain, words.list.len())
}

/// The declarations of these plain words, which come from `count` words, and the number of the
/// first word after the preamble.
fn read(alloc: Global, text: &[PlainWord<'_>], count: usize) -> Result<(Decls, usize), TextFault>
    requires { All (λ w. w.index < count) text.now }
    ensures declared { IfOk result (λ d. AreDecls (decls_view d.0) d.1 (map plain_at text.now)) }
    ensures refused { IfErr result (λ f. IsFault f (map plain_at text.now)) }
{
    let mut cursor = Cursor::new(alloc, text);
    if !cursor.is_next(Mark::Reserved(Reserved::Preamble)) {
        return Ok((nothing(alloc), 0));
    }
    match declarations(&mut cursor, text) {
        Ok(decls) => declared(decls, &cursor, text, count),
        Err(refusal) => Err(fault(refusal, &cursor, text)),
    }
}

/// The items of a preamble that was read up to the cursor, if none of its names passes a limit.
fn declared(
    decls: Decls,
    cursor: &Cursor<'_>,
    text: &[PlainWord<'_>],
    count: usize,
) -> Result<(Decls, usize), TextFault>
    requires indexes { All (λ w. w.index < count) text.now }
    requires begins { HasPreamble (plains_of text.now) }
    requires read { preamble_at (word_lines text.now) (plains_of text.now)
        ≡ (Ok (decls_view decls), cursor.now) }
    ensures declared { IfOk result (λ d. AreDecls (decls_view d.0) d.1 (map plain_at text.now)) }
    ensures refused { IfErr result (λ f. IsFault f (map plain_at text.now)) }
{
    let reached = text.len().saturating_sub(cursor.len());
    match past_limit(cursor.alloc(), &text[..reached])? {
        Some(word) => Err(refused(TextRule::PastLimit, text, word)),
        None => Ok((decls, number_behind(text, reached, count))),
    }
}

/// The fault of a text, by the refusal of its reading at the word that the cursor reached.
fn fault(refusal: Refusal, cursor: &Cursor<'_>, text: &[PlainWord<'_>]) -> TextFault
    requires begins { HasPreamble (plains_of text.now) }
    requires stopped { Fails refusal cursor.now
        (preamble_at (word_lines text.now) (plains_of text.now)) }
    ensures { IsFault result (map plain_at text.now) }
{
    match refusal {
        Refusal::Memory => TextFault::Memory,
        Refusal::Unexpected | Refusal::PastLimit => unexpected(cursor, text),
    }
}

/// The fault of a text whose preamble cannot go on with the word that the cursor has reached. A
/// limit that the text's last word passes is reported as the missing end, since no preamble ends
/// with that word.
fn unexpected(cursor: &Cursor<'_>, text: &[PlainWord<'_>]) -> TextFault
    requires begins { HasPreamble (plains_of text.now) }
    requires stopped { preamble_at (word_lines text.now) (plains_of text.now)
        ≡ (Err Unexpected, cursor.now) }
    ensures { IsFault result (map plain_at text.now) }
{
    let reached = text.len().saturating_sub(cursor.len());
    let Ok(past) = past_limit(cursor.alloc(), &text[..reached]) else {
        return TextFault::Memory;
    };
    match past {
        Some(word) if word + 1 < text.len() => refused(TextRule::PastLimit, text, word),
        None if reached < text.len() => refused(TextRule::UnexpectedWord, text, reached),
        _ => refused(TextRule::UnexpectedEnd, text, text.len().saturating_sub(1)),
    }
}

/// A text without a preamble declares nothing.
fn nothing(alloc: Global) -> Decls
    ensures { decls_view result ≡ no_decls }
{
    Decls {
        items: Vec::new(alloc),
        end: None,
    }
}

/// A refusal by this rule at the word with this number.
fn refused(rule: TextRule, text: &[PlainWord<'_>], word: usize) -> TextFault
    ensures { result ≡ Refused rule (line (word_lines text.now) word) }
{
    let line = match text.get(word) {
        Some(word) => word.line(),
        None => 0,
    };
    TextFault::Refused { rule, line }
}

/// The number of the first word after the plain words that were read: the first `reached`, at least
/// one.
fn number_behind(text: &[PlainWord<'_>], reached: usize, count: usize) -> usize
    requires { All (λ w. w.index < count) text.now }
    ensures { result ≡ slice_index (map (λ w. w.index + 1) text.now) (reached - 1) }
{
    match text.get(reached.saturating_sub(1)) {
        Some(word) => word.index as usize + 1,
        None => 0,
    }
}

//! Why a text at the prompt is neither an expression nor a condition.
ghost use Rattle.std.specs.Prelude.{◌≡◌, ◌+◌, ◌++◌, IfOk, OnOk, map, option_map, slice_get};
ghost use Rattle.std.specs.Prelude.{slice_index};
ghost use Rattle.ss_words.specs.Plain.{plain_at, plains};
ghost use Rattle.ss_words.specs.Words.{word_at};
ghost use Rattle.ss_sentences.specs.Misread as spec;
ghost use Rattle.ss_sentences.specs.Fitting.{after_if, expected_of, judged_view, reserved_hint};
ghost use Rattle.ss_sentences.specs.Refusals.{told_before};

use crate::breach::breach_column;
use crate::candidate::Judgement;
use crate::expected::{fits, push_expected};
use crate::fitting::{all_judged, without_first};
use crate::grammar::is_end;
use crate::hints::{RESERVED_HINT, is_reserved_word, push_hint};
use crate::pieces::push_filled;
use crate::refusal::{told_at, told_before as told};
use crate::unread::{push_breach_hint, push_breach_sentence};
use crate::wording::rule_sentence;
use ss_columns::{
    first_bytes, numbered_words, place_of, push_blanks, push_caret, push_number, push_shown,
};
use ss_routines::{Misfit, condition_misfit, expression};
use ss_words::{PlainWord, TextFault, TextRule, Word, Words, plain_words, words};
use std::alloc::{AllocError, Global};

/// The sentences of P2 at the prompt. The definitions read them too.
pub const NO_EXPRESSION_ENDS: &[u8] = b"The line ends after {}, where no expression ends.";

pub const NO_CONDITION_ENDS: &[u8] = b"The line ends after {}, where no condition ends.";

/// The word before a text as it is read: AND then joins conditions, and no names. With the blank after
/// it, it has three bytes; a command has as many.
const IF: &[u8] = b"IF ";

/// A text in which a command asks for something, and the line as it was typed.
#[derive(Clone, Copy, Debug)]
pub struct TypedText<'a> {
    /// The line before the text.
    pub front: &'a [u8],
    /// The last word of that, in upper case.
    pub keyword: &'a [u8],
    /// The text.
    pub text: &'a [u8],
    /// Whether the text has to be a condition; else it may be an expression too.
    pub is_condition: bool,
}

// ---- the place

/// The line after its first three bytes.
fn after_three(front: &[u8]) -> &[u8]
    ensures { result.now ≡ spec.after_three front.now }
{
    if let [_, _, _, rest @ ..] = front {
        return rest;
    }
    b""
}

/// The line as it is read: blanks and IF are in the place of the command.
fn as_read(alloc: Global, front: &[u8], text: &[u8]) -> Result<Vec<u8>, AllocError>
    ensures { IfOk result (λ line. line.items ≡ spec.as_read front.now text.now) }
{
    let mut line = Vec::new(alloc);
    push_blanks(&mut line, after_three(front))?;
    line.extend_from_slice(IF)?;
    line.extend_from_slice(text)?;
    Ok(line)
}

/// The whole line.
fn whole_line(alloc: Global, front: &[u8], text: &[u8]) -> Result<Vec<u8>, AllocError>
    ensures { IfOk result (λ line. line.items ≡ front.now ++ text.now) }
{
    let mut line = Vec::from_slice(alloc, front)?;
    line.extend_from_slice(text)?;
    Ok(line)
}

/// The column of a word in the line.
fn word_column(
    alloc: Global,
    typed: TypedText<'_>,
    words: &Words,
    number: usize,
) -> Result<usize, AllocError>
    ensures { IfOk result (λ column. column
        ≡ spec.word_column typed.entry.front.now typed.entry.text.now words.now number) }
{
    let read = as_read(alloc, typed.front, typed.text)?;
    let place = place_of(alloc, &read, words, number)?;
    Ok(place.column.unwrap_or(0))
}

/// Appends a column, before a sentence.
fn push_column(text: &mut Vec<u8>, column: usize) -> Result<(), AllocError>
    ensures { OnOk result (text.new.items ≡ text.old.items ++ spec.column_text column) }
{
    text.extend_from_slice(b"Column ")?;
    push_number(text, column)?;
    text.extend_from_slice(b": ")
}

/// Appends a line as it was typed, and below it a caret at a column.
fn push_typed(text: &mut Vec<u8>, line: &[u8], column: usize) -> Result<(), AllocError>
    ensures { OnOk result (text.new.items ≡ text.old.items ++ spec.typed_text line.now column) }
{
    text.extend_from_slice(b"> ")?;
    push_shown(text, line)?;
    text.extend_from_slice(b"\n")?;
    push_caret(text, b"> ", first_bytes(line, column.saturating_sub(1)))
}

// ---- text that a rule L refuses

/// The explanation of the breach of a rule L.
fn bytes_said(alloc: Global, typed: TypedText<'_>, rule: TextRule) -> Result<Vec<u8>, AllocError>
    ensures { IfOk result
        (λ said. said.items ≡ spec.bytes_said typed.entry.front.now typed.entry.text.now rule) }
{
    let read = as_read(alloc, typed.front, typed.text)?;
    let column = breach_column(alloc, rule, false, &read)?;
    let line = whole_line(alloc, typed.front, typed.text)?;
    let mut text = Vec::new(alloc);
    push_column(&mut text, column)?;
    push_breach_sentence(alloc, &mut text, rule, &read, column)?;
    text.extend_from_slice(b"\n")?;
    push_typed(&mut text, &line, column)?;
    push_breach_hint(&mut text, rule, &read, column, b"")?;
    Ok(text)
}

/// The explanation of the breach of a rule L; none of L4, since there are no pictures at the prompt.
fn bytes_misread(
    alloc: Global,
    typed: TypedText<'_>,
    rule: TextRule,
) -> Result<Option<Vec<u8>>, AllocError>
    ensures { IfOk result (λ said. option_map (λ s. s.items) said
        ≡ spec.bytes_misread typed.entry.front.now typed.entry.text.now rule) }
{
    match rule {
        TextRule::NoPicture => Ok(None),
        _ => Ok(Some(bytes_said(alloc, typed, rule)?)),
    }
}

// ---- words that the grammar refuses

/// Whether plain words are an expression, if one may be there.
#[tactic(auto, using(crate::proofs::AfterIf::values))]
fn is_value(alloc: Global, is_condition: bool, plain: &[PlainWord<'_>]) -> Result<bool, AllocError>
    ensures { IfOk result (λ is. is
        ≡ spec.is_value is_condition (plains (map plain_at plain.now))) }
{
    if is_condition {
        return Ok(false);
    }
    Ok(expression(alloc, plain)?.is_some())
}

/// The number of the word of which a plain word is made; 0 if there is none.
fn word_number(plain: &[PlainWord<'_>], number: usize) -> usize
    ensures { result ≡ slice_index (map (λ w. w.index) plain.now) number }
{
    match plain.get(number) {
        Some(word) => word.index as usize,
        None => 0,
    }
}

/// The word at which plain words are refused, if there are any and they are not right.
#[tactic(auto, using(crate::proofs::AfterIf::misfits))]
fn plain_misfit(
    alloc: Global,
    is_condition: bool,
    plain: &[PlainWord<'_>],
) -> Result<Option<Misfit>, AllocError>
    ensures { IfOk result
        (λ misfit. misfit ≡ spec.plain_misfit is_condition (map plain_at plain.now)) }
{
    if plain.is_empty() {
        return Ok(None);
    }
    if is_value(alloc, is_condition, plain)? {
        return Ok(None);
    }
    match condition_misfit(alloc, plain)? {
        None => Ok(None),
        Some(misfit) => Ok(Some(Misfit {
            rule: misfit.rule,
            word: word_number(plain, misfit.word),
        })),
    }
}

/// The word at which the words after IF are refused, if they are.
fn misfit_after_if(
    alloc: Global,
    is_condition: bool,
    words: &Words,
) -> Result<Option<Misfit>, AllocError>
    ensures { IfOk result
        (λ misfit. misfit ≡ spec.plain_misfit is_condition (after_if words.now)) }
{
    let plain = plain_words(alloc, words)?;
    plain_misfit(alloc, is_condition, without_first(&plain))
}

/// The sentence of a rule P.
fn misfit_sentence(is_condition: bool, rule: TextRule) -> &'static [u8]
    ensures { result.now ≡ spec.misfit_sentence is_condition rule }
{
    if !is_end(rule) {
        return rule_sentence(rule.code());
    }
    if is_condition {
        NO_CONDITION_ENDS
    } else {
        NO_EXPRESSION_ENDS
    }
}

/// How the word before a word is printed.
fn told_behind(
    alloc: Global,
    keyword: &[u8],
    words: &Words,
    number: usize,
) -> Result<Vec<u8>, AllocError>
    ensures { IfOk result (λ told. told.items ≡ spec.told_behind keyword.now words.now number) }
{
    if number == 1 {
        return Vec::from_slice(alloc, keyword);
    }
    told(alloc, words, number)
}

/// Appends the sentence of a rule P at a word.
fn push_misfit_sentence(
    alloc: Global,
    typed: TypedText<'_>,
    words: &Words,
    misfit: Misfit,
    text: &mut Vec<u8>,
) -> Result<(), AllocError>
    ensures { OnOk result (text.new.items ≡ text.old.items
        ++ spec.sentence_at typed.entry.keyword.now typed.entry.is_condition words.now misfit) }
{
    let word = told_at(alloc, words, misfit.word)?;
    let before = told_behind(alloc, typed.keyword, words, misfit.word)?;
    push_filled(
        text,
        misfit_sentence(typed.is_condition, misfit.rule),
        &word,
        &before,
    )
}

/// Appends the hint for a word that is reserved, if a name fits in its place.
#[tactic(auto, using(crate::proofs::Listed::views))]
fn push_reserved_hint(
    text: &mut Vec<u8>,
    judged: &[Judgement],
    refused: &Word,
    told: &[u8],
) -> Result<(), AllocError>
    ensures { OnOk result (text.new.items ≡ text.old.items
        ++ reserved_hint (map judged_view judged.now) (word_at refused.now).kind told.now) }
{
    let is_given = is_reserved_word(refused) && fits(judged, b"a name");
    push_hint(text, is_given, RESERVED_HINT, told)
}

/// Appends the hint for the word with a number, if there is one.
#[tactic(auto, using(crate::proofs::WordLists::gets))]
fn push_hint_for(
    alloc: Global,
    words: &Words,
    number: usize,
    judged: &[Judgement],
    text: &mut Vec<u8>,
) -> Result<(), AllocError>
    ensures { OnOk result (text.new.items ≡ text.old.items
        ++ spec.hint_for (map judged_view judged.now) (slice_get words.now number)
        (told_before words.now (number + 1))) }
{
    match words.list.get(number) {
        Some(word) => {
            let told = told_at(alloc, words, number)?;
            push_reserved_hint(text, judged, word, &told)
        }
        None => Ok(()),
    }
}

/// Judges each candidate after the first `count` words.
fn judged_after(alloc: Global, words: &Words, count: usize) -> Result<Vec<Judgement>, AllocError>
    ensures { IfOk result (λ all. map judged_view all.items ≡ spec.judged_in words.now count) }
{
    let mut front = numbered_words(alloc, words, count)?;
    all_judged(alloc, &mut front)
}

/// Appends the list of the candidates that fit.
#[tactic(auto, using(crate::proofs::Listed::views))]
fn push_fitting(text: &mut Vec<u8>, judged: &[Judgement]) -> Result<(), AllocError>
    ensures { OnOk result (text.new.items
        ≡ text.old.items ++ expected_of (map judged_view judged.now)) }
{
    push_expected(text, judged)
}

/// Appends the words that could be in the place of a word, and a hint.
fn push_unfit(
    alloc: Global,
    words: &Words,
    number: usize,
    text: &mut Vec<u8>,
) -> Result<(), AllocError>
    ensures { OnOk result (text.new.items ≡ text.old.items ++ spec.unfit_text words.now number) }
{
    let judged = judged_after(alloc, words, number)?;
    push_fitting(text, &judged)?;
    push_hint_for(alloc, words, number, &judged, text)
}

/// Appends the words that could come at the end.
fn push_ending(alloc: Global, words: &Words, text: &mut Vec<u8>) -> Result<(), AllocError>
    ensures { OnOk result (text.new.items ≡ text.old.items ++ spec.ending_text words.now) }
{
    let judged = judged_after(alloc, words, words.list.len())?;
    push_fitting(text, &judged)
}

/// Appends the text after the sentence of a rule at a word.
fn push_after(
    alloc: Global,
    words: &Words,
    misfit: Misfit,
    text: &mut Vec<u8>,
) -> Result<(), AllocError>
    ensures { OnOk result (text.new.items
        ≡ text.old.items ++ spec.after_sentence words.now misfit.rule misfit.word) }
{
    match misfit.rule {
        TextRule::UnexpectedWord => push_unfit(alloc, words, misfit.word, text),
        TextRule::UnexpectedEnd => push_ending(alloc, words, text),
        _ => Ok(()),
    }
}

/// The explanation of the refusal of words at a word.
fn words_said(
    alloc: Global,
    typed: TypedText<'_>,
    words: &Words,
    misfit: Misfit,
) -> Result<Vec<u8>, AllocError>
    ensures { IfOk result (λ said. said.items
        ≡ spec.words_said typed.entry.front.now typed.entry.keyword.now typed.entry.text.now typed.entry.is_condition
        words.now misfit) }
{
    let column = word_column(alloc, typed, words, misfit.word)?;
    let line = whole_line(alloc, typed.front, typed.text)?;
    let mut text = Vec::new(alloc);
    push_column(&mut text, column)?;
    push_misfit_sentence(alloc, typed, words, misfit, &mut text)?;
    text.extend_from_slice(b"\n")?;
    push_typed(&mut text, &line, column)?;
    push_after(alloc, words, misfit, &mut text)?;
    Ok(text)
}

/// The explanation of the refusal of words, if they are refused.
fn words_misread(
    alloc: Global,
    typed: TypedText<'_>,
    words: &Words,
) -> Result<Option<Vec<u8>>, AllocError>
    ensures { IfOk result (λ said. option_map (λ s. s.items) said
        ≡ spec.words_misread typed.entry.front.now typed.entry.keyword.now typed.entry.text.now typed.entry.is_condition
        words.now (spec.plain_misfit typed.entry.is_condition (after_if words.now))) }
{
    match misfit_after_if(alloc, typed.is_condition, words)? {
        None => Ok(None),
        Some(misfit) => Ok(Some(words_said(alloc, typed, words, misfit)?)),
    }
}

/// Why a text at the prompt is neither an expression nor a condition (docs/SENTENCES.md): the column
/// and the sentence of the rule, the line with a caret below the word, the words that could be there,
/// and hints. `None` if it is one of these, and for a text without plain words, which is no question.
/// The only error is that memory was refused.
#[tactic(auto, unfolding(crate::specs::Misread::misread))]
pub fn misread(alloc: Global, typed: TypedText<'_>) -> Result<Option<Vec<u8>>, AllocError>
    ensures { IfOk result (λ said. option_map (λ s. s.items) said
        ≡ spec.misread typed.entry.front.now typed.entry.keyword.now typed.entry.text.now typed.entry.is_condition) }
{
    let read = as_read(alloc, typed.front, typed.text)?;
    match words(alloc, &read) {
        Ok(words) => words_misread(alloc, typed, &words),
        Err(TextFault::Memory) => Err(AllocError),
        Err(TextFault::Refused { rule, .. }) => bytes_misread(alloc, typed, rule),
    }
}

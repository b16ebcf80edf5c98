//! The explanation of a model that a rule L or P refuses.
ghost use Rattle.std.specs.Prelude.{◌≡◌, ◌+◌, ◌++◌, IfOk, OnOk, map, slice_get, take};
ghost use Rattle.ss_words.specs.Words.{word_at};
ghost use Rattle.ss_columns.specs.Numbers.{words_by_number};
ghost use Rattle.ss_sentences.specs.Refusals as spec;

use crate::candidate::{Judgement, judge_all};
use crate::expected::push_expected;
use crate::grammar::{is_end, spelled};
use crate::hints::{push_block_hints, push_front_hints, push_word_hints};
use crate::meant::push_meant_hints;
use crate::pieces::{last_text, push_filled, push_place};
use crate::unread::unread_said;
use crate::wording::rule_sentence;
use ss_columns::{numbered_words, place_of, push_source};
use ss_words::{TextFault, TextRule, Word, Words, words};
use std::alloc::{AllocError, Global};

/// The greatest length of a text that is judged. The definitions read this number too.
pub const LONGEST_TEXT_JUDGED: usize = 262_144;

/// The explanation of a model that a rule L or P refuses (docs/SENTENCES.md): the sentence of the
/// rule with its place, the line with a caret below the word, the words that could be there, and
/// hints. Empty if no rule L or P refuses it. The only error is that memory was refused.
#[tactic(auto, using(crate::proofs::Sayings::of_models))]
pub fn text_refusal(alloc: Global, model: &[u8]) -> Result<Vec<u8>, AllocError>
    ensures { IfOk result (λ said. spec.IsSaid model.now said.items) }
{
    match words(alloc, model) {
        Ok(words) => said_of_words(alloc, model, &words),
        Err(TextFault::Memory) => Err(AllocError),
        Err(TextFault::Refused { rule, line }) => unread_said(alloc, model, rule, line),
    }
}

/// The explanation of the refusal of a model's words, empty if they are a program.
#[tactic(auto, using(crate::proofs::Sayings::of_words))]
fn said_of_words(alloc: Global, model: &[u8], words: &Words) -> Result<Vec<u8>, AllocError>
    ensures { IfOk result (λ said. spec.AreSaid model.now words.now said.items) }
{
    let numbers = all_numbered(alloc, words)?;
    match spelled(alloc, &numbers) {
        Ok(()) => Ok(Vec::new(alloc)),
        Err(TextFault::Memory) => Err(AllocError),
        Err(TextFault::Refused { rule, line }) => said_of_rule(alloc, model, words, rule, line),
    }
}

/// The words, each with its number for its line.
#[tactic(auto, using(crate::proofs::WordLists::whole))]
fn all_numbered(alloc: Global, words: &Words) -> Result<Words, AllocError>
    ensures { IfOk result (λ numbers. numbers ≡ words_by_number words.now) }
{
    numbered_words(alloc, words, words.list.len())
}

/// The explanation of the refusal of a model's words by this rule at the word with this number.
#[tactic(auto, using(crate::proofs::Sayings::of_rules))]
fn said_of_rule(
    alloc: Global,
    model: &[u8],
    words: &Words,
    rule: TextRule,
    number: usize,
) -> Result<Vec<u8>, AllocError>
    ensures { IfOk result (λ said. spec.IsSaidOf model.now words.now rule number said.items) }
{
    let front = front_of(alloc, words, rule, number)?;
    let judged = judge_behind(alloc, model, front)?;
    let mut text = Vec::new(alloc);
    push_sentence(&mut text, model, words, rule, number)?;
    push_behind(&mut text, words, rule, number, &judged)?;
    Ok(text)
}

/// Judges each candidate after these words of a model, if the model is not too long.
#[tactic(auto, using(crate::proofs::Sayings::of_judgements))]
fn judge_behind(alloc: Global, model: &[u8], mut front: Words) -> Result<Vec<Judgement>, AllocError>
    ensures { IfOk result (λ judged. spec.AreJudged model.now front judged.items) }
{
    if model.len() > LONGEST_TEXT_JUDGED {
        return Ok(Vec::new(alloc));
    }
    judge_all(alloc, &mut front)
}

/// The words after which the candidates are judged.
fn front_of(
    alloc: Global,
    words: &Words,
    rule: TextRule,
    number: usize,
) -> Result<Words, AllocError>
    ensures { IfOk result (λ front. front ≡ spec.front_of words.now rule number) }
{
    if is_end(rule) {
        return all_numbered(alloc, words);
    }
    numbered_words(alloc, words, number)
}

/// Appends the text after the sentence of a rule at a word.
fn push_behind(
    text: &mut Vec<u8>,
    words: &Words,
    rule: TextRule,
    number: usize,
    judged: &[Judgement],
) -> Result<(), AllocError>
    ensures { OnOk result (text.new.items
        ≡ text.old.items ++ spec.behind_text words.now rule number judged.now) }
{
    let alloc = *text.allocator();
    match rule {
        TextRule::UnexpectedWord => push_unexpected(alloc, words, number, judged, text),
        TextRule::UnexpectedEnd => push_ended(alloc, words, judged, text),
        _ => Ok(()),
    }
}

/// Appends the sentence of a rule at a word, its line, and the caret below it.
fn push_sentence(
    text: &mut Vec<u8>,
    model: &[u8],
    words: &Words,
    rule: TextRule,
    number: usize,
) -> Result<(), AllocError>
    ensures { OnOk result (text.new.items
        ≡ text.old.items ++ spec.sentence_text model.now words.now rule number) }
{
    let alloc = *text.allocator();
    let place = place_of(alloc, model, words, number)?;
    let word = told_at(alloc, words, number)?;
    let before = told_before(alloc, words, number)?;
    push_place(text, place)?;
    push_filled(text, rule_sentence(rule.code()), &word, &before)?;
    text.extend_from_slice(b"\n")?;
    push_source(alloc, text, model, place)
}

/// How the last of the first `count` words is printed.
pub fn told_before(alloc: Global, words: &Words, count: usize) -> Result<Vec<u8>, AllocError>
    ensures { IfOk result (λ told. told.items ≡ spec.told_before words.now count) }
{
    last_text(alloc, first_words(words, count))
}

/// How the word with a number is printed: as the last of the words up to it.
#[tactic(auto, using(crate::proofs::WordLists::nexts))]
pub fn told_at(alloc: Global, words: &Words, number: usize) -> Result<Vec<u8>, AllocError>
    ensures { IfOk result (λ told. told.items ≡ spec.told_before words.now (number + 1)) }
{
    if number < words.list.len() {
        return told_before(alloc, words, number + 1);
    }
    told_before(alloc, words, number)
}

/// Appends the list of the candidates that could be at a place, if they are judged.
fn push_judged(text: &mut Vec<u8>, judged: &[Judgement]) -> Result<(), AllocError>
    ensures { OnOk result (text.new.items ≡ text.old.items ++ spec.judged_text judged.now) }
{
    match judged {
        [] => Ok(()),
        _ => push_expected(text, judged),
    }
}

/// Appends the hints for the word with a number, if there is one.
#[tactic(auto, using(crate::proofs::WordLists::gets))]
fn push_hints_at(
    alloc: Global,
    words: &Words,
    number: usize,
    judged: &[Judgement],
    text: &mut Vec<u8>,
) -> Result<(), AllocError>
    ensures { OnOk result (text.new.items ≡ text.old.items
        ++ spec.hints_at judged.now (take number words.now) (slice_get words.now number)
        (spec.told_before words.now (number + 1))) }
{
    match words.list.get(number) {
        Some(word) => {
            let told = told_at(alloc, words, number)?;
            push_word_hints(text, judged, word, &told)?;
            push_meant_hints(text, judged, first_words(words, number), word)
        }
        None => Ok(()),
    }
}

/// The first `count` words.
#[tactic(auto, using(crate::proofs::WordLists::firsts))]
fn first_words(words: &Words, count: usize) -> &[Word]
    ensures { map word_at result.now ≡ take count words.now }
{
    &words.list[..count.min(words.list.len())]
}

/// Appends the list of the candidates in the place of a word, and hints.
fn push_unexpected(
    alloc: Global,
    words: &Words,
    number: usize,
    judged: &[Judgement],
    text: &mut Vec<u8>,
) -> Result<(), AllocError>
    ensures { OnOk result (text.new.items
        ≡ text.old.items ++ spec.unexpected_text words.now number judged.now) }
{
    push_judged(text, judged)?;
    push_hints_at(alloc, words, number, judged, text)?;
    push_front_hints(alloc, text, judged, first_words(words, number))
}

/// Appends the list of the candidates at the end of a text, and which blocks are open there.
fn push_ended(
    alloc: Global,
    words: &Words,
    judged: &[Judgement],
    text: &mut Vec<u8>,
) -> Result<(), AllocError>
    ensures { OnOk result (text.new.items
        ≡ text.old.items ++ spec.ended_text words.now judged.now) }
{
    push_judged(text, judged)?;
    push_block_hints(alloc, text, judged, &words.list)
}

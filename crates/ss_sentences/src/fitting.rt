//! Which words could come in a text that asks for a value at the prompt.
ghost use Rattle.std.specs.Prelude.{◌≡◌, IfOk, OnOk, map, drop};
ghost use Rattle.ss_words.specs.Plain.{plain_at};
ghost use Rattle.ss_sentences.specs.Candidates.{with_candidate};
ghost use Rattle.ss_sentences.specs.Fitting as spec;

use crate::candidate::{Judgement, Tried, candidates, is_dropped, word_kind};
use crate::grammar::is_end;
use ss_routines::condition_misfit;
use ss_words::{PlainWord, Word, Words, plain_words};
use std::alloc::{AllocError, Global};

/// The plain words after the first one.
#[tactic(auto, using(crate::proofs::AfterIf::rests))]
pub fn without_first<'a, 'b>(plain: &'a [PlainWord<'b>]) -> &'a [PlainWord<'b>]
    ensures { map plain_at result.now ≡ drop 1 (map plain_at plain.now) }
{
    &plain[plain.len().min(1)..]
}

/// Whether the words after IF are a condition, or may go on to one.
#[tactic(auto, using(crate::proofs::AfterIf::plainly))]
fn goes_on(alloc: Global, words: &Words) -> Result<bool, AllocError>
    ensures { IfOk result (λ goes_on. goes_on ≡ spec.goes_on words.now) }
{
    let plain = plain_words(alloc, words)?;
    match condition_misfit(alloc, without_first(&plain))? {
        None => Ok(true),
        Some(misfit) => Ok(is_end(misfit.rule)),
    }
}

/// Whether they are with a candidate after them. The words are again as they were, unless memory was
/// refused.
#[tactic(auto, using(crate::proofs::WordLists::pushed))]
fn goes_on_with(
    alloc: Global,
    words: &mut Words,
    told: &[u8],
    tried: Tried,
) -> Result<bool, AllocError>
    ensures same { OnOk result (words.new ≡ words.old) }
    ensures judged { IfOk result
        (λ goes_on. goes_on ≡ spec.goes_on (with_candidate words.old told.now tried)) }
{
    let line = words.list.len();
    let kind = word_kind(alloc, told, tried)?;
    words.list.push(Word { line, kind })?;
    let goes_on = goes_on(alloc, words)?;
    words.list.truncate(line);
    Ok(goes_on)
}

/// Whether a candidate fits after these words.
fn fits_after(
    alloc: Global,
    words: &mut Words,
    told: &[u8],
    tried: Tried,
) -> Result<bool, AllocError>
    ensures same { OnOk result (words.new ≡ words.old) }
    ensures judged { IfOk result (λ fits. fits ≡ spec.fits_after words.old told.now tried) }
{
    if is_dropped(words, tried) {
        return Ok(false);
    }
    goes_on_with(alloc, words, told, tried)
}

/// Judges each candidate after these words, of which the first is IF.
#[tactic(auto, unfolding(crate::specs::Fitting::all_judged))]
pub fn all_judged(alloc: Global, words: &mut Words) -> Result<Vec<Judgement>, AllocError>
    ensures { IfOk result (λ all. map spec.judged_view all.items ≡ spec.all_judged words.old) }
{
    let mut rows = candidates();
    let mut all = Vec::with_capacity(alloc, rows.len())?;
    while let [row, rest @ ..] = rows {
        let (told, tried) = *row;
        let fits = fits_after(alloc, words, told, tried)?;
        all.push(Judgement { told, tried, fits })?;
        rows = rest;
    }
    Ok(all)
}

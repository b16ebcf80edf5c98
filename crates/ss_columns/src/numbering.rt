//! Copies of words, each with its number in place of its line.
ghost use Rattle.std.specs.Prelude.{◌≡◌, IfOk, map, take};
ghost use Rattle.ss_words.specs.Words.{kind_of, word_at};
ghost use Rattle.ss_columns.specs.Numbers.{words_by_number};

use ss_words::{Word, WordKind, Words};
use std::alloc::{AllocError, Global};

/// A copy of these lines.
fn copied(alloc: Global, lines: &[Vec<u8>]) -> Result<Vec<Vec<u8>>, AllocError>
    ensures { IfOk result
        (λ copy. map (λ line. line.items) copy.items ≡ map (λ line. line.items) lines.now) }
{
    let mut copy = Vec::with_capacity(alloc, lines.len())?;
    for line in lines {
        copy.push(Vec::from_slice(alloc, line)?)?;
    }
    Ok(copy)
}

/// A copy of a word's kind; names share their bytes.
pub fn copied_kind(alloc: Global, kind: &WordKind) -> Result<WordKind, AllocError>
    ensures { IfOk result (λ copy. kind_of copy ≡ kind_of kind.now) }
{
    Ok(match kind {
        WordKind::Name(name) => WordKind::Name(name.share()?),
        WordKind::Number(number) => WordKind::Number(*number),
        WordKind::Sign(sign) => WordKind::Sign(*sign),
        WordKind::Picture(lines) => WordKind::Picture(Box::new(alloc, copied(alloc, lines)?)?),
    })
}

/// The words, each with its number, from 0, in place of its line.
fn numbered(alloc: Global, words: &[Word]) -> Result<Vec<Word>, AllocError>
    ensures { IfOk result (λ copy. map word_at copy.items ≡ words_by_number (map word_at words.now)) }
{
    let mut list = Vec::with_capacity(alloc, words.len())?;
    for (line, word) in words.iter().enumerate() {
        let kind = copied_kind(alloc, &word.kind)?;
        list.push(Word { line, kind })?;
    }
    Ok(list)
}

/// The first `count` words of a list, each with its number, from 0, in place of its line.
#[tactic(auto, using(crate::proofs::Takes::takes))]
pub fn numbered_words(alloc: Global, words: &Words, count: usize) -> Result<Words, AllocError>
    ensures { IfOk result (λ copy. copy ≡ words_by_number (take count words.now)) }
{
    let list = numbered(alloc, &words.list[..count.min(words.list.len())])?;
    Ok(Words { list })
}

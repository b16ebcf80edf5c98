//! A line of the prompt as it was typed: the words of a command, and then a text.
ghost use Rattle.std.specs.Prelude.{◌≡◌, ◌≤◌, IfOk, length, option_map};
ghost use Rattle.ss_sentences.specs.Typed as spec;

use crate::prompt_text::{TypedText, misread};
use ss_words::characters::{BLANK, CARRIAGE_RETURN, TAB};
use std::alloc::{AllocError, Global};

/// Whether a byte separates words.
fn separates(byte: u8) -> bool
    ensures { result ≡ spec.separates byte }
{
    byte == BLANK || byte == TAB || byte == CARRIAGE_RETURN
}

/// How many bytes are before the first word.
#[tactic(auto, unfolding(crate::specs::Typed::gap_len))]
fn gap_len(line: &[u8]) -> usize
    ensures len { result ≡ spec.gap_len line.now }
    ensures within { result ≤ length line.now }
{
    let mut len = 0;
    let mut rest = line;
    while let [byte, behind @ ..] = rest {
        if !separates(*byte) {
            return len;
        }
        len += 1;
        rest = behind;
    }
    len
}

/// How many bytes a word at the front has.
#[tactic(auto, unfolding(crate::specs::Typed::word_len))]
fn word_len(line: &[u8]) -> usize
    ensures len { result ≡ spec.word_len line.now }
    ensures within { result ≤ length line.now }
{
    let mut len = 0;
    let mut rest = line;
    while let [byte, behind @ ..] = rest {
        if separates(*byte) {
            return len;
        }
        len += 1;
        rest = behind;
    }
    len
}

/// A line from its first word on.
fn from_word(line: &[u8]) -> &[u8]
    ensures { result.now ≡ spec.from_word line.now }
{
    &line[gap_len(line)..]
}

/// How many bytes are up to the end of the first word.
#[tactic(auto, using(crate::proofs::TypedLines::ends))]
fn first_end(line: &[u8]) -> usize
    ensures len { result ≡ spec.first_end line.now }
    ensures within { result ≤ length line.now }
{
    let gap = gap_len(line);
    gap + word_len(&line[gap..])
}

/// How many bytes are up to the end of the first words.
#[tactic(auto, using(crate::proofs::TypedLines::ends))]
fn words_end(words: usize, line: &[u8]) -> usize
    ensures len { result ≡ spec.words_end words line.now }
    ensures within { result ≤ length line.now }
{
    if words == 0 {
        return 0;
    }
    let end = first_end(line);
    end + words_end(words - 1, &line[end..])
}

/// The first word of a line, in upper case.
fn word_told(alloc: Global, line: &[u8]) -> Result<Vec<u8>, AllocError>
    ensures { IfOk result (λ word. word.items ≡ spec.word_told line.now) }
{
    let line = from_word(line);
    let mut word = Vec::from_slice(alloc, &line[..word_len(line)])?;
    word.make_ascii_uppercase();
    Ok(word)
}

/// Why the text after the first words of a line is neither a condition nor, if it may be one, an
/// expression (docs/SENTENCES.md): the column and the sentence of the rule, the line with a caret
/// below the word, the words that could be there, and hints. `None` if it is one of these, and for
/// a text without plain words, which asks for nothing. The only error is that memory was refused.
#[tactic(auto, unfolding(crate::specs::Typed::line_misread))]
pub fn line_misread(
    alloc: Global,
    words: usize,
    is_condition: bool,
    line: &[u8],
) -> Result<Option<Vec<u8>>, AllocError>
    ensures { IfOk result (λ said. option_map (λ s. s.items) said
        ≡ spec.line_misread words is_condition line.now) }
{
    let end = words_end(words, line);
    let last = words_end(words.saturating_sub(1), line);
    let keyword = word_told(alloc, &line[last..])?;
    let typed = TypedText {
        front: &line[..end],
        keyword: &keyword,
        text: &line[end..],
        is_condition,
    };
    misread(alloc, typed)
}

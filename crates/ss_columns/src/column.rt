//! The lines of a text, and the columns at which words begin.
ghost use Rattle.std.specs.Prelude.{◌≡◌, ◌≤◌, IfOk, IsTrue, false, length, map, slice_get, slice_index};
ghost use Rattle.std.specs.Prelude.{take, if◌then◌else◌};
ghost use Rattle.ss_words.specs.declared.characters.TheConstants.{BLANK};
ghost use Rattle.ss_words.specs.TextLines.{with_blank_comments};
ghost use Rattle.ss_words.specs.TextScan.{begins_comment};
ghost use Rattle.ss_words.specs.Words.{word_at};
ghost use Rattle.ss_columns.specs.Columns as spec;

use crate::bytes::begins_word;
use ss_words::characters::{BLANK, CARRIAGE_RETURN, LINE_FEED, QUOTE};
use ss_words::{Word, Words};
use std::alloc::{AllocError, Global};

/// The place of a word in a text.
#[derive(Clone, Copy, Debug, PartialEq, Eq)]
pub struct Place {
    /// Its line, from 1; 0 if there is no such word.
    pub line: usize,
    /// Its column, from 1; `None` for a picture, and if there is no such word.
    pub column: Option<usize>,
}

/// The text after the first line feed.
#[tactic(auto, unfolding(crate::specs::Columns::behind_feed))]
pub fn behind_feed(mut text: &[u8]) -> &[u8]
    ensures { result.now ≡ spec.behind_feed text.entry.now }
{
    while let [byte, behind @ ..] = text {
        if *byte == LINE_FEED {
            return behind;
        }
        text = behind;
    }
    b""
}

/// The text after the first `feeds` line feeds.
#[tactic(auto, unfolding(crate::specs::Columns::behind_feeds))]
pub fn behind_feeds(mut feeds: usize, mut text: &[u8]) -> &[u8]
    ensures { result.now ≡ spec.behind_feeds feeds text.entry.now }
{
    while feeds > 0 {
        text = behind_feed(text);
        feeds -= 1;
    }
    text
}

/// How many bytes are before the end of the line at the front.
#[tactic(auto, unfolding(crate::specs::Columns::line_len))]
fn line_len(text: &[u8]) -> usize
    ensures len { result ≡ spec.line_len text.now }
    ensures in_range { result ≤ length text.now }
{
    let mut len = 0;
    let mut rest = text;
    while let [byte, behind @ ..] = rest {
        if *byte == LINE_FEED || *byte == CARRIAGE_RETURN {
            return len;
        }
        len += 1;
        rest = behind;
    }
    len
}

/// Line `number` of a text, from 1, up to its carriage return or line feed; empty if there is no
/// such line.
#[tactic(auto, unfolding(crate::specs::Columns::line_of))]
pub fn line_of(text: &[u8], number: usize) -> &[u8]
    ensures { result.now ≡ spec.line_of text.now number }
{
    let text = behind_feeds(number.saturating_sub(1), text);
    &text[..line_len(text)]
}

/// Two quotes are at the front.
#[tactic(auto, unfolding(ss_words::specs::TextScan::begins_comment))]
fn begins_comment(rest: &[u8]) -> bool
    ensures exact { result ≡ begins_comment rest.now }
    ensures long { IsTrue result → 2 ≤ length rest.now }
{
    rest.len() > 1 && rest[0] == QUOTE && rest[1] == QUOTE
}

/// A byte, or a blank for one inside a comment.
fn seen(inside: bool, byte: u8) -> u8
    ensures { result ≡ (if inside then BLANK else byte) }
{
    if inside { BLANK } else { byte }
}

/// The line with its comments made blank.
pub fn with_blank_comments(alloc: Global, line: &[u8]) -> Result<Vec<u8>, AllocError>
    ensures { IfOk result (λ plain. plain.items ≡ with_blank_comments false line.now) }
{
    let mut plain = Vec::with_capacity(alloc, line.len())?;
    let mut inside = false;
    let mut rest = line;
    while !rest.is_empty() {
        if begins_comment(rest) {
            plain.extend_from_slice(&[BLANK, BLANK])?;
            inside = !inside;
            rest = &rest[2..];
        } else {
            plain.push(seen(inside, rest[0]))?;
            rest = &rest[1..];
        }
    }
    Ok(plain)
}

/// The column of the word that is after `words` words in a line without comments.
#[tactic(auto, unfolding(crate::specs::Columns::columns_from))]
fn column_behind(mut words: usize, plain: &[u8]) -> Option<usize>
    ensures { result ≡ slice_get (spec.columns_from 1 BLANK plain.now) words }
{
    let mut column = 1;
    let mut last = BLANK;
    let mut rest = plain;
    while let [byte, behind @ ..] = rest {
        if begins_word(last, rest) {
            if words == 0 {
                return Some(column);
            }
            words -= 1;
        }
        last = *byte;
        rest = behind;
        column += 1;
    }
    None
}

/// How many of the words are on this line.
#[tactic(auto, unfolding(crate::specs::Columns::count_on))]
fn count_on(line: usize, mut words: &[Word]) -> usize
    ensures { result ≡ spec.count_on line (map word_at words.entry.now) }
{
    let mut count = 0;
    while let [word, behind @ ..] = words {
        if word.line == line {
            count += 1;
        }
        words = behind;
    }
    count
}

/// The line of word `number` of a list, from 0.
fn line_in(words: &[Word], number: usize) -> usize
    ensures { result ≡ slice_index (map (λ w. w.line) words.now) number }
{
    match words.get(number) {
        Some(word) => word.line,
        None => 0,
    }
}

/// The line of word `number`, from 0; 0 if there is no such word.
#[tactic(auto, using(crate::proofs::Takes::lines))]
pub fn line_at(words: &Words, number: usize) -> usize
    ensures { result ≡ spec.line_at words.now number }
{
    line_in(&words.list, number)
}

/// How many of the words before word `number` are on this line.
#[tactic(auto, using(crate::proofs::Takes::takes))]
fn count_before(line: usize, words: &Words, number: usize) -> usize
    ensures { result ≡ spec.count_on line (take number words.now) }
{
    count_on(line, &words.list[..number.min(words.list.len())])
}

/// The place of word `number`, from 0, of a text; `words` are the text's words. It reads the line
/// of the word, and the words before it.
#[tactic(auto, unfolding(crate::specs::Columns::column_at, crate::specs::Columns::columns))]
pub fn place_of(
    alloc: Global,
    text: &[u8],
    words: &Words,
    number: usize,
) -> Result<Place, AllocError>
    ensures line { IfOk result (λ place. place.line ≡ spec.line_at words.now number) }
    ensures column { IfOk result
        (λ place. place.column ≡ spec.column_at text.now words.now number) }
{
    let line = line_at(words, number);
    let plain = with_blank_comments(alloc, line_of(text, line))?;
    let column = column_behind(count_before(line, words, number), &plain);
    Ok(Place { line, column })
}

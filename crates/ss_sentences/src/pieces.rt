//! The pieces of which texts are made.
ghost use Rattle.std.specs.Prelude.{◌≡◌, ◌≤◌, ◌++◌, IfOk, IsTrue, OnOk, length, map, None};
ghost use Rattle.ss_words.specs.Words.{kind_of, word_at};
ghost use Rattle.ss_sentences.specs.Pieces as spec;

use itoa::Buffer;
use ss_columns::{Place, push_number};
use ss_words::{Sign, Word, WordKind};
use std::alloc::{AllocError, Global};

/// Appends a sentence with a word in the place of its first `{}`, and another in that of its others.
pub fn push_filled(
    text: &mut Vec<u8>,
    sentence: &[u8],
    first: &[u8],
    others: &[u8],
) -> Result<(), AllocError>
    ensures { OnOk result (text.new.items
        ≡ text.old.items ++ spec.gaps_filled sentence.now first.now others.now) }
{
    let mut word = first;
    let mut rest = sentence;
    while !rest.is_empty() {
        if begins_gap(rest) {
            text.extend_from_slice(word)?;
            word = others;
            rest = &rest[2..];
        } else {
            text.push(rest[0])?;
            rest = &rest[1..];
        }
    }
    Ok(())
}

/// A place for a word is at the front.
#[tactic(auto, unfolding(crate::specs::Pieces::begins_gap))]
fn begins_gap(rest: &[u8]) -> bool
    ensures exact { result ≡ spec.begins_gap rest.now }
    ensures long { IsTrue result → 2 ≤ length rest.now }
{
    rest.len() > 1 && rest[0] == b'{' && rest[1] == b'}'
}

fn sign_text(sign: Sign) -> &'static [u8]
    ensures { result.now ≡ spec.sign_text sign }
{
    match sign {
        Sign::Plus => b"+",
        Sign::Minus => b"-",
        Sign::Star => b"*",
        Sign::Open => b"(",
        Sign::Close => b")",
        Sign::Comma => b"the comma",
        Sign::Equal => b"=",
        Sign::Less => b"<",
        Sign::Greater => b">",
        Sign::LessEqual => b"<=",
        Sign::GreaterEqual => b">=",
    }
}

/// How a word is printed.
fn kind_text(alloc: Global, kind: &WordKind) -> Result<Vec<u8>, AllocError>
    ensures { IfOk result (λ text. text.items ≡ spec.kind_text (kind_of kind.now)) }
{
    let mut buffer = Buffer::new();
    match kind {
        WordKind::Name(name) => Vec::from_slice(alloc, name.bytes()),
        WordKind::Number(number) => Vec::from_slice(alloc, buffer.format(*number).as_bytes()),
        WordKind::Sign(sign) => Vec::from_slice(alloc, sign_text(*sign)),
        WordKind::Picture(_) => Vec::from_slice(alloc, b"the picture"),
    }
}

/// The kind of the last of these words.
pub fn last_kind(words: &[Word]) -> Option<&WordKind>
    ensures { spec.kind_seen result ≡ spec.last_kind None (map word_at words.now) }
{
    let mut last = None;
    let mut rest = words;
    while let [word, behind @ ..] = rest {
        last = Some(&word.kind);
        rest = behind;
    }
    last
}

/// How the last of these words is printed.
pub fn last_text(alloc: Global, words: &[Word]) -> Result<Vec<u8>, AllocError>
    ensures { IfOk result (λ text. text.items ≡ spec.last_text (map word_at words.now)) }
{
    match last_kind(words) {
        Some(kind) => kind_text(alloc, kind),
        None => Vec::from_slice(alloc, b"the start of the text"),
    }
}

/// Appends a place.
pub fn push_place(text: &mut Vec<u8>, place: Place) -> Result<(), AllocError>
    ensures { OnOk result (text.new.items
        ≡ text.old.items ++ spec.place_text place.line place.column) }
{
    text.extend_from_slice(b"Line ")?;
    push_number(text, place.line)?;
    if let Some(column) = place.column {
        text.extend_from_slice(b", column ")?;
        push_number(text, column)?;
    }
    text.extend_from_slice(b": ")
}

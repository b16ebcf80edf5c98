//! The answers about the plain words of a text.
use crate::answer::{put_string, put_text};
use crate::raw::sign_text;
use ss_session::drop_words;
use ss_words::{Mark, Plain, PlainWord, TextFault, Words, plain_words, words};
use std::alloc::{AllocError, Global};

/// Whether a plain word is put by itself or after its place.
#[derive(Clone, Copy)]
enum Shown {
    Alone,
    Placed,
}

/// Puts the plain words: a reserved word as its variant is called, a name and a sign as they are
/// written, a picture as its bytes.
pub fn put_words(alloc: Global, out: &mut Vec<u8>, text: &[u8]) -> Result<(), TextFault> {
    put_shown(alloc, out, text, Shown::Alone)
}

/// Puts the plain words, each after its line, a stop, and its place in the list of words.
pub fn put_placed(alloc: Global, out: &mut Vec<u8>, text: &[u8]) -> Result<(), TextFault> {
    put_shown(alloc, out, text, Shown::Placed)
}

fn put_shown(alloc: Global, out: &mut Vec<u8>, text: &[u8], shown: Shown) -> Result<(), TextFault> {
    let words = words(alloc, text)?;
    let put = put_plain(alloc, out, &words, shown);
    drop_words(words);
    put
}

/// Puts the plain words from the words of a text.
fn put_plain(
    alloc: Global,
    out: &mut Vec<u8>,
    words: &Words,
    shown: Shown,
) -> Result<(), TextFault> {
    let plain = plain_words(alloc, words)?;
    let put = put_all(alloc, out, &plain, shown);
    drop(plain);
    Ok(put?)
}

fn put_all(
    alloc: Global,
    out: &mut Vec<u8>,
    words: &[PlainWord<'_>],
    shown: Shown,
) -> Result<(), AllocError> {
    for word in words {
        if !out.is_empty() {
            out.push(b' ')?;
        }
        put_place(alloc, out, word, shown)?;
        put_word(alloc, out, word.kind())?;
    }
    Ok(())
}

fn put_place(
    alloc: Global,
    out: &mut Vec<u8>,
    word: &PlainWord<'_>,
    shown: Shown,
) -> Result<(), AllocError> {
    let line = word.line();
    let index = word.index;
    match shown {
        Shown::Alone => Ok(()),
        Shown::Placed => put_string(out, format!(in alloc; "{line}.{index} ")),
    }
}

fn put_word(alloc: Global, out: &mut Vec<u8>, word: Plain<'_>) -> Result<(), AllocError> {
    match word {
        Plain::Mark(Mark::Reserved(reserved)) => {
            put_string(out, format!(in alloc; "{reserved:?}"))
        }
        Plain::Mark(Mark::Sign(sign)) => put_text(out, sign_text(sign)),
        Plain::Name(name) => out.extend_from_slice(name.bytes()),
        Plain::Number(number) => put_string(out, format!(in alloc; "{number}")),
        Plain::Picture(lines) => put_string(out, format!(in alloc; "{lines:?}")),
    }
}

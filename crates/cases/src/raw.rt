//! The answers about the words of a text.
use crate::answer::{put_string, put_text};
use ss_session::drop_words;
use ss_words::{Sign, TextFault, Word, WordKind, words};
use std::alloc::{AllocError, Global};

/// Puts each word after its line and a colon.
///
/// A number is after `#`; the lines of a picture are each between bars.
pub fn put_words(alloc: Global, out: &mut Vec<u8>, text: &[u8]) -> Result<(), TextFault> {
    let words = words(alloc, text)?;
    let put = put_all(alloc, out, &words.list);
    drop_words(words);
    Ok(put?)
}

/// Puts how many words there are.
pub fn put_count(alloc: Global, out: &mut Vec<u8>, text: &[u8]) -> Result<(), TextFault> {
    let words = words(alloc, text)?;
    let count = words.list.len();
    drop_words(words);
    put_string(out, format!(in alloc; "{count}"))?;
    Ok(())
}

fn put_all(alloc: Global, out: &mut Vec<u8>, words: &[Word]) -> Result<(), AllocError> {
    for word in words {
        if !out.is_empty() {
            out.push(b' ')?;
        }
        put_word(alloc, out, word)?;
    }
    Ok(())
}

fn put_word(alloc: Global, out: &mut Vec<u8>, word: &Word) -> Result<(), AllocError> {
    let line = word.line;
    put_string(out, format!(in alloc; "{line}:"))?;
    match &word.kind {
        WordKind::Name(name) => out.extend_from_slice(name.bytes()),
        WordKind::Number(number) => put_string(out, format!(in alloc; "#{number}")),
        WordKind::Sign(sign) => put_text(out, sign_text(*sign)),
        WordKind::Picture(lines) => put_picture(out, lines),
    }
}

fn put_picture(out: &mut Vec<u8>, lines: &[Vec<u8>]) -> Result<(), AllocError> {
    out.push(b'!')?;
    for line in lines {
        out.extend_from_slice(line)?;
        out.push(b'!')?;
    }
    Ok(())
}

pub fn sign_text(sign: Sign) -> &'static str {
    match sign {
        Sign::Plus => "+",
        Sign::Minus => "-",
        Sign::Star => "*",
        Sign::Open => "(",
        Sign::Close => ")",
        Sign::Comma => ",",
        Sign::Equal => "=",
        Sign::Less => "<",
        Sign::Greater => ">",
        Sign::LessEqual => "<=",
        Sign::GreaterEqual => ">=",
    }
}

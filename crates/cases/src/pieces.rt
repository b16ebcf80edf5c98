//! The answer about the beginnings of a text, piece by piece.
use crate::answer::{put_number, put_string, put_text};
use crate::sections::count_from;
use ss_session::drop_words;
use ss_words::{TextFault, TextRule, words};
use std::alloc::{AllocError, Global};

/// Puts, for each beginning of the text that ends before a blank or a line's end, and for the
/// whole, how many pieces it has and its result, if P2 does not refuse it at its last line.
pub fn put_refusals(alloc: Global, out: &mut Vec<u8>, text: &[u8]) -> Result<(), AllocError> {
    let mut pieces: usize = 0;
    let mut line: usize = 1;
    for (index, byte) in text.iter().enumerate() {
        if *byte == b' ' || *byte == b'\n' {
            pieces = pieces.wrapping_add(1);
            put_other(alloc, out, &text[..index], pieces, line)?;
        }
        if *byte == b'\n' {
            line = line.wrapping_add(1);
        }
    }
    put_other(alloc, out, text, pieces.wrapping_add(1), line)
}

/// Puts the number of pieces and the result of the beginning, if that is not P2 at this line.
fn put_other(
    alloc: Global,
    out: &mut Vec<u8>,
    beginning: &[u8],
    pieces: usize,
    last: usize,
) -> Result<(), AllocError> {
    match refusal(alloc, beginning) {
        Ok(()) => {
            put_pieces(alloc, out, pieces)?;
            put_text(out, "Ok")
        }
        Err(
            TextFault::Refused {
                rule: TextRule::UnexpectedEnd,
                line,
            },
        ) if line == last => Ok(()),
        Err(TextFault::Refused { rule, line }) => {
            put_pieces(alloc, out, pieces)?;
            put_text(out, rule.code())?;
            put_number(alloc, out, line)
        }
        Err(TextFault::Memory) => Err(AllocError),
    }
}

/// The refusal of a text, if it is no sections.
fn refusal(alloc: Global, text: &[u8]) -> Result<(), TextFault> {
    let words = words(alloc, text)?;
    let count = count_from(alloc, &words, 0);
    drop_words(words);
    count?;
    Ok(())
}

/// Puts the number of pieces and a colon; after a comma, if the output is not empty.
fn put_pieces(alloc: Global, out: &mut Vec<u8>, pieces: usize) -> Result<(), AllocError> {
    if !out.is_empty() {
        put_text(out, ", ")?;
    }
    put_string(out, format!(in alloc; "{pieces}:"))
}

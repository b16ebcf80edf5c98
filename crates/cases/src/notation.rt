//! The notation of texts in cases and in documents.
use std::alloc::{AllocError, Global};

/// The sign between the count and the item of `{n:item}`.
#[derive(Clone, Copy)]
pub enum Repeats {
    /// `{n:item}`, as cases write it
    BehindColon,
    /// `{n item}`, as documents do
    BehindBlank,
}

impl Repeats {
    fn mark(self) -> char {
        match self {
            Repeats::BehindColon => ':',
            Repeats::BehindBlank => ' ',
        }
    }
}

/// The text that a case notes: `|` is a line feed, `~` a carriage return, `^` the byte 128, and
/// `{n:item}` is the item n times, with its number from 0 in place of each `#`.
pub fn text_of(alloc: Global, noted: &str, repeats: Repeats) -> Result<Vec<u8>, AllocError> {
    let mut text = Vec::new(alloc);
    match put_noted(alloc, &mut text, noted, repeats) {
        Ok(()) => Ok(text),
        Err(fault) => {
            drop(text);
            Err(fault)
        }
    }
}

fn put_noted(
    alloc: Global,
    text: &mut Vec<u8>,
    noted: &str,
    repeats: Repeats,
) -> Result<(), AllocError> {
    for piece in noted.split('{') {
        let (repeated, plain) = piece.split_once('}').unwrap_or(("", piece));
        put_repeated(alloc, text, repeated, repeats)?;
        put_bytes(text, plain)?;
    }
    Ok(())
}

/// Puts `n:item`, or `n item`; nothing if there is no count.
fn put_repeated(
    alloc: Global,
    text: &mut Vec<u8>,
    noted: &str,
    repeats: Repeats,
) -> Result<(), AllocError> {
    let (count, item) = noted.split_once(repeats.mark()).unwrap_or(("0", noted));
    for number in 0..count.parse::<usize>().unwrap_or(0) {
        put_numbered(alloc, text, item, number)?;
    }
    Ok(())
}

/// An item with this number in place of each `#`.
fn put_numbered(
    alloc: Global,
    text: &mut Vec<u8>,
    item: &str,
    number: usize,
) -> Result<(), AllocError> {
    let digits = format!(in alloc; "{number}")?;
    let numbered = item.replace(alloc, '#', digits.as_str());
    drop(digits);
    let numbered = numbered?;
    let put = put_bytes(text, numbered.as_str());
    drop(numbered);
    put
}

fn put_bytes(text: &mut Vec<u8>, noted: &str) -> Result<(), AllocError> {
    for byte in noted.as_bytes() {
        text.push(byte_of(*byte))?;
    }
    Ok(())
}

fn byte_of(noted: u8) -> u8 {
    match noted {
        b'|' => b'\n',
        b'~' => b'\r',
        b'^' => 128,
        _ => noted,
    }
}

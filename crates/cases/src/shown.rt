//! The short form in which sections and places are shown.
use crate::answer::put_text;
use ss_routines::{LocalNames, Section, Spot};
use std::alloc::{AllocError, Global};

/// The names that are shown as a letter, and the numbers that are shown as a digit.
const LETTERS: &str = "A B C D E F G H I J K L M N O P Q R S T U V W X Y Z";

const DIGITS: &str = "0 1 2 3 4 5 6 7 8 9";

/// Puts a section: its line, its kind, its name, its local DEFINEs and its places.
pub fn put_section(alloc: Global, out: &mut Vec<u8>, section: &Section) -> Result<(), AllocError> {
    let line = section.line;
    let kind = &section.kind;
    put_shown(alloc, out, format!(in alloc; "[{line} {kind:?} "))?;
    out.extend_from_slice(section.name.bytes())?;
    for local in &section.locals {
        put_local(alloc, out, local)?;
    }
    put_text(out, ": ")?;
    put_places(alloc, out, &section.places)?;
    put_text(out, "]")
}

fn put_local(alloc: Global, out: &mut Vec<u8>, local: &LocalNames) -> Result<(), AllocError> {
    let line = local.line;
    let names = &local.names;
    put_shown(alloc, out, format!(in alloc; " ({line} {names:?})"))
}

/// Puts places, each after its line.
pub fn put_places(alloc: Global, out: &mut Vec<u8>, places: &[Spot]) -> Result<(), AllocError> {
    for (index, spot) in places.iter().enumerate() {
        if index > 0 {
            put_text(out, "; ")?;
        }
        put_place(alloc, out, spot)?;
    }
    Ok(())
}

fn put_place(alloc: Global, out: &mut Vec<u8>, spot: &Spot) -> Result<(), AllocError> {
    let line = spot.line;
    let place = &spot.place;
    put_shown(alloc, out, format!(in alloc; "{line} {place:?}"))
}

/// Puts a text in short form: each name of one letter as its letter, each value of one digit as
/// that digit. The name may be by itself, a reference or a value.
fn put_shown(
    alloc: Global,
    out: &mut Vec<u8>,
    text: Result<String, AllocError>,
) -> Result<(), AllocError> {
    let mut text = text?;
    let put = put_shortened(alloc, out, &mut text);
    drop(text);
    put
}

/// Puts the short form of a text that is lent.
fn put_shortened(alloc: Global, out: &mut Vec<u8>, text: &mut String) -> Result<(), AllocError> {
    for letter in LETTERS.split(' ') {
        shorten_name(alloc, text, letter)?;
    }
    for digit in DIGITS.split(' ') {
        let factor = format!(in alloc; "Number({digit})");
        replace_value(alloc, text, factor, digit)?;
    }
    put_text(out, text.as_str())
}

/// Puts a letter in place of the name of that letter.
fn shorten_name(alloc: Global, text: &mut String, letter: &str) -> Result<(), AllocError> {
    let name = letter.as_bytes();
    let reference = format!(in alloc; "Reference {{ name: {name:?}, subscript: None }}");
    replace(alloc, text, reference, letter)?;
    replace_value(alloc, text, format!(in alloc; "Name({name:?})"), letter)?;
    replace(alloc, text, format!(in alloc; "{name:?}"), letter)
}

/// Puts another text in place of each value of one factor.
fn replace_value(
    alloc: Global,
    text: &mut String,
    factor: Result<String, AllocError>,
    other: &str,
) -> Result<(), AllocError> {
    let factor = factor?;
    let value = value(alloc, factor.as_str());
    drop(factor);
    replace(alloc, text, value, other)
}

/// How a value of one factor is shown.
fn value(alloc: Global, factor: &str) -> Result<String, AllocError> {
    format!(in alloc;
        "Expr {{ sign: None, first: Term {{ first: {factor}, more: [] }}, more: [] }}"
    )
}

/// Puts another text in place of each of these parts.
fn replace(
    alloc: Global,
    text: &mut String,
    part: Result<String, AllocError>,
    other: &str,
) -> Result<(), AllocError> {
    let part = part?;
    let replaced = text.replace(alloc, part.as_str(), other);
    drop(part);
    *text = replaced?;
    Ok(())
}

//! The answers about the sections of a text and their places.
use crate::answer::put_string;
use crate::shown::{put_places, put_section};
use ss_routines::{Sections, sections};
use ss_session::drop_words;
use ss_words::{TextFault, Words, words};
use std::alloc::{AllocError, Global};

/// What is put of the sections of a text.
#[derive(Clone, Copy)]
enum Part {
    /// Each section.
    Each,
    /// The places of the first one.
    First,
    /// How many they are, and how many places they have.
    Counts,
}

/// Lets sections go.
fn end(sections: Sections) {
    drop(sections);
}

/// How many sections some words are, from the one with this number on.
pub fn count_from(alloc: Global, words: &Words, number: usize) -> Result<usize, TextFault> {
    let sections = sections(alloc, words, number)?;
    let count = sections.list().len();
    end(sections);
    Ok(count)
}

/// Puts each section, in a pair of brackets.
pub fn put_sections(alloc: Global, out: &mut Vec<u8>, text: &[u8]) -> Result<(), TextFault> {
    put_part(alloc, out, text, Part::Each)
}

/// Puts the places of MAIN but its END; the text is put between MAIN and END.
pub fn put_body(alloc: Global, out: &mut Vec<u8>, text: &[u8]) -> Result<(), TextFault> {
    let whole = format_body(alloc, text)?;
    let put = put_part(alloc, out, &whole, Part::First);
    drop(whole);
    put
}

/// Puts how many sections there are, and how many places they have.
pub fn put_counts(alloc: Global, out: &mut Vec<u8>, text: &[u8]) -> Result<(), TextFault> {
    put_part(alloc, out, text, Part::Counts)
}

/// Puts a part of the sections of a text.
fn put_part(alloc: Global, out: &mut Vec<u8>, text: &[u8], part: Part) -> Result<(), TextFault> {
    let words = words(alloc, text)?;
    let put = put_part_of_words(alloc, out, &words, part);
    drop_words(words);
    put
}

/// Puts a part of the sections that some words are.
fn put_part_of_words(
    alloc: Global,
    out: &mut Vec<u8>,
    words: &Words,
    part: Part,
) -> Result<(), TextFault> {
    let sections = sections(alloc, words, 0)?;
    let put = put_part_of(alloc, out, &sections, part);
    end(sections);
    Ok(put?)
}

/// Puts a part of some sections.
fn put_part_of(
    alloc: Global,
    out: &mut Vec<u8>,
    sections: &Sections,
    part: Part,
) -> Result<(), AllocError> {
    match part {
        Part::Each => put_each(alloc, out, sections),
        Part::First => put_first(alloc, out, sections),
        Part::Counts => put_counts_of(alloc, out, sections),
    }
}

/// Puts each of some sections.
fn put_each(alloc: Global, out: &mut Vec<u8>, sections: &Sections) -> Result<(), AllocError> {
    for section in sections.list() {
        put_section(alloc, out, section)?;
    }
    Ok(())
}

/// MAIN, a text, and END.
fn format_body(alloc: Global, text: &[u8]) -> Result<Vec<u8>, AllocError> {
    let mut whole = Vec::from_slice(alloc, b"MAIN ")?;
    whole.extend_from_slice(text)?;
    whole.extend_from_slice(b"\nEND")?;
    Ok(whole)
}

/// Puts the places of the first section but its END.
fn put_first(alloc: Global, out: &mut Vec<u8>, sections: &Sections) -> Result<(), AllocError> {
    if let Some(section) = sections.list().first() {
        if let Some((_, places)) = section.places.split_last() {
            put_places(alloc, out, places)?;
        }
    }
    Ok(())
}

/// Puts how many sections there are, and how many places they have.
fn put_counts_of(alloc: Global, out: &mut Vec<u8>, sections: &Sections) -> Result<(), AllocError> {
    let (count, places) = counts(sections);
    put_string(out, format!(in alloc; "{count} {places}"))
}

/// How many sections there are, and how many places they have.
fn counts(sections: &Sections) -> (usize, usize) {
    let mut places = 0;
    for section in sections.list() {
        places = usize::wrapping_add(places, section.places.len());
    }
    (sections.list().len(), places)
}

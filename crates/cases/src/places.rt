//! The answer about the sizes of a program: its items and its sections.
use crate::answer::put_string;
use crate::sections::count_from;
use ss_preamble::preamble;
use ss_session::{drop_decls, drop_words};
use ss_words::{TextFault, Words, words};
use std::alloc::Global;

/// Puts how many items the preamble has, and how many sections are after it.
pub fn put_counts(alloc: Global, out: &mut Vec<u8>, text: &[u8]) -> Result<(), TextFault> {
    let (items, count) = counts(alloc, text)?;
    put_string(out, format!(in alloc; "{items} {count}"))?;
    Ok(())
}

/// How many items the preamble has, and how many sections are after it.
pub fn counts(alloc: Global, text: &[u8]) -> Result<(usize, usize), TextFault> {
    let words = words(alloc, text)?;
    let counts = counts_of(alloc, &words);
    drop_words(words);
    counts
}

/// Those two counts, from the words of a text.
fn counts_of(alloc: Global, words: &Words) -> Result<(usize, usize), TextFault> {
    let (decls, number) = preamble(alloc, words)?;
    let items = decls.items.len();
    drop_decls(decls);
    Ok((items, count_from(alloc, words, number)?))
}

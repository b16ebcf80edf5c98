//! The answers about the items of a preamble.
use crate::answer::{put_number, put_string};
use ss_preamble::{Decls, preamble};
use ss_session::{drop_decls, drop_words};
use ss_words::{TextFault, words};
use std::alloc::{AllocError, Global};

/// The items of a text, and the number of the first word after the preamble.
fn declarations(alloc: Global, text: &[u8]) -> Result<(Decls, usize), TextFault> {
    let words = words(alloc, text)?;
    let declarations = preamble(alloc, &words);
    drop_words(words);
    declarations
}

/// Puts the line of each item, that of END or `None`, and the number of the first word after it.
pub fn put_lines(alloc: Global, out: &mut Vec<u8>, text: &[u8]) -> Result<(), TextFault> {
    let (decls, number) = declarations(alloc, text)?;
    let put = put_lines_of(alloc, out, &decls, number);
    drop_decls(decls);
    Ok(put?)
}

/// Puts the lines of declarations, and that number.
fn put_lines_of(
    alloc: Global,
    out: &mut Vec<u8>,
    decls: &Decls,
    number: usize,
) -> Result<(), AllocError> {
    for item in &decls.items {
        let line = item.line;
        put_string(out, format!(in alloc; "{line} "))?;
    }
    let end = decls.end;
    put_string(out, format!(in alloc; "END {end:?}"))?;
    put_number(alloc, out, number)
}

/// Puts the items, and the number of the first word after the preamble.
pub fn put_items(alloc: Global, out: &mut Vec<u8>, text: &[u8]) -> Result<(), TextFault> {
    let (decls, number) = declarations(alloc, text)?;
    let put = put_items_of(alloc, out, &decls, number);
    drop_decls(decls);
    Ok(put?)
}

/// Puts the items of declarations, and that number.
fn put_items_of(
    alloc: Global,
    out: &mut Vec<u8>,
    decls: &Decls,
    number: usize,
) -> Result<(), AllocError> {
    let items = &decls.items;
    put_string(out, format!(in alloc; "{items:?}"))?;
    put_number(alloc, out, number)
}

//! The words that may be typed at a place in a line of the console.
ghost use Rattle.std.specs.Prelude.{◌≡◌, ◌++◌, OnOk, IfOk, map};
ghost use Rattle.ss_prompt.specs.ConsoleWords.{console_words};
ghost use Rattle.ss_prompt.specs.Source.{source_lines};
ghost use Rattle.ss_adapter.specs.Completions.{target, targets, is_first, completions};

use crate::words::{before_word, last_word};
use ss_messages::target_item;
use ss_program::Program;
use ss_prompt::{push_console_words, source_lines};
use std::alloc::{AllocError, Global};

/// Appends a word as an item, if it begins with the text that is typed before a column.
fn push_target(out: &mut Vec<u8>, typed: &[u8], column: u64, word: &[u8]) -> Result<(), AllocError>
    ensures { OnOk result (out.new.items ≡ out.old.items ++ target typed.now column word.now) }
{
    if !word.starts_with(typed) {
        return Ok(());
    }
    let count = typed.len() as u64;
    let item = target_item(*out.allocator(), word, column.saturating_sub(count), count)?;
    out.extend_from_slice(&item)
}

/// Appends the items of some words.
fn push_targets(
    out: &mut Vec<u8>,
    typed: &[u8],
    column: u64,
    mut words: &[&[u8]],
) -> Result<(), AllocError>
    ensures { OnOk result (out.new.items ≡ out.old.items
        ++ targets typed.now column (map (λ word. word.now) words.entry.now)) }
{
    while let [word, rest @ ..] = words {
        push_target(out, typed, column, word)?;
        words = rest;
    }
    Ok(())
}

/// Whether no word is before the last one of a text.
fn is_first(text: &[u8]) -> bool
    ensures { result ≡ is_first text.now }
{
    before_word(text).iter().all(|byte| *byte == b' ')
}

/// The words of the prompt that may be the last one of a text, each on a line.
fn words_for(
    alloc: Global,
    program: &Program,
    section: usize,
    text: &[u8],
) -> Result<Vec<u8>, AllocError>
    ensures { IfOk result (λ lines. lines.items
        ≡ console_words program.now section (is_first text.now)) }
{
    let mut lines = Vec::new(alloc);
    push_console_words(&mut lines, program, section, is_first(text))?;
    Ok(lines)
}

/// The items of those words, each on a line, that begin with what is typed before a column.
fn items_of(alloc: Global, typed: &[u8], column: u64, lines: &[u8]) -> Result<Vec<u8>, AllocError>
    ensures { IfOk result (λ items. items.items
        ≡ targets typed.now column (source_lines lines.now)) }
{
    let words = source_lines(alloc, lines)?;
    let mut out = Vec::new(alloc);
    push_targets(&mut out, typed, column, &words)?;
    Ok(out)
}

/// The items of the words of the prompt that begin with the last word of a text, in either case,
/// which ends before a column.
///
/// They are words of docs/PROMPT.md, then names of the program in the order of its tables, with the
/// locals of a section. Each is after a comma.
pub fn completions(
    alloc: Global,
    program: &Program,
    section: usize,
    text: &[u8],
    column: u64,
) -> Result<Vec<u8>, AllocError>
    ensures { IfOk result (λ items. items.items
        ≡ completions program.now section text.now column) }
{
    let mut typed = last_word(text).to_vec(alloc)?;
    typed.make_ascii_uppercase();
    let lines = words_for(alloc, program, section, text)?;
    items_of(alloc, &typed, column, &lines)
}

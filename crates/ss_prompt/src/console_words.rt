//! The words that may be in a line of the console of an editor, for completion there.
ghost use Rattle.std.specs.Prelude.{◌≡◌, ◌++◌, OnOk, option_map};
ghost use Rattle.ss_prompt.specs.Table.{form_of, forms_of};
ghost use Rattle.ss_prompt.specs.ConsoleWords.{is_on_files, word_in_place, is_in_some, place_lines};
ghost use Rattle.ss_prompt.specs.ConsoleWords.{name_lines, console_words};

use crate::completions::{push_attributes, push_names, push_sets, push_word};
use crate::pieces::next_word;
use crate::table::{Form, forms};
use ss_program::Program;
use std::alloc::AllocError;

/// Whether a row that begins with this word is on files: ssdb alone takes these commands.
fn is_on_files(word: &[u8]) -> bool
    ensures { result ≡ is_on_files word.now }
{
    word == b"LOG".as_slice() || word == b"RELOAD".as_slice()
}

/// The first word of a row, if the console takes its commands, or the word after the first.
fn word_in_place(is_first: bool, form: &Form) -> Option<&'static [u8]>
    ensures { option_map (λ word. word.now) result ≡ word_in_place is_first (form_of form.now) }
{
    let (first, rest) = next_word(form.0)?;
    if !is_first {
        let (second, _) = next_word(rest)?;
        return Some(second);
    }
    if is_on_files(first) {
        return None;
    }
    Some(first)
}

/// Whether some row has a word in this place.
fn is_in_some(is_first: bool, word: &[u8], mut rows: &'static [Form]) -> bool
    ensures { result ≡ is_in_some is_first word.now (forms_of rows.entry.now) }
{
    while let [form, rest @ ..] = rows {
        if let Some(other) = word_in_place(is_first, form)
            && other == word
        {
            return true;
        }
        rows = rest;
    }
    false
}

/// Appends a line for the word in this place of each row, but for a word that comes again.
fn push_places(
    text: &mut Vec<u8>,
    is_first: bool,
    mut rows: &'static [Form],
) -> Result<(), AllocError>
    ensures { OnOk result (text.new.items
        ≡ text.old.items ++ place_lines is_first (forms_of rows.entry.now)) }
{
    while let [form, rest @ ..] = rows {
        if let Some(word) = word_in_place(is_first, form)
            && !is_in_some(is_first, word, rest)
        {
            push_word(text, word)?;
        }
        rows = rest;
    }
    Ok(())
}

/// Appends the names of a program, with the locals of a section, each on a line.
fn push_names_in(text: &mut Vec<u8>, program: &Program, section: usize) -> Result<(), AllocError>
    ensures { OnOk result (text.new.items ≡ text.old.items ++ name_lines program.now section) }
{
    push_names(text, &program.globals)?;
    push_attributes(text, &program.classes)?;
    push_sets(text, &program.sets)?;
    push_names(text, program.locals(section))
}

/// Appends the words that may be first in a line of the console (docs/EDITORS.md), or those that may
/// be after another, each on a line: the words of the table of the commands, and after another word
/// the names of a program, with the locals of a section. A name in several tables is appended for
/// each of them.
///
/// `AllocError` if a growth was refused; then the text that was appended does not count.
pub fn push_console_words(
    text: &mut Vec<u8>,
    program: &Program,
    section: usize,
    is_first: bool,
) -> Result<(), AllocError>
    ensures { OnOk result (text.new.items
        ≡ text.old.items ++ console_words program.now section is_first) }
{
    push_places(text, is_first, forms())?;
    if is_first {
        return Ok(());
    }
    push_names_in(text, program, section)
}

//! The words that may be in a line, for programs that complete words.
ghost use Rattle.std.specs.Prelude.{◌≡◌, ◌++◌, ◌∷◌, [], OnOk};
ghost use Rattle.ss_debug.specs.CommandLines.{command_words};
ghost use Rattle.ss_prompt.specs.Completions.{word_lines, attribute_lines, set_lines, section_lines};
ghost use Rattle.ss_prompt.specs.Table.{forms_of};
ghost use Rattle.ss_prompt.specs.Completions.{is_last_of_some, row_lines, command_lines, completions};

use crate::pieces::next_word;
use crate::table::{Form, forms, last_word};
use ss_program::{Class, Name, Program, Section, Set};
use std::alloc::AllocError;

/// The words that are in no place of the table: WHEN after a place, and READ and FROM, which ssdb
/// reads.
const OTHER_WORDS: &[u8] = b"WHEN READ FROM";

/// Appends a word, and the end of its line.
pub(crate) fn push_word(text: &mut Vec<u8>, word: &[u8]) -> Result<(), AllocError>
    ensures { OnOk result (text.new.items ≡ text.old.items ++ word.now ++ 10 ∷ []) }
{
    text.extend_from_slice(word)?;
    text.extend_from_slice(b"\n")
}

/// Appends a line for each word of a table.
fn push_table(text: &mut Vec<u8>, table: &[u8]) -> Result<(), AllocError>
    ensures { OnOk result (text.new.items
        ≡ text.old.items ++ word_lines (command_words table.now)) }
{
    let mut rest = table;
    while let Some((word, more)) = next_word(rest) {
        push_word(text, word)?;
        rest = more;
    }
    Ok(())
}

/// Appends a line for each name.
pub(crate) fn push_names(text: &mut Vec<u8>, mut names: &[Name]) -> Result<(), AllocError>
    ensures { OnOk result (text.new.items ≡ text.old.items ++ word_lines names.entry.now) }
{
    while let [name, rest @ ..] = names {
        push_word(text, &name.bytes)?;
        names = rest;
    }
    Ok(())
}

/// Appends a line for each attribute of some classes.
pub(crate) fn push_attributes(text: &mut Vec<u8>, mut classes: &[Class]) -> Result<(), AllocError>
    ensures { OnOk result (text.new.items ≡ text.old.items ++ attribute_lines classes.entry.now) }
{
    while let [class, rest @ ..] = classes {
        push_names(text, &class.attributes)?;
        classes = rest;
    }
    Ok(())
}

/// Appends a line for each set.
pub(crate) fn push_sets(text: &mut Vec<u8>, mut sets: &[Set]) -> Result<(), AllocError>
    ensures { OnOk result (text.new.items ≡ text.old.items ++ set_lines sets.entry.now) }
{
    while let [set, rest @ ..] = sets {
        push_word(text, &set.name.bytes)?;
        sets = rest;
    }
    Ok(())
}

/// Appends a line for each section, and one for each of its locals.
fn push_sections(text: &mut Vec<u8>, mut sections: &[Section]) -> Result<(), AllocError>
    ensures { OnOk result (text.new.items ≡ text.old.items ++ section_lines sections.entry.now) }
{
    while let [section, rest @ ..] = sections {
        push_word(text, &section.name.bytes)?;
        push_names(text, &section.locals)?;
        sections = rest;
    }
    Ok(())
}

/// Whether a word is the last of some row.
fn is_last_of_some(word: &[u8], mut rows: &'static [Form]) -> bool
    ensures { result ≡ is_last_of_some word.now (forms_of rows.entry.now) }
{
    while let [form, rest @ ..] = rows {
        if last_word(form) == word {
            return true;
        }
        rows = rest;
    }
    false
}

/// Appends a line for the last word of each row, but for a word that comes again.
fn push_rows(text: &mut Vec<u8>, mut rows: &'static [Form]) -> Result<(), AllocError>
    ensures { OnOk result (text.new.items ≡ text.old.items ++ row_lines (forms_of rows.entry.now)) }
{
    while let [form, rest @ ..] = rows {
        let word = last_word(form);
        if !is_last_of_some(word, rest) {
            push_word(text, word)?;
        }
        rows = rest;
    }
    Ok(())
}

/// Appends the words of the commands, each on a line.
fn push_commands(text: &mut Vec<u8>) -> Result<(), AllocError>
    ensures { OnOk result (text.new.items ≡ text.old.items ++ command_lines) }
{
    push_rows(text, forms())?;
    push_table(text, OTHER_WORDS)
}

/// Appends the words that may be in a line of the prompt (docs/PROMPT.md), each on a line: those
/// of the commands, and the names of a program in the order of its tables. A name in several tables
/// is appended for each of them.
///
/// `AllocError` if a growth was refused; then the text that was appended does not count.
pub fn push_completions(text: &mut Vec<u8>, program: &Program) -> Result<(), AllocError>
    ensures { OnOk result (text.new.items ≡ text.old.items ++ completions program.now) }
{
    push_commands(text)?;
    push_names(text, &program.globals)?;
    push_attributes(text, &program.classes)?;
    push_sets(text, &program.sets)?;
    push_sections(text, &program.sections)
}

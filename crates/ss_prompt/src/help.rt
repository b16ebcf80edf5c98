//! HELP: the wording is in the table of the commands.
ghost use Rattle.std.specs.Prelude.{◌≡◌, ◌++◌, ◌∷◌, [], codes, OnOk};
ghost use Rattle.ss_prompt.specs.Help.{all_rows, rows_of, help_or_none, help_said};
ghost use Rattle.ss_prompt.specs.Table.{forms, forms_of};

use crate::table::{Form, begins_with, forms};
use ss_debug::Name;
use std::alloc::AllocError;

/// Appends a row.
fn push_row(text: &mut Vec<u8>, row: &'static [u8]) -> Result<(), AllocError>
    ensures { OnOk result (text.new.items ≡ text.old.items ++ row.now ++ 10 ∷ []) }
{
    text.extend_from_slice(row)?;
    text.extend_from_slice(b"\n")
}

/// Appends all rows.
fn push_all(text: &mut Vec<u8>, mut rows: &'static [Form]) -> Result<(), AllocError>
    ensures { OnOk result (text.new.items ≡ text.old.items
        ++ all_rows (forms_of rows.entry.now)) }
{
    while let [form, rest @ ..] = rows {
        push_row(text, form.2)?;
        rows = rest;
    }
    Ok(())
}

/// Appends the rows of this word.
pub(crate) fn push_rows_of(
    text: &mut Vec<u8>,
    word: &[u8],
    mut rows: &'static [Form],
) -> Result<(), AllocError>
    ensures { OnOk result (text.new.items ≡ text.old.items
        ++ rows_of word.now (forms_of rows.entry.now)) }
{
    while let [form, rest @ ..] = rows {
        if begins_with(form, word) {
            push_row(text, form.2)?;
        }
        rows = rest;
    }
    Ok(())
}

/// Appends that there is no help on a word.
fn push_no_help(text: &mut Vec<u8>, word: &[u8]) -> Result<(), AllocError>
    ensures { OnOk result (text.new.items
        ≡ text.old.items ++ codes "NO HELP ON " ++ word.now ++ 10 ∷ []) }
{
    text.extend_from_slice(b"NO HELP ON ")?;
    text.extend_from_slice(word)?;
    text.extend_from_slice(b"\n")
}

/// Appends the answer to HELP on a word.
fn push_help_on(text: &mut Vec<u8>, word: &[u8]) -> Result<(), AllocError>
    ensures { OnOk result (text.new.items
        ≡ text.old.items ++ help_or_none word.now (rows_of word.now forms)) }
{
    let length = text.len();
    push_rows_of(text, word, forms())?;
    if length < text.len() {
        return Ok(());
    }
    push_no_help(text, word)
}

/// Appends the answer to HELP.
#[tactic(auto, unfolding(crate::specs::Help::help_said))]
pub(crate) fn push_help(text: &mut Vec<u8>, word: Option<Name>) -> Result<(), AllocError>
    ensures { OnOk result (text.new.items ≡ text.old.items ++ help_said word) }
{
    match word {
        None => push_all(text, forms()),
        Some(word) => push_help_on(text, word.as_slice()),
    }
}

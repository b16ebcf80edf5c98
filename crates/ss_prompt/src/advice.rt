//! The answer to a line that is no command: the forms of its first word, or the nearest words.
ghost use Rattle.std.specs.Prelude.{◌≡◌, ◌++◌, [], false, OnOk};
ghost use Rattle.std.specs.Char.{is_ascii_digit};
ghost use Rattle.std.specs.List.{filter, list_all};
ghost use Rattle.ss_debug.specs.CommandLines.{command_words};
ghost use Rattle.ss_prompt.specs.Advice.{verb_of, has_number, near_text, near_words, range_text};
ghost use Rattle.ss_prompt.specs.Advice.{blank_words, forms_or_near, advice, unread_text};
ghost use Rattle.ss_prompt.specs.Cuts.{begins};
ghost use Rattle.ss_prompt.specs.Help.{rows_of};
ghost use Rattle.ss_prompt.specs.Table.{forms, forms_of, words_at};

use crate::cuts::{begins, first_begun, word_in};
use crate::help::push_rows_of;
use crate::line::name_of_word;
use crate::pieces::next_word;
use crate::table::{Form, forms};
use ss_debug::Name;
use std::alloc::AllocError;

/// How many letters of a word are compared to find the nearest words.
const NEAR_LETTERS: usize = 2;

/// The first word of a line, if it may be a name.
pub(crate) fn verb_of(line: &[u8]) -> Option<Name>
    ensures { result ≡ verb_of (command_words line.now) }
{
    let (word, _) = next_word(line)?;
    name_of_word(word)
}

/// Whether a word is digits only.
fn is_number(word: &[u8]) -> bool
    ensures { result ≡ list_all is_ascii_digit word.now }
{
    word.iter().all(|b| b.is_ascii_digit())
}

/// Whether some word of a line is digits only.
pub(crate) fn has_number(line: &[u8]) -> bool
    ensures { result ≡ has_number (command_words line.now) }
{
    let mut rest = line;
    while let Some((word, more)) = next_word(rest) {
        if is_number(word) {
            return true;
        }
        rest = more;
    }
    false
}

/// Appends that HELP lists the commands.
fn push_nothing_near(text: &mut Vec<u8>) -> Result<(), AllocError>
    ensures { OnOk result (text.new.items ≡ text.old.items ++ near_text []) }
{
    text.extend_from_slice(b"HELP SHOWS THE COMMANDS.\n")
}

/// Appends the words that begin with the first letters of a word, or that HELP lists the commands.
fn push_near(text: &mut Vec<u8>, word: &[u8]) -> Result<(), AllocError>
    ensures { OnOk result (text.new.items
        ≡ text.old.items ++ near_text (near_words word.now)) }
{
    let head = &word[..word.len().min(NEAR_LETTERS)];
    if first_begun(false, b"", head, forms()).is_none() {
        return push_nothing_near(text);
    }
    text.extend_from_slice(b"NEAREST:")?;
    push_begun(text, head, forms())?;
    text.extend_from_slice(b"\n")
}

/// Appends the first words of some rows that begin so, each after a blank.
fn push_begun(text: &mut Vec<u8>, head: &[u8], mut rows: &'static [Form]) -> Result<(), AllocError>
    ensures { OnOk result (text.new.items ≡ text.old.items
        ++ blank_words (filter (begins head.now) (words_at false [] (forms_of rows.entry.now)))) }
{
    while let [form, rest @ ..] = rows {
        if let Some(word) = word_in(false, b"", form)
            && begins(head, word)
        {
            text.extend_from_slice(b" ")?;
            text.extend_from_slice(word)?;
        }
        rows = rest;
    }
    Ok(())
}

/// Appends the range of numbers, if there is a number.
fn push_range(text: &mut Vec<u8>, is_numbered: bool) -> Result<(), AllocError>
    ensures { OnOk result (text.new.items ≡ text.old.items ++ range_text is_numbered) }
{
    if !is_numbered {
        return Ok(());
    }
    text.extend_from_slice(
        b"n and l are from 1 to 1000000; p, t and k are from 0 to 9223372036854775807\n",
    )
}

/// Appends the forms of a word and the range of numbers, or the nearest words.
fn push_forms(text: &mut Vec<u8>, word: &[u8], is_numbered: bool) -> Result<(), AllocError>
    ensures { OnOk result (text.new.items ≡ text.old.items
        ++ forms_or_near word.now is_numbered (rows_of word.now forms)) }
{
    let length = text.len();
    push_rows_of(text, word, forms())?;
    if length < text.len() {
        return push_range(text, is_numbered);
    }
    push_near(text, word)
}

/// Appends the advice on a first word.
fn push_advice(text: &mut Vec<u8>, word: Option<Name>, is_numbered: bool) -> Result<(), AllocError>
    ensures { OnOk result (text.new.items ≡ text.old.items ++ advice word is_numbered) }
{
    match word {
        None => push_nothing_near(text),
        Some(word) => push_forms(text, word.as_slice(), is_numbered),
    }
}

/// Appends the answer to a line that is no command.
#[tactic(auto, unfolding(crate::specs::Advice::unread_text))]
pub(crate) fn push_unread(
    text: &mut Vec<u8>,
    word: Option<Name>,
    is_numbered: bool,
) -> Result<(), AllocError>
    ensures { OnOk result (text.new.items ≡ text.old.items ++ unread_text word is_numbered) }
{
    text.extend_from_slice(b"BAD COMMAND\n")?;
    push_advice(text, word, is_numbered)
}

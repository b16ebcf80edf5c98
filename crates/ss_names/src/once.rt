//! Names that occur once.
ghost use Rattle.std.specs.Prelude.{◌≡◌, ◌++◌, OnOk, map};
ghost use Rattle.ss_words.specs.Plain.{plain_at};
ghost use Rattle.ss_names.specs.Here.{at_start};
ghost use Rattle.ss_names.specs.Saying.{name_text, number_text, warning_line};
ghost use Rattle.ss_names.specs.Warnings as spec;

use crate::collected::here_behind;
use crate::here::Here;
use crate::language::is_of_language;
use crate::roles::may_occur_once;
use itoa::Buffer;
use ss_program::NameCounts;
use ss_words::{Plain, PlainWord};
use std::alloc::AllocError;

/// The text about a name that occurs once. The definitions read it too.
pub const ONCE: &[u8] = b" occurs only here.\n";

/// Appends a line, a name and the text about it.
pub fn push_warning(
    text: &mut Vec<u8>,
    line: usize,
    name: &[u8],
    said: &[u8],
) -> Result<(), AllocError>
    ensures { OnOk result (text.new.items
        ≡ text.old.items ++ warning_line line name.now said.now) }
{
    let mut buffer = Buffer::new();
    text.extend_from_slice(b"Line ")?;
    text.extend_from_slice(buffer.format(line).as_bytes())?;
    text.extend_from_slice(b": ")?;
    text.extend_from_slice(name)?;
    text.extend_from_slice(said)
}

/// Appends the text before a number, the number, and the text after it.
#[tactic(auto, unfolding(crate::specs::Saying::number_text))]
pub fn push_number(
    text: &mut Vec<u8>,
    before: &[u8],
    number: usize,
    behind: &[u8],
) -> Result<(), AllocError>
    ensures { OnOk result (text.new.items
        ≡ text.old.items ++ number_text before.now number behind.now) }
{
    let mut buffer = Buffer::new();
    text.extend_from_slice(before)?;
    text.extend_from_slice(buffer.format(number).as_bytes())?;
    text.extend_from_slice(behind)
}

/// Appends the text before a name, and the name.
#[tactic(auto, unfolding(crate::specs::Saying::name_text))]
pub fn push_name_behind(text: &mut Vec<u8>, before: &[u8], name: &[u8]) -> Result<(), AllocError>
    ensures { OnOk result (text.new.items
        ≡ text.old.items ++ name_text before.now name.now) }
{
    text.extend_from_slice(before)?;
    text.extend_from_slice(name)
}

/// Whether a name occurs once, where it may not well do so.
#[tactic(auto, unfolding(crate::specs::Warnings::is_once))]
fn is_once(names: &NameCounts, here: Here, name: &[u8]) -> bool
    ensures { result ≡ spec.is_once names.now here name.now }
{
    !may_occur_once(here) && names.count(name) == 1 && !is_of_language(name)
}

/// Appends the warning about a word, if it is such a name.
fn push_once_word(
    text: &mut Vec<u8>,
    names: &NameCounts,
    here: Here,
    word: &PlainWord<'_>,
) -> Result<(), AllocError>
    ensures { OnOk result (text.new.items
        ≡ text.old.items ++ spec.once_word names.now here (plain_at word.now)) }
{
    let Plain::Name(name) = word.kind() else {
        return Ok(());
    };
    if is_once(names, here, name.bytes()) {
        return push_warning(text, word.line(), name.bytes(), ONCE);
    }
    Ok(())
}

/// Appends each name of these words that occurs once, unless it may well do so, with its line.
#[tactic(auto, unfolding(crate::specs::Warnings::once_text))]
pub fn push_once(
    text: &mut Vec<u8>,
    names: &NameCounts,
    words: &[PlainWord<'_>],
) -> Result<(), AllocError>
    ensures { OnOk result (text.new.items
        ≡ text.old.items ++ spec.once_text names.now at_start (map plain_at words.now)) }
{
    let mut here = Here::at_start();
    let mut rest = words;
    while let [word, behind @ ..] = rest {
        push_once_word(text, names, here, word)?;
        here = here_behind(here, word, behind);
        rest = behind;
    }
    Ok(())
}

//! The caret below the name that is wrong, under the line on which it is.
ghost use Rattle.std.specs.Prelude.{◌≡◌, ◌++◌, OnOk, Some, map, None};
ghost use Rattle.ss_words.specs.Plain.{plain_at};
ghost use Rattle.ss_names.specs.Carets as spec;
ghost use Rattle.ss_names.specs.Here.{at_start};

use crate::collected::here_at;
use crate::here::Here;
use crate::position::opens;
use crate::spoken::Spoken;
use ss_check::{Reason, Wrong};
use ss_columns::{Place, first_bytes, line_of, place_of, push_caret, push_number, push_source};
use ss_words::{Plain, PlainWord, Words};
use std::alloc::AllocError;

/// Which word of a statement is wrong, among those of one name.
#[derive(Clone, Copy)]
enum Which {
    First,
    Last,
    /// The first one directly before a parenthesis.
    Opened,
}

/// The word of its name that a reason is about.
fn which_word(reason: Reason) -> Which
    ensures { result ≡ spec.which_word reason }
{
    match reason {
        Reason::DeclaredTwice
        | Reason::DisciplinedTwice
        | Reason::BrokenTwice
        | Reason::ExternalTwice
        | Reason::ParameterTwice
        | Reason::OwnedTwice
        | Reason::JoinedTwice
        | Reason::OrderedTwice => Which::Last,
        Reason::WrongUse => Which::Opened,
        _ => Which::First,
    }
}

/// Whether a word is this name, in a statement that begins on its line, or on that line itself.
fn is_spoken(spoken: Spoken<'_>, here: Here, word: &PlainWord<'_>) -> bool
    ensures { result ≡ spec.is_spoken spoken.entry.name.now spoken.entry.line here
        (plain_at word.now) }
{
    let is_there = word.line() == spoken.line || here.line == spoken.line;
    match word.kind() {
        Plain::Name(name) => is_there && name.bytes() == spoken.name,
        _ => false,
    }
}

/// Whether a word before these can be the one that is wrong.
fn fits(which: Which, behind: &[PlainWord<'_>]) -> bool
    ensures { result ≡ spec.fits which (map plain_at behind.now) }
{
    match which {
        Which::Opened => opens(behind),
        Which::First | Which::Last => true,
    }
}

/// The number of the wrong word, by the one found before and a further one.
fn found_with(which: Which, found: Option<u32>, number: u32) -> u32
    ensures { result ≡ spec.found_with which found number }
{
    match which {
        Which::Last => number,
        Which::First | Which::Opened => found.unwrap_or(number),
    }
}

/// The number of the wrong word of a name, in the statements of a line, from 0, if there is one.
#[tactic(auto, unfolding(crate::specs::Carets::number_of))]
fn number_of(which: Which, spoken: Spoken<'_>, words: &[PlainWord<'_>]) -> Option<u32>
    ensures { result ≡ spec.number_of which spoken.entry.name.now spoken.entry.line None at_start
        (map plain_at words.now) }
{
    let mut found = None;
    let mut here = Here::at_start();
    let mut rest = words;
    while let [word, behind @ ..] = rest {
        let at = here_at(here, word);
        if is_spoken(spoken, at, word) && fits(which, behind) {
            found = Some(found_with(which, found, word.index));
        }
        here = at.behind(word.kind(), word.line(), behind);
        rest = behind;
    }
    found
}

/// The number of the word of a name that a reason is about; if none of them opens a parenthesis, as
/// it should, that of the last one.
fn wrong_number(reason: Reason, spoken: Spoken<'_>, words: &[PlainWord<'_>]) -> Option<u32>
    ensures { result ≡ spec.wrong_number reason spoken.entry.name.now spoken.entry.line
        (map plain_at words.now) }
{
    match number_of(which_word(reason), spoken, words) {
        Some(number) => Some(number),
        None => number_of(Which::Last, spoken, words),
    }
}

/// The number of the word that is wrong, if what is wrong is a name of a statement on this line.
pub fn wrong_word(words: &[PlainWord<'_>], line: usize, wrong: &Wrong) -> Option<u32>
    ensures { result
        ≡ spec.wrong_word (map plain_at words.now) line wrong.now.reason wrong.now.name }
{
    match &wrong.name {
        Some(name) => {
            let name = name.bytes();
            wrong_number(wrong.reason, Spoken { name, line }, words)
        }
        None => None,
    }
}

/// Appends the caret at a column below a line of the model after its number and a mark.
fn push_line_caret(
    text: &mut Vec<u8>,
    model: &[u8],
    line: usize,
    column: usize,
) -> Result<(), AllocError>
    ensures { OnOk result (text.new.items
        ≡ text.old.items ++ spec.line_caret model.now line (Some column)) }
{
    let mut mark = Vec::new(*text.allocator());
    push_number(&mut mark, line)?;
    mark.extend_from_slice(b"> ")?;
    push_caret(
        text,
        &mark,
        first_bytes(line_of(model, line), column.saturating_sub(1)),
    )
}

/// Appends the caret at a place, if it has a column, to follow a line; after the line of the place,
/// if that is another one.
fn push_place_caret(
    text: &mut Vec<u8>,
    model: &[u8],
    line: usize,
    place: Place,
) -> Result<(), AllocError>
    ensures { OnOk result (text.new.items
        ≡ text.old.items ++ spec.place_caret model.now line place.line place.column) }
{
    match place.column {
        None => Ok(()),
        Some(column) if place.line == line => push_line_caret(text, model, line, column),
        Some(_) => push_source(*text.allocator(), text, model, place),
    }
}

/// Appends the caret below a word, if there is one, to follow a line.
pub fn push_word_caret(
    text: &mut Vec<u8>,
    model: &[u8],
    words: &Words,
    line: usize,
    number: Option<u32>,
) -> Result<(), AllocError>
    ensures { OnOk result (text.new.items ≡ text.old.items
        ++ spec.word_caret model.now words.now line number) }
{
    let Some(number) = number else {
        return Ok(());
    };
    let place = place_of(*text.allocator(), model, words, number as usize)?;
    push_place_caret(text, model, line, place)
}

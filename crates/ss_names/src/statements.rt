//! The text about a breach of the checker's rules that is about no name, but about a statement.
ghost use Rattle.std.specs.Prelude.{◌≡◌, ◌++◌, OnOk, map, option_map};
ghost use Rattle.ss_words.specs.Plain.{plain_at};
ghost use Rattle.ss_words.specs.PlainRules.{mark_in};
ghost use Rattle.ss_names.specs.Here.{at_start};
ghost use Rattle.ss_names.specs.Landmarks.{no_section, section_at};
ghost use Rattle.ss_names.specs.Pictures as pictures;
ghost use Rattle.ss_names.specs.Statements as spec;

use crate::collected::here_at;
use crate::here::Here;
use crate::landmarks::{InSection, section_behind};
use crate::once::{push_name_behind, push_number};
use crate::pictures::{fields_in, first_picture, push_picture_text, value_count};
use crate::position::first_mark;
use ss_check::Reason;
use ss_words::{Mark, PlainWord, Reserved};
use std::alloc::{AllocError, Global};

/// Whether FOUND or NONE is here.
fn is_of_find(mark: Option<Mark>) -> bool
    ensures { result ≡ spec.is_of_find mark }
{
    matches!(
        mark,
        Some(Mark::Reserved(Reserved::Found | Reserved::NoneFound))
    )
}

fn is_find(word: Option<Reserved>) -> bool
    ensures { result ≡ spec.is_find word }
{
    matches!(word, Some(Reserved::Find))
}

/// Whether a reason is about the statement that this word begins.
fn is_about(reason: Reason, word: Reserved) -> bool
    ensures { result ≡ spec.is_about reason word }
{
    match reason {
        Reason::WrongPicture => matches!(word, Reserved::Print),
        Reason::SecondMain => matches!(word, Reserved::Main),
        Reason::SecondPriority => matches!(word, Reserved::Priority),
        Reason::StartOutsideMain => matches!(word, Reserved::Start),
        Reason::WithoutFind => matches!(word, Reserved::If),
        _ => false,
    }
}

/// Whether a reason is about the statement that a word of the text begins.
fn is_about_word(reason: Reason, word: &PlainWord<'_>) -> bool
    ensures { result ≡ spec.is_about_mark reason (mark_in (plain_at word.now).word) }
{
    match word.kind().mark() {
        Some(Mark::Reserved(reserved)) => is_about(reason, reserved),
        _ => false,
    }
}

/// A statement, by what is before and in it.
#[derive(Clone, Copy)]
struct Beginning<'a> {
    /// Its line.
    line: usize,
    /// Its section.
    section: InSection<'a>,
    /// The place of its first word.
    here: Here,
    /// How many values it has after WITH.
    values: usize,
    /// The lines of its picture.
    picture: &'a [Vec<u8>],
}

/// Whether a statement on a line, before these words, is one that breaks the rule; the first MAIN
/// and PRIORITY are told whatever their lines.
fn is_told(
    reason: Reason,
    is_on_line: bool,
    section: InSection<'_>,
    here: Here,
    behind: &[PlainWord<'_>],
) -> bool
    ensures { result ≡ spec.is_told reason is_on_line (section_at section.entry) here
        (map plain_at behind.now) }
{
    match reason {
        Reason::StartOutsideMain => is_on_line && !section.name.is_empty(),
        Reason::WithoutFind => {
            is_on_line && is_of_find(first_mark(behind)) && !is_find(here.begun)
        }
        Reason::WrongPicture => is_on_line,
        _ => true,
    }
}

/// The first statement that a reason on a line is about.
#[tactic(auto, unfolding(crate::specs::Statements::statement))]
fn first_statement<'a>(
    reason: Reason,
    line: usize,
    words: &[PlainWord<'a>],
) -> Option<Beginning<'a>>
    ensures { option_map spec.spot_at result
        ≡ spec.statement reason line no_section at_start (map plain_at words.now) }
{
    let mut here = Here::at_start();
    let mut section = InSection { name: b"", head: 0 };
    let mut rest = words;
    while let [word, behind @ ..] = rest {
        let at = here_at(here, word);
        let is_on_line = word.line() == line;
        if is_about_word(reason, word) && is_told(reason, is_on_line, section, at, behind) {
            return Some(Beginning {
                line: word.line(),
                section,
                here: at,
                values: value_count(behind),
                picture: first_picture(behind),
            });
        }
        section = section_behind(section, at, word);
        here = at.behind(word.kind(), word.line(), behind);
        rest = behind;
    }
    None
}

/// Appends the section of a statement.
fn push_section(text: &mut Vec<u8>, section: InSection<'_>) -> Result<(), AllocError>
    ensures { OnOk result (text.new.items
        ≡ text.old.items ++ spec.section_text (section_at section.entry)) }
{
    push_name_behind(text, b"It is in the section ", section.name)?;
    push_number(text, b", line ", section.head, b".\n")
}

/// Appends the text about a PRINT with `values` values.
fn push_print(
    alloc: Global,
    text: &mut Vec<u8>,
    values: usize,
    picture: &[Vec<u8>],
) -> Result<(), AllocError>
    ensures { OnOk result (text.new.items ≡ text.old.items
        ++ pictures.picture_text values (pictures.fields_in (map (λ l. l.items) picture.now))) }
{
    let fields = fields_in(alloc, picture)?;
    push_picture_text(text, values, fields)
}

/// Appends the text about a statement that a reason is about.
fn push_statement(
    alloc: Global,
    text: &mut Vec<u8>,
    reason: Reason,
    at: Beginning<'_>,
) -> Result<(), AllocError>
    ensures { OnOk result (text.new.items
        ≡ text.old.items ++ spec.statement_text reason (spec.spot_at at.entry)) }
{
    match reason {
        Reason::WrongPicture => push_print(alloc, text, at.values, at.picture),
        Reason::SecondMain => push_number(text, b"The first MAIN is on line ", at.line, b".\n"),
        Reason::SecondPriority => {
            push_number(text, b"The first PRIORITY is on line ", at.line, b".\n")
        }
        Reason::StartOutsideMain => push_section(text, at.section),
        Reason::WithoutFind => push_number(
            text,
            b"The words that begin on line ",
            at.here.line,
            b" come before it, and are no FIND.\n",
        ),
        _ => Ok(()),
    }
}

/// Appends the text about the first statement that a reason on a line is about, or that no section
/// is MAIN.
pub fn push_place(
    alloc: Global,
    words: &[PlainWord<'_>],
    reason: Reason,
    line: usize,
    text: &mut Vec<u8>,
) -> Result<(), AllocError>
    ensures { OnOk result (text.new.items
        ≡ text.old.items ++ spec.place_text (map plain_at words.now) reason line) }
{
    if matches!(reason, Reason::NoMain) {
        return text.extend_from_slice(b"No section is MAIN.\n");
    }
    match first_statement(reason, line, words) {
        Some(at) => push_statement(alloc, text, reason, at),
        None => Ok(()),
    }
}

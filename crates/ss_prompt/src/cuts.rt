//! Words that are cut, made whole by the table of the commands.
ghost use Rattle.std.specs.Prelude.{◌≡◌, ◌<◌, ◌∷◌, [], length, option_map, IfSome, MatchOption};
ghost use Rattle.std.specs.List.{filter};
ghost use Rattle.ss_debug.specs.CommandLines.{command_words};
ghost use Rattle.ss_prompt.specs.Words.{after_words};
ghost use Rattle.ss_prompt.specs.Table.{forms, form_of, forms_of, is_end, is_asked_after, only_after};
ghost use Rattle.ss_prompt.specs.Table.{word_in, words_at, letters_of};
ghost use Rattle.ss_prompt.specs.Cuts.{begins, whole, word_of_letter, first_whole, further_whole, is_first};
ghost use Rattle.ss_prompt.specs.Cuts.{made_whole, whole_line, first_whole_line};

use crate::line::Line;
use crate::makes::Makes;
use crate::missing::is_declared;
use crate::pieces::{after_words, next_word};
use crate::table::{Form, Letter, forms, letters};
use ss_program::Program;

/// The fewest letters of a word that is cut.
const FEWEST_LETTERS: usize = 3;

/// Whether these are all the words of a row.
fn are_all(before: &[u8], form: &Form) -> bool
    ensures { result ≡ is_end (after_words (command_words before.now)
        (command_words form.now.0.now)) }
{
    match after_words(before, form.0) {
        Some(rest) => next_word(rest).is_none(),
        None => false,
    }
}

/// Whether a question may come after a text, by some rows.
fn is_asked_after(before: &[u8], mut rows: &'static [Form]) -> bool
    ensures { result ≡ is_asked_after before.now (forms_of rows.entry.now) }
{
    while let [form, rest @ ..] = rows {
        if form.1.asks() && are_all(before, form) {
            return true;
        }
        rows = rest;
    }
    false
}

/// The only word of a row after a text.
fn only_after(before: &[u8], form: &Form) -> Option<&'static [u8]>
    ensures { option_map (λ word. word.now) result ≡ only_after before.now (form_of form.now) }
{
    let rest = after_words(before, form.0)?;
    let (word, more) = next_word(rest)?;
    if next_word(more).is_some() {
        return None;
    }
    Some(word)
}

/// The word of a row that may come after a text; if a question may come there, it is the first word
/// of one.
pub(crate) fn word_in(is_asked: bool, before: &[u8], form: &Form) -> Option<&'static [u8]>
    ensures { option_map (λ word. word.now) result
        ≡ word_in is_asked before.now form.now.1 (form_of form.now) }
{
    match (is_asked, form.1) {
        (_, Makes::Also) => None,
        (true, Makes::Asked) => only_after(b"SHOW", form),
        (true, _) => None,
        (false, _) => only_after(before, form),
    }
}

/// Whether a word is the beginning of another.
pub(crate) fn begins(word: &[u8], other: &[u8]) -> bool
    ensures { result ≡ begins word.now other.now }
{
    word.len() <= other.len() && &other[..word.len()] == word
}

/// The first word of some rows that may come after a text and that a word begins, and the rows
/// after its own.
pub(crate) fn first_begun<'a>(
    is_asked: bool,
    before: &[u8],
    word: &[u8],
    mut rows: &'a [Form],
) -> Option<(&'static [u8], &'a [Form])>
    ensures words { MatchOption result
        (filter (begins word.now) (words_at is_asked before.now (forms_of rows.entry.now)) ≡ [])
        (λ r. filter (begins word.now) (words_at is_asked before.now (forms_of rows.entry.now))
        ≡ r.0.now ∷ filter (begins word.now) (words_at is_asked before.now (forms_of r.1.now))) }
    ensures less { IfSome result (λ r. length r.1.now < length rows.entry.now) }
{
    while let [form, rest @ ..] = rows {
        rows = rest;
        if let Some(other) = word_in(is_asked, before, form)
            && begins(word, other)
        {
            return Some((other, rest));
        }
    }
    None
}

/// The only word after a text that a word of three letters or more begins, which it means; else the
/// word as it is.
fn whole<'a>(is_asked: bool, before: &[u8], word: &'a [u8]) -> &'a [u8]
    ensures { result.now ≡ whole is_asked before.now word.now }
{
    if word.len() < FEWEST_LETTERS {
        return word;
    }
    let Some((other, rest)) = first_begun(is_asked, before, word, forms()) else {
        return word;
    };
    if first_begun(is_asked, before, word, rest).is_some() {
        return word;
    }
    other
}

/// The word that a letter means at the beginning of a line, by some rows; another word as it is.
fn word_of_letter<'a>(word: &'a [u8], mut rows: &'static [Letter]) -> &'a [u8]
    ensures { result.now ≡ word_of_letter word.now (letters_of rows.entry.now) }
{
    while let [row, rest @ ..] = rows {
        if row.0 == word {
            return row.1;
        }
        rows = rest;
    }
    word
}

/// The first word of a line made whole.
fn first_whole(word: &[u8]) -> &[u8]
    ensures { result.now ≡ first_whole word.now }
{
    whole(false, b"", word_of_letter(word, letters()))
}

/// Another word made whole by the text before it. A name of the program stays as it is in a
/// question, and after SHOW.
fn further_whole<'a>(program: &Program, before: &[u8], word: &'a [u8]) -> &'a [u8]
    ensures { result.now
        ≡ further_whole program.now (is_asked_after before.now forms) before.now word.now }
{
    let is_asked = is_asked_after(before, forms());
    if (is_asked || before == b"SHOW".as_slice()) && is_declared(program, word) {
        return word;
    }
    whole(is_asked, before, word)
}

/// Whether a first word of a line comes after a text: after none, and after HELP.
fn is_first(before: &[u8]) -> bool
    ensures { result ≡ is_first before.now }
{
    before == b"".as_slice() || before == b"HELP".as_slice()
}

/// A word made whole by the text before it.
fn made_whole<'a>(program: &Program, before: &[u8], word: &'a [u8]) -> &'a [u8]
    ensures { result.now ≡ made_whole program.now before.now word.now }
{
    if is_first(before) {
        return first_whole(word);
    }
    further_whole(program, before, word)
}

/// A line whose words are made whole, if it is no longer than a line may be.
#[tactic(auto, using(crate::proofs::Lines::whole_words))]
pub(crate) fn whole_line(program: &Program, line: &[u8]) -> Option<Line>
    ensures { result ≡ whole_line program.now line.now }
{
    let mut made = Line::new(b"")?;
    let mut rest = line;
    while let Some((word, more)) = next_word(rest) {
        let it = made_whole(program, made.as_slice(), word);
        made = made.with_word(it)?;
        rest = more;
    }
    Some(made)
}

/// A line whose first word is made whole, if it is no longer than a line may be.
#[tactic(auto, using(crate::proofs::Lines::too_long))]
pub(crate) fn first_whole_line(line: &[u8]) -> Option<Line>
    ensures { result ≡ first_whole_line line.now }
{
    let made = Line::new(b"")?;
    let Some((word, more)) = next_word(line) else {
        return Some(made);
    };
    let made = made.with_word(first_whole(word))?;
    made.with_words(more)
}

//! Reads the questions whose answers may change.
ghost use Rattle.std.specs.Prelude.{◌≡◌};
ghost use Rattle.ss_debug.specs.CommandLines.{command_words};
ghost use Rattle.ss_prompt.specs.Asked.{attribute_asked, count_asked, own_asked, asked_of};
ghost use Rattle.ss_prompt.specs.Asked.{question_in};

use crate::line::{command_behind, command_of_two_behind, only_name};
use crate::missing::{Missing, asked_of_program};
use crate::pieces::next_word;
use ss_debug::{Command, Question as PlainQuestion};
use ss_program::Program;
use ss_trace::Question;

/// `c k a`: an entity as SHOW takes it, and the name of an attribute.
fn attribute(what: &[u8], word: &[u8], rest: &[u8]) -> Option<Question>
    ensures { result ≡ attribute_asked what.now word.now (command_words rest.now) }
{
    let Command::Show(PlainQuestion::Entity(class, x)) = command_of_two_behind(b"SHOW", what, word)
    else {
        return None;
    };
    let name = only_name(rest)?;
    Some(Question::Attribute(class, x, name))
}

/// `COUNT s [k]`: a list as SHOW SET takes it.
fn count(what: &[u8], words: &[u8]) -> Option<Question>
    ensures { result ≡ count_asked what.now (command_words words.now) }
{
    if what != b"COUNT".as_slice() {
        return None;
    }
    match command_behind(b"SHOW SET", words) {
        Command::Show(PlainQuestion::Set(name, owner)) => Some(Question::Count(name, owner)),
        _ => None,
    }
}

/// The question that the words of a line ask that is none of docs/DEBUGGER.md.
pub(crate) fn own_asked(words: &[u8]) -> Option<Question>
    ensures { result ≡ own_asked (command_words words.now) }
{
    let (what, behind) = next_word(words)?;
    let (word, rest) = next_word(behind)?;
    match attribute(what, word, rest) {
        Some(question) => Some(question),
        None => count(what, behind),
    }
}

/// The question that the words of a line ask.
pub(crate) fn asked(words: &[u8]) -> Option<Question>
    ensures { result ≡ asked_of (command_words words.now) }
{
    match command_behind(b"SHOW", words) {
        Command::Show(question) => Some(Question::Shown(question)),
        _ => own_asked(words),
    }
}

/// That question as a program has its names, or which of them it hasn't.
pub(crate) fn question_in(program: &Program, words: &[u8]) -> Option<Result<Question, Missing>>
    ensures { result ≡ question_in program.now (command_words words.now) }
{
    let question = asked(words)?;
    Some(asked_of_program(program, question))
}

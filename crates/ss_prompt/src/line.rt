//! Lines that are made of words, and the debugger's commands in them.
ghost use Rattle.std.specs.Prelude.{◌≡◌, ◌<◌, ◌≤◌, ◌∷◌, [], length, fold, None, Some};
ghost use Rattle.ss_console.specs.declared.lines.TheConstants.{LONGEST_LINE};
ghost use Rattle.ss_debug.specs.CommandLines.{command_words};
ghost use Rattle.ss_prompt.specs.Words.{with_word, line_behind, command_or_bad, command_behind, only_name_of};

use crate::pieces::next_word;
use arrayvec::ArrayVec;
use ss_console::LONGEST_LINE;
use ss_debug::{Command, Name, Question, command};
use std::marker::Model;

/// A line that is being made. It keeps its bytes in place, so that it takes no memory.
#[derive(Drop)]
pub struct Line {
    bytes: ArrayVec<u8, LONGEST_LINE>,
}

impl Model for Line {
    ghost use Rattle.std.specs.Prelude.{ℕ, List};

    ghost Value = { List ℕ };

    ghost view = { λ l. l.bytes.items };
}

impl Line {
    /// A line of these bytes; none if they are more than a line may have.
    pub fn new(bytes: &[u8]) -> Option<Line>
        ensures fits { length bytes.now ≤ LONGEST_LINE → result ≡ Some bytes.now }
        ensures long { LONGEST_LINE < length bytes.now → result ≡ None }
    {
        let mut line = Line {
            bytes: ArrayVec::new(),
        };
        if line.bytes.try_extend_from_slice(bytes).is_err() {
            return None;
        }
        Some(line)
    }

    /// The line with one more word, if it is no longer than a line may be.
    #[tactic(auto, unfolding(crate::specs::Words::with_word))]
    pub fn with_word(self, word: &[u8]) -> Option<Line>
        ensures { result ≡ with_word (Some self) word.now }
    {
        let mut line = self;
        if !line.bytes.is_empty() && line.bytes.try_push(b' ').is_err() {
            return None;
        }
        if line.bytes.try_extend_from_slice(word).is_err() {
            return None;
        }
        Some(line)
    }

    /// The line with the words of another after its own, if it is no longer than a line may be.
    #[tactic(auto, using(crate::proofs::Lines::too_long))]
    pub fn with_words(self, rest: &[u8]) -> Option<Line>
        ensures { result ≡ fold with_word (Some self) (command_words rest.now) }
    {
        let mut line = self;
        let mut left = rest;
        while let Some((word, more)) = next_word(left) {
            line = line.with_word(word)?;
            left = more;
        }
        Some(line)
    }

    /// The line of the words of another, if it is no longer than a line may be.
    pub fn of_words(rest: &[u8]) -> Option<Line>
        ensures { result ≡ line_behind [] (command_words rest.now) }
    {
        let line = Line::new(b"")?;
        line.with_words(rest)
    }

    /// Its bytes.
    pub fn as_slice(&self) -> &[u8]
        ensures { result.now ≡ self.now }
    {
        self.bytes.as_slice()
    }
}

/// The debugger's command in a line, if it is no longer than a line may be.
pub(crate) fn command_in(line: Option<Line>) -> Command
    ensures { result ≡ command_or_bad line }
{
    match line {
        None => Command::Bad,
        Some(line) => command(line.as_slice()),
    }
}

/// The debugger's command in the words of a line after a beginning.
pub(crate) fn command_behind(head: &[u8], rest: &[u8]) -> Command
    requires { length head.now ≤ LONGEST_LINE }
    ensures { result ≡ command_behind head.now (command_words rest.now) }
{
    let Some(line) = Line::new(head) else {
        return Command::Bad;
    };
    command_in(line.with_words(rest))
}

/// The debugger's command in one word after a beginning.
pub(crate) fn command_of_word(head: &[u8], word: &[u8]) -> Command
    requires { length head.now ≤ LONGEST_LINE }
    ensures { result ≡ command_behind head.now (word.now ∷ []) }
{
    let Some(line) = Line::new(head) else {
        return Command::Bad;
    };
    command_in(line.with_word(word))
}

/// The name that a word is.
pub(crate) fn name_of_word(word: &[u8]) -> Option<Name>
    ensures { result ≡ only_name_of (word.now ∷ []) }
{
    match command_of_word(b"SHOW VAR", word) {
        Command::Show(Question::Variable(name)) => Some(name),
        _ => None,
    }
}

/// The debugger's command in two words after a beginning.
#[tactic(auto, using(crate::proofs::Lines::one_too_long))]
pub(crate) fn command_of_two_behind(head: &[u8], what: &[u8], word: &[u8]) -> Command
    requires { length head.now ≤ LONGEST_LINE }
    ensures { result ≡ command_behind head.now (what.now ∷ word.now ∷ []) }
{
    let Some(head) = Line::new(head) else {
        return Command::Bad;
    };
    let Some(first) = head.with_word(what) else {
        return Command::Bad;
    };
    command_in(first.with_word(word))
}

/// The name that is the only word of a line.
pub(crate) fn only_name(rest: &[u8]) -> Option<Name>
    ensures { result ≡ only_name_of (command_words rest.now) }
{
    match command_behind(b"SHOW VAR", rest) {
        Command::Show(Question::Variable(name)) => Some(name),
        _ => None,
    }
}

//! Command lines are read.
ghost use Rattle.std.specs.Prelude.{◌≡◌, ◌<◌, ◌≤◌, ◌-◌, ◌^◌, IfSome};
ghost use Rattle.ss_debug.specs.CommandLines.{command_words};
ghost use Rattle.ss_debug.specs.Command.{command_of, command_in_words, run_command, back_command, show_command};
ghost use Rattle.ss_debug.specs.Command.{only_number_of, bound_of, only_line_of, command_alone};
ghost use Rattle.ss_debug.specs.Command.{question_alone, question_of_two, question_of_three, entity_number};

use crate::commands::{Command, Movement, Question};
use crate::limits::{
    GREATEST_BOUND, GREATEST_ENTITY, GREATEST_KEPT, GREATEST_LINE, GREATEST_TIME, LONGEST_LINE,
};
use crate::name::Name;
use crate::pieces::{next_word, number};

/// The number from low to high that is the only word.
fn only_number(rest: &[u8], low: u64, high: u64) -> Option<u64>
    requires { high < 2 ^ 64 - 1 }
    ensures number { result ≡ only_number_of low high (command_words rest.now) }
    ensures within { IfSome result (λ n. n ≤ high) }
{
    let (word, more) = next_word(rest)?;
    if next_word(more).is_some() {
        return None;
    }
    number(word, low, high)
}

/// The bound after a movement, or another if there is no word; none if the word is no bound or not
/// the last one.
fn bound(rest: &[u8], otherwise: u64) -> Option<u64>
    ensures { result ≡ bound_of otherwise (command_words rest.now) }
{
    if next_word(rest).is_none() {
        return Some(otherwise);
    }
    only_number(rest, 1, GREATEST_BOUND)
}

/// The line that is the only word.
fn only_line(rest: &[u8]) -> Option<u32>
    ensures { result ≡ only_line_of (command_words rest.now) }
{
    let line = only_number(rest, 1, GREATEST_LINE)?;
    Some(line as u32)
}

/// A command that no word may follow, or `Bad`.
fn alone_or_bad(command: Command, rest: &[u8]) -> Command
    ensures { result ≡ command_alone command (command_words rest.now) }
{
    if next_word(rest).is_some() {
        return Command::Bad;
    }
    command
}

/// The command of the words after RUN.
fn run(rest: &[u8]) -> Command
    ensures { result ≡ run_command (command_words rest.now) }
{
    if let Some((word, more)) = next_word(rest)
        && word == b"TO".as_slice()
    {
        return only_number(more, 0, GREATEST_TIME).map_or(
            Command::Bad,
            |time| Command::Move(Movement::RunTo(time)),
        );
    }
    bound(rest, GREATEST_BOUND).map_or(Command::Bad, |n| Command::Move(Movement::Run(n)))
}

/// The command of the words after BACK.
fn back(rest: &[u8]) -> Command
    ensures { result ≡ back_command (command_words rest.now) }
{
    if let Some((word, more)) = next_word(rest) {
        if word == b"EVENT".as_slice() {
            return alone_or_bad(Command::Move(Movement::BackEvent), more);
        }
        if word == b"BREAK".as_slice() {
            return alone_or_bad(Command::Move(Movement::BackBreak), more);
        }
    }
    bound(rest, 1).map_or(Command::Bad, |n| Command::Move(Movement::Back(n)))
}

/// The question that is one word.
fn question_alone(what: &[u8]) -> Command
    ensures { result ≡ question_alone what.now }
{
    if what == b"CLOCK".as_slice() {
        return Command::Show(Question::Clock);
    }
    if what == b"WHERE".as_slice() {
        return Command::Show(Question::Where);
    }
    if what == b"EVENTS".as_slice() {
        return Command::Show(Question::Events);
    }
    if what == b"TAKEN".as_slice() {
        return Command::Show(Question::Taken);
    }
    if what == b"ENTRY".as_slice() {
        return Command::Show(Question::Entry);
    }
    if what == b"REPORT".as_slice() {
        return Command::Show(Question::Report);
    }
    Command::Bad
}

/// The number by which a word names an entity.
fn entity_number(word: &[u8]) -> Option<i64>
    ensures { result ≡ entity_number word.now }
{
    let number = number(word, 0, GREATEST_ENTITY)?;
    Some(number as i64)
}

/// The question that is two words: about the entity of a class if the second is a number.
fn question_of_two(what: &[u8], word: &[u8]) -> Command
    ensures { result ≡ question_of_two what.now word.now (entity_number word.now) }
{
    if let Some(x) = entity_number(word) {
        return Name::of(what).map_or(Command::Bad, |name| {
            Command::Show(Question::Entity(name, x))
        });
    }
    if what == b"VAR".as_slice() {
        return Name::of(word).map_or(Command::Bad, |name| {
            Command::Show(Question::Variable(name))
        });
    }
    if what == b"SET".as_slice() {
        return Name::of(word).map_or(Command::Bad, |name| {
            Command::Show(Question::Set(name, None))
        });
    }
    Command::Bad
}

/// The question that is three words: SET, a set and the number of an owner.
fn question_of_three(what: &[u8], word: &[u8], last: &[u8]) -> Command
    ensures { result ≡ question_of_three what.now word.now last.now }
{
    if what != b"SET".as_slice() {
        return Command::Bad;
    }
    let Some(name) = Name::of(word) else {
        return Command::Bad;
    };
    entity_number(last).map_or(Command::Bad, |x| {
        Command::Show(Question::Set(name, Some(x)))
    })
}

/// The command of the words after SHOW.
fn show(rest: &[u8]) -> Command
    ensures { result ≡ show_command (command_words rest.now) }
{
    let Some((what, rest)) = next_word(rest) else {
        return Command::Bad;
    };
    let Some((word, rest)) = next_word(rest) else {
        return question_alone(what);
    };
    let Some((last, rest)) = next_word(rest) else {
        return question_of_two(what, word);
    };
    if next_word(rest).is_some() {
        return Command::Bad;
    }
    question_of_three(what, word, last)
}

/// The command that the words of a line in upper case say.
#[tactic(auto, unfolding(crate::specs::Command::command_in_words))]
fn command_in_words(line: &[u8]) -> Command
    ensures { result ≡ command_in_words (command_words line.now) }
{
    let Some((verb, rest)) = next_word(line) else {
        return Command::Blank;
    };
    if verb == b"STEP".as_slice() {
        return bound(rest, 1).map_or(Command::Bad, |n| Command::Move(Movement::Step(n)));
    }
    if verb == b"RUN".as_slice() {
        return run(rest);
    }
    if verb == b"NEXT".as_slice() {
        return alone_or_bad(Command::Move(Movement::Next), rest);
    }
    if verb == b"BACK".as_slice() {
        return back(rest);
    }
    if verb == b"BREAK".as_slice() {
        return only_line(rest).map_or(Command::Bad, Command::Break);
    }
    if verb == b"CLEAR".as_slice() {
        return only_line(rest).map_or(Command::Bad, Command::Clear);
    }
    if verb == b"FORGET".as_slice() {
        return only_number(rest, 1, GREATEST_KEPT).map_or(Command::Bad, Command::Forget);
    }
    if verb == b"SHOW".as_slice() {
        return show(rest);
    }
    if verb == b"QUIT".as_slice() {
        return alone_or_bad(Command::Quit, rest);
    }
    Command::Bad
}

/// The command that a line says: letters in either case, words separated by blanks, tabs and
/// carriage returns. A line without words is `Blank`; one that is no command, or is longer than
/// `LONGEST_LINE`, is `Bad` (docs/DEBUGGER.md). It takes no memory.
#[tactic(auto, unfolding(crate::specs::Command::command_of), using(crate::proofs::Names::take_front))]
pub fn command(line: &[u8]) -> Command
    ensures { result ≡ command_of line.now }
{
    if line.len() > LONGEST_LINE {
        return match next_word(line) {
            None => Command::Blank,
            Some(_) => Command::Bad,
        };
    }
    let mut upper = [0u8; LONGEST_LINE];
    upper[..line.len()].copy_from_slice(line);
    upper[..line.len()].make_ascii_uppercase();
    command_in_words(&upper[..line.len()])
}

//! Reads the words after HISTORY.
ghost use Rattle.std.specs.Prelude.{◌≡◌, [], codes};
ghost use Rattle.ss_debug.specs.CommandLines.{command_words};
ghost use Rattle.ss_prompt.specs.Words.{line_behind, command_behind};
ghost use Rattle.ss_prompt.specs.Histories.{all_but_last, only_last, with_rows};
ghost use Rattle.ss_prompt.specs.Meant.{text_with_rows};

use crate::asked::question_in;
use crate::line::{Line, command_behind, command_of_word};
use crate::missing::Missing;
use crate::pieces::next_word;
use ss_debug::Command;
use ss_program::Program;
use ss_trace::Question;

/// How many rows HISTORY shows if no number is given.
pub const ROWS_UNLESS_SAID: u64 = 10;

/// A line of the words of another without the last, if it is no longer than a line may be.
#[tactic(auto, using(crate::proofs::Lines::too_long))]
fn all_but_last(line: &[u8]) -> Option<Line>
    ensures { result ≡ line_behind [] (all_but_last (command_words line.now)) }
{
    let mut made = Line::new(b"")?;
    let Some((first, behind)) = next_word(line) else {
        return Some(made);
    };
    let mut word = first;
    let mut rest = behind;
    while let Some((next, more)) = next_word(rest) {
        made = made.with_word(word)?;
        word = next;
        rest = more;
    }
    Some(made)
}

/// The command in the last word of a line after FORGET.
fn forget_last(line: &[u8]) -> Command
    ensures { result ≡ command_behind (codes "FORGET") (only_last (command_words line.now)) }
{
    let Some((first, behind)) = next_word(line) else {
        return command_behind(b"FORGET", line);
    };
    let mut word = first;
    let mut rest = behind;
    while let Some((next, more)) = next_word(rest) {
        word = next;
        rest = more;
    }
    command_of_word(b"FORGET", word)
}

/// A text without its last word, if that is a number of rows.
pub(crate) fn text_with_rows(text: &[u8]) -> Option<(Line, u64)>
    ensures { result ≡ text_with_rows text.now }
{
    let front = all_but_last(text)?;
    match forget_last(text) {
        Command::Forget(rows) => Some((front, rows)),
        _ => None,
    }
}

/// A question and, as its last word, a number of rows.
pub(crate) fn with_rows(program: &Program, words: &[u8]) -> Option<(Result<Question, Missing>, u64)>
    ensures { result ≡ with_rows program.now (command_words words.now) }
{
    let front = all_but_last(words)?;
    let question = question_in(program, front.as_slice())?;
    match forget_last(words) {
        Command::Forget(rows) => Some((question, rows)),
        _ => None,
    }
}

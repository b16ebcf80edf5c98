//! The words after BREAK: the name of a section, or a place and a condition.
ghost use Rattle.std.specs.Prelude.{◌≡◌};
ghost use Rattle.ss_debug.specs.CommandLines.{command_words};
ghost use Rattle.ss_prompt.specs.Reading.{when_at, when_command, break_words_command};

use crate::advice::has_number;
use crate::break_place::BreakPlace;
use crate::commands::PromptCommand;
use crate::line::{Line, command_of_word, name_of_word, only_name};
use crate::pieces::next_word;
use crate::read::placed;
use ss_debug::Command;
use ss_program::Program;

/// BREAK of a place, with a condition that a text may be.
fn when_at(place: BreakPlace, rest: &[u8], is_numbered: bool) -> Option<PromptCommand>
    ensures { result ≡ when_at place (command_words rest.now) is_numbered }
{
    let text = Line::of_words(rest)?;
    Some(PromptCommand::BreakWhen(place, text, is_numbered))
}

/// BREAK of a line or a section, with a condition that a text may be.
fn when_command(
    program: &Program,
    word: &[u8],
    rest: &[u8],
    is_numbered: bool,
) -> Option<PromptCommand>
    ensures { result
        ≡ when_command program.now word.now (command_words rest.now) is_numbered }
{
    match command_of_word(b"BREAK", word) {
        Command::Break(line) => {
            let command = when_at(BreakPlace::Line(line), rest, is_numbered)?;
            Some(placed(program, line, command))
        }
        _ => when_at(BreakPlace::Section(name_of_word(word)?), rest, is_numbered),
    }
}

/// The words after BREAK: the name of a section; or a line or the name of a section, WHEN and a
/// condition.
pub(crate) fn break_words(program: &Program, rest: &[u8]) -> Option<PromptCommand>
    ensures { result ≡ break_words_command program.now (command_words rest.now) }
{
    let (word, more) = next_word(rest)?;
    if let Some((when, behind)) = next_word(more)
        && when == b"WHEN".as_slice()
    {
        return when_command(program, word, behind, has_number(rest));
    }
    Some(PromptCommand::BreakSection(only_name(rest)?))
}

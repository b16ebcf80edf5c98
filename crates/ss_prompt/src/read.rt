//! Reads the lines of the prompt.
ghost use Rattle.std.specs.Prelude.{◌≡◌, [], drop};
ghost use Rattle.ss_debug.specs.CommandLines.{command_words};
ghost use Rattle.ss_prompt.specs.Reading.{own_of_whole, own_command_of, placed};
ghost use Rattle.ss_prompt.specs.Reading.{plain_meant, first_whole_command_of};
ghost use Rattle.ss_prompt.specs.Reading.{text_asked, show_value, unread_or_value, written_command, or_value};
ghost use Rattle.ss_prompt.specs.Manners.{words_before};
ghost use Rattle.ss_prompt.specs.Reading.{advised, plain_command_of, prompt_command_of};
ghost use Rattle.ss_prompt.specs.Places.{next_line};
ghost use Rattle.ss_prompt.specs.Words.{line_behind};

use crate::advice::{has_number, verb_of};
use crate::commands::PromptCommand;
use crate::cuts::{first_whole_line, whole_line};
use crate::line::{Line, command_in};
use crate::made::own_in_words;
use crate::manner::Manner;
use crate::pieces::next_word;
use crate::places::next_line;
use ss_console::LONGEST_LINE;
use ss_debug::{Command, Name, command};
use ss_program::Program;

/// A command on a line with a place, or the next line that has one.
pub(crate) fn placed(program: &Program, line: u32, command: PromptCommand) -> PromptCommand
    ensures { result ≡ placed command line (next_line program.now line) }
{
    let next = next_line(program, line as usize);
    if next == Some(line as usize) {
        return command;
    }
    PromptCommand::NoPlace(line, next)
}

/// A command of docs/DEBUGGER.md as it is meant at the prompt: BREAK needs a line with a place.
#[tactic(auto, unfolding(crate::specs::Reading::plain_meant))]
fn plain_meant(program: &Program, command: Command) -> PromptCommand
    ensures { result ≡ plain_meant program.now command }
{
    match command {
        Command::Break(line) => {
            placed(program, line, PromptCommand::Plain(Command::Break(line)))
        }
        other => PromptCommand::Plain(other),
    }
}

/// A command, or the advice on a line that is none.
fn advised(line: &[u8], command: Option<PromptCommand>) -> PromptCommand
    ensures { result ≡ advised (command_words line.now) command }
{
    match command {
        Some(command) => command,
        None => PromptCommand::Unread(verb_of(line), has_number(line)),
    }
}

/// The command in a line whose words are whole, if it is not too long.
fn own_of_whole(program: &Program, line: Option<Line>) -> PromptCommand
    ensures { result ≡ own_of_whole program.now line }
{
    let Some(line) = line else {
        return PromptCommand::Plain(Command::Bad);
    };
    let text = line.as_slice();
    match command(text) {
        Command::Bad => advised(text, own_in_words(program, text)),
        other => plain_meant(program, other),
    }
}

/// The words of a line after the first.
fn text_asked(line: &[u8]) -> Option<Line>
    ensures { result ≡ text_asked line.now }
{
    let rest = match next_word(line) {
        Some((_, rest)) => rest,
        None => line,
    };
    Line::of_words(rest)
}

/// SHOW of the words of a line after the first, if they are not too long.
fn show_value(line: &[u8], verb: Name, is_numbered: bool) -> PromptCommand
    ensures { result ≡ show_value verb is_numbered (text_asked line.now) }
{
    match text_asked(line) {
        Some(text) => PromptCommand::Value(text, is_numbered),
        None => PromptCommand::Unread(Some(verb), is_numbered),
    }
}

/// A line in upper case that is no command, with its first word; if that is SHOW, it may ask for the
/// value of an expression or a condition.
fn unread_or_value(line: &[u8], verb: Option<Name>, is_numbered: bool) -> PromptCommand
    ensures { result ≡ unread_or_value line.now verb is_numbered }
{
    match verb {
        None => PromptCommand::Unread(None, is_numbered),
        Some(verb) => {
            if verb.as_slice() == b"SHOW".as_slice() {
                show_value(line, verb, is_numbered)
            } else {
                PromptCommand::Unread(Some(verb), is_numbered)
            }
        }
    }
}

/// The words of a line after the first two.
fn behind_two(line: &[u8]) -> Option<Line>
    ensures { result ≡ line_behind [] (drop 2 (command_words line.now)) }
{
    let Some((_, rest)) = next_word(line) else {
        return Line::of_words(line);
    };
    match next_word(rest) {
        Some((_, more)) => Line::of_words(more),
        None => Line::of_words(rest),
    }
}

/// A command on the words of a line after the first ones, as they are written.
fn written_command(line: &[u8], manner: Manner, is_numbered: bool) -> PromptCommand
    ensures { result ≡ written_command manner is_numbered
        (line_behind [] (drop (words_before manner) (command_words line.now))) }
{
    let text = if manner.moves() {
        behind_two(line)
    } else {
        text_asked(line)
    };
    match text {
        Some(text) => PromptCommand::Meant(manner, text, is_numbered),
        None => PromptCommand::Plain(Command::Bad),
    }
}

/// The command of a line in upper case, if it is one; else what the line may ask for.
fn or_value(line: &[u8], command: PromptCommand) -> PromptCommand
    ensures { result ≡ or_value line.now command }
{
    match command {
        PromptCommand::Unread(verb, is_numbered) => unread_or_value(line, verb, is_numbered),
        PromptCommand::Meant(manner, _, is_numbered) => written_command(line, manner, is_numbered),
        other => other,
    }
}

/// The command in a line that is none of docs/DEBUGGER.md as it is written.
#[tactic(auto, unfolding(crate::specs::Reading::own_command_of), using(ss_debug::proofs::Names::take_front))]
fn own_command(program: &Program, line: &[u8]) -> PromptCommand
    ensures { result ≡ own_command_of program.now line.now }
{
    if line.len() > LONGEST_LINE {
        return PromptCommand::Plain(Command::Bad);
    }
    let mut upper = [0u8; LONGEST_LINE];
    upper[..line.len()].copy_from_slice(line);
    upper[..line.len()].make_ascii_uppercase();
    let upper = &upper[..line.len()];
    or_value(upper, own_of_whole(program, whole_line(program, upper)))
}

/// The command of docs/DEBUGGER.md in a line with its first word made whole.
#[tactic(auto, unfolding(crate::specs::Reading::first_whole_command_of), using(ss_debug::proofs::Names::take_front))]
fn first_whole_command(line: &[u8]) -> Command
    ensures { result ≡ first_whole_command_of line.now }
{
    if line.len() > LONGEST_LINE {
        return Command::Bad;
    }
    let mut upper = [0u8; LONGEST_LINE];
    upper[..line.len()].copy_from_slice(line);
    upper[..line.len()].make_ascii_uppercase();
    command_in(first_whole_line(&upper[..line.len()]))
}

/// The command of docs/DEBUGGER.md in a line as written, or else with its first word made whole.
#[tactic(auto, unfolding(crate::specs::Reading::plain_command_of))]
pub(crate) fn plain_command(line: &[u8]) -> Command
    ensures { result ≡ plain_command_of line.now }
{
    match command(line) {
        Command::Bad => first_whole_command(line),
        other => other,
    }
}

/// The command in a line of the prompt about a program (docs/PROMPT.md): the command of
/// docs/DEBUGGER.md, if the line is one; else the command of the line with its words made whole. It
/// takes no memory.
#[tactic(auto, unfolding(crate::specs::Reading::prompt_command_of))]
pub fn prompt_command(program: &Program, line: &[u8]) -> PromptCommand
    ensures { result ≡ prompt_command_of program.now line.now }
{
    match plain_command(line) {
        Command::Bad => own_command(program, line),
        other => plain_meant(program, other),
    }
}

//! What is made of the words of a line by the table of the commands.
ghost use Rattle.std.specs.Prelude.{◌≡◌, codes, None};
ghost use Rattle.ss_debug.specs.CommandLines.{command_words};
ghost use Rattle.ss_prompt.specs.Reading.{single, made_of, made_after};
ghost use Rattle.ss_prompt.specs.Reading.{own_by, own_in_words, once_in, once_of};
ghost use Rattle.ss_prompt.specs.Table.{form_of, forms_of, form_words};
ghost use Rattle.ss_prompt.specs.Words.{after_words, command_behind, only_name_of};
ghost use Rattle.ss_prompt.specs.Sections.{line_of_section, taken_line};

use crate::arguments::{
    alone, clear, help, history, list, names, on_question, places, show, steps, time, undisplay,
    until,
};
use crate::break_words::break_words;
use crate::causes::CauseCommand;
use crate::commands::PromptCommand;
use crate::line::{command_behind, only_name};
use crate::makes::{Makes, Single};
use crate::pieces::after_words;
use crate::read::placed;
use crate::sections::taken_line_of;
use crate::sight::Sight;
use crate::table::{Form, forms};
use ss_debug::{Command, Name};
use ss_program::Program;
use ss_trace::Movement;

/// TBREAK r: the line of the first place of a section; if it takes none, it is BREAK r.
fn once_in(program: &Program, name: Name) -> PromptCommand
    ensures { result
        ≡ once_in (taken_line (line_of_section program.now name)) name }
{
    match taken_line_of(program, name.as_slice()) {
        Some(line) => PromptCommand::Once(line),
        None => PromptCommand::BreakSection(name),
    }
}

/// TBREAK: a line as BREAK takes it, or the name of a section.
fn once(program: &Program, rest: &[u8]) -> Option<PromptCommand>
    ensures { result ≡ once_of program.now (command_behind (codes "BREAK") (command_words rest.now))
        (only_name_of (command_words rest.now)) }
{
    match command_behind(b"BREAK", rest) {
        Command::Break(line) => Some(placed(program, line, PromptCommand::Once(line))),
        _ => Some(once_in(program, only_name(rest)?)),
    }
}

/// A command of one or two words.
fn single(command: Single) -> PromptCommand
    ensures { result ≡ single command }
{
    match command {
        Single::Out => PromptCommand::Travel(Movement::Out),
        Single::BackOut => PromptCommand::Travel(Movement::BackOut),
        Single::GoEnd => PromptCommand::Travel(Movement::GoEnd),
        Single::WhyCause => PromptCommand::Cause(CauseCommand::Why),
        Single::BackCause => PromptCommand::Cause(CauseCommand::Back),
        Single::Breaks => PromptCommand::Breaks,
        Single::Reads => PromptCommand::Reads,
        Single::Warnings => PromptCommand::Warnings,
        Single::Changed => PromptCommand::Changed,
        Single::Overview(overview) => PromptCommand::See(Sight::Overview(overview)),
    }
}

/// What a row makes of the words after its own.
fn made_of(program: &Program, makes: Makes, rest: &[u8]) -> Option<PromptCommand>
    ensures { result ≡ made_of program.now makes (command_words rest.now) }
{
    match makes {
        Makes::Elsewhere | Makes::Asked | Makes::Also => None,
        Makes::Alone(command) => alone(single(command), rest),
        Makes::Over => Some(PromptCommand::Travel(Movement::Over(steps(rest)?))),
        Makes::BackOver => Some(PromptCommand::Travel(Movement::BackOver(steps(rest)?))),
        Makes::BackTo => Some(PromptCommand::Travel(Movement::BackTo(time(rest)?))),
        Makes::Go => Some(PromptCommand::Travel(Movement::Go(time(rest)?))),
        Makes::Until(way) => until(way, rest),
        Makes::Question(manner) => on_question(program, manner, rest),
        Makes::History => history(program, rest),
        Makes::Undisplay => undisplay(program, rest),
        Makes::Show => show(program, rest),
        Makes::Places => places(rest),
        Makes::List => list(rest),
        Makes::Break => break_words(program, rest),
        Makes::Clear => clear(rest),
        Makes::Once => once(program, rest),
        Makes::Names => names(rest),
        Makes::Help => help(rest),
    }
}

/// That, if a line begins with the words of the row.
fn made_after(program: &Program, line: &[u8], form: &Form) -> Option<PromptCommand>
    ensures { result ≡ made_after program.now form.now.1
        (after_words (form_words (form_of form.now)) (command_words line.now)) }
{
    made_of(program, form.1, after_words(form.0, line)?)
}

/// The command that the last of some rows makes that makes one of the words of a line.
fn own_by(program: &Program, line: &[u8], mut rows: &'static [Form]) -> Option<PromptCommand>
    ensures { result ≡ own_by program.now (command_words line.now) (forms_of rows.entry.now) None }
{
    let mut made = None;
    while let [form, rest @ ..] = rows {
        if let Some(command) = made_after(program, line, form) {
            made = Some(command);
        }
        rows = rest;
    }
    made
}

/// The command in the words of a line that is none of docs/DEBUGGER.md.
#[tactic(auto, unfolding(crate::specs::Reading::own_in_words))]
pub(crate) fn own_in_words(program: &Program, line: &[u8]) -> Option<PromptCommand>
    ensures { result ≡ own_in_words program.now (command_words line.now) }
{
    own_by(program, line, forms())
}

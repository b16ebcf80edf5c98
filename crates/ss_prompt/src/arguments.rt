//! Reads the words after the first word of a line.
ghost use Rattle.std.specs.Prelude.{◌≡◌, ◌∷◌, [], codes, option_map, Some};
ghost use Rattle.ss_debug.specs.CommandLines.{command_words};
ghost use Rattle.ss_prompt.specs.Words.{command_behind, only_name_of};
ghost use Rattle.ss_prompt.specs.Reading.{alone, steps_in, time_in};
ghost use Rattle.ss_prompt.specs.Reading.{list_command, names_command, help_command};
ghost use Rattle.ss_prompt.specs.Reading.{show_command, bare_command};
ghost use Rattle.ss_prompt.specs.Sights.{places_of};
ghost use Rattle.ss_prompt.specs.Reading.{seen_command, rows_or_sight, history_by, history_command};
ghost use Rattle.ss_prompt.specs.Reading.{made_by, text_command, manner_command, is_rows_of, longest_in};
ghost use Rattle.ss_prompt.specs.Reading.{undisplay_command, clear_command, lines_between, until_command};
ghost use Rattle.ss_prompt.specs.Asked.{own_asked};
ghost use Rattle.ss_prompt.specs.RowsAsked.{rows_command};
ghost use Rattle.ss_prompt.specs.declared.commands.PromptCommand.TheVariants as prompt;

use crate::advice::has_number;
use crate::asked::{asked, own_asked, question_in};
use crate::commands::PromptCommand;
use crate::histories::{ROWS_UNLESS_SAID, with_rows};
use crate::line::{Line, command_behind, command_of_word, name_of_word, only_name};
use crate::manner::Manner;
use crate::missing::{Missing, asked_of_program, bare, is_class, is_declared};
use crate::pieces::next_word;
use crate::rows_asked::rows;
use crate::seeing::sight;
use crate::sight::Sight;
use crate::until::Until;
use ss_debug::{Command, Movement as PlainMovement, Name, Question as Shown};
use ss_program::Program;
use ss_trace::{Movement, Question};

/// A command after which no word may come.
pub(crate) fn alone(command: PromptCommand, rest: &[u8]) -> Option<PromptCommand>
    ensures { result ≡ alone command (command_words rest.now) }
{
    if next_word(rest).is_some() {
        return None;
    }
    Some(command)
}

/// A number of steps, as STEP takes it.
pub(crate) fn steps(rest: &[u8]) -> Option<u64>
    ensures { result ≡ steps_in (command_behind (codes "STEP") (command_words rest.now)) }
{
    match command_behind(b"STEP", rest) {
        Command::Move(PlainMovement::Step(n)) => Some(n),
        _ => None,
    }
}

/// A time or a position, as RUN TO takes it.
pub(crate) fn time(rest: &[u8]) -> Option<u64>
    ensures { result ≡ time_in (command_behind (codes "RUN TO") (command_words rest.now)) }
{
    match command_behind(b"RUN TO", rest) {
        Command::Move(PlainMovement::RunTo(time)) => Some(time),
        _ => None,
    }
}

/// A movement to a state in which the condition of a text holds; the text may be none.
pub(crate) fn until(way: Until, rest: &[u8]) -> Option<PromptCommand>
    ensures { result ≡ until_command way (command_words rest.now) }
{
    let text = Line::of_words(rest)?;
    Some(PromptCommand::Until(way, text, has_number(rest)))
}

/// A command on a question, by its manner.
pub(crate) fn made_by(manner: Manner, question: Question) -> PromptCommand
    ensures { result ≡ made_by manner question }
{
    match manner {
        Manner::Why => PromptCommand::Why(question),
        Manner::History => PromptCommand::History(question, ROWS_UNLESS_SAID),
        Manner::RunChange => PromptCommand::Travel(Movement::RunChange(question)),
        Manner::BackChange => PromptCommand::Travel(Movement::BackChange(question)),
        Manner::Display => PromptCommand::Display(question),
        Manner::Undisplay => PromptCommand::UndisplayOne(question),
    }
}

/// A command on what the words ask as a text.
fn text_command(manner: Manner, rest: &[u8]) -> Option<PromptCommand>
    ensures { result ≡ text_command manner (command_words rest.now) }
{
    let text = Line::of_words(rest)?;
    Some(PromptCommand::Meant(manner, text, has_number(rest)))
}

/// A command on the question that the words ask, or else on what they ask as a text.
pub(crate) fn on_question(program: &Program, manner: Manner, rest: &[u8]) -> Option<PromptCommand>
    ensures { result ≡ manner_command program.now manner (command_words rest.now) }
{
    match question_in(program, rest) {
        None => text_command(manner, rest),
        Some(Ok(question)) => Some(made_by(manner, question)),
        Some(Err(missing)) => Some(PromptCommand::Missing(missing)),
    }
}

/// A bare name: the entities of a class, or else a set or a variable; another may be an attribute.
fn bare_command(program: &Program, name: Name) -> Option<PromptCommand>
    ensures { result ≡ bare_command program.now name }
{
    if is_class(program, name.as_slice()) {
        return Some(PromptCommand::See(Sight::Living(name)));
    }
    if !is_declared(program, name.as_slice()) {
        return None;
    }
    Some(PromptCommand::Ask(bare(program, name)))
}

/// A sight; a bare name is read by its declaration.
fn seen_command(program: &Program, sight: Sight) -> Option<PromptCommand>
    ensures { result ≡ seen_command program.now (Some sight) }
{
    match sight {
        Sight::Living(name) => bare_command(program, name),
        other => Some(PromptCommand::See(other)),
    }
}

/// The rows that the words after SHOW ask for, or else another sight.
fn rows_or_sight(program: &Program, rest: &[u8]) -> Option<PromptCommand>
    ensures { result ≡ rows_or_sight program.now
        (rows_command program.now (command_words rest.now)) (command_words rest.now) }
{
    if let Some(command) = rows(program, rest) {
        return Some(command);
    }
    seen_command(program, sight(rest)?)
}

/// The words after SHOW that are none of docs/DEBUGGER.md: a question, rows or another sight.
pub(crate) fn show(program: &Program, rest: &[u8]) -> Option<PromptCommand>
    ensures { result ≡ show_command program.now (own_asked (command_words rest.now))
        (command_words rest.now) }
{
    let Some(question) = own_asked(rest) else {
        return rows_or_sight(program, rest);
    };
    match asked_of_program(program, question) {
        Ok(question) => Some(PromptCommand::Ask(question)),
        Err(missing) => Some(PromptCommand::Missing(missing)),
    }
}

/// IN c k: an entity as SHOW takes it.
pub(crate) fn places(rest: &[u8]) -> Option<PromptCommand>
    ensures { result ≡ option_map prompt.See
        (places_of (command_behind (codes "SHOW") (command_words rest.now))) }
{
    match command_behind(b"SHOW", rest) {
        Command::Show(Shown::Entity(class, x)) => {
            Some(PromptCommand::See(Sight::Places(class, x)))
        }
        _ => None,
    }
}

/// HISTORY of the longest question, if its names are there, or else of the one with a number of
/// rows, or else another command.
fn history_by(
    longest: Option<Result<Question, Missing>>,
    shorter: Option<(Result<Question, Missing>, u64)>,
    other: Option<PromptCommand>,
) -> Option<PromptCommand>
    ensures { result ≡ history_by longest shorter other }
{
    match longest {
        Some(Ok(question)) => Some(PromptCommand::History(question, ROWS_UNLESS_SAID)),
        Some(Err(missing)) => match shorter {
            Some((asked, rows)) => match asked {
                Ok(question) => Some(PromptCommand::History(question, rows)),
                Err(_) => Some(PromptCommand::Missing(missing)),
            },
            None => Some(PromptCommand::Missing(missing)),
        },
        None => match shorter {
            Some((asked, rows)) => match asked {
                Ok(question) => Some(PromptCommand::History(question, rows)),
                Err(missing) => Some(PromptCommand::Missing(missing)),
            },
            None => other,
        },
    }
}

/// Whether a question is on an entity of no class: then its number is one of rows.
fn is_rows_of(program: &Program, question: &Option<Question>) -> bool
    ensures { result ≡ is_rows_of program.now question.now }
{
    match question {
        Some(Question::Shown(Shown::Entity(name, _))) => !is_class(program, name.as_slice()),
        _ => false,
    }
}

/// The longest question after HISTORY.
fn longest_in(program: &Program, rest: &[u8]) -> Option<Result<Question, Missing>>
    ensures { result ≡ longest_in program.now (command_words rest.now) }
{
    if is_rows_of(program, &asked(rest)) {
        return None;
    }
    question_in(program, rest)
}

/// The words after HISTORY: a question, and perhaps a number of rows, or else a text.
#[tactic(auto, unfolding(crate::specs::Reading::history_command))]
pub(crate) fn history(program: &Program, rest: &[u8]) -> Option<PromptCommand>
    ensures { result ≡ history_command program.now (command_words rest.now) }
{
    history_by(
        longest_in(program, rest),
        with_rows(program, rest),
        text_command(Manner::History, rest),
    )
}

/// One word after LIST: a line as BREAK takes it, or the name of a section.
fn lines_of(word: &[u8]) -> Option<PromptCommand>
    ensures { result ≡ list_command (word.now ∷ []) }
{
    match command_of_word(b"BREAK", word) {
        Command::Break(line) => Some(PromptCommand::Lines(Some(line))),
        _ => Some(PromptCommand::SectionLines(name_of_word(word)?)),
    }
}

/// The lines from one to another, each as BREAK takes it.
fn lines_between(from: Command, to: Command) -> Option<PromptCommand>
    ensures { result ≡ lines_between from to }
{
    match (from, to) {
        (Command::Break(from), Command::Break(to)) if from <= to => {
            Some(PromptCommand::LinesBetween(from, to))
        }
        _ => None,
    }
}

/// The words after LIST: none, a line as BREAK takes it, two of them, or the name of a section.
pub(crate) fn list(rest: &[u8]) -> Option<PromptCommand>
    ensures { result ≡ list_command (command_words rest.now) }
{
    let Some((word, more)) = next_word(rest) else {
        return Some(PromptCommand::Lines(None));
    };
    if next_word(more).is_none() {
        return lines_of(word);
    }
    lines_between(
        command_of_word(b"BREAK", word),
        command_behind(b"BREAK", more),
    )
}

/// The words after CLEAR: none, or the name of a section.
pub(crate) fn clear(rest: &[u8]) -> Option<PromptCommand>
    ensures { result ≡ clear_command (command_words rest.now) }
{
    if next_word(rest).is_none() {
        return Some(PromptCommand::ClearAll);
    }
    Some(PromptCommand::ClearSection(only_name(rest)?))
}

/// The words after UNDISPLAY: none, or a question, or else a text.
pub(crate) fn undisplay(program: &Program, rest: &[u8]) -> Option<PromptCommand>
    ensures { result ≡ undisplay_command program.now (command_words rest.now) }
{
    if next_word(rest).is_none() {
        return Some(PromptCommand::Undisplay);
    }
    on_question(program, Manner::Undisplay, rest)
}

/// The words after NAMES: none, or a name.
pub(crate) fn names(rest: &[u8]) -> Option<PromptCommand>
    ensures { result ≡ names_command (command_words rest.now) }
{
    if next_word(rest).is_none() {
        return Some(PromptCommand::Names(None));
    }
    Some(PromptCommand::Names(Some(only_name(rest)?)))
}

/// The words after HELP: none, or a word; the words after that one do not count.
pub(crate) fn help(rest: &[u8]) -> Option<PromptCommand>
    ensures { result ≡ help_command (command_words rest.now) }
{
    let Some((word, _)) = next_word(rest) else {
        return Some(PromptCommand::Help(None));
    };
    Some(PromptCommand::Help(Some(name_of_word(word)?)))
}

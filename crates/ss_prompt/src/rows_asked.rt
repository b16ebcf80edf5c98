//! Reads the lines that ask for rows of entities: SHOW SET s [k] a .. and SHOW c a ...
ghost use Rattle.std.specs.Prelude.{◌≡◌, ◌∷◌, [], is_some};
ghost use Rattle.ss_debug.specs.CommandLines.{command_words};
ghost use Rattle.ss_debug.specs.Entities.{set_named};
ghost use Rattle.ss_prompt.specs.Sights.{free_name_of};
ghost use Rattle.ss_prompt.specs.RowsAsked.{are_names, names_line, unknown_of, rows_unless, unknown_of_members};
ghost use Rattle.ss_prompt.specs.RowsAsked.{member_rows_in, member_rows_of, member_rows_command};
ghost use Rattle.ss_prompt.specs.RowsAsked.{begins_rows, living_rows_in, living_rows_command, rows_command};

use crate::commands::PromptCommand;
use crate::line::{Line, command_of_two_behind, command_of_word, name_of_word};
use crate::missing::{Missing, has_attribute, is_variable, listed};
use crate::pieces::next_word;
use crate::seeing::unless_reserved;
use crate::sight::Sight;
use ss_debug::{Command, Name, Question, find_class, find_set};
use ss_program::Program;

/// The name that a word is, if it is no reserved word.
fn free_name(word: &[u8]) -> Option<Name>
    ensures { result ≡ free_name_of (word.now ∷ []) }
{
    unless_reserved(name_of_word(word))
}

/// Whether each word of a line is a name, and no reserved word.
fn are_names(words: &[u8]) -> bool
    ensures { result ≡ are_names (command_words words.now) }
{
    let mut rest = words;
    while let Some((word, more)) = next_word(rest) {
        if free_name(word).is_none() {
            return false;
        }
        rest = more;
    }
    true
}

/// The line of some names, if there is one at least.
fn names_line(words: &[u8]) -> Option<Line>
    ensures { result ≡ names_line (command_words words.now) }
{
    next_word(words)?;
    if !are_names(words) {
        return None;
    }
    Line::of_words(words)
}

/// The first of some names that the entities of a class have no attribute of.
fn unknown_of(program: &Program, class: usize, words: &[u8]) -> Option<Name>
    ensures { result ≡ unknown_of program.now class (command_words words.now) }
{
    let mut rest = words;
    while let Some((word, more)) = next_word(rest) {
        if !has_attribute(program, class, word) {
            return name_of_word(word);
        }
        rest = more;
    }
    None
}

/// Rows, or the name that is no attribute.
fn rows_unless(sight: Sight, unknown: Option<Name>) -> PromptCommand
    ensures { result ≡ rows_unless sight unknown }
{
    match unknown {
        Some(name) => PromptCommand::Missing(Missing::Attribute(name)),
        None => PromptCommand::See(sight),
    }
}

/// The first of some names that the members of the set of a name have no attribute of.
fn unknown_of_members(program: &Program, set: &[u8], words: &[u8]) -> Option<Name>
    ensures { result ≡ unknown_of_members program.now (set_named program.now set.now)
        (command_words words.now) }
{
    let set = find_set(program, set)?;
    unknown_of(program, program.member_class(set), words)
}

/// Rows of the members of a list, or what the program hasn't.
fn member_rows_in(
    program: &Program,
    owner: Option<i64>,
    words: &[u8],
    line: Line,
    set: Result<Name, Missing>,
) -> PromptCommand
    ensures { result ≡ member_rows_in program.now owner (command_words words.now) line set }
{
    let set = match set {
        Ok(set) => set,
        Err(missing) => return PromptCommand::Missing(missing),
    };
    let unknown = unknown_of_members(program, set.as_slice(), words);
    rows_unless(Sight::MemberRows(set, owner, line), unknown)
}

/// Rows of the list that SHOW SET asks for.
fn member_rows_of(program: &Program, command: Command, words: &[u8]) -> Option<PromptCommand>
    ensures { result ≡ member_rows_of program.now command (command_words words.now) }
{
    let Command::Show(Question::Set(set, owner)) = command else {
        return None;
    };
    let line = names_line(words)?;
    let set = listed(program, set, owner);
    Some(member_rows_in(program, owner, words, line, set))
}

/// The words after SET and the name of a set: the number of an owner, or none, and names.
fn member_rows(program: &Program, set: &[u8], rest: &[u8]) -> Option<PromptCommand>
    ensures { result ≡ member_rows_command program.now set.now (command_words rest.now) }
{
    let (word, more) = next_word(rest)?;
    let numbered = command_of_two_behind(b"SHOW SET", set, word);
    if let Some(rows) = member_rows_of(program, numbered, more) {
        return Some(rows);
    }
    member_rows_of(program, command_of_word(b"SHOW SET", set), rest)
}

/// Whether the first of some words is an attribute of the entities of a class, and no variable.
fn begins_rows(program: &Program, class: usize, words: &[u8]) -> bool
    ensures { result ≡ begins_rows program.now class (command_words words.now) }
{
    match next_word(words) {
        Some((word, _)) => has_attribute(program, class, word) && !is_variable(program, word),
        None => false,
    }
}

/// Rows of the entities of the class with a number.
fn living_rows_in(
    program: &Program,
    class: Name,
    number: usize,
    words: &[u8],
) -> Option<PromptCommand>
    ensures { result ≡ living_rows_in program.now class number (command_words words.now) }
{
    if !begins_rows(program, number, words) {
        return None;
    }
    let line = names_line(words)?;
    let unknown = unknown_of(program, number, words);
    Some(rows_unless(Sight::LivingRows(class, line), unknown))
}

/// Rows of the entities of a class, if the program has it.
fn living_rows(program: &Program, what: &[u8], words: &[u8]) -> Option<PromptCommand>
    ensures { result ≡ living_rows_command program.now (free_name_of (what.now ∷ []))
        (command_words words.now) }
{
    let class = free_name(what)?;
    let number = find_class(program, class.as_slice())?;
    living_rows_in(program, class, number, words)
}

/// The rows that the words of a line after SHOW ask for, as a program has their names, or which of
/// them it hasn't; `None` if the words ask for no rows.
pub(crate) fn rows(program: &Program, words: &[u8]) -> Option<PromptCommand>
    ensures { result ≡ rows_command program.now (command_words words.now) }
{
    let (what, behind) = next_word(words)?;
    let (word, rest) = next_word(behind)?;
    if what == b"SET".as_slice() {
        return member_rows(program, word, rest);
    }
    living_rows(program, what, behind)
}

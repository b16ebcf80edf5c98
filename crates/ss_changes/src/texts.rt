//! The lines that show the changes of a step.
ghost use Rattle.std.specs.Prelude.{◌≡◌, ◌++◌, [], codes, slice_index_or, OnOk};
ghost use Rattle.ss_program.specs.Program.{class_of, set_of};
ghost use Rattle.ss_debug.specs.Entities.{members_text, further_members};
ghost use Rattle.ss_changes.specs.Texts.{entity_name, list_name, part_name, entry_text};
ghost use Rattle.ss_changes.specs.Texts.{value_text};
ghost use Rattle.ss_changes.specs.Texts.{brief_members, brief_text, change_line, cut_text};
ghost use Rattle.ss_changes.specs.Texts.{brief_line, change_lines, brief_lines, more_text};
ghost use Rattle.ss_changes.specs.Texts.{first_changes, all_changes};

use crate::change::Change;
use crate::limits::{MOST_COLUMNS, MOST_LISTED, MOST_TOLD};
use crate::part::Part;
use crate::rows::local_names;
use crate::value::{Members, PartValue};
use ss_debug::{push_integer, push_number};
use ss_links::SetBoard;
use ss_machine::Machine;
use ss_program::{Owner, Program, name_at};
use ss_state::Entry;
use std::alloc::{AllocError, Global};

/// Appends a class and a number.
fn push_entity_name(
    text: &mut Vec<u8>,
    program: &Program,
    class: usize,
    number: u32,
) -> Result<(), AllocError>
    ensures { OnOk result (text.new.items ≡ text.old.items
        ++ entity_name program.now class number) }
{
    text.extend_from_slice(program.class_name(class))?;
    text.extend_from_slice(b" ")?;
    push_number(text, u64::from(number))
}

/// Appends an attribute of an entity.
fn push_attribute_name(
    text: &mut Vec<u8>,
    program: &Program,
    class: usize,
    entity: u32,
    attribute: usize,
) -> Result<(), AllocError>
    ensures { OnOk result (text.new.items ≡ text.old.items
        ++ entity_name program.now class entity ++ codes " "
        ++ slice_index_or (class_of program.now class).attributes attribute []) }
{
    push_entity_name(text, program, class, entity)?;
    text.extend_from_slice(b" ")?;
    text.extend_from_slice(name_at(program.attributes(class), attribute))
}

/// Appends a set's name, and the number of an owner that is not the system.
fn push_list_name(
    text: &mut Vec<u8>,
    program: &Program,
    set: usize,
    owner: u32,
) -> Result<(), AllocError>
    ensures { OnOk result (text.new.items ≡ text.old.items
        ++ list_name program.now set owner (set_of program.now set).owner) }
{
    text.extend_from_slice(program.set_name(set))?;
    if let Owner::System = program.set_owner(set) {
        return Ok(());
    }
    text.extend_from_slice(b" ")?;
    push_number(text, u64::from(owner))
}

/// Appends `VAR` and a name.
fn push_variable_name(text: &mut Vec<u8>, name: &[u8]) -> Result<(), AllocError>
    ensures { OnOk result (text.new.items ≡ text.old.items ++ codes "VAR " ++ name.now) }
{
    text.extend_from_slice(b"VAR ")?;
    text.extend_from_slice(name)
}

/// Appends a part as it is asked for.
fn push_part<S: SetBoard>(
    text: &mut Vec<u8>,
    machine: &Machine<S>,
    part: Part,
) -> Result<(), AllocError>
    ensures { OnOk result (text.new.items ≡ text.old.items
        ++ part_name machine.now.input.program machine.now.state part) }
{
    let program = machine.program();
    match part {
        Part::Global { number } => push_variable_name(text, name_at(&program.globals, number)),
        Part::Local { below, number } => {
            push_variable_name(text, name_at(local_names(machine, below), number))
        }
        Part::Attribute {
            class,
            entity,
            attribute,
        } => push_attribute_name(text, program, class, entity, attribute),
        Part::Entity { class, entity } => push_entity_name(text, program, class, entity),
        Part::List { set, owner } => {
            text.extend_from_slice(b"SET ")?;
            push_list_name(text, program, set, owner)
        }
        Part::Notice { class, notice } => {
            push_entity_name(text, program, class, notice)?;
            text.extend_from_slice(b" AT")
        }
        Part::Taken => text.extend_from_slice(b"TAKEN"),
        Part::Entry => text.extend_from_slice(b"ENTRY"),
        Part::Clock => text.extend_from_slice(b"CLOCK"),
        Part::Report => text.extend_from_slice(b"REPORT"),
    }
}

/// Appends numbers, each after a blank.
fn push_further(text: &mut Vec<u8>, numbers: &[u32]) -> Result<(), AllocError>
    ensures { OnOk result (text.new.items ≡ text.old.items ++ further_members numbers.now) }
{
    for number in numbers {
        text.extend_from_slice(b" ")?;
        push_number(text, u64::from(*number))?;
    }
    Ok(())
}

/// Appends members with a blank between, or `EMPTY`.
fn push_members(text: &mut Vec<u8>, members: &Members) -> Result<(), AllocError>
    ensures { OnOk result (text.new.items ≡ text.old.items ++ members_text members.now) }
{
    let numbers = members.numbers.as_slice();
    let Some(first) = numbers.first() else {
        return text.extend_from_slice(b"EMPTY");
    };
    push_number(text, u64::from(*first))?;
    push_further(text, &numbers[1..])
}

/// Appends an entry of an external event.
fn push_entry(text: &mut Vec<u8>, program: &Program, entry: Entry) -> Result<(), AllocError>
    ensures { OnOk result (text.new.items ≡ text.old.items ++ entry_text program.now entry) }
{
    match entry {
        Entry::Absent => text.extend_from_slice(b"NONE"),
        Entry::Waiting { class, notice } => {
            push_entity_name(text, program, class, notice)?;
            text.extend_from_slice(b" WAITING")
        }
        Entry::Running { class, notice } => {
            push_entity_name(text, program, class, notice)?;
            text.extend_from_slice(b" RUNNING")
        }
    }
}

/// Appends a value.
fn push_value(text: &mut Vec<u8>, program: &Program, value: &PartValue) -> Result<(), AllocError>
    ensures { OnOk result (text.new.items ≡ text.old.items ++ value_text program.now value.now) }
{
    match value {
        PartValue::Absent => text.extend_from_slice(b"NONE"),
        PartValue::Number(x) => push_integer(text, *x),
        PartValue::Count(n) => push_number(text, *n as u64),
        PartValue::Lives => text.extend_from_slice(b"LIVES"),
        PartValue::Listed(members) => push_members(text, members),
        PartValue::Entered(entry) => push_entry(text, program, *entry),
        PartValue::Bytes(n) => {
            push_number(text, *n as u64)?;
            text.extend_from_slice(b" BYTES")
        }
    }
}

/// Appends members, or their number if the list is longer than `MOST_LISTED`.
fn push_brief_members(text: &mut Vec<u8>, members: &Members) -> Result<(), AllocError>
    ensures { OnOk result (text.new.items ≡ text.old.items ++ brief_members members.now) }
{
    let count = members.numbers.len();
    if count <= MOST_LISTED {
        return push_members(text, members);
    }
    push_number(text, count as u64)?;
    text.extend_from_slice(b" MEMBERS")
}

/// Appends a value in brief.
fn push_brief(text: &mut Vec<u8>, program: &Program, value: &PartValue) -> Result<(), AllocError>
    ensures { OnOk result (text.new.items ≡ text.old.items ++ brief_text program.now value.now) }
{
    match value {
        PartValue::Listed(members) => push_brief_members(text, members),
        _ => push_value(text, program, value),
    }
}

/// Appends the beginning of the line of a change, up to its values.
fn push_head<S: SetBoard>(
    text: &mut Vec<u8>,
    word: &[u8],
    machine: &Machine<S>,
    part: Part,
) -> Result<(), AllocError>
    ensures { OnOk result (text.new.items ≡ text.old.items ++ word.now ++ codes " "
        ++ part_name machine.now.input.program machine.now.state part ++ codes ": ") }
{
    text.extend_from_slice(word)?;
    text.extend_from_slice(b" ")?;
    push_part(text, machine, part)?;
    text.extend_from_slice(b": ")
}

/// Appends the line of a change.
fn push_line<S: SetBoard>(
    text: &mut Vec<u8>,
    word: &[u8],
    machine: &Machine<S>,
    change: &Change,
) -> Result<(), AllocError>
    ensures { OnOk result (text.new.items ≡ text.old.items
        ++ change_line word.now machine.now.input.program machine.now.state change.now) }
{
    let program = machine.program();
    push_head(text, word, machine, change.part)?;
    push_value(text, program, &change.before)?;
    text.extend_from_slice(b" -> ")?;
    push_value(text, program, &change.after)?;
    text.extend_from_slice(b"\n")
}

/// Appends a text, cut if it has too many columns.
fn push_cut(text: &mut Vec<u8>, line: &[u8]) -> Result<(), AllocError>
    ensures { OnOk result (text.new.items ≡ text.old.items ++ cut_text line.now) }
{
    if line.len() <= MOST_COLUMNS {
        return text.extend_from_slice(line);
    }
    text.extend_from_slice(&line[..MOST_COLUMNS - 3])?;
    text.extend_from_slice(b" ..")
}

/// Appends the line of a change in brief.
fn push_brief_line<S: SetBoard>(
    alloc: Global,
    text: &mut Vec<u8>,
    word: &[u8],
    machine: &Machine<S>,
    change: &Change,
) -> Result<(), AllocError>
    ensures { OnOk result (text.new.items ≡ text.old.items
        ++ brief_line word.now machine.now.input.program machine.now.state change.now) }
{
    let program = machine.program();
    let mut line = Vec::new(alloc);
    push_head(&mut line, word, machine, change.part)?;
    push_brief(&mut line, program, &change.before)?;
    line.extend_from_slice(b" -> ")?;
    push_brief(&mut line, program, &change.after)?;
    push_cut(text, &line)?;
    text.extend_from_slice(b"\n")
}

/// Appends a line for each change.
fn push_lines<S: SetBoard>(
    text: &mut Vec<u8>,
    word: &[u8],
    machine: &Machine<S>,
    changes: &[Change],
) -> Result<(), AllocError>
    ensures { OnOk result (text.new.items ≡ text.old.items
        ++ change_lines word.now machine.now.input.program machine.now.state changes.now) }
{
    for change in changes {
        push_line(text, word, machine, change)?;
    }
    Ok(())
}

/// Appends a line in brief for each change.
fn push_brief_lines<S: SetBoard>(
    alloc: Global,
    text: &mut Vec<u8>,
    word: &[u8],
    machine: &Machine<S>,
    changes: &[Change],
) -> Result<(), AllocError>
    ensures { OnOk result (text.new.items ≡ text.old.items
        ++ brief_lines word.now machine.now.input.program machine.now.state changes.now) }
{
    for change in changes {
        push_brief_line(alloc, text, word, machine, change)?;
    }
    Ok(())
}

/// Appends the number of further changes, past those that are shown.
fn push_more(text: &mut Vec<u8>, count: usize) -> Result<(), AllocError>
    ensures { OnOk result (text.new.items ≡ text.old.items ++ more_text count) }
{
    if count <= MOST_TOLD {
        return Ok(());
    }
    text.extend_from_slice(b"AND ")?;
    push_number(text, (count - MOST_TOLD) as u64)?;
    text.extend_from_slice(b" MORE\n")
}

/// Appends the first changes in brief, and the number of further ones.
pub fn push_first_changes<S: SetBoard>(
    alloc: Global,
    text: &mut Vec<u8>,
    word: &[u8],
    machine: &Machine<S>,
    changes: &[Change],
) -> Result<(), AllocError>
    ensures { OnOk result (text.new.items ≡ text.old.items
        ++ first_changes word.now machine.now.input.program machine.now.state changes.now) }
{
    let told = changes.len().min(MOST_TOLD);
    push_brief_lines(alloc, text, word, machine, &changes[..told])?;
    push_more(text, changes.len())
}

/// Appends a line for each change, or that there is none.
pub fn push_all_changes<S: SetBoard>(
    text: &mut Vec<u8>,
    word: &[u8],
    machine: &Machine<S>,
    changes: &[Change],
) -> Result<(), AllocError>
    ensures { OnOk result (text.new.items ≡ text.old.items
        ++ all_changes word.now machine.now.input.program machine.now.state changes.now) }
{
    if changes.is_empty() {
        return text.extend_from_slice(b"NOTHING CHANGED\n");
    }
    push_lines(text, word, machine, changes)
}

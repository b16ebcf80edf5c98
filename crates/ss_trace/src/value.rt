//! The value of a question in the present state, in one line.
ghost use Rattle.std.specs.Prelude.{◌≡◌, ◌++◌, ◌<◌, length, decimal, OnOk, IfSome};
ghost use Rattle.std.specs.Option.{option_map};
ghost use Rattle.std.specs.Fmt.{signed_decimal};
ghost use Rattle.ss_program.specs.Program.{set_of};
ghost use Rattle.ss_events.specs.Rules.{rules_of};
ghost use Rattle.ss_events.specs.Agenda.{in_order};
ghost use Rattle.ss_machine.specs.Moment.{position};
ghost use Rattle.ss_debug.specs.Entities.{class_named, set_named, members_text};
ghost use Rattle.ss_trace.specs.declared.question.Question.TheVariants as questions;
ghost use Rattle.ss_debug.specs.declared.commands.Question.TheVariants as shown;
ghost use Rattle.ss_trace.specs.Value.{joined_lines, joined_byte, or_lives, entity_value, existing, list_owner};
ghost use Rattle.ss_trace.specs.Value.{list_asked, members_asked, attribute_asked, pending_value};
ghost use Rattle.ss_trace.specs.Value.{report_value, or_none, value_at};

use crate::attribute::attribute_named;
use crate::count::member_count;
use crate::question::Question;
use ss_debug::{
    Debugger, Question as Shown, class_value, find_class, find_set, find_variable, push_entity,
    push_entry, push_integer, push_list, push_moment, push_notices, push_number, push_place,
};
use ss_links::SetBoard;
use ss_machine::Machine;
use ss_program::Owner;
use std::alloc::AllocError;

/// Appends a byte of lines that are joined; `rest` is the bytes after it.
fn push_joined_byte(bytes: &mut Vec<u8>, byte: u8, rest: &[u8]) -> Result<(), AllocError>
    ensures { OnOk result (bytes.new.items ≡ bytes.old.items ++ joined_byte byte rest.now) }
{
    if byte != b'\n' {
        return bytes.extend_from_slice(&[byte]);
    }
    if rest.is_empty() {
        return Ok(());
    }
    bytes.extend_from_slice(b", ")
}

/// Appends lines in one, a comma and a blank between.
fn push_joined(bytes: &mut Vec<u8>, lines: &[u8]) -> Result<(), AllocError>
    ensures { OnOk result (bytes.new.items ≡ bytes.old.items ++ joined_lines lines.now) }
{
    let mut left = lines;
    while let Some((byte, rest)) = left.split_first() {
        push_joined_byte(bytes, *byte, rest)?;
        left = rest;
    }
    Ok(())
}

/// Appends lines in one, or `LIVES` if there are none.
fn push_joined_or_lives(bytes: &mut Vec<u8>, lines: &[u8]) -> Result<(), AllocError>
    ensures { OnOk result (bytes.new.items ≡ bytes.old.items ++ or_lives (joined_lines lines.now)) }
{
    let start = bytes.len();
    push_joined(bytes, lines)?;
    if bytes.len() == start {
        return bytes.extend_from_slice(b"LIVES");
    }
    Ok(())
}

/// Appends a number, or `NONE`.
fn push_number_or_none(bytes: &mut Vec<u8>, number: Option<i64>) -> Result<(), AllocError>
    ensures { OnOk result (bytes.new.items
        ≡ bytes.old.items ++ or_none (option_map signed_decimal number)) }
{
    match number {
        Some(number) => push_integer(bytes, number),
        None => bytes.extend_from_slice(b"NONE"),
    }
}

/// Appends the value of the variable that a name means.
fn push_variable<S: SetBoard>(
    bytes: &mut Vec<u8>,
    machine: &Machine<S>,
    name: &[u8],
) -> Result<(), AllocError>
    ensures { OnOk result (bytes.new.items ≡ bytes.old.items
        ++ value_at machine.now.input (questions.Shown (shown.Variable name.now))
        (position machine.now)) }
{
    machine.known();
    match find_variable(machine, name) {
        Some(variable) => push_integer(bytes, machine.variable(variable)),
        None => bytes.extend_from_slice(b"NONE"),
    }
}

/// Appends the lines of an entity in one.
fn push_entity_value<S: SetBoard>(
    bytes: &mut Vec<u8>,
    machine: &Machine<S>,
    class: Option<usize>,
    x: i64,
) -> Result<(), AllocError>
    ensures { OnOk result (bytes.new.items ≡ bytes.old.items
        ++ or_none (entity_value machine.now.input.program machine.now.state.store x class)) }
{
    let Some(class) = class else {
        return bytes.extend_from_slice(b"NONE");
    };
    if !machine.store().exists(class, x) {
        return bytes.extend_from_slice(b"NONE");
    }
    let mut lines = Vec::new(*bytes.allocator());
    push_entity(&mut lines, machine, class, x)?;
    push_joined_or_lives(bytes, &lines)
}

/// The owner that a number names, if it is an entity of this class.
fn existing<S: SetBoard>(machine: &Machine<S>, class: usize, x: i64) -> Option<i64>
    ensures { result ≡ existing machine.now.state.store class x }
{
    if machine.store().exists(class, x) {
        return Some(x);
    }
    None
}

/// The owner of the list of a set that is asked for, if it exists; 0 for the system.
fn list_owner<S: SetBoard>(machine: &Machine<S>, set: usize, owner: Option<i64>) -> Option<i64>
    requires { set < length machine.now.input.program.sets }
    ensures { result ≡ list_owner owner machine.now.input.program machine.now.state
        (set_of machine.now.input.program set).owner }
{
    let program = machine.program();
    program.known();
    match program.set_owner(set) {
        Owner::System => match owner {
            Some(_) => None,
            None => Some(0),
        },
        Owner::OwnedBy(class) => {
            let x = owner.unwrap_or(class_value(machine, class));
            existing(machine, class, x)
        }
    }
}

/// The set of this name and the owner of its list that is asked for, if both exist.
fn list_asked<S: SetBoard>(
    machine: &Machine<S>,
    name: &[u8],
    owner: Option<i64>,
) -> Option<(usize, i64)>
    ensures asked { result ≡ list_asked owner machine.now.input.program machine.now.state
        (set_named machine.now.input.program name.now) }
    ensures within { IfSome result (λ list. list.0 < length machine.now.input.program.sets) }
{
    let set = find_set(machine.program(), name)?;
    let owner = list_owner(machine, set, owner)?;
    Some((set, owner))
}

/// Appends the members of a list, or `NONE`.
fn push_members<S: SetBoard>(
    bytes: &mut Vec<u8>,
    machine: &Machine<S>,
    list: Option<(usize, i64)>,
) -> Result<(), AllocError>
    requires { IfSome list (λ l. l.0 < length machine.now.input.program.sets) }
    ensures { OnOk result (bytes.new.items ≡ bytes.old.items
        ++ or_none (option_map (λ l. members_text (members_asked machine.now.input.program
        machine.now.state.store l)) list)) }
{
    match list {
        Some((set, owner)) => push_list(bytes, machine, set, owner),
        None => bytes.extend_from_slice(b"NONE"),
    }
}

/// Appends how many members a list has, or `NONE`.
fn push_member_count<S: SetBoard>(
    bytes: &mut Vec<u8>,
    machine: &Machine<S>,
    list: Option<(usize, i64)>,
) -> Result<(), AllocError>
    requires { IfSome list (λ l. l.0 < length machine.now.input.program.sets) }
    ensures { OnOk result (bytes.new.items ≡ bytes.old.items
        ++ or_none (option_map (λ l. decimal (length (members_asked machine.now.input.program
        machine.now.state.store l))) list)) }
{
    match list {
        Some((set, owner)) => push_number(bytes, u64::from(member_count(machine, set, owner))),
        None => bytes.extend_from_slice(b"NONE"),
    }
}

/// The attribute of this name of an entity, if both exist.
fn attribute_asked<S: SetBoard>(
    machine: &Machine<S>,
    class: &[u8],
    x: i64,
    name: &[u8],
) -> Option<i64>
    ensures { result ≡ attribute_asked machine.now.input.program machine.now.state.store x name.now
        (class_named machine.now.input.program class.now) }
{
    let class = find_class(machine.program(), class)?;
    if !machine.store().exists(class, x) {
        return None;
    }
    attribute_named(machine, class, x, name)
}

/// Appends the lines of the pending notices in one, or `NONE`.
#[tactic(auto, using(crate::proofs::Values::none_pending, crate::proofs::Values::some_pending))]
fn push_pending<S: SetBoard>(bytes: &mut Vec<u8>, machine: &Machine<S>) -> Result<(), AllocError>
    ensures { OnOk result (bytes.new.items ≡ bytes.old.items
        ++ or_none (pending_value machine.now.input.program
        (in_order (rules_of machine.now.input.program) machine.now.state.agenda))) }
{
    let mut lines = Vec::new(*bytes.allocator());
    if push_notices(&mut lines, machine)? == 0 {
        return bytes.extend_from_slice(b"NONE");
    }
    push_joined(bytes, &lines)
}

/// Appends how long the report is.
fn push_report_value(bytes: &mut Vec<u8>, report: &[u8]) -> Result<(), AllocError>
    ensures { OnOk result (bytes.new.items ≡ bytes.old.items ++ report_value report.now) }
{
    push_number(bytes, report.len() as u64)?;
    bytes.extend_from_slice(b" BYTES")
}

/// Appends the position, the clock, the status and the place of the present state.
fn push_where<S: SetBoard>(bytes: &mut Vec<u8>, machine: &Machine<S>) -> Result<(), AllocError>
    ensures { OnOk result (bytes.new.items ≡ bytes.old.items
        ++ value_at machine.now.input (questions.Shown shown.Where) (position machine.now)) }
{
    push_moment(bytes, machine)?;
    push_place(bytes, machine)
}

/// Appends the value of a question of the debugger in a machine's present state.
fn push_shown_value<S: SetBoard>(
    bytes: &mut Vec<u8>,
    machine: &Machine<S>,
    question: &Shown,
) -> Result<(), AllocError>
    ensures { OnOk result (bytes.new.items ≡ bytes.old.items
        ++ value_at machine.now.input (questions.Shown question.now) (position machine.now)) }
{
    machine.known();
    match question {
        Shown::Clock => push_integer(bytes, machine.clock()),
        Shown::Where => push_where(bytes, machine),
        Shown::Variable(name) => push_variable(bytes, machine, name.as_slice()),
        Shown::Entity(name, x) => {
            push_entity_value(
                bytes,
                machine,
                find_class(machine.program(), name.as_slice()),
                *x,
            )
        }
        Shown::Set(name, owner) => {
            push_members(bytes, machine, list_asked(machine, name.as_slice(), *owner))
        }
        Shown::Events => push_pending(bytes, machine),
        Shown::Taken => push_number(bytes, machine.taken() as u64),
        Shown::Entry => push_entry(bytes, machine.program(), machine.entry()),
        Shown::Report => push_report_value(bytes, machine.report()),
    }
}

/// Appends the value of a question in the state that a debugger shows, in one line; `NONE` if what
/// it asks for does not exist (docs/PROMPT.md, "Which step changed it").
///
/// `AllocError` if a growth was refused; then the appended bytes do not count.
pub fn push_value<S: SetBoard>(
    debugger: &Debugger<S>,
    question: &Question,
    bytes: &mut Vec<u8>,
) -> Result<(), AllocError>
    ensures { OnOk result (bytes.new.items ≡ bytes.old.items
        ++ value_at debugger.now.machine.input question.now (position debugger.now.machine)) }
{
    let machine = debugger.machine();
    machine.known();
    match question {
        Question::Shown(shown) => push_shown_value(bytes, machine, shown),
        Question::Attribute(class, x, name) => {
            let value = attribute_asked(machine, class.as_slice(), *x, name.as_slice());
            push_number_or_none(bytes, value)
        }
        Question::Count(name, owner) => {
            push_member_count(bytes, machine, list_asked(machine, name.as_slice(), *owner))
        }
    }
}

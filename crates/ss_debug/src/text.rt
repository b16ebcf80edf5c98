//! The texts that the debugger answers to questions, and to BREAK, CLEAR and FORGET.
ghost use Rattle.std.specs.Prelude.{◌≡◌, ◌++◌, OnOk, IfOk, decimal};
ghost use Rattle.std.specs.Fmt.{signed_decimal};
ghost use Rattle.ss_machine.specs.Moment.{position};
ghost use Rattle.ss_debug.specs.Answer.{state_line, break_text, break_when_text, clear_text, kept_text};
ghost use Rattle.ss_debug.specs.Answer.{clock_text, variable_named, var_text, taken_text, report_text};

use crate::break_lines::BreakLines;
use crate::movement_text::push_state_line;
use crate::name::Name;
use itoa::Buffer;
use ss_links::SetBoard;
use ss_machine::Machine;
use ss_program::Variable;
use std::alloc::{AllocError, Global};

/// Appends a number in least digits.
pub fn push_number(text: &mut Vec<u8>, n: u64) -> Result<(), AllocError>
    ensures ok { OnOk result (text.new.items ≡ text.old.items ++ decimal n) }
{
    let mut buffer = Buffer::new();
    text.extend_from_slice(buffer.format(n).as_bytes())
}

/// Appends an integer in least digits, with its sign below 0.
pub fn push_integer(text: &mut Vec<u8>, n: i64) -> Result<(), AllocError>
    ensures ok { OnOk result (text.new.items ≡ text.old.items ++ signed_decimal n) }
{
    let mut buffer = Buffer::new();
    text.extend_from_slice(buffer.format(n).as_bytes())
}

/// A text, a line's number and the text after it.
fn line_text(alloc: Global, before: &[u8], line: u32, after: &[u8]) -> Result<Vec<u8>, AllocError>
    ensures { IfOk result (λ text. text.items ≡ before.now ++ decimal line ++ after.now) }
{
    let mut text = Vec::from_slice(alloc, before)?;
    push_number(&mut text, u64::from(line))?;
    text.extend_from_slice(after)?;
    Ok(text)
}

/// The answer to BREAK.
#[tactic(auto, unfolding(crate::specs::Answer::break_text))]
pub fn break_text(alloc: Global, breaks: &BreakLines, line: u32) -> Result<Vec<u8>, AllocError>
    ensures { IfOk result (λ text. text.items ≡ break_text breaks.now line) }
{
    if breaks.is_full(line) {
        return Vec::from_slice(alloc, b"TOO MANY BREAKS\n");
    }
    line_text(alloc, b"BREAK ", line, b" SET\n")
}

/// The answer to BREAK with a condition of this text.
#[tactic(auto, unfolding(crate::specs::Answer::break_when_text))]
pub fn break_when_text(
    alloc: Global,
    breaks: &BreakLines,
    line: u32,
    when: &[u8],
) -> Result<Vec<u8>, AllocError>
    ensures { IfOk result (λ text. text.items ≡ break_when_text breaks.now line when.now) }
{
    if breaks.is_full(line) {
        return Vec::from_slice(alloc, b"TOO MANY BREAKS\n");
    }
    let mut text = line_text(alloc, b"BREAK ", line, b" WHEN ")?;
    text.extend_from_slice(when)?;
    text.extend_from_slice(b" SET\n")?;
    Ok(text)
}

/// The answer to CLEAR.
#[tactic(auto, unfolding(crate::specs::Answer::clear_text))]
pub fn clear_text(alloc: Global, breaks: &BreakLines, line: u32) -> Result<Vec<u8>, AllocError>
    ensures { IfOk result (λ text. text.items ≡ clear_text breaks.now line) }
{
    if breaks.contains(line as usize) {
        line_text(alloc, b"BREAK ", line, b" CLEARED\n")
    } else {
        line_text(alloc, b"NO BREAK ", line, b"\n")
    }
}

/// The answer to FORGET, if this number of steps is kept then.
#[tactic(auto, unfolding(crate::specs::Answer::kept_text))]
pub fn kept_text(alloc: Global, kept: u64) -> Result<Vec<u8>, AllocError>
    ensures { IfOk result (λ text. text.items ≡ kept_text kept) }
{
    let mut text = Vec::from_slice(alloc, b"KEPT ")?;
    push_number(&mut text, kept)?;
    text.extend_from_slice(b"\n")?;
    Ok(text)
}

/// The clock.
#[tactic(auto, unfolding(crate::specs::Answer::clock_text))]
pub fn clock_text<S: SetBoard>(alloc: Global, machine: &Machine<S>) -> Result<Vec<u8>, AllocError>
    ensures { IfOk result (λ text. text.items
        ≡ clock_text machine.now.input (position machine.now)) }
{
    machine.known();
    let mut text = Vec::from_slice(alloc, b"CLOCK ")?;
    push_integer(&mut text, machine.clock())?;
    text.extend_from_slice(b"\n")?;
    Ok(text)
}

/// The state line.
pub fn where_text<S: SetBoard>(alloc: Global, machine: &Machine<S>) -> Result<Vec<u8>, AllocError>
    ensures { IfOk result (λ text. text.items
        ≡ state_line machine.now.input (position machine.now)) }
{
    let mut text = Vec::new(alloc);
    push_state_line(&mut text, machine)?;
    Ok(text)
}

/// The variable that a name means in the machine's present state.
pub fn find_variable<S: SetBoard>(machine: &Machine<S>, name: &[u8]) -> Option<Variable>
    ensures { result ≡ variable_named machine.now.input (position machine.now) name.now }
{
    machine.known();
    if name == b"TIME.V".as_slice() {
        return Some(Variable::Clock);
    }
    if let Some(global) = machine
        .program()
        .find(name)
        .and_then(|named| named.variable)
    {
        return Some(Variable::Global(global as usize));
    }
    let (section, _) = machine.place();
    machine.program().local(section, name).map(Variable::Local)
}

/// `v = value`, or `NO VARIABLE v`.
#[tactic(auto, unfolding(crate::specs::Answer::var_text))]
pub fn var_text<S: SetBoard>(
    alloc: Global,
    name: &Name,
    machine: &Machine<S>,
) -> Result<Vec<u8>, AllocError>
    ensures { IfOk result (λ text. text.items
        ≡ var_text name.now machine.now.input (position machine.now)) }
{
    machine.known();
    let Some(variable) = find_variable(machine, name.as_slice()) else {
        let mut text = Vec::from_slice(alloc, b"NO VARIABLE ")?;
        text.extend_from_slice(name.as_slice())?;
        text.extend_from_slice(b"\n")?;
        return Ok(text);
    };
    let mut text = Vec::from_slice(alloc, name.as_slice())?;
    text.extend_from_slice(b" = ")?;
    push_integer(&mut text, machine.variable(variable))?;
    text.extend_from_slice(b"\n")?;
    Ok(text)
}

/// How many values of the data are taken.
#[tactic(auto, unfolding(crate::specs::Answer::taken_text))]
pub fn taken_text<S: SetBoard>(alloc: Global, machine: &Machine<S>) -> Result<Vec<u8>, AllocError>
    ensures { IfOk result (λ text. text.items
        ≡ taken_text machine.now.input (position machine.now)) }
{
    machine.known();
    let mut text = Vec::from_slice(alloc, b"TAKEN ")?;
    push_number(&mut text, machine.taken() as u64)?;
    text.extend_from_slice(b"\n")?;
    Ok(text)
}

/// The line REPORT, and the report's bytes.
#[tactic(auto, unfolding(crate::specs::Answer::report_text))]
pub fn report_text<S: SetBoard>(alloc: Global, machine: &Machine<S>) -> Result<Vec<u8>, AllocError>
    ensures { IfOk result (λ text. text.items
        ≡ report_text machine.now.input (position machine.now)) }
{
    machine.known();
    let mut text = Vec::from_slice(alloc, b"REPORT\n")?;
    text.extend_from_slice(machine.report())?;
    Ok(text)
}

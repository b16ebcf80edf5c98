//! The answer to READS.
ghost use Rattle.std.specs.Prelude.{◌≡◌, ◌++◌, [], codes, OnOk, OnErr};
ghost use Rattle.ss_machine.specs.Moment.{position};
ghost use Rattle.ss_debug.specs.View.{debugger_state_of};
ghost use Rattle.ss_trace.specs.View.{IsBetween};
ghost use Rattle.ss_reads.specs.Answers as spec;
ghost use Rattle.ss_reads.specs.Reads.{first_ones};

use crate::part::Part;
use crate::read::Read;
use crate::reads::written_reads;
use crate::same::is_among;
use crate::value::PartReading;
use crate::words::push_part;
use crate::written::variable_name;
use ss_debug::{Debugger, push_integer, push_number};
use ss_links::SetBoard;
use ss_program::{Program, Variable};
use ss_readings::{Reading, StepPlace, last_change, push_value};
use std::alloc::{AllocError, Global};

/// Appends a step after a comma.
fn push_step(text: &mut Vec<u8>, program: &Program, step: StepPlace) -> Result<(), AllocError>
    ensures { OnOk result (text.new.items
        ≡ text.old.items ++ spec.step_text program.now step) }
{
    text.extend_from_slice(b", STATE ")?;
    push_number(text, step.position)?;
    text.extend_from_slice(b" CLOCK ")?;
    push_integer(text, step.clock)?;
    push_line(text, program, step.section, step.line)
}

/// Appends a line of a section.
fn push_line(
    text: &mut Vec<u8>,
    program: &Program,
    section: usize,
    line: usize,
) -> Result<(), AllocError>
    ensures { OnOk result (text.new.items
        ≡ text.old.items ++ spec.line_text program.now section line) }
{
    text.extend_from_slice(b" IN ")?;
    text.extend_from_slice(program.section_name(section))?;
    text.extend_from_slice(b" LINE ")?;
    push_number(text, line as u64)?;
    text.extend_from_slice(b"\n")
}

/// Appends the words before the earliest kept state.
#[tactic(auto, unfolding(crate::specs::Answers::unchanged_words))]
fn push_unchanged_words(text: &mut Vec<u8>) -> Result<(), AllocError>
    ensures { OnOk result (text.new.items ≡ text.old.items ++ spec.unchanged_words) }
{
    text.extend_from_slice(b", NO CHANGE SINCE STATE ")
}

/// Appends that nothing has changed since the earliest kept state.
fn push_unchanged(text: &mut Vec<u8>, earliest: u64) -> Result<(), AllocError>
    ensures { OnOk result (text.new.items ≡ text.old.items ++ spec.unchanged_text earliest) }
{
    push_unchanged_words(text)?;
    push_number(text, earliest)?;
    text.extend_from_slice(b"\n")
}

/// Appends the step that changed something last; or that none did since the earliest kept state.
fn push_change(
    text: &mut Vec<u8>,
    program: &Program,
    earliest: u64,
    last: Option<StepPlace>,
) -> Result<(), AllocError>
    ensures { OnOk result (text.new.items
        ≡ text.old.items ++ spec.change_text program.now earliest last) }
{
    match last {
        None => push_unchanged(text, earliest),
        Some(step) => push_step(text, program, step),
    }
}

/// The earliest kept position.
fn earliest<S: SetBoard>(debugger: &Debugger<S>) -> u64
    ensures { result ≡ debugger.now.machine.forgotten }
{
    let machine = debugger.machine();
    machine.position() - machine.kept()
}

/// Appends the line of a part: its name, its value, and the step that changed it last.
fn push_part_line<S: SetBoard>(
    debugger: &mut Debugger<S>,
    part: Part,
    text: &mut Vec<u8>,
) -> Result<(), AllocError>
    ensures input { debugger.new.machine.input ≡ debugger.old.machine.input }
    ensures place { OnOk result (debugger_state_of debugger.new ≡ debugger_state_of debugger.old) }
    ensures said { OnOk result (text.new.items ≡ text.old.items
        ++ spec.part_line debugger.old.machine.input debugger.old.machine.forgotten
        (position debugger.old.machine) part) }
    ensures memory { OnErr result (IsBetween debugger.old debugger.old.machine.forgotten
        (position debugger.old.machine) debugger.new) }
{
    debugger.machine().known();
    let alloc = *text.allocator();
    let reading = PartReading { part, alloc };
    let value = reading.value(debugger.machine(), 0)?;
    let last = last_change(debugger, &reading)?;
    let machine = debugger.machine();
    machine.known();
    let program = machine.program();
    let (section, _) = machine.place();
    push_part(text, program, section, part)?;
    text.extend_from_slice(b" = ")?;
    push_value(text, &value)?;
    push_change(text, program, earliest(debugger), last)
}

/// Appends the line of what comes next: a name, and a number if there is one.
fn push_next(text: &mut Vec<u8>, name: &[u8], number: Option<i64>) -> Result<(), AllocError>
    ensures { OnOk result (text.new.items ≡ text.old.items ++ spec.next_line name.now number) }
{
    text.extend_from_slice(b"NEXT ")?;
    text.extend_from_slice(name)?;
    text.extend_from_slice(b": ")?;
    match number {
        None => text.extend_from_slice(b"NONE")?,
        Some(number) => push_integer(text, number)?,
    }
    text.extend_from_slice(b"\n")
}

/// Appends the line of a loop's candidate.
fn push_candidate<S: SetBoard>(
    debugger: &Debugger<S>,
    variable: Variable,
    candidate: Option<i64>,
    text: &mut Vec<u8>,
) -> Result<(), AllocError>
    ensures { OnOk result (text.new.items ≡ text.old.items
        ++ spec.read_line debugger.now.machine.input debugger.now.machine.forgotten
        (position debugger.now.machine) (Read.Candidate variable candidate)) }
{
    let machine = debugger.machine();
    machine.known();
    let (section, _) = machine.place();
    push_next(
        text,
        variable_name(machine.program(), section, variable),
        candidate,
    )
}

/// Appends the line of a reference without a value.
fn push_unvalued(text: &mut Vec<u8>, reference: &[u8]) -> Result<(), AllocError>
    ensures { OnOk result (text.new.items
        ≡ text.old.items ++ (reference.now ++ codes " = NONE\n")) }
{
    text.extend_from_slice(reference)?;
    text.extend_from_slice(b" = NONE\n")
}

/// Appends the line of what a statement looks at.
fn push_read<S: SetBoard>(
    debugger: &mut Debugger<S>,
    read: &Read,
    text: &mut Vec<u8>,
) -> Result<(), AllocError>
    ensures input { debugger.new.machine.input ≡ debugger.old.machine.input }
    ensures place { OnOk result (debugger_state_of debugger.new ≡ debugger_state_of debugger.old) }
    ensures said { OnOk result (text.new.items ≡ text.old.items
        ++ spec.read_line debugger.old.machine.input debugger.old.machine.forgotten
        (position debugger.old.machine) read.now) }
    ensures memory { OnErr result (IsBetween debugger.old debugger.old.machine.forgotten
        (position debugger.old.machine) debugger.new) }
{
    debugger.machine().known();
    match read {
        Read::Candidate(variable, candidate) => {
            push_candidate(debugger, *variable, *candidate, text)
        }
        Read::Notice(class, notice) => {
            let name = debugger.machine().program().class_name(*class);
            push_next(text, name, Some(i64::from(*notice)))
        }
        Read::Part(part) => push_part_line(debugger, *part, text),
        Read::Unvalued(reference) => push_unvalued(text, &reference.text),
    }
}

/// Appends the line of what a statement looks at, if it is not among others before it.
fn push_if_new<S: SetBoard>(
    debugger: &mut Debugger<S>,
    earlier: &[Read],
    read: &Read,
    text: &mut Vec<u8>,
) -> Result<(), AllocError>
    ensures input { debugger.new.machine.input ≡ debugger.old.machine.input }
    ensures place { OnOk result (debugger_state_of debugger.new ≡ debugger_state_of debugger.old) }
    ensures said { OnOk result (text.new.items ≡ text.old.items
        ++ spec.new_line debugger.old.machine.input debugger.old.machine.forgotten
        (position debugger.old.machine) earlier.now read.now) }
    ensures memory { OnErr result (IsBetween debugger.old debugger.old.machine.forgotten
        (position debugger.old.machine) debugger.new) }
{
    if is_among(earlier, read) {
        return Ok(());
    }
    push_read(debugger, read, text)
}

/// Appends the lines of what a statement looks at, each once.
#[tactic(auto, using(crate::proofs::Firsts::more_lines))]
fn push_lines<S: SetBoard>(
    debugger: &mut Debugger<S>,
    reads: &[Read],
    text: &mut Vec<u8>,
) -> Result<(), AllocError>
    ensures input { debugger.new.machine.input ≡ debugger.old.machine.input }
    ensures place { OnOk result (debugger_state_of debugger.new ≡ debugger_state_of debugger.old) }
    ensures said { OnOk result (text.new.items ≡ text.old.items
        ++ spec.read_lines debugger.old.machine.input debugger.old.machine.forgotten
        (position debugger.old.machine) (first_ones [] reads.now)) }
    ensures memory { OnErr result (IsBetween debugger.old debugger.old.machine.forgotten
        (position debugger.old.machine) debugger.new) }
{
    debugger.machine().known();
    for i in 0..reads.len() {
        push_if_new(debugger, &reads[..i], &reads[i], text)?;
    }
    Ok(())
}

/// READS (docs/PROMPT.md): appends a line for each part of the state that the statement that runs
/// next looks at, or `NO READS`. Position, break lines and earliest kept position stay as they are.
///
/// `AllocError` if a text or a step was refused memory: then the debugger is perhaps at an earlier
/// position that is kept, and the appended bytes do not count.
#[tactic(auto, unfolding(crate::specs::Answers::reads_text, crate::specs::Reads::reads_of))]
pub fn push_reads<S: SetBoard>(
    alloc: Global,
    debugger: &mut Debugger<S>,
    text: &mut Vec<u8>,
) -> Result<(), AllocError>
    ensures input { debugger.new.machine.input ≡ debugger.old.machine.input }
    ensures place { OnOk result (debugger_state_of debugger.new ≡ debugger_state_of debugger.old) }
    ensures said { OnOk result (text.new.items ≡ text.old.items
        ++ spec.reads_text debugger.old.machine.input debugger.old.machine.forgotten
        (position debugger.old.machine)) }
    ensures memory { OnErr result (IsBetween debugger.old debugger.old.machine.forgotten
        (position debugger.old.machine) debugger.new) }
{
    debugger.machine().known();
    let reads = written_reads(alloc, debugger.machine())?;
    if reads.is_empty() {
        return text.extend_from_slice(b"NO READS\n");
    }
    push_lines(debugger, &reads, text)
}

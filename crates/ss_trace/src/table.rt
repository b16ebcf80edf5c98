//! The rows of a history, and the other texts of HISTORY and WHY.
ghost use Rattle.std.specs.Prelude.{◌≡◌, ◌++◌, OnOk, replicate, codes, decimal};
ghost use Rattle.std.specs.Fmt.{signed_decimal};
ghost use Rattle.ss_machine.specs.Moment.{position};
ghost use Rattle.ss_debug.specs.Move.{line_at};
ghost use Rattle.ss_debug.specs.Answer.{section_at};
ghost use Rattle.ss_trace.specs.Question.{question_text};
ghost use Rattle.ss_trace.specs.History.{to_right, to_left, row, head_of, head_row, no_change_head};
ghost use Rattle.ss_trace.specs.History.{no_change_text, change_line};

use crate::answer::push_asked;
use crate::question::Question;
use itoa::Buffer;
use ss_debug::{Debugger, push_number};
use ss_links::SetBoard;
use std::alloc::AllocError;

/// The widths of the columns of the table.
const STATE_WIDTH: usize = 8;

const TIME_WIDTH: usize = 7;

const SECTION_WIDTH: usize = 12;

const LINE_WIDTH: usize = 5;

/// Appends a number of blanks.
fn push_blanks(bytes: &mut Vec<u8>, count: usize) -> Result<(), AllocError>
    ensures { OnOk result (bytes.new.items ≡ bytes.old.items ++ replicate count 32) }
{
    for _ in 0..count {
        bytes.push(b' ')?;
    }
    Ok(())
}

/// Appends a text after blanks, at least `width` bytes.
fn push_right(bytes: &mut Vec<u8>, width: usize, text: &[u8]) -> Result<(), AllocError>
    ensures { OnOk result (bytes.new.items ≡ bytes.old.items ++ to_right width text.now) }
{
    push_blanks(bytes, width.saturating_sub(text.len()))?;
    bytes.extend_from_slice(text)
}

/// Appends a text with blanks after it, at least `width` bytes.
fn push_left(bytes: &mut Vec<u8>, width: usize, text: &[u8]) -> Result<(), AllocError>
    ensures { OnOk result (bytes.new.items ≡ bytes.old.items ++ to_left width text.now) }
{
    bytes.extend_from_slice(text)?;
    push_blanks(bytes, width.saturating_sub(text.len()))
}

/// Appends the first cells of a row.
fn push_cells(
    bytes: &mut Vec<u8>,
    state: &[u8],
    time: &[u8],
    section: &[u8],
) -> Result<(), AllocError>
    ensures { OnOk result (bytes.new.items ≡ bytes.old.items
        ++ to_right 8 state.now ++ codes " " ++ to_right 7 time.now ++ codes "  "
        ++ to_left 12 section.now) }
{
    push_right(bytes, STATE_WIDTH, state)?;
    bytes.extend_from_slice(b" ")?;
    push_right(bytes, TIME_WIDTH, time)?;
    bytes.extend_from_slice(b"  ")?;
    push_left(bytes, SECTION_WIDTH, section)
}

/// The cells of a row before its value.
#[derive(Drop)]
struct Cells<'a> {
    state: &'a [u8],
    time: &'a [u8],
    section: &'a [u8],
    line: &'a [u8],
}

/// Appends a row of the table.
fn push_row(bytes: &mut Vec<u8>, cells: &Cells<'_>, value: &[u8]) -> Result<(), AllocError>
    ensures { OnOk result (bytes.new.items ≡ bytes.old.items
        ++ row cells.now.state.now cells.now.time.now cells.now.section.now cells.now.line.now
        value.now) }
{
    push_cells(bytes, cells.state, cells.time, cells.section)?;
    bytes.extend_from_slice(b" ")?;
    push_right(bytes, LINE_WIDTH, cells.line)?;
    bytes.extend_from_slice(b"  ")?;
    bytes.extend_from_slice(value)?;
    bytes.extend_from_slice(b"\n")
}

/// Appends the head of a table of the values of something of this name.
pub fn push_head_of(bytes: &mut Vec<u8>, name: &[u8]) -> Result<(), AllocError>
    ensures { OnOk result (bytes.new.items ≡ bytes.old.items ++ head_of name.now) }
{
    let cells = Cells {
        state: b"STATE",
        time: b"CLOCK",
        section: b"IN",
        line: b"LINE",
    };
    push_row(bytes, &cells, name)
}

/// Appends the head of the table of a question.
fn push_head_row(bytes: &mut Vec<u8>, question: &Question) -> Result<(), AllocError>
    ensures { OnOk result (bytes.new.items ≡ bytes.old.items ++ head_row question.now) }
{
    let mut name = Vec::new(*bytes.allocator());
    push_asked(question, &mut name)?;
    push_head_of(bytes, &name)
}

/// Appends the head of the table, and its rows.
pub fn push_with_head(
    bytes: &mut Vec<u8>,
    question: &Question,
    rows: &[u8],
) -> Result<(), AllocError>
    ensures { OnOk result (bytes.new.items
        ≡ bytes.old.items ++ (head_row question.now ++ rows.now)) }
{
    push_head_row(bytes, question)?;
    bytes.extend_from_slice(rows)
}

/// The line of the debugger's present place.
pub fn present_line<S: SetBoard>(debugger: &Debugger<S>) -> usize
    ensures { result ≡ line_at debugger.now.machine.input (position debugger.now.machine) }
{
    let machine = debugger.machine();
    machine.known();
    let (section, place) = machine.place();
    machine.program().spot(section, place).line
}

/// The name of the debugger's present section.
fn present_section<S: SetBoard>(debugger: &Debugger<S>) -> &[u8]
    ensures { result.now ≡ section_at debugger.now.machine.input (position debugger.now.machine) }
{
    let machine = debugger.machine();
    machine.known();
    let (section, _) = machine.place();
    &machine.program().section(section).name.bytes
}

/// Appends the row of the debugger's next step; `value` is the text of the value after the step.
pub fn push_row_of<S: SetBoard>(
    bytes: &mut Vec<u8>,
    debugger: &Debugger<S>,
    value: &[u8],
) -> Result<(), AllocError>
    ensures { OnOk result (bytes.new.items ≡ bytes.old.items
        ++ row (decimal (position debugger.now.machine))
        (signed_decimal debugger.now.machine.state.clock)
        (section_at debugger.now.machine.input (position debugger.now.machine))
        (decimal (line_at debugger.now.machine.input (position debugger.now.machine))) value.now) }
{
    let machine = debugger.machine();
    let mut state = Buffer::new();
    let mut clock = Buffer::new();
    let mut line = Buffer::new();
    let cells = Cells {
        state: state.format(machine.position()).as_bytes(),
        time: clock.format(machine.clock()).as_bytes(),
        section: present_section(debugger),
        line: line.format(present_line(debugger) as u64).as_bytes(),
    };
    push_row(bytes, &cells, value)
}

/// The earliest kept position.
fn earliest<S: SetBoard>(debugger: &Debugger<S>) -> u64
    ensures { result ≡ debugger.now.machine.forgotten }
{
    let machine = debugger.machine();
    machine.position() - machine.kept()
}

/// Appends the earliest kept position.
fn push_earliest<S: SetBoard>(bytes: &mut Vec<u8>, debugger: &Debugger<S>) -> Result<(), AllocError>
    ensures { OnOk result (bytes.new.items ≡ bytes.old.items
        ++ decimal debugger.now.machine.forgotten) }
{
    push_number(bytes, earliest(debugger))
}

/// Appends the text for a question that did not change.
#[tactic(auto, unfolding(crate::specs::History::no_change_head))]
fn push_no_change_head(bytes: &mut Vec<u8>) -> Result<(), AllocError>
    ensures { OnOk result (bytes.new.items ≡ bytes.old.items ++ no_change_head) }
{
    bytes.extend_from_slice(b"NO CHANGE SINCE STATE ")
}

/// Appends that a question did not change since the earliest kept state.
pub fn push_no_change<S: SetBoard>(
    bytes: &mut Vec<u8>,
    debugger: &Debugger<S>,
) -> Result<(), AllocError>
    ensures { OnOk result (bytes.new.items ≡ bytes.old.items
        ++ no_change_text debugger.now.machine.forgotten) }
{
    push_no_change_head(bytes)?;
    push_earliest(bytes, debugger)?;
    bytes.extend_from_slice(b"\n")
}

/// Appends a line of a question with its values before and after.
pub fn push_change_line(
    bytes: &mut Vec<u8>,
    question: &Question,
    before: &[u8],
    after: &[u8],
) -> Result<(), AllocError>
    ensures { OnOk result (bytes.new.items ≡ bytes.old.items
        ++ change_line (codes "CHANGED") (question_text question.now) before.now after.now) }
{
    bytes.extend_from_slice(b"CHANGED ")?;
    push_asked(question, bytes)?;
    bytes.extend_from_slice(b": ")?;
    bytes.extend_from_slice(before)?;
    bytes.extend_from_slice(b" -> ")?;
    bytes.extend_from_slice(after)?;
    bytes.extend_from_slice(b"\n")
}

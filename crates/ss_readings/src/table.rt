//! The rows of a history, and the other texts of HISTORY and WHY.
ghost use Rattle.std.specs.Prelude.{◌≡◌, ◌++◌, OnOk, codes, decimal};
ghost use Rattle.std.specs.Fmt.{signed_decimal};
ghost use Rattle.ss_machine.specs.Moment.{position};
ghost use Rattle.ss_debug.specs.Move.{line_at};
ghost use Rattle.ss_debug.specs.Answer.{section_at};
ghost use Rattle.ss_trace.specs.History.{row, head_of, change_line};
ghost use Rattle.ss_readings.specs.Value.{value_text};
ghost use Rattle.ss_readings.specs.ValueView.{value_if};
ghost use Rattle.ss_readings.specs.History.{step_place};

use crate::step_place::StepPlace;
use crate::value::{Value, push_value};
use ss_debug::Debugger;
use ss_links::SetBoard;
use ss_trace::{present_line, push_head_of, push_row_of};
use std::alloc::AllocError;

/// The debugger's next step.
pub fn present_step<S: SetBoard>(debugger: &Debugger<S>) -> StepPlace
    ensures { result ≡ step_place debugger.now.machine.input (position debugger.now.machine) }
{
    let machine = debugger.machine();
    machine.known();
    let (section, _) = machine.place();
    StepPlace {
        position: machine.position(),
        clock: machine.clock(),
        section,
        line: present_line(debugger),
    }
}

/// Appends the head of the table of something of this name, and its rows.
pub fn push_with_head(bytes: &mut Vec<u8>, name: &[u8], rows: &[u8]) -> Result<(), AllocError>
    ensures { OnOk result (bytes.new.items ≡ bytes.old.items ++ (head_of name.now ++ rows.now)) }
{
    push_head_of(bytes, name)?;
    bytes.extend_from_slice(rows)
}

/// Appends the row of the debugger's next step; `after` is the value after the step.
pub fn push_step_row<S: SetBoard>(
    bytes: &mut Vec<u8>,
    debugger: &Debugger<S>,
    after: &Option<Value>,
) -> Result<(), AllocError>
    ensures { OnOk result (bytes.new.items ≡ bytes.old.items
        ++ row (decimal (position debugger.now.machine))
        (signed_decimal debugger.now.machine.state.clock)
        (section_at debugger.now.machine.input (position debugger.now.machine))
        (decimal (line_at debugger.now.machine.input (position debugger.now.machine)))
        (value_text (value_if after.now))) }
{
    let mut value = Vec::new(*bytes.allocator());
    push_value(&mut value, after)?;
    push_row_of(bytes, debugger, &value)
}

/// Appends the line of something of this name with its values before and after a step.
pub fn push_change_line(
    bytes: &mut Vec<u8>,
    name: &[u8],
    before: &Option<Value>,
    after: &Option<Value>,
) -> Result<(), AllocError>
    ensures { OnOk result (bytes.new.items ≡ bytes.old.items
        ++ change_line (codes "CHANGED") name.now (value_text (value_if before.now))
        (value_text (value_if after.now))) }
{
    bytes.extend_from_slice(b"CHANGED ")?;
    bytes.extend_from_slice(name)?;
    bytes.extend_from_slice(b": ")?;
    push_value(bytes, before)?;
    bytes.extend_from_slice(b" -> ")?;
    push_value(bytes, after)?;
    bytes.extend_from_slice(b"\n")
}

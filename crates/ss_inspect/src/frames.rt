//! The answers to SHOW CALLS, SHOW LOCALS and SHOW GLOBALS.
ghost use Rattle.std.specs.Prelude.{◌≡◌, ◌++◌, ◌<◌, length, OnOk, pos, unwrap_or, slice_index_or};
ghost use Rattle.ss_state.specs.Frames.{frame_local};
ghost use Rattle.ss_machine.specs.Moment.{position};
ghost use Rattle.ss_inspect.specs.Frames.{locals_in, local_text, listed_local, frame_line, frame_lines, calls_text};
ghost use Rattle.ss_inspect.specs.Frames.{local_line, local_lines, locals_text};
ghost use Rattle.ss_inspect.specs.Frames.{global_line, global_lines, globals_text};
ghost use Rattle.ss_inspect.specs.Texts.{texts_below};

use crate::texts::push_named_value;
use ss_debug::{place_line, push_number};
use ss_links::SetBoard;
use ss_machine::Machine;
use ss_program::{Variable, name_at};
use std::alloc::AllocError;

/// The value of a local of the frame with `depth` frames above it, 0 if there is none.
fn local_value<S: SetBoard>(machine: &Machine<S>, depth: usize, number: usize) -> i64
    ensures { result ≡ unwrap_or (frame_local machine.now.state depth number) (pos 0) }
{
    machine.frame_local(depth, number).unwrap_or(0)
}

/// Appends a local of the frame with `depth` frames above it, whose section this is.
fn push_local<S: SetBoard>(
    text: &mut Vec<u8>,
    machine: &Machine<S>,
    depth: usize,
    section: usize,
    number: usize,
) -> Result<(), AllocError>
    ensures { OnOk result (text.new.items ≡ text.old.items
        ++ local_text machine.now.input.program machine.now.state depth section number) }
{
    let name = name_at(machine.program().locals(section), number);
    push_named_value(text, name, local_value(machine, depth, number))
}

/// Appends that local in one line with others: the first after a colon, each other after a comma.
fn push_listed_local<S: SetBoard>(
    text: &mut Vec<u8>,
    machine: &Machine<S>,
    depth: usize,
    section: usize,
    number: usize,
) -> Result<(), AllocError>
    ensures { OnOk result (text.new.items ≡ text.old.items
        ++ listed_local machine.now.input.program machine.now.state depth section number) }
{
    if number == 0 {
        text.extend_from_slice(b": ")?;
    } else {
        text.extend_from_slice(b", ")?;
    }
    push_local(text, machine, depth, section, number)
}

/// Appends all locals of a frame in one line.
fn push_listed_locals<S: SetBoard>(
    text: &mut Vec<u8>,
    machine: &Machine<S>,
    depth: usize,
    section: usize,
) -> Result<(), AllocError>
    ensures { OnOk result (text.new.items ≡ text.old.items
        ++ texts_below (listed_local machine.now.input.program machine.now.state depth section)
        (length (locals_in machine.now.input.program section))) }
{
    for number in 0..machine.program().locals(section).len() {
        push_listed_local(text, machine, depth, section, number)?;
    }
    Ok(())
}

/// Appends the line of the frame with `depth` frames above it.
fn push_frame<S: SetBoard>(
    text: &mut Vec<u8>,
    machine: &Machine<S>,
    depth: usize,
) -> Result<(), AllocError>
    ensures { OnOk result (text.new.items ≡ text.old.items
        ++ frame_line machine.now.input.program machine.now.state depth) }
{
    let Some((section, place)) = machine.frame_place(depth) else {
        return Ok(());
    };
    let program = machine.program();
    text.extend_from_slice(program.section_name(section))?;
    text.extend_from_slice(b" LINE ")?;
    push_number(text, place_line(program, section, place) as u64)?;
    push_listed_locals(text, machine, depth, section)?;
    text.extend_from_slice(b"\n")
}

/// Appends a line for each frame.
fn push_frames<S: SetBoard>(text: &mut Vec<u8>, machine: &Machine<S>) -> Result<(), AllocError>
    ensures { OnOk result (text.new.items ≡ text.old.items
        ++ frame_lines machine.now.input.program machine.now.state) }
{
    for depth in 0..machine.frames() {
        push_frame(text, machine, depth)?;
    }
    Ok(())
}

/// Appends the answer to SHOW CALLS: a line for each frame, the last one first, with its section,
/// the line of its place and its locals.
#[tactic(auto, unfolding(crate::specs::Frames::calls_text))]
pub(crate) fn push_calls<S: SetBoard>(
    text: &mut Vec<u8>,
    machine: &Machine<S>,
) -> Result<(), AllocError>
    ensures { OnOk result (text.new.items
        ≡ text.old.items ++ calls_text machine.now.input (position machine.now)) }
{
    machine.known();
    push_frames(text, machine)
}

/// Appends the line of a local of the last frame, whose section this is.
fn push_local_line<S: SetBoard>(
    text: &mut Vec<u8>,
    machine: &Machine<S>,
    section: usize,
    number: usize,
) -> Result<(), AllocError>
    ensures { OnOk result (text.new.items ≡ text.old.items
        ++ local_line machine.now.input.program machine.now.state section number) }
{
    push_local(text, machine, 0, section, number)?;
    text.extend_from_slice(b"\n")
}

/// Appends a line for each local of the last frame, whose section this is.
fn push_section_locals<S: SetBoard>(
    text: &mut Vec<u8>,
    machine: &Machine<S>,
    section: usize,
) -> Result<(), AllocError>
    ensures { OnOk result (text.new.items ≡ text.old.items
        ++ texts_below (local_line machine.now.input.program machine.now.state section)
        (length (locals_in machine.now.input.program section))) }
{
    for number in 0..machine.program().locals(section).len() {
        push_local_line(text, machine, section, number)?;
    }
    Ok(())
}

/// Appends the lines of the locals of the last frame, or that there is none.
fn push_local_lines<S: SetBoard>(text: &mut Vec<u8>, machine: &Machine<S>) -> Result<(), AllocError>
    ensures { OnOk result (text.new.items ≡ text.old.items
        ++ local_lines machine.now.input.program machine.now.state) }
{
    let (section, _) = machine.place();
    if machine.program().locals(section).len() == 0 {
        return text.extend_from_slice(b"NO LOCALS\n");
    }
    push_section_locals(text, machine, section)
}

/// Appends the answer to SHOW LOCALS: the locals of the last frame with their values, in the order
/// of the section's table, or `NO LOCALS`.
#[tactic(auto, unfolding(crate::specs::Frames::locals_text))]
pub(crate) fn push_locals<S: SetBoard>(
    text: &mut Vec<u8>,
    machine: &Machine<S>,
) -> Result<(), AllocError>
    ensures { OnOk result (text.new.items
        ≡ text.old.items ++ locals_text machine.now.input (position machine.now)) }
{
    machine.known();
    push_local_lines(text, machine)
}

/// The value of the global variable with this number.
fn global_value<S: SetBoard>(machine: &Machine<S>, number: usize) -> i64
    requires { number < length machine.now.input.program.globals }
    ensures { result ≡ slice_index_or machine.now.state.variables number (pos 0) }
{
    machine.known();
    machine.variable(Variable::Global(number))
}

/// Appends the line of a global variable.
fn push_global<S: SetBoard>(
    text: &mut Vec<u8>,
    machine: &Machine<S>,
    number: usize,
) -> Result<(), AllocError>
    requires { number < length machine.now.input.program.globals }
    ensures { OnOk result (text.new.items ≡ text.old.items
        ++ global_line machine.now.input.program machine.now.state number) }
{
    let name = name_at(&machine.program().globals, number);
    push_named_value(text, name, global_value(machine, number))?;
    text.extend_from_slice(b"\n")
}

/// Appends a line for each global variable.
fn push_all_globals<S: SetBoard>(text: &mut Vec<u8>, machine: &Machine<S>) -> Result<(), AllocError>
    ensures { OnOk result (text.new.items ≡ text.old.items
        ++ texts_below (global_line machine.now.input.program machine.now.state)
        (length machine.now.input.program.globals)) }
{
    for number in 0..machine.program().globals.len() {
        push_global(text, machine, number)?;
    }
    Ok(())
}

/// Appends the lines of the global variables, or that there is none.
fn push_global_lines<S: SetBoard>(
    text: &mut Vec<u8>,
    machine: &Machine<S>,
) -> Result<(), AllocError>
    ensures { OnOk result (text.new.items ≡ text.old.items
        ++ global_lines machine.now.input.program machine.now.state) }
{
    if machine.program().globals.len() == 0 {
        return text.extend_from_slice(b"NO GLOBALS\n");
    }
    push_all_globals(text, machine)
}

/// Appends the answer to SHOW GLOBALS: the global variables with their values, in the order of
/// declaration, or `NO GLOBALS`. TIME.V is none of them.
#[tactic(auto, unfolding(crate::specs::Frames::globals_text))]
pub(crate) fn push_globals<S: SetBoard>(
    text: &mut Vec<u8>,
    machine: &Machine<S>,
) -> Result<(), AllocError>
    ensures { OnOk result (text.new.items
        ≡ text.old.items ++ globals_text machine.now.input (position machine.now)) }
{
    machine.known();
    push_global_lines(text, machine)
}

//! Frames, and the variables of a frame and of the run.
ghost use Rattle.std.specs.Prelude.{◌≡◌, ◌++◌, ◌-◌, ◌^◌, ◌<◌, length, OnOk, pos, unwrap_or, slice_index_or};
ghost use Rattle.std.specs.Fmt.{signed_decimal};
ghost use Rattle.ss_state.specs.Frames.{frame_local};
ghost use Rattle.ss_inspect.specs.Frames.{locals_in};
ghost use Rattle.ss_messages.specs.Bodies.{variable_item};
ghost use Rattle.ss_scopes.specs.Pages as pages;
ghost use Rattle.ss_scopes.specs.Frames.{frame_text, frames_page, local_item, locals_page, global_item, globals_page};

use crate::pages::Page;
use itoa::Buffer;
use ss_debug::place_line;
use ss_links::SetBoard;
use ss_machine::Machine;
use ss_messages::{Source, frame_item, variable_item};
use ss_program::{Variable, name_at};
use std::alloc::AllocError;

/// Appends the frame with `depth` frames above it.
fn push_frame<S: SetBoard>(
    out: &mut Vec<u8>,
    machine: &Machine<S>,
    source: Source<'_>,
    depth: usize,
) -> Result<(), AllocError>
    requires { depth < 2 ^ 64 - 1 }
    ensures { OnOk result (out.new.items ≡ out.old.items
        ++ frame_text machine.now.input.program machine.now.state source.entry.path.now
        source.entry.counting depth) }
{
    let Some((section, place)) = machine.frame_place(depth) else {
        return Ok(());
    };
    let program = machine.program();
    let line = place_line(program, section, place) as u64;
    let item = frame_item(
        *out.allocator(),
        depth as u64 + 1,
        program.section_name(section),
        line,
        source,
    )?;
    out.extend_from_slice(&item)
}

/// Appends a page of the frames, the last one first, each with its line of the model.
pub fn push_frames<S: SetBoard>(
    out: &mut Vec<u8>,
    machine: &Machine<S>,
    source: Source<'_>,
    page: Page,
) -> Result<(), AllocError>
    ensures { OnOk result (out.new.items ≡ out.old.items
        ++ frames_page machine.now.input.program machine.now.state source.entry.path.now
        source.entry.counting page.start page.count) }
{
    for k in 0..page.size(machine.frames()) {
        push_frame(out, machine, source, page.start + k)?;
    }
    Ok(())
}

/// The value of a local of the frame with `depth` frames above it; 0 if there is none.
fn local_value<S: SetBoard>(machine: &Machine<S>, depth: usize, number: usize) -> i64
    ensures { result ≡ unwrap_or (frame_local machine.now.state depth number) (pos 0) }
{
    machine.frame_local(depth, number).unwrap_or(0)
}

/// Appends a comma and a variable with its value.
fn push_value(out: &mut Vec<u8>, name: &[u8], value: i64) -> Result<(), AllocError>
    ensures { OnOk result (out.new.items ≡ out.old.items
        ++ variable_item name.now (signed_decimal value) 0) }
{
    let mut buffer = Buffer::new();
    let item = variable_item(*out.allocator(), name, buffer.format(value).as_bytes(), 0)?;
    out.extend_from_slice(&item)
}

/// Appends a local of the frame with `depth` frames above it; the frame is of this section.
fn push_local<S: SetBoard>(
    out: &mut Vec<u8>,
    machine: &Machine<S>,
    depth: usize,
    section: usize,
    number: usize,
) -> Result<(), AllocError>
    ensures { OnOk result (out.new.items ≡ out.old.items
        ++ local_item machine.now.input.program machine.now.state depth section number) }
{
    let name = name_at(machine.program().locals(section), number);
    push_value(out, name, local_value(machine, depth, number))
}

/// Appends a page of the locals of a frame, which is of this section.
fn push_section_locals<S: SetBoard>(
    out: &mut Vec<u8>,
    machine: &Machine<S>,
    depth: usize,
    section: usize,
    page: Page,
) -> Result<(), AllocError>
    ensures { OnOk result (out.new.items ≡ out.old.items
        ++ pages.page (local_item machine.now.input.program machine.now.state depth section)
        page.start page.count (length (locals_in machine.now.input.program section))) }
{
    for k in 0..page.size(machine.program().locals(section).len()) {
        push_local(out, machine, depth, section, page.start + k)?;
    }
    Ok(())
}

/// Appends a page of the locals of the frame with `depth` frames above it.
pub fn push_locals<S: SetBoard>(
    out: &mut Vec<u8>,
    machine: &Machine<S>,
    depth: usize,
    page: Page,
) -> Result<(), AllocError>
    ensures { OnOk result (out.new.items ≡ out.old.items
        ++ locals_page machine.now.input.program machine.now.state depth page.start page.count) }
{
    let Some((section, _)) = machine.frame_place(depth) else {
        return Ok(());
    };
    push_section_locals(out, machine, depth, section, page)
}

/// The value of the global variable with this number.
fn global_value<S: SetBoard>(machine: &Machine<S>, number: usize) -> i64
    requires { number < length machine.now.input.program.globals }
    ensures { result ≡ slice_index_or machine.now.state.variables number (pos 0) }
{
    machine.known();
    machine.variable(Variable::Global(number))
}

/// Appends the global variable with this number.
fn push_global<S: SetBoard>(
    out: &mut Vec<u8>,
    machine: &Machine<S>,
    number: usize,
) -> Result<(), AllocError>
    requires { number < length machine.now.input.program.globals }
    ensures { OnOk result (out.new.items ≡ out.old.items
        ++ global_item machine.now.input.program machine.now.state number) }
{
    let name = name_at(&machine.program().globals, number);
    push_value(out, name, global_value(machine, number))
}

/// Appends a page of the global variables.
pub fn push_globals<S: SetBoard>(
    out: &mut Vec<u8>,
    machine: &Machine<S>,
    page: Page,
) -> Result<(), AllocError>
    ensures { OnOk result (out.new.items ≡ out.old.items
        ++ globals_page machine.now.input.program machine.now.state page.start page.count) }
{
    for k in 0..page.size(machine.program().globals.len()) {
        push_global(out, machine, page.start + k)?;
    }
    Ok(())
}

//! Sections by their names, and their lines.
ghost use Rattle.std.specs.Prelude.{◌≡◌, ◌++◌, ◌<◌, length, slice_get, OnOk};
ghost use Rattle.ss_debug.specs.Move.{line_at, spot_line};
ghost use Rattle.ss_machine.specs.Moment.{position as moment_position};
ghost use Rattle.ss_program.specs.Program.{section_of};
ghost use Rattle.ss_prompt.specs.Sections.{no_section, first_line, last_line, line_of_section, taken_line};

use ss_debug::GREATEST_LINE;
use ss_links::SetBoard;
use ss_machine::Machine;
use ss_program::{Program, Spot};
use std::alloc::AllocError;

/// The line of a place, 0 if there is none.
fn line_of(places: &[Spot], place: usize) -> usize
    ensures { result ≡ spot_line (slice_get places.now place) }
{
    match places.get(place) {
        Some(spot) => spot.line,
        None => 0,
    }
}

/// The line of the first place of the section with this number.
pub(crate) fn first_line(program: &Program, section: usize) -> usize
    requires { section < length program.now.sections }
    ensures { result ≡ first_line program.now section }
{
    line_of(&program.section(section).places, 0)
}

/// The line of the first place of the section of this name.
pub(crate) fn line_of_section(program: &Program, name: &[u8]) -> Option<usize>
    ensures { result ≡ line_of_section program.now name.now }
{
    let section = program.find_section(name)?;
    Some(first_line(program, section))
}

/// That line, if BREAK and CLEAR take it.
pub(crate) fn taken_line_of(program: &Program, name: &[u8]) -> Option<u32>
    ensures { result ≡ taken_line (line_of_section program.now name.now) }
{
    let line = line_of_section(program, name)?;
    if line > GREATEST_LINE as usize {
        return None;
    }
    Some(line as u32)
}

/// The line of its last place.
pub(crate) fn last_line(program: &Program, section: usize) -> usize
    requires { section < length program.now.sections }
    ensures { result ≡ last_line program.now section }
{
    let places = &program.section(section).places;
    line_of(places, places.len().saturating_sub(1))
}

/// The number of the section of the last frame of a machine.
pub(crate) fn present_section<S: SetBoard>(machine: &Machine<S>) -> usize
    ensures { result ≡ machine.now.state.frame.section }
{
    machine.place().0
}

/// The line of the present place of a machine.
pub(crate) fn present_line<S: SetBoard>(machine: &Machine<S>) -> usize
    ensures { result ≡ line_at machine.now.input (moment_position machine.now) }
{
    machine.known();
    let (section, place) = machine.place();
    machine.program().spot(section, place).line
}

/// Appends that there is no section of this name.
pub(crate) fn push_no_section(text: &mut Vec<u8>, name: &[u8]) -> Result<(), AllocError>
    ensures { OnOk result (text.new.items ≡ text.old.items ++ no_section name.now) }
{
    text.extend_from_slice(b"NO SECTION ")?;
    text.extend_from_slice(name)?;
    text.extend_from_slice(b"\n")
}

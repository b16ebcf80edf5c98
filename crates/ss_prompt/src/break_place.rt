//! The places at which BREAK with a condition sets a break line.
ghost use Rattle.std.specs.Prelude.{◌≡◌, ◌<◌, length, position, slice_get, codes, Some, IfSome};
ghost use Rattle.ss_program.specs.Program.{section_of};
ghost use Rattle.ss_prompt.specs.BreakPlaces.{has_place_on, section_on, first_point, point_at};
ghost use Rattle.ss_prompt.specs.BreakPlaces.{line_at_place, break_word};

use crate::line::name_of_word;
use crate::sections::{first_line, taken_line_of};
use ss_debug::Name;
use ss_program::{Program, Section};

/// A place at which a break line is set.
#[derive(Drop)]
pub enum BreakPlace {
    /// At this line.
    Line(u32),
    /// At the first place of the section of this name.
    Section(Name),
}

/// A line, and the number of the section in which the names of its condition are read.
#[derive(Clone, Copy)]
pub struct BreakSpot {
    /// The line.
    pub line: usize,
    /// The number of the section.
    pub section: usize,
}

/// Whether a section has a place on a line.
fn has_place_on(line: usize, section: &Section) -> bool
    ensures { result ≡ has_place_on line section.now }
{
    section.places.iter().any(|spot| spot.line == line)
}

/// The first of some sections with a place on a line.
fn first_on(sections: &[Section], line: usize) -> Option<usize>
    ensures { result ≡ position (has_place_on line) sections.now }
{
    sections.iter().position(|s| has_place_on(line, s))
}

/// The first section in the text with a place on a line, or else MAIN.
pub fn section_on(program: &Program, line: usize) -> usize
    ensures { result ≡ section_on program.now line }
{
    match first_on(&program.sections, line) {
        Some(section) => section,
        None => program.main(),
    }
}

/// The first place of the section of a name, if the program has it.
fn first_point(program: &Program, name: &[u8]) -> Option<BreakSpot>
    ensures { result ≡ first_point program.now name.now }
{
    let section = program.find_section(name)?;
    let line = first_line(program, section);
    Some(BreakSpot { line, section })
}

impl BreakPlace {
    /// Its line and its section, if the program has the section.
    pub(crate) fn point(&self, program: &Program) -> Option<BreakSpot>
        ensures { result ≡ point_at program.now self.now }
    {
        match self {
            BreakPlace::Line(line) => {
                let line = *line as usize;
                let section = section_on(program, line);
                Some(BreakSpot { line, section })
            }
            BreakPlace::Section(name) => first_point(program, name.as_slice()),
        }
    }

    /// The line that BREAK there makes a break line, if BREAK takes it.
    pub(crate) fn line(&self, program: &Program) -> Option<u32>
        ensures { result ≡ line_at_place program.now self.now }
    {
        match self {
            BreakPlace::Line(line) => Some(*line),
            BreakPlace::Section(name) => taken_line_of(program, name.as_slice()),
        }
    }
}

/// The word BREAK as the name of a form of commands.
pub(crate) fn break_word() -> Option<Name>
    ensures { result ≡ break_word }
{
    name_of_word(b"BREAK")
}

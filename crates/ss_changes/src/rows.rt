//! The section of a frame, and the names of its locals.
ghost use Rattle.std.specs.Prelude.{◌≡◌};
ghost use Rattle.ss_changes.specs.Parts.{names_in, local_names, section_below, is_same_section};

use ss_links::SetBoard;
use ss_machine::Machine;
use ss_program::{Name, Program};

/// The names of the locals of the section that a frame runs, whose place this is.
pub fn names_in(program: &Program, place: Option<(usize, usize)>) -> &[Name]
    ensures { result.now ≡ names_in program.now place }
{
    match place {
        None => &[],
        Some((section, _)) => program.locals(section),
    }
}

/// The names of the locals of the section of the frame with `below` frames below it.
pub fn local_names<S: SetBoard>(machine: &Machine<S>, below: usize) -> &[Name]
    ensures { result.now ≡ local_names machine.now.input.program machine.now.state below }
{
    let depth = (machine.frames() - 1).saturating_sub(below);
    names_in(machine.program(), machine.frame_place(depth))
}

/// The section that the frame with `below` frames below it runs.
pub fn section_below<S: SetBoard>(machine: &Machine<S>, below: usize) -> Option<usize>
    ensures { result ≡ section_below machine.now.state below }
{
    let depth = (machine.frames() - 1).saturating_sub(below);
    let (section, _) = machine.frame_place(depth)?;
    Some(section)
}

/// Whether two frames run the same section.
pub fn is_same_section(one: Option<usize>, other: Option<usize>) -> bool
    ensures { result ≡ is_same_section one other }
{
    match (one, other) {
        (Some(one), Some(other)) => one == other,
        _ => false,
    }
}

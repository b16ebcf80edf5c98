//! The overviews of a state: questions of two words, each with one answer.
ghost use Rattle.std.specs.Prelude.{◌≡◌, ◌++◌, OnOk};
ghost use Rattle.ss_machine.specs.Moment.{position};
ghost use Rattle.ss_inspect.specs.Overviews.{assign_word, making_word, filing_word, output_word, control_word};
ghost use Rattle.ss_inspect.specs.Overviews.{branch_word, looping_word, timing_word, statement_word, spot_word};
ghost use Rattle.ss_inspect.specs.Overviews.{placed_text, place_text, overview_text};
ghost use Rattle.ss_program.specs.Program.{spot_at};

use crate::frames::{push_calls, push_globals, push_locals};
use crate::tables::{push_classes, push_sections, push_sets};
use ss_debug::{place_line, push_number};
use ss_links::SetBoard;
use ss_machine::Machine;
use ss_program::{
    Assign, Branch, Control, Filing, Looping, Making, Output, Place, Program, Timing,
};
use std::alloc::AllocError;

/// An overview of a state, for which SHOW and its word ask (docs/PROMPT.md).
#[derive(Clone, Copy)]
pub enum Overview {
    /// SHOW PLACE: the section, the line and the word of the next statement.
    Place,
    /// SHOW CALLS: the frames, the last first.
    Calls,
    /// SHOW LOCALS: the locals of the last frame.
    Locals,
    /// SHOW GLOBALS: the global variables.
    Globals,
    /// SHOW CLASSES: the classes, and how many of each live.
    Classes,
    /// SHOW SETS: the sets.
    Sets,
    /// SHOW SECTIONS: the sections.
    Sections,
}

/// The word of an assignment.
fn assign_word(assign: &Assign) -> &'static [u8]
    ensures { result.now ≡ assign_word assign.now }
{
    match assign {
        Assign::Let { .. } => b"LET",
        Assign::Add { .. } => b"ADD",
        Assign::Subtract { .. } => b"SUBTRACT",
    }
}

/// The word of a statement that creates or destroys.
fn making_word(making: &Making) -> &'static [u8]
    ensures { result.now ≡ making_word making.now }
{
    match making {
        Making::Create { .. } | Making::CreateEvery { .. } => b"CREATE",
        Making::Destroy { .. } => b"DESTROY",
    }
}

/// The word of a statement that files or removes.
fn filing_word(filing: &Filing) -> &'static [u8]
    ensures { result.now ≡ filing_word filing.now }
{
    match filing {
        Filing::File { .. } | Filing::FileAt { .. } => b"FILE",
        Filing::RemoveAt { .. } | Filing::Remove { .. } => b"REMOVE",
    }
}

/// The word of a statement that appends to the report.
fn output_word(output: &Output) -> &'static [u8]
    ensures { result.now ≡ output_word output.now }
{
    match output {
        Output::Print { .. } => b"PRINT",
        Output::Skip(_) => b"SKIP",
    }
}

/// The word of a statement that ends a section or the run.
fn control_word(control: Control) -> &'static [u8]
    ensures { result.now ≡ control_word control }
{
    match control {
        Control::Stop => b"STOP",
        Control::Return => b"RETURN",
        Control::End => b"END",
    }
}

/// The word of a place of an IF.
fn branch_word(branch: &Branch) -> &'static [u8]
    ensures { result.now ≡ branch_word branch.now }
{
    match branch {
        Branch::If(_) => b"IF",
        Branch::Else => b"ELSE",
        Branch::Always => b"ALWAYS",
    }
}

/// The word of a place of a loop.
fn looping_word(looping: &Looping) -> &'static [u8]
    ensures { result.now ≡ looping_word looping.now }
{
    match looping {
        Looping::For(_) => b"FOR",
        Looping::Loop => b"LOOP",
        Looping::Find => b"FIND",
        Looping::Gather(_) | Looping::Tell(_) => b"COMPUTE",
    }
}

/// The word of a statement on events.
fn timing_word(timing: &Timing) -> &'static [u8]
    ensures { result.now ≡ timing_word timing.now }
{
    match timing {
        Timing::Schedule(_) => b"SCHEDULE",
        Timing::Cancel { .. } => b"CANCEL",
        Timing::Start => b"START",
    }
}

/// The word of a statement.
fn statement_word(statement: &Place) -> &'static [u8]
    ensures { result.now ≡ statement_word statement.now }
{
    match statement {
        Place::Assign(assign) => assign_word(assign),
        Place::Making(making) => making_word(making.value()),
        Place::Filing(filing) => filing_word(filing.value()),
        Place::Output(output) => output_word(output.value()),
        Place::Control(control) => control_word(*control),
        Place::Branch(branch) => branch_word(branch),
        Place::Looping(looping) => looping_word(looping),
        Place::Call(_) => b"CALL",
        Place::Timing(timing) => timing_word(timing.value()),
        Place::Read(_) => b"READ",
    }
}

/// The word of a place, an empty one if there is no place.
fn spot_word(program: &Program, section: usize, place: usize) -> &'static [u8]
    ensures { result.now ≡ spot_word (spot_at program.now section place) }
{
    match program.spot_at(section, place) {
        None => b"",
        Some(spot) => statement_word(&spot.place),
    }
}

/// Appends a place: its section, its line and its word.
fn push_placed(
    text: &mut Vec<u8>,
    program: &Program,
    section: usize,
    place: usize,
) -> Result<(), AllocError>
    ensures { OnOk result (text.new.items
        ≡ text.old.items ++ placed_text program.now section place) }
{
    text.extend_from_slice(program.section_name(section))?;
    text.extend_from_slice(b" LINE ")?;
    push_number(text, place_line(program, section, place) as u64)?;
    text.extend_from_slice(b" ")?;
    text.extend_from_slice(spot_word(program, section, place))?;
    text.extend_from_slice(b"\n")
}

/// Appends the answer to SHOW PLACE: the place of the last frame.
#[tactic(auto, unfolding(crate::specs::Overviews::place_text))]
fn push_place<S: SetBoard>(text: &mut Vec<u8>, machine: &Machine<S>) -> Result<(), AllocError>
    ensures { OnOk result (text.new.items
        ≡ text.old.items ++ place_text machine.now.input (position machine.now)) }
{
    machine.known();
    let (section, place) = machine.place();
    push_placed(text, machine.program(), section, place)
}

/// Appends the text of an overview of the machine's present state.
#[tactic(auto, unfolding(crate::specs::Overviews::overview_text))]
pub fn push_overview<S: SetBoard>(
    text: &mut Vec<u8>,
    machine: &Machine<S>,
    overview: Overview,
) -> Result<(), AllocError>
    ensures { OnOk result (text.new.items ≡ text.old.items
        ++ overview_text overview machine.now.input (position machine.now)) }
{
    match overview {
        Overview::Place => push_place(text, machine),
        Overview::Calls => push_calls(text, machine),
        Overview::Locals => push_locals(text, machine),
        Overview::Globals => push_globals(text, machine),
        Overview::Classes => push_classes(text, machine),
        Overview::Sets => push_sets(text, machine),
        Overview::Sections => push_sections(text, machine),
    }
}

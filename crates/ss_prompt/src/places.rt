//! Lines of the model on which a place is.
ghost use Rattle.std.specs.Prelude.{◌≡◌, ◌++◌, fold, map, OnOk};
ghost use Rattle.ss_prompt.specs.Places.{nearer_line, next_line, next_text, no_place_text};

use ss_debug::push_number;
use ss_program::{Program, Spot};
use std::alloc::AllocError;

/// The nearer of two lines, the first of which may be none, that are not before a line.
fn nearer_line(from: usize, nearest: Option<usize>, line: usize) -> Option<usize>
    ensures { result ≡ nearer_line from nearest line }
{
    if line < from {
        return nearest;
    }
    match nearest {
        Some(found) if found <= line => nearest,
        _ => Some(line),
    }
}

/// The nearest line with a place among these, or the one so far.
fn nearest_in(from: usize, nearest: Option<usize>, places: &[Spot]) -> Option<usize>
    ensures { result ≡ fold (nearer_line from) nearest (map (λ spot. spot.line) places.now) }
{
    let mut best = nearest;
    for spot in places {
        best = nearer_line(from, best, spot.line);
    }
    best
}

/// The nearest line with a place, from a line on.
#[tactic(auto, unfolding(crate::specs::Places::next_line), using(crate::proofs::Nearest::fold_both))]
pub(crate) fn next_line(program: &Program, from: usize) -> Option<usize>
    ensures { result ≡ next_line program.now from }
{
    let mut best = None;
    for section in &program.sections {
        best = nearest_in(from, best, &section.places);
    }
    best
}

/// Appends which line is the next with a place, if there is one.
fn push_next(text: &mut Vec<u8>, next: Option<usize>) -> Result<(), AllocError>
    ensures { OnOk result (text.new.items ≡ text.old.items ++ next_text next) }
{
    let Some(next) = next else {
        return Ok(());
    };
    text.extend_from_slice(b", NEXT ")?;
    push_number(text, next as u64)
}

/// Appends that no place is on a line, and which line after it has one.
pub(crate) fn push_no_place(
    text: &mut Vec<u8>,
    line: u32,
    next: Option<usize>,
) -> Result<(), AllocError>
    ensures { OnOk result (text.new.items ≡ text.old.items ++ no_place_text line next) }
{
    text.extend_from_slice(b"NO PLACE ON LINE ")?;
    push_number(text, u64::from(line))?;
    push_next(text, next)?;
    text.extend_from_slice(b"\n")
}

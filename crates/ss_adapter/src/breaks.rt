//! The break lines of a request.
ghost use Rattle.std.specs.Prelude.{◌≡◌, ◌+◌, ◌++◌, [], ◌∷◌, fold, map, slice_get, nat_eq, Some, IfOk, OnOk};
ghost use Rattle.std.specs.List.{list_any};
ghost use Rattle.ss_check.specs.Asked.{IsSymbolsOf};
ghost use Rattle.ss_debug.specs.BreakCondition.{IsSoundOf};
ghost use Rattle.ss_debug.specs.View.{debugger_state_of};
ghost use Rattle.ss_debug.specs.Turn.{debugger_state_with};
ghost use Rattle.ss_messages.specs.Bodies.{set_item, unset_item};
ghost use Rattle.ss_adapter.specs.Places.{nearer_line, next_line, first_place_line, named_line};
ghost use Rattle.ss_adapter.specs.Places.{breaks_left, unless_kept, with_break};
ghost use Rattle.ss_adapter.specs.Places.{with_next, with_condition, with_point, with_named};
ghost use Rattle.ss_adapter.specs.Places.{unset_items, setting_of, section_setting_of};
ghost use Rattle.ss_adapter.specs.Places.{IsSetting};

use crate::desk::{Desk, MOST_WATCHED};
use crate::pen::Pen;
use ss_check::SymbolTable;
use ss_debug::{BreakCondition, Command, Debugger, obey};
use ss_expressions::{Aimed, aim_in};
use ss_links::SetBoard;
use ss_messages::{LinePoint, Text, set_item, unset_item, without_last};
use ss_program::{Program, Section, Spot};
use ss_prompt::section_on;
use std::alloc::{AllocError, Global};

/// Why a break point on a line is not set that counts hits, or has a message.
pub const UNCOUNTED: &[u8] = b"hit counts and messages are not supported";

/// Why another break point is not set that would not stop each time.
pub const UNHEEDED: &[u8] = b"conditions, hit counts and messages are not supported";

/// The nearer of two lines, the first of which may be none, that are not before a line.
fn nearer_line(from: u64, nearest: Option<u32>, line: usize) -> Option<u32>
    ensures { result ≡ nearer_line from nearest line }
{
    if (line as u64) < from {
        return nearest;
    }
    match (nearest, u32::try_from(line)) {
        (Some(found), Ok(line)) => Some(found.min(line)),
        (None, Ok(line)) => Some(line),
        (found, Err(_)) => found,
    }
}

/// The nearest line with a place among these, or the one so far.
fn nearest_in(from: u64, nearest: Option<u32>, places: &[Spot]) -> Option<u32>
    ensures { result ≡ fold (nearer_line from) nearest (map (λ spot. spot.line) places.now) }
{
    let mut best = nearest;
    for spot in places {
        best = nearer_line(from, best, spot.line);
    }
    best
}

/// The nearest line with a place, from a line on.
#[tactic(auto, unfolding(crate::specs::Places::next_line), using(crate::proofs::Nearest::fold_both))]
pub fn next_line(program: &Program, from: u64) -> Option<u32>
    ensures { result ≡ next_line program.now from }
{
    let mut best = None;
    for section in &program.sections {
        best = nearest_in(from, best, &section.places);
    }
    best
}

/// The line of the first place of a section.
fn first_place_line(section: &Section) -> Option<u32>
    ensures { result ≡ first_place_line (Some section.now) }
{
    match section.places.get(0) {
        None => None,
        Some(spot) => nearer_line(0, None, spot.line),
    }
}

/// The line of the first place of the section with this number.
fn section_line(sections: &[Section], number: usize) -> Option<u32>
    ensures { result ≡ first_place_line (slice_get sections.now number) }
{
    match sections.get(number) {
        None => None,
        Some(section) => first_place_line(section),
    }
}

/// The line of the first place of the section of this name.
fn named_line(program: &Program, name: &[u8]) -> Option<u32>
    ensures { result ≡ named_line program.now name.now }
{
    match program.find_section(name) {
        None => None,
        Some(number) => section_line(&program.sections, number),
    }
}

/// Whether a line is one of those that are kept.
fn is_kept(kept: &[u32], line: u32) -> bool
    ensures { result ≡ list_any (λ k. nat_eq k line) kept.now }
{
    kept.iter().any(|k| *k == line)
}

/// Makes a line no break line, unless a request of the other kind set it.
#[tactic(auto, unfolding(ss_debug::proofs::Unfoldings::turns))]
fn clear_unless_kept<S: SetBoard>(
    debugger: &mut Debugger<S>,
    line: u32,
    kept: &[u32],
    scrap: &mut Vec<u8>,
) -> Result<(), AllocError>
    ensures input { debugger.new.machine.input ≡ debugger.old.machine.input }
    ensures state { OnOk result (debugger_state_of debugger.new
        ≡ debugger_state_with (debugger_state_of debugger.old)
        (unless_kept kept.now debugger.old.breaks line)) }
{
    if is_kept(kept, line) {
        return Ok(());
    }
    obey(debugger, Command::Clear(line), scrap)?;
    Ok(())
}

/// Makes the lines of an earlier request no break lines, unless requests of the other kind set
/// them.
fn clear<S: SetBoard>(
    alloc: Global,
    debugger: &mut Debugger<S>,
    set: &[u32],
    kept: &[u32],
) -> Result<(), AllocError>
    ensures input { debugger.new.machine.input ≡ debugger.old.machine.input }
    ensures state { OnOk result (debugger_state_of debugger.new
        ≡ debugger_state_with (debugger_state_of debugger.old)
        (breaks_left debugger.old.breaks set.now kept.now)) }
{
    let mut scrap = Vec::new(alloc);
    for line in set {
        clear_unless_kept(debugger, *line, kept, &mut scrap)?;
    }
    Ok(())
}

/// Appends a break point that is not set, and why.
pub fn push_unset(alloc: Global, text: &mut Vec<u8>, reason: &[u8]) -> Result<(), AllocError>
    ensures { OnOk result (text.new.items ≡ text.old.items ++ unset_item reason.now) }
{
    let item = unset_item(alloc, reason)?;
    text.extend_from_slice(&item)
}

/// Appends `count` break points that are not set, for one reason.
pub fn push_all_unset(
    alloc: Global,
    text: &mut Vec<u8>,
    reason: &'static [u8],
    count: usize,
) -> Result<(), AllocError>
    ensures { OnOk result (text.new.items ≡ text.old.items ++ unset_items reason.now count) }
{
    for _place in 0..count {
        push_unset(alloc, text, reason)?;
    }
    Ok(())
}

/// The break points that a request sets, one by one.
#[derive(Drop)]
pub struct SetPoints {
    /// The lines that are break lines by it.
    pub lines: Vec<u32>,
    /// The item of the reply for each break point that it names, whether it is set or not.
    pub text: Vec<u8>,
}

impl SetPoints {
    /// None yet; takes no memory.
    fn new(alloc: Global) -> Self
        ensures lines { result.lines.items ≡ [] }
        ensures text { result.text.items ≡ [] }
    {
        SetPoints {
            lines: Vec::new(alloc),
            text: Vec::new(alloc),
        }
    }
}

/// Notes a line that is a break line now, and appends its item.
fn note_set(pen: Pen, set: &mut SetPoints, line: u32) -> Result<(), AllocError>
    ensures lines { OnOk result (set.new.lines.items ≡ set.old.lines.items ++ line ∷ []) }
    ensures text { OnOk result (set.new.text.items
        ≡ set.old.text.items ++ set_item (line + MOST_WATCHED) line pen.counting) }
{
    set.lines.push(line)?;
    let line = u64::from(line);
    let item = set_item(pen.alloc, line + MOST_WATCHED as u64, line, pen.counting)?;
    set.text.extend_from_slice(&item)
}

/// Sets a break line, if there is one, and appends its line, or why there is none.
#[tactic(auto, unfolding(ss_debug::proofs::Unfoldings::turns))]
fn set_next<S: SetBoard>(
    pen: Pen,
    debugger: &mut Debugger<S>,
    set: &mut SetPoints,
    reason: &'static [u8],
    next: Option<u32>,
) -> Result<(), AllocError>
    ensures input { debugger.new.machine.input ≡ debugger.old.machine.input }
    ensures state { OnOk result (IsSetting (debugger_state_of debugger.old)
        (debugger_state_of debugger.new) set.new.lines.items set.new.text.items (with_next
        pen.counting reason.now
        (record {
          breaks = debugger.old.breaks;
          set = set.old.lines.items;
          text = set.old.text.items;
        })
        next)) }
{
    let Some(line) = next else {
        return push_unset(pen.alloc, &mut set.text, reason);
    };
    if debugger.is_full_for(line) {
        return push_unset(pen.alloc, &mut set.text, b"too many break points");
    }
    let mut said = Vec::new(pen.alloc);
    obey(debugger, Command::Break(line), &mut said)?;
    note_set(pen, set, line)
}

/// Sets a break line with a condition, and appends its line, or that there are too many.
fn set_when<S: SetBoard>(
    pen: Pen,
    debugger: &mut Debugger<S>,
    set: &mut SetPoints,
    line: u32,
    when: BreakCondition,
) -> Result<(), AllocError>
    requires { IsSoundOf debugger.old.machine.input.program when.section when.condition }
    ensures input { debugger.new.machine.input ≡ debugger.old.machine.input }
    ensures state { OnOk result (IsSetting (debugger_state_of debugger.old)
        (debugger_state_of debugger.new) set.new.lines.items set.new.text.items (with_break
        pen.counting
        (record {
          breaks = debugger.old.breaks;
          set = set.old.lines.items;
          text = set.old.text.items;
        })
        line (Some when))) }
{
    if debugger.is_full_for(line) {
        return push_unset(pen.alloc, &mut set.text, b"too many break points");
    }
    let mut said = Vec::new(pen.alloc);
    debugger.set_break_when(line, when, &mut said)?;
    note_set(pen, set, line)
}

/// A condition of a break point, and its line.
#[derive(Clone, Copy)]
struct ConditionAt<'a> {
    line: u32,
    text: &'a [u8],
}

/// Sets a break line with the condition that a text is, and appends its line, or why it is none.
fn set_condition<S: SetBoard>(
    pen: Pen,
    debugger: &mut Debugger<S>,
    symbols: &SymbolTable,
    set: &mut SetPoints,
    condition: ConditionAt<'_>,
) -> Result<(), AllocError>
    requires { IsSymbolsOf debugger.old.machine.input.program symbols.now }
    ensures input { debugger.new.machine.input ≡ debugger.old.machine.input }
    ensures state { OnOk result (IsSetting (debugger_state_of debugger.old)
        (debugger_state_of debugger.new) set.new.lines.items set.new.text.items (with_condition
        debugger.old.machine.input.program symbols.now pen.counting
        (record {
          breaks = debugger.old.breaks;
          set = set.old.lines.items;
          text = set.old.text.items;
        })
        condition.entry.text.now (Some condition.entry.line))) }
{
    let program = debugger.machine().program();
    let section = section_on(program, condition.line as usize);
    match aim_in(pen.alloc, program, symbols, section, condition.text)? {
        None => push_unset(pen.alloc, &mut set.text, b"no condition"),
        Some(Aimed::Refused(said)) => push_unset(pen.alloc, &mut set.text, without_last(&said)),
        Some(Aimed::At(aim)) => {
            let when = aim.into_break(Vec::from_slice(pen.alloc, condition.text)?);
            set_when(pen, debugger, set, condition.line, when)
        }
    }
}

/// Sets the break line for a break point of a request, if it counts no hits and has no message.
fn set_point<S: SetBoard>(
    pen: Pen,
    debugger: &mut Debugger<S>,
    symbols: &SymbolTable,
    set: &mut SetPoints,
    point: &LinePoint,
) -> Result<(), AllocError>
    requires { IsSymbolsOf debugger.old.machine.input.program symbols.now }
    ensures input { debugger.new.machine.input ≡ debugger.old.machine.input }
    ensures state { OnOk result (IsSetting (debugger_state_of debugger.old)
        (debugger_state_of debugger.new) set.new.lines.items set.new.text.items (with_point
        debugger.old.machine.input.program symbols.now pen.counting
        (record {
          breaks = debugger.old.breaks;
          set = set.old.lines.items;
          text = set.old.text.items;
        })
        point.now)) }
{
    if !point.is_simple {
        return push_unset(pen.alloc, &mut set.text, UNCOUNTED);
    }
    let next = next_line(
        debugger.machine().program(),
        pen.counting.meant_line(point.line),
    );
    let text = point.condition.as_slice();
    match next {
        Some(line) if !text.is_empty() => {
            set_condition(pen, debugger, symbols, set, ConditionAt { line, text })
        }
        _ => set_next(pen, debugger, set, b"no statement is here", next),
    }
}

/// Sets the break line for a section that a request names, if it is to stop each time.
fn set_section<S: SetBoard>(
    pen: Pen,
    debugger: &mut Debugger<S>,
    set: &mut SetPoints,
    name: &Option<Text>,
) -> Result<(), AllocError>
    ensures input { debugger.new.machine.input ≡ debugger.old.machine.input }
    ensures state { OnOk result (IsSetting (debugger_state_of debugger.old)
        (debugger_state_of debugger.new) set.new.lines.items set.new.text.items (with_named
        debugger.old.machine.input.program pen.counting
        (record {
          breaks = debugger.old.breaks;
          set = set.old.lines.items;
          text = set.old.text.items;
        })
        name.now)) }
{
    let Some(name) = name else {
        return push_unset(pen.alloc, &mut set.text, UNHEEDED);
    };
    let next = named_line(debugger.machine().program(), name.as_slice());
    set_next(pen, debugger, set, b"no section has this name", next)
}

/// Sets the break lines of a request in place of those of an earlier one, which are on the desk,
/// and keeps those that requests for sections set.
pub fn set_lines<S: SetBoard>(
    pen: Pen,
    debugger: &mut Debugger<S>,
    desk: &Desk,
    points: &[LinePoint],
) -> Result<SetPoints, AllocError>
    requires { IsSymbolsOf debugger.old.machine.input.program desk.now.symbols }
    ensures input { debugger.new.machine.input ≡ debugger.old.machine.input }
    ensures state { IfOk result (λ set. IsSetting (debugger_state_of debugger.old)
        (debugger_state_of debugger.new) set.lines.items set.text.items (setting_of
        debugger.old.machine.input.program desk.now.symbols pen.counting debugger.old.breaks
        desk.now.set desk.now.sections points.now)) }
{
    clear(pen.alloc, debugger, &desk.set, &desk.sections)?;
    let mut set = SetPoints::new(pen.alloc);
    for point in points {
        set_point(pen, debugger, &desk.symbols, &mut set, point)?;
    }
    Ok(set)
}

/// Sets the break lines of the sections of a request in place of those of an earlier one, which are
/// on the desk, and keeps those that requests for lines set.
pub fn set_sections<S: SetBoard>(
    pen: Pen,
    debugger: &mut Debugger<S>,
    desk: &Desk,
    names: &[Option<Text>],
) -> Result<SetPoints, AllocError>
    ensures input { debugger.new.machine.input ≡ debugger.old.machine.input }
    ensures state { IfOk result (λ set. IsSetting (debugger_state_of debugger.old)
        (debugger_state_of debugger.new) set.lines.items set.text.items (section_setting_of
        debugger.old.machine.input.program pen.counting debugger.old.breaks desk.now.sections
        desk.now.set names.now)) }
{
    clear(pen.alloc, debugger, &desk.sections, &desk.set)?;
    let mut set = SetPoints::new(pen.alloc);
    for name in names {
        set_section(pen, debugger, &mut set, name)?;
    }
    Ok(set)
}

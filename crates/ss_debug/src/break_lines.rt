//! The break lines.
ghost use Rattle.std.specs.Prelude.{◌≡◌, ◌≢◌, ℕ, ◌<◌, ◌^◌, ◌↔◌, ◌++◌, [], length, map};
ghost use Rattle.std.specs.Prelude.{IsTrue, IsSome, OnOk, OnErr, IfOk};
ghost use Rattle.std.specs.List.{list_any};
ghost use Rattle.ss_timeline.specs.Moment.{state_of};
ghost use Rattle.ss_debug.specs.BreakCondition.{is_met_if_any, IsSoundIfAny};
ghost use Rattle.ss_debug.specs.BreakLines.{is_break_line, is_full, with_break, without_break, break_lines};
ghost use Rattle.ss_debug.specs.BreakLines.{AreSoundBreaks, stops_on};
ghost use Rattle.ss_debug.specs.BreakTable.{condition_at, break_at, breaks_of, shown_break};
ghost use Rattle.ss_debug.specs.LineTable.{lines_of};

use crate::break_condition::BreakCondition;
use crate::limits::MOST_BREAK_LINES;
use crate::shown_break::ShownBreak;
use ss_program::Boxed;
use ss_timeline::Timeline;
use std::alloc::{AllocError, Global};
use std::marker::Model;

/// The break lines. Whether a line is one is found at once, however many there are.
#[derive(Drop)]
pub(crate) struct BreakLines {
    /// For each line up to the greatest that was set, whether it is a break line.
    is_set: Vec<bool>,
    /// For each line up to the greatest that was set with a condition, its condition, if it has
    /// one.
    conditions: Vec<Option<Boxed<BreakCondition>>>,
    count: usize,
}

impl Model for BreakLines {
    ghost use Rattle.std.specs.Prelude.{List, ◌≡◌, length};
    ghost use Rattle.std.specs.Coded.{codes};
    ghost use Rattle.ss_debug.specs.BreakLines.{BreakPoint};
    ghost use Rattle.ss_debug.specs.BreakTable.{breaks_of};
    ghost use Rattle.ss_debug.specs.LineTable.{lines_of};
    ghost use Rattle.ss_debug.specs.contracts.break_condition.BreakCondition as one;

    ghost Value = { List BreakPoint };

    ghost coded = { Prim.hlevel (codes, one.the_row.coded) };

    ghost view = { λ a. breaks_of a.conditions.items (lines_of a.is_set.items) };

    ghost invariant = { λ a. a.count ≡ length (lines_of a.is_set.items) };
}

/// Makes a table long enough for a line. If memory is refused, the table is as before.
#[tactic(auto, using(crate::proofs::LineTables::longer))]
fn make_room(is_set: &mut Vec<bool>, line: usize) -> Result<(), AllocError>
    requires { line < 2 ^ 32 }
    ensures room { OnOk result (line < length is_set.new.items) }
    ensures lines { lines_of is_set.new.items ≡ lines_of is_set.old.items }
{
    if is_set.len() <= line {
        is_set.resize(line + 1, false)?;
    }
    Ok(())
}

/// Makes a table long enough for the condition of a line, if it is to have one. The conditions are
/// as before.
#[tactic(auto, using(crate::proofs::BreakTables::one_longer))]
fn make_condition_room(
    conditions: &mut Vec<Option<Boxed<BreakCondition>>>,
    line: usize,
    is_needed: bool,
) -> Result<(), AllocError>
    requires { line < 2 ^ 32 }
    ensures room { OnOk result (IsTrue is_needed → line < length conditions.new.items) }
    ensures same { (k : ℕ) → condition_at conditions.new.items k
        ≡ condition_at conditions.old.items k }
{
    if !is_needed {
        return Ok(());
    }
    for _k in conditions.len()..line + 1 {
        conditions.push(None)?;
    }
    Ok(())
}

/// Sets the condition of a line that a table has room for, or takes it away.
fn put_condition(
    conditions: &mut [Option<Boxed<BreakCondition>>],
    line: usize,
    when: Option<Boxed<BreakCondition>>,
)
    requires { IsSome when → line < length conditions.old }
    ensures put { condition_at conditions.new line ≡ when }
    ensures others { (k : ℕ) → k ≢ line → condition_at conditions.new k
        ≡ condition_at conditions.old k }
{
    if line < conditions.len() {
        conditions[line] = when;
    }
}

/// Whether the condition of a line, if it has one, holds in the present state of a run.
fn is_met_at<T: Timeline>(
    conditions: &[Option<Boxed<BreakCondition>>],
    line: usize,
    timeline: &T,
) -> bool
    requires { IsSoundIfAny (T.moment timeline.now).input.program
        (condition_at conditions.now line) }
    ensures { result ≡ is_met_if_any (T.moment timeline.now).input.program
        (state_of (T.moment timeline.now)) (condition_at conditions.now line) }
{
    if conditions.len() <= line {
        return true;
    }
    match &conditions[line] {
        None => true,
        Some(condition) => condition.value().is_met(timeline),
    }
}

/// Appends the lines that a table holds.
fn push_lines(lines: &mut Vec<usize>, is_set: &[bool]) -> Result<(), AllocError>
    ensures { OnOk result (lines.new.items ≡ lines.old.items ++ lines_of is_set.now) }
{
    for line in 0..is_set.len() {
        if is_set[line] {
            lines.push(line)?;
        }
    }
    Ok(())
}

/// A line, and the text of its condition, if it has one.
fn shown_at(
    alloc: Global,
    conditions: &[Option<Boxed<BreakCondition>>],
    line: usize,
) -> Result<ShownBreak, AllocError>
    ensures { IfOk result (λ b. b ≡ shown_break (break_at conditions.now line)) }
{
    if conditions.len() <= line {
        return Ok(ShownBreak::new(line, None));
    }
    match &conditions[line] {
        None => Ok(ShownBreak::new(line, None)),
        Some(condition) => {
            let text = Vec::from_slice(alloc, condition.value().text())?;
            Ok(ShownBreak::new(line, Some(text)))
        }
    }
}

/// Appends some lines and the texts of their conditions.
fn push_shown(
    alloc: Global,
    shown: &mut Vec<ShownBreak>,
    lines: &[usize],
    conditions: &[Option<Boxed<BreakCondition>>],
) -> Result<(), AllocError>
    ensures { OnOk result (shown.new.items
        ≡ shown.old.items ++ map shown_break (breaks_of conditions.now lines.now)) }
{
    for line in lines {
        shown.push(shown_at(alloc, conditions, *line)?)?;
    }
    Ok(())
}

impl BreakLines {
    /// No break lines; takes no memory.
    pub fn new(alloc: Global) -> Self
        ensures { result ≡ [] }
    {
        BreakLines {
            is_set: Vec::new(alloc),
            conditions: Vec::new(alloc),
            count: 0,
        }
    }

    /// Whether there is none.
    #[inline]
    #[tactic(auto, using(crate::proofs::BreakTables::none))]
    pub fn is_empty(&self) -> bool
        ensures { IsTrue result ↔ (self.now ≡ []) }
    {
        self.count == 0
    }

    /// Whether a line is a break line.
    #[tactic(auto, using(crate::proofs::BreakTables::line_at, crate::proofs::BreakTables::line_past))]
    pub fn contains(&self, line: usize) -> bool
        ensures { result ≡ is_break_line self.now line }
    {
        line < self.is_set.len() && self.is_set[line]
    }

    /// Whether one stops in the present state of a run, whose place is on a line.
    #[tactic(auto, using(crate::proofs::BreakTables::stopping))]
    pub fn stops<T: Timeline>(&self, timeline: &T, line: usize) -> bool
        requires { AreSoundBreaks (T.moment timeline.now).input.program self.now }
        ensures { result ≡ list_any (stops_on (T.moment timeline.now).input.program
            (state_of (T.moment timeline.now)) line) self.now }
    {
        self.contains(line) && is_met_at(&self.conditions, line, timeline)
    }

    /// How many other lines are break lines.
    #[tactic(auto, using(crate::proofs::BreakTables::count_others, crate::proofs::BreakTables::count_absent))]
    fn others(&self, line: usize) -> usize
        ensures { result ≡ length (without_break line self.now) }
    {
        if self.contains(line) {
            self.count - 1
        } else {
            self.count
        }
    }

    /// All of their lines, in ascending order.
    #[tactic(auto, using(crate::proofs::BreakTables::lines_listed))]
    pub fn listed(&self, alloc: Global) -> Result<Vec<usize>, AllocError>
        ensures { IfOk result (λ lines. lines.items ≡ break_lines self.now) }
    {
        let mut lines = Vec::new(alloc);
        push_lines(&mut lines, &self.is_set)?;
        Ok(lines)
    }

    /// All of them, with the texts of their conditions, in ascending order.
    pub fn shown(&self, alloc: Global) -> Result<Vec<ShownBreak>, AllocError>
        ensures { IfOk result (λ shown. shown.items ≡ map shown_break self.now) }
    {
        let mut lines = Vec::new(alloc);
        push_lines(&mut lines, &self.is_set)?;
        let mut shown = Vec::new(alloc);
        push_shown(alloc, &mut shown, &lines, &self.conditions)?;
        Ok(shown)
    }

    /// Whether there is no room for a line: as many others are set as may be.
    pub fn is_full(&self, line: u32) -> bool
        ensures { result ≡ is_full self.now line }
    {
        MOST_BREAK_LINES <= self.others(line as usize)
    }

    /// Makes a line a break line with a condition, or without one. If memory is refused, the break
    /// lines are as before.
    #[tactic(auto, using(crate::proofs::BreakTables::setting))]
    pub fn set(&mut self, line: u32, when: Option<Boxed<BreakCondition>>) -> Result<(), AllocError>
        ensures ok { OnOk result (self.new
            ≡ with_break (record { line = line; when = when }) self.old) }
        ensures err { OnErr result (self.new ≡ self.old) }
    {
        let line = line as usize;
        make_condition_room(&mut self.conditions, line, when.is_some())?;
        make_room(&mut self.is_set, line)?;
        put_condition(&mut self.conditions, line, when);
        if self.is_set[line] {
            return Ok(());
        }
        self.is_set[line] = true;
        self.count += 1;
        Ok(())
    }

    /// Makes a line no break line.
    #[tactic(auto, using(crate::proofs::BreakTables::clearing))]
    pub fn clear(&mut self, line: usize)
        ensures { self.new ≡ without_break line self.old }
    {
        if self.contains(line) {
            self.is_set[line] = false;
            self.count -= 1;
            put_condition(&mut self.conditions, line, None);
        }
    }
}

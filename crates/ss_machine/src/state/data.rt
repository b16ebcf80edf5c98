//! The data that a run takes, and the report that it prints.
ghost use Rattle.std.specs.Prelude.{◌≡◌, ◌+◌, ◌<◌, ◌≤◌, ◌^◌, length, slice_get, Some, OnOk, IfOk, IfErr, OnErr, Ok};
ghost use Rattle.std.specs.Prelude.{Err, replicate, nat_lt, None};
ghost use Rattle.ss_report.specs.Pictures.{field_count, picture_text};
ghost use Rattle.ss_state.specs.Change.{Fits, unapply};
ghost use Rattle.ss_values.specs.Values.{FaultIs};
ghost use Rattle.ss_state.specs.Statements.Reading.{value_taken, values_taken};
ghost use Rattle.ss_state.specs.Statements.Timing.{external_class, arrival_asked, loads};
ghost use Rattle.ss_state.specs.Statements.Printing.{longer_report};
ghost use Rattle.ss_state.specs.Statements.{state_with_taken};
ghost use Rattle.ss_machine.specs.ChangeView.{as_change};
ghost use Rattle.ss_words.specs.declared.fault.RunFault.TheVariants as RunFault;
ghost use Rattle.ss_data.specs.Items.{with_taken, value_or_fault};
ghost use Rattle.ss_data.specs.Entries.{place_behind_mark};

use crate::state::State;
use crate::state::change::Change;
use crate::state::external::{external_class, has_external};
use ss_data::{Feed, PieceKind};
use ss_journal::Undo;
use ss_links::SetBoard;
use ss_program::{Program, Targets};
use ss_report::{Picture, Report};
use ss_state::Entry;
use ss_words::characters::LINE_FEED;
use ss_words::{RunFault, StepFault};

impl<S: SetBoard> State<S> {
    /// Takes the next numbers of the data, one for each target. They replace the old contents of
    /// `values`. After an error nothing is taken. With external events a mark is F22.
    pub fn take(
        &mut self,
        external: bool,
        targets: &Targets,
        values: &mut Vec<i64>,
    ) -> Result<Change, StepFault>
        ensures state { IfOk result
            (λ _. self.new.state
            ≡ state_with_taken self.old.state (self.old.state.feed.taken + length targets.now)) }
        ensures beside { self.new.beside ≡ self.old.beside }
        ensures few { OnOk result (length targets.now < 2 ^ 64) }
        ensures values { IfOk result
            (λ _.
            values_taken external self.old.state.feed.items self.old.state.feed.taken targets.now
            ≡ Ok values.new.items) }
        ensures fits { IfOk result (λ c. Fits (as_change c) self.new) }
        ensures back { IfOk result (λ c. unapply (as_change c) self.new ≡ self.old) }
        ensures fault { IfErr result
            (λ e. FaultIs e (values_taken external self.old.state.feed.items
            self.old.state.feed.taken targets.now)) }
        ensures err { OnErr result (self.new ≡ self.old) }
    {
        let old = self.feed.taken();
        match take_values(&mut self.feed, external, targets, values) {
            Ok(()) => Ok(Change::Taken(old)),
            Err(e) => {
                self.feed.undo(old);
                Err(e)
            }
        }
    }

    /// Whether an entry of the data is to be loaded.
    pub fn loads_entry(&self, program: &Program) -> bool
        ensures { result ≡ loads program.now self.now.state }
    {
        match self.entry {
            Entry::Absent => has_external(program) && self.has_piece(),
            _ => false,
        }
    }

    /// Whether a piece of the data is left.
    pub fn has_piece(&self) -> bool
        ensures { result ≡ nat_lt self.now.state.feed.taken (length self.now.state.feed.items) }
    {
        match self.feed.kind() {
            PieceKind::End => false,
            _ => true,
        }
    }

    /// Takes the name and the time of the next entry of the data, and gives the class that it
    /// names. After a fault nothing has changed.
    pub fn take_arrival(&mut self, program: &Program) -> Result<(usize, i64, Change), RunFault>
        requires { self.old.state.feed.taken < length self.old.state.feed.items }
        ensures class { IfOk result (λ r. external_class program.now
            (slice_get self.old.state.feed.items self.old.state.feed.taken) ≡ Some r.0) }
        ensures time { IfOk result
            (λ r. value_or_fault
            (slice_get self.old.state.feed.items (self.old.state.feed.taken + 1)) ≡ Ok r.1) }
        ensures state { OnOk result
            (self.new.state ≡ state_with_taken self.old.state (self.old.state.feed.taken + 2)) }
        ensures beside { self.new.beside ≡ self.old.beside }
        ensures fits { IfOk result (λ r. Fits (as_change r.2) self.new) }
        ensures back { IfOk result (λ r. unapply (as_change r.2) self.new ≡ self.old) }
        ensures fault { IfErr result (λ e. arrival_asked program.now self.old.state ≡ Err e) }
        ensures err { OnErr result (self.new ≡ self.old) }
    {
        let class = external_class(program, &self.feed).ok_or(RunFault::NotExternal)?;
        let old = self.feed.taken();
        self.feed.pass();
        match self.feed.take() {
            Ok(time) => Ok((class, time, Change::Taken(old))),
            Err(fault) => {
                self.feed.undo(old);
                Err(fault)
            }
        }
    }

    /// Passes the pieces of the data up to and with the next mark. After F22 nothing has changed.
    pub fn pass_entry(&mut self) -> Result<Change, RunFault>
        ensures state { OnOk result
            (self.new.state ≡ state_with_taken self.old.state self.new.state.feed.taken) }
        ensures place { OnOk result
            (place_behind_mark self.old.state.feed ≡ Some self.new.state.feed.taken) }
        ensures beside { self.new.beside ≡ self.old.beside }
        ensures fits { IfOk result (λ c. Fits (as_change c) self.new) }
        ensures back { IfOk result (λ c. unapply (as_change c) self.new ≡ self.old) }
        ensures fault { IfErr result
            (λ e. (e ≡ RunFault.OutsideEntry) × (place_behind_mark self.old.state.feed ≡ None)) }
        ensures err { OnErr result (self.new ≡ self.old) }
    {
        let old = self.feed.taken();
        self.feed.pass_entry()?;
        Ok(Change::Taken(old))
    }

    /// Appends the text of a picture to the report. After a fault nothing has changed.
    pub fn print(&mut self, picture: &Picture, values: &[i64]) -> Result<Change, StepFault>
        requires { length values.now ≡ field_count picture.now }
        ensures state { IfOk result
            (λ _. self.new.state ≡ record self.old.state { report = self.new.state.report }) }
        ensures report { IfOk result
            (λ _. longer_report self.old.state.report (picture_text picture.now values.now)
            ≡ Ok self.new.state.report) }
        ensures fits { IfOk result (λ c. Fits (as_change c) self.new) }
        ensures back { IfOk result (λ c. unapply (as_change c) self.new ≡ self.old) }
        ensures fault { IfErr result
            (λ e.
            FaultIs e (longer_report self.old.state.report (picture_text picture.now values.now))) }
        ensures err { OnErr result (self.new ≡ self.old) }
    {
        let old = self.report.len();
        self.report.print(picture, values)?;
        Ok(Change::Report(old))
    }

    /// Appends `lines` line feeds to the report. After a fault nothing has changed.
    pub fn skip(&mut self, lines: usize) -> Result<Change, StepFault>
        ensures state { IfOk result
            (λ _. self.new.state ≡ record self.old.state { report = self.new.state.report }) }
        ensures report { IfOk result
            (λ _. longer_report self.old.state.report (replicate lines LINE_FEED)
            ≡ Ok self.new.state.report) }
        ensures fits { IfOk result (λ c. Fits (as_change c) self.new) }
        ensures back { IfOk result (λ c. unapply (as_change c) self.new ≡ self.old) }
        ensures fault { IfErr result
            (λ e. FaultIs e (longer_report self.old.state.report (replicate lines LINE_FEED))) }
        ensures err { OnErr result (self.new ≡ self.old) }
    {
        let old = self.report.len();
        self.report.skip(lines)?;
        Ok(Change::Report(old))
    }
}

/// Takes the next number of the data. After a fault nothing is taken.
fn take_value(feed: &mut Feed, external: bool) -> Result<i64, RunFault>
    ensures value { result ≡ value_taken external (slice_get feed.old.items feed.old.taken) }
    ensures ok { OnOk result (feed.new ≡ with_taken feed.old (feed.old.taken + 1)) }
    ensures err { OnErr result (feed.new ≡ feed.old) }
{
    if external {
        if let PieceKind::Mark = feed.kind() {
            return Err(RunFault::OutsideEntry);
        }
    }
    feed.take()
}

/// Takes the next numbers of the data, one for each target. They replace the old contents of
/// `values`. After an error some may be taken.
fn take_values(
    feed: &mut Feed,
    external: bool,
    targets: &Targets,
    values: &mut Vec<i64>,
) -> Result<(), StepFault>
    ensures items { feed.new.items ≡ feed.old.items }
    ensures later { feed.old.taken ≤ feed.new.taken }
    ensures few { OnOk result (length targets.now < 2 ^ 64) }
    ensures taken { OnOk result (feed.new.taken ≡ feed.old.taken + length targets.now) }
    ensures values { OnOk result
        (values_taken external feed.old.items feed.old.taken targets.now ≡ Ok values.new.items) }
    ensures fault { IfErr result
        (λ e. FaultIs e (values_taken external feed.old.items feed.old.taken targets.now)) }
{
    values.clear();
    values.reserve(targets.list.len())?;
    for _target in &targets.list {
        let value = take_value(feed, external)?;
        values.push(value)?;
    }
    Ok(())
}

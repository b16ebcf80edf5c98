//! CALL, RETURN, END and STOP.
ghost use Rattle.std.specs.Prelude.{◌≡◌, ◌+◌, ◌<◌, ◌≤◌, [], length, slice_get, OnOk, OnErr};
ghost use Rattle.ss_words.specs.declared.limits.TheConstants.{MOST_PARAMETERS};
ghost use Rattle.ss_program.specs.Program.{section_of, spot_at, locals_of};
ghost use Rattle.ss_program.specs.ProgramSound.{IsSoundPlace, AreSoundExprs, IsCalledBy};
ghost use Rattle.ss_store.specs.Tables.{tables_of};
ghost use Rattle.ss_machine.specs.Executor.{state, tables};
ghost use Rattle.ss_machine.specs.Noting.{Notes};
ghost use Rattle.ss_machine.specs.Outcome.{LeadsTo};
ghost use Rattle.ss_state.specs.ChangeCounts.{place_targets, yield_count};
ghost use Rattle.ss_state.specs.ChangeCounts as changes;
ghost use Rattle.ss_machine.specs.Dropping.{HasDropped};
ghost use Rattle.ss_machine.specs.Seen.{InHeld};
ghost use Rattle.ss_state.specs.Statements.Calling.{step_control, step_call, state_behind_call, state_behind_place};
ghost use Rattle.ss_state.specs.Statements.Calling.{state_after_return, state_without_entry, state_after_event};
ghost use Rattle.ss_state.specs.Statements.Calling.{state_after_section};
ghost use Rattle.ss_state.specs.Well.{IsInBounds, IsWellFrame};
ghost use Rattle.ss_state.specs.Statements.{state_with_frame};
ghost use Rattle.ss_state.specs.declared.limits.TheConstants.{MOST_BELOW};

use crate::executor::{Executor, ways_at};
use crate::state::change::Change;
use ss_links::SetBoard;
use ss_program::{Call, Control, Place, Program, Section, SectionKind};
use ss_state::{Entry, MOST_BELOW, Status};
use ss_values::{value, values};
use ss_words::{RunFault, StepFault};
use std::alloc::AllocError;

impl<S: SetBoard> Executor<S> {
    #[inline(never)]
    pub fn run_call(&mut self, program: &Program, call: &Call) -> Result<(), AllocError>
        requires called { IsCalledBy call.now (slice_get program.now.sections call.now.section) }
        requires tables { tables self.old ≡ tables_of program.now }
        requires sound { InHeld self.old.held AreSoundExprs call.now.given }
        requires room { 0 < self.old.journal.notes }
        ensures state { OnOk result
            (state self.new ≡ step_call program.now (state self.old) call.now) }
        ensures notes { Notes 1 self.old self.new }
    {
        program.known();
        match values(self.held.view(), &call.given, &mut self.values) {
            Ok(()) => {}
            Err(StepFault::Fault(fault)) => {
                self.mark(Status::Faulted(fault));
                return Ok(());
            }
            Err(StepFault::Memory) => return Err(AllocError),
        }
        if self.held.below() >= MOST_BELOW {
            self.mark(Status::Faulted(RunFault::TooManyFrames));
            return Ok(());
        }
        self.open_frame(program, call.section)
    }

    /// Opens the frame of a section, with the values kept for this in its first locals.
    #[inline(always)]
    pub fn open_frame(&mut self, program: &Program, section: usize) -> Result<(), AllocError>
        requires below { length (state self.old).below < MOST_BELOW }
        requires section { section < length program.now.sections }
        requires few { length self.old.values.items
            ≤ length (locals_of (slice_get program.now.sections section)) }
        requires room { 0 < self.old.journal.notes }
        ensures state { OnOk result (state self.new
            ≡ state_with_frame program.now (state self.old) section self.old.values.items) }
        ensures tables { tables self.new ≡ tables self.old }
        ensures notes { Notes 1 self.old self.new }
        ensures none { OnErr result (Notes 0 self.old self.new) }
    {
        self.held
            .open_frame(program, section, self.values.as_slice())?;
        self.journal.note(Change::FrameOpened);
        Ok(())
    }

    #[inline(always)]
    fn drop_frame(&mut self) -> Result<(), AllocError>
        requires some { 0 < length (state self.old).below }
        requires few { length (state self.old).below ≤ MOST_BELOW }
        requires room { 0 < self.old.journal.notes }
        ensures state { OnOk result (HasDropped (state self.old) (state self.new)) }
        ensures beside { self.new.held.beside ≡ self.old.held.beside }
        ensures values { self.new.values ≡ self.old.values }
        ensures notes { Notes 1 self.old self.new }
    {
        if self.held.is_small() {
            self.journal.note_dropped(&self.held.small_frame());
            self.held.drop_small();
        } else {
            let dropped = self.held.drop_large()?;
            self.journal.note(Change::FrameDropped(dropped));
        }
        Ok(())
    }

    /// Goes on after a CALL, to which the values kept from number `first` on came back.
    fn behind_call(&mut self, first: usize, next: usize, place: &Place) -> Result<(), RunFault>
        requires sound { InHeld self.old.held IsSoundPlace place.now }
        requires parameters { first ≤ MOST_PARAMETERS }
        requires few { changes.call_targets place.now ≤ MOST_PARAMETERS }
        requires room { changes.call_targets place.now < self.old.journal.notes }
        ensures outcome { LeadsTo result
            (state_behind_call (tables self.old) self.old.values.items first next (state self.old)
            place.now) (state self.new) }
        ensures notes { Notes (1 + changes.call_targets place.now) self.old self.new }
        ensures fewer { OnErr result (Notes (changes.call_targets place.now) self.old self.new) }
    {
        if let Place::Call(call) = place {
            self.assign_kept(first, &call.value().targets)?;
            self.go_to(next);
        }
        Ok(())
    }

    /// In the frame to which a RETURN came back.
    fn come_back(&mut self, program: &Program, first: usize) -> Result<(), RunFault>
        requires frame { IsWellFrame program.now (state self.old).frame }
        requires variables { length (state self.old).variables ≡ length program.now.globals }
        requires tables { tables self.old ≡ tables_of program.now }
        requires parameters { first ≤ MOST_PARAMETERS }
        requires room { place_targets program.now (state self.old) < self.old.journal.notes }
        ensures outcome { LeadsTo result
            (state_behind_place program.now self.old.values.items first (state self.old)
            (spot_at program.now (state self.old).frame.section (state self.old).frame.place))
            (state self.new) }
        ensures notes { Notes (1 + place_targets program.now (state self.old)) self.old self.new }
        ensures fewer { OnErr result
            (Notes (place_targets program.now (state self.old)) self.old self.new) }
    {
        program.known();
        let (section, place) = self.held.place();
        let spot = program.spot(section, place);
        let ways = ways_at(program, section, place, spot);
        self.behind_call(first, ways.next, &spot.place)
    }

    /// RETURN or END of a routine, which is given `given` values.
    fn run_return(&mut self, program: &Program, given: usize) -> Result<(), AllocError>
        requires well { IsInBounds program.now (state self.old) }
        requires tables { tables self.old ≡ tables_of program.now }
        requires given { given ≡ (section_of program.now (state self.old).frame.section).given }
        requires parameters { given ≤ MOST_PARAMETERS }
        requires none { self.old.journal.current ≡ [] }
        requires room { 1 + yield_count program.now (state self.old).below
            < self.old.journal.notes }
        ensures state { OnOk result (state self.new
            ≡ state_after_return program.now (state self.old) (state self.old).below) }
        ensures notes { Notes
            (2 + yield_count program.now (state self.old).below) self.old self.new }
    {
        if self.held.below() == 0 {
            return Ok(());
        }
        self.values.clear();
        self.held.append_locals(&mut self.values)?;
        self.drop_frame()?;
        if let Err(fault) = self.come_back(program, given) {
            self.roll_back();
            self.mark(Status::Faulted(fault));
        }
        Ok(())
    }

    /// Passes the data of an entry that runs up to and with its mark; then there is no entry.
    fn end_entry(&mut self) -> Result<(), RunFault>
        requires room { 1 < self.old.journal.notes }
        ensures outcome { LeadsTo result
            (state_without_entry (state self.old) (state self.old).entry) (state self.new) }
        ensures notes { Notes 2 self.old self.new }
    {
        if let Entry::Running { .. } = self.held.entry() {
            let change = self.held.pass_entry()?;
            self.journal.note(change);
            let change = self.held.set_entry(Entry::Absent);
            self.journal.note(change);
        }
        Ok(())
    }

    /// RETURN or END of an event.
    fn end_event(&mut self) -> Result<(), AllocError>
        requires few { length (state self.old).below ≤ MOST_BELOW }
        requires none { self.old.journal.current ≡ [] }
        requires room { 2 < self.old.journal.notes }
        ensures state { OnOk result
            (state self.new ≡ state_after_event (state self.old) (state self.old).below) }
        ensures notes { Notes 3 self.old self.new }
    {
        if self.held.below() == 0 {
            return Ok(());
        }
        match self.end_entry() {
            Ok(()) => self.drop_frame(),
            Err(fault) => {
                self.roll_back();
                self.mark(Status::Faulted(fault));
                Ok(())
            }
        }
    }

    #[inline(never)]
    pub fn run_control(&mut self, program: &Program, control: Control) -> Result<(), AllocError>
        requires well { IsInBounds program.now (state self.old) }
        requires tables { tables self.old ≡ tables_of program.now }
        requires none { self.old.journal.current ≡ [] }
        requires room { 2 + yield_count program.now (state self.old).below
            < self.old.journal.notes }
        ensures state { OnOk result
            (state self.new ≡ step_control program.now (state self.old) control) }
        ensures notes { Notes
            (3 + yield_count program.now (state self.old).below) self.old self.new }
    {
        match control {
            Control::Stop => {
                self.mark(Status::Stopped);
                Ok(())
            }
            Control::Return | Control::End => self.end_section(program),
        }
    }

    #[tactic(auto, using(ss_state::proofs::Sounds::section_found, ss_state::proofs::Sounds::few_parameters))]
    fn end_section(&mut self, program: &Program) -> Result<(), AllocError>
        requires well { IsInBounds program.now (state self.old) }
        requires tables { tables self.old ≡ tables_of program.now }
        requires none { self.old.journal.current ≡ [] }
        requires room { 2 + yield_count program.now (state self.old).below
            < self.old.journal.notes }
        ensures state { OnOk result (state self.new
            ≡ state_after_section program.now (state self.old)
            (section_of program.now (state self.old).frame.section).kind) }
        ensures notes { Notes
            (3 + yield_count program.now (state self.old).below) self.old self.new }
    {
        program.known();
        let (section, _) = self.held.place();
        let (kind, given) = ending(program.section(section));
        match kind {
            SectionKind::Main => {
                self.mark(Status::Finished);
                Ok(())
            }
            SectionKind::Routine => self.run_return(program, given),
            SectionKind::Event => self.end_event(),
        }
    }
}

/// The kind of a section, and how many values it is given.
fn ending(section: &Section) -> (SectionKind, usize)
    ensures { result ≡ (section.now.kind, section.now.given) }
{
    (section.kind, section.given)
}

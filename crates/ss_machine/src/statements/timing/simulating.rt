//! The timing routine: entries of the data are loaded, and events start.
ghost use Rattle.std.specs.Prelude.{◌≡◌, ◌<◌, ◌≤◌, [], length, slice_get, true, OnOk, false, OnErr, Ok};
ghost use Rattle.std.specs.Prelude.{if◌then◌else◌};
ghost use Rattle.ss_program.specs.Program.{section_of, class_of, locals_of, is_main};
ghost use Rattle.ss_store.specs.Tables.{tables_of};
ghost use Rattle.ss_events.specs.Rules.{rules_of};
ghost use Rattle.ss_machine.specs.Executor.{rules, state, tables};
ghost use Rattle.ss_machine.specs.Noting.{Notes};
ghost use Rattle.ss_machine.specs.Outcome.{LeadsTo, LeadsToOrRefuses};
ghost use Rattle.ss_state.specs.State.{entry_at_start};
ghost use Rattle.ss_state.specs.Well.{IsInBounds};
ghost use Rattle.ss_program.specs.ProgramSound.{IsEventClass};
ghost use Rattle.ss_store.specs.Tables as shapes;
ghost use Rattle.ss_store.specs.Store.{without_entity};
ghost use Rattle.ss_events.specs.Agenda.{is_pending, least};
ghost use Rattle.ss_state.specs.Statements.{state_with_store};
ghost use Rattle.ss_state.specs.Statements.Timing.{state_at_time, state_after_start, step_simulation};
ghost use Rattle.ss_state.specs.Statements.Timing.{state_after_arrival, state_after_load, loads, step_start};
ghost use Rattle.ss_state.specs.Statements.Timing as steps;

use crate::executor::Executor;
use crate::statements::timing::event_class;
use ss_events::Slot;
use ss_links::SetBoard;
use ss_program::{Program, Variable};
use ss_state::Entry;
use ss_words::{RunFault, StepFault};
use std::alloc::AllocError;

impl<S: SetBoard> Executor<S> {
    /// Takes a pending notice off, and sets the clock to its time; an entry that waited for it
    /// runs.
    fn advance(&mut self, notice: u32, time: i64)
        requires number { 0 < notice }
        requires pending { is_pending (state self.old).agenda notice ≡ true }
        requires room { 2 < self.old.journal.notes }
        ensures state { state self.new
            ≡ state_at_time (state self.old) notice time (state self.old).store }
        ensures tables { tables self.new ≡ tables self.old }
        ensures values { self.new.values ≡ self.old.values }
        ensures notes { Notes 3 self.old self.new }
    {
        let change = self.held.take_off(notice);
        self.journal.note(change);
        let change = self.held.set_clock(time);
        self.journal.note(change);
        self.start_entry(notice);
    }

    /// An entry that waited for a notice runs; else nothing is noted.
    fn start_entry(&mut self, notice: u32)
        requires { 0 < self.old.journal.notes }
        ensures state { state self.new ≡ record (state self.old) {
          entry = entry_at_start notice (state self.old).entry;
        } }
        ensures beside { self.new.held.beside ≡ self.old.held.beside }
        ensures values { self.new.values ≡ self.old.values }
        ensures notes { Notes 1 self.old self.new }
    {
        if let Entry::Waiting { .. } = self.held.entry() {
            let entry = self.held.entry_at_start(notice);
            let change = self.held.set_entry(entry);
            self.journal.note(change);
        }
    }

    /// Ends the notice whose event starts, unless the event says SAVING.
    fn end_unless_saved(&mut self, class: usize, notice: u32, saving: bool) -> Result<(), RunFault>
        requires class { class < length (tables self.old).classes }
        requires kind { (shapes.class_of (tables self.old) class).permanent ≡ false }
        requires room { 0 < self.old.journal.notes }
        ensures outcome { LeadsTo result
            (if saving then Ok (state self.old).store
            else without_entity (tables self.old) (state self.old).store class notice)
            (state self.new).store }
        ensures rest { state self.new ≡ state_with_store (state self.old) (state self.new).store }
        ensures tables { tables self.new ≡ tables self.old }
        ensures values { self.new.values ≡ self.old.values }
        ensures notes { Notes 1 self.old self.new }
    {
        if !saving {
            let change = self.held.destroy(class, i64::from(notice))?;
            self.journal.note(change);
        }
        Ok(())
    }

    /// Starts the event of a pending notice of this class at its time.
    fn start_event(&mut self, program: &Program, notice: u32, slot: Slot) -> Result<(), StepFault>
        requires event { IsEventClass program.now slot.class 0 }
        requires tables { tables self.old ≡ tables_of program.now }
        requires variables { length (state self.old).variables ≡ length program.now.globals }
        requires number { 0 < notice }
        requires pending { is_pending (state self.old).agenda notice ≡ true }
        requires below { (state self.old).below ≡ [] }
        requires room { 5 < self.old.journal.notes }
        ensures outcome { LeadsToOrRefuses result
            (state_after_start program.now (state self.old) notice slot.class slot.time)
            (state self.new) }
        ensures notes { Notes 6 self.old self.new }
        ensures fewer { OnErr result (Notes 5 self.old self.new) }
    {
        let variable = class_variable(program, slot.class);
        let number = event_section(program, slot.class);
        let section = program.section(number);
        self.values.clear();
        self.held
            .first_attributes(slot.class, section.given, notice, &mut self.values)?;
        self.advance(notice, slot.time);
        self.end_unless_saved(slot.class, notice, section.saving)?;
        self.assign(Variable::Global(variable), i64::from(notice));
        self.open_frame(program, number)?;
        Ok(())
    }

    /// Starts the event of the least notice, or goes on if none is pending.
    fn simulate(&mut self, program: &Program, next: usize) -> Result<(), AllocError>
        requires well { IsInBounds program.now (state self.old) }
        requires main { is_main (section_of program.now (state self.old).frame.section) ≡ true }
        requires tables { tables self.old ≡ tables_of program.now }
        requires rules { rules self.old ≡ rules_of program.now }
        requires none { self.old.journal.current ≡ [] }
        requires room { 5 < self.old.journal.notes }
        ensures state { OnOk result (state self.new
            ≡ step_simulation program.now (state self.old) next
            (least (rules_of program.now) (state self.old).agenda.pending)) }
        ensures notes { Notes 6 self.old self.new }
    {
        let Some((notice, slot)) = self.held.next_notice() else {
            self.go_to(next);
            return Ok(());
        };
        match self.start_event(program, notice, slot) {
            Ok(()) => Ok(()),
            Err(fault) => self.fail_or_refuse(fault),
        }
    }

    /// Makes the notice of an entry of the data pending, for which the entry waits.
    fn await_arrival(&mut self, program: &Program, class: usize, time: i64) -> Result<(), StepFault>
        requires event { IsEventClass program.now class 0 }
        requires tables { tables self.old ≡ tables_of program.now }
        requires rules { rules self.old ≡ rules_of program.now }
        requires class { class < length (tables self.old).classes }
        requires kind { (shapes.class_of (tables self.old) class).permanent ≡ false }
        requires room { 2 < self.old.journal.notes }
        ensures outcome { LeadsToOrRefuses result
            (state_after_arrival program.now (state self.old) class time) (state self.new) }
        ensures notes { Notes 3 self.old self.new }
    {
        if self.held.clock() > time {
            return Err(StepFault::Fault(RunFault::TimeBeforeClock));
        }
        let (notice, change) = self.held.create(class)?;
        self.journal.note(change);
        self.values.clear();
        self.schedule_notice(program, class, notice, time)?;
        let change = self.held.set_entry(Entry::Waiting { class, notice });
        self.journal.note(change);
        Ok(())
    }

    /// Loads the next entry of the data.
    fn load(&mut self, program: &Program) -> Result<(), StepFault>
        requires left { (state self.old).feed.taken < length (state self.old).feed.items }
        requires tables { tables self.old ≡ tables_of program.now }
        requires rules { rules self.old ≡ rules_of program.now }
        requires room { 3 < self.old.journal.notes }
        ensures outcome { LeadsToOrRefuses result
            (state_after_load program.now (state self.old)) (state self.new) }
        ensures notes { Notes 4 self.old self.new }
    {
        let (class, time, change) = self.held.take_arrival(program)?;
        self.journal.note(change);
        self.await_arrival(program, class, time)
    }

    /// Whether an entry of the data is to be loaded.
    fn loads(&self, program: &Program) -> bool
        ensures { result ≡ loads program.now (state self.now) }
    {
        self.held.loads_entry(program)
    }

    /// START SIMULATION: loads an entry of the data, or runs the timing routine.
    pub fn start_simulation(&mut self, program: &Program, next: usize) -> Result<(), AllocError>
        requires well { IsInBounds program.now (state self.old) }
        requires main { is_main (section_of program.now (state self.old).frame.section) ≡ true }
        requires tables { tables self.old ≡ tables_of program.now }
        requires rules { rules self.old ≡ rules_of program.now }
        requires none { self.old.journal.current ≡ [] }
        requires room { 5 < self.old.journal.notes }
        ensures state { OnOk result
            (state self.new ≡ step_start program.now (state self.old) next) }
        ensures notes { Notes 6 self.old self.new }
    {
        if !self.loads(program) {
            return self.simulate(program, next);
        }
        match self.load(program) {
            Ok(()) => Ok(()),
            Err(fault) => self.fail_or_refuse(fault),
        }
    }
}

/// The number of an event class's section.
fn event_section(program: &Program, class: usize) -> usize
    requires { IsEventClass program.now class 0 }
    ensures number { result ≡ steps.event_section program.now class }
    ensures there { result < length program.now.sections }
    ensures few { (section_of program.now result).given
        ≤ length (locals_of (slice_get program.now.sections result)) }
{
    program.known();
    event_class(program, class).section
}

/// The number of the global variable of a class's name.
fn class_variable(program: &Program, class: usize) -> usize
    requires { class < length program.now.classes }
    ensures number { result ≡ (class_of program.now class).variable }
    ensures there { result < length program.now.globals }
{
    program.known();
    program.classes[class].variable
}

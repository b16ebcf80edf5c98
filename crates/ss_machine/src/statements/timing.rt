//! SCHEDULE, CANCEL and START SIMULATION.
pub mod simulating;

ghost use Rattle.std.specs.Prelude.{◌≡◌, ◌+◌, ◌<◌, ◌≤◌, [], length, OnOk, false};
ghost use Rattle.ss_program.specs.Program.{section_of, event_of};
ghost use Rattle.ss_program.specs.ProgramSound.{IsTarget, IsSoundExpr, AreSoundExprs, IsTimed, IsSoundTiming};
ghost use Rattle.ss_program.specs.ProgramSound.{IsSoundNotice, IsSoundWhen, IsEventClass};
ghost use Rattle.ss_store.specs.Tables.{tables_of};
ghost use Rattle.ss_events.specs.Rules.{rules_of};
ghost use Rattle.ss_machine.specs.Executor.{rules, state, tables};
ghost use Rattle.ss_machine.specs.Noting.{Notes};
ghost use Rattle.ss_machine.specs.Outcome.{LeadsTo, LeadsToOrRefuses, GivesOrRefuses};
ghost use Rattle.ss_state.specs.ChangeCounts as changes;
ghost use Rattle.ss_machine.specs.Seen.{InHeld, scope_held};
ghost use Rattle.ss_state.specs.Well.{IsInBounds};
ghost use Rattle.ss_program.specs.declared.place.Place.TheVariants as places;
ghost use Rattle.ss_program.specs.declared.timing.Timing.TheVariants as timings;
ghost use Rattle.ss_store.specs.Tables as shapes;
ghost use Rattle.ss_state.specs.Statements.Timing.{state_with_attributes, state_after_scheduling, state_after_new};
ghost use Rattle.ss_state.specs.Statements.Timing.{state_after_schedule, state_after_notice, state_after_cancel};
ghost use Rattle.ss_state.specs.Statements.Timing.{step_timing};
ghost use Rattle.ss_state.specs.Statements.Timing as steps;
ghost use Rattle.ss_values.specs.Seen.{view_readings, InView};

use crate::executor::Executor;
use ss_links::SetBoard;
use ss_program::{
    ClassKind, EventClass, Expr, Listing, Notice, Program, Schedule, Target, Timing, When,
};
use ss_values::{View, value, values};
use ss_words::limits::MOST_REFERENCES;
use ss_words::{RunFault, StepFault};
use std::alloc::AllocError;

impl<S: SetBoard> Executor<S> {
    /// Gives the first attributes of an entity the values kept.
    fn set_attributes(&mut self, class: usize, entity: u32) -> Result<(), RunFault>
        requires class { class < length (tables self.old).classes }
        requires room { length self.old.values.items < self.old.journal.notes }
        ensures outcome { LeadsTo result
            (state_with_attributes (state self.old) class entity 0 self.old.values.items)
            (state self.new) }
        ensures tables { tables self.new ≡ tables self.old }
        ensures rules { rules self.new ≡ rules self.old }
        ensures scope { scope_held self.new.held ≡ scope_held self.old.held }
        ensures notes { Notes (length self.old.values.items) self.old self.new }
    {
        for number in 0..self.values.len() {
            let value = self.values[number];
            let change = self
                .held
                .set_attribute(class, number, i64::from(entity), value)?;
            self.journal.note(change);
        }
        Ok(())
    }

    /// Makes a notice pending, whose first attributes get the values kept.
    pub fn schedule_notice(
        &mut self,
        program: &Program,
        class: usize,
        notice: u32,
        time: i64,
    ) -> Result<(), StepFault>
        requires event { IsEventClass program.now class 0 }
        requires tables { tables self.old ≡ tables_of program.now }
        requires rules { rules self.old ≡ rules_of program.now }
        requires number { 0 < notice }
        requires small { notice ≤ MOST_REFERENCES }
        requires room { 1 + length self.old.values.items < self.old.journal.notes }
        ensures outcome { LeadsToOrRefuses result
            (state_after_scheduling program.now (state self.old) class notice time
            self.old.values.items) (state self.new) }
        ensures tables { tables self.new ≡ tables self.old }
        ensures scope { OnOk result (scope_held self.new.held ≡ scope_held self.old.held) }
        ensures notes { Notes (1 + length self.old.values.items) self.old self.new }
    {
        self.set_attributes(class, notice)?;
        let event = event_class(program, class);
        self.held
            .keys(class, &event.ties, notice, &mut self.values)?;
        let change = self
            .held
            .schedule(class, notice, time, self.values.as_slice())?;
        self.journal.note(change);
        Ok(())
    }

    /// SCHEDULE A: makes the notice and schedules it, then assigns its reference.
    fn schedule_new(
        &mut self,
        program: &Program,
        class: usize,
        target: &Target,
        time: i64,
    ) -> Result<(), StepFault>
        requires event { IsEventClass program.now class 0 }
        requires tables { tables self.old ≡ tables_of program.now }
        requires rules { rules self.old ≡ rules_of program.now }
        requires class { class < length (tables self.old).classes }
        requires kind { (shapes.class_of (tables self.old) class).permanent ≡ false }
        requires target { InHeld self.old.held IsTarget target.now }
        requires room { 3 + length self.old.values.items < self.old.journal.notes }
        ensures outcome { LeadsToOrRefuses result
            (state_after_new program.now (state self.old) class target.now time
            self.old.values.items) (state self.new) }
        ensures notes { Notes (3 + length self.old.values.items) self.old self.new }
    {
        if time < self.held.clock() {
            return Err(StepFault::Fault(RunFault::TimeBeforeClock));
        }
        let (notice, change) = self.held.create(class)?;
        self.journal.note(change);
        self.schedule_notice(program, class, notice, time)?;
        self.assign_target(target, i64::from(notice))?;
        Ok(())
    }

    /// Schedules the notice of a SCHEDULE. After THE a value names the notice.
    fn schedule_said(
        &mut self,
        program: &Program,
        schedule: &Schedule,
        named: i64,
        time: i64,
    ) -> Result<(), StepFault>
        requires event { IsEventClass program.now schedule.now.class 0 }
        requires tables { tables self.old ≡ tables_of program.now }
        requires rules { rules self.old ≡ rules_of program.now }
        requires class { schedule.now.class < length (tables self.old).classes }
        requires kind { (shapes.class_of (tables self.old) schedule.now.class).permanent ≡ false }
        requires notice { InHeld self.old.held IsSoundNotice schedule.now.notice }
        requires room { 3 + length self.old.values.items < self.old.journal.notes }
        ensures outcome { LeadsToOrRefuses result
            (state_after_notice program.now (state self.old) schedule.now.class schedule.now.notice
            named time self.old.values.items) (state self.new) }
        ensures notes { Notes (3 + length self.old.values.items) self.old self.new }
    {
        match &schedule.notice {
            Notice::New { target, .. } => self.schedule_new(program, schedule.class, target, time),
            Notice::Known { .. } => {
                let notice = self.held.entity_named(schedule.class, named)?;
                self.schedule_notice(program, schedule.class, notice, time)
            }
        }
    }

    /// SCHEDULE: gets the value that names the notice, and the arguments, then the time. Then it
    /// schedules the notice.
    fn schedule(&mut self, program: &Program, schedule: &Schedule) -> Result<(), StepFault>
        requires event { IsEventClass program.now schedule.now.class
            (length schedule.now.arguments) }
        requires tables { tables self.old ≡ tables_of program.now }
        requires rules { rules self.old ≡ rules_of program.now }
        requires sound { InHeld self.old.held IsSoundTiming (timings.Schedule schedule.now) }
        requires room { 3 + length schedule.now.arguments < self.old.journal.notes }
        ensures outcome { LeadsToOrRefuses result
            (state_after_schedule program.now (state self.old) schedule.now) (state self.new) }
        ensures notes { Notes (3 + length schedule.now.arguments) self.old self.new }
    {
        let named = arguments_asked(self.held.view(), schedule, &mut self.values)?;
        let time = time_asked(self.held.view(), &schedule.when)?;
        self.schedule_said(program, schedule, named, time)
    }

    /// CANCEL: takes off the notice that a value names.
    fn cancel(&mut self, class: usize, notice: &Expr) -> Result<(), RunFault>
        requires notice { InHeld self.old.held IsSoundExpr notice.now }
        requires room { 0 < self.old.journal.notes }
        ensures outcome { LeadsTo result
            (state_after_cancel (tables self.old) (state self.old) class notice.now)
            (state self.new) }
        ensures notes { Notes 1 self.old self.new }
    {
        let x = value(self.held.view(), notice)?;
        let number = self.held.entity_named(class, x)?;
        let change = self.held.cancel(number)?;
        self.journal.note(change);
        Ok(())
    }

    /// Runs a statement on event notices.
    #[inline(never)]
    pub fn run_timing(
        &mut self,
        program: &Program,
        next: usize,
        timing: &Timing,
    ) -> Result<(), AllocError>
        requires well { IsInBounds program.now (state self.old) }
        requires timed { IsTimed program.now
            (section_of program.now (state self.old).frame.section) (places.Timing timing.now) }
        requires sound { InHeld self.old.held IsSoundTiming timing.now }
        requires tables { tables self.old ≡ tables_of program.now }
        requires rules { rules self.old ≡ rules_of program.now }
        requires none { self.old.journal.current ≡ [] }
        requires room { changes.most_timing_changes timing.now ≤ self.old.journal.notes }
        ensures state { OnOk result
            (state self.new ≡ step_timing program.now (state self.old) next timing.now) }
        ensures notes { Notes (changes.most_timing_changes timing.now) self.old self.new }
    {
        match timing {
            Timing::Schedule(schedule) => {
                let done = self.schedule(program, schedule);
                self.settle_or_refuse(next, done)
            }
            Timing::Cancel { class, notice, .. } => {
                let done = self.cancel(*class, notice);
                self.settle(next, done);
                Ok(())
            }
            Timing::Start => self.start_simulation(program, next),
        }
    }
}

/// The value that names the notice of `SCHEDULE THE`; 0 for `SCHEDULE A`, which names none.
fn notice_named<S: SetBoard>(view: View<'_, S>, notice: &Notice) -> Result<i64, RunFault>
    requires { InView view IsSoundNotice notice.now }
    ensures { result ≡ steps.notice_named (view_readings view.entry) notice.now }
{
    match notice {
        Notice::New { .. } => Ok(0),
        Notice::Known { notice, .. } => value(view, notice),
    }
}

/// The value that names the notice of a SCHEDULE. Its arguments replace the old contents of
/// `arguments`. The name and the arguments are got in the order in which they are written.
pub fn arguments_asked<S: SetBoard>(
    view: View<'_, S>,
    schedule: &Schedule,
    arguments: &mut Vec<i64>,
) -> Result<i64, StepFault>
    requires notice { InView view IsSoundNotice schedule.now.notice }
    requires sound { InView view AreSoundExprs schedule.now.arguments }
    ensures { GivesOrRefuses result
        (steps.arguments_asked (view_readings view.entry) schedule.now.notice
        schedule.now.arguments schedule.now.listing)
        (λ named. (named, arguments.new.items)) }
{
    match schedule.listing {
        Listing::InParentheses => {
            values(view, &schedule.arguments, arguments)?;
            let named = notice_named(view, &schedule.notice)?;
            Ok(named)
        }
        Listing::Given => {
            let named = notice_named(view, &schedule.notice)?;
            values(view, &schedule.arguments, arguments)?;
            Ok(named)
        }
    }
}

/// The time at which a notice is to be due, or the first fault: F1 if the sum of the clock and the
/// days is out of range.
pub fn time_asked<S: SetBoard>(view: View<'_, S>, when: &When) -> Result<i64, RunFault>
    requires { InView view IsSoundWhen when.now }
    ensures { result ≡ steps.time_asked (view_readings view.entry) when.now }
{
    match when {
        When::At(e) => value(view, e),
        When::Now => Ok(view.clock),
        When::In(e) => {
            let days = value(view, e)?;
            view.clock.checked_add(days).ok_or(RunFault::OutOfRange)
        }
    }
}

/// The parts of an event class in addition to its name and its attributes.
pub fn event_class(program: &Program, class: usize) -> &EventClass
    requires { IsEventClass program.now class 0 }
    ensures { result.now ≡ event_of program.now class }
{
    match &program.classes[class].kind {
        ClassKind::Event(event) => event,
        _ => unreachable!(),
    }
}

//! The parts that all steps of a run share: their writes, their notes, and how a step ends.
ghost use Rattle.std.specs.Prelude.{◌≡◌, ◌+◌, ◌<◌, ◌≤◌, ◌^◌, [], length, slice_get, slice_index_or, pos, Some, OnOk};
ghost use Rattle.std.specs.Prelude.{IfOk, MatchOption};
ghost use Rattle.ss_words.specs.declared.limits.TheConstants.{MOST_PHRASES};
ghost use Rattle.ss_program.specs.Match.{ways_of};
ghost use Rattle.ss_program.specs.Program.{places_of, section_of, spot_at};
ghost use Rattle.ss_program.specs.ProgramSound.{IsSettable, IsTarget, AreTargets, IsSoundPlace, IsTimed, LeadsOn};
ghost use Rattle.ss_journal.specs.Undoing.{unapply_all, FitsAll};
ghost use Rattle.ss_links.specs.Board.{empty_board};
ghost use Rattle.ss_store.specs.Tables.{tables_of};
ghost use Rattle.ss_events.specs.Rules.{rules_of};
ghost use Rattle.ss_machine.specs.Executor.{rules, state, state_before, tables};
ghost use Rattle.ss_state.specs.declared.limits.TheConstants.{MOST_STEP_CHANGES};
ghost use Rattle.ss_state.specs.Change.{Fits, unapply};
ghost use Rattle.ss_machine.specs.Noting.{Notes};
ghost use Rattle.ss_machine.specs.Outcome.{LeadsTo, IsMarked, IsSettled, IsSettledOrRefused};
ghost use Rattle.ss_state.specs.ChangeCounts.{most_changes, change_bound};
ghost use Rattle.ss_machine.specs.Seen.{InHeld, scope_held};
ghost use Rattle.ss_state.specs.Statements.{state_after_assignment, state_with_value, state_at_place};
ghost use Rattle.ss_state.specs.Statements.{state_with_values};
ghost use Rattle.ss_state.specs.Step.{step, step_at};
ghost use Rattle.ss_state.specs.Run.{start};
ghost use Rattle.ss_state.specs.Well.{IsInBounds};

use crate::history::History;
use crate::state::State;
use crate::statements::looping::looping_room;
use ss_data::Feed;
use ss_journal::Undo;
use ss_links::SetBoard;
use ss_program::{
    Assign, Branch, Call, Control, Filing, Looping, Making, Output, Place, Program, Spot, Target,
    Targets, Variable, Ways,
};
use ss_state::{MOST_STEP_CHANGES, Status};
use ss_values::{subscript_value, value, values};
use ss_words::{RunFault, StepFault};
use std::alloc::{AllocError, Global};

/// A state, the journal of its changes, and room for the values of one statement.
///
/// Each statement leaves an open step that leads back to the state before, even if memory was
/// refused. No statement cleans up.
#[derive(Drop)]
pub struct Executor<S: SetBoard> {
    pub held: State<S>,
    pub journal: History,
    pub values: Vec<i64>,
    pub alloc: Global,
}

impl<S: SetBoard> Executor<S> {
    /// The start of a program's run, with an empty journal, on boards without heads and seats.
    pub fn new(
        alloc: Global,
        program: &Program,
        feed: Feed,
        sets: S,
        pending: S,
    ) -> Result<Self, AllocError>
        requires taken { feed.taken ≡ 0 }
        requires sets { S.board sets ≡ empty_board }
        requires pending { S.board pending ≡ empty_board }
        ensures state { IfOk result (λ executor. state executor
            ≡ start (record { program = program.now; items = feed.items })) }
        ensures tables { IfOk result (λ executor. tables executor ≡ tables_of program.now) }
        ensures rules { IfOk result (λ executor. rules executor ≡ rules_of program.now) }
        ensures steps { IfOk result (λ executor. executor.journal.steps ≡ []) }
        ensures current { IfOk result (λ executor. executor.journal.current ≡ []) }
    {
        Ok(Executor {
            held: State::new(alloc, program, feed, sets, pending)?,
            journal: History::new(alloc),
            values: Vec::new(alloc),
            alloc,
        })
    }

    #[inline(always)]
    pub fn assign(&mut self, target: Variable, value: i64)
        requires target { InHeld self.old.held IsSettable target }
        requires room { 0 < self.old.journal.notes }
        ensures state { state self.new ≡ state_after_assignment (state self.old) target value }
        ensures beside { self.new.held.beside ≡ self.old.held.beside }
        ensures values { self.new.values ≡ self.old.values }
        ensures notes { Notes 1 self.old self.new }
    {
        let change = self.held.assign(target, value);
        self.journal.note(change);
    }

    #[inline(always)]
    pub fn go_to(&mut self, place: usize)
        requires room { 0 < self.old.journal.notes }
        ensures state { state self.new ≡ state_at_place place (state self.old) }
        ensures notes { Notes 1 self.old self.new }
    {
        let change = self.held.go_to(place);
        self.journal.note(change);
    }

    #[inline(never)]
    pub fn mark(&mut self, status: Status)
        requires room { 0 < self.old.journal.notes }
        ensures state { state self.new ≡ record (state self.old) { status = status } }
        ensures notes { Notes 1 self.old self.new }
    {
        let change = self.held.mark(status);
        self.journal.note(change);
    }

    /// Assigns to a target; after F3 nothing has changed.
    #[tactic(auto, using(crate::proofs::Scopes::class_there))]
    #[inline(always)]
    pub fn assign_target(&mut self, target: &Target, value: i64) -> Result<(), RunFault>
        requires target { InHeld self.old.held IsTarget target.now }
        requires room { 0 < self.old.journal.notes }
        ensures outcome { LeadsTo result
            (state_with_value (tables self.old) (state self.old) target.now value)
            (state self.new) }
        ensures tables { tables self.new ≡ tables self.old }
        ensures scope { OnOk result (scope_held self.new.held ≡ scope_held self.old.held) }
        ensures values { self.new.values ≡ self.old.values }
        ensures notes { Notes 1 self.old self.new }
    {
        match target {
            Target::Variable(variable) => {
                self.assign(*variable, value);
                Ok(())
            }
            Target::Attribute {
                class,
                attribute,
                index,
            } => {
                let entity = subscript_value(self.held.view(), index)?;
                let change = self.held.set_attribute(*class, *attribute, entity, value)?;
                self.journal.note(change);
                Ok(())
            }
        }
    }

    /// Assigns to the targets, in order, the values kept for this from number `first` on.
    #[inline(always)]
    pub fn assign_kept(&mut self, first: usize, targets: &Targets) -> Result<(), RunFault>
        requires sound { InHeld self.old.held AreTargets targets.now }
        requires few { first + length targets.now < 2 ^ 64 }
        requires room { length targets.now < self.old.journal.notes }
        ensures outcome { LeadsTo result
            (state_with_values (tables self.old) self.old.values.items (state self.old) first
            targets.now) (state self.new) }
        ensures notes { Notes (length targets.now) self.old self.new }
    {
        let mut number = first;
        for target in &targets.list {
            let value = self.value_at(number);
            self.assign_target(target, value)?;
            number += 1;
        }
        Ok(())
    }

    /// The value of this number that is kept for the targets; 0 if there is none.
    fn value_at(&self, number: usize) -> i64
        ensures { result ≡ slice_index_or self.now.values.items number (pos 0) }
    {
        match self.values.get(number) {
            Some(&value) => value,
            None => 0,
        }
    }

    /// Goes on to `next` if the statement is done. If it faulted, takes back its changes and marks
    /// the fault.
    #[inline(always)]
    pub fn settle(&mut self, next: usize, done: Result<(), RunFault>)
        requires fits { FitsAll Fits unapply self.old.journal.current self.old.held }
        requires room { 0 < self.old.journal.notes }
        ensures state { IsSettled done
            (state_at_place next (state self.old)) (state_before self.old) (state self.new) }
        ensures notes { Notes 1 self.old self.new }
    {
        match done {
            Ok(()) => self.go_to(next),
            Err(fault) => {
                self.roll_back();
                self.mark(Status::Faulted(fault));
            }
        }
    }

    /// Settles a statement for which memory may have been refused; then nothing is settled.
    pub fn settle_or_refuse(
        &mut self,
        next: usize,
        done: Result<(), StepFault>,
    ) -> Result<(), AllocError>
        requires fits { FitsAll Fits unapply self.old.journal.current self.old.held }
        requires room { 0 < self.old.journal.notes }
        ensures state { IsSettledOrRefused done result
            (state_at_place next (state self.old)) (state_before self.old) (state self.new) }
        ensures notes { Notes 1 self.old self.new }
    {
        let Err(fault) = done else {
            self.go_to(next);
            return Ok(());
        };
        self.fail_or_refuse(fault)
    }

    /// Takes back the changes of a statement that faulted, and marks its fault. If memory was
    /// refused, it does nothing.
    pub fn fail_or_refuse(&mut self, fault: StepFault) -> Result<(), AllocError>
        requires fits { FitsAll Fits unapply self.old.journal.current self.old.held }
        requires room { 0 < self.old.journal.notes }
        ensures state { OnOk result (IsMarked fault (state_before self.old) (state self.new)) }
        ensures notes { Notes 1 self.old self.new }
    {
        match fault {
            StepFault::Fault(fault) => {
                self.roll_back();
                self.mark(Status::Faulted(fault));
                Ok(())
            }
            StepFault::Memory => Err(AllocError),
        }
    }

    /// Runs a place. After an error the changes made so far are left in the open step.
    #[inline(always)]
    fn run_place(&mut self, program: &Program, ways: Ways, place: &Place) -> Result<(), AllocError>
        requires well { IsInBounds program.now (state self.old) }
        requires sound { InHeld self.old.held IsSoundPlace place.now }
        requires tables { tables self.old ≡ tables_of program.now }
        requires rules { rules self.old ≡ rules_of program.now }
        requires timed { IsTimed program.now
            (section_of program.now (state self.old).frame.section) place.now }
        requires leads { LeadsOn program.now.sections
            (length (places_of (slice_get program.now.sections (state self.old).frame.section)))
            ways place.now }
        requires few { ways.chain ≤ MOST_PHRASES }
        requires none { self.old.journal.current ≡ [] }
        requires room { most_changes program.now (state self.old) ways place.now
            ≤ self.old.journal.notes }
        ensures state { OnOk result
            (state self.new ≡ step_at program.now (state self.old) ways place.now) }
        ensures notes { Notes
            (most_changes program.now (state self.old) ways place.now) self.old self.new }
    {
        match place {
            Place::Assign(assign) => {
                self.run_assign(ways.next, assign);
                Ok(())
            }
            Place::Making(making) => self.run_making(ways.next, making.value()),
            Place::Filing(filing) => {
                self.run_filing(ways.next, filing.value());
                Ok(())
            }
            Place::Output(output) => self.run_output(ways.next, output.value()),
            Place::Control(control) => self.run_control(program, *control),
            Place::Branch(branch) => {
                self.run_branch(ways, branch);
                Ok(())
            }
            Place::Looping(looping) => self.run_looping(ways, looping),
            Place::Call(call) => self.run_call(program, call.value()),
            Place::Timing(timing) => self.run_timing(program, ways.next, timing.value()),
            Place::Read(targets) => self.read(program, ways.next, targets),
        }
    }

    /// Runs the current place of the state, once there is room for its changes. After an error the
    /// changes made so far are left in the open step.
    #[inline(always)]
    pub fn run(&mut self, program: &Program) -> Result<(), AllocError>
        requires well { IsInBounds program.now (state self.old) }
        requires tables { tables self.old ≡ tables_of program.now }
        requires rules { rules self.old ≡ rules_of program.now }
        requires none { self.old.journal.current ≡ [] }
        ensures state { OnOk result (state self.new ≡ step program.now (state self.old)) }
        ensures notes { Notes (change_bound program.now (state self.old)) self.old self.new }
        ensures closes { OnOk result (0 < self.new.journal.closes) }
    {
        program.known();
        let (section, place) = self.held.place();
        let spot = program.spot(section, place);
        let ways = ways_at(program, section, place, spot);
        self.make_room(program, ways, &spot.place)?;
        self.run_place(program, ways, &spot.place)
    }

    /// Makes room for the changes of a place's step, and for a close.
    #[inline(always)]
    fn make_room(&mut self, program: &Program, ways: Ways, place: &Place) -> Result<(), AllocError>
        requires timed { IsTimed program.now
            (section_of program.now (state self.old).frame.section) place.now }
        requires few { ways.chain ≤ MOST_PHRASES }
        ensures held { self.new.held ≡ self.old.held }
        ensures current { self.new.journal.current ≡ self.old.journal.current }
        ensures notes { Notes 0 self.old self.new }
        ensures room { OnOk result
            (most_changes program.now (state self.old) ways place.now ≤ self.new.journal.notes) }
        ensures closes { OnOk result (0 < self.new.journal.closes) }
    {
        match self.room_of_targets(program, ways, place) {
            None => self.journal.reserve(MOST_STEP_CHANGES),
            Some(room) => self.journal.reserve(room),
        }
    }

    /// For how many changes a place asks for room whose targets may be many; it notes no more. All
    /// others ask for the same.
    #[inline(always)]
    fn room_of_targets(&self, program: &Program, ways: Ways, place: &Place) -> Option<usize>
        requires timed { IsTimed program.now
            (section_of program.now (state self.now).frame.section) place.now }
        requires few { ways.chain ≤ MOST_PHRASES }
        ensures { MatchOption result
            (most_changes program.now (state self.now) ways place.now ≤ MOST_STEP_CHANGES)
            (λ room. most_changes program.now (state self.now) ways place.now ≤ room) }
    {
        program.known();
        match place {
            Place::Assign(_)
            | Place::Making(_)
            | Place::Filing(_)
            | Place::Output(_)
            | Place::Branch(_)
            | Place::Call(_) => None,
            // Few values come back from a section, and a notice has few attributes.
            Place::Control(_) => None,
            Place::Timing(_) => None,
            Place::Looping(looping) => Some(looping_room(ways, looping)),
            Place::Read(targets) => Some(2 + targets.list.len()),
        }
    }

    /// Takes back the changes of the open step.
    pub fn roll_back(&mut self)
        requires { FitsAll Fits unapply self.old.journal.current self.old.held }
        ensures held { self.new.held ≡ unapply_all unapply self.old.journal.current self.old.held }
        ensures steps { self.new.journal.steps ≡ self.old.journal.steps }
        ensures current { self.new.journal.current ≡ [] }
        ensures notes { self.old.journal.notes ≤ self.new.journal.notes }
        ensures closes { self.new.journal.closes ≡ self.old.journal.closes }
    {
        while self.journal.undo_newest(&mut self.held) {}
    }
}

/// The places at which the run may go on after a place.
#[inline(always)]
pub fn ways_at(program: &Program, section: usize, place: usize, spot: &Spot) -> Ways
    requires section { section < length program.now.sections }
    requires place { place < length (places_of (slice_get program.now.sections section)) }
    requires spot { spot_at program.now section place ≡ Some spot.now }
    ensures { result
        ≡ ways_of (places_of (slice_get program.now.sections section)) place spot.now.place }
{
    program.ways(section, place)
}

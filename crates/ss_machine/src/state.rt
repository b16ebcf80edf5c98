//! The state of a run.
pub mod change;
pub mod data;
pub mod entities;
pub mod external;
pub mod frame;
pub mod frames;
pub mod locals;
pub mod loops;
pub mod notices;
pub mod statistics;
mod views;

ghost use Rattle.std.specs.Prelude.{◌≡◌, ◌<◌, ◌≤◌, length, IfOk};
ghost use Rattle.ss_program.specs.ProgramSound.{IsSettable};
ghost use Rattle.ss_values.specs.Seen.{scope_of, view_readings};
ghost use Rattle.ss_links.specs.Board.{empty_board};
ghost use Rattle.ss_store.specs.Tables.{tables_of};
ghost use Rattle.ss_events.specs.Rules.{rules_of};
ghost use Rattle.ss_state.specs.Held.{store_of, agenda_of};
ghost use Rattle.ss_state.specs.Readings.{readings, variable_in, HasVariable};
ghost use Rattle.ss_state.specs.Statements.{state_after_assignment};
ghost use Rattle.ss_state.specs.Run.{start};
ghost use Rattle.ss_state.specs.Change.{Fits, unapply, FrameDropped};
ghost use Rattle.ss_state.specs.declared.limits.TheConstants.{MOST_BELOW};
ghost use Rattle.ss_machine.specs.Locals.{small_frame};
ghost use Rattle.ss_machine.specs.ChangeView.{as_change};
ghost use Rattle.ss_program.specs.declared.variable.Variable.TheVariants as variable;

use crate::state::change::Change;
use crate::state::frame::{Frame, FrameBox, SmallFrame};
use crate::state::statistics::Statistics;
use ss_data::Feed;
use ss_events::Agenda;
use ss_journal::Undo;
use ss_links::SetBoard;
use ss_program::{Program, Variable};
use ss_report::Report;
use ss_state::{Entry, MOST_BELOW, Status};
use ss_store::Store;
use ss_values::View;
use std::alloc::{AllocError, Global};
use std::marker::Model;
use std::mem;

/// The state of a run. Each call that writes gives the change that takes it back.
#[derive(Drop)]
pub struct State<S: SetBoard> {
    variables: Vec<i64>,
    frame: Frame,
    below: Vec<Frame>,
    clock: i64,
    store: Store<S>,
    agenda: Agenda<S>,
    feed: Feed,
    report: Report,
    status: Status,
    entry: Entry,
    alloc: Global,
}

impl<S: SetBoard> Model for State<S> {
    ghost use Rattle.std.specs.Prelude.{reverse, ◌≤◌, vec_capacity};
    ghost use Rattle.ss_state.specs.declared.limits.TheConstants.{MOST_BELOW};
    ghost use Rattle.ss_state.specs.Held.{Held};

    ghost Value = { Held };

    ghost view = { λ a. record {
      state = record {
        variables = a.variables.items;
        frame = a.frame;
        below = reverse a.below.items;
        clock = a.clock;
        store = a.store.state;
        agenda = a.agenda.agenda;
        feed = a.feed;
        report = a.report;
        status = a.status;
        entry = a.entry;
      };
      beside = record {
        tables = a.store.tables;
        kept = a.store.kept;
        rules = a.agenda.rules;
        notices = a.agenda.notices;
      };
    } };

    ghost invariant = { λ a. MOST_BELOW ≤ vec_capacity a.below };
}

impl<S: SetBoard> State<S> {
    /// The state at the start of a program's run over its data, on boards without heads and seats.
    pub fn new(
        alloc: Global,
        program: &Program,
        feed: Feed,
        sets: S,
        pending: S,
    ) -> Result<Self, AllocError>
        requires taken { feed.taken ≡ 0 }
        requires sets { S.board sets ≡ empty_board }
        requires pending { S.board pending ≡ empty_board }
        ensures state { IfOk result
            (λ held. held.state ≡ start (record { program = program.now; items = feed.items })) }
        ensures tables { IfOk result (λ held. held.beside.tables ≡ tables_of program.now) }
        ensures rules { IfOk result (λ held. held.beside.rules ≡ rules_of program.now) }
    {
        let variables = vec![in alloc; 0; program.globals.len()]?;
        let mut below = Vec::new(alloc);
        below.reserve(MOST_BELOW)?;
        let frame = Frame::new(alloc, program, program.main(), &[])?;
        let agenda = Agenda::new(alloc, program, pending)?;
        let store = Store::new(alloc, program, sets)?;
        Ok(State {
            variables,
            frame,
            below,
            clock: 0,
            store,
            agenda,
            feed,
            report: Report::new(alloc),
            status: Status::Ready,
            entry: Entry::Absent,
            alloc,
        })
    }

    /// The view of the state that an expression reads.
    #[inline(always)]
    pub fn view(&self) -> View<'_, S>
        ensures { view_readings result ≡ readings self.now.beside.tables self.now.state }
    {
        View {
            variables: self.variables.as_slice(),
            locals: self.last().locals.as_slice(),
            clock: self.clock,
            store: &self.store,
        }
    }

    /// The value of a variable.
    pub fn variable(&self, of: Variable) -> i64
        requires { HasVariable self.now.state of }
        ensures { result ≡ variable_in self.now.state of }
    {
        match of {
            Variable::Global(number) => self.variables[number],
            Variable::Local(number) => {
                let locals = self.last().locals.as_slice();
                locals[number]
            }
            Variable::Clock => self.clock,
        }
    }

    pub fn store(&self) -> &Store<S>
        ensures { result.now ≡ store_of self.now }
    {
        &self.store
    }

    /// The pending notices.
    pub fn agenda(&self) -> &Agenda<S>
        ensures { result.now ≡ agenda_of self.now }
    {
        &self.agenda
    }

    /// The section of the last frame, and its current place.
    #[inline(always)]
    pub fn place(&self) -> (usize, usize)
        ensures { result ≡ (self.now.state.frame.section, self.now.state.frame.place) }
    {
        let frame = self.last();
        (frame.section, frame.place)
    }

    pub fn clock(&self) -> i64
        ensures { result ≡ self.now.state.clock }
    {
        self.clock
    }

    /// How many items of the data are taken.
    pub fn taken(&self) -> usize
        ensures { result ≡ self.now.state.feed.taken }
    {
        self.feed.taken()
    }

    /// The bytes of the report.
    pub fn report(&self) -> &[u8]
        ensures { result.now ≡ self.now.state.report }
    {
        self.report.bytes()
    }

    pub fn status(&self) -> Status
        ensures { result ≡ self.now.state.status }
    {
        self.status
    }

    /// The entry of an external event.
    pub fn entry(&self) -> Entry
        ensures { result ≡ self.now.state.entry }
    {
        self.entry
    }

    /// Assigns a value to a variable.
    #[inline(always)]
    pub fn assign(&mut self, target: Variable, value: i64) -> Change
        requires { IsSettable (scope_of (readings self.old.beside.tables self.old.state)) target }
        ensures state { self.new.state ≡ state_after_assignment self.old.state target value }
        ensures beside { self.new.beside ≡ self.old.beside }
        ensures fits { Fits (as_change result) self.new }
        ensures back { unapply (as_change result) self.new ≡ self.old }
    {
        match target {
            Variable::Global(number) => self.assign_global(number, value),
            Variable::Local(number) => self.assign_local(number, value),
            Variable::Clock => unreachable!(),
        }
    }

    #[inline(always)]
    fn assign_global(&mut self, number: usize, value: i64) -> Change
        requires { number < length self.old.state.variables }
        ensures state { self.new.state
            ≡ state_after_assignment self.old.state (variable.Global number) value }
        ensures beside { self.new.beside ≡ self.old.beside }
        ensures fits { Fits (as_change result) self.new }
        ensures back { unapply (as_change result) self.new ≡ self.old }
    {
        let old = self.variables[number];
        self.variables[number] = value;
        Change::Variable { number, old }
    }

    #[inline(always)]
    fn assign_local(&mut self, number: usize, value: i64) -> Change
        requires { number < length self.old.state.frame.locals }
        ensures state { self.new.state
            ≡ state_after_assignment self.old.state (variable.Local number) value }
        ensures beside { self.new.beside ≡ self.old.beside }
        ensures fits { Fits (as_change result) self.new }
        ensures back { unapply (as_change result) self.new ≡ self.old }
    {
        let frame = &mut self.frame;
        let old = frame.assign(number, value);
        Change::Local { number, old }
    }

    #[inline(always)]
    fn last(&self) -> &Frame
        ensures { result.now ≡ self.now.state.frame }
    {
        &self.frame
    }

    /// Gives the state another status.
    #[inline(always)]
    pub fn mark(&mut self, status: Status) -> Change
        ensures state { self.new.state ≡ record self.old.state { status = status } }
        ensures fits { Fits (as_change result) self.new }
        ensures back { unapply (as_change result) self.new ≡ self.old }
    {
        let old = self.status;
        self.status = status;
        Change::Status(old)
    }

    /// Gives the state another entry.
    #[inline(always)]
    pub fn set_entry(&mut self, entry: Entry) -> Change
        ensures state { self.new.state ≡ record self.old.state { entry = entry } }
        ensures beside { self.new.beside ≡ self.old.beside }
        ensures fits { Fits (as_change result) self.new }
        ensures back { unapply (as_change result) self.new ≡ self.old }
    {
        let old = self.entry;
        self.entry = entry;
        Change::Entry(old)
    }

    #[inline(always)]
    pub fn set_clock(&mut self, time: i64) -> Change
        ensures state { self.new.state ≡ record self.old.state { clock = time } }
        ensures beside { self.new.beside ≡ self.old.beside }
        ensures fits { Fits (as_change result) self.new }
        ensures back { unapply (as_change result) self.new ≡ self.old }
    {
        let old = self.clock;
        self.clock = time;
        Change::Clock(old)
    }
}

impl<S: SetBoard> State<S> {
    /// A small frame that was dropped is the last one again.
    pub fn take_up_small(&mut self, dropped: &SmallFrame)
        requires { length self.old.state.below < MOST_BELOW }
        ensures { self.new ≡ unapply (FrameDropped (small_frame dropped.now)) self.old }
    {
        let frame = Frame::of_small(self.alloc, dropped);
        let last = mem::replace(&mut self.frame, frame);
        self.below.push_reserved(last);
    }

    /// A frame that was dropped is the last one again.
    #[inline(never)]
    fn take_up(&mut self, dropped: FrameBox)
        requires { length self.old.state.below < MOST_BELOW }
        ensures { self.new ≡ unapply (FrameDropped dropped) self.old }
    {
        let last = mem::replace(&mut self.frame, dropped.frame());
        self.below.push_reserved(last);
    }
}

impl<S: SetBoard> Undo for State<S> {
    type Change = Change;

    ghost fits = { λ c h. Fits (as_change c) h };

    ghost unapply = { λ c h. unapply (as_change c) h };

    fn undo(&mut self, change: Change) {
        match change {
            Change::Variable { number, old } => self.variables[number] = old,
            Change::Clock(old) => self.clock = old,
            Change::Store(change) => self.store.undo(change),
            Change::Agenda(change) => self.agenda.undo(change),
            Change::Taken(old) => self.feed.undo(old),
            Change::Report(old_len) => self.report.cut(old_len),
            Change::Status(old) => self.status = old,
            Change::Entry(old) => self.entry = old,
            Change::FrameOpened => {
                if let Some(frame) = self.below.pop() {
                    self.frame = frame;
                }
            }
            Change::FrameDropped(dropped) => self.take_up(dropped),
            Change::Local { number, old } => {
                let frame = &mut self.frame;
                let _ = frame.locals.set(number, old);
            }
            Change::Place(old) => {
                let frame = &mut self.frame;
                frame.place = old;
            }
            Change::LoopOpened => {
                let frame = &mut self.frame;
                let _ = frame.loops.close();
            }
            Change::LoopMoved(old) => {
                let frame = &mut self.frame;
                frame.loops.set_candidate(old);
            }
            Change::LoopClosed(closed) => {
                let frame = &mut self.frame;
                frame.loops.reopen(closed);
            }
            Change::Found(old) => {
                let frame = &mut self.frame;
                frame.found = old;
            }
            Change::Statistics {
                number,
                sum,
                greatest,
                least,
            } => {
                let frame = &mut self.frame;
                frame.statistics = Statistics {
                    number,
                    sum,
                    greatest,
                    least,
                };
            }
        }
    }
}

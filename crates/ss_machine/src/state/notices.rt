//! The pending notices of a state, and the entry that waits for one.
ghost use Rattle.std.specs.Prelude.{◌≡◌, ◌<◌, ◌≤◌, length, true};
ghost use Rattle.ss_events.specs.Agenda.{is_pending, least, agenda_after_taking};
ghost use Rattle.ss_events.specs.Rules.{rule_at, is_event_class};
ghost use Rattle.ss_events.specs.Slots.{slot_of};
ghost use Rattle.std.specs.Option.{option_map};
ghost use Rattle.ss_state.specs.Statements.Timing.{state_with_agenda, state_with_notice, agenda_without};
ghost use Rattle.ss_machine.specs.Storing.{LeavesState, IsScheduling, IsCancelling};
ghost use Rattle.ss_state.specs.State.{waits_for, entry_at_start};

use crate::state::State;
use crate::state::change::Change;
use ss_events::{Agenda, Slot};
use ss_links::SetBoard;
use ss_state::Entry;
use ss_words::limits::MOST_REFERENCES;
use ss_words::{RunFault, StepFault};

impl<S: SetBoard> State<S> {
    /// Whether a notice is pending.
    pub fn is_pending(&self, notice: u32) -> bool
        requires { 0 < notice }
        ensures { result ≡ is_pending self.now.state.agenda notice }
    {
        self.agenda.slot(notice).is_some()
    }

    /// The notice that is due before all others, with its time and its class, or none if none is
    /// pending.
    pub fn next_notice(&self) -> Option<(u32, Slot)>
        ensures { result
            ≡ option_map (λ e. (e.notice, slot_of e))
            (least self.now.beside.rules self.now.state.agenda.pending) }
    {
        self.agenda.known();
        let notice = self.agenda.next()?;
        let slot = self.agenda.slot(notice)?;
        Some((notice, slot))
    }

    /// Makes a notice pending at a time, with these keys. After F9, F10, F20 and want of memory
    /// nothing has changed.
    pub fn schedule(
        &mut self,
        class: usize,
        notice: u32,
        time: i64,
        keys: &[i64],
    ) -> Result<Change, StepFault>
        requires number { 0 < notice }
        requires small { notice ≤ MOST_REFERENCES }
        requires class { is_event_class self.old.beside.rules class ≡ true }
        requires keys { length keys.now ≡ length (rule_at self.old.beside.rules class).ties }
        ensures { IsScheduling result
            (state_with_notice self.old.state class notice time keys.now) self.old self.new }
    {
        match self.agenda.schedule(notice, class, time, self.clock, keys) {
            Ok(change) => Ok(Change::Agenda(change)),
            Err(fault) => Err(fault),
        }
    }

    /// Whether the entry waits for this notice.
    fn is_awaited(&self, notice: u32) -> bool
        ensures { result ≡ waits_for notice self.now.state.entry }
    {
        match self.entry {
            Entry::Waiting { notice: other, .. } => other == notice,
            _ => false,
        }
    }

    /// Takes a pending notice off. After F11 nothing has changed.
    #[inline(always)]
    pub fn cancel(&mut self, notice: u32) -> Result<Change, RunFault>
        requires { 0 < notice }
        ensures { IsCancelling result (agenda_without self.old.state notice) self.old self.new }
    {
        if self.is_awaited(notice) {
            return Err(RunFault::NotScheduled);
        }
        match self.agenda.cancel(notice) {
            Ok(change) => Ok(Change::Agenda(change)),
            Err(fault) => Err(fault),
        }
    }

    /// Takes off a notice that is pending.
    #[inline(always)]
    pub fn take_off(&mut self, notice: u32) -> Change
        requires number { 0 < notice }
        requires pending { is_pending self.old.state.agenda notice ≡ true }
        ensures { LeavesState result
            (state_with_agenda self.old.state
            (agenda_after_taking self.old.state.agenda notice)) self.old self.new }
    {
        Change::Agenda(self.agenda.take(notice))
    }

    /// The entry, which is running if it waited for the notice whose event starts.
    pub fn entry_at_start(&self, notice: u32) -> Entry
        ensures { result ≡ entry_at_start notice self.now.state.entry }
    {
        match self.entry {
            Entry::Waiting {
                class,
                notice: other,
            } if other == notice => Entry::Running { class, notice },
            entry => entry,
        }
    }
}

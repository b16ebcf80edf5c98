//! Notices made pending and taken off.
ghost use Rattle.std.specs.Prelude.{◌≡◌, ◌+◌, ◌-◌, ◌<◌, ◌≤◌, not, length, take, Some, IfOk, OnErr, true};
ghost use Rattle.std.specs.Option.{IsSome};
ghost use Rattle.ss_words.specs.declared.limits.TheConstants.{MOST_REFERENCES};
ghost use Rattle.ss_events.specs.declared.limits.TheConstants.{MOST_SCHEDULINGS};
ghost use Rattle.ss_links.specs.Seats.{has};
ghost use Rattle.ss_events.specs.Rules.{rule_at, is_event_class, event_number};
ghost use Rattle.ss_events.specs.Agenda.{pending_at, may_schedule, may_cancel};
ghost use Rattle.ss_events.specs.Agenda.{with_notice, without_notice};
ghost use Rattle.ss_events.specs.State.{NoneNoted, Each};
ghost use Rattle.ss_events.specs.Changes.{with_pending, with_notices, with_filing, with_seat_for, CanPend};
ghost use Rattle.ss_events.specs.Changes.{IsLastSeat, Went, after_taking, after_scheduling, IsScheduled};
ghost use Rattle.ss_events.specs.Changes.{IsCancelled, Fits, unapply};
ghost use Rattle.ss_events.specs.Places.{predecessor_of};
ghost use Rattle.ss_events.specs.Views.{notice_of};

use crate::agenda::{Agenda, AgendaChange};
use crate::limits::MOST_SCHEDULINGS;
use crate::pending_notice::PendingNotice;
use crate::placing::{filed_before, node_for, take_from};
use crate::ranking::{EntryRank, entry_of, grow, notice_if};
use ss_journal::Undo;
use ss_links::{Place, SetBoard};
use ss_words::{RunFault, StepFault};
use std::alloc::AllocError;

impl<S: SetBoard> Agenda<S> {
    /// Makes a notice pending.
    fn put_in(&mut self, notice: u32, entry: PendingNotice)
        requires { CanPend self.old (notice_of notice entry) }
        ensures { self.new
            ≡ with_pending self.old (with_notice (notice_of notice entry) self.old.agenda.pending) }
    {
        let head = self.head(entry.class);
        self.keep_index(head);
        self.link(notice, entry, head);
    }

    /// Makes a notice pending, whose class has this head.
    fn link(&mut self, notice: u32, entry: PendingNotice, head: u32)
        requires can { CanPend self.old (notice_of notice entry) }
        requires head { head ≡ event_number self.old.rules entry.class }
        ensures { self.new
            ≡ with_pending self.old (with_notice (notice_of notice entry) self.old.agenda.pending) }
    {
        let list = &mut self.indexes[head as usize];
        let index = notice as usize - 1;
        let seat = self.rows[index].seat.unwrap();
        let node = node_for(self.alloc, list, &mut self.spare, seat);
        let rank = EntryRank {
            rules: &self.rules,
            rows: &self.rows,
            notices: &self.notices,
            times: &self.times,
            entry: &entry,
        };
        let before = filed_before(&self.board, head, list, node, &rank);
        self.times[seat as usize] = entry.time;
        self.rows[index].pending = Some(entry);
        self.board.relink(seat, Place { head, before });
    }

    /// Takes a pending notice out, and gives its entry and the notice before it.
    fn take_out(&mut self, notice: u32) -> (PendingNotice, Option<u32>)
        requires number { 0 < notice }
        requires pending { IsSome (pending_at self.old.agenda.pending notice) }
        ensures entry { pending_at self.old.agenda.pending notice
            ≡ Some (notice_of notice result.0) }
        ensures state { self.new
            ≡ with_pending self.old (without_notice notice self.old.agenda.pending) }
        ensures predecessor { result.1 ≡ predecessor_of self.new (notice_of notice result.0) }
    {
        let index = notice as usize - 1;
        let seat = self.rows[index].seat.unwrap();
        let head = self.board.place(seat).unwrap();
        let entry = entry_of(&self.rows, notice).unwrap();
        let rank = EntryRank {
            rules: &self.rules,
            rows: &self.rows,
            notices: &self.notices,
            times: &self.times,
            entry,
        };
        let list = &mut self.indexes[head as usize];
        take_from(list, seat, &rank, &mut self.spare);
        let row = &mut self.rows[index];
        let entry = row.pending.take().unwrap();
        let place = self.board.unlink(seat);
        let predecessor = notice_if(&self.notices, place.before);
        (entry, predecessor)
    }

    /// Makes a seat for a notice, unless it has one, and says whether it did.
    fn give_seat(&mut self, notice: u32) -> Result<bool, AllocError>
        requires number { 0 < notice }
        requires small { notice ≤ MOST_REFERENCES }
        ensures ok { IfOk result (λ made. (made ≡ not (has self.old.notices notice))
            × (self.new ≡ with_notices self.old (with_seat_for self.old.notices notice))) }
        ensures err { OnErr result (self.new ≡ self.old) }
    {
        grow(&mut self.rows, notice as usize)?;
        let index = notice as usize - 1;
        if self.rows[index].seat.is_some() {
            return Ok(false);
        }
        self.notices.reserve(1)?;
        self.times.reserve(1)?;
        let seat = self.board.try_add_seat()?;
        self.notices.push(notice).unwrap();
        self.times.push(0).unwrap();
        let row = &mut self.rows[index];
        row.seat = Some(seat);
        Ok(true)
    }

    /// Takes the last seat off, which is this notice's.
    fn take_seat(&mut self, notice: u32)
        requires last { IsLastSeat self.old notice }
        requires idle { NoneNoted notice self.old.agenda.pending }
        ensures { self.new
            ≡ with_notices self.old (take (length self.old.notices - 1) self.old.notices) }
    {
        self.board.take_last_seat();
        self.notices.truncate(self.notices.len() - 1);
        self.times.truncate(self.times.len() - 1);
        let row = &mut self.rows[notice as usize - 1];
        row.seat = None;
    }

    /// Takes the next filing number.
    fn file(&mut self) -> u64
        requires { self.old.agenda.next_filing ≤ MOST_SCHEDULINGS }
        ensures number { result ≡ self.old.agenda.next_filing }
        ensures state { self.new ≡ with_filing self.old (self.old.agenda.next_filing + 1) }
    {
        let filing = self.next_filing;
        self.next_filing = filing + 1;
        filing
    }

    /// Gives the last filing number back.
    fn unfile(&mut self)
        requires any { 1 < self.old.agenda.next_filing }
        requires free { Each
            (λ e. e.filing + 1 < self.old.agenda.next_filing) self.old.agenda.pending }
        ensures { self.new ≡ with_filing self.old (self.old.agenda.next_filing - 1) }
    {
        self.next_filing -= 1;
    }

    /// Makes a notice pending at a time, with its class's keys as they are now.
    ///
    /// A time before the clock (F9), a notice that is pending already (F10), and want of filing
    /// numbers (F20) are refused, the first of these first (docs/LANGUAGE.md, "Run faults"), and
    /// then want of memory. A refusal leaves all as it was.
    pub fn schedule(
        &mut self,
        notice: u32,
        class: usize,
        time: i64,
        clock: i64,
        keys: &[i64],
    ) -> Result<AgendaChange, StepFault>
        requires number { 0 < notice }
        requires small { notice ≤ MOST_REFERENCES }
        requires class { is_event_class self.old.rules class ≡ true }
        requires keys { length keys.now ≡ length (rule_at self.old.rules class).ties }
        ensures { IsScheduled result (may_schedule self.old.agenda notice time clock)
            (after_scheduling self.old notice time class keys.now) self.old self.new }
    {
        if time < clock {
            return Err(StepFault::Fault(RunFault::TimeBeforeClock));
        }
        if self.slot(notice).is_some() {
            return Err(StepFault::Fault(RunFault::AlreadyScheduled));
        }
        if self.next_filing > MOST_SCHEDULINGS {
            return Err(StepFault::Fault(RunFault::TooManyReferences));
        }
        let keys = keys.to_vec(self.alloc)?;
        let seated = self.give_seat(notice)?;
        let filing = self.file();
        let entry = PendingNotice {
            time,
            class,
            keys,
            filing,
        };
        self.put_in(notice, entry);
        Ok(AgendaChange::Scheduled { notice, seated })
    }

    /// Takes a pending notice off.
    pub fn take(&mut self, notice: u32) -> AgendaChange
        requires number { 0 < notice }
        requires pending { IsSome (pending_at self.old.agenda.pending notice) }
        ensures { Went result (after_taking self.old notice) self.old self.new }
    {
        // Reading a field makes the invariant known.
        let _board = &self.board;
        let (entry, predecessor) = self.take_out(notice);
        AgendaChange::TakenOff {
            notice,
            entry,
            predecessor,
        }
    }

    /// Takes a notice off, if it is pending. If it isn't (F11), all is left as it was.
    pub fn cancel(&mut self, notice: u32) -> Result<AgendaChange, RunFault>
        requires { 0 < notice }
        ensures { IsCancelled result (may_cancel self.old.agenda notice)
            (after_taking self.old notice) self.old self.new }
    {
        if self.slot(notice).is_none() {
            return Err(RunFault::NotScheduled);
        }
        Ok(self.take(notice))
    }
}

impl<S: SetBoard> Undo for Agenda<S> {
    type Change = AgendaChange;

    ghost fits = { Fits };

    ghost unapply = { unapply };

    fn undo(&mut self, change: AgendaChange) {
        match change {
            AgendaChange::Scheduled { notice, seated } => {
                let _taken = self.take_out(notice);
                self.unfile();
                if seated {
                    self.take_seat(notice);
                }
            }
            AgendaChange::TakenOff { notice, entry, .. } => self.put_in(notice, entry),
        }
    }
}

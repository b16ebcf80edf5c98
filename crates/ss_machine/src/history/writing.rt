//! Changes written in the journal, as the numbers of their kind and a kept part.

ghost use Rattle.std.specs.Prelude.{◌<◌};
ghost use Rattle.ss_machine.specs.History.{IsNoted};
ghost use Rattle.ss_state.specs.Change as changes;
ghost use Rattle.ss_machine.specs.ChangeView.{as_change};
ghost use Rattle.ss_machine.specs.Locals.{small_frame};
ghost use Rattle.ss_store.specs.declared.change.StoreChange.TheVariants as stores;
ghost use Rattle.ss_events.specs.declared.agenda.AgendaChange.TheVariants as notices;

use crate::history::folding::{flag, fold, owner_numbers, widen};
use crate::history::kinds::{
    ChangeKind, ControlChangeKind, EntityChangeKind, EntryChangeKind, LoopChangeKind,
    SetChangeKind, TextChangeKind, TimeChangeKind, ValueChangeKind,
};
use crate::history::tape::{Owned, Tape};
use crate::state::change::Change;
use crate::state::frame::SmallFrame;
use ss_events::{AgendaChange, PendingNotice};
use ss_program::Owner;
use ss_state::Entry;
use ss_store::StoreChange;

impl Tape {
    /// Writes a change.
    #[inline(always)]
    pub fn note(&mut self, change: Change)
        requires numbers { 7 < self.old.numbers.notes }
        requires kept { 0 < self.old.kept.notes }
        ensures { IsNoted (as_change change) self.old self.new }
    {
        match change {
            Change::Variable { number, old } => self.write(
                ChangeKind::Value(ValueChangeKind::Variable),
                &[number as u64, fold(old)],
            ),
            Change::Local { number, old } => self.write(
                ChangeKind::Value(ValueChangeKind::Local),
                &[number as u64, fold(old)],
            ),
            Change::Place(old) => self.write(
                ChangeKind::Control(ControlChangeKind::Place),
                &[old as u64],
            ),
            Change::Clock(old) => self.write(ChangeKind::Time(TimeChangeKind::Clock), &[fold(old)]),
            Change::Store(change) => self.note_store(change),
            Change::Agenda(change) => self.note_agenda(change),
            Change::Taken(old) => self.write(
                ChangeKind::Text(TextChangeKind::Taken),
                &[old as u64],
            ),
            Change::Report(old) => self.write(
                ChangeKind::Text(TextChangeKind::Report),
                &[old as u64],
            ),
            Change::Entry(old) => self.note_entry(old),
            Change::Status(old) => {
                self.write_kept(
                    ChangeKind::Control(ControlChangeKind::Status),
                    &[],
                    Owned::Status(old),
                )
            }
            Change::LoopOpened => self.write(ChangeKind::Loop(LoopChangeKind::Opened), &[]),
            Change::LoopMoved(Some(old)) => self.write(
                ChangeKind::Loop(LoopChangeKind::Moved),
                &[fold(old)],
            ),
            Change::LoopMoved(None) => self.write(
                ChangeKind::Loop(LoopChangeKind::MovedFromNone),
                &[],
            ),
            Change::LoopClosed(closed) => {
                self.write_kept(
                    ChangeKind::Loop(LoopChangeKind::Closed),
                    &[],
                    Owned::Loop(closed),
                )
            }
            Change::FrameOpened => self.write(
                ChangeKind::Control(ControlChangeKind::FrameOpened),
                &[],
            ),
            Change::FrameDropped(frame) => self.write_kept(
                ChangeKind::Control(ControlChangeKind::FrameDropped),
                &[],
                Owned::Frame(frame),
            ),
            Change::Found(old) => self.write(
                ChangeKind::Value(ValueChangeKind::Found),
                &[flag(old)],
            ),
            Change::Statistics {
                number,
                sum,
                greatest,
                least,
            } => self.write(
                ChangeKind::Value(ValueChangeKind::Statistics),
                &[fold(number), fold(sum), fold(greatest), fold(least)],
            ),
        }
    }

    /// Writes that a small frame was dropped.
    #[inline(always)]
    pub fn note_dropped(&mut self, frame: &SmallFrame)
        requires numbers { 7 < self.old.numbers.notes }
        requires kept { 0 < self.old.kept.notes }
        ensures { IsNoted (changes.FrameDropped (small_frame frame.now)) self.old self.new }
    {
        let values = frame.locals.values;
        self.write_kept(
            ChangeKind::Control(ControlChangeKind::SmallFrameDropped),
            &[
                frame.section as u64,
                frame.place as u64,
                frame.locals.count as u64,
                flag(frame.found),
            ],
            Owned::Locals(values),
        );
    }

    #[inline(never)]
    fn note_entry(&mut self, old: Entry)
        requires numbers { 7 < self.old.numbers.notes }
        ensures { IsNoted (changes.Entry old) self.old self.new }
    {
        match old {
            Entry::Absent => self.write(ChangeKind::Entry(EntryChangeKind::Absent), &[]),
            Entry::Waiting { class, notice } => self.write(
                ChangeKind::Entry(EntryChangeKind::Waiting),
                &[class as u64, widen(notice)],
            ),
            Entry::Running { class, notice } => self.write(
                ChangeKind::Entry(EntryChangeKind::Running),
                &[class as u64, widen(notice)],
            ),
        }
    }

    #[inline(never)]
    fn note_agenda(&mut self, change: AgendaChange)
        requires numbers { 7 < self.old.numbers.notes }
        requires kept { 0 < self.old.kept.notes }
        ensures { IsNoted (changes.Agenda change) self.old self.new }
    {
        match change {
            AgendaChange::Scheduled { notice, seated } => self.write(
                ChangeKind::Time(TimeChangeKind::Scheduled),
                &[widen(notice), flag(seated)],
            ),
            AgendaChange::TakenOff {
                notice,
                entry,
                predecessor,
            } => self.note_taken_off(notice, entry, predecessor),
        }
    }

    fn note_taken_off(&mut self, notice: u32, entry: PendingNotice, predecessor: Option<u32>)
        requires numbers { 7 < self.old.numbers.notes }
        requires kept { 0 < self.old.kept.notes }
        ensures { IsNoted
            (changes.Agenda (notices.TakenOff notice entry predecessor)) self.old self.new }
    {
        let notice = widen(notice);
        let time = fold(entry.time);
        let class = entry.class as u64;
        let keys = Owned::Values(entry.keys);
        match predecessor {
            None => self.write_kept(
                ChangeKind::Time(TimeChangeKind::FirstTakenOff),
                &[notice, time, class, entry.filing],
                keys,
            ),
            Some(predecessor) => self.write_kept(
                ChangeKind::Time(TimeChangeKind::TakenOff),
                &[notice, time, class, entry.filing, widen(predecessor)],
                keys,
            ),
        }
    }

    fn note_filed(&mut self, set: usize, owner: Owner, list: u32, number: usize, member: usize)
        requires { 7 < self.old.numbers.notes }
        ensures { IsNoted
            (changes.Store (stores.Filed set owner list number member)) self.old self.new }
    {
        let (owned, class) = owner_numbers(owner);
        self.write(
            ChangeKind::Set(SetChangeKind::Filed),
            &[
                set as u64,
                owned,
                class,
                widen(list),
                number as u64,
                member as u64,
            ],
        );
    }

    fn note_removed(
        &mut self,
        set: usize,
        owner: Owner,
        list: u32,
        number: usize,
        member: usize,
        before: Option<u32>,
    )
        requires { 7 < self.old.numbers.notes }
        ensures { IsNoted
            (changes.Store (stores.Removed set owner list number member before)) self.old self.new }
    {
        let (owned, class) = owner_numbers(owner);
        let (set, list) = (set as u64, widen(list));
        let (number, member) = (number as u64, member as u64);
        match before {
            None => self.write(
                ChangeKind::Set(SetChangeKind::FirstRemoved),
                &[set, owned, class, list, number, member],
            ),
            Some(before) => self.write(
                ChangeKind::Set(SetChangeKind::Removed),
                &[set, owned, class, list, number, member, widen(before)],
            ),
        }
    }

    #[inline(never)]
    fn note_store(&mut self, change: StoreChange)
        requires numbers { 7 < self.old.numbers.notes }
        requires kept { 0 < self.old.kept.notes }
        ensures { IsNoted (changes.Store change) self.old self.new }
    {
        match change {
            StoreChange::Filed {
                set,
                owner,
                list,
                number,
                member,
            } => self.note_filed(set, owner, list, number, member),
            StoreChange::Removed {
                set,
                owner,
                list,
                number,
                member,
                before,
            } => self.note_removed(set, owner, list, number, member, before),
            StoreChange::Created {
                class,
                number,
                heads,
                seats,
            } => self.write(
                ChangeKind::Entity(EntityChangeKind::Created),
                &[class as u64, number as u64, widen(heads), widen(seats)],
            ),
            StoreChange::ClassCreated {
                class,
                count,
                heads,
                seats,
            } => self.write(
                ChangeKind::Entity(EntityChangeKind::ClassCreated),
                &[class as u64, count as u64, widen(heads), widen(seats)],
            ),
            StoreChange::AttributeSet {
                class,
                attribute,
                number,
                old,
            } => self.write(
                ChangeKind::Entity(EntityChangeKind::AttributeSet),
                &[class as u64, attribute as u64, number as u64, fold(old)],
            ),
            StoreChange::Ended {
                class,
                number,
                owned,
                values,
            } => self.write_kept(
                ChangeKind::Entity(EntityChangeKind::Ended),
                &[class as u64, number as u64, widen(owned)],
                Owned::Values(values),
            ),
        }
    }
}

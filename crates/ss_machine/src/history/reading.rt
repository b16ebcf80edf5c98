//! Changes read back from the numbers and kept parts of the journal, to undo them.

ghost use Rattle.std.specs.Prelude.{◌≡◌, ◌≤◌, ◌<◌, ◌∷◌, length};
ghost use Rattle.ss_state.specs.Change.{unapply};
ghost use Rattle.ss_state.specs.declared.limits.TheConstants.{MOST_BELOW};
ghost use Rattle.ss_machine.specs.History as pure;
ghost use Rattle.ss_machine.specs.History.{IsTaken, value_numbers, set_numbers, entry_numbers};
ghost use Rattle.ss_machine.specs.History.{HasKept, IsOfChange, AreValues};
ghost use Rattle.ss_machine.specs.History.{IsRead, IsNoticeRead};
ghost use Rattle.ss_state.specs.Change as changes;
ghost use Rattle.ss_machine.specs.ChangeView.{as_change};
ghost use Rattle.ss_machine.specs.declared.history.tape.Owned.TheVariants as owned;
ghost use Rattle.ss_machine.specs.declared.history.kinds.ChangeKind.TheVariants as kinds;
ghost use Rattle.ss_machine.specs.declared.history.kinds.ControlChangeKind.TheVariants as controls;
ghost use Rattle.ss_machine.specs.Locals.{small_frame};

use crate::history::kinds::{
    ChangeKind, ControlChangeKind, EntityChangeKind, EntryChangeKind, LoopChangeKind,
    SetChangeKind, TextChangeKind, TimeChangeKind, ValueChangeKind,
};
use crate::history::numbers::Numbers;
use crate::history::tape::{Owned, Tape};
use crate::state::State;
use crate::state::change::Change;
use crate::state::frame::SmallFrame;
use crate::state::locals::FewValues;
use ss_byte_journal::SparseJournal;
use ss_events::{AgendaChange, PendingNotice};
use ss_links::SetBoard;
use ss_program::Owner;
use ss_state::Entry;
use ss_store::StoreChange;

/// A change of a variable, of FIND's answer or of COMPUTE's values.
fn value_change(kind: ValueChangeKind, numbers: &mut Numbers) -> Change
    ensures value { as_change result ≡ pure.value_change kind numbers.old.current }
    ensures taken { IsTaken (value_numbers kind) numbers.old numbers.new }
{
    match kind {
        ValueChangeKind::Variable => Change::Variable {
            number: numbers.take() as usize,
            old: numbers.take_signed(),
        },
        ValueChangeKind::Local => Change::Local {
            number: numbers.take() as usize,
            old: numbers.take_signed(),
        },
        ValueChangeKind::Found => Change::Found(numbers.take_flag()),
        ValueChangeKind::Statistics => Change::Statistics {
            number: numbers.take_signed(),
            sum: numbers.take_signed(),
            greatest: numbers.take_signed(),
            least: numbers.take_signed(),
        },
    }
}

/// A change of a set.
fn set_change(kind: SetChangeKind, numbers: &mut Numbers) -> StoreChange
    ensures value { result ≡ pure.set_change kind numbers.old.current }
    ensures taken { IsTaken (set_numbers kind) numbers.old numbers.new }
{
    let set = numbers.take() as usize;
    let owner = take_owner(numbers);
    let list = numbers.take_narrow();
    let number = numbers.take() as usize;
    let member = numbers.take() as usize;
    match kind {
        SetChangeKind::Filed => StoreChange::Filed {
            set,
            owner,
            list,
            number,
            member,
        },
        SetChangeKind::FirstRemoved => StoreChange::Removed {
            set,
            owner,
            list,
            number,
            member,
            before: None,
        },
        SetChangeKind::Removed => StoreChange::Removed {
            set,
            owner,
            list,
            number,
            member,
            before: Some(numbers.take_narrow()),
        },
    }
}

fn take_owner(numbers: &mut Numbers) -> Owner
    ensures value { result
        ≡ pure.owner_of (pure.at 0 numbers.old.current) (pure.at 1 numbers.old.current) }
    ensures taken { IsTaken 2 numbers.old numbers.new }
{
    let owned = numbers.take_flag();
    let class = numbers.take() as usize;
    if owned {
        Owner::OwnedBy(class)
    } else {
        Owner::System
    }
}

/// An entry of an external event.
fn entry_of(kind: EntryChangeKind, numbers: &mut Numbers) -> Entry
    ensures value { result ≡ pure.entry_of kind numbers.old.current }
    ensures taken { IsTaken (entry_numbers kind) numbers.old numbers.new }
{
    match kind {
        EntryChangeKind::Absent => Entry::Absent,
        EntryChangeKind::Waiting => Entry::Waiting {
            class: numbers.take() as usize,
            notice: numbers.take_narrow(),
        },
        EntryChangeKind::Running => Entry::Running {
            class: numbers.take() as usize,
            notice: numbers.take_narrow(),
        },
    }
}

/// A change of data or report.
fn text_change(kind: TextChangeKind, numbers: &mut Numbers) -> Change
    ensures value { as_change result ≡ pure.text_change kind numbers.old.current }
    ensures taken { IsTaken 1 numbers.old numbers.new }
{
    let old = numbers.take() as usize;
    match kind {
        TextChangeKind::Taken => Change::Taken(old),
        TextChangeKind::Report => Change::Report(old),
    }
}

impl Tape {
    /// Reads the newest change of this kind, of which the number of its kind was taken off.
    pub fn read(&mut self, kind: ChangeKind) -> Change
        requires kind { IsOfChange kind }
        requires kept { HasKept kind self.old.kept.current }
        ensures { IsRead kind (as_change result) self.old self.new }
    {
        match kind {
            ChangeKind::Value(kind) => value_change(kind, &mut self.numbers),
            ChangeKind::Control(kind) => self.control_change(kind),
            ChangeKind::Loop(kind) => self.loop_change(kind),
            ChangeKind::Entity(kind) => Change::Store(self.entity_change(kind)),
            ChangeKind::Set(kind) => Change::Store(set_change(kind, &mut self.numbers)),
            ChangeKind::Time(kind) => self.time_change(kind),
            ChangeKind::Entry(kind) => Change::Entry(entry_of(kind, &mut self.numbers)),
            ChangeKind::Text(kind) => text_change(kind, &mut self.numbers),
        }
    }

    /// A change of the run's place, frames or status.
    fn control_change(&mut self, kind: ControlChangeKind) -> Change
        requires kind { IsOfChange (kinds.Control kind) }
        requires kept { HasKept (kinds.Control kind) self.old.kept.current }
        ensures { IsRead (kinds.Control kind) (as_change result) self.old self.new }
    {
        match kind {
            ControlChangeKind::Place => Change::Place(self.numbers.take() as usize),
            ControlChangeKind::FrameOpened => Change::FrameOpened,
            ControlChangeKind::FrameDropped => match self.kept.pop_open() {
                Some(Owned::Frame(frame)) => Change::FrameDropped(frame),
                _ => unreachable!(),
            },
            ControlChangeKind::Status => match self.kept.pop_open() {
                Some(Owned::Status(status)) => Change::Status(status),
                _ => unreachable!(),
            },
            ControlChangeKind::SmallFrameDropped => unreachable!(),
        }
    }

    /// Takes back that a small frame was dropped.
    #[inline(never)]
    pub fn undo_dropped<S: SetBoard>(&mut self, held: &mut State<S>)
        requires kept { HasKept (kinds.Control controls.SmallFrameDropped) self.old.kept.current }
        requires room { length held.old.state.below < MOST_BELOW }
        ensures read { IsRead (kinds.Control controls.SmallFrameDropped)
            (changes.FrameDropped held.new.state.frame) self.old self.new }
        ensures undone { held.new
            ≡ unapply (changes.FrameDropped held.new.state.frame) held.old }
    {
        let dropped = self.small_frame();
        held.take_up_small(&dropped);
    }

    /// A small frame that was dropped.
    pub fn small_frame(&mut self) -> SmallFrame
        requires { HasKept (kinds.Control controls.SmallFrameDropped) self.old.kept.current }
        ensures { IsRead (kinds.Control controls.SmallFrameDropped)
            (changes.FrameDropped (small_frame result)) self.old self.new }
    {
        let section = self.numbers.take() as usize;
        let place = self.numbers.take() as usize;
        let count = self.numbers.take() as usize;
        let found = self.numbers.take_flag();
        let values = match self.kept.pop_open() {
            Some(Owned::Locals(values)) => values,
            _ => unreachable!(),
        };
        SmallFrame {
            section,
            place,
            locals: FewValues { count, values },
            found,
        }
    }

    /// A change of open loops.
    fn loop_change(&mut self, kind: LoopChangeKind) -> Change
        requires { HasKept (kinds.Loop kind) self.old.kept.current }
        ensures { IsRead (kinds.Loop kind) (as_change result) self.old self.new }
    {
        match kind {
            LoopChangeKind::Opened => Change::LoopOpened,
            LoopChangeKind::Moved => Change::LoopMoved(Some(self.numbers.take_signed())),
            LoopChangeKind::MovedFromNone => Change::LoopMoved(None),
            LoopChangeKind::Closed => match self.kept.pop_open() {
                Some(Owned::Loop(closed)) => Change::LoopClosed(closed),
                _ => unreachable!(),
            },
        }
    }

    /// A change of entities.
    fn entity_change(&mut self, kind: EntityChangeKind) -> StoreChange
        requires { HasKept (kinds.Entity kind) self.old.kept.current }
        ensures { IsRead (kinds.Entity kind) (changes.Store result) self.old self.new }
    {
        let class = self.numbers.take() as usize;
        match kind {
            EntityChangeKind::Created => StoreChange::Created {
                class,
                number: self.numbers.take() as usize,
                heads: self.numbers.take_narrow(),
                seats: self.numbers.take_narrow(),
            },
            EntityChangeKind::ClassCreated => StoreChange::ClassCreated {
                class,
                count: self.numbers.take() as usize,
                heads: self.numbers.take_narrow(),
                seats: self.numbers.take_narrow(),
            },
            EntityChangeKind::AttributeSet => StoreChange::AttributeSet {
                class,
                attribute: self.numbers.take() as usize,
                number: self.numbers.take() as usize,
                old: self.numbers.take_signed(),
            },
            EntityChangeKind::Ended => StoreChange::Ended {
                class,
                number: self.numbers.take() as usize,
                owned: self.numbers.take_narrow(),
                values: take_values(&mut self.kept),
            },
        }
    }

    /// A change of the clock or of the event list.
    fn time_change(&mut self, kind: TimeChangeKind) -> Change
        requires { HasKept (kinds.Time kind) self.old.kept.current }
        ensures { IsRead (kinds.Time kind) (as_change result) self.old self.new }
    {
        match kind {
            TimeChangeKind::Clock => Change::Clock(self.numbers.take_signed()),
            TimeChangeKind::Scheduled => Change::Agenda(AgendaChange::Scheduled {
                notice: self.numbers.take_narrow(),
                seated: self.numbers.take_flag(),
            }),
            TimeChangeKind::FirstTakenOff => Change::Agenda(AgendaChange::TakenOff {
                notice: self.numbers.take_narrow(),
                entry: self.notice(),
                predecessor: None,
            }),
            TimeChangeKind::TakenOff => Change::Agenda(AgendaChange::TakenOff {
                notice: self.numbers.take_narrow(),
                entry: self.notice(),
                predecessor: Some(self.numbers.take_narrow()),
            }),
        }
    }

    /// A notice that was taken off, from its numbers and its kept keys.
    fn notice(&mut self) -> PendingNotice
        requires { AreValues self.old.kept.current }
        ensures { IsNoticeRead result self.old self.new }
    {
        PendingNotice {
            time: self.numbers.take_signed(),
            class: self.numbers.take() as usize,
            filing: self.numbers.take(),
            keys: take_values(&mut self.kept),
        }
    }
}

/// The values that are kept of the newest change.
fn take_values(kept: &mut SparseJournal<Owned>) -> Vec<i64>
    requires { AreValues kept.old.current }
    ensures current { kept.old.current ≡ owned.Values result ∷ kept.new.current }
    ensures steps { kept.new.steps ≡ kept.old.steps }
    ensures notes { kept.old.notes ≤ kept.new.notes }
    ensures closes { kept.new.closes ≡ kept.old.closes }
{
    match kept.pop_open() {
        Some(Owned::Values(values)) => values,
        _ => unreachable!(),
    }
}

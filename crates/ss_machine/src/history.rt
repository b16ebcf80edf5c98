//! The journal of a run: its changes, written in bytes.
pub mod folding;
pub mod kinds;
pub mod numbers;
pub mod reading;
pub mod tape;
pub mod writing;

ghost use Rattle.std.specs.Prelude.{◌≡◌, ◌+◌, ◌<◌, ◌≤◌, ◌∷◌, [], length, IsOk, OnOk, MatchBool, MatchOption};
ghost use Rattle.ss_machine.specs.ChangeView.{as_change};
ghost use Rattle.ss_machine.specs.Locals.{small_frame};
ghost use Rattle.ss_journal.specs.Undoing.{unapply_all, FitsAll};
ghost use Rattle.ss_state.specs.Change.{Fits, unapply, FrameDropped};

use crate::history::kinds::ChangeKind;
use crate::history::numbers::Numbers;
use crate::history::tape::Tape;
use crate::state::State;
use crate::state::change::Change;
use crate::state::frame::SmallFrame;
use ss_byte_journal::SparseJournal;
use ss_journal::Undo;
use ss_links::SetBoard;
use std::alloc::{AllocError, Global};
use std::marker::Model;

/// The most numbers that a change is written in.
const MOST_NUMBERS: usize = 8;

/// The journal of the machine's changes, written on a tape of numbers.
///
/// Contracts see it as a journal of changes. Its room for notes is that for changes of any length:
/// a short one may leave it as it was.
#[derive(Drop)]
pub struct History {
    tape: Tape,
}

impl Model for History {
    ghost use Rattle.std.specs.Prelude.{◌∷◌, min};
    ghost use Rattle.ss_journal.specs.Log.{Log};
    ghost use Rattle.ss_state.specs.Change.{Change};
    ghost use Rattle.ss_machine.specs.History.{changes_of, steps_of, change_room, AreWritten};

    ghost Value = { Log Change };

    ghost view = { λ a. record {
      steps = steps_of a.tape.numbers.steps a.tape.kept.steps;
      current = changes_of a.tape.numbers.current a.tape.kept.current;
      notes = min (change_room a.tape.numbers.notes) a.tape.kept.notes;
      closes = min a.tape.numbers.closes a.tape.kept.closes;
    } };

    ghost invariant = { λ a. AreWritten
        (a.tape.numbers.current ∷ a.tape.numbers.steps)
        (a.tape.kept.current ∷ a.tape.kept.steps) };
}

impl History {
    ghost use Rattle.ss_journal.specs.Log.{newest};

    /// A journal without steps, whose open step is empty. It takes no memory.
    pub fn new(alloc: Global) -> Self
        ensures steps { result.steps ≡ [] }
        ensures current { result.current ≡ [] }
        ensures notes { result.notes ≡ 0 }
        ensures closes { result.closes ≡ 0 }
    {
        History {
            tape: Tape {
                numbers: Numbers::new(alloc),
                kept: SparseJournal::new(alloc),
            },
        }
    }

    /// Makes room for at least `n` notes and one close.
    ///
    /// Room grows by doubling. `AllocError` comes only if room was missing and a growth was
    /// refused; other room may then have grown.
    pub fn reserve(&mut self, n: usize) -> Result<(), AllocError>
        ensures steps { self.new.steps ≡ self.old.steps }
        ensures current { self.new.current ≡ self.old.current }
        ensures kept_notes { self.old.notes ≤ self.new.notes }
        ensures kept_closes { self.old.closes ≤ self.new.closes }
        ensures notes { OnOk result (n ≤ self.new.notes) }
        ensures closes { OnOk result (0 < self.new.closes) }
        ensures had_room { n ≤ self.old.notes → 0 < self.old.closes → IsOk result }
    {
        let tape = &mut self.tape;
        if n > usize::MAX / MOST_NUMBERS {
            return Err(AllocError);
        }
        tape.numbers.reserve(n * MOST_NUMBERS)?;
        tape.kept.reserve(n)
    }

    /// Notes a change as the newest of the open step. It uses up the room of one note at most.
    #[inline(always)]
    pub fn note(&mut self, change: Change)
        requires { 0 < self.old.notes }
        ensures steps { self.new.steps ≡ self.old.steps }
        ensures current { self.new.current ≡ as_change change ∷ self.old.current }
        ensures notes { self.old.notes ≤ self.new.notes + 1 }
        ensures closes { self.new.closes ≡ self.old.closes }
    {
        self.tape.note(change);
    }

    /// Notes that a small frame was dropped.
    #[inline(always)]
    pub fn note_dropped(&mut self, frame: &SmallFrame)
        requires { 0 < self.old.notes }
        ensures steps { self.new.steps ≡ self.old.steps }
        ensures current { self.new.current
            ≡ FrameDropped (small_frame frame.now) ∷ self.old.current }
        ensures notes { self.old.notes ≤ self.new.notes + 1 }
        ensures closes { self.new.closes ≡ self.old.closes }
    {
        self.tape.note_dropped(frame);
    }

    /// Takes the newest change of the open step back; false if that step is empty.
    #[inline(always)]
    pub fn undo_newest<S: SetBoard>(&mut self, held: &mut State<S>) -> bool
        requires { FitsAll Fits unapply self.old.current held.old }
        ensures steps { self.new.steps ≡ self.old.steps }
        ensures current { MatchBool result
            (length self.old.current ≡ length self.new.current + 1)
            ((self.old.current ≡ []) × (self.new.current ≡ [])) }
        ensures leads { unapply_all unapply self.new.current held.new
            ≡ unapply_all unapply self.old.current held.old }
        ensures fit { FitsAll Fits unapply self.new.current held.new }
        ensures notes { self.old.notes ≤ self.new.notes }
        ensures closes { self.new.closes ≡ self.old.closes }
    {
        let Some(number) = self.tape.numbers.pop_open() else {
            return false;
        };
        let kind = ChangeKind::of_number(number);
        if kind.is_small_frame() {
            self.tape.undo_dropped(held);
        } else {
            let change = self.tape.read(kind);
            held.undo(change);
        }
        true
    }

    /// Makes the open step the newest closed one, and opens an empty step. It uses up the room of
    /// one close.
    pub fn close(&mut self)
        requires { 0 < self.old.closes }
        ensures steps { self.new.steps ≡ self.old.current ∷ self.old.steps }
        ensures current { self.new.current ≡ [] }
        ensures notes { self.new.notes ≡ self.old.notes }
        ensures closes { self.new.closes + 1 ≡ self.old.closes }
    {
        self.tape.numbers.close();
        self.tape.kept.close();
    }

    /// Makes the newest closed step the open one again; false if no step is closed, and then
    /// nothing changes. The room of its close is free again.
    pub fn reopen_last(&mut self) -> bool
        requires { self.old.current ≡ [] }
        ensures steps { MatchBool result
            (self.old.steps ≡ self.new.current ∷ self.new.steps)
            ((self.old.steps ≡ []) × (self.new.steps ≡ []) × (self.new.current ≡ [])) }
        ensures notes { self.new.notes ≡ self.old.notes }
        ensures closes { MatchBool result
            (self.new.closes ≡ self.old.closes + 1)
            (self.new.closes ≡ self.old.closes) }
    {
        self.tape.numbers.reopen_last() && self.tape.kept.reopen_last()
    }

    /// The number of closed steps.
    pub fn steps(&self) -> usize
        ensures { result ≡ length self.now.steps }
    {
        self.tape.numbers.steps()
    }

    /// Forgets the oldest closed steps, so that the newest `n` are left, or all if there are fewer.
    /// The room of the forgotten steps is free again once `reserve` needs it.
    ///
    /// It takes no memory, and its time is in proportion to the changes forgotten.
    pub fn keep_last(&mut self, n: usize)
        requires { self.old.current ≡ [] }
        ensures steps { self.new.steps ≡ newest n self.old.steps }
        ensures current { self.new.current ≡ [] }
        ensures notes { self.old.notes ≤ self.new.notes }
        ensures closes { self.old.closes ≤ self.new.closes }
    {
        self.tape.numbers.keep_last(n);
        self.tape.kept.keep_last(n);
    }
}

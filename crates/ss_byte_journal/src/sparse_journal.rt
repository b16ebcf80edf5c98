//! The journal for changes that few steps have: a step without changes takes no memory.
ghost use Rattle.std.specs.Prelude.{◌≡◌, ◌+◌, ◌<◌, ◌≤◌, ◌∷◌, [], length, take, All, IsOk, OnOk, MatchOption, MatchBool};
ghost use Rattle.std.specs.VecDeque.{deque_len};

use std::alloc::{AllocError, Global};
use std::collections::VecDeque;
use std::marker::Model;

/// A list of closed steps, each a list of changes, and one open step. Most steps have no change:
/// such a step takes no memory, and to close it or to open it again is one count.
///
/// It also has two numbers of room, one for notes and one for closes. Only
/// [`SparseJournal::reserve`] takes memory.
#[derive(Drop)]
pub struct SparseJournal<C> {
    // The changes of all steps, the oldest first.
    changes: VecDeque<Numbered<C>>,
    // The number of the oldest closed step that is kept.
    forgotten: usize,
    // The number of the open step.
    open_step: usize,
}

/// A change, with the number of its step.
#[derive(Drop)]
struct Numbered<C> {
    step: usize,
    change: C,
}

impl<C> Model for SparseJournal<C> {
    ghost use Rattle.std.specs.Prelude.{ℕ, ◌-◌, ◌^◌, ◌≤◌, reverse};
    ghost use Rattle.std.specs.VecDeque.{deque_len, deque_capacity};
    ghost use Rattle.ss_journal.specs.Log.{Log};
    ghost use Rattle.ss_byte_journal.specs.Numbered.{changes_of_step, changes_before, steps_from, AreOrdered};

    ghost Value = { Log C };

    ghost view = { λ a. record {
      steps = steps_from (a.open_step - a.forgotten) a.forgotten
          (changes_before a.open_step (reverse a.changes.items));
      current = changes_of_step a.open_step (reverse a.changes.items);
      notes = deque_capacity a.changes - deque_len a.changes;
      closes = 2 ^ 64 - 1 - a.open_step;
    } };

    ghost invariant = { λ a.
        (a.forgotten ≤ a.open_step) × AreOrdered a.open_step (reverse a.changes.items) };
}

impl<C> SparseJournal<C> {
    /// A journal without steps, whose open step is empty. It takes no memory.
    pub fn new(alloc: Global) -> Self
        ensures steps { result.steps ≡ [] }
        ensures current { result.current ≡ [] }
        ensures notes { result.notes ≡ 0 }
    {
        SparseJournal {
            changes: VecDeque::from_vec(Vec::new(alloc)),
            forgotten: 0,
            open_step: 0,
        }
    }

    /// Makes room for at least `n` notes and one close.
    ///
    /// Room grows by doubling. `AllocError` comes only if room was missing and a growth was
    /// refused, or all numbers of steps are used up; then nothing has changed.
    #[inline(always)]
    pub fn reserve(&mut self, n: usize) -> Result<(), AllocError>
        // The steps stay as they are, whatever the result, and no room is less.
        ensures steps { self.new.steps ≡ self.old.steps }
        ensures current { self.new.current ≡ self.old.current }
        ensures notes_stay { self.old.notes ≤ self.new.notes }
        ensures closes_stay { self.new.closes ≡ self.old.closes }

        // If it succeeds, there is room. If there was room, it succeeds.
        ensures notes { OnOk result (n ≤ self.new.notes) }
        ensures closes { OnOk result (0 < self.new.closes) }
        ensures had_room { n ≤ self.old.notes → 0 < self.old.closes → IsOk result }
    {
        if n <= self.changes.capacity() - self.changes.len() && self.open_step < usize::MAX {
            return Ok(());
        }
        self.grow(n)
    }

    /// The part of `reserve` that takes memory.
    #[cold]
    #[inline(never)]
    fn grow(&mut self, n: usize) -> Result<(), AllocError>
        ensures steps { self.new.steps ≡ self.old.steps }
        ensures current { self.new.current ≡ self.old.current }
        ensures notes_stay { self.old.notes ≤ self.new.notes }
        ensures closes_stay { self.new.closes ≡ self.old.closes }
        ensures notes { OnOk result (n ≤ self.new.notes) }
        ensures closes { OnOk result (0 < self.new.closes) }
    {
        if self.open_step == usize::MAX {
            return Err(AllocError);
        }
        self.changes.try_reserve(n)
    }

    /// Notes a change as the newest of the open step. It uses up the room of one note.
    #[inline(always)]
    pub fn note(&mut self, change: C)
        requires { 0 < self.old.notes }
        ensures steps { self.new.steps ≡ self.old.steps }
        ensures current { self.new.current ≡ change ∷ self.old.current }
        ensures notes { self.new.notes + 1 ≡ self.old.notes }
        ensures closes { self.new.closes ≡ self.old.closes }
    {
        let step = self.open_step;
        self.changes.push_back_reserved(Numbered { step, change });
    }

    /// Makes the open step the newest closed one, and opens an empty step. It uses up the room of
    /// one close.
    #[inline(always)]
    pub fn close(&mut self)
        requires { 0 < self.old.closes }
        ensures steps { self.new.steps ≡ self.old.current ∷ self.old.steps }
        ensures current { self.new.current ≡ [] }
        ensures notes { self.new.notes ≡ self.old.notes }
        ensures closes { self.new.closes + 1 ≡ self.old.closes }
    {
        self.open_step += 1;
    }

    /// Takes the newest change off the open step; `None` if that step is empty. The room of its
    /// note is free again.
    #[inline(always)]
    pub fn pop_open(&mut self) -> Option<C>
        ensures steps { self.new.steps ≡ self.old.steps }
        ensures current { MatchOption result
            ((self.old.current ≡ []) × (self.new.current ≡ []))
            (λ change. self.old.current ≡ change ∷ self.new.current) }
        ensures notes { MatchOption result
            (self.new.notes ≡ self.old.notes)
            (λ _. self.new.notes ≡ self.old.notes + 1) }
        ensures closes { self.new.closes ≡ self.old.closes }
    {
        if self.changes.back()?.step < self.open_step {
            return None;
        }
        let newest = self.changes.pop_back()?;
        Some(newest.change)
    }

    /// Makes the newest closed step the open one again; false if no step is closed, and then
    /// nothing changes. The room of its close is free again.
    #[inline(always)]
    pub fn reopen_last(&mut self) -> bool
        requires { self.old.current ≡ [] }
        ensures steps { MatchBool result
            (self.old.steps ≡ self.new.current ∷ self.new.steps)
            ((self.old.steps ≡ []) × (self.new.steps ≡ []) × (self.new.current ≡ [])) }
        ensures notes { self.new.notes ≡ self.old.notes }
        ensures closes { MatchBool result
            (self.new.closes ≡ self.old.closes + 1)
            (self.new.closes ≡ self.old.closes) }
    {
        if self.open_step == self.forgotten {
            return false;
        }
        self.open_step -= 1;
        true
    }

    /// The number of closed steps.
    pub fn steps(&self) -> usize
        ensures { result ≡ length self.now.steps }
    {
        self.open_step - self.forgotten
    }
}

impl<C: Drop> SparseJournal<C> {
    ghost use Rattle.ss_journal.specs.Log.{newest};

    /// Forgets the oldest closed steps, so that the newest `n` are left, or all if there are
    /// fewer. The room of the forgotten changes is free again.
    ///
    /// It takes no memory, and its time is in proportion to the changes forgotten: those kept are
    /// not moved.
    pub fn keep_last(&mut self, n: usize)
        ensures steps { self.new.steps ≡ newest n self.old.steps }
        ensures current { self.new.current ≡ self.old.current }
        ensures notes { self.old.notes ≤ self.new.notes }
        ensures closes { self.new.closes ≡ self.old.closes }
    {
        let first = self.open_step.saturating_sub(n).max(self.forgotten);
        let past = count_before(&self.changes, first);
        self.forgotten = first;
        self.changes.drain(..past);
    }
}

/// How many of the oldest changes are of steps before `first`.
fn count_before<C>(changes: &VecDeque<Numbered<C>>, first: usize) -> usize
    ensures few { result ≤ deque_len changes.now }
    ensures before { All (λ c. c.step < first) (take result changes.now.items) }
{
    for k in 0..changes.len() {
        match changes.get(k) {
            Some(oldest) if oldest.step < first => {}
            _ => return k,
        }
    }
    changes.len()
}

//! The journal of changes: the open step, the closed ones, and the room that is reserved for more.
ghost use Rattle.std.specs.Prelude.{◌≡◌, ◌+◌, ◌^◌, ◌<◌, ◌≤◌, ◌∷◌, [], length, sum, take, IsOk, OnOk, MatchOption};
ghost use Rattle.std.specs.Prelude.{◌↔◌, IsTrue, MatchBool};

use crate::sizes::Sizes;
use std::alloc::{AllocError, Global};
use std::collections::VecDeque;
use std::marker::Model;

/// A list of closed steps, each a list of changes, and one open step.
///
/// A journal also has two numbers of room, one for notes and one for closes. Only
/// [`Journal::reserve`] takes memory. Every other call but [`Journal::keep_last`] is made of a
/// fixed number of moves, whatever the journal holds.
#[derive(Drop)]
pub struct Journal<C> {
    // The changes of all steps, the oldest first; the last `unclosed` of them are those of the open
    // step.
    changes: VecDeque<C>,
    // How many changes each closed step has.
    sizes: Sizes,
    unclosed: usize,
}

impl<C> Model for Journal<C> {
    ghost use Rattle.std.specs.Prelude.{◌≡◌, ◌+◌, ◌-◌, ◌≤◌, min, sum, reverse, take, drop};
    ghost use Rattle.std.specs.VecDeque.{deque_len, deque_capacity};
    ghost use Rattle.ss_journal.specs.Log.{Log};
    ghost use Rattle.ss_journal.specs.Pieces.{cut_by_lengths};

    ghost Value = { Log C };

    ghost view = { λ a. record {
      steps = cut_by_lengths a.sizes.sizes (drop a.unclosed (reverse a.changes.items));
      current = take a.unclosed (reverse a.changes.items);
      notes = min (deque_capacity a.changes) a.sizes.most - deque_len a.changes;
      closes = a.sizes.closes;
    } };

    ghost invariant = { λ a.
        (a.unclosed + sum a.sizes.sizes ≡ deque_len a.changes)
        × (deque_len a.changes ≤ a.sizes.most) };
}

impl<C> Journal<C> {
    /// A journal without steps, whose open step is empty. It takes no memory.
    pub fn new(alloc: Global) -> Self
        ensures steps { result.steps ≡ [] }
        ensures current { result.current ≡ [] }
        ensures notes { result.notes ≡ 0 }
        ensures closes { result.closes ≡ 0 }
    {
        Journal {
            changes: VecDeque::from_vec(Vec::new(alloc)),
            sizes: Sizes::new(alloc),
            unclosed: 0,
        }
    }

    /// Makes room for at least `n` notes and one close.
    ///
    /// Room grows by doubling, so that over many steps a step takes constant time for each of its
    /// changes. `AllocError` comes only if room was missing and a growth was refused; the room of
    /// the other kind may then have grown.
    #[inline]
    pub fn reserve(&mut self, n: usize) -> Result<(), AllocError>
        // The steps stay as they are, whatever the result, and no room is less.
        ensures steps { self.new.steps ≡ self.old.steps }
        ensures current { self.new.current ≡ self.old.current }
        ensures notes_stay { self.old.notes ≤ self.new.notes }
        ensures closes_stay { self.old.closes ≤ self.new.closes }

        // If it succeeds there is room, and if there was room it succeeds.
        ensures notes { OnOk result (n ≤ self.new.notes) }
        ensures closes { OnOk result (0 < self.new.closes) }
        ensures had_room { n ≤ self.old.notes → 0 < self.old.closes → IsOk result }
    {
        if self.has_room(n) {
            return Ok(());
        }
        self.grow(n)
    }

    /// Whether there is room for `n` notes and one close.
    #[inline]
    fn has_room(&self, n: usize) -> bool
        ensures { IsTrue result ↔ ((n ≤ self.now.notes) × (0 < self.now.closes)) }
    {
        let len = self.changes.len();
        n <= self.changes.capacity() - len && self.sizes.has_room(len + n)
    }

    /// The part of `reserve` that takes memory.
    #[cold]
    #[inline(never)]
    fn grow(&mut self, n: usize) -> Result<(), AllocError>
        ensures steps { self.new.steps ≡ self.old.steps }
        ensures current { self.new.current ≡ self.old.current }
        ensures notes_stay { self.old.notes ≤ self.new.notes }
        ensures closes_stay { self.old.closes ≤ self.new.closes }
        ensures notes { OnOk result (n ≤ self.new.notes) }
        ensures closes { OnOk result (0 < self.new.closes) }
    {
        self.changes.try_reserve(n)?;
        self.sizes.reserve(self.changes.len() + n)
    }

    /// Notes a change as the newest of the open step. It uses up the room of one note.
    #[inline]
    pub fn note(&mut self, change: C)
        requires { 0 < self.old.notes }
        ensures steps { self.new.steps ≡ self.old.steps }
        ensures current { self.new.current ≡ change ∷ self.old.current }
        ensures notes { self.new.notes + 1 ≡ self.old.notes }
        ensures closes { self.new.closes ≡ self.old.closes }
    {
        self.changes.push_back_reserved(change);
        self.unclosed += 1;
    }

    /// Makes the open step the newest closed one, and opens an empty step. It uses up the room of
    /// one close.
    #[inline]
    pub fn close(&mut self)
        requires { 0 < self.old.closes }
        ensures steps { self.new.steps ≡ self.old.current ∷ self.old.steps }
        ensures current { self.new.current ≡ [] }
        ensures notes { self.new.notes ≡ self.old.notes }
        ensures closes { self.new.closes + 1 ≡ self.old.closes }
    {
        self.sizes.push(self.unclosed);
        self.unclosed = 0;
    }

    /// Takes the newest change off the open step; `None` if that step is empty. The room of its
    /// note is free again.
    #[inline]
    pub fn pop_open(&mut self) -> Option<C>
        ensures steps { self.new.steps ≡ self.old.steps }
        ensures current { MatchOption result
            ((self.old.current ≡ []) × (self.new.current ≡ []))
            (λ change. self.old.current ≡ change ∷ self.new.current) }
        ensures notes { MatchOption result
            (self.new.notes ≡ self.old.notes)
            (λ _. self.new.notes ≡ self.old.notes + 1) }
        ensures closes { self.new.closes ≡ self.old.closes }
    {
        if self.unclosed == 0 {
            return None;
        }
        let change = self.changes.pop_back()?;
        self.unclosed -= 1;
        Some(change)
    }

    /// Makes the newest closed step the open one again; false if no step is closed, and then
    /// nothing changes. The room of its close is free again.
    #[inline]
    pub fn reopen_last(&mut self) -> bool
        requires { self.old.current ≡ [] }
        ensures steps { MatchBool result
            (self.old.steps ≡ self.new.current ∷ self.new.steps)
            ((self.old.steps ≡ []) × (self.new.steps ≡ []) × (self.new.current ≡ [])) }
        ensures notes { self.new.notes ≡ self.old.notes }
        ensures closes { MatchBool result
            (self.new.closes ≡ self.old.closes + 1)
            (self.new.closes ≡ self.old.closes) }
    {
        match self.sizes.pop() {
            None => false,
            Some(size) => {
                self.unclosed = size;
                true
            }
        }
    }

    /// The number of closed steps.
    pub fn steps(&self) -> usize
        ensures { result ≡ length self.now.steps }
    {
        self.sizes.len()
    }
}

impl<C: Drop> Journal<C> {
    ghost use Rattle.ss_journal.specs.Log.{newest, change_count};

    /// Forgets the oldest closed steps, so that the newest `n` are left, or all if there are fewer.
    /// The room of the forgotten steps is free again.
    ///
    /// It takes no memory, and its time is in proportion to the changes forgotten: those kept stay
    /// at their places.
    pub fn keep_last(&mut self, n: usize)
        requires { self.old.current ≡ [] }
        ensures steps { self.new.steps ≡ newest n self.old.steps }
        ensures current { self.new.current ≡ [] }
        ensures notes { self.new.notes + change_count self.new.steps
            ≡ self.old.notes + change_count self.old.steps }
        ensures closes { self.new.closes + length self.new.steps
            ≡ self.old.closes + length self.old.steps }
    {
        let forgotten = self.steps().saturating_sub(n);
        let changes = self.sizes.forget(forgotten);
        self.changes.drain(..changes);
    }
}

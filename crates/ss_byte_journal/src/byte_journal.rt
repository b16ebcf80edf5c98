//! The journal of bytes: to note a byte or to take one back is a fixed number of moves.
ghost use Rattle.std.specs.Prelude.{◌≡◌, ◌+◌, ◌<◌, ◌≤◌, ◌∷◌, [], length, IsOk, OnOk, MatchOption, MatchBool};

use crate::step_sizes::StepSizes;
use std::alloc::{AllocError, Global};
use std::marker::Model;

/// A list of closed steps, each a list of bytes, and one open step.
///
/// It also has two numbers of room, one for notes and one for closes. Only
/// [`ByteJournal::reserve`] takes memory. Every other call except [`ByteJournal::keep_last`] is a
/// fixed number of moves, however much the journal holds.
#[derive(Drop)]
pub struct ByteJournal {
    // The bytes of all steps, the oldest first: those forgotten, those of the closed steps from
    // `forgotten` to `closed`, and after them those of the open step.
    bytes: Vec<u8>,
    forgotten: usize,
    closed: usize,
    // How many bytes there may be before room is made: there is memory for them, and for the sizes
    // of the steps that they can make.
    limit: usize,
    // How many bytes each closed step has.
    sizes: StepSizes,
}

impl Model for ByteJournal {
    ghost use Rattle.std.specs.Prelude.{◌≡◌, ℕ, ◌+◌, ◌-◌, ◌≤◌, sum, reverse, take, drop};
    ghost use Rattle.std.specs.Vec.{vec_len, vec_capacity};
    ghost use Rattle.ss_journal.specs.Log.{Log};
    ghost use Rattle.ss_journal.specs.Pieces.{cut_by_lengths};

    ghost Value = { Log ℕ };

    ghost view = { λ a. record {
      steps = cut_by_lengths a.sizes.sizes
          (reverse (drop a.forgotten (take a.closed a.bytes.items)));
      current = reverse (drop a.closed a.bytes.items);
      notes = a.limit - vec_len a.bytes;
      closes = a.sizes.closes;
    } };

    ghost invariant = { λ a.
        (a.forgotten + sum a.sizes.sizes ≡ a.closed)
        × (a.closed ≤ vec_len a.bytes)
        × (vec_len a.bytes ≤ a.limit)
        × (a.limit ≤ vec_capacity a.bytes)
        × (a.limit ≤ a.sizes.most) };
}

impl ByteJournal {
    ghost use Rattle.ss_journal.specs.Log.{newest};

    /// A journal without steps, whose open step is empty. It takes no memory.
    pub fn new(alloc: Global) -> Self
        ensures steps { result.steps ≡ [] }
        ensures current { result.current ≡ [] }
        ensures notes { result.notes ≡ 0 }
        ensures closes { result.closes ≡ 0 }
    {
        ByteJournal {
            bytes: Vec::new(alloc),
            forgotten: 0,
            closed: 0,
            limit: 0,
            sizes: StepSizes::new(alloc),
        }
    }

    /// Makes room for at least `n` notes and one close.
    ///
    /// Room grows by doubling, so that over many steps a step takes constant time for each of its
    /// bytes. `AllocError` comes only if room was missing and a growth was refused; the room of
    /// the other kind may then have grown.
    #[inline(always)]
    pub fn reserve(&mut self, n: usize) -> Result<(), AllocError>
        // The steps stay as they are, whatever the result, and no room is less.
        ensures steps { self.new.steps ≡ self.old.steps }
        ensures current { self.new.current ≡ self.old.current }
        ensures notes_stay { self.old.notes ≤ self.new.notes }
        ensures closes_stay { self.old.closes ≤ self.new.closes }

        // If it succeeds, there is room. If there was room, it succeeds.
        ensures notes { OnOk result (n ≤ self.new.notes) }
        ensures closes { OnOk result (0 < self.new.closes) }
        ensures had_room { n ≤ self.old.notes → 0 < self.old.closes → IsOk result }
    {
        if n <= self.limit - self.bytes.len() && self.sizes.has_room() {
            return Ok(());
        }
        self.grow(n)
    }

    /// The part of `reserve` that takes memory.
    ///
    /// A byte is moved to the front only if another one was forgotten, whose place is then free.
    /// So there are no more moves than forgotten bytes.
    #[cold]
    #[inline(never)]
    fn grow(&mut self, n: usize) -> Result<(), AllocError>
        ensures steps { self.new.steps ≡ self.old.steps }
        ensures current { self.new.current ≡ self.old.current }
        ensures notes_stay { self.old.notes ≤ self.new.notes }
        ensures closes_stay { self.old.closes ≤ self.new.closes }
        ensures notes { OnOk result (n ≤ self.new.notes) }
        ensures closes { OnOk result (0 < self.new.closes) }
    {
        self.move_down();
        self.bytes.try_reserve(n)?;
        let limit = self.bytes.capacity();
        self.sizes.reserve(limit)?;
        self.limit = limit;
        Ok(())
    }

    /// Moves the bytes that are left to the front, if more bytes are forgotten than are left.
    fn move_down(&mut self)
        ensures steps { self.new.steps ≡ self.old.steps }
        ensures current { self.new.current ≡ self.old.current }
        ensures notes_stay { self.old.notes ≤ self.new.notes }
        ensures closes_stay { self.new.closes ≡ self.old.closes }
    {
        let forgotten = self.forgotten;
        if forgotten > self.bytes.len() - forgotten {
            self.bytes.drain(..forgotten);
            self.forgotten = 0;
            self.closed -= forgotten;
        }
    }

    /// Notes a byte as the newest of the open step. It uses up the room of one note.
    #[inline(always)]
    pub fn note(&mut self, byte: u8)
        requires { 0 < self.old.notes }
        ensures steps { self.new.steps ≡ self.old.steps }
        ensures current { self.new.current ≡ byte ∷ self.old.current }
        ensures notes { self.new.notes + 1 ≡ self.old.notes }
        ensures closes { self.new.closes ≡ self.old.closes }
    {
        self.bytes.push_reserved(byte);
    }

    /// Makes the open step the newest closed one, and opens an empty step. It uses up the room of
    /// one close.
    #[inline(always)]
    pub fn close(&mut self)
        requires { 0 < self.old.closes }
        ensures steps { self.new.steps ≡ self.old.current ∷ self.old.steps }
        ensures current { self.new.current ≡ [] }
        ensures notes { self.new.notes ≡ self.old.notes }
        ensures closes { self.new.closes + 1 ≡ self.old.closes }
    {
        self.sizes.push(self.bytes.len() - self.closed);
        self.closed = self.bytes.len();
    }

    /// Takes the newest byte off the open step; `None` if that step is empty. The room of its
    /// note is free again.
    #[inline(always)]
    pub fn pop_open(&mut self) -> Option<u8>
        ensures steps { self.new.steps ≡ self.old.steps }
        ensures current { MatchOption result
            ((self.old.current ≡ []) × (self.new.current ≡ []))
            (λ byte. self.old.current ≡ byte ∷ self.new.current) }
        ensures notes { MatchOption result
            (self.new.notes ≡ self.old.notes)
            (λ _. self.new.notes ≡ self.old.notes + 1) }
        ensures closes { self.new.closes ≡ self.old.closes }
    {
        if self.bytes.len() == self.closed {
            return None;
        }
        Some(self.take_byte())
    }

    /// Takes the newest byte off the open step, which has one.
    #[inline(always)]
    fn take_byte(&mut self) -> u8
        requires { 0 < length self.old.current }
        ensures steps { self.new.steps ≡ self.old.steps }
        ensures current { self.old.current ≡ result ∷ self.new.current }
        ensures notes { self.new.notes ≡ self.old.notes + 1 }
        ensures closes { self.new.closes ≡ self.old.closes }
    {
        self.bytes.take_last()
    }

    /// Makes the newest closed step the open one again; false if no step is closed, and then
    /// nothing changes. The room of its close is free again.
    #[inline(always)]
    pub fn reopen_last(&mut self) -> bool
        requires { self.old.current ≡ [] }
        ensures steps { MatchBool result
            (self.old.steps ≡ self.new.current ∷ self.new.steps)
            ((self.old.steps ≡ []) × (self.new.steps ≡ []) × (self.new.current ≡ [])) }
        ensures notes { self.new.notes ≡ self.old.notes }
        ensures closes { MatchBool result
            (self.new.closes ≡ self.old.closes + 1)
            (self.new.closes ≡ self.old.closes) }
    {
        match self.sizes.pop() {
            None => false,
            Some(size) => {
                self.closed -= size;
                true
            }
        }
    }

    /// The number of closed steps.
    pub fn steps(&self) -> usize
        ensures { result ≡ length self.now.steps }
    {
        self.sizes.len()
    }

    /// Forgets the oldest closed steps, so that the newest `n` are left, or all if there are
    /// fewer. Their room is free again when `reserve` has moved the bytes that are left.
    ///
    /// It takes no memory, and its time is in proportion to the steps forgotten: no byte is moved.
    pub fn keep_last(&mut self, n: usize)
        ensures steps { self.new.steps ≡ newest n self.old.steps }
        ensures current { self.new.current ≡ self.old.current }
        ensures notes { self.new.notes ≡ self.old.notes }
        ensures closes { self.new.closes ≡ self.old.closes }
    {
        let steps = self.steps().saturating_sub(n);
        self.forgotten += self.sizes.forget(steps);
    }
}

//! The sizes of the closed steps in little memory: a byte for each short step.
ghost use Rattle.std.specs.Prelude.{◌≡◌, ◌+◌, ◌-◌, ◌^◌, ◌<◌, ◌≤◌, ◌∷◌, ◌++◌, [], length, sum, take, IsOk, OnOk};
ghost use Rattle.std.specs.Prelude.{◌↔◌, IsTrue, MatchOption};

use std::alloc::{AllocError, Global};
use std::collections::VecDeque;
use std::marker::Model;

/// The least size that a byte does not give.
const LONG: usize = 255;

/// How many changes each closed step has: in a byte; or, if the size is 255 or more, in a number of
/// its own, which the byte 255 announces.
#[derive(Drop)]
pub struct Sizes {
    // A byte for each step, the oldest first.
    bytes: VecDeque<u8>,
    // By how much each size of a byte 255 is greater than that, the oldest first.
    longs: VecDeque<usize>,
}

impl Model for Sizes {
    ghost use Rattle.std.specs.Prelude.{◌≡◌, ◌+◌, ◌-◌, ◌*◌, length, reverse};
    ghost use Rattle.std.specs.VecDeque.{deque_len, deque_capacity};
    ghost use Rattle.ss_journal.specs.Pieces.{SizeList, sizes_of, long_count};

    ghost Value = { SizeList };

    ghost view = { λ a. record {
      sizes = sizes_of (reverse a.bytes.items) (reverse a.longs.items);
      closes = deque_capacity a.bytes - deque_len a.bytes;
      most = 255 * deque_capacity a.longs + 254;
    } };

    ghost invariant = { λ a. long_count (reverse a.bytes.items) ≡ length a.longs.items };
}

impl Sizes {
    /// No sizes. It takes no memory.
    pub fn new(alloc: Global) -> Self
        ensures sizes { result.sizes ≡ [] }
        ensures closes { result.closes ≡ 0 }
    {
        Sizes {
            bytes: VecDeque::from_vec(Vec::new(alloc)),
            longs: VecDeque::from_vec(Vec::new(alloc)),
        }
    }

    /// Whether there is room for one size more, of steps that have at most `changes` changes
    /// together.
    #[inline]
    pub fn has_room(&self, changes: usize) -> bool
        ensures { IsTrue result ↔ ((0 < self.now.closes) × (changes ≤ self.now.most)) }
    {
        self.bytes.len() < self.bytes.capacity() && changes / LONG <= self.longs.capacity()
    }

    /// Makes room for one size more, of steps that have at most `changes` changes together.
    pub fn reserve(&mut self, changes: usize) -> Result<(), AllocError>
        ensures sizes { self.new.sizes ≡ self.old.sizes }
        ensures closes_stay { self.old.closes ≤ self.new.closes }
        ensures most_stays { self.old.most ≤ self.new.most }
        ensures closes { OnOk result (0 < self.new.closes) }
        ensures most { OnOk result (changes ≤ self.new.most) }
        ensures had_room { changes ≤ self.old.most → 0 < self.old.closes → IsOk result }
    {
        let longs = changes / LONG;
        self.bytes.try_reserve(1)?;
        self.longs
            .try_reserve(longs.saturating_sub(self.longs.len()))
    }

    /// Puts the size of the newest step in.
    #[inline]
    pub fn push(&mut self, size: usize)
        requires closes { 0 < self.old.closes }
        requires most { size + sum self.old.sizes ≤ self.old.most }
        ensures sizes { self.new.sizes ≡ size ∷ self.old.sizes }
        ensures closes { self.new.closes + 1 ≡ self.old.closes }
        ensures most { self.new.most ≡ self.old.most }
    {
        if size < LONG {
            self.bytes.push_back_reserved(size as u8);
        } else {
            self.bytes.push_back_reserved(LONG as u8);
            self.longs.push_back_reserved(size - LONG);
        }
    }

    /// Takes the size of the newest step out.
    #[inline]
    pub fn pop(&mut self) -> Option<usize>
        requires { sum self.old.sizes < 2 ^ 64 }
        ensures sizes { MatchOption result
            ((self.old.sizes ≡ []) × (self.new.sizes ≡ []))
            (λ size. self.old.sizes ≡ size ∷ self.new.sizes) }
        ensures closes { MatchOption result
            (self.new.closes ≡ self.old.closes)
            (λ _. self.new.closes ≡ self.old.closes + 1) }
        ensures most { self.new.most ≡ self.old.most }
    {
        let byte = self.bytes.pop_back()? as usize;
        if byte < LONG {
            return Some(byte);
        }
        let more = self.longs.pop_back().unwrap();
        Some(LONG + more)
    }

    /// Takes the size of the oldest step out.
    fn pop_oldest(&mut self) -> Option<usize>
        requires { sum self.old.sizes < 2 ^ 64 }
        ensures sizes { MatchOption result
            ((self.old.sizes ≡ []) × (self.new.sizes ≡ []))
            (λ size. self.old.sizes ≡ self.new.sizes ++ size ∷ []) }
        ensures closes { MatchOption result
            (self.new.closes ≡ self.old.closes)
            (λ _. self.new.closes ≡ self.old.closes + 1) }
        ensures most { self.new.most ≡ self.old.most }
    {
        let byte = self.bytes.pop_front()? as usize;
        if byte < LONG {
            return Some(byte);
        }
        let more = self.longs.pop_front().unwrap();
        Some(LONG + more)
    }

    /// Takes the sizes of the oldest steps out, and answers how many changes these have together.
    pub fn forget(&mut self, steps: usize) -> usize
        requires steps { steps ≤ length self.old.sizes }
        requires small { sum self.old.sizes < 2 ^ 64 }
        ensures sizes { self.new.sizes ≡ take (length self.old.sizes - steps) self.old.sizes }
        ensures changes { result + sum self.new.sizes ≡ sum self.old.sizes }
        ensures closes { self.new.closes ≡ self.old.closes + steps }
        ensures most { self.new.most ≡ self.old.most }
    {
        let mut changes = 0;
        for _ in 0..steps {
            changes += self.pop_oldest().unwrap();
        }
        changes
    }

    /// How many sizes there are.
    pub fn len(&self) -> usize
        ensures { result ≡ length self.now.sizes }
    {
        self.bytes.len()
    }
}

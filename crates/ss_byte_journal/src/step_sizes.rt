//! The sizes of a byte journal's closed steps, one byte for each step that is short.
ghost use Rattle.std.specs.Prelude.{◌≡◌, ◌+◌, ◌-◌, ◌^◌, ◌<◌, ◌≤◌, ◌∷◌, ◌++◌, ◌↔◌, [], length, sum, take};
ghost use Rattle.std.specs.Prelude.{IsOk, IsTrue, OnOk, MatchOption};

use std::alloc::{AllocError, Global};
use std::collections::VecDeque;
use std::marker::Model;

/// The least size that one byte cannot hold.
const LONG: usize = 255;

/// How many bytes each closed step has. A size below 255 is one byte. For a size of 255 or more the
/// byte is 255, and the size has a number of its own.
#[derive(Drop)]
pub struct StepSizes {
    // A byte for each step, the oldest first; the first `forgotten` are of steps forgotten.
    bytes: Vec<u8>,
    forgotten: usize,
    // By how much each size of a byte 255 is greater than that, the oldest first.
    longs: VecDeque<usize>,
}

impl Model for StepSizes {
    ghost use Rattle.std.specs.Prelude.{◌≡◌, ◌+◌, ◌-◌, ◌*◌, ◌≤◌, length, reverse, drop};
    ghost use Rattle.std.specs.Vec.{vec_len, vec_capacity};
    ghost use Rattle.std.specs.VecDeque.{deque_capacity};
    ghost use Rattle.ss_journal.specs.Pieces.{SizeList, sizes_of, long_count};

    ghost Value = { SizeList };

    ghost view = { λ a. record {
      sizes = sizes_of (reverse (drop a.forgotten a.bytes.items)) (reverse a.longs.items);
      closes = vec_capacity a.bytes - vec_len a.bytes;
      most = 255 * deque_capacity a.longs + 254;
    } };

    ghost invariant = { λ a.
        (long_count (reverse (drop a.forgotten a.bytes.items)) ≡ length a.longs.items)
        × (a.forgotten ≤ vec_len a.bytes) };
}

impl StepSizes {
    /// No sizes. It takes no memory.
    pub fn new(alloc: Global) -> Self
        ensures sizes { result.sizes ≡ [] }
        ensures closes { result.closes ≡ 0 }
    {
        StepSizes {
            bytes: Vec::new(alloc),
            forgotten: 0,
            longs: VecDeque::from_vec(Vec::new(alloc)),
        }
    }

    /// Whether there is room for one size more.
    #[inline(always)]
    pub fn has_room(&self) -> bool
        ensures { IsTrue result ↔ (0 < self.now.closes) }
    {
        self.bytes.len() < self.bytes.capacity()
    }

    /// Makes room for one size more, of steps that have at most `bytes` bytes together. If more
    /// steps are forgotten than are left, the sizes of those left are moved to the front first.
    pub fn reserve(&mut self, bytes: usize) -> Result<(), AllocError>
        ensures sizes { self.new.sizes ≡ self.old.sizes }
        ensures closes_stay { self.old.closes ≤ self.new.closes }
        ensures most_stays { self.old.most ≤ self.new.most }
        ensures closes { OnOk result (0 < self.new.closes) }
        ensures most { OnOk result (bytes ≤ self.new.most) }
        ensures had_room { bytes ≤ self.old.most → 0 < self.old.closes → IsOk result }
    {
        if self.forgotten > self.bytes.len() - self.forgotten {
            self.bytes.drain(..self.forgotten);
            self.forgotten = 0;
        }
        let longs = bytes / LONG;
        self.bytes.try_reserve(1)?;
        self.longs
            .try_reserve(longs.saturating_sub(self.longs.len()))
    }

    /// Puts the size of the newest step in.
    #[inline(always)]
    pub fn push(&mut self, size: usize)
        requires closes { 0 < self.old.closes }
        requires most { size + sum self.old.sizes ≤ self.old.most }
        ensures sizes { self.new.sizes ≡ size ∷ self.old.sizes }
        ensures closes { self.new.closes + 1 ≡ self.old.closes }
        ensures most { self.new.most ≡ self.old.most }
    {
        if size < LONG {
            self.bytes.push_reserved(size as u8);
        } else {
            self.push_long(size);
        }
    }

    /// Puts the size of the newest step in, if one byte cannot hold it.
    #[cold]
    #[inline(never)]
    fn push_long(&mut self, size: usize)
        requires long { 255 ≤ size }
        requires closes { 0 < self.old.closes }
        requires most { size + sum self.old.sizes ≤ self.old.most }
        ensures sizes { self.new.sizes ≡ size ∷ self.old.sizes }
        ensures closes { self.new.closes + 1 ≡ self.old.closes }
        ensures most { self.new.most ≡ self.old.most }
    {
        self.bytes.push_reserved(LONG as u8);
        self.longs.push_back_reserved(size - LONG);
    }

    /// Takes the size of the newest step out.
    #[inline(always)]
    pub fn pop(&mut self) -> Option<usize>
        requires { sum self.old.sizes < 2 ^ 64 }
        ensures sizes { MatchOption result
            ((self.old.sizes ≡ []) × (self.new.sizes ≡ []))
            (λ size. self.old.sizes ≡ size ∷ self.new.sizes) }
        ensures closes { MatchOption result
            (self.new.closes ≡ self.old.closes)
            (λ _. self.new.closes ≡ self.old.closes + 1) }
        ensures most { self.new.most ≡ self.old.most }
    {
        if self.bytes.len() == self.forgotten {
            return None;
        }
        let byte = self.bytes.take_last() as usize;
        if byte < LONG {
            return Some(byte);
        }
        let more = self.longs.pop_back().unwrap();
        Some(LONG + more)
    }

    /// Takes the size of the oldest step out. The room of its byte is not free yet.
    fn pop_oldest(&mut self) -> Option<usize>
        requires { sum self.old.sizes < 2 ^ 64 }
        ensures sizes { MatchOption result
            ((self.old.sizes ≡ []) × (self.new.sizes ≡ []))
            (λ size. self.old.sizes ≡ self.new.sizes ++ size ∷ []) }
        ensures closes { self.new.closes ≡ self.old.closes }
        ensures most { self.new.most ≡ self.old.most }
    {
        if self.bytes.len() == self.forgotten {
            return None;
        }
        let byte = self.bytes[self.forgotten] as usize;
        self.forgotten += 1;
        if byte < LONG {
            return Some(byte);
        }
        let more = self.longs.pop_front().unwrap();
        Some(LONG + more)
    }

    /// Takes the sizes of the oldest steps out, and gives the number of bytes of all these steps.
    pub fn forget(&mut self, steps: usize) -> usize
        requires steps { steps ≤ length self.old.sizes }
        requires small { sum self.old.sizes < 2 ^ 64 }
        ensures sizes { self.new.sizes ≡ take (length self.old.sizes - steps) self.old.sizes }
        ensures bytes { result + sum self.new.sizes ≡ sum self.old.sizes }
        ensures closes { self.new.closes ≡ self.old.closes }
        ensures most { self.new.most ≡ self.old.most }
    {
        let mut bytes = 0;
        for _ in 0..steps {
            bytes += self.pop_oldest().unwrap();
        }
        bytes
    }

    /// How many sizes there are.
    pub fn len(&self) -> usize
        ensures { result ≡ length self.now.sizes }
    {
        self.bytes.len() - self.forgotten
    }
}

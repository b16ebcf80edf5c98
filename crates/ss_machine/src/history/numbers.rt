//! The journal of numbers that a history is written on. Small numbers take little room.

ghost use Rattle.std.specs.Prelude.{◌≡◌, ℕ, ◌+◌, ◌^◌, ◌<◌, ◌≤◌, ◌∷◌, [], length, All, IsOk, OnOk, MatchBool};
ghost use Rattle.std.specs.Prelude.{MatchOption};
ghost use Rattle.ss_machine.specs.History.Numbers.{numbers_of, AreSmall, IsHigher};

use crate::history::folding::{narrow, unfold};
use ss_byte_journal::ByteJournal;
use std::alloc::{AllocError, Global};
use std::marker::Model;

/// The least number that takes more than one byte.
const GROUP: u64 = 128;

/// The most bytes that a number takes.
const LONGEST: usize = 10;

/// A journal of numbers, of which each takes as few bytes as it needs.
///
/// Contracts see it as a journal of numbers. Its room is that for numbers of any size: a small one
/// may leave it as it was.
#[derive(Drop)]
pub struct Numbers {
    // The groups of seven bits of each number, its lowest one the newest.
    bytes: ByteJournal,
}

impl Model for Numbers {
    ghost use Rattle.std.specs.Prelude.{ℕ, All, map};
    ghost use Rattle.ss_journal.specs.Log.{Log};
    ghost use Rattle.ss_machine.specs.History.Numbers.{numbers_of, number_room, AreSmall};

    ghost Value = { Log ℕ };

    ghost view = { λ a. record {
      steps = map numbers_of a.bytes.steps;
      current = numbers_of a.bytes.current;
      notes = number_room a.bytes.notes;
      closes = a.bytes.closes;
    } };

    ghost invariant = { λ a. AreSmall a.bytes.current × All AreSmall a.bytes.steps };
}

impl Numbers {
    ghost use Rattle.ss_journal.specs.Log.{newest};

    /// A journal without steps, whose open step is empty. It takes no memory.
    pub fn new(alloc: Global) -> Self
        ensures steps { result.steps ≡ [] }
        ensures current { result.current ≡ [] }
        ensures notes { result.notes ≡ 0 }
        ensures closes { result.closes ≡ 0 }
    {
        Numbers {
            bytes: ByteJournal::new(alloc),
        }
    }

    /// Makes room for at least `n` numbers and one close.
    pub fn reserve(&mut self, n: usize) -> Result<(), AllocError>
        ensures steps { self.new.steps ≡ self.old.steps }
        ensures current { self.new.current ≡ self.old.current }
        ensures kept_notes { self.old.notes ≤ self.new.notes }
        ensures kept_closes { self.old.closes ≤ self.new.closes }
        ensures notes { OnOk result (n ≤ self.new.notes) }
        ensures closes { OnOk result (0 < self.new.closes) }
        ensures had_room { n ≤ self.old.notes → 0 < self.old.closes → IsOk result }
    {
        let bytes = &mut self.bytes;
        if n > usize::MAX / LONGEST {
            return Err(AllocError);
        }
        bytes.reserve(n * LONGEST)
    }

    /// Notes a number as the newest of the open step. It uses up the room of one number at most.
    #[inline(always)]
    pub fn note(&mut self, number: u64)
        requires { 0 < self.old.notes }
        ensures steps { self.new.steps ≡ self.old.steps }
        ensures current { self.new.current ≡ number ∷ self.old.current }
        ensures notes { self.old.notes ≤ self.new.notes + 1 }
        ensures closes { self.new.closes ≡ self.old.closes }
    {
        write(&mut self.bytes, number);
    }

    /// Makes the open step the newest closed one, and opens an empty step. It uses up the room of
    /// one close.
    pub fn close(&mut self)
        requires { 0 < self.old.closes }
        ensures steps { self.new.steps ≡ self.old.current ∷ self.old.steps }
        ensures current { self.new.current ≡ [] }
        ensures notes { self.new.notes ≡ self.old.notes }
        ensures closes { self.new.closes + 1 ≡ self.old.closes }
    {
        self.bytes.close();
    }

    /// Takes the newest number off the open step; `None` if that step is empty. No room is lost.
    pub fn pop_open(&mut self) -> Option<u64>
        ensures steps { self.new.steps ≡ self.old.steps }
        ensures current { MatchOption result
            ((self.old.current ≡ []) × (self.new.current ≡ []))
            (λ number. self.old.current ≡ number ∷ self.new.current) }
        ensures notes { self.old.notes ≤ self.new.notes }
        ensures closes { self.new.closes ≡ self.old.closes }
    {
        let byte = self.bytes.pop_open()? as u64;
        if byte < GROUP {
            return Some(byte);
        }
        Some(byte - GROUP + GROUP * higher(&mut self.bytes))
    }

    /// Makes the newest closed step the open one again; false if no step is closed, and then
    /// nothing changes. The room of its close is free again.
    pub fn reopen_last(&mut self) -> bool
        requires { self.old.current ≡ [] }
        ensures steps { MatchBool result
            (self.old.steps ≡ self.new.current ∷ self.new.steps)
            ((self.old.steps ≡ []) × (self.new.steps ≡ []) × (self.new.current ≡ [])) }
        ensures notes { self.new.notes ≡ self.old.notes }
        ensures closes { MatchBool result
            (self.new.closes ≡ self.old.closes + 1)
            (self.new.closes ≡ self.old.closes) }
    {
        self.bytes.reopen_last()
    }

    /// The number of closed steps.
    pub fn steps(&self) -> usize
        ensures { result ≡ length self.now.steps }
    {
        self.bytes.steps()
    }

    /// Forgets the oldest closed steps, so that the newest `n` are left, or all if there are fewer.
    /// The room of the forgotten steps is free again once `reserve` needs it.
    ///
    /// It takes no memory, and its time is in proportion to the steps forgotten.
    pub fn keep_last(&mut self, n: usize)
        requires { self.old.current ≡ [] }
        ensures steps { self.new.steps ≡ newest n self.old.steps }
        ensures current { self.new.current ≡ [] }
        ensures notes { self.new.notes ≡ self.old.notes }
        ensures closes { self.new.closes ≡ self.old.closes }
    {
        self.bytes.keep_last(n);
    }
}

impl Numbers {
    ghost use Rattle.std.specs.Prelude.{slice_index, not};
    ghost use Rattle.ss_machine.specs.History.{IsTaken, signed_number, narrow_number, is_set};

    /// Takes the newest number off the open step, or 0 if that step is empty.
    pub fn take(&mut self) -> u64
        ensures value { result ≡ slice_index self.old.current 0 }
        ensures taken { IsTaken 1 self.old self.new }
    {
        self.pop_open().unwrap_or(0)
    }

    /// Takes the newest number off as a number with sign, or 0 if the open step is empty.
    pub fn take_signed(&mut self) -> i64
        ensures value { result ≡ signed_number (slice_index self.old.current 0) }
        ensures taken { IsTaken 1 self.old self.new }
    {
        unfold(self.take())
    }

    /// Takes the newest number off as one of 32 bits, or 0 if the open step is empty.
    pub fn take_narrow(&mut self) -> u32
        ensures value { result ≡ narrow_number (slice_index self.old.current 0) }
        ensures taken { IsTaken 1 self.old self.new }
    {
        narrow(self.take())
    }

    /// Takes the newest number off as a choice of two, or false if the open step is empty.
    pub fn take_flag(&mut self) -> bool
        ensures value { result ≡ is_set (slice_index self.old.current 0) }
        ensures taken { IsTaken 1 self.old self.new }
    {
        self.take() != 0
    }
}

/// Writes a number as the newest one.
#[cycle(put)]
#[inline(always)]
fn write(bytes: &mut ByteJournal, number: u64)
    requires some { 0 < bytes.old.notes }
    requires enough { number < 128 ^ bytes.old.notes }
    ensures steps { bytes.new.steps ≡ bytes.old.steps }
    ensures current { numbers_of bytes.new.current ≡ number ∷ numbers_of bytes.old.current }
    ensures notes { (k : ℕ) → 0 < k → number < 128 ^ k → bytes.old.notes ≤ bytes.new.notes + k }
    ensures closes { bytes.new.closes ≡ bytes.old.closes }
{
    if number < GROUP {
        bytes.note(number as u8);
    } else {
        put(bytes, number);
    }
}

/// Writes a number that takes more than one byte: first the part above its two lowest groups, if it
/// has one, then these.
#[cycle(put)]
#[inline(never)]
fn put(bytes: &mut ByteJournal, number: u64)
    requires great { 128 ≤ number }
    requires enough { number < 128 ^ bytes.old.notes }
    ensures steps { bytes.new.steps ≡ bytes.old.steps }
    ensures current { numbers_of bytes.new.current ≡ number ∷ numbers_of bytes.old.current }
    ensures notes { (k : ℕ) → 0 < k → number < 128 ^ k → bytes.old.notes ≤ bytes.new.notes + k }
    ensures closes { bytes.new.closes ≡ bytes.old.closes }
{
    let higher = number / GROUP;
    if higher < GROUP {
        bytes.note(higher as u8);
    } else {
        write(bytes, higher / GROUP);
        bytes.note((GROUP + higher % GROUP) as u8);
    }
    bytes.note((GROUP + number % GROUP) as u8);
}

/// Takes the newest number off; 0 if there is none.
fn higher(bytes: &mut ByteJournal) -> u64
    requires { AreSmall bytes.old.current }
    ensures steps { bytes.new.steps ≡ bytes.old.steps }
    ensures current { IsHigher result (numbers_of bytes.old.current)
        (numbers_of bytes.new.current) }
    ensures notes { bytes.old.notes ≤ bytes.new.notes }
    ensures closes { bytes.new.closes ≡ bytes.old.closes }
{
    let Some(byte) = bytes.pop_open() else {
        return 0;
    };
    let byte = byte as u64;
    if byte < GROUP {
        return byte;
    }
    byte - GROUP + GROUP * higher(bytes)
}

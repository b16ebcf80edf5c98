//! A console over memory: the lines of a text in, and the entries of the events out.
ghost use Rattle.std.specs.Prelude.{◌≡◌, ◌⊎◌, ◌+◌, ◌-◌, ◌^◌, ◌<◌, ◌≤◌, [], length, take, min, Ok, false, Some};
ghost use Rattle.std.specs.Prelude.{IfOk, OnErr};
ghost use Rattle.std.specs.Vec.{vec_capacity};
ghost use Rattle.ss_console.specs.Event.{Adds, write_events};
ghost use Rattle.ss_console.specs.Lines.{known_lines, kept_part, Gives, IsAtEnd};
ghost use Rattle.ss_console.specs.Faults.{faults_of, count_taken, lines_read, read_events, faults_after_read};
ghost use Rattle.ss_console.specs.Faults.{faults_after_put};
ghost use Rattle.ss_console.specs.Entries.{entry_events};
ghost use Rattle.ss_console.specs.declared.lines.TheConstants.{LONGEST_LINE};

use crate::console::{Console, PutFault, ReadFault};
use crate::entry::{Entry, note_written};
use crate::lines::take_line;
use std::alloc::Global;

/// A console over memory, which shows its events. Its lines are those of a text. It takes as many
/// bytes as it has room for, and then none. A call fails only if there is no room, or if its entry
/// has none and the memory for entries cannot grow.
#[derive(Drop)]
pub struct MemoryConsole<'a> {
    text: &'a [u8],
    room: usize,
    entries: Vec<Entry<'a>>,
    terminal: bool,
    read_faults: u64,
    put_faults: u64,
}

impl<'a> MemoryConsole<'a> {
    /// A console at which nothing happened yet.
    pub fn new(alloc: Global, text: &'a [u8], room: usize, terminal: bool) -> Self
        ensures text { result.text.now ≡ text.now }
        ensures room { result.room ≡ room }
        ensures entries { result.entries.items ≡ [] }
        ensures terminal { result.terminal ≡ terminal }
        ensures reads { result.read_faults ≡ 0 }
        ensures puts { result.put_faults ≡ 0 }
    {
        MemoryConsole {
            text,
            room,
            entries: Vec::new(alloc),
            terminal,
            read_faults: 0,
            put_faults: 0,
        }
    }

    /// The entries so far, in order.
    pub fn entries(&self) -> &[Entry<'a>]
        ensures { result.now ≡ self.now.entries.items }
    {
        &self.entries
    }
}

impl Console for MemoryConsole<'_> {
    ghost log = { λ c. Some (entry_events kept_part c.entries.items) };

    ghost left = { λ c. known_lines (Some c.text.now) };

    ghost faults = { λ c. faults_of c.read_faults c.put_faults };

    ghost terminal = { λ c. c.terminal };

    // The trait's clauses, and when it fails.
    #[tactic(auto, using(crate::proofs::EntryLaws::entry_events_push, crate::proofs::LineLaws::first_given, crate::proofs::LineLaws::none_given))]
    fn read_line(&mut self, line: &mut Vec<u8>) -> Result<bool, ReadFault>
        requires room { LONGEST_LINE < vec_capacity line.old }
        requires count { self.old.read_faults < 2 ^ 64 - 1 }
        ensures told { Adds (Some (entry_events kept_part self.old.entries.items))
            (Some (entry_events kept_part self.new.entries.items))
            (read_events result line.new.items) }
        ensures lines { IfOk result (λ some. Gives (known_lines (Some self.old.text.now))
            (known_lines (Some self.new.text.now)) (lines_read some line.new.items)) }
        ensures end { result ≡ Ok false → IsAtEnd (known_lines (Some self.new.text.now)) }
        ensures room { LONGEST_LINE < vec_capacity line.new }
        ensures faults { faults_of self.new.read_faults self.new.put_faults
            ≡ faults_after_read result (faults_of self.old.read_faults self.old.put_faults) }
        ensures terminal { self.new.terminal ≡ self.old.terminal }
        ensures full { OnErr result (vec_capacity self.old.entries
            ≤ length self.old.entries.items) }
    {
        let Some((raw, rest)) = take_line(self.text, line) else {
            return Ok(false);
        };
        if self.entries.push(Entry::Read(raw)).is_err() {
            self.read_faults += 1;
            return Err(ReadFault);
        }
        self.text = rest;
        Ok(true)
    }

    // The trait's clauses, how much it takes, and when it fails.
    #[tactic(auto, using(crate::proofs::EntryLaws::entry_events_written))]
    fn put(&mut self, bytes: &[u8]) -> Result<usize, PutFault>
        requires some { 0 < length bytes.now }
        requires count { self.old.put_faults < 2 ^ 64 - 1 }
        ensures within { count_taken result ≤ length bytes.now }
        ensures told { Adds (Some (entry_events kept_part self.old.entries.items))
            (Some (entry_events kept_part self.new.entries.items))
            (write_events (take (count_taken result) bytes.now)) }
        ensures lines { known_lines (Some self.new.text.now)
            ≡ known_lines (Some self.old.text.now) }
        ensures faults { faults_of self.new.read_faults self.new.put_faults
            ≡ faults_after_put result (faults_of self.old.read_faults self.old.put_faults) }
        ensures terminal { self.new.terminal ≡ self.old.terminal }
        ensures whole { IfOk result (λ n. n ≡ min (length bytes.now) self.old.room) }
        ensures full { OnErr result ((self.old.room ≡ 0) ⊎ (vec_capacity self.old.entries
            < length self.old.entries.items + length bytes.now)) }
    {
        let count = bytes.len().min(self.room);
        if count == 0 || note_written(&mut self.entries, &bytes[..count]).is_err() {
            self.put_faults += 1;
            return Err(PutFault);
        }
        self.room -= count;
        Ok(count)
    }

    fn is_terminal(&self) -> bool {
        self.terminal
    }
}

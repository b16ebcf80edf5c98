//! A console over streams, for a program with standard input and output.
ghost use Rattle.std.specs.Prelude.{◌≡◌, ◌-◌, ◌^◌, ◌<◌, ◌≤◌, None, length, take};
ghost use Rattle.std.specs.Io.KnownBytes.{Appends};
ghost use Rattle.ss_console.specs.Event.{Adds, write_events};
ghost use Rattle.ss_console.specs.Lines.{known_lines};
ghost use Rattle.ss_console.specs.Faults.{faults_of, count_taken, faults_after_put};

use crate::console::{Console, PutFault, ReadFault};
use crate::lines::next_line;
use std::io::{Read, Write};

/// A console over a reader and a writer, such as standard input and output. It shows the lines that
/// are left if its reader shows its bytes, and it shows no events.
#[derive(Drop)]
pub struct StreamConsole<R: Read + Drop, W: Write + Drop> {
    reader: R,
    writer: W,
    terminal: bool,
    read_faults: u64,
    put_faults: u64,
}

impl<R: Read + Drop, W: Write + Drop> StreamConsole<R, W> {
    /// A console at which nothing happened yet. It is a terminal if `terminal` says so.
    pub fn new(reader: R, writer: W, terminal: bool) -> Self
        ensures reader { result.reader ≡ reader }
        ensures writer { result.writer ≡ writer }
        ensures terminal { result.terminal ≡ terminal }
        ensures reads { result.read_faults ≡ 0 }
        ensures puts { result.put_faults ≡ 0 }
    {
        StreamConsole {
            reader,
            writer,
            terminal,
            read_faults: 0,
            put_faults: 0,
        }
    }
}

impl<R: Read + Drop, W: Write + Drop> Console for StreamConsole<R, W> {
    ghost log = { λ _. None };

    ghost left = { λ c. known_lines (R.remaining c.reader) };

    ghost faults = { λ c. faults_of c.read_faults c.put_faults };

    ghost terminal = { λ c. c.terminal };

    fn read_line(&mut self, line: &mut Vec<u8>) -> Result<bool, ReadFault> {
        match next_line(&mut self.reader, line) {
            Ok(some) => Ok(some),
            Err(fault) => {
                self.read_faults += 1;
                Err(fault)
            }
        }
    }

    // The trait's clauses, and the contents of the writer.
    #[tactic(auto, using(crate::proofs::KnownBytes::keeps_appends_none))]
    fn put(&mut self, bytes: &[u8]) -> Result<usize, PutFault>
        requires some { 0 < length bytes.now }
        requires count { self.old.put_faults < 2 ^ 64 - 1 }
        ensures within { count_taken result ≤ length bytes.now }
        ensures told { Adds None None (write_events (take (count_taken result) bytes.now)) }
        ensures lines { known_lines (R.remaining self.new.reader)
            ≡ known_lines (R.remaining self.old.reader) }
        ensures faults { faults_of self.new.read_faults self.new.put_faults
            ≡ faults_after_put result (faults_of self.old.read_faults self.old.put_faults) }
        ensures terminal { self.new.terminal ≡ self.old.terminal }
        ensures bytes { Appends (W.contents self.old.writer) (W.contents self.new.writer)
            (take (count_taken result) bytes.now) }
    {
        match self.writer.write(bytes) {
            Ok(0) => {
                self.put_faults += 1;
                Ok(0)
            }
            Ok(n) => Ok(n),
            Err(_) => {
                self.put_faults += 1;
                Err(PutFault)
            }
        }
    }

    fn is_terminal(&self) -> bool {
        self.terminal
    }
}

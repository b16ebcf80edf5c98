//! The interface of a console: the source of a dialogue's lines, the destination of its bytes.
ghost use Rattle.std.specs.Prelude.{◌≡◌, ◌-◌, ◌^◌, ◌<◌, ◌≤◌, ℕ, Bool, false, Ok, List, Option, length, take, IfOk};
ghost use Rattle.std.specs.Vec.{vec_capacity};
ghost use Rattle.ss_console.specs.Event.{Event, Adds, write_events};
ghost use Rattle.ss_console.specs.Lines.{Gives, IsAtEnd};
ghost use Rattle.ss_console.specs.Faults.{Faults, count_taken, lines_read, read_events, faults_after_read};
ghost use Rattle.ss_console.specs.Faults.{faults_after_put};
ghost use Rattle.ss_console.specs.declared.lines.TheConstants.{LONGEST_LINE};

use thiserror::Error;

/// A line could not be read.
#[derive(Clone, Copy, Debug, Drop, PartialEq, Eq, Error)]
#[error("cannot read")]
pub struct ReadFault;

/// A piece was not taken.
#[derive(Clone, Copy, Debug, Drop, PartialEq, Eq, Error)]
#[error("cannot write")]
pub struct PutFault;

/// A console, at which a dialogue is held: lines come from it, and bytes go to it.
pub trait Console {
    // the events so far, in order, if the console shows them
    ghost log: { Self → Option (List Event) };

    // the lines that are still to be read, each as it will be kept, if the console shows them
    ghost left: { Self → Option (List (List ℕ)) };

    // how many readings and how many puts failed
    ghost faults: { Self → Faults };

    // whether it is a terminal
    ghost terminal: { Self → Bool };

    /// Reads the next line, without its line feed; a last line needs none. `false` at the end of
    /// input. At most LONGEST_LINE + 1 bytes of a line are kept, in the room that the line has; the
    /// rest is passed over. After a fault nothing is said of the lines that are left.
    fn read_line(&mut self, line: &mut Vec<u8>) -> Result<bool, ReadFault>
        requires room { LONGEST_LINE < vec_capacity line.old }
        requires count { (faults self.old).reads < 2 ^ 64 - 1 }
        ensures told { Adds (log self.old) (log self.new) (read_events result line.new.items) }
        ensures lines { IfOk result
            (λ some. Gives (left self.old) (left self.new) (lines_read some line.new.items)) }
        ensures end { result ≡ Ok false → IsAtEnd (left self.new) }
        ensures room { LONGEST_LINE < vec_capacity line.new }
        ensures faults { faults self.new ≡ faults_after_read result (faults self.old) }
        ensures terminal { terminal self.new ≡ terminal self.old };

    /// Takes a prefix of the bytes, of which there is one at least, and gives its length. A fault
    /// or a 0 takes nothing, and is counted.
    fn put(&mut self, bytes: &[u8]) -> Result<usize, PutFault>
        requires some { 0 < length bytes.now }
        requires count { (faults self.old).puts < 2 ^ 64 - 1 }
        ensures within { count_taken result ≤ length bytes.now }
        ensures told { Adds (log self.old) (log self.new)
            (write_events (take (count_taken result) bytes.now)) }
        ensures lines { left self.new ≡ left self.old }
        ensures faults { faults self.new ≡ faults_after_put result (faults self.old) }
        ensures terminal { terminal self.new ≡ terminal self.old };

    /// Whether a prompt is to be written.
    fn is_terminal(&self) -> bool
        ensures { result ≡ terminal self.now };
}

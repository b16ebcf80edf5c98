//! The interface of an answerer: the machine that answers the lines of a dialogue.
ghost use Rattle.std.specs.Prelude.{◌≡◌, ◌-◌, ◌^◌, ◌<◌, ◌++◌, true, IsOk, OnOk, OnErr, IfOk};
ghost use Rattle.ss_console.specs.Event.{Adds, write_events};
ghost use Rattle.ss_console.specs.Faults.{one_more_put};
ghost use Rattle.ss_console.specs.Puts.{AddsPart};
ghost use Rattle.ss_console.specs.Meaning.{Meaning};
ghost use Rattle.ss_console.specs.Going.{go_of};

use crate::console::{Console, PutFault};
use std::alloc::AllocError;

/// Whether a dialogue goes on after a line.
#[derive(Clone, Copy, Debug, PartialEq, Eq)]
pub enum Go {
    /// The next line is read.
    On,
    /// The line ends the dialogue.
    Quit,
}

/// An answerer of the lines of a dialogue: a machine that each line leads from state to state.
pub trait Answerer {
    // its states, the answer to each line, and the state to which the line leads
    ghost meaning: { Meaning };

    // the state in which it is
    ghost state: { Self → meaning.State };

    /// The position that a prompt shows.
    fn position(&self) -> u64
        ensures { result ≡ meaning.position (state self.now) };

    /// Does the work of a line, and appends its whole answer.
    ///
    /// The result is `AllocError` if memory was refused: then nothing of the answer counts. A line
    /// that ends the dialogue needs no memory.
    fn answer(&mut self, line: &[u8], answer: &mut Vec<u8>) -> Result<Go, AllocError>
        ensures place { OnOk result (state self.new ≡ meaning.next (state self.old) line.now) }
        ensures said { OnOk result (answer.new.items
            ≡ answer.old.items ++ meaning.said (state self.old) line.now) }
        ensures go { IfOk result (λ go. go ≡ go_of (meaning.ends line.now)) }
        ensures memory { OnErr result
            (meaning.MayBeLeft (state self.old) line.now (state self.new)) }
        ensures quit { meaning.ends line.now ≡ true → IsOk result };

    /// Writes the answer to a line for which memory was refused; this needs no memory itself.
    fn put_refusal<C: Console>(&self, console: &mut C) -> Result<(), PutFault>
        requires { (C.faults console.old).puts < 2 ^ 64 - 1 }
        ensures ok { OnOk result (Adds (C.log console.old) (C.log console.new)
            (write_events (meaning.refusal (state self.now)))
            × (C.faults console.new ≡ C.faults console.old)) }
        ensures err { OnErr result (AddsPart (meaning.refusal (state self.now))
            (C.log console.old) (C.log console.new)
            × (C.faults console.new ≡ one_more_put (C.faults console.old))) }
        ensures lines { C.left console.new ≡ C.left console.old }
        ensures terminal { C.terminal console.new ≡ C.terminal console.old };
}

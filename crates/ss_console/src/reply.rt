//! The reply to a line, and its writing at the console.
ghost use Rattle.std.specs.Prelude.{◌≡◌, ◌-◌, ◌^◌, ◌<◌, OnOk, OnErr};
ghost use Rattle.ss_console.specs.Event.{Adds, write_events};
ghost use Rattle.ss_console.specs.Faults.{one_more_put};
ghost use Rattle.ss_console.specs.Puts.{AddsPart};
ghost use Rattle.ss_console.specs.Reply.{reply_text, reply_ends};

use crate::answerer::{Answerer, Go};
use crate::console::{Console, PutFault};
use crate::puts::put_all;

/// The reply of an answerer to a line.
#[derive(Clone, Copy)]
pub(crate) enum Reply {
    /// Its answer.
    Said(Go),
    /// Nothing, since memory was refused.
    Refused,
}

impl Reply {
    /// Whether the dialogue ends.
    pub(crate) fn ends(self) -> bool
        ensures { result ≡ reply_ends self }
    {
        matches!(self, Reply::Said(Go::Quit))
    }
}

/// Writes the reply to a line: its answer, or that memory was refused.
pub(crate) fn put_reply<A: Answerer, C: Console>(
    answerer: &A,
    console: &mut C,
    reply: Reply,
    answer: &[u8],
) -> Result<(), PutFault>
    requires { (C.faults console.old).puts < 2 ^ 64 - 1 }
    ensures ok { OnOk result (Adds (C.log console.old) (C.log console.new)
        (write_events (reply_text A.meaning (A.state answerer.now) reply answer.now))
        × (C.faults console.new ≡ C.faults console.old)) }
    ensures err { OnErr result (AddsPart
        (reply_text A.meaning (A.state answerer.now) reply answer.now)
        (C.log console.old) (C.log console.new)
        × (C.faults console.new ≡ one_more_put (C.faults console.old))) }
    ensures lines { C.left console.new ≡ C.left console.old }
    ensures terminal { C.terminal console.new ≡ C.terminal console.old }
{
    match reply {
        Reply::Said(_) => put_all(console, answer),
        Reply::Refused => answerer.put_refusal(console),
    }
}

//! The interface of a channel: the source and the destination of a session's messages.
ghost use Rattle.std.specs.Prelude.{◌≡◌, ℕ, [], Err, List, Option, option_map, IfOk, OnOk, OnErr};
ghost use Rattle.ss_console.specs.Event.{Event, Adds, write_events};
ghost use Rattle.ss_console.specs.Puts.{AddsPart};
ghost use Rattle.ss_messages.specs.Frames.{IsRead, IsMalformed};
ghost use Rattle.ss_messages.specs.declared.frame.FrameFault.TheVariants.{Malformed};
ghost use Rattle.ss_serve.specs.Channels.{read_events, broken_after_read, broken_after_send};
ghost use Rattle.ss_serve.specs.declared.channel.Side.{Side};

use ss_messages::FrameFault;
use thiserror::Error;

/// The bytes of messages were not all taken.
#[derive(Clone, Copy, Debug, Drop, PartialEq, Eq, Error)]
#[error("cannot write")]
pub struct SendFault;

/// A side of a channel.
#[derive(Clone, Copy, Debug, PartialEq, Eq)]
pub enum Side {
    /// Messages are read from it.
    Input,
    /// Messages are written to it.
    Output,
}

/// A channel, over which a session is held: messages come from it, and go to it.
pub trait Channel {
    // the events so far, in order, if the channel shows them
    ghost log: { Self → Option (List Event) };

    // the bytes that are still to be read, if the channel shows them
    ghost left: { Self → Option (List ℕ) };

    // the side on which a call failed last, if one did
    ghost broken: { Self → Option Side };

    /// The body of the next message, read in whatever pieces its bytes come. `None` at the end of
    /// the stream. After a fault nothing is said of the bytes that are left.
    fn receive(&mut self) -> Result<Option<Vec<u8>>, FrameFault>
        ensures read { IfOk result
            (λ body. IsRead (option_map (λ b. b.items) body) (left self.old) (left self.new)) }
        ensures malformed { result ≡ Err Malformed → IsMalformed (left self.old) }
        ensures told { IfOk result
            (λ body. Adds (log self.old) (log self.new)
            (read_events (option_map (λ b. b.items) body))) }
        ensures err { OnErr result (Adds (log self.old) (log self.new) []) }
        ensures broken { broken self.new ≡ broken_after_read result (broken self.old) };

    /// Writes all of the bytes. At a fault a part of them was written.
    fn send(&mut self, bytes: &[u8]) -> Result<(), SendFault>
        ensures ok { OnOk result (Adds (log self.old) (log self.new) (write_events bytes.now)) }
        ensures err { OnErr result (AddsPart bytes.now (log self.old) (log self.new)) }
        ensures left { left self.new ≡ left self.old }
        ensures broken { broken self.new ≡ broken_after_send result (broken self.old) };
}

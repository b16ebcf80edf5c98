//! A channel over streams, for a program with standard input and output.
ghost use Rattle.std.specs.Prelude.{◌≡◌, None, OnOk, OnErr};
ghost use Rattle.std.specs.Io.KnownBytes.{Appends};
ghost use Rattle.ss_console.specs.Event.{Adds, write_events};
ghost use Rattle.ss_console.specs.Puts.{AddsPart};
ghost use Rattle.ss_serve.specs.Channels.{broken_after_send};

use crate::channel::{Channel, SendFault, Side};
use ss_messages::{FrameFault, read_message};
use std::alloc::Global;
use std::io::{Read, Write};

/// A channel over a reader and a writer, such as standard input and output. It shows the bytes that
/// are left if its reader does, and it shows no events.
#[derive(Drop)]
pub struct StreamChannel<R: Read + Drop, W: Write + Drop> {
    alloc: Global,
    reader: R,
    writer: W,
    broken: Option<Side>,
}

impl<R: Read + Drop, W: Write + Drop> StreamChannel<R, W> {
    /// A channel on which nothing happened yet.
    pub fn new(alloc: Global, reader: R, writer: W) -> Self
        ensures reader { result.reader ≡ reader }
        ensures writer { result.writer ≡ writer }
        ensures broken { result.broken ≡ None }
    {
        StreamChannel {
            alloc,
            reader,
            writer,
            broken: None,
        }
    }
}

impl<R: Read + Drop, W: Write + Drop> Channel for StreamChannel<R, W> {
    ghost log = { λ _. None };

    ghost left = { λ c. R.remaining c.reader };

    ghost broken = { λ c. c.broken };

    fn receive(&mut self) -> Result<Option<Vec<u8>>, FrameFault> {
        let read = read_message(self.alloc, &mut self.reader);
        if let Err(FrameFault::Read) = &read {
            self.broken = Some(Side::Input);
        }
        read
    }

    // The trait's clauses, and the contents of the writer.
    fn send(&mut self, bytes: &[u8]) -> Result<(), SendFault>
        ensures ok { OnOk result (Adds None None (write_events bytes.now)) }
        ensures err { OnErr result (AddsPart bytes.now None None) }
        ensures left { R.remaining self.new.reader ≡ R.remaining self.old.reader }
        ensures broken { self.new.broken ≡ broken_after_send result self.old.broken }
        ensures bytes { OnOk result (Appends (W.contents self.old.writer)
            (W.contents self.new.writer) bytes.now) }
    {
        if self.writer.write_all(bytes).is_err() || self.writer.flush().is_err() {
            self.broken = Some(Side::Output);
            return Err(SendFault);
        }
        Ok(())
    }
}

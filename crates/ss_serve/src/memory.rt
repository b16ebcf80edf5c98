//! A channel over memory: the messages of a text in, and the entries of the events out.
ghost use Rattle.std.specs.Prelude.{◌≡◌, ◌⊎◌, ◌+◌, ◌<◌, [], length, min, None, Some, Err, option_map};
ghost use Rattle.std.specs.Prelude.{IfOk, OnOk, OnErr};
ghost use Rattle.std.specs.Vec.{vec_capacity};
ghost use Rattle.ss_console.specs.Event.{Adds, write_events};
ghost use Rattle.ss_console.specs.Puts.{AddsPart};
ghost use Rattle.ss_messages.specs.Frames.{IsRead, IsMalformed, first_message, cut};
ghost use Rattle.ss_messages.specs.declared.frame.FrameFault.TheVariants.{Malformed, Read};
ghost use Rattle.ss_serve.specs.Channels.{read_events, broken_after_read, broken_after_send, channel_events};

use crate::channel::{Channel, SendFault, Side};
use ss_console::{Entry, note_written};
use ss_messages::{FrameFault, split_message};
use std::alloc::Global;

/// A channel over memory, which shows its events. Its messages are those of a text. It takes as
/// many bytes as it has room for, and then none. A writing fails only if there is no room, or if
/// its entries have none and the memory for entries cannot grow.
#[derive(Drop)]
pub struct MemoryChannel<'a> {
    alloc: Global,
    text: &'a [u8],
    room: usize,
    entries: Vec<Entry<'a>>,
    broken: Option<Side>,
}

impl<'a> MemoryChannel<'a> {
    /// A channel on which nothing happened yet.
    pub fn new(alloc: Global, text: &'a [u8], room: usize) -> Self
        ensures text { result.text.now ≡ text.now }
        ensures room { result.room ≡ room }
        ensures entries { result.entries.items ≡ [] }
        ensures broken { result.broken ≡ None }
    {
        MemoryChannel {
            alloc,
            text,
            room,
            entries: Vec::new(alloc),
            broken: None,
        }
    }

    /// The entries so far, in order.
    pub fn entries(&self) -> &[Entry<'a>]
        ensures { result.now ≡ self.now.entries.items }
    {
        &self.entries
    }
}

impl Channel for MemoryChannel<'_> {
    ghost log = { λ c. Some (channel_events c.entries.items) };

    ghost left = { λ c. Some c.text.now };

    ghost broken = { λ c. c.broken };

    // The trait's clauses, and when reading fails.
    #[tactic(auto, using(ss_console::proofs::EntryLaws::entry_events_push))]
    fn receive(&mut self) -> Result<Option<Vec<u8>>, FrameFault>
        ensures read { IfOk result (λ body. IsRead (option_map (λ b. b.items) body)
            (Some self.old.text.now) (Some self.new.text.now)) }
        ensures malformed { result ≡ Err Malformed → IsMalformed (Some self.old.text.now) }
        ensures told { IfOk result (λ body. Adds (Some (channel_events self.old.entries.items))
            (Some (channel_events self.new.entries.items))
            (read_events (option_map (λ b. b.items) body))) }
        ensures err { OnErr result (Adds (Some (channel_events self.old.entries.items))
            (Some (channel_events self.new.entries.items)) []) }
        ensures broken { self.new.broken ≡ broken_after_read result self.old.broken }
        ensures cut { result ≡ Err Read → first_message self.old.text.now ≡ cut }
    {
        match split_message(self.alloc, self.text) {
            Ok(Some((body, rest))) => {
                let copy = body.to_vec(self.alloc)?;
                if self.entries.push(Entry::Read(body)).is_err() {
                    return Err(FrameFault::Memory);
                }
                self.text = rest;
                Ok(Some(copy))
            }
            Ok(None) => Ok(None),
            Err(fault) => {
                if fault == FrameFault::Read {
                    self.broken = Some(Side::Input);
                }
                Err(fault)
            }
        }
    }

    // The trait's clauses, and when writing fails.
    #[tactic(auto, using(ss_console::proofs::Parts::adds_part, ss_console::proofs::EntryLaws::entry_events_written))]
    fn send(&mut self, bytes: &[u8]) -> Result<(), SendFault>
        ensures ok { OnOk result (Adds (Some (channel_events self.old.entries.items))
            (Some (channel_events self.new.entries.items)) (write_events bytes.now)) }
        ensures err { OnErr result (AddsPart bytes.now
            (Some (channel_events self.old.entries.items))
            (Some (channel_events self.new.entries.items))) }
        ensures left { self.new.text.now ≡ self.old.text.now }
        ensures broken { self.new.broken ≡ broken_after_send result self.old.broken }
        ensures full { OnErr result ((self.old.room < length bytes.now)
            ⊎ (vec_capacity self.old.entries
            < length self.old.entries.items + length bytes.now)) }
    {
        let count = bytes.len().min(self.room);
        if note_written(&mut self.entries, &bytes[..count]).is_err() {
            self.broken = Some(Side::Output);
            return Err(SendFault);
        }
        self.room -= count;
        if count < bytes.len() {
            self.broken = Some(Side::Output);
            return Err(SendFault);
        }
        Ok(())
    }
}

//! The destination of a transcript: the trait, an outlet over memory, and the writing of a text.
ghost use Rattle.std.specs.Prelude.{◌≡◌, ℕ, ◌+◌, ◌-◌, ◌<◌, ◌≤◌, ◌^◌, ◌++◌, List, [], length, take, drop, Option, Some};
ghost use Rattle.std.specs.Prelude.{None, OnOk, OnErr, IfOk};
ghost use Rattle.std.specs.Io.KnownBytes.{Appends};
ghost use Rattle.std.specs.Vec.{vec_capacity};
ghost use Rattle.ss_session.specs.Outlet.{count_taken, failure_count};
ghost use Rattle.ss_session.specs.Written.{WritesPart};

use std::alloc::Global;
use thiserror::Error;

/// A piece was not taken.
#[derive(Clone, Copy, Debug, Drop, PartialEq, Eq, Error)]
#[error("cannot write")]
pub struct PutFault;

/// The destination of a transcript: takes bytes in order, and counts the calls that took none.
pub trait Outlet {
    // the bytes taken so far, if the outlet shows them
    ghost taken: { Self → Option (List ℕ) };

    // how many calls failed
    ghost failures: { Self → ℕ };

    /// Takes a prefix of the piece, which must not be empty, and gives its length. A fault or a 0
    /// takes nothing, and adds one to the count of failures, which nothing else changes.
    fn put(&mut self, piece: &[u8]) -> Result<usize, PutFault>
        requires some { 0 < length piece.now }
        requires room { failures self.old < 2 ^ 64 - 1 }
        ensures within { count_taken result ≤ length piece.now }
        ensures took { Appends (taken self.old) (taken self.new)
            (take (count_taken result) piece.now) }
        ensures counts { failures self.new ≡ failures self.old + failure_count result };
}

/// An outlet over memory, which shows the bytes that it took. A call takes its whole piece. If its
/// room is too small for the piece and cannot grow, the call fails and takes nothing.
#[derive(Drop)]
pub struct MemoryOutlet {
    bytes: Vec<u8>,
    failures: u64,
}

impl MemoryOutlet {
    /// An outlet that took nothing yet; takes no memory.
    pub fn new(alloc: Global) -> Self
        ensures empty { result.bytes.items ≡ [] }
        ensures none_failed { result.failures ≡ 0 }
    {
        MemoryOutlet {
            bytes: Vec::new(alloc),
            failures: 0,
        }
    }

    /// The bytes that were taken so far.
    pub fn bytes(&self) -> &[u8]
        ensures { result.now ≡ self.now.bytes.items }
    {
        &self.bytes
    }
}

impl Outlet for MemoryOutlet {
    ghost taken = { λ m. Some m.bytes.items };

    ghost failures = { λ m. m.failures };

    fn put(&mut self, piece: &[u8]) -> Result<usize, PutFault>
        requires some { 0 < length piece.now }
        requires room { self.old.failures < 2 ^ 64 - 1 }
        ensures within { count_taken result ≤ length piece.now }
        ensures took { Appends (Some self.old.bytes.items) (Some self.new.bytes.items)
            (take (count_taken result) piece.now) }
        ensures counts { self.new.failures ≡ self.old.failures + failure_count result }
        ensures whole { IfOk result (λ n. n ≡ length piece.now) }
        ensures full { OnErr result (vec_capacity self.old.bytes
            < length self.old.bytes.items + length piece.now) }
    {
        match self.bytes.extend_from_slice(piece) {
            Ok(()) => Ok(piece.len()),
            Err(_) => {
                self.failures += 1;
                Err(PutFault)
            }
        }
    }
}

/// Writes a part of the bytes from `at` on: at least one byte, or it fails and has written none.
fn put_some<W: Outlet>(out: &mut W, bytes: &[u8], at: usize) -> Result<usize, PutFault>
    requires left { at < length bytes.now }
    requires room { W.failures out.old < 2 ^ 64 - 1 }
    ensures ok { IfOk result (λ n. (0 < n) × (at + n ≤ length bytes.now)
        × Appends (W.taken out.old) (W.taken out.new) (take n (drop at bytes.now))
        × (W.failures out.new ≡ W.failures out.old)) }
    ensures err { OnErr result (Appends (W.taken out.old) (W.taken out.new) []
        × (W.failures out.new ≡ W.failures out.old + 1)) }
{
    match out.put(&bytes[at..])? {
        0 => Err(PutFault),
        n => Ok(n),
    }
}

/// Writes all of the bytes, as many pieces as `put` takes them in, until one call fails: then a prefix
/// of them is written, and one failure counted.
#[tactic(auto, using(crate::proofs::Parts::texts_in_pieces))]
pub fn put_all<W: Outlet>(out: &mut W, bytes: &[u8]) -> Result<(), PutFault>
    requires { W.failures out.old < 2 ^ 64 - 1 }
    ensures ok { OnOk result (Appends (W.taken out.old) (W.taken out.new) bytes.now
        × (W.failures out.new ≡ W.failures out.old)) }
    ensures err { OnErr result (WritesPart bytes.now (W.taken out.old) (W.taken out.new)
        × (W.failures out.new ≡ W.failures out.old + 1)) }
{
    let mut at = 0;
    while at < bytes.len() {
        at += put_some(out, bytes, at)?;
    }
    Ok(())
}

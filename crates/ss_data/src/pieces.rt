//! The pieces of the data in two vectors, so that many short pieces take few blocks of memory.
use std::alloc::{AllocError, Global};
use std::marker::Model;

/// Adjacent pieces of text in order, with the place at which each one ends.
#[derive(Drop)]
pub(crate) struct Pieces {
    bytes: Vec<u8>,
    ends: Vec<usize>,
}

impl Model for Pieces {
    ghost use Rattle.std.specs.Prelude.{ℕ, List, length};
    ghost use Rattle.ss_data.specs.Packed.{pieces_by_ends, AreEnds};

    ghost Value = { List (List ℕ) };

    ghost view = { λ p. pieces_by_ends 0 p.ends.items p.bytes.items };

    ghost invariant = { λ p. AreEnds 0 p.ends.items (length p.bytes.items) };
}

impl Pieces {
    ghost use Rattle.std.specs.Prelude.{◌≡◌, ◌<◌, ◌^◌, [], ◌∷◌, ◌++◌, if◌then◌else◌, is_ok, length, slice_get, OnSome};
    ghost use Rattle.std.specs.Option.{option_copied};

    pub(crate) fn new(alloc: Global) -> Self
        ensures { result ≡ [] }
    {
        Pieces {
            bytes: Vec::new(alloc),
            ends: Vec::new(alloc),
        }
    }

    /// Adds a piece after the others. If memory is refused, the pieces stay as they are.
    pub(crate) fn push(&mut self, piece: &[u8]) -> Result<(), AllocError>
        ensures { self.new ≡ (if is_ok result then self.old ++ piece.now ∷ [] else self.old) }
    {
        self.ends.reserve(1)?;
        self.bytes.extend_from_slice(piece)?;
        self.ends.push_reserved(self.bytes.len());
        Ok(())
    }

    /// How many pieces there are.
    pub(crate) fn len(&self) -> usize
        ensures { result ≡ length self.now }
    {
        self.ends.len()
    }

    /// The piece at an index from 0, if there is one.
    pub(crate) fn get(&self, index: usize) -> Option<&[u8]>
        ensures piece { option_copied result ≡ slice_get self.now index }
        ensures within { OnSome result (index < length self.now) }
        ensures size { length self.now < 2 ^ 64 }
    {
        let end = *self.ends.get(index)?;
        let start = start_of(&self.ends, index);
        Some(&self.bytes[start..end])
    }
}

ghost use Rattle.std.specs.Prelude.{◌≡◌, ◌<◌, ◌∷◌, length, slice_index};

/// The place at which the piece at an index starts: the end of the one before it.
fn start_of(ends: &[usize], index: usize) -> usize
    requires { index < length ends.now }
    ensures { result ≡ slice_index (0 ∷ ends.now) index }
{
    if index == 0 { 0 } else { ends[index - 1] }
}

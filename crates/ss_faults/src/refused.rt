//! The first of the wanted pieces of the data that gives no value.
ghost use Rattle.std.specs.Prelude.{◌≡◌, ◌-◌};
ghost use Rattle.ss_data.specs.Numbers.{number};
ghost use Rattle.ss_faults.specs.Refusal.{gives_value, refusal};

use crate::data_pieces::{DataPiece, PiecesLeft};
use std::marker::Model;
use std::str;

/// A wanted piece that gives no value.
#[derive(Drop)]
pub struct Refused<'a> {
    /// How many wanted pieces come before it.
    pub index: usize,
    /// The piece; `None` if no piece is left.
    pub piece: Option<DataPiece<'a>>,
}

impl<'a> Model for Refused<'a> {
    ghost use Rattle.ss_faults.specs.Refusal.{RefusedPiece};

    ghost Value = { RefusedPiece };

    ghost view = { λ r. record { index = r.index; piece = r.piece } };
}

/// The number that a piece writes, if one in range (docs/LANGUAGE.md, "READ and the data").
fn number(piece: &[u8]) -> Option<i64>
    ensures { result ≡ number piece.now }
{
    let text = str::from_utf8(piece).ok()?;
    text.parse::<i64>().ok()
}

/// Whether there is a piece, and it writes a number in range.
fn gives_value(piece: &Option<DataPiece<'_>>) -> bool
    ensures { result ≡ gives_value piece.now }
{
    match piece {
        Some(piece) => number(piece.bytes).is_some(),
        None => false,
    }
}

/// The first of the next wanted pieces that gives no value, if there is one. Wanted pieces are
/// counted from 0: the next one has number `first`, and the last one number `end - 1`.
#[tactic(auto, using(crate::proofs::Refusals::refusals))]
pub fn first_refused<'a>(
    mut pieces: PiecesLeft<'a>,
    first: usize,
    end: usize,
) -> Option<Refused<'a>>
    ensures { result ≡ refusal first (end - first) pieces.entry }
{
    let mut index = first;
    while index < end {
        let piece = pieces.pass();
        if !gives_value(&piece) {
            return Some(Refused { index, piece });
        }
        index += 1;
    }
    None
}

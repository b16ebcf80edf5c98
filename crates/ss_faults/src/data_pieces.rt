//! The pieces of the data, each with its line in the data file.
ghost use Rattle.std.specs.Prelude.{◌≡◌, ◌≤◌, ◌<◌, ◌+◌, ◌^◌, true, length, take_while};
ghost use Rattle.ss_data.specs.Pieces.{is_separator};
ghost use Rattle.ss_faults.specs.DataPieces.{begins_piece, in_piece, line_after, pieces_from};

use ss_words::characters::{BLANK, CARRIAGE_RETURN, LINE_FEED, TAB};
use std::marker::Model;

/// A piece of the data.
#[derive(Drop)]
pub struct DataPiece<'a> {
    /// Its line, the first of which is line 1.
    pub line: usize,
    /// Its bytes.
    pub bytes: &'a [u8],
}

impl<'a> Model for DataPiece<'a> {
    ghost use Rattle.ss_faults.specs.DataPieces.{PlacedPiece};

    ghost Value = { PlacedPiece };

    ghost view = { λ p. record { line = p.line; bytes = p.bytes.now } };
}

/// The pieces of the data that are not passed yet.
#[derive(Drop)]
pub struct PiecesLeft<'a> {
    line: usize,
    rest: &'a [u8],
}

impl<'a> Model for PiecesLeft<'a> {
    ghost use Rattle.std.specs.Prelude.{List, length, ◌+◌, ◌<◌, ◌^◌};
    ghost use Rattle.ss_faults.specs.DataPieces.{PlacedPiece, pieces_from};

    ghost Value = { List PlacedPiece };

    ghost view = { λ p. pieces_from p.line p.rest.now };

    ghost invariant = { λ p. p.line + length p.rest.now < 2 ^ 64 };
}

/// Whether a byte separates pieces.
fn is_separator(byte: u8) -> bool
    ensures { result ≡ is_separator byte }
{
    matches!(byte, BLANK | TAB | CARRIAGE_RETURN | LINE_FEED)
}

/// Whether a byte belongs to a piece.
fn in_piece(byte: u8) -> bool
    ensures { result ≡ in_piece byte }
{
    !is_separator(byte)
}

/// The line of the byte after a separator.
fn line_after(line: usize, separator: u8) -> usize
    requires { line + 1 < 2 ^ 64 }
    ensures { result ≡ line_after line separator }
{
    if separator == LINE_FEED {
        line + 1
    } else {
        line
    }
}

/// The number of bytes of the piece at the front.
fn piece_len(rest: &[u8]) -> usize
    ensures len { result ≡ length (take_while in_piece rest.now) }
    ensures in_range { result ≤ length rest.now }
{
    rest.iter().take_while(|byte| in_piece(**byte)).count()
}

/// The text after the separators at the front, with its line.
#[tactic(auto, using(crate::proofs::PieceWalks::separator_passed))]
fn after_separators(mut line: usize, mut rest: &[u8]) -> (usize, &[u8])
    requires { line + length rest.now < 2 ^ 64 }
    ensures pieces { pieces_from result.0 result.1.now ≡ pieces_from line rest.entry.now }
    ensures begins { begins_piece result.1.now ≡ true }
    ensures room { result.0 + length result.1.now < 2 ^ 64 }
{
    while let [byte, after @ ..] = rest {
        if !is_separator(*byte) {
            return (line, rest);
        }
        line = line_after(line, *byte);
        rest = after;
    }
    (line, rest)
}

impl<'a> PiecesLeft<'a> {
    ghost use Rattle.std.specs.Prelude.{◌≡◌, ◌<◌, ◌^◌, length, drop, slice_get};
    ghost use Rattle.ss_faults.specs.DataPieces.{data_pieces};

    /// All pieces of some data.
    pub fn new(data_text: &'a [u8]) -> Self
        ensures { result ≡ data_pieces data_text.now }
    {
        PiecesLeft {
            line: 1,
            rest: data_text,
        }
    }

    /// Passes the next piece, and returns it.
    #[tactic(auto)]
    pub fn pass(&mut self) -> Option<DataPiece<'a>>
        ensures piece { result ≡ slice_get self.old 0 }
        ensures left { self.new ≡ drop 1 self.old }
    {
        let (line, rest) = after_separators(self.line, self.rest);
        let len = piece_len(rest);
        self.line = line;
        self.rest = &rest[len..];
        if len == 0 {
            return None;
        }
        Some(DataPiece {
            line,
            bytes: &rest[..len],
        })
    }

    /// Passes the next `count` pieces, or all that are left.
    #[tactic(auto, using(crate::proofs::PieceWalks::pieces_passed))]
    pub fn pass_some(&mut self, mut count: usize)
        ensures { self.new ≡ drop count self.old }
    {
        while count > 0 {
            if self.pass().is_none() {
                return;
            }
            count -= 1;
        }
    }

    /// Shows its caller that a `usize` can count the pieces.
    #[tactic(auto, using(crate::proofs::PieceWalks::few_pieces))]
    fn known(&self)
        ensures { length self.now < 2 ^ 64 }
    {
        // The view of the pieces is known at the places that read a field.
        let _ = &self.rest;
    }

    /// How many pieces are left.
    #[tactic(auto)]
    pub fn count(&self) -> usize
        ensures { result ≡ length self.now }
    {
        self.known();
        let mut left = PiecesLeft {
            line: self.line,
            rest: self.rest,
        };
        let mut count = 0;
        while left.pass().is_some() {
            count += 1;
        }
        count
    }
}

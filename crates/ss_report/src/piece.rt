//! The pieces of a picture: how lines are cut into them, and how they are written with values.
ghost use Rattle.std.specs.Prelude.{◌≡◌, ◌==◌, ◌+◌, ◌-◌, ◌^◌, ◌<◌, ◌≤◌, ◌++◌, ◌∷◌, [], drop, length, map, min};
ghost use Rattle.std.specs.Prelude.{count_by, IfOk, OnOk, vec_len, vec_capacity};
ghost use Rattle.std.specs.List.{position_or_len, prefix_len};
ghost use Rattle.ss_words.specs.declared.characters.TheConstants.{ASTERISK};
ghost use Rattle.ss_report.specs.Pictures.{line_end, field, field_text, parts_text, is_field, line_parts};
ghost use Rattle.ss_report.specs.Pictures.{picture_parts};
ghost use Rattle.ss_report.specs.Pieces.{is_field_piece, parts_len, parts_of, piece_parts};

use crate::append::{append, append_times};
use itoa::Buffer;
use ss_words::characters::{ASTERISK, BLANK, LINE_FEED};
use std::alloc::{AllocError, Global};

/// A part of a picture; a picture is a list of them, in order.
#[derive(Debug, Drop)]
pub(crate) enum Piece {
    /// Bytes of a line, none of them an asterisk.
    Text(Vec<u8>),
    /// A run of this number of asterisks.
    Field(usize),
    LineEnd,
}

/// The pieces of lines.
pub(crate) fn pieces_of(alloc: Global, lines: &[Vec<u8>]) -> Result<Vec<Piece>, AllocError>
    ensures { IfOk result
        (λ pieces. parts_of pieces.items ≡ picture_parts (map (λ l. l.items) lines.now)) }
{
    let mut pieces = Vec::new(alloc);
    for line in lines {
        add_line(alloc, &mut pieces, line)?;
    }
    Ok(pieces)
}

/// Appends the pieces of a line. After an error some may be there.
fn add_line(alloc: Global, pieces: &mut Vec<Piece>, line: &[u8]) -> Result<(), AllocError>
    ensures { OnOk result (parts_of pieces.new.items
        ≡ parts_of pieces.old.items ++ (line_parts line.now ++ line_end ∷ [])) }
{
    let mut rest = line;
    while !rest.is_empty() {
        let (piece, behind) = first_piece(alloc, rest)?;
        pieces.push(piece)?;
        rest = behind;
    }
    pieces.push(Piece::LineEnd)?;
    Ok(())
}

/// The first piece of a line, and the bytes after it.
#[tactic(auto, using(crate::proofs::Lines::first_field))]
fn first_piece(alloc: Global, line: &[u8]) -> Result<(Piece, &[u8]), AllocError>
    requires { 0 < length line.now }
    ensures parts { IfOk result
        (λ r. line_parts line.now ≡ piece_parts r.0 ++ line_parts r.1.now) }
    ensures shorter { IfOk result (λ r. length r.1.now < length line.now) }
{
    let width = leading_asterisks(line);
    if width > 0 {
        let (_, behind) = line.split_at(width);
        return Ok((Piece::Field(width), behind));
    }
    let (text, behind) = line.split_at(leading_others(line));
    Ok((Piece::Text(Vec::from_slice(alloc, text)?), behind))
}

/// How many asterisks the line begins with.
fn leading_asterisks(line: &[u8]) -> usize
    ensures value { result ≡ prefix_len (λ b. b == ASTERISK) line.now }
    ensures within { result ≤ length line.now }
{
    line.iter().take_while(|b| **b == ASTERISK).count()
}

/// How many other bytes the line begins with.
fn leading_others(line: &[u8]) -> usize
    ensures value { result ≡ position_or_len (λ b. b == ASTERISK) line.now }
    ensures within { result ≤ length line.now }
{
    line.iter().take_while(|b| **b != ASTERISK).count()
}

/// How many fields there are.
pub(crate) fn count_fields(pieces: &[Piece]) -> usize
    ensures { result ≡ count_by is_field_piece pieces.now }
{
    pieces
        .iter()
        .filter(|piece| matches!(piece, Piece::Field(_)))
        .count()
}

/// How many bytes the text has; `usize::MAX` if there are more.
pub(crate) fn text_len(pieces: &[Piece]) -> usize
    ensures { result ≡ min (parts_len (parts_of pieces.now)) usize.MAX }
{
    let mut len = 0usize;
    for piece in pieces {
        len = len.saturating_add(piece_len(piece));
    }
    len
}

/// How many bytes of the text a piece gives.
fn piece_len(piece: &Piece) -> usize
    ensures { result ≡ parts_len (piece_parts piece.now) }
{
    match piece {
        Piece::Text(text) => text.len(),
        Piece::Field(width) => *width,
        Piece::LineEnd => 1,
    }
}

/// Appends the text with these values, for which there is room.
pub(crate) fn write_pieces(bytes: &mut Vec<u8>, pieces: &[Piece], values: &[i64])
    requires values { length values.now ≡ count_by is_field (parts_of pieces.now) }
    requires room { vec_len bytes.old + parts_len (parts_of pieces.now) ≤ vec_capacity bytes.old }
    ensures { bytes.new.items ≡ bytes.old.items ++ parts_text (parts_of pieces.now) values.now }
{
    let mut values = values;
    for piece in pieces {
        match piece {
            Piece::Text(text) => append(bytes, text),
            Piece::Field(width) => values = append_first(bytes, *width, values),
            Piece::LineEnd => bytes.push_reserved(LINE_FEED),
        }
    }
}

/// Appends the first value in a field of this width, for which there is room. The result is the
/// other values.
#[tactic(auto, using(crate::proofs::PieceSteps::first_value))]
fn append_first<'a>(bytes: &mut Vec<u8>, width: usize, values: &'a [i64]) -> &'a [i64]
    requires some { 0 < length values.now }
    requires room { vec_len bytes.old + width ≤ vec_capacity bytes.old }
    ensures items { bytes.new.items ≡ bytes.old.items ++ parts_text (field width ∷ []) values.now }
    ensures others { result.now ≡ drop 1 values.now }
    ensures len { vec_len bytes.new ≡ vec_len bytes.old + width }
    ensures capacity { vec_capacity bytes.old ≤ vec_capacity bytes.new }
{
    append_value(bytes, width, values[0]);
    let (_, others) = values.split_at(1);
    others
}

/// Appends a value in a field of this width, for which there is room.
fn append_value(bytes: &mut Vec<u8>, width: usize, value: i64)
    requires { vec_len bytes.old + width ≤ vec_capacity bytes.old }
    ensures items { bytes.new.items ≡ bytes.old.items ++ field_text width value }
    ensures len { vec_len bytes.new ≡ vec_len bytes.old + width }
    ensures capacity { vec_capacity bytes.old ≤ vec_capacity bytes.new }
{
    let mut buffer = Buffer::new();
    let text = buffer.format(value).as_bytes();
    if text.len() <= width {
        append_times(bytes, BLANK, width - text.len());
        append(bytes, text);
    } else {
        append_times(bytes, ASTERISK, width);
    }
}

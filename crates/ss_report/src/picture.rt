//! The pictures of PRINT, cut into pieces once, so that each print only fills the fields in.
ghost use Rattle.std.specs.Prelude.{◌≡◌, ℤ, ◌+◌, ◌≤◌, ◌↔◌, ◌++◌, [], List, length, map, min, IfOk, IsTrue, vec_len};
ghost use Rattle.std.specs.Prelude.{vec_capacity};
ghost use Rattle.std.specs.List.{list_any};
ghost use Rattle.ss_report.specs.Pictures.{field_count, has_decimal, has_decimal_field, picture_text};

use crate::piece::{Piece, count_fields, pieces_of, text_len, write_pieces};
use std::alloc::{AllocError, AllocFailed, Global};
use std::marker::Model;
use thiserror::Error;

/// Why no picture is made of lines.
#[derive(Clone, Copy, Debug, Drop, PartialEq, Eq, Error)]
pub enum PictureFault {
    /// A stop is directly between two asterisks of a line.
    #[error("a decimal field")]
    DecimalField,
    #[error("out of memory")]
    Memory,
}

impl From<AllocError> for PictureFault {
    ghost use Rattle.std.specs.Prelude.{◌≡◌};
    ghost use Rattle.ss_report.specs.declared.picture.PictureFault.TheVariants.{Memory};

    ghost from_gives = { λ _ e. e ≡ Memory };

    fn from(_error: AllocError) -> Self {
        PictureFault::Memory
    }
}

impl<T: Drop> From<AllocFailed<T>> for PictureFault {
    ghost use Rattle.std.specs.Prelude.{◌≡◌};
    ghost use Rattle.ss_report.specs.declared.picture.PictureFault.TheVariants.{Memory};

    ghost from_gives = { λ _ e. e ≡ Memory };

    fn from(_failed: AllocFailed<T>) -> Self {
        PictureFault::Memory
    }
}

/// The lines that a PRINT writes, with their fields found (docs/LANGUAGE.md, "PRINT and SKIP").
/// Contracts see the list of the lines, each the list of its bytes.
#[derive(Debug, Drop)]
pub struct Picture {
    pieces: Vec<Piece>,
    fields: usize,
    /// How many bytes its text has; `usize::MAX` if there are more.
    text_len: usize,
}

impl Model for Picture {
    ghost use Rattle.std.specs.Prelude.{◌≡◌, ℕ, ◌-◌, ◌^◌, List, count_by, min};
    ghost use Rattle.ss_report.specs.Pictures.{is_field, picture_parts};

    ghost Value = { List (List ℕ) };

    ghost use Rattle.ss_report.specs.Pieces.{lines_with_parts, parts_len, parts_of};

    ghost view = { λ a. lines_with_parts (parts_of a.pieces.items) };

    ghost invariant = { λ a.
        (picture_parts (lines_with_parts (parts_of a.pieces.items)) ≡ parts_of a.pieces.items)
        × (a.fields ≡ count_by is_field (parts_of a.pieces.items))
        × (a.text_len ≡ min (parts_len (parts_of a.pieces.items)) (2 ^ 64 - 1)) };
}

impl Picture {
    /// The picture with these lines, which have no line ends.
    ///
    /// `DecimalField` if a stop is directly between two asterisks of one line, and else `Memory` if
    /// a growth was refused.
    pub fn new(alloc: Global, lines: Vec<Vec<u8>>) -> Result<Self, PictureFault>
        ensures ok { IfOk result (λ picture. picture ≡ map (λ l. l.items) lines.items) }
        ensures decimal_field { (result ≡ Err PictureFault.DecimalField)
            ↔ IsTrue (has_decimal_field (map (λ l. l.items) lines.items)) }
    {
        if is_any_decimal(&lines) {
            return Err(PictureFault::DecimalField);
        }
        let pieces = pieces_of(alloc, &lines)?;
        let fields = count_fields(&pieces);
        let text_len = text_len(&pieces);
        Ok(Picture {
            pieces,
            fields,
            text_len,
        })
    }

    /// How many values a PRINT of this picture has.
    pub fn fields(&self) -> usize
        ensures { result ≡ field_count self.now }
    {
        self.fields
    }

    /// How many bytes its text has, whatever the values; `usize::MAX` if there are more.
    pub(crate) fn text_len(&self) -> usize
        ensures value { result ≡ min (length (picture_text self.now [])) usize.MAX }
        ensures whatever_the_values { (values : List ℤ) →
            length (picture_text self.now values) ≡ length (picture_text self.now []) }
    {
        self.text_len
    }

    /// Appends the text with these values, for which there is room.
    pub(crate) fn write(&self, bytes: &mut Vec<u8>, values: &[i64])
        requires values { length values.now ≡ field_count self.now }
        requires room { vec_len bytes.old + length (picture_text self.now [])
            ≤ vec_capacity bytes.old }
        ensures { bytes.new.items ≡ bytes.old.items ++ picture_text self.now values.now }
    {
        write_pieces(bytes, &self.pieces, values);
    }
}

/// Whether a stop is directly between two asterisks of a line.
fn is_any_decimal(lines: &[Vec<u8>]) -> bool
    ensures { result ≡ list_any (λ l. has_decimal l.items) lines.now }
{
    lines.iter().any(|line| is_decimal(line))
}

/// Whether a stop is directly between two asterisks.
fn is_decimal(line: &[u8]) -> bool
    ensures { result ≡ has_decimal line.now }
{
    let mut rest = line;
    while let Some((_, behind)) = rest.split_first() {
        if rest.starts_with(b"*.*") {
            return true;
        }
        rest = behind;
    }
    false
}

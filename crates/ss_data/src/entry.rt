//! The kinds of the data's pieces, and the test whether a piece is a name.
ghost use Rattle.std.specs.Prelude.{◌≡◌};
ghost use Rattle.std.specs.List.{list_all};
ghost use Rattle.ss_words.specs.TextBytes.{in_run};
ghost use Rattle.ss_words.specs.TextRuns.{has_letter};
ghost use Rattle.ss_data.specs.Items.{item};
ghost use Rattle.ss_data.specs.Entries.{kind_of_item, is_mark, is_name, writes_name};

use crate::number::parse_number;
use ss_words::characters::STOP;
use ss_words::limits::LONGEST_RUN;
use ss_words::without_stops;

/// The kind of the next piece of the data (docs/LANGUAGE.md, "READ and the data").
#[derive(Clone, Copy, Debug, PartialEq, Eq)]
pub enum PieceKind {
    /// No piece is left.
    End,
    /// A number from -2^63 to 2^63 - 1.
    Number,
    /// The mark `*`, which ends an entry of an external event.
    Mark,
    /// Any other piece.
    Other,
}

/// The kind of a piece.
pub(crate) fn kind_of(piece: &[u8]) -> PieceKind
    ensures { result ≡ kind_of_item (item piece.now) }
{
    if parse_number(piece).is_some() {
        PieceKind::Number
    } else if is_mark(piece) {
        PieceKind::Mark
    } else {
        PieceKind::Other
    }
}

/// The mark that ends an entry.
pub(crate) fn is_mark(piece: &[u8]) -> bool
    ensures { result ≡ is_mark piece.now }
{
    piece == b"*".as_slice()
}

/// Whether a piece is a name, and this one but for capitals and the stops at its end.
pub(crate) fn writes_name(piece: &[u8], name: &[u8]) -> bool
    ensures { result ≡ writes_name name.now piece.now }
{
    is_name(piece) && without_stops(piece).eq_ignore_ascii_case(name)
}

fn is_name(piece: &[u8]) -> bool
    ensures { result ≡ is_name piece.now }
{
    is_run(piece) && has_letter(piece) && piece.len() <= LONGEST_RUN
}

fn is_run(piece: &[u8]) -> bool
    ensures { result ≡ list_all in_run piece.now }
{
    piece.iter().all(|byte| in_run(*byte))
}

// A letter, a digit or a stop.
#[tactic(auto, unfolding(ss_words::specs::TextBytes::in_run))]
fn in_run(byte: u8) -> bool
    ensures { result ≡ in_run byte }
{
    byte.is_ascii_alphabetic() || byte.is_ascii_digit() || byte == STOP
}

fn has_letter(piece: &[u8]) -> bool
    ensures { result ≡ has_letter piece.now }
{
    piece.iter().any(|byte| byte.is_ascii_alphabetic())
}

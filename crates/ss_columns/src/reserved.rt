//! Which words are dropped, and whether a name is in a table.
ghost use Rattle.std.specs.Prelude.{◌≡◌, map};
ghost use Rattle.ss_words.specs.Words.{kind_of};
ghost use Rattle.ss_columns.specs.Reserved as spec;

use ss_words::WordKind;

/// The reserved words that are dropped, unless they are directly after SCHEDULE or CAUSE. The
/// definitions read these tables too.
pub const DROPPED: [&[u8]; 6] = [b"A", b"AN", b"THE", b"THIS", b"MAY", b"OUTPUT"];

/// The words that keep an article directly after them.
pub const SCHEDULING: [&[u8]; 2] = [b"SCHEDULE", b"CAUSE"];

/// Whether a name is in a table.
pub fn is_among(name: &[u8], mut table: &[&[u8]]) -> bool
    ensures { result ≡ spec.is_among name.now (map (λ row. row.now) table.entry.now) }
{
    while let [row, rest @ ..] = table {
        if *row == name {
            return true;
        }
        table = rest;
    }
    false
}

/// Whether a word is a name that is in a table.
pub fn is_kind_among(kind: &WordKind, table: &[&[u8]]) -> bool
    ensures { result ≡ spec.is_kind_among (map (λ row. row.now) table.now) (kind_of kind.now) }
{
    match kind {
        WordKind::Name(name) => is_among(name.bytes(), table),
        _ => false,
    }
}

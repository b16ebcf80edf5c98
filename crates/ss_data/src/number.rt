//! The parsing of numbers in the data, with std's parser.
ghost use Rattle.std.specs.Prelude.{◌≡◌};
ghost use Rattle.ss_data.specs.Numbers.{number};

use std::str;

/// The number that a piece writes, if one in range (docs/LANGUAGE.md, "READ and the data").
pub(crate) fn parse_number(piece: &[u8]) -> Option<i64>
    ensures { result ≡ number piece.now }
{
    let text = str::from_utf8(piece).ok()?;
    text.parse::<i64>().ok()
}

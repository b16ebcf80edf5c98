//! Parts of a text, by UTF-16 code units.
ghost use Rattle.std.specs.Prelude.{◌≡◌, ◌≤◌, IfOk};
ghost use Rattle.ss_messages.specs.Units.{units_of, within_units, count_units};

use std::alloc::{AllocError, Global};

/// How many UTF-16 code units a byte of a text in UTF-8 begins.
fn units_of(byte: u8) -> u64
    ensures { result ≡ units_of byte }
{
    if byte < 128 {
        return 1;
    }
    if byte < 192 {
        return 0;
    }
    if byte < 240 { 1 } else { 2 }
}

/// The first part of a text, as far as it is within `units` UTF-16 code units.
pub fn within_units(alloc: Global, text: &[u8], units: u64) -> Result<Vec<u8>, AllocError>
    ensures { IfOk result (λ part. part.items ≡ within_units units text.now) }
{
    let mut part = Vec::new(alloc);
    let mut left = units;
    for byte in text {
        let units = units_of(*byte);
        if units > left {
            return Ok(part);
        }
        part.push(*byte)?;
        left -= units;
    }
    Ok(part)
}

/// The number of UTF-16 code units of the first part of a text that is within `units` of them.
pub fn units_within(text: &[u8], units: u64) -> u64
    ensures count { result ≡ count_units (within_units units text.now) }
    ensures bound { result ≤ units }
{
    let mut left = units;
    for byte in text {
        let units = units_of(*byte);
        if units > left {
            break;
        }
        left -= units;
    }
    units - left
}

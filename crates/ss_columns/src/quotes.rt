//! Lines of a text as they are quoted: after their number, and a caret below them.
ghost use Rattle.std.specs.Prelude.{◌≡◌, ◌++◌, OnOk, decimal, map, take};
ghost use Rattle.ss_columns.specs.Quotes as spec;

use crate::bytes::is_allowed;
use crate::column::{Place, line_of};
use itoa::Buffer;
use ss_words::characters::{BLANK, TAB};
use std::alloc::{AllocError, Global};

/// The byte that is shown in place of one that may be in no line. The definitions read it too.
pub const UNSHOWN: u8 = b'?';

/// Appends a number.
pub fn push_number(text: &mut Vec<u8>, number: usize) -> Result<(), AllocError>
    ensures { OnOk result (text.new.items ≡ text.old.items ++ decimal number) }
{
    let mut buffer = Buffer::new();
    text.extend_from_slice(buffer.format(number).as_bytes())
}

/// Appends blanks as wide as these bytes; their tabs stay.
pub fn push_blanks(text: &mut Vec<u8>, bytes: &[u8]) -> Result<(), AllocError>
    ensures { OnOk result (text.new.items
        ≡ text.old.items ++ map spec.blank_of bytes.now) }
{
    for byte in bytes {
        text.push(blank_of(*byte))?;
    }
    Ok(())
}

fn blank_of(byte: u8) -> u8
    ensures { result ≡ spec.blank_of byte }
{
    if byte == TAB { TAB } else { BLANK }
}

/// A byte as it is shown: the byte itself if it may be in a line, and else a question mark.
#[tactic(auto, unfolding(ss_words::specs::TextBytes::is_allowed))]
fn shown_byte(byte: u8) -> u8
    ensures { result ≡ spec.shown_byte byte }
{
    if is_allowed(byte) { byte } else { UNSHOWN }
}

/// Appends some bytes as they are shown: a question mark for each that may be in no line.
pub fn push_shown(text: &mut Vec<u8>, bytes: &[u8]) -> Result<(), AllocError>
    ensures { OnOk result (text.new.items ≡ text.old.items ++ spec.shown bytes.now) }
{
    for byte in bytes {
        text.push(shown_byte(*byte))?;
    }
    Ok(())
}

/// The first `count` bytes.
pub fn first_bytes(bytes: &[u8], count: usize) -> &[u8]
    ensures { result.now ≡ take count bytes.now }
{
    &bytes[..count.min(bytes.len())]
}

/// Appends the line of a place, after its number, and below it a caret at its column.
pub fn push_source(
    alloc: Global,
    text: &mut Vec<u8>,
    model: &[u8],
    place: Place,
) -> Result<(), AllocError>
    ensures { OnOk result (text.new.items
        ≡ text.old.items ++ spec.source_text model.now place.line place.column) }
{
    let line = line_of(model, place.line);
    let mut mark = Vec::new(alloc);
    push_number(&mut mark, place.line)?;
    mark.extend_from_slice(b"> ")?;
    text.extend_from_slice(&mark)?;
    push_shown(text, line)?;
    text.extend_from_slice(b"\n")?;
    match place.column {
        Some(column) => push_caret(text, &mark, first_bytes(line, column.saturating_sub(1))),
        None => Ok(()),
    }
}

/// Appends a caret after blanks as wide as a mark and the bytes before it.
pub fn push_caret(text: &mut Vec<u8>, mark: &[u8], before: &[u8]) -> Result<(), AllocError>
    ensures { OnOk result (text.new.items
        ≡ text.old.items ++ spec.caret_text mark.now before.now) }
{
    push_blanks(text, mark)?;
    push_blanks(text, before)?;
    text.extend_from_slice(b"^\n")
}

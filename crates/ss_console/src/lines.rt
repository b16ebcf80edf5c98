//! The lines of a reader or of a text, cut at the limit of a line.
ghost use Rattle.std.specs.Prelude.{◌≡◌, ◌<◌, IfOk, Ok, false, option_map};
ghost use Rattle.std.specs.Vec.{vec_capacity};
ghost use Rattle.ss_console.specs.Lines.{Gives, IsAtEnd, is_stop, keep, known_lines, ByteGiven, IsTaken};
ghost use Rattle.ss_console.specs.Faults.{lines_read};

use crate::console::ReadFault;
use std::io::{ErrorKind, Read};

/// The most bytes of a line that is obeyed.
pub const LONGEST_LINE: usize = 200;

/// The byte that ends a line.
const LINE_FEED: u8 = b'\n';

/// Whether a byte separates the words of a line.
fn is_stop(byte: u8) -> bool
    ensures { result ≡ is_stop byte }
{
    byte == b' ' || byte == b'\t' || byte == b'\r'
}

/// Keeps one more byte of a line. Past the limit one byte is kept, a stop only if no other came.
fn keep(line: &mut Vec<u8>, byte: u8)
    requires { LONGEST_LINE < vec_capacity line.old }
    ensures kept { line.new.items ≡ keep line.old.items byte }
    ensures room { LONGEST_LINE < vec_capacity line.new }
{
    if line.len() <= LONGEST_LINE {
        let _ = line.push(byte);
    } else if is_stop(line[LONGEST_LINE]) {
        line[LONGEST_LINE] = byte;
    }
}

/// The next byte, if there is one.
#[tactic(auto, using(crate::proofs::KnownBytes::kept_bytes))]
fn next_byte<R: Read>(reader: &mut R) -> Result<Option<u8>, ReadFault>
    ensures { IfOk result
        (λ byte. ByteGiven byte (R.remaining reader.old) (R.remaining reader.new)) }
{
    let mut byte = [0u8; 1];
    for _ in 0..u64::MAX {
        match reader.read(&mut byte) {
            Ok(0) => return Ok(None),
            Ok(_) => return Ok(Some(byte[0])),
            Err(error) => {
                if error.kind() != ErrorKind::Interrupted {
                    return Err(ReadFault);
                }
            }
        }
    }
    Err(ReadFault)
}

/// The next line of a reader, without its line feed; a last line needs none. `false` at the end.
pub(crate) fn next_line<R: Read>(reader: &mut R, line: &mut Vec<u8>) -> Result<bool, ReadFault>
    requires { LONGEST_LINE < vec_capacity line.old }
    ensures lines { IfOk result (λ some. Gives (known_lines (R.remaining reader.old))
        (known_lines (R.remaining reader.new)) (lines_read some line.new.items)) }
    ensures end { result ≡ Ok false → IsAtEnd (known_lines (R.remaining reader.new)) }
    ensures room { LONGEST_LINE < vec_capacity line.new }
{
    line.clear();
    for _ in 0..u64::MAX {
        match next_byte(reader)? {
            None => return Ok(!line.is_empty()),
            Some(LINE_FEED) => return Ok(true),
            Some(byte) => keep(line, byte),
        }
    }
    Err(ReadFault)
}

/// The next line of a text, and the text after its line feed; a last line needs none. The kept part
/// of the line is left in `line`. `None` at the end.
pub(crate) fn take_line<'a>(text: &'a [u8], line: &mut Vec<u8>) -> Option<(&'a [u8], &'a [u8])>
    requires { LONGEST_LINE < vec_capacity line.old }
    ensures taken { IsTaken text.now
        (option_map (λ parts. (parts.0.now, parts.1.now)) result) line.new.items }
    ensures room { LONGEST_LINE < vec_capacity line.new }
{
    line.clear();
    for at in 0..text.len() {
        if text[at] == LINE_FEED {
            return Some((&text[..at], &text[at + 1..]));
        }
        keep(line, text[at]);
    }
    if text.is_empty() {
        return None;
    }
    Some((text, &[]))
}

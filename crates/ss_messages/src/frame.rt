//! Messages are read from a stream, which may come in any pieces.
ghost use Rattle.std.specs.Prelude.{◌≡◌, ◌∷◌, [], Err, IfOk, Option, option_map, length};
ghost use Rattle.std.specs.Io.KnownBytes.{Consumes};
ghost use Rattle.ss_messages.specs.Frames.{number_in, without_return, length_in, is_blank};
ghost use Rattle.ss_messages.specs.Frames.{IsRead, IsMalformed, HasLength, HasNoLength, IsByte};
ghost use Rattle.ss_messages.specs.Frames.{GoesOn, IsNoHead, IsSplit, first_message, malformed, cut};
ghost use Rattle.ss_messages.specs.declared.frame.FrameFault.TheVariants.{Malformed, Read as Cut};

use std::alloc::{AllocError, Global};
use std::io::{ErrorKind, Read};
use thiserror::Error;

/// The most bytes of a body: 64 MiB.
pub const LONGEST_MESSAGE: usize = 67_108_864;

/// The most bytes of a line of a head.
const LONGEST_LINE: usize = 4_096;

/// The beginning of the line of a head that gives the length of the body.
const LENGTH_KEY: &[u8] = b"Content-Length: ";

/// Why no message was read.
#[derive(Clone, Copy, Debug, Drop, PartialEq, Eq, Error)]
pub enum FrameFault {
    /// A head gives no length up to `LONGEST_MESSAGE`, or has a line of more than 4,096 bytes.
    #[error("no message")]
    Malformed,
    /// The stream ended within a message, or reading failed.
    #[error("cannot read")]
    Read,
    /// Memory was refused.
    #[error("out of memory")]
    Memory,
}

impl From<AllocError> for FrameFault {
    ghost use Rattle.std.specs.Prelude.{◌≡◌};
    ghost use Rattle.ss_messages.specs.declared.frame.FrameFault.TheVariants.{Memory};

    ghost from_gives = { λ _ fault. fault ≡ Memory };

    fn from(_error: AllocError) -> FrameFault {
        FrameFault::Memory
    }
}

/// The next byte, if there is one.
#[tactic(auto, using(crate::proofs::Streams::kept_bytes))]
fn next_byte<R: Read>(reader: &mut R) -> Result<Option<u8>, FrameFault>
    ensures byte { IfOk result
        (λ byte. IsByte byte (R.remaining reader.old) (R.remaining reader.new)) }
    ensures err { result ≡ Err Malformed → ⊥ }
{
    let mut byte = [0u8; 1];
    for _ in 0..u64::MAX {
        match reader.read(&mut byte) {
            Ok(0) => return Ok(None),
            Ok(_) => return Ok(Some(byte[0])),
            Err(error) => {
                if error.kind() != ErrorKind::Interrupted {
                    return Err(FrameFault::Read);
                }
            }
        }
    }
    Err(FrameFault::Read)
}

/// The number that digits say, if it is no longer than a body may be.
fn number_in(digits: &[u8]) -> Option<usize>
    ensures { result ≡ number_in digits.now }
{
    if digits.is_empty() {
        return None;
    }
    let mut number = 0usize;
    for byte in digits {
        if *byte < b'0' || *byte > b'9' {
            return None;
        }
        number = 10 * number + (*byte - b'0') as usize;
        if number > LONGEST_MESSAGE {
            return None;
        }
    }
    Some(number)
}

/// A line without the carriage return at its end.
fn without_return(line: &[u8]) -> &[u8]
    ensures { result.now ≡ without_return line.now }
{
    if !line.is_empty() && line[line.len() - 1] == b'\r' {
        return &line[..line.len() - 1];
    }
    line
}

/// The length that a line of a head says.
#[tactic(auto, unfolding(crate::specs::Frames::length_in))]
fn length_in(line: &[u8]) -> Option<usize>
    ensures { result ≡ length_in line.now }
{
    match without_return(line).strip_prefix(LENGTH_KEY) {
        Some(digits) => number_in(digits),
        None => None,
    }
}

/// Whether a line ends a head.
fn is_blank(line: &[u8]) -> bool
    ensures { result ≡ is_blank line.now }
{
    without_return(line).is_empty()
}

/// The part of a head that was read: the length that its lines say, and a part of a line.
#[derive(Drop)]
struct Head {
    said: Option<usize>,
    line: Vec<u8>,
}

impl Head {
    /// Takes one byte more. Gives the length that the head says, if the byte ends the head.
    #[tactic(auto, unfolding(crate::specs::Frames::head))]
    fn take(&mut self, byte: u8) -> Result<Option<usize>, FrameFault>
        ensures ok { IfOk result (λ end. GoesOn end self.old.said self.old.line.items byte
            self.new.said self.new.line.items) }
        ensures malformed { result ≡ Err Malformed →
            IsNoHead self.old.said self.old.line.items byte }
        ensures whole { result ≡ Err Cut → ⊥ }
    {
        if byte == b'\n' {
            if is_blank(&self.line) {
                return match self.said {
                    Some(length) => Ok(Some(length)),
                    None => Err(FrameFault::Malformed),
                };
            }
            self.said = self.said.or(length_in(&self.line));
            self.line.clear();
            return Ok(None);
        }
        if self.line.len() >= LONGEST_LINE {
            return Err(FrameFault::Malformed);
        }
        self.line.extend_from_slice(&[byte])?;
        Ok(None)
    }
}

/// The next byte of a message that has begun.
fn next_byte_within<R: Read>(reader: &mut R) -> Result<u8, FrameFault>
    ensures byte { IfOk result
        (λ b. Consumes (R.remaining reader.old) (R.remaining reader.new) (b ∷ [])) }
    ensures err { result ≡ Err Malformed → ⊥ }
{
    match next_byte(reader)? {
        Some(byte) => Ok(byte),
        None => Err(FrameFault::Read),
    }
}

/// The length that a head says which begins with this byte.
fn read_head<R: Read>(alloc: Global, reader: &mut R, first: u8) -> Result<usize, FrameFault>
    ensures ok { IfOk result
        (λ n. HasLength (R.remaining reader.old) (R.remaining reader.new) first n) }
    ensures malformed { result ≡ Err Malformed → HasNoLength (R.remaining reader.old) first }
{
    let mut head = Head {
        said: None,
        line: Vec::new(alloc),
    };
    let mut byte = first;
    for _ in 0..u64::MAX {
        if let Some(length) = head.take(byte)? {
            return Ok(length);
        }
        byte = next_byte_within(reader)?;
    }
    Err(FrameFault::Read)
}

/// Reads `count` bytes.
fn read_body<R: Read>(alloc: Global, reader: &mut R, count: usize) -> Result<Vec<u8>, FrameFault>
    ensures ok { IfOk result
        (λ body. Consumes (R.remaining reader.old) (R.remaining reader.new) body.items) }
    ensures length { IfOk result (λ body. length body.items ≡ count) }
    ensures err { result ≡ Err Malformed → ⊥ }
{
    let mut body = vec![in alloc; 0u8; count]?;
    match reader.read_exact(&mut body) {
        Ok(()) => Ok(body),
        Err(_) => Err(FrameFault::Read),
    }
}

/// The body of the next message of a stream: a head of lines, one of which says `Content-Length: `
/// and how many bytes the body has, an empty line, and the body. Other lines of a head are passed
/// over. `None` at the end of the stream.
pub fn read_message<R: Read>(alloc: Global, reader: &mut R) -> Result<Option<Vec<u8>>, FrameFault>
    ensures ok { IfOk result (λ body. IsRead (option_map (λ b. b.items) body)
        (R.remaining reader.old) (R.remaining reader.new)) }
    ensures malformed { result ≡ Err Malformed → IsMalformed (R.remaining reader.old) }
{
    let Some(first) = next_byte(reader)? else {
        return Ok(None);
    };
    let length = read_head(alloc, reader, first)?;
    Ok(Some(read_body(alloc, reader, length)?))
}

/// The body of the first message of a text, and the bytes after it; `None` if the text is empty.
///
/// `Read` if the text ends within a message.
pub fn split_message<'a>(
    alloc: Global,
    text: &'a [u8],
) -> Result<Option<(&'a [u8], &'a [u8])>, FrameFault>
    ensures ok { IfOk result (λ parts. IsSplit text.now
        (option_map (λ p. (p.0.now, p.1.now)) parts)) }
    ensures malformed { result ≡ Err Malformed → first_message text.now ≡ malformed }
    ensures cut { result ≡ Err Cut → first_message text.now ≡ cut }
{
    let mut head = Head {
        said: None,
        line: Vec::new(alloc),
    };
    for at in 0..text.len() {
        if let Some(length) = head.take(text[at])? {
            return match text[at + 1..].split_at_checked(length) {
                Some(parts) => Ok(Some(parts)),
                None => Err(FrameFault::Read),
            };
        }
    }
    if text.is_empty() {
        return Ok(None);
    }
    Err(FrameFault::Read)
}

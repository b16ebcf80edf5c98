//! The one line that a session writes for a refused model.
ghost use Rattle.std.specs.Prelude.{◌≡◌, IfOk};
ghost use Rattle.ss_session.specs.Transcript.{refusal_line};

use itoa::Buffer;
use std::alloc::{AllocError, Global};

/// The line of a refused model: `MODEL REFUSED r LINE l`, with a rule's code and a line.
pub fn refusal_text(alloc: Global, code: &str, line: usize) -> Result<Vec<u8>, AllocError>
    ensures { IfOk result (λ text. text.items ≡ refusal_line code.now line) }
{
    let mut buffer = Buffer::new();
    let mut text = Vec::from_slice(alloc, b"MODEL REFUSED ")?;
    text.extend_from_slice(code.as_bytes())?;
    text.extend_from_slice(b" LINE ")?;
    text.extend_from_slice(buffer.format(line).as_bytes())?;
    text.extend_from_slice(b"\n")?;
    Ok(text)
}

//! Sources.
ghost use Rattle.std.specs.Prelude.{◌≡◌, IfOk};
ghost use Rattle.ss_messages.specs.Bodies.{file_name, source_text};

use crate::counting::Counting;
use crate::escape::push_quoted_text;
use std::alloc::{AllocError, Global};

/// The model, as an editor knows it.
#[derive(Clone, Copy)]
pub struct Source<'a> {
    /// Its path.
    pub path: &'a [u8],
    /// From which numbers the editor counts its lines and columns.
    pub counting: Counting,
}

/// The name of the file at a path: the bytes after its last slash.
#[tactic(auto, unfolding(crate::specs::Bodies::name_within))]
fn file_name(path: &[u8]) -> &[u8]
    ensures { result.now ≡ file_name path.now }
{
    let mut name = path;
    let mut rest = path;
    while let [byte, after @ ..] = rest {
        if *byte == b'/' {
            name = after;
        }
        rest = after;
    }
    name
}

/// The source at a path, which has the name of its file.
#[tactic(auto, unfolding(crate::specs::Bodies::source_text))]
pub(crate) fn source_text(alloc: Global, path: &[u8]) -> Result<Vec<u8>, AllocError>
    ensures { IfOk result (λ text. text.items ≡ source_text path.now) }
{
    let mut text = Vec::from_slice(alloc, b"{\"name\":")?;
    push_quoted_text(&mut text, file_name(path))?;
    text.extend_from_slice(b",\"path\":")?;
    push_quoted_text(&mut text, path)?;
    text.extend_from_slice(b"}")?;
    Ok(text)
}

//! Names at a place of the text.

/// A name at a place of the text.
#[derive(Clone, Copy)]
pub struct Spoken<'a> {
    /// Its bytes.
    pub name: &'a [u8],
    /// The line on which it is.
    pub line: usize,
}

//! A text that is asked at the prompt.
use crate::line::Line;

/// A text that may be an expression, a condition, a list or the name of a class, and whether a
/// number is among its words.
#[derive(Drop)]
pub(crate) struct AskedText {
    /// The text.
    pub(crate) text: Line,
    /// Whether a number is among its words.
    pub(crate) is_numbered: bool,
}

//! A break line as it is shown.
ghost use Rattle.std.specs.Prelude.{◌≡◌, option_map};

use std::marker::Model;

/// A break line, and the text of its condition, if it has one.
#[derive(Drop)]
pub struct ShownBreak {
    line: usize,
    text: Option<Vec<u8>>,
}

impl Model for ShownBreak {
    ghost use Rattle.std.specs.Prelude.{option_map};
    ghost use Rattle.ss_debug.specs.BreakTable.{ShownBreak};

    ghost Value = { ShownBreak };

    ghost view = { λ a. record { line = a.line; text = option_map (λ t. t.items) a.text } };
}

impl ShownBreak {
    /// A line, and a text, if there is one.
    pub(crate) fn new(line: usize, text: Option<Vec<u8>>) -> ShownBreak
        ensures { result ≡ record { line = line; text = option_map (λ t. t.items) text } }
    {
        ShownBreak { line, text }
    }

    /// The line.
    pub fn line(&self) -> usize
        ensures { result ≡ self.now.line }
    {
        self.line
    }

    /// The text of its condition, if it has one.
    pub fn text(&self) -> Option<&[u8]>
        ensures { option_map (λ t. t.now) result ≡ self.now.text }
    {
        match &self.text {
            None => None,
            Some(text) => Some(text.as_slice()),
        }
    }
}

//! Arguments that a request needs.
ghost use Rattle.std.specs.Prelude.{◌≡◌};
ghost use Rattle.ss_messages.specs.Missing.{wanted_text};

/// An argument that a request needs.
#[derive(Clone, Copy, Debug, PartialEq, Eq)]
pub enum Argument {
    /// `model` of launch.
    Model,
    /// `expression` of evaluate.
    Expression,
    /// `name` of dataBreakpointInfo.
    Name,
    /// `text` of completions.
    Typed,
    /// `column` of completions.
    Column,
    /// `line` of gotoTargets.
    Line,
    /// `targetId` of goto.
    Target,
}

impl Argument {
    /// The sentence for a missing argument: its name, and the kind of value that it must be.
    pub fn wanted_text(self) -> &'static [u8]
        ensures { result.now ≡ wanted_text self }
    {
        match self {
            Argument::Model => b"model: a path is wanted",
            Argument::Expression => b"expression: a text is wanted",
            Argument::Name => b"name: a text is wanted",
            Argument::Typed => b"text: a text is wanted",
            Argument::Column => b"column: a number is wanted",
            Argument::Line => b"line: a number is wanted",
            Argument::Target => b"targetId: a number is wanted",
        }
    }
}

//! What is done with the question that a text asks.
ghost use Rattle.std.specs.Prelude.{◌≡◌};
ghost use Rattle.ss_prompt.specs.Manners.{manner_verb, manner_word, moves};

use crate::line::name_of_word;
use ss_debug::Name;

/// What is done with the question that a text asks: an expression, a condition, a list or the name
/// of a class.
#[derive(Clone, Copy)]
pub enum Manner {
    /// WHY: the newest step that changed it.
    Why,
    /// HISTORY: the steps that changed it.
    History,
    /// RUN CHANGE: forward to the next change.
    RunChange,
    /// BACK CHANGE: back to the last change.
    BackChange,
    /// DISPLAY: its value is printed at each stop.
    Display,
    /// UNDISPLAY: its value is printed at stops no more.
    Undisplay,
}

impl Manner {
    /// The first word of the command.
    fn verb(self) -> &'static [u8]
        ensures { result.now ≡ manner_verb self }
    {
        match self {
            Manner::Why => b"WHY",
            Manner::History => b"HISTORY",
            Manner::RunChange => b"RUN",
            Manner::BackChange => b"BACK",
            Manner::Display => b"DISPLAY",
            Manner::Undisplay => b"UNDISPLAY",
        }
    }

    /// The first word of the command as a name.
    pub(crate) fn word(self) -> Option<Name>
        ensures { result ≡ manner_word self }
    {
        name_of_word(self.verb())
    }

    /// Whether it moves the debugger to another state of the run.
    pub(crate) fn moves(self) -> bool
        ensures { result ≡ moves self }
    {
        matches!(self, Manner::RunChange | Manner::BackChange)
    }
}

//! What the rows of the table of the commands make.
ghost use Rattle.std.specs.Prelude.{◌≡◌};
ghost use Rattle.ss_prompt.specs.Table.{asks};

use crate::manner::Manner;
use crate::until::Until;
use ss_inspect::Overview;

/// A command of one or two words, after which no word may come.
#[derive(Clone, Copy)]
pub enum Single {
    /// OUT: forward out of a section.
    Out,
    /// BACK OUT: back to the statement that called it.
    BackOut,
    /// GO END: forward to the end.
    GoEnd,
    /// WHY CAUSE: what brought the last frame about.
    WhyCause,
    /// BACK CAUSE: back to it.
    BackCause,
    /// BREAKS: the break lines.
    Breaks,
    /// READS: what the next statement looks at.
    Reads,
    /// WARNINGS: the warnings on the model.
    Warnings,
    /// SHOW CHANGED: the changes of the last step, or since the state that a movement left.
    Changed,
    /// SHOW and the word of an overview.
    Overview(Overview),
}

/// What a row makes of the words after its own.
#[derive(Clone, Copy)]
pub enum Makes {
    /// Nothing: the line is one of docs/DEBUGGER.md, or ssdb reads it.
    Elsewhere,
    /// Nothing: the row is of a question, which may also come after other words than SHOW.
    Asked,
    /// Nothing: the row has further help on the words of another one.
    Also,
    /// This command, if no word comes.
    Alone(Single),
    /// A movement over statements, as often as STEP makes steps.
    Over,
    /// The same, back.
    BackOver,
    /// Back to before a time.
    BackTo,
    /// To a position.
    Go,
    /// A movement to a state in which a condition holds.
    Until(Until),
    /// A command on a question, or else on a text.
    Question(Manner),
    /// HISTORY of a question or a text, and perhaps a number of rows.
    History,
    /// UNDISPLAY, of nothing, a question or a text.
    Undisplay,
    /// The answer to a question, rows of entities, or another sight of them.
    Show,
    /// The lists in which an entity is.
    Places,
    /// Lines of the model.
    List,
    /// A break line at a section, or one with a condition.
    Break,
    /// No break line at a section any more, or none at all.
    Clear,
    /// Forward, with a stop at a line this once.
    Once,
    /// The names of the model, or one of them.
    Names,
    /// The help on all commands, or on a word.
    Help,
}

impl Makes {
    /// Whether a question may come after the words of a row, and no row has further words there.
    pub(crate) fn asks(self) -> bool
        ensures { result ≡ asks self }
    {
        matches!(self, Makes::Question(_) | Makes::History | Makes::Undisplay)
    }
}

//! The ways to a state in which a condition holds.
ghost use Rattle.std.specs.Prelude.{◌≡◌};
ghost use Rattle.ss_prompt.specs.Points.{until_verb, until_word};
ghost use Rattle.ss_prompt.specs.Until.{seeks_back};

use crate::line::name_of_word;
use ss_debug::Name;

/// A movement to a state in which a condition holds.
#[derive(Clone, Copy)]
pub enum Until {
    /// RUN UNTIL: forward to the next one.
    Run,
    /// BACK UNTIL: back to the one before.
    Back,
    /// GO FIRST: to the first one of all.
    First,
}

impl Until {
    /// The first word of the command.
    fn verb(self) -> &'static [u8]
        ensures { result.now ≡ until_verb self }
    {
        match self {
            Until::Run => b"RUN",
            Until::Back => b"BACK",
            Until::First => b"GO",
        }
    }

    /// The first word of the command as a name.
    pub(crate) fn word(self) -> Option<Name>
        ensures { result ≡ until_word self }
    {
        name_of_word(self.verb())
    }

    /// Whether the movement from one position to another goes back.
    pub(crate) fn goes_back(self, from: u64, to: u64) -> bool
        ensures { result ≡ seeks_back self from to }
    {
        match self {
            Until::Run => false,
            Until::Back => true,
            Until::First => to < from,
        }
    }
}

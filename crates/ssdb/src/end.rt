//! How a dialogue ends.
use ss_console::Cut;
use std::alloc::AllocError;
use thiserror::Error;

/// How a dialogue over an accepted model ends.
#[derive(Clone, Copy, Debug, PartialEq, Eq)]
pub enum PromptEnd {
    /// The state that is held then is not faulted.
    Done,
    /// The state that is held then is faulted.
    Faulted,
}

/// The end of a dialogue over an accepted model.
#[derive(Drop)]
pub struct Held {
    /// How it ended.
    pub end: PromptEnd,
    /// The lines that lead a new dialogue to the same place; none if memory for them was refused.
    pub resume: Option<Vec<u8>>,
}

/// Why there was no dialogue, or why it was cut short.
#[derive(Clone, Copy, Debug, Drop, PartialEq, Eq, Error)]
pub enum PromptFault {
    /// The model is refused, and its line is written.
    #[error("the model is refused")]
    Refused,
    /// A line could not be read, a text not be written, or there were too many lines.
    #[error("the dialogue was cut short")]
    Cut(Cut),
    /// Memory was refused before the dialogue; nothing is written.
    #[error("out of memory")]
    Memory,
}

impl From<AllocError> for PromptFault {
    ghost use Rattle.std.specs.Prelude.{◌≡◌};
    ghost use Rattle.ssdb.specs.declared.end.PromptFault.TheVariants.{Memory};

    ghost from_gives = { λ _ fault. fault ≡ Memory };

    fn from(_error: AllocError) -> PromptFault {
        PromptFault::Memory
    }
}

impl From<Cut> for PromptFault {
    ghost use Rattle.std.specs.Prelude.{◌≡◌};
    ghost use Rattle.ssdb.specs.declared.end.PromptFault.TheVariants as faults;

    ghost from_gives = { λ cut fault. fault ≡ faults.Cut cut };

    fn from(cut: Cut) -> PromptFault {
        PromptFault::Cut(cut)
    }
}

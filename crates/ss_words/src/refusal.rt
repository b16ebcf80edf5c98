//! The reasons for which a reading of plain words stops, each without its line.
use std::alloc::{AllocError, AllocFailed};

/// Why a reading of plain words stops; the word that it stops at is the next one.
#[derive(Clone, Copy, Debug, PartialEq, Eq)]
pub enum Refusal {
    /// No program goes on with this word, or none ends here.
    Unexpected,
    /// This word passes a limit.
    PastLimit,
    /// The memory for the words that were read was refused.
    Memory,
}

impl From<AllocError> for Refusal {
    ghost use Rattle.std.specs.Prelude.{◌≡◌};
    ghost use Rattle.ss_words.specs.declared.refusal.Refusal.TheVariants.{Memory};

    ghost from_gives = { λ _ e. e ≡ Memory };

    fn from(_error: AllocError) -> Self {
        Refusal::Memory
    }
}

impl<T: Drop> From<AllocFailed<T>> for Refusal {
    ghost use Rattle.std.specs.Prelude.{◌≡◌};
    ghost use Rattle.ss_words.specs.declared.refusal.Refusal.TheVariants.{Memory};

    ghost from_gives = { λ _ e. e ≡ Memory };

    fn from(_failed: AllocFailed<T>) -> Self {
        Refusal::Memory
    }
}

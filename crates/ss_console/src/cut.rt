//! The reasons for which a dialogue is cut short, from the faults of its console.
use crate::console::{PutFault, ReadFault};
use thiserror::Error;

/// Why a dialogue was cut short.
#[derive(Clone, Copy, Debug, Drop, PartialEq, Eq, Error)]
pub enum Cut {
    /// A line could not be read.
    #[error("cannot read")]
    Read,
    /// A text could not be written.
    #[error("cannot write")]
    Write,
    /// 2^64 - 1 lines were answered.
    #[error("too many lines")]
    Count,
}

impl From<ReadFault> for Cut {
    ghost use Rattle.std.specs.Prelude.{◌≡◌};
    ghost use Rattle.ss_console.specs.declared.cut.Cut.TheVariants.{Read};

    ghost from_gives = { λ _ cut. cut ≡ Read };

    fn from(_fault: ReadFault) -> Cut {
        Cut::Read
    }
}

impl From<PutFault> for Cut {
    ghost use Rattle.std.specs.Prelude.{◌≡◌};
    ghost use Rattle.ss_console.specs.declared.cut.Cut.TheVariants.{Write};

    ghost from_gives = { λ _ cut. cut ≡ Write };

    fn from(_fault: PutFault) -> Cut {
        Cut::Write
    }
}

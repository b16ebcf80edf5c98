//! The ends of a session, and the exit status of each.
ghost use Rattle.std.specs.Prelude.{◌≡◌};
ghost use Rattle.ss_session.specs.Exit.{status_of};

use crate::outlet::PutFault;
use std::alloc::AllocError;
use thiserror::Error;

/// Why the turns of a session were cut short.
#[derive(Clone, Copy, Debug, Drop, PartialEq, Eq)]
pub(crate) enum Cut {
    Memory,
    Write,
}

impl From<AllocError> for Cut {
    ghost use Rattle.std.specs.Prelude.{◌≡◌};
    ghost use Rattle.ss_session.specs.declared.ending.Cut.TheVariants.{Memory};

    ghost from_gives = { λ _ cut. cut ≡ Memory };

    fn from(_error: AllocError) -> Cut {
        Cut::Memory
    }
}

impl From<PutFault> for Cut {
    ghost use Rattle.std.specs.Prelude.{◌≡◌};
    ghost use Rattle.ss_session.specs.declared.ending.Cut.TheVariants.{Write};

    ghost from_gives = { λ _ cut. cut ≡ Write };

    fn from(_fault: PutFault) -> Cut {
        Cut::Write
    }
}

/// How a session over an accepted model ends.
#[derive(Clone, Copy, Debug, PartialEq, Eq)]
pub enum End {
    /// The last state is not faulted.
    Done,
    /// The last state is faulted.
    RunFault,
}

/// Why a session does not end with an `End`.
#[derive(Clone, Copy, Debug, Drop, PartialEq, Eq, Error)]
pub enum SessionFault {
    /// The model's text is refused, by a rule L or P.
    #[error("the model's text is refused")]
    Text,
    /// The spelled model is refused, by a rule C.
    #[error("the model breaks a rule")]
    Check,
    /// The outlet failed.
    #[error("cannot write")]
    Write,
    /// Memory was refused.
    #[error("out of memory")]
    Memory,
}

impl From<AllocError> for SessionFault {
    ghost use Rattle.std.specs.Prelude.{◌≡◌};
    ghost use Rattle.ss_session.specs.declared.ending.SessionFault.TheVariants.{Memory};

    ghost from_gives = { λ _ fault. fault ≡ Memory };

    fn from(_error: AllocError) -> SessionFault {
        SessionFault::Memory
    }
}

impl From<Cut> for SessionFault {
    ghost use Rattle.std.specs.Prelude.{◌≡◌};
    ghost use Rattle.ss_session.specs.Private.{fault_of};

    ghost from_gives = { λ cut fault. fault ≡ fault_of cut };

    fn from(cut: Cut) -> SessionFault {
        match cut {
            Cut::Memory => SessionFault::Memory,
            Cut::Write => SessionFault::Write,
        }
    }
}

/// The program's exit status for the end of a session: 0 done, 2 if the outlet failed, 3 for a
/// refused model, 4 if the last state is faulted, 5 if memory was refused.
pub fn exit_status(outcome: &Result<End, SessionFault>) -> u8
    ensures { result ≡ status_of outcome.now }
{
    match outcome {
        Ok(End::Done) => 0,
        Ok(End::RunFault) => 4,
        Err(SessionFault::Text) => 3,
        Err(SessionFault::Check) => 3,
        Err(SessionFault::Write) => 2,
        Err(SessionFault::Memory) => 5,
    }
}

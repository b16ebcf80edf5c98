//! The faults that end a session before its end.
use crate::channel::SendFault;
use ss_messages::{FrameFault, RequestFault};
use std::alloc::AllocError;
use thiserror::Error;

/// A fault that ends a session before its end.
#[derive(Clone, Copy, Debug, Drop, PartialEq, Eq, Error)]
pub enum SessionFault {
    /// The bytes that came are no message, or no request.
    #[error("no request")]
    NoRequest,
    /// The channel can't be read, or ends within a message.
    #[error("cannot read")]
    CannotRead,
    /// The channel takes nothing more.
    #[error("cannot write")]
    CannotWrite,
    /// Memory was refused.
    #[error("out of memory")]
    Memory,
    /// 2^53 messages were sent, as many as have numbers, or 2^64 - 1 requests were answered.
    #[error("too many messages")]
    Count,
}

impl From<AllocError> for SessionFault {
    ghost use Rattle.std.specs.Prelude.{◌≡◌};
    ghost use Rattle.ss_serve.specs.declared.fault.SessionFault.TheVariants.{Memory};

    ghost from_gives = { λ _ fault. fault ≡ Memory };

    fn from(_error: AllocError) -> SessionFault {
        SessionFault::Memory
    }
}

impl From<SendFault> for SessionFault {
    ghost use Rattle.std.specs.Prelude.{◌≡◌};
    ghost use Rattle.ss_serve.specs.declared.fault.SessionFault.TheVariants.{CannotWrite};

    ghost from_gives = { λ _ fault. fault ≡ CannotWrite };

    fn from(_error: SendFault) -> SessionFault {
        SessionFault::CannotWrite
    }
}

impl From<FrameFault> for SessionFault {
    ghost use Rattle.std.specs.Prelude.{◌≡◌};
    ghost use Rattle.ss_serve.specs.Faults.{fault_of_frame};

    ghost from_gives = { λ frame fault. fault ≡ fault_of_frame frame };

    fn from(fault: FrameFault) -> SessionFault {
        match fault {
            FrameFault::Malformed => SessionFault::NoRequest,
            FrameFault::Read => SessionFault::CannotRead,
            FrameFault::Memory => SessionFault::Memory,
        }
    }
}

impl From<RequestFault> for SessionFault {
    ghost use Rattle.std.specs.Prelude.{◌≡◌};
    ghost use Rattle.ss_serve.specs.Faults.{fault_of_request};

    ghost from_gives = { λ request fault. fault ≡ fault_of_request request };

    fn from(fault: RequestFault) -> SessionFault {
        match fault {
            RequestFault::NoRequest => SessionFault::NoRequest,
            RequestFault::Memory => SessionFault::Memory,
        }
    }
}

//! The reasons for which the program stops before its end.
ghost use Rattle.std.specs.Prelude.{◌≡◌};
ghost use Rattle.ssdap.specs.Stops.{stop_status};

use ss_serve::SessionFault;

/// A reason for which the program stops before its end.
#[derive(Clone, Copy, Debug, Drop, PartialEq, Eq)]
pub enum Stop {
    /// The words are none that the program takes, or ask for its help or version: it has said so,
    /// and this is its status.
    Words(u8),
    /// Memory for the words was refused.
    Memory,
    /// The session ended before its end.
    Session(SessionFault),
}

impl Stop {
    /// The exit status.
    pub fn status(&self) -> u8
        ensures { result ≡ stop_status self.now }
    {
        match self {
            Stop::Words(status) => *status,
            Stop::Memory | Stop::Session(SessionFault::Memory) => 5,
            Stop::Session(_) => 2,
        }
    }
}

impl From<SessionFault> for Stop {
    ghost use Rattle.std.specs.Prelude.{◌≡◌};
    ghost use Rattle.ssdap.specs.declared.stop.Stop.TheVariants.{Session};

    ghost from_gives = { λ fault stop. stop ≡ Session fault };

    fn from(fault: SessionFault) -> Stop {
        Stop::Session(fault)
    }
}

/// Says on standard error why the program stopped.
pub fn tell<R: Eprint>(rt: &R, stop: Stop) {
    let _ = match stop {
        Stop::Words(_) => Ok(()),
        Stop::Memory => eprintln!(rt; "ssdap: out of memory"),
        Stop::Session(fault) => eprintln!(rt; "ssdap: {fault}"),
    };
}

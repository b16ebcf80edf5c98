//! The refusals of the checker and the rules that they name.

use crate::wrong::Wrong;
use std::alloc::{AllocError, AllocFailed};
use thiserror::Error;

/// A rule of the language that a spelled program breaks (docs/LANGUAGE.md, "Rules of the checker").
#[derive(Clone, Copy, Debug, PartialEq, Eq)]
pub enum CheckRule {
    /// C1: a name declared twice.
    DeclaredTwice,
    /// C2: a class that does not exist or is of another kind.
    WrongClass,
    /// C3: a name used as another kind than its own.
    WrongUse,
    /// C4: a set with no owner, or a second.
    WrongOwner,
    /// C5: a set with no member class, or a second.
    WrongMember,
    /// C6: a key that is no attribute of its class.
    WrongKey,
    /// C7: another count of values than is needed.
    WrongCount,
    /// C8: an event without its section, or a section without its event.
    WrongEvent,
    /// C9: an assignment to a name that cannot be assigned.
    FixedTarget,
    /// C10: a picture whose fields are not as many as the values, or a decimal field.
    WrongPicture,
    /// C11: no MAIN, or a second.
    WrongMain,
    /// C12: a name that may not be in the order of priority, or a second such order.
    WrongPriority,
    /// C13: START SIMULATION outside MAIN.
    StartOutsideMain,
    /// C14: IF FOUND or IF NONE not directly after a FIND.
    WithoutFind,
}

impl CheckRule {
    ghost use Rattle.std.specs.Prelude.{◌≡◌};
    ghost use Rattle.ss_check.specs.CheckRules.{check_rule_code};

    /// The rule's letter and number as a refusal prints them, as `C10`.
    pub fn code(self) -> &'static str
        ensures { result.now ≡ check_rule_code self }
    {
        match self {
            CheckRule::DeclaredTwice => "C1",
            CheckRule::WrongClass => "C2",
            CheckRule::WrongUse => "C3",
            CheckRule::WrongOwner => "C4",
            CheckRule::WrongMember => "C5",
            CheckRule::WrongKey => "C6",
            CheckRule::WrongCount => "C7",
            CheckRule::WrongEvent => "C8",
            CheckRule::FixedTarget => "C9",
            CheckRule::WrongPicture => "C10",
            CheckRule::WrongMain => "C11",
            CheckRule::WrongPriority => "C12",
            CheckRule::StartOutsideMain => "C13",
            CheckRule::WithoutFind => "C14",
        }
    }
}

/// Why a spelled program is refused: the statement that begins on `line` breaks `rule` (lines count
/// from 1), and `wrong` says why and by which name. Or that a growth was refused: `Memory`.
#[derive(Debug, Drop, Error)]
pub enum CheckFault {
    #[error("line {line}: {rule:?}")]
    Broken {
        rule: CheckRule,
        line: usize,
        wrong: Wrong,
    },
    #[error("out of memory")]
    Memory,
}

impl From<AllocError> for CheckFault {
    ghost use Rattle.std.specs.Prelude.{◌≡◌};
    ghost use Rattle.ss_check.specs.declared.fault.CheckFault.TheVariants.{Memory};

    ghost from_gives = { λ _ e. e ≡ Memory };

    fn from(_error: AllocError) -> Self {
        CheckFault::Memory
    }
}

impl<T: Drop> From<AllocFailed<T>> for CheckFault {
    ghost use Rattle.std.specs.Prelude.{◌≡◌};
    ghost use Rattle.ss_check.specs.declared.fault.CheckFault.TheVariants.{Memory};

    ghost from_gives = { λ _ e. e ≡ Memory };

    fn from(_failed: AllocFailed<T>) -> Self {
        CheckFault::Memory
    }
}

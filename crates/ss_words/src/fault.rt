//! The rules that a text breaks, the faults that stop a run, and the codes that print them.
use std::alloc::{AllocError, AllocFailed};
use thiserror::Error;

/// A rule that a model's text breaks (docs/LANGUAGE.md, "Refusals of the text").
#[derive(Clone, Copy, Debug, PartialEq, Eq)]
pub enum TextRule {
    /// L1: a byte that is not allowed at its place.
    StrayByte,
    /// L2: a number above 2^63 - 1, or digits with a stop left in them.
    BadNumber,
    /// L3: a run of letters, digits and stops of more than 80 bytes.
    LongRun,
    /// L4: THUS or AS FOLLOWS without its picture.
    NoPicture,
    /// L5: a picture line of more than 132 bytes.
    LongPictureLine,
    /// P1: a word with which no program goes on.
    UnexpectedWord,
    /// P2: the text ends at a place at which no program ends.
    UnexpectedEnd,
    /// P3: a word that passes a limit.
    PastLimit,
}

impl TextRule {
    ghost use Rattle.std.specs.Prelude.{◌≡◌};
    ghost use Rattle.ss_words.specs.Faults.{text_rule_code};

    /// The rule's letter and number as a refusal prints them, as `L1`.
    pub fn code(self) -> &'static str
        ensures { result.now ≡ text_rule_code self }
    {
        match self {
            TextRule::StrayByte => "L1",
            TextRule::BadNumber => "L2",
            TextRule::LongRun => "L3",
            TextRule::NoPicture => "L4",
            TextRule::LongPictureLine => "L5",
            TextRule::UnexpectedWord => "P1",
            TextRule::UnexpectedEnd => "P2",
            TextRule::PastLimit => "P3",
        }
    }
}

/// Why a text is no program, or that memory for reading it was refused.
#[derive(Clone, Copy, Debug, Drop, PartialEq, Eq, Error)]
pub enum TextFault {
    /// The text breaks this rule at this line; lines count from 1.
    #[error("line {line}: {rule:?}")]
    Refused { rule: TextRule, line: usize },
    /// The memory for reading the text was refused.
    #[error("out of memory")]
    Memory,
}

impl From<AllocError> for TextFault {
    ghost use Rattle.std.specs.Prelude.{◌≡◌};
    ghost use Rattle.ss_words.specs.declared.fault.TextFault.TheVariants.{Memory};

    ghost from_gives = { λ _ e. e ≡ Memory };

    fn from(_error: AllocError) -> Self {
        TextFault::Memory
    }
}

impl<T: Drop> From<AllocFailed<T>> for TextFault {
    ghost use Rattle.std.specs.Prelude.{◌≡◌};
    ghost use Rattle.ss_words.specs.declared.fault.TextFault.TheVariants.{Memory};

    ghost from_gives = { λ _ e. e ≡ Memory };

    fn from(_failed: AllocFailed<T>) -> Self {
        TextFault::Memory
    }
}

/// A fault that stops a run: the place stays, and the status keeps the fault (docs/LANGUAGE.md,
/// "Run faults").
#[derive(Clone, Copy, Debug, Drop, PartialEq, Eq, Error)]
pub enum RunFault {
    #[error("a value out of range")]
    OutOfRange,
    #[error("a zero divisor")]
    ZeroDivisor,
    #[error("no such entity of that class")]
    NoEntity,
    #[error("already in a list of that set")]
    AlreadyInSet,
    #[error("not in that list")]
    NotInList,
    #[error("the set is empty")]
    EmptySet,
    #[error("ended while a member or scheduled")]
    EndedInUse,
    #[error("ended while owner of a set with members")]
    EndedOwner,
    #[error("a time before the clock")]
    TimeBeforeClock,
    #[error("already scheduled")]
    AlreadyScheduled,
    #[error("not scheduled")]
    NotScheduled,
    #[error("class already created")]
    AlreadyCreated,
    #[error("a count out of range")]
    CountOutOfRange,
    #[error("the loop's next member has left the list")]
    MemberLeft,
    #[error("BY below 1")]
    StepBelowOne,
    #[error("no more data")]
    NoMoreData,
    #[error("the next datum is no number")]
    NotANumber,
    #[error("more than 200 frames")]
    TooManyFrames,
    #[error("report over 16,777,216 bytes")]
    ReportFull,
    #[error("too many references or schedulings")]
    TooManyReferences,
    #[error("the entry's name is no external event")]
    NotExternal,
    #[error("the mark * is missing or met, or the entry still waits")]
    OutsideEntry,
}

impl RunFault {
    ghost use Rattle.std.specs.Prelude.{◌≡◌};
    ghost use Rattle.ss_words.specs.Faults.{run_fault_number};

    /// The fault's number as `FAULT F1` prints it, from 1 to 22.
    pub fn number(self) -> u8
        ensures { result ≡ run_fault_number self }
    {
        match self {
            RunFault::OutOfRange => 1,
            RunFault::ZeroDivisor => 2,
            RunFault::NoEntity => 3,
            RunFault::AlreadyInSet => 4,
            RunFault::NotInList => 5,
            RunFault::EmptySet => 6,
            RunFault::EndedInUse => 7,
            RunFault::EndedOwner => 8,
            RunFault::TimeBeforeClock => 9,
            RunFault::AlreadyScheduled => 10,
            RunFault::NotScheduled => 11,
            RunFault::AlreadyCreated => 12,
            RunFault::CountOutOfRange => 13,
            RunFault::MemberLeft => 14,
            RunFault::StepBelowOne => 15,
            RunFault::NoMoreData => 16,
            RunFault::NotANumber => 17,
            RunFault::TooManyFrames => 18,
            RunFault::ReportFull => 19,
            RunFault::TooManyReferences => 20,
            RunFault::NotExternal => 21,
            RunFault::OutsideEntry => 22,
        }
    }
}

/// The error of a part of a step that can fault or want memory.
#[derive(Clone, Copy, Debug, Drop, PartialEq, Eq, Error)]
pub enum StepFault {
    #[error("{0}")]
    Fault(RunFault),
    #[error("out of memory")]
    Memory,
}

impl From<RunFault> for StepFault {
    ghost use Rattle.std.specs.Prelude.{◌≡◌};
    ghost use Rattle.ss_words.specs.declared.fault.StepFault.TheVariants.{Fault};

    ghost from_gives = { λ f e. e ≡ Fault f };

    fn from(fault: RunFault) -> Self {
        StepFault::Fault(fault)
    }
}

impl From<AllocError> for StepFault {
    ghost use Rattle.std.specs.Prelude.{◌≡◌};
    ghost use Rattle.ss_words.specs.declared.fault.StepFault.TheVariants.{Memory};

    ghost from_gives = { λ _ e. e ≡ Memory };

    fn from(_error: AllocError) -> Self {
        StepFault::Memory
    }
}

impl<T: Drop> From<AllocFailed<T>> for StepFault {
    ghost use Rattle.std.specs.Prelude.{◌≡◌};
    ghost use Rattle.ss_words.specs.declared.fault.StepFault.TheVariants.{Memory};

    ghost from_gives = { λ _ e. e ≡ Memory };

    fn from(_failed: AllocFailed<T>) -> Self {
        StepFault::Memory
    }
}

//! The places that a section is a list of; each is one step of a run.
use crate::boxed::Boxed;
use crate::branch::Branch;
use crate::call::{Call, Targets};
use crate::expr::{Expr, Values};
use crate::filing::Filing;
use crate::looping::Looping;
use crate::making::Making;
use crate::target::Target;
use crate::timing::Timing;
use ss_report::Picture;

/// A place of a section: the part that one step runs. An assignment is inside it; rarer and large
/// parts have a block of their own.
#[derive(Drop)]
pub enum Place {
    Assign(Assign),
    Making(Boxed<Making>),
    Filing(Boxed<Filing>),
    Output(Boxed<Output>),
    Control(Control),
    Branch(Branch),
    Looping(Looping),
    Call(Boxed<Call>),
    Timing(Boxed<Timing>),
    /// `READ` of its targets.
    Read(Targets),
}

/// An assignment.
#[derive(Drop)]
pub enum Assign {
    /// `[LET] target = value`; `written` says whether the word LET is in the text.
    Let {
        written: bool,
        target: Target,
        value: Expr,
    },
    /// `ADD value TO target`.
    Add {
        value: Expr,
        target: Target,
    },
    /// `SUBTRACT value FROM target`.
    Subtract {
        value: Expr,
        target: Target,
    },
}

/// A statement that appends to the report.
#[derive(Drop)]
pub enum Output {
    /// `PRINT count LINES WITH values THUS picture`.
    Print {
        count: u64,
        values: Values,
        picture: Picture,
    },
    /// `SKIP count LINES`.
    Skip(Expr),
}

/// A statement that ends a section or the run.
#[derive(Clone, Copy, PartialEq, Eq)]
pub enum Control {
    Stop,
    Return,
    End,
}

/// A place and the line of its first word; lines count from 1.
#[derive(Drop)]
pub struct Spot {
    pub line: usize,
    pub place: Place,
}

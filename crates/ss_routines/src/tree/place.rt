//! A place of a section with its line, and the parts of FOR phrases, IFs and COMPUTEs.

use crate::tree::condition::{Condition, Reference};
use crate::tree::expr::Expr;
use crate::tree::simple::Simple;
use ss_words::{Direction, Name, QualifierWord, Several, Statistic};

/// The start of the walk of a set.
#[derive(Debug, Drop)]
pub enum WalkStart {
    /// At the first member, or at the last one in reverse order.
    AtEnd,
    /// `FROM member`
    From(Expr),
    /// `AFTER member`
    After(Expr),
}

/// The range that a FOR phrase goes through (docs/LANGUAGE.md, "FOR").
#[derive(Debug, Drop)]
pub enum Range {
    /// `variable = first TO last [BY step]`, or `variable BACK FROM first TO last [BY step]`
    Counting {
        direction: Direction,
        variable: Name,
        first: Expr,
        last: Expr,
        step: Option<Expr>,
    },
    /// `EVERY class [CALLED variable]`
    Each {
        class: Name,
        variable: Option<Name>,
    },
    /// `EVERY variable IN set [FROM member | AFTER member] [IN REVERSE ORDER]`
    Walking {
        direction: Direction,
        variable: Name,
        set: Reference,
        start: WalkStart,
    },
}

/// A condition on the candidates of a FOR phrase.
#[derive(Debug, Drop)]
pub struct Qualifier {
    pub word: QualifierWord,
    pub condition: Condition,
}

/// A FOR phrase: its range, and its qualifiers in written order.
#[derive(Debug, Drop)]
pub struct Phrase {
    pub range: Range,
    pub qualifiers: Vec<Qualifier>,
}

/// A target of a COMPUTE and the statistic that it is given.
#[derive(Debug, Drop)]
pub struct Computed {
    pub target: Reference,
    pub statistic: Statistic,
}

/// The question of an IF.
#[derive(Debug, Drop)]
pub enum Question {
    Holds(Box<Condition>),
    Found,
    NoneFound,
}

/// A place of an IF statement.
#[derive(Debug, Drop)]
pub enum Branch {
    If(Question),
    Else,
    Always,
}

/// A place of a FOR statement.
#[derive(Debug, Drop)]
pub enum Loop {
    /// A FOR phrase; `repeats` says whether DO is after it.
    For { phrase: Box<Phrase>, repeats: bool },
    /// LOOP
    Next,
    /// `FIND FIRST CASE`
    Find,
    /// The first place of a COMPUTE, which takes in the value.
    Gather(Expr),
    /// The second place of a COMPUTE, which assigns the statistics.
    Compute(Several<Computed>),
}

/// One place of a section (docs/LANGUAGE.md, "Sections").
#[derive(Debug, Drop)]
pub enum Place {
    Simple(Simple),
    Branch(Branch),
    Loop(Loop),
    /// The END of the section.
    End,
}

/// A place and the line of its first plain word; lines count from 1. A part that is greater than an
/// assignment is in a box, so that a place is small.
#[derive(Debug, Drop)]
pub struct Spot {
    pub line: usize,
    pub place: Place,
}

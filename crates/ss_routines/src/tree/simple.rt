//! The trees of the statements that hold no other.

use crate::tree::condition::Reference;
use crate::tree::expr::Expr;
use ss_words::{Name, SetEnd, Several};

/// A statement that assigns.
#[derive(Debug, Drop)]
pub enum Assign {
    /// `[LET] target = value`; `written` says whether LET is there.
    Let {
        written: bool,
        target: Reference,
        value: Expr,
    },
    /// `ADD value TO target`
    Add {
        value: Expr,
        target: Reference,
    },
    /// `SUBTRACT value FROM target`
    Subtract {
        value: Expr,
        target: Reference,
    },
}

/// A statement that makes or ends entities.
#[derive(Debug, Drop)]
pub enum Making {
    /// `CREATE class [CALLED target]`
    Create {
        class: Name,
        target: Option<Reference>,
    },
    /// `CREATE EVERY class [(count)]`
    CreateEvery {
        class: Name,
        count: Option<Expr>,
    },
    /// `DESTROY class [CALLED entity]`
    Destroy {
        class: Name,
        entity: Option<Reference>,
    },
}

/// The place at which a member is filed, as it is written after the member.
#[derive(Debug, Drop)]
pub enum FilePlace {
    /// Nothing is written: by the set's discipline.
    ByDiscipline,
    AtEnd(SetEnd),
    Before(Expr),
    After(Expr),
}

/// A statement that files or removes a member.
#[derive(Debug, Drop)]
pub enum Filing {
    /// `FILE member [FIRST | LAST | BEFORE other | AFTER other] IN set`
    File {
        member: Expr,
        place: FilePlace,
        set: Reference,
    },
    /// `FILE FIRST member IN set`, `FILE LAST member IN set`
    FileAt {
        end: SetEnd,
        member: Expr,
        set: Reference,
    },
    /// `REMOVE FIRST target FROM set`, `REMOVE LAST target FROM set`
    RemoveEnd {
        end: SetEnd,
        target: Reference,
        set: Reference,
    },
    /// `REMOVE member FROM set`
    Remove {
        member: Expr,
        set: Reference,
    },
}

/// How a list of one or more is written, if it is.
#[derive(Debug, Drop)]
pub enum Listing<T> {
    Unwritten,
    BehindGiven(Several<T>),
    InParentheses(Several<T>),
}

/// A statement that leaves its place for another section, or for good.
#[derive(Debug, Drop)]
pub enum Transfer {
    /// `CALL routine [values] [YIELDING targets]`; no targets if YIELDING is not written.
    Call {
        routine: Name,
        values: Listing<Expr>,
        targets: Vec<Reference>,
    },
    Return,
    Stop,
}

/// Whether SCHEDULE makes a notice or takes one that there is.
#[derive(Clone, Copy, Debug, PartialEq, Eq)]
pub enum Article {
    A,
    The,
}

/// The values and the reference of a SCHEDULE, in the order in which they are written.
#[derive(Debug, Drop)]
pub enum Details {
    /// `(values) [CALLED called]`
    ValuesFirst {
        values: Several<Expr>,
        called: Option<Reference>,
    },
    /// `[CALLED called] [GIVEN values]`; no values if GIVEN is not written.
    CalledFirst {
        called: Option<Reference>,
        values: Vec<Expr>,
    },
}

/// The time for which an event is scheduled.
#[derive(Debug, Drop)]
pub enum When {
    /// `AT time`
    At(Expr),
    Now,
    /// `IN delay DAYS`
    In(Expr),
}

/// A statement on events.
#[derive(Debug, Drop)]
pub enum Timing {
    /// `SCHEDULE A event details when`, `SCHEDULE THE event details when`
    Schedule {
        article: Article,
        event: Name,
        details: Details,
        when: When,
    },
    /// `CANCEL event [CALLED called]`
    Cancel {
        event: Name,
        called: Option<Reference>,
    },
    StartSimulation,
}

/// A statement that reads data or writes to the report.
#[derive(Debug, Drop)]
pub enum Exchange {
    /// `READ targets`
    Read(Several<Reference>),
    /// `PRINT count LINES [WITH values] THUS` and the lines of the picture; no values if WITH is
    /// not written.
    Print {
        count: u64,
        values: Vec<Expr>,
        picture: Vec<Vec<u8>>,
    },
    /// `SKIP lines LINES`
    Skip(Expr),
}

/// A simple statement: one that holds no other (docs/LANGUAGE.md, "Statements"). A part that is
/// greater than an assignment is in a box, so that a place is small.
#[derive(Debug, Drop)]
pub enum Simple {
    Assign(Assign),
    Make(Making),
    File(Box<Filing>),
    Transfer(Box<Transfer>),
    Time(Box<Timing>),
    Exchange(Exchange),
}

//! The statements on sets as places: they file and remove members.
use crate::expr::Expr;
use crate::target::{SetRef, Target};
use ss_words::SetEnd;

/// The position at which FILE puts a member.
#[derive(Drop)]
pub enum Position {
    /// By the set's discipline.
    ByRule,
    AtEnd(SetEnd),
    /// Directly before the member that a value names.
    Before(Expr),
    /// Directly after the member that a value names.
    After(Expr),
}

/// A statement that files or removes a member.
#[derive(Drop)]
pub enum Filing {
    /// `FILE member [FIRST | LAST | BEFORE other | AFTER other] IN set`.
    File {
        member: Expr,
        position: Position,
        set: SetRef,
    },
    /// `FILE (FIRST | LAST) member IN set`.
    FileAt {
        end: SetEnd,
        member: Expr,
        set: SetRef,
    },
    /// `REMOVE (FIRST | LAST) target FROM set`.
    RemoveAt {
        end: SetEnd,
        target: Target,
        set: SetRef,
    },
    /// `REMOVE member FROM set`.
    Remove {
        member: Expr,
        set: SetRef,
    },
}

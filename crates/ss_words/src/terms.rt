//! The parts of a statement that the text and the program share: words that are in both as they are
//! written, with no name in them (docs/LANGUAGE.md, "Grammar").

/// The sign before a term of an expression.
#[derive(Clone, Copy, Debug, PartialEq, Eq)]
pub enum TermSign {
    Plus,
    Minus,
}

/// How two values are compared: `=`, `NE`, `<`, `>`, `<=`, `>=`.
#[derive(Clone, Copy, Debug, PartialEq, Eq)]
pub enum Comparison {
    Equal,
    Unequal,
    Less,
    Greater,
    AtMost,
    AtLeast,
}

/// Whether NOT follows IS.
#[derive(Clone, Copy, Debug, PartialEq, Eq)]
pub enum Copula {
    Is,
    IsNot,
}

/// The direction in which a FOR phrase goes: `FOR v = a TO b` and `FOR EACH m IN s` go onward,
/// `BACK FROM` and `IN REVERSE ORDER` backward.
#[derive(Clone, Copy, Debug, PartialEq, Eq)]
pub enum Direction {
    Onward,
    Backward,
}

/// The word of a qualifier: WITH, UNLESS, WHILE, UNTIL.
#[derive(Clone, Copy, Debug, PartialEq, Eq)]
pub enum QualifierWord {
    With,
    Unless,
    While,
    Until,
}

/// The result that COMPUTE gives of the values that it has gathered.
#[derive(Clone, Copy, Debug, PartialEq, Eq)]
pub enum Statistic {
    Number,
    Sum,
    Maximum,
    Minimum,
}

/// Which of two values of a key ranks first: the greater or the less.
#[derive(Clone, Copy, Debug, PartialEq, Eq)]
pub enum Rank {
    High,
    Low,
}

/// An end of a set's list.
#[derive(Clone, Copy, Debug, PartialEq, Eq)]
pub enum SetEnd {
    First,
    Last,
}

/// An attribute that a set keeps of its owner.
#[derive(Clone, Copy, Debug, PartialEq, Eq)]
pub enum OwnerKept {
    /// `F.set`: the first member, 0 for none.
    First,
    /// `L.set`: the last member, 0 for none.
    Last,
    /// `N.set`: how many members there are.
    Count,
}

/// An attribute that a set keeps of its members.
#[derive(Clone, Copy, Debug, PartialEq, Eq)]
pub enum MemberKept {
    /// `P.set`: the member directly before, 0 for none.
    Predecessor,
    /// `S.set`: the member directly after, 0 for none.
    Successor,
    /// `M.set`: 1 for a member and else 0.
    Membership,
}

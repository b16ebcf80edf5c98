//! The tree of an expression, with names resolved to numbers.
use crate::variable::Variable;
use ss_words::{MemberKept, OwnerKept, TermSign};

/// A first term, which may have a sign at its head, and further terms, each with its sign.
#[derive(Drop)]
#[cycle(sum)]
pub struct Sum {
    pub sign: Option<TermSign>,
    pub first: Term,
    pub more: Vec<SignedTerm>,
}

/// A further term of a sum.
#[derive(Drop)]
#[cycle(sum)]
pub struct SignedTerm {
    pub sign: TermSign,
    pub term: Term,
}

/// A product: a first factor and further factors.
#[derive(Drop)]
#[cycle(sum)]
pub struct Term {
    pub first: Factor,
    pub more: Vec<Factor>,
}

/// A number, a variable, a function of its arguments, an attribute, or a sum within parentheses.
#[derive(Drop)]
#[cycle(sum)]
pub enum Factor {
    /// From 0 to 2^63 - 1.
    Number(u64),
    Variable(Variable),
    /// `ABS.F`.
    Absolute(Box<Sum>),
    /// `MAX.F`.
    Greatest(Box<Arguments>),
    /// `MIN.F`.
    Least(Box<Arguments>),
    /// `DIV.F` of dividend and divisor.
    Quotient(Box<Sum>, Box<Sum>),
    /// `MOD.F` of dividend and divisor.
    Remainder(Box<Sum>, Box<Sum>),
    /// An attribute, by its class and its number there.
    Attribute {
        class: usize,
        attribute: Box<Subscripted>,
    },
    /// `F.s`, `L.s` or `N.s` of a set, by the set's number.
    OwnerKept {
        kept: OwnerKept,
        set: Box<Subscripted>,
    },
    /// `P.s`, `S.s` or `M.s` of a set, by the set's number.
    MemberKept {
        kept: MemberKept,
        set: Box<Subscripted>,
    },
    Within(Box<Sum>),
}

/// An attribute or a set by its number, and which entity's is meant.
#[derive(Drop)]
#[cycle(sum)]
pub struct Subscripted {
    pub number: usize,
    pub subscript: Subscript,
}

/// Which entity is meant.
#[derive(Drop)]
#[cycle(sum)]
pub enum Subscript {
    /// No subscript is written: the global variable of a class's name is the subscript.
    Implied(usize),
    /// The system, which owns a list and has no subscript.
    System,
    Written(Box<Sum>),
}

/// The arguments of `MAX.F` and `MIN.F`: a first one, and further ones.
#[derive(Drop)]
#[cycle(sum)]
pub struct Arguments {
    pub first: Box<Sum>,
    pub more: Vec<Sum>,
}

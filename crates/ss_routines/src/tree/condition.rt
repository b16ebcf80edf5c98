//! The trees of references and conditions.

use crate::tree::expr::Expr;
use ss_words::{Comparison, Copula, Name};

/// A name, in upper case, with a subscript or without: the target of an assignment, or a set
/// (docs/LANGUAGE.md, "References").
#[derive(Debug, Drop)]
pub struct Reference {
    pub name: Name,
    pub subscript: Option<Box<Expr>>,
}

/// A condition: conjunctions joined by OR (docs/LANGUAGE.md, "Conditions").
#[derive(Debug, Drop)]
#[cycle(condition)]
pub struct Condition {
    pub first: Conjunction,
    pub more: Vec<Conjunction>,
}

/// Relations joined by AND.
#[derive(Debug, Drop)]
#[cycle(condition)]
pub struct Conjunction {
    pub first: Relation,
    pub more: Vec<Relation>,
}

/// A relation that holds or does not hold of values and sets.
#[derive(Debug, Drop)]
#[cycle(condition)]
pub enum Relation {
    /// `left comparison right`
    Compared {
        left: Expr,
        comparison: Comparison,
        right: Expr,
    },
    /// `set IS [NOT] EMPTY`
    Empty {
        set: Reference,
        copula: Copula,
    },
    /// `member IS [NOT] IN set`
    Member {
        member: Expr,
        copula: Copula,
        set: Reference,
    },
    /// A condition between parentheses.
    Within(Box<Condition>),
}

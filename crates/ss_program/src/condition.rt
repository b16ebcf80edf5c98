//! The tree of a condition, with names resolved to numbers.
use crate::expr::Expr;
use crate::target::SetRef;
use ss_words::{Comparison, Copula};
use std::marker::Model;

/// A condition of a place. Contracts see it as the tree of its text.
#[derive(Drop)]
pub struct Condition {
    pub any: Box<Disjunction>,
}

impl Model for Condition {
    ghost use Rattle.ss_program.specs.ProgramCondition.{Condition as Tree, condition_of};
    ghost use Rattle.ss_program.specs.ProgramConditionCode.{condition_code};

    ghost Value = { Tree };

    ghost coded = { condition_code };

    ghost view = { λ a. condition_of a.any.value };
}

/// Conjunctions joined by OR.
#[derive(Drop)]
#[cycle(condition)]
pub struct Disjunction {
    pub first: Conjunction,
    pub more: Vec<Conjunction>,
}

/// Relations joined by AND.
#[derive(Drop)]
#[cycle(condition)]
pub struct Conjunction {
    pub first: Relation,
    pub more: Vec<Relation>,
}

/// A comparison, a question about a set, or a condition within parentheses.
#[derive(Drop)]
#[cycle(condition)]
pub enum Relation {
    Compared {
        left: Expr,
        comparison: Comparison,
        right: Expr,
    },
    /// `set IS [NOT] EMPTY`.
    IsEmpty {
        set: SetRef,
        copula: Copula,
    },
    /// `member IS [NOT] IN set`.
    IsIn {
        member: Expr,
        copula: Copula,
        set: SetRef,
    },
    Within(Box<Disjunction>),
}

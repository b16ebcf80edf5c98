//! The targets of assignments, and the lists of sets that a statement means.
use crate::sum::Subscript;
use crate::variable::Variable;
use std::marker::Model;

/// The subscript of a target or a set. Contracts see it as the tree of its text.
#[derive(Drop)]
pub struct Index {
    pub subscript: Box<Subscript>,
}

impl Model for Index {
    ghost use Rattle.ss_program.specs.ProgramExpr.{Subscript as Tree, subscript_of};
    ghost use Rattle.ss_program.specs.ProgramExprCode.{subscript_code};

    ghost Value = { Tree };

    ghost coded = { subscript_code };

    ghost view = { λ a. subscript_of a.subscript.value };
}

/// The target that a value is assigned to.
#[derive(Drop)]
pub enum Target {
    Variable(Variable),
    /// An attribute, by its class and its number there.
    Attribute {
        class: usize,
        attribute: usize,
        index: Index,
    },
}

/// The list of a set that is meant: the set by its number, and the list's owner.
#[derive(Drop)]
pub struct SetRef {
    pub set: usize,
    pub owner: Index,
}

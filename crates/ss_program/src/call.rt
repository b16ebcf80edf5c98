//! The call of a routine as a place, and the targets of values that a routine or READ gives.
use crate::expr::Values;
use crate::target::Target;
use crate::timing::Listing;
use std::marker::Model;

/// The targets of the values that a routine yields, or that a READ takes, in order.
#[derive(Drop)]
pub struct Targets {
    pub list: Vec<Target>,
}

impl Model for Targets {
    ghost use Rattle.std.specs.Prelude.{List};
    ghost use Rattle.std.specs.Coded.{codes};
    ghost use Rattle.ss_program.specs.declared.target.Target.{Target};
    ghost use Rattle.ss_program.specs.contracts.target.Target as one;

    ghost Value = { List Target };

    ghost coded = { Prim.hlevel (codes, one.the_row.coded) };

    ghost view = { λ a. a.list.items };
}

/// A `CALL` of a section, by its number, with the values given to it, the targets of those that it
/// yields, and how the values given to it are written.
#[derive(Drop)]
pub struct Call {
    pub section: usize,
    pub given: Values,
    pub targets: Targets,
    pub listing: Listing,
}

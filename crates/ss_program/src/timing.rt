//! The agenda's statements as places: they schedule and cancel notices, and start the simulation.
use crate::expr::{Expr, Values};
use crate::target::Target;

/// A statement that schedules an event notice, takes one off, or starts events.
#[derive(Drop)]
pub enum Timing {
    Schedule(Schedule),
    /// `CANCEL class [CALLED notice]`; without CALLED the notice is the one that the global
    /// variable of the class's name names.
    Cancel {
        class: usize,
        is_called: bool,
        notice: Expr,
    },
    /// `START SIMULATION`
    Start,
}

/// A `SCHEDULE` of a notice of a class, with the values of its first attributes, at a time.
#[derive(Drop)]
pub struct Schedule {
    pub class: usize,
    pub notice: Notice,
    pub listing: Listing,
    pub arguments: Values,
    pub when: When,
}

/// Which notice is scheduled. `is_called` says whether CALLED is written; without it the target or
/// the value is the global variable of the class's name.
#[derive(Drop)]
pub enum Notice {
    /// `A class [CALLED target]`: a new one, whose reference goes to the target.
    New { is_called: bool, target: Target },
    /// `THE class [CALLED notice]`: the one that a value names.
    Known { is_called: bool, notice: Expr },
}

/// How arguments or parameters are written: in parentheses, or after GIVEN. In SCHEDULE parentheses
/// come before CALLED, and GIVEN after it. Without arguments or parameters it is `Given`.
#[derive(Clone, Copy, PartialEq, Eq)]
pub enum Listing {
    InParentheses,
    Given,
}

/// When a notice is due.
#[derive(Drop)]
pub enum When {
    /// `AT time`
    At(Expr),
    /// `NOW`
    Now,
    /// `IN days DAYS`
    In(Expr),
}

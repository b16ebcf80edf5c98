//! The parts of a state that a text can name as values.
use ss_program::{MemberKept, OwnerKept, Variable};

/// What an entity has, or the system.
#[derive(Clone, Copy)]
pub enum Item {
    /// An attribute, by its class and its number there.
    Attribute { class: usize, attribute: usize },
    /// `F.s`, `L.s` or `N.s` of an owner, by the set's number.
    OwnerKept { kept: OwnerKept, set: usize },
    /// `P.s`, `S.s` or `M.s` of a member, by the set's number.
    MemberKept { kept: MemberKept, set: usize },
    /// The list of an owner, by the set's number.
    Members { set: usize },
}

/// A part of a state.
#[derive(Clone, Copy)]
pub enum Part {
    /// A variable. A local one is of the last frame.
    Variable(Variable),
    /// What the entity that a value names has. The system is 0.
    Of(Item, i64),
}

//! The shapes of classes and sets that a store keeps, and the places and members that calls name.

use ss_program::{Discipline, Owner};

/// The shape of a class: how many attributes its entities have, how many sets they own, in how
/// many sets they may be, and whether it is permanent.
#[derive(Clone, Copy)]
pub struct ClassShape {
    pub attributes: usize,
    pub owned: u32,
    pub joined: u32,
    pub permanent: bool,
}

/// The shape of a set: its discipline; the owner of its lists, and its number among the sets of
/// that owner; the class of its members, and its number among the sets of that class.
#[derive(Drop)]
pub struct SetShape {
    pub discipline: Discipline,
    pub owner: Owner,
    pub list: u32,
    pub member: usize,
    pub slot: u32,
}

/// The place at which a member is filed. A value names the entity with that number, and none if it
/// is below 1.
#[derive(Clone, Copy)]
pub enum How {
    /// By the set's discipline.
    ByRule,
    First,
    Last,
    /// Directly before this member of the list.
    Before(i64),
    /// Directly after this member of the list.
    After(i64),
}

/// Which member is removed.
#[derive(Clone, Copy)]
pub enum Which {
    First,
    Last,
    /// The one that the value names.
    Member(i64),
}

/// The facts read of a member at once: the members directly before it and directly after it in the
/// list that holds it, and whether a list of the set holds it.
#[derive(Clone, Copy)]
pub struct Neighbours {
    pub before: Option<u32>,
    pub behind: Option<u32>,
    pub is_filed: bool,
}

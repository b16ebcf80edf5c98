//! The changes that the calls of a store give, by which each call can be undone.

use ss_program::Owner;

/// The change that one call of a [`Store`](crate::Store) made, enough to take it back.
#[derive(Drop)]
pub enum StoreChange {
    /// The member was filed in the list of this set for this owner; `owner` and `list` are the
    /// set's own.
    Filed {
        set: usize,
        owner: Owner,
        list: u32,
        number: usize,
        member: usize,
    },
    /// The member was removed from the list. It was directly after `before`, or first.
    Removed {
        set: usize,
        owner: Owner,
        list: u32,
        number: usize,
        member: usize,
        before: Option<u32>,
    },
    /// An entity of a temporary or event class was made, with the last reference; `heads` and
    /// `seats` are the board's counts before it.
    Created {
        class: usize,
        number: usize,
        heads: u32,
        seats: u32,
    },
    /// The entities of a permanent class were made; `heads` and `seats` are the board's counts
    /// before them.
    ClassCreated {
        class: usize,
        count: usize,
        heads: u32,
        seats: u32,
    },
    /// An attribute of an entity got another value than this one.
    AttributeSet {
        class: usize,
        attribute: usize,
        number: usize,
        old: i64,
    },
    /// An entity of a temporary or event class ended. It owned this number of empty lists and had
    /// these values of its attributes.
    Ended {
        class: usize,
        number: usize,
        owned: u32,
        values: Vec<i64>,
    },
}

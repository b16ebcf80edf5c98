//! What a statement looks at, one after the other.
use crate::part::Part;
use ss_program::Variable;
use std::marker::Model;

/// The text of a reference. Contracts see its bytes.
#[derive(Drop)]
pub struct Reference {
    pub text: Vec<u8>,
}

impl Model for Reference {
    ghost use Rattle.std.specs.Prelude.{List, ℕ};

    ghost Value = { List ℕ };

    ghost view = { λ a. a.text.items };
}

/// What a statement looks at.
#[derive(Drop)]
pub enum Read {
    /// The candidate that goes to a loop's variable next; none if none is left.
    Candidate(Variable, Option<i64>),
    /// The notice of a class, by the class's number, whose event starts next.
    Notice(usize, u32),
    /// A part of the state.
    Part(Part),
    /// A reference whose subscript has no value.
    Unvalued(Reference),
}

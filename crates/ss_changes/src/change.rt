//! A change: one part of a state, with its values before and after a step.
use crate::part::Part;
use crate::value::PartValue;

/// A part of two states whose values differ.
#[derive(Drop)]
pub struct Change {
    /// The part.
    pub part: Part,
    /// Its value in the state before the step.
    pub before: PartValue,
    /// Its value in the state after it.
    pub after: PartValue,
}

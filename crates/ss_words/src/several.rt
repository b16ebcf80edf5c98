//! A list that is never empty, for each place of the grammar that takes one item or more.

/// A list of one or more, in the order in which they are written.
#[derive(Debug, Drop)]
pub struct Several<T> {
    pub first: T,
    pub others: Vec<T>,
}

//! What is printed at each stop.
use crate::line::Line;
use ss_trace::Question;

/// What is printed at each stop.
#[derive(Drop)]
pub enum Shown {
    /// A question is answered.
    Asked(Question),
    /// The value of a text, which was asked in the section with this number, is printed.
    Text(Line, usize),
}

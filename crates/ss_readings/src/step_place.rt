//! A step of a run, as it is shown.

/// A step of a run: the number of the state before it, and the clock, the number of the section and
/// the line of the model there.
#[derive(Clone, Copy)]
pub struct StepPlace {
    pub position: u64,
    pub clock: i64,
    pub section: usize,
    pub line: usize,
}

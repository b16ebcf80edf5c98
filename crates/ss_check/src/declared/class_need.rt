//! The kinds of class that uses of names ask for.

/// The kind of class that a statement needs.
#[derive(Clone, Copy)]
pub enum ClassNeed {
    Permanent,
    /// A class whose entities can end: a temporary class or an event class.
    Ending,
    Event,
}

//! The IF statement as places: its question, its ELSE and its ALWAYS.
use crate::condition::Condition;

/// The question of an IF.
#[derive(Drop)]
pub enum Question {
    /// Whether a condition holds.
    Whether(Condition),
    /// `FOUND`: whether the FIND before it found a case.
    WasFound,
    /// `NONE`: whether it found none.
    WasNone,
}

/// IF, and the places that belong to it.
#[derive(Drop)]
pub enum Branch {
    If(Question),
    Else,
    Always,
}

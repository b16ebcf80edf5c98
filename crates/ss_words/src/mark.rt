//! The fixed words of the grammar: reserved words and signs as one type.
use crate::reserved::Reserved;
use crate::word::Sign;

/// A reserved word or a sign that the grammar quotes.
#[derive(Clone, Copy, Debug, PartialEq, Eq)]
pub enum Mark {
    Sign(Sign),
    Reserved(Reserved),
}

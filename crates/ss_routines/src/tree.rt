//! Sections as trees: the contents of the text, with the names as they are written.
pub mod condition;
pub mod expr;
pub mod place;
pub mod section;
pub mod simple;

//! The output that a model prints: pictures with values in their fields, and the report to which
//! they are appended.
#![tactic(auto)]

mod append;
pub mod limits;
mod picture;
mod piece;
mod report;

pub use picture::{Picture, PictureFault};
pub use report::Report;

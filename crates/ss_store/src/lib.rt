//! Entities, their attributes and their sets, over any set board.
#![tactic(auto)]

mod change;
mod ending;
mod growing;
pub mod laws;
pub mod limits;
mod making;
mod places;
mod ranking;
mod reading;
mod rows;
mod search;
mod shape;
mod store;
mod tables;
mod trees;
mod writing;

pub use change::StoreChange;
pub use shape::{ClassShape, How, Neighbours, SetShape, Which};
pub use store::Store;

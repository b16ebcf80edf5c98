//! The explanation of a fault of a run: the line that names it, with the entity, the list, the
//! class or the value that the statement names, read off the state that the fault left as it was;
//! and the line on the piece of the data at which the statement failed.
#![tactic(auto)]

mod about;
mod asked;
mod data_pieces;
mod data_sentence;
mod data_texts;
mod laws;
mod missing;
mod operands;
mod reading;
mod refused;
mod sentence;
mod sizes;
mod texts;
mod told;

pub use asked::push_asked_of_fault;
pub use data_texts::push_next_pieces;
pub use laws::{lines_leave_the_pieces, what_is_missing_faults, what_is_missing_is_not_there};
pub use sentence::push_fault_sentence;
pub use told::Told;

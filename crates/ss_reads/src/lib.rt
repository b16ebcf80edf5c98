//! What the statement that runs next looks at: each part of the state that its text names as a
//! value, with its value and the step that changed it last.
#![tactic(auto)]

mod answer;
mod control_flow;
mod evaluation;
mod expressions;
mod members;
mod part;
mod places;
mod read;
mod reads;
mod same;
mod scene;
mod value;
mod words;
mod written;

pub use answer::push_reads;
pub use part::{Item, Part};
pub use read::{Read, Reference};
pub use reads::written_reads;
pub use value::PartReading;

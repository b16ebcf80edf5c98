//! What a question reads in the states of a run: its value, the steps at which it changes, the
//! movements there, and its history.
#![tactic(auto)]

mod change;
mod followed;
mod history;
mod reading;
mod search;
mod step_place;
mod table;
mod value;

pub use change::{back_change, run_change};
pub use followed::Followed;
pub use history::{last_change, push_history, push_why};
pub use reading::Reading;
pub use step_place::StepPlace;
pub use value::{Value, is_same, push_members, push_value};

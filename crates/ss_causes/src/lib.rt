//! What brought a section about: of a routine the CALL, of an event the step that last made its notice
//! pending. WHY CAUSE tells it, BACK CAUSE goes there.
#![tactic(auto)]

mod cause;
mod laws;
mod search;
mod turn;
mod walk;

pub use cause::Cause;
pub use laws::{causes_are_earlier, causes_lead_to_the_start};
pub use turn::{back_cause, push_why_cause};

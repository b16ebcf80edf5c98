//! The agenda: pending notices of events, kept as one ranked list for each event class.
#![tactic(auto)]

mod agenda;
pub mod laws;
pub mod limits;
mod listing;
mod order;
mod pending_notice;
mod placing;
mod ranking;
mod rule;
mod scheduling;

pub use agenda::{Agenda, AgendaChange, Slot};
pub use listing::Listing;
pub use pending_notice::PendingNotice;
pub use rule::ClassRule;

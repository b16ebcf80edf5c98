//! The names of a model, and warnings of suspicious words in it.
#![tactic(auto)]

mod breaches;
mod caret;
mod collected;
mod declarations;
mod dropped;
mod here;
mod index;
mod keys;
mod known;
mod landmarks;
mod language;
mod meaning;
mod names;
mod once;
mod pictures;
mod position;
mod printed;
mod ranked;
mod roles;
mod spoken;
mod statements;
mod unread;
mod unstarted;
mod unused;
mod values;
mod warnings;

pub use breaches::push_breach;
pub use index::{push_name, push_names};
pub use unused::push_program_warnings;
pub use warnings::push_warnings;

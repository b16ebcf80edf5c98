//! The requests of an editor, each answered by the debugger before the next is read.
#![tactic(auto)]

mod asking;
mod before;
mod breaks;
mod completions;
mod console;
mod desk;
mod fixed;
mod going;
mod launched;
mod laws;
mod looking;
mod moving;
mod opening;
mod pen;
mod reach;
mod refused;
mod setting;
mod shown;
mod targets;
mod telling;
mod turns;
mod watch;
mod words;

pub use before::turn_before;
pub use launched::Launched;
pub use laws::{
    each_request_has_one_answer, nearest_change_is_least, nearest_change_is_one_of_them,
    searches_for_a_line_end_nearest,
};
pub use opening::{Opening, launch};
pub use turns::{Further, turn_elsewhere};

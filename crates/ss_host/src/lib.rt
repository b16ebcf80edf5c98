//! The common edge of the programs: the words that they are started with, files, standard output,
//! and the reasons that stop them.
#![tactic(auto)]

mod arguments;
mod files;
mod stop;
mod stream;

pub use arguments::read_arguments;
pub use files::{read_file, read_model, read_or};
pub use stop::{Stop, Unread, explain, stop_by, tell};
pub use stream::Stream;

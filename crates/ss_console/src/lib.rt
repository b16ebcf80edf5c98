//! A dialogue over a console: a line is read, and its answer written whole, before the next is
//! read.
#![tactic(auto)]

mod answerer;
mod console;
mod cut;
mod dialogue;
mod entry;
mod laws;
mod lines;
mod memory;
mod puts;
mod reply;
mod stream;

pub use answerer::{Answerer, Go};
pub use console::{Console, PutFault, ReadFault};
pub use cut::Cut;
pub use dialogue::converse;
pub use entry::{Entry, note_written};
pub use laws::{answers_come_first, dialogue_writes_the_batch, kept_lines_tell_enough};
pub use lines::LONGEST_LINE;
pub use memory::MemoryConsole;
pub use puts::{put_all, put_texts};
pub use stream::StreamConsole;

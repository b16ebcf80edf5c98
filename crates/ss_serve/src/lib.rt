//! The session of an editor over a channel: a message is read, and the messages that answer it are
//! written whole, before the next is read.
#![tactic(auto)]

mod answerer;
mod channel;
mod examples;
mod fault;
mod memory;
mod session;
mod stream;

pub use answerer::Answerer;
pub use channel::{Channel, SendFault, Side};
pub use fault::SessionFault;
pub use memory::MemoryChannel;
pub use session::serve;
pub use stream::StreamChannel;

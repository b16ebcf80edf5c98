//! Lists of seats, in which a place is found down a tree.
//!
//! Contracts see an index ([`SeatIndex`]) as the list of its seats. A caller's [`Order`] says which
//! seats are after a place. The room of a seat is its node ([`SeatNode`]), made once: a node goes
//! into an index and comes out of it again, and no other call takes memory.
#![tactic(auto)]

mod index;
pub mod laws;
mod node;
mod order;
mod tree;

pub use index::SeatIndex;
pub use node::SeatNode;
pub use order::Order;

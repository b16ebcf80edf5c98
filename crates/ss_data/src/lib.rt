//! The data of a run: its pieces in order, and how many of them are taken.
#![tactic(auto)]

mod entry;
mod feed;
mod laws;
mod number;
mod pieces;

pub use entry::PieceKind;
pub use feed::Feed;

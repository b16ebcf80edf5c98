//! The interface to a run: the position in it, the parts of its state there, and the steps forward
//! and back.
//!
//! Code that asks about a run and moves over it is written over [`Timeline`], and knows no machine.
#![tactic(auto)]

mod timeline;

pub use timeline::Timeline;

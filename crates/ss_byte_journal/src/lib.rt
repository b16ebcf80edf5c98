//! Journals that are kept step by step in one stretch of memory: one of bytes, and one for changes
//! that few steps have.
//!
//! Contracts see them as they see `Journal` of ss_journal: a list of closed steps, an open step and
//! two numbers of room. [`ByteJournal`] notes or takes back a byte in a few instructions. Forgotten
//! bytes are passed over, and stay in place until room is made. In [`SparseJournal`] a step
//! without changes is one count.
#![tactic(auto)]

mod byte_journal;
mod sparse_journal;
mod step_sizes;

pub use byte_journal::ByteJournal;
pub use sparse_journal::SparseJournal;

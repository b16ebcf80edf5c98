//! The pen with which a reply is written.
use ss_messages::Counting;
use std::alloc::Global;

/// The pen with which a reply is written: the source of its memory, and how the editor counts.
#[derive(Clone, Copy)]
pub struct Pen {
    pub alloc: Global,
    pub counting: Counting,
}

//! The position of a listing, which an agenda's caller holds while it lists notices in order.
use ss_words::limits::MOST_CLASSES;

/// The position of a listing of the pending notices. It takes no memory of the heap.
#[derive(Drop)]
pub struct Listing {
    /// The seat of each class's first notice that is not listed yet.
    pub(crate) seats: [Option<u32>; MOST_CLASSES],
    /// How many notices it has listed.
    pub listed: usize,
}

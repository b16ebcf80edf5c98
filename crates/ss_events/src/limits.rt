//! The limit of schedulings. The definitions read this name too.

/// A run has at most 2^40 schedulings, each with its filing number; a further one is F20.
pub const MOST_SCHEDULINGS: u64 = 1_099_511_627_776;

//! The limits of the text at a stop (docs/PROMPT.md). The definitions read these names too.

/// The most changes.
pub const MOST_TOLD: usize = 5;

/// The most members of a list.
pub const MOST_LISTED: usize = 20;

/// The most columns of a line.
pub const MOST_COLUMNS: usize = 120;

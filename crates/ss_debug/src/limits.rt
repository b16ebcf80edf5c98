//! The limits of command lines (docs/DEBUGGER.md, "Lines"). The definitions read these names too.

/// The most bytes of a command line that is obeyed.
pub const LONGEST_LINE: usize = 200;

/// The most bytes of a name, the stops at its end counted.
pub const LONGEST_NAME: usize = 80;

/// The greatest bound of a movement, and the bound of RUN if none is given.
pub const GREATEST_BOUND: u64 = 1_000_000;

/// The most steps that FORGET can be asked to keep.
pub const GREATEST_KEPT: u64 = 1_000_000;

/// The greatest line that BREAK and CLEAR take.
pub const GREATEST_LINE: u64 = 1_000_000;

/// The greatest time that RUN TO takes.
pub const GREATEST_TIME: u64 = 9_223_372_036_854_775_807;

/// The greatest number by which SHOW takes an entity.
pub const GREATEST_ENTITY: u64 = 9_223_372_036_854_775_807;

/// The most break lines.
pub const MOST_BREAK_LINES: usize = 1_000;

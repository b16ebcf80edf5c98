//! The limits of a run (docs/LANGUAGE.md, "Limits"). The definitions read these names too.

/// The greatest position of a machine: a step further is not made (docs/DEBUGGER.md, "States").
pub const LAST_POSITION: u64 = (1 << 63) - 1;
/// At most 199 frames are below the last one, of 200 in all; a CALL further is F18.
pub const MOST_BELOW: usize = 199;
/// One SKIP appends at most 1000 lines; more are F13.
pub const MOST_SKIPPED_LINES: i64 = 1000;
/// A step notes at most 64 changes, and two for each target of its statement.
pub const MOST_STEP_CHANGES: usize = 64;

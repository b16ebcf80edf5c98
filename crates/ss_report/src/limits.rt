//! The limit of a report (docs/LANGUAGE.md, "Limits"). The definitions read this name too.

/// The most bytes of a report; a PRINT or a SKIP that would pass them is F19.
pub const LONGEST_REPORT: usize = 16_777_216;

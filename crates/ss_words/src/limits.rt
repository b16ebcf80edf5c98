//! The limits of a text and of a run (docs/LANGUAGE.md, "Words" and "Limits"). The definitions read
//! these names too.

/// The most bytes of a run of letters, digits and stops; a longer one is L3.
pub const LONGEST_RUN: usize = 80;
/// The largest number, 2^63 - 1; a larger one is L2.
pub const LARGEST_NUMBER: u64 = i64::MAX as u64;
/// The most lines of a picture; a PRINT of more, or of none, is L4.
pub const MOST_PICTURE_LINES: u64 = 100;
/// The most bytes of a line of a picture; a longer one is L5.
pub const LONGEST_PICTURE_LINE: usize = 132;

// Each of the others is passed by a word, which is P3.

/// The most classes of a program.
pub const MOST_CLASSES: usize = 64;
/// The most attributes of a class.
pub const MOST_ATTRIBUTES: usize = 32;
/// The most variables of the system and the preamble together.
pub const MOST_VARIABLES: usize = 256;
/// The most sets of a program.
pub const MOST_SETS: usize = 64;
/// The most keys of a ranking.
pub const MOST_KEYS: usize = 8;
/// The most sections of a program.
pub const MOST_SECTIONS: usize = 256;
/// The most parameters of a section, given and yielded together.
pub const MOST_PARAMETERS: usize = 32;
/// The most FOR phrases that are open at once.
pub const MOST_PHRASES: u32 = 16;
/// The most IFs that are open at once.
pub const MOST_IFS: u32 = 64;
/// The most parentheses that are open at once.
pub const MOST_PARENTHESES: u32 = 50;

// Limits of a run.

/// The most references that a run gives, and so the most event notices that it has; a further one
/// is F20.
pub const MOST_REFERENCES: usize = 1_000_000;

//! The limits of a store (docs/LANGUAGE.md, "Entities"). The definitions read these names too.

/// A permanent class has at most this number of entities; a CREATE of more, or of none, is F13.
pub const MOST_ENTITIES: usize = 10_000;

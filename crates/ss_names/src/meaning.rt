//! The meanings with which names are declared.

/// The meaning with which a name is declared, by the words around it.
#[derive(Clone, Copy)]
pub enum Meaning {
    /// A class after EVERY under no heading.
    Class,
    Permanent,
    Temporary,
    Event,
    /// After HAS of EVERY.
    Attribute,
    /// After HAS of SYSTEM, or in a DEFINE of variables in the preamble.
    Variable,
    Set,
    Routine,
}

/// A declaration: a name, its declared meaning, and its place.
#[derive(Clone, Copy)]
pub struct Row<'a> {
    pub name: &'a [u8],
    pub meaning: Meaning,
    /// The class of EVERY by whose clause it is declared; empty if there is none.
    pub of: &'a [u8],
    pub line: usize,
}

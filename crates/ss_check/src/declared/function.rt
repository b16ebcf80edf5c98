//! The functions that the language gives.

/// A function of the language (docs/LANGUAGE.md, "Names and values").
#[derive(Clone, Copy)]
pub enum Function {
    /// `ABS.F`
    Absolute,
    /// `MAX.F`
    Greatest,
    /// `MIN.F`
    Least,
    /// `DIV.F`
    Quotient,
    /// `MOD.F`
    Remainder,
}

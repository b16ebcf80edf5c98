//! The variables that a resolved name can be.
/// The variable that a name in an expression or a target means (docs/LANGUAGE.md, "Names and
/// values").
#[derive(Clone, Copy, PartialEq, Eq)]
pub enum Variable {
    /// A global variable, by its number in the program's table.
    Global(usize),
    /// A local variable, by its number in the table of its section.
    Local(usize),
    /// `TIME.V`. It can be read, and is never a target.
    Clock,
}

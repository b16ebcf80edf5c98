//! The operations that a linear expression is lowered to.
/// An operation on the accumulator. Operands are resolved: constants are in range, and variables
/// are numbers in tables.
#[derive(Clone, Copy)]
pub enum Op {
    LoadConstant(i64),
    LoadGlobal(usize),
    LoadLocal(usize),
    /// `TIME.V`.
    LoadClock,
    /// An attribute, by its class and its number there, of the entity that the accumulator names.
    LoadAttribute(usize, usize),
    AddConstant(i64),
    AddGlobal(usize),
    AddLocal(usize),
    /// A constant times a variable.
    AddScaledGlobal(i64, usize),
    AddScaledLocal(i64, usize),
    /// An attribute, by its class and its number there, of the entity that a variable names.
    AddAttributeGlobal(usize, usize, usize),
    AddAttributeLocal(usize, usize, usize),
    SubtractConstant(i64),
    SubtractGlobal(usize),
    SubtractLocal(usize),
    SubtractScaledGlobal(i64, usize),
    SubtractScaledLocal(i64, usize),
    SubtractAttributeGlobal(usize, usize, usize),
    SubtractAttributeLocal(usize, usize, usize),
    MultiplyConstant(i64),
    MultiplyGlobal(usize),
    MultiplyLocal(usize),
    /// `DIV.F` by a constant.
    DivideConstant(i64),
    /// `MOD.F` by a constant.
    RemainderConstant(i64),
    Negate,
    /// `ABS.F`.
    Absolute,
}

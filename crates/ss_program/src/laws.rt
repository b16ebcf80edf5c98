//! Laws on the definitions. The functions do nothing, and their contracts say the laws.
ghost use Rattle.ss_program.specs.Examples.{NamesAreFound, LinearIsLowered};

/// A name is found whole and in upper case, and TIME.V is not found.
pub fn names_are_found()
    ensures { NamesAreFound }
{}

/// A linear expression has operations; a single number or variable has none.
pub fn linear_expressions_are_lowered()
    ensures { LinearIsLowered }
{}

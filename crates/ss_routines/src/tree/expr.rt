//! The tree of an expression: its terms, factors and arguments.

use ss_words::{Name, TermSign};

/// An expression: a first term, whose sign may be written before it, and the terms added to it or
/// subtracted from it
/// (docs/LANGUAGE.md, "Expressions").
#[derive(Debug, Drop)]
#[cycle(ast)]
pub struct Expr {
    pub sign: Option<TermSign>,
    pub first: Term,
    pub more: Vec<Added>,
}

/// A further term of an expression, with the sign that joins it.
#[derive(Debug, Drop)]
#[cycle(ast)]
pub struct Added {
    pub sign: TermSign,
    pub term: Term,
}

/// A product: a first factor and those that it is multiplied by.
#[derive(Debug, Drop)]
#[cycle(ast)]
pub struct Term {
    pub first: Factor,
    pub more: Vec<Factor>,
}

/// A factor of a product.
#[derive(Debug, Drop)]
#[cycle(ast)]
pub enum Factor {
    /// From 0 to 2^63 - 1.
    Number(u64),
    /// A name by itself, in upper case.
    Name(Name),
    /// A name with its arguments between parentheses: a function's, or a subscript.
    Applied(Box<Application>),
    /// An expression between parentheses.
    Within(Box<Expr>),
}

/// A name with its arguments, the first one and those after it.
#[derive(Debug, Drop)]
#[cycle(ast)]
pub struct Application {
    pub name: Name,
    pub first: Box<Expr>,
    pub others: Vec<Expr>,
}

//! The statements that create and destroy entities, as places.
use crate::expr::Expr;
use crate::target::Target;

/// A statement that makes or ends entities. `is_called` says whether CALLED is written; without it
/// the target or the value is the global variable of the class's name.
#[derive(Drop)]
pub enum Making {
    /// `CREATE class [CALLED target]`.
    Create {
        class: usize,
        is_called: bool,
        target: Target,
    },
    /// `CREATE EVERY class [(number)]`: `count` is the number of the global variable `N.class`.
    CreateEvery {
        class: usize,
        number: Option<Expr>,
        count: usize,
    },
    /// `DESTROY class [CALLED entity]`.
    Destroy {
        class: usize,
        is_called: bool,
        entity: Expr,
    },
}

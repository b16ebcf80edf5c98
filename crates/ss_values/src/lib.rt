//! The values of expressions and the truth of conditions, over a store of any set board.
#![tactic(auto)]

mod conditions;
mod evaluation;
mod fast;
mod running;
mod view;

pub use conditions::holds;
pub use evaluation::{
    assigned_value, subscript_value, sum, target_value, value, values, variable_value,
};
pub use view::View;

//! The names that a place uses, each with its use.
pub mod conditions;
pub mod expressions;
pub mod places;
pub mod statements;
pub mod use_list;

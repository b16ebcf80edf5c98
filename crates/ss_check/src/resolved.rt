//! A sound text with the number of each name in its table in place of the name.
pub mod class_tables;
pub mod conditions;
pub mod declarations;
pub mod expressions;
pub mod phrases;
pub mod places;
pub mod rankings;
pub mod references;
pub mod scope;
pub mod section_locals;
pub mod sections;
pub mod set_tables;
pub mod statements;

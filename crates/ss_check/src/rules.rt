//! The rules of the checker, by the kind of statement that breaks them (docs/LANGUAGE.md, "Rules of the checker").
pub mod breach;
pub mod fields;
pub mod heads;
pub mod items;
pub mod keys;
pub mod named;
pub mod places;
pub mod uses;
pub mod wrong_heads;
pub mod wrong_items;
pub mod wrong_uses;

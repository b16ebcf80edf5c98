//! The reader of sections, a file for each part of the grammar (docs/LANGUAGE.md, "Grammar").
//!
//! If a reading is refused after a part that was read, that part is let go by a call of `drop`
//! before the function ends: at a `?` the proof would go through the end of its whole tree again.
pub mod assignment;
pub mod block;
pub mod compute;
pub mod conditions;
pub mod exchange;
pub mod expressions;
pub mod filing;
pub mod find;
pub mod head;
pub mod lists;
pub mod names;
pub mod noted;
pub mod phrases;
pub mod question;
pub mod statement;
pub mod timing;
pub mod transfer;

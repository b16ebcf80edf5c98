//! The places of the words of a text: their numbers, and the columns at which they begin; how lines
//! are quoted; and which reserved words are dropped.
#![tactic(auto)]

mod bytes;
mod column;
mod numbering;
mod quotes;
mod reserved;

pub use bytes::{in_run, is_allowed, is_joined, is_stray, run_len};
pub use column::{
    Place, behind_feed, behind_feeds, line_at, line_of, place_of, with_blank_comments,
};
pub use numbering::{copied_kind, numbered_words};
pub use quotes::{first_bytes, push_blanks, push_caret, push_number, push_shown, push_source};
pub use reserved::{DROPPED, SCHEDULING, is_among, is_kind_among};

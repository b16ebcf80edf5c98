//! Movements to a change, to an aim, over and out of sections, to a time and to a position.
#![tactic(auto)]

mod ahead;
mod aim;
mod answer;
mod attribute;
mod back;
mod change_search;
mod count;
mod counted;
mod entity_numbers;
mod examples;
mod glance;
mod history;
mod laws;
mod movement;
mod question;
mod reading;
mod rows;
mod search;
mod sight;
mod sought;
mod table;
mod text;
mod told;
mod touches;
mod until;
mod value;

pub use aim::Aim;
pub use answer::{push_answer, push_asked};
pub use attribute::{attribute_named, push_attribute};
pub use change_search::is_at_stop;
pub use history::{push_history, push_why, return_to};
pub use laws::{
    back_over_ends_within_its_bound, back_until_returns, go_first_ends_at_the_first,
    histories_are_true, histories_are_whole, histories_go_down, no_aim_leads_past_an_end,
    no_movement_passes_an_end, over_ends_within_its_bound,
};
pub use movement::Movement;
pub use question::Question;
pub use search::make_movement;
pub use sought::{is_ready_now, step_once};
pub use table::{present_line, push_head_of, push_no_change, push_row_of};
pub use text::{backward_word, forward_word};
pub use until::{back_until, go_first, run_until};
pub use value::push_value;

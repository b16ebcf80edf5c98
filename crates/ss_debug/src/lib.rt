//! The debugger: it reads command lines, and gives the effect and the answer of each command.
#![tactic(auto)]

mod break_condition;
mod break_lines;
mod commands;
mod debugger;
mod entity_text;
mod entry_text;
mod events_text;
mod go;
mod laws;
mod limits;
mod movement;
mod movement_text;
mod name;
mod pieces;
mod program_rows;
mod read;
mod ready;
mod set_text;
mod shown_break;
mod stop_condition;
mod text;

pub use break_condition::BreakCondition;
pub use commands::{Command, Movement, Question};
pub use debugger::{Debugger, obey};
pub use entity_text::push_entity;
pub use entry_text::push_entry;
pub use events_text::{push_notice, push_notices};
pub use go::Go;
pub use laws::{
    a_condition_that_holds_stops_as_none, a_movement_back_has_one_end, a_movement_has_one_end,
    every_movement_ends_within_its_bound, forget_leaves_the_newest_steps,
};
pub use limits::{GREATEST_BOUND, GREATEST_LINE};
pub use movement_text::{push_moment, push_place};
pub use name::Name;
pub use pieces::split_line;
pub use program_rows::{find_class, find_set, place_line};
pub use read::command;
pub use set_text::{class_value, member_behind, push_list, push_listed};
pub use shown_break::ShownBreak;
pub use text::{find_variable, push_integer, push_number};

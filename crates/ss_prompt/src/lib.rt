//! The prompt: the lines of an analyst, each answered by the debugger before the next is read.
#![tactic(auto)]

mod advice;
mod arguments;
mod asked;
mod asked_text;
mod break_list;
mod break_place;
mod break_words;
mod causes;
mod commands;
mod completions;
mod console_words;
mod cuts;
mod desk;
mod displays;
mod explained;
mod help;
mod histories;
mod laws;
mod left;
mod lent;
mod line;
mod listing;
mod made;
mod makes;
mod manner;
mod misread;
mod missing;
mod notice_rows;
mod pieces;
mod places;
mod prompt;
mod read;
mod refusal;
mod rows;
mod rows_asked;
mod sections;
mod seeing;
mod shown;
mod sight;
mod source;
mod stops;
mod table;
mod until;

pub use break_place::{BreakPlace, section_on};
pub use causes::CauseCommand;
pub use commands::PromptCommand;
pub use completions::push_completions;
pub use console_words::push_console_words;
pub use explained::{CheckRefusal, push_check_explanation};
pub use laws::{
    other_commands_leave_the_debugger, plain_answers_come_first, plain_lines_answer_the_batch,
    plain_lines_stay, plain_texts_answer_the_batch, states_left_are_found,
    what_is_missing_is_answered_so,
};
pub use lent::{LentModel, answer_command};
pub use line::Line;
pub use manner::Manner;
pub use misread::line_misread;
pub use missing::{Missing, asked_of_program, bare_question, push_missing};
pub use prompt::{Prompt, Sources};
pub use read::prompt_command;
pub use shown::Shown;
pub use sight::Sight;
pub use source::{push_marked_line, source_lines};
pub use until::Until;

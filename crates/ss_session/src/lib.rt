//! A whole session: model, data and commands in, the transcript out.
#![tactic(auto)]

mod answers;
mod ending;
pub mod examples;
mod laws;
mod letting_go;
mod load;
mod outlet;
mod refusal;
mod turns;
mod whole;

pub use ending::{End, SessionFault, exit_status};
pub use laws::{model_has_one_outcome, program_is_refused_in_one_part, program_spelling_is_unique};
pub use letting_go::{drop_decls, drop_symbols, drop_words};
pub use load::{LoadFault, Loaded, load_program, load_with_symbols};
pub use outlet::{MemoryOutlet, Outlet, PutFault, put_all};
pub use refusal::refusal_text;
pub use whole::{
    Opened, machine, open_debugger, open_debugger_with_symbols, session, session_over,
};

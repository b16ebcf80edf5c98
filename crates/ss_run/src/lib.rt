//! A whole run: model and data in, the report out; in addition a trace and results.
#![tactic(auto)]

mod explained;
mod fields;
mod followed;
mod glance;
mod here;
mod last_seen;
mod laws;
mod measure;
mod results;
mod rows;
mod start;
mod traced;
mod warned;
mod watched;
mod whole_run;

pub use fields::{unfit_values, unfit_words};
pub use laws::{rows_are_the_history, run_has_one_end, values_that_do_not_fit_are_counted};
pub use measure::{Formula, Measure, push_measure};
pub use results::{Asked, results_head};
pub use traced::{Outlets, trace_model};
pub use warned::model_warnings;
pub use whole_run::{Progress, RunCut, RunEnd, WholeRun, report, run_model, run_status};

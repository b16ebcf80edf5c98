//! Laws on the definitions. Each function does nothing, and its contract says the law.
ghost use Rattle.ss_run.specs.Laws.{EachRunEnds, EndsAtOnePosition, RowsAreTheHistory, AreCounted};

/// Each run ends at exactly one position.
#[tactic(auto, using(crate::proofs::OneEnd::each_ends, crate::proofs::OneEnd::ends_once))]
pub fn run_has_one_end()
    ensures some { EachRunEnds }
    ensures one { EndsAtOnePosition }
{}

/// The rows of one question, or of one text, are its history over the whole run, the oldest step
/// first.
#[tactic(auto, using(crate::proofs::HistoryRows::rows_told))]
pub fn rows_are_the_history()
    ensures { RowsAreTheHistory }
{}

/// The values that did not fit, as they are counted on a report, are those of its pictures.
#[tactic(auto, using(crate::proofs::Unfit::counted))]
pub fn values_that_do_not_fit_are_counted()
    ensures { AreCounted }
{}

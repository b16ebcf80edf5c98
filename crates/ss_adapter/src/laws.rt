//! Laws on the definitions. Each function does nothing, and its contract says the law.
ghost use Rattle.ss_adapter.specs.Laws.{HaveOneAnswer, SearchesEndNearest};
ghost use Rattle.ss_adapter.specs.Reach.{NearestIsLeast, NearestIsOne};

/// The nearest of the changes of some questions is no further than any.
pub fn nearest_change_is_least()
    ensures { NearestIsLeast }
{}

/// It is one of them, the one in its place.
pub fn nearest_change_is_one_of_them()
    ensures { NearestIsOne }
{}

/// Each request has one reply, or one failure, which is sent first; only events follow it.
#[tactic(auto, using(crate::proofs::OneAnswer::one_answer))]
pub fn each_request_has_one_answer()
    ensures { HaveOneAnswer }
{}

/// A search for a line of the model, as for the targets of goto, ends at the nearest state on it, or
/// at one of its bounds.
#[tactic(auto, using(crate::proofs::LineStops::ends_nearest))]
pub fn searches_for_a_line_end_nearest()
    ensures { SearchesEndNearest }
{}

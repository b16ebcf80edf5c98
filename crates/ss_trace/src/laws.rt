//! Laws on the definitions. Each function does nothing, and its contract says the law.
ghost use Rattle.ss_trace.specs.Laws.{OverEnds, BackOverEnds};
ghost use Rattle.ss_trace.specs.Laws.{StartIsBehindReady, CommandsPassNoEnd, MovementsPassNoEnd};
ghost use Rattle.ss_trace.specs.Laws.{HistoriesAreWhole, HistoriesAreTrue, HistoriesGoDown};
ghost use Rattle.ss_trace.specs.Laws.{FirstEnds, UntilsPassNoEnd, BackUntilReturns};

/// OVER ends within its bound, never past a state that isn't ready nor the last position.
pub fn over_ends_within_its_bound()
    ensures { OverEnds }
{}

/// BACK OVER ends within its bound, never before the earliest kept position.
pub fn back_over_ends_within_its_bound()
    ensures { BackOverEnds }
{}

/// No command and no movement leads past a state that is not ready, so that each state before the
/// debugger's position is ready: HISTORY and WHY, which go back and forward again over the same
/// steps, meet no other.
pub fn no_movement_passes_an_end()
    ensures start { StartIsBehindReady }
    ensures commands { CommandsPassNoEnd }
    ensures movements { MovementsPassNoEnd }
{}

/// A history has each kept step before at which its question changes.
pub fn histories_are_whole()
    ensures { HistoriesAreWhole }
{}

/// A history has no other steps.
pub fn histories_are_true()
    ensures { HistoriesAreTrue }
{}

/// The steps after a step of a history are the history at that step: the newest is the first.
pub fn histories_go_down()
    ensures { HistoriesGoDown }
{}

/// GO FIRST ends at the first state that is met, never past a state that isn't ready nor the last
/// position.
pub fn go_first_ends_at_the_first()
    ensures { FirstEnds }
{}

/// RUN UNTIL, BACK UNTIL and GO FIRST lead past no state that is not ready either.
pub fn no_aim_leads_past_an_end()
    ensures { UntilsPassNoEnd }
{}

/// BACK UNTIL from a later position returns to the state at which RUN UNTIL met its aim.
pub fn back_until_returns()
    ensures { BackUntilReturns }
{}

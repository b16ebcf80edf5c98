//! Laws of the findings, and of the pieces of the data. Each function does nothing, and its
//! contract says the law.
ghost use Rattle.ss_faults.specs.Laws.{LinesLeaveThePieces, WhatIsMissingFaults};
ghost use Rattle.ss_faults.specs.Laws.{WhatIsMissingIsNotThere};

/// The entity that is missing by the finding about a statement does not exist in that state.
#[tactic(auto, using(crate::proofs::NotThere::not_there))]
pub fn what_is_missing_is_not_there()
    ensures { WhatIsMissingIsNotThere }
{}

/// A statement whose finding is a missing entity faults in that state, except an IF that has an
/// earlier relation which does not hold.
pub fn what_is_missing_faults()
    ensures { WhatIsMissingFaults }
{}

/// The pieces of a text, without their lines, are the pieces that a run takes, in order.
#[tactic(auto, using(crate::proofs::PieceWalks::bytes_of_pieces))]
pub fn lines_leave_the_pieces()
    ensures { LinesLeaveThePieces }
{}

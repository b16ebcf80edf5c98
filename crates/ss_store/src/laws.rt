//! Laws on the definitions. Each function does nothing, and its contract says the law.
ghost use Rattle.ss_store.specs.Examples.{FifoFilesLast, LifoFilesFirst, RankedByTwoKeys, RankedByPresentKeys};
ghost use Rattle.ss_store.specs.Examples.{FiledBesideEnds, RemovedAnywhere, LowestFaultFirst, EndedIsGone};
ghost use Rattle.ss_store.specs.Examples.{EndedInNoUse};
ghost use Rattle.ss_store.specs.Places.{FiledBetween, OtherListsStay};

/// FIFO files last.
pub fn fifo_files_last()
    ensures { FifoFilesLast }
{}

/// LIFO files first.
pub fn lifo_files_first()
    ensures { LifoFilesFirst }
{}

/// A set ranked by HIGH and then by LOW files before the first member that ranks strictly after,
/// and so after those with which it ties.
pub fn ranked_by_two_keys()
    ensures { RankedByTwoKeys }
{}

/// A change of an attribute moves nothing, and filing goes by the attributes as they are then.
pub fn ranked_by_present_keys()
    ensures { RankedByPresentKeys }
{}

/// BEFORE and AFTER the first and the last member.
pub fn filed_beside_ends()
    ensures { FiledBesideEnds }
{}

/// The first, the last, the middle and the only member removed.
pub fn removed_anywhere()
    ensures { RemovedAnywhere }
{}

/// If two faults apply, the one with the lower number is reported.
pub fn lowest_fault_first()
    ensures { LowestFaultFirst }
{}

/// FILE puts a member between two parts of the list. Each discipline and each place that it names
/// determines which parts.
pub fn filed_between()
    ensures { FiledBetween }
{}

/// If one list is changed, each other stays.
pub fn other_lists_stay()
    ensures { OtherListsStay }
{}

/// An entity that was ended does not exist, and its reference is not given again.
pub fn ended_is_gone()
    ensures { EndedIsGone }
{}

/// A member and an owner of members are not ended; the fault of a member is reported first.
pub fn ended_in_no_use()
    ensures { EndedInNoUse }
{}

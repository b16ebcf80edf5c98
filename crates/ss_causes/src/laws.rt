//! Laws on the definitions. Each function does nothing, and its contract says the law.
ghost use Rattle.ss_causes.specs.Laws.{CausesAreEarlier, CausesMakePending};
ghost use Rattle.ss_causes.specs.Laws.{BackCauseGoesBack, BackCausesEnd, StartHasNoCause};

/// The step of a cause is before its state, and is kept. That of an event made its notice pending.
pub fn causes_are_earlier()
    ensures earlier { CausesAreEarlier }
    ensures pending { CausesMakePending }
{}

/// BACK CAUSE goes back. Given again and again it ends at the earliest kept state; if all steps are
/// kept that is state 0, whose cause is the start.
pub fn causes_lead_to_the_start()
    ensures back { BackCauseGoesBack }
    ensures ends { BackCausesEnd }
    ensures start { StartHasNoCause }
{}

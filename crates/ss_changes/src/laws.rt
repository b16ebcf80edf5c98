//! The laws of the changes that are shown.
ghost use Rattle.ss_changes.specs.Laws.{ChangesAreExact, ChangesAreAll};

/// Each part that is shown differs, and has its values. Each part that is not shown is equal, or it
/// belongs to an entity that lives in only one of the two states, which is shown itself.
pub fn what_a_step_changed_is_exact()
    ensures { ChangesAreExact }
{}

/// Each global variable, local of the last frame that both states have, attribute, entity, list and
/// notice whose value differs is shown, or it belongs to an entity that lives in only one of the
/// two states. The same is true of the clock, the entry, the number of values taken from the data,
/// and the length of the report.
pub fn what_a_step_changed_is_all()
    ensures { ChangesAreAll }
{}

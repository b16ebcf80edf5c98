//! A law of references. The function does nothing, and its contract says the law.
ghost use Rattle.ss_scopes.specs.Laws.{AreReadBack};

/// The reference of a class, an entity, a set, a list, or of the locals of a frame is read back as that
/// part: so two parts have two references, in each state the same.
#[tactic(auto, using(crate::proofs::ReadBack::read_back))]
pub fn references_are_read_back()
    ensures { AreReadBack }
{}

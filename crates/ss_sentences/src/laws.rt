//! Laws of the explanation of a model. The function does nothing, and its contract says the law.
ghost use Rattle.ss_sentences.specs.Laws.{NothingElseIsSaid, SomethingIsSaid};

/// Each text has one explanation: the empty one if no rule L or P refuses it, and else one text.
#[tactic(auto, using(crate::proofs::OneSaying::something, crate::proofs::OneSaying::nothing_else))]
pub fn one_thing_is_said()
    ensures exists { SomethingIsSaid }
    ensures unique { NothingElseIsSaid }
{}

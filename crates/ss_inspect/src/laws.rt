//! The laws that hold of every state that is shown.
ghost use Rattle.ss_inspect.specs.Laws.{LivingAreThoseThatExist};

/// The numbers that SHOW c gives are those of the entities that exist, and no others.
pub fn the_living_are_those_that_exist()
    ensures { LivingAreThoseThatExist }
{}

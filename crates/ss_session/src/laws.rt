//! Laws on the definitions. Each function does nothing, and its contract says the law.
ghost use Rattle.ss_session.specs.Laws.{ModelHasOutcome, OutcomeIsUnique, ProgramIsRefusedInPart};
ghost use Rattle.ss_session.specs.Laws.{ProgramSpellingIsUnique};

/// A model has exactly one outcome: each byte string is refused by one rule at one line, or is one
/// program.
pub fn model_has_one_outcome()
    ensures exists { ModelHasOutcome }
    ensures unique { OutcomeIsUnique }
{}

/// The refusal of a program's plain words, by the farthest word of preamble and sections together.
/// It is the refusal of the preamble, or, if the preamble is read, that of the sections after it.
pub fn program_is_refused_in_one_part()
    ensures { ProgramIsRefusedInPart }
{}

/// No two programs have one spelling, with or without a preamble before their sections.
pub fn program_spelling_is_unique()
    ensures { ProgramSpellingIsUnique }
{}

//! Laws on the definitions. Each function does nothing, and its contract says the law.
ghost use Rattle.ss_state.specs.Laws.{ProgramsKeepStatesWell, StepsKeepItems, StepsNoteFew};

/// The start of a checked program's run over any data is well-formed, and a step keeps every state
/// well-formed.
pub fn states_stay_well_formed()
    ensures { ProgramsKeepStatesWell }
{}

/// No step notes more than 64 changes and two for each target of its statement.
pub fn steps_note_few_changes()
    ensures { StepsNoteFew }
{}

/// No step changes the items of the data.
pub fn steps_keep_items()
    ensures { StepsKeepItems }
{}

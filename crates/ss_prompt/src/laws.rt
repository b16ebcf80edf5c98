//! Laws on the definitions. Each function does nothing, and its contract says the law.
ghost use Rattle.ss_prompt.specs.Laws.{PlainLinesStay, FewAreMeantOtherwise, PlainAnswersComeFirst};
ghost use Rattle.ss_prompt.specs.Laws.{PlainLinesAnswerTheBatch, PlainLinesLeadAsTheBatch};
ghost use Rattle.ss_prompt.specs.Laws.{OthersLeaveTheBreakLines, OthersStandStill, ClearLeavesNoBreakLine};
ghost use Rattle.ss_prompt.specs.Laws.{LeftStatesAreFound};
ghost use Rattle.ss_prompt.specs.Laws.{LinesAreThoseOfTheBatch, KeptLinesSayTheSame, PlainTextsAnswerTheBatch};
ghost use Rattle.ss_prompt.specs.Laws.{MissingVariablesAreAnsweredSo, MissingListsAreAnsweredSo};
ghost use Rattle.ss_prompt.specs.Laws.{MissingClassesAreAnsweredSo, MissingAttributesAreAnsweredSo};

/// A line that is a command of docs/DEBUGGER.md is that command at the prompt, but for BREAK of a
/// line without a place.
pub fn plain_lines_stay()
    ensures stay { PlainLinesStay }
    ensures few { FewAreMeantOtherwise }
{}

/// Its answer begins with that of docs/DEBUGGER.md, and it leads the debugger to the same state.
pub fn plain_answers_come_first()
    ensures { PlainAnswersComeFirst }
{}

/// Lines that are all such commands are answered as in a transcript, with more after each answer,
/// and lead to the state whose report the transcript shows.
pub fn plain_lines_answer_the_batch()
    ensures answers { PlainLinesAnswerTheBatch }
    ensures report { PlainLinesLeadAsTheBatch }
{}

/// The lines of a text, each as a console keeps it, give the same commands as in a batch. A text of
/// only such commands is answered as in its transcript, with more after each answer.
pub fn plain_texts_answer_the_batch()
    ensures lines { LinesAreThoseOfTheBatch }
    ensures kept { KeptLinesSayTheSame }
    ensures answers { PlainTextsAnswerTheBatch }
{}

/// A command that is no movement leaves the debugger at its position. One that names no line of the
/// model leaves the break lines as they are, but CLEAR without a line, which leaves none.
pub fn other_commands_leave_the_debugger()
    ensures breaks { OthersLeaveTheBreakLines }
    ensures position { OthersStandStill }
    ensures none { ClearLeavesNoBreakLine }
{}

/// The state with which SHOW CHANGED compares is the one that was left, if it is kept.
pub fn states_left_are_found()
    ensures { LeftStatesAreFound }
{}

/// A name in a question that a program hasn't is reported as SHOW answers it in every state; for an
/// attribute, if the entity is there.
pub fn what_is_missing_is_answered_so()
    ensures variables { MissingVariablesAreAnsweredSo }
    ensures lists { MissingListsAreAnsweredSo }
    ensures classes { MissingClassesAreAnsweredSo }
    ensures attributes { MissingAttributesAreAnsweredSo }
{}

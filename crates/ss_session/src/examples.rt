//! Transcripts of whole models, computed on the definitions; the tests of the same names run
//! `session` on them. Each function does nothing, and its contract says the law.
ghost use Rattle.ss_session.specs.Examples.{EmptyProgramStops, BadCommandIsAnswered, FiveIsPrintedAgain};
ghost use Rattle.ss_session.specs.Examples.{BackEndsAtStart, OldStepsAreForgotten, OverflowStands};
ghost use Rattle.ss_session.specs.Examples.{WrongPictureIsRefused, EmptyTextIsRefused, WordBehindEndIsRefused};
ghost use Rattle.ss_session.specs.Examples.{TextsEndIsRefused, LargeNumberIsRefused};

/// A program that was not run has an empty report.
pub fn an_empty_program_stops()
    ensures { EmptyProgramStops }
{}

/// `FOO` is a bad command, and `step` at the commands' end is obeyed.
pub fn a_bad_command_and_one_without_a_line_end()
    ensures { BadCommandIsAnswered }
{}

/// A step back takes its line out of the report, and the step made again prints it again.
pub fn five_is_printed_again_after_a_step_back()
    ensures { FiveIsPrintedAgain }
{}

/// One step back from the start, and ten from state 3, end at the start.
pub fn back_goes_no_further_than_the_start()
    ensures { BackEndsAtStart }
{}

/// Steps that were forgotten cannot be taken back, and the state stays.
pub fn old_steps_are_forgotten()
    ensures { OldStepsAreForgotten }
{}

/// A sum past the range faults at its statement, and the state before it comes back.
pub fn an_overflow_stands_at_its_statement()
    ensures { OverflowStands }
{}

/// Models refused by C10, C11, P1, P2 and L2, under all commands.
pub fn refused_models_give_one_line()
    ensures wrong_picture { WrongPictureIsRefused }
    ensures empty_text { EmptyTextIsRefused }
    ensures word_behind_end { WordBehindEndIsRefused }
    ensures texts_end { TextsEndIsRefused }
    ensures large_number { LargeNumberIsRefused }
{}

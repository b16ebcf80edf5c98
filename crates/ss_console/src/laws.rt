//! Laws of dialogues. Each function does nothing, and its contract says the law.
ghost use Rattle.ss_console.specs.Laws.{BatchByInput, BatchByLine, AnswersComeFirst, ShortLinesAreKept};
ghost use Rattle.ss_console.specs.Laws.{LongLinesAreCut, WordsAreKept};

use crate::answerer::Answerer;

/// Without a terminal, with memory for each answer, a dialogue writes the text of the batch.
pub fn dialogue_writes_the_batch<A: Answerer>()
    ensures input { BatchByInput A.meaning }
    ensures line { BatchByLine A.meaning }
{}

/// Before each line there are the prompts, lines and whole answers of the turns before it, and its
/// own prompt.
pub fn answers_come_first<A: Answerer>()
    ensures { AnswersComeFirst A.meaning }
{}

/// The kept part of a line is as good as the line, for a caller that refuses a line past the limit
/// if it has a word.
pub fn kept_lines_tell_enough()
    ensures short { ShortLinesAreKept }
    ensures long { LongLinesAreCut }
    ensures words { WordsAreKept }
{}

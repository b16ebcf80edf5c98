//! Laws on the definitions. Each function does nothing, and its contract says the law.
ghost use Rattle.ss_preamble.specs.Laws.{SpellingIsUnique, AlwaysAnswered, AnswerIsUnique, WordsStandBehind};
ghost use Rattle.ss_preamble.specs.Laws.{WordsCountItems, LimitsLetPass, LimitsHold, LimitsRefuse};
ghost use Rattle.ss_preamble.specs.Laws.{BeginningsAreRefused, FarthestOfPrograms, WordsBehindEnd};

/// No two preambles have one spelling.
pub fn spelling_is_unique()
    ensures { SpellingIsUnique }
{}

/// A text has an answer.
pub fn words_are_answered()
    ensures { AlwaysAnswered }
{}

/// And no second one.
pub fn answer_is_unique()
    ensures { AnswerIsUnique }
{}

/// The counts of the words of a preamble are within the limits exactly if its items are.
pub fn words_count_items()
    ensures { WordsCountItems }
{}

/// A preamble within the limits is never refused.
pub fn limits_let_pass()
    ensures { LimitsLetPass }
{}

/// A preamble past the limits is refused by P3, at a word that passes one.
pub fn limits_hold()
    ensures { LimitsHold }
{}

/// A word that passes a limit is refused.
pub fn limits_refuse()
    ensures { LimitsRefuse }
{}

/// From the number that is given with a preamble on, the words are those after its END.
pub fn words_stand_behind()
    ensures { WordsStandBehind }
{}

/// A text that ends inside a preamble within the limits is refused by P2, at its last word.
pub fn beginnings_are_refused()
    ensures { BeginningsAreRefused }
{}

/// A whole program has one farthest word: it is the preamble's if that is refused, and else that of
/// the sections.
pub fn program_has_one_farthest_word()
    ensures { FarthestOfPrograms }
{}

/// The first word of an item after END is the farthest word of a program, so P1 refuses it.
pub fn no_item_stands_behind_end()
    ensures { WordsBehindEnd }
{}

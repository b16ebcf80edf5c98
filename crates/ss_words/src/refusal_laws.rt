//! Laws on the definitions. Each function does nothing, and its contract says the law.
ghost use Rattle.ss_words.specs.TextRefusal.{RefusalHasAPlace, RefusalIsAnswered, WordsBreakNoRule, PlacesAreBytes};

/// If a text is refused by a rule, the refusal has a place: the rule is broken there, no rule is
/// broken at an earlier place, and none of a lower number there.
pub fn refusal_has_a_place()
    ensures { RefusalHasAPlace }
{}

/// And by the rule that is so broken at some place, on that place's line, a text is refused.
pub fn refusal_is_answered()
    ensures { RefusalIsAnswered }
{}

/// If a text has words, no rule is broken at any place.
pub fn words_break_no_rule()
    ensures { WordsBreakNoRule }
{}

/// The places are the bytes of the text's lines.
pub fn places_are_bytes()
    ensures { PlacesAreBytes }
{}

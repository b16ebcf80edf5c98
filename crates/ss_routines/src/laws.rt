//! Laws on the definitions. Each function does nothing, and its contract says the law.
ghost use Rattle.ss_routines.specs.Laws.{SpellingIsUnique, AlwaysAnswered, AnswerIsUnique};
ghost use Rattle.ss_routines.specs.Laws.{LimitsLetPass, LimitsHold, LimitsRefuse};
ghost use Rattle.ss_routines.specs.OneTooMany.{LimitIsCounted, CountPassesLimit};
ghost use Rattle.ss_routines.specs.Examples.{ElseIsOfTheInnerIf, LoopEndsTheChain};
ghost use Rattle.ss_routines.specs.Examples.{ForControlsOneStatement, AndBindsMoreTightly};
ghost use Rattle.ss_routines.specs.Examples.{ParenthesesAreTold, ComputeIsTwoPlaces};
ghost use Rattle.ss_routines.specs.Examples.{OpenPhrasesAreTold};
ghost use Rattle.ss_routines.specs.Examples.{ExpressionIsAsked, ConditionIsAsked};
ghost use Rattle.ss_routines.specs.Asked.{ExpressionIsSpelled, SpelledIsExpression};
ghost use Rattle.ss_routines.specs.Asked.{ConditionIsSpelled, SpelledIsCondition};
ghost use Rattle.ss_routines.specs.Misfit.{MisfitIsRefused, FittingIsCondition, ConditionFits};
ghost use Rattle.ss_routines.specs.Misfit.{ExpressionBegins};

/// No two programs have one spelling.
pub fn spelling_is_unique()
    ensures { SpellingIsUnique }
{}

/// A list of plain words spells a list of sections, or is refused by a rule at a line.
pub fn words_are_answered()
    ensures { AlwaysAnswered }
{}

/// And they have no second answer.
pub fn answer_is_unique()
    ensures { AnswerIsUnique }
{}

/// A program within the limits is never refused.
pub fn limits_let_pass()
    ensures { LimitsLetPass }
{}

/// A program past the limits is refused by P3, at a word that passes one.
pub fn limits_hold()
    ensures { LimitsHold }
{}

/// A word that passes a limit is refused.
pub fn limits_refuse()
    ensures { LimitsRefuse }
{}

/// The word that passes a limit is one too many by counting the words before it: one of parentheses,
/// IFs, FOR phrases, parameters or sections.
pub fn limit_is_counted()
    ensures { LimitIsCounted }
{}

/// A word that is one too many by counting passes a limit, if no word before it does and programs
/// go on with it.
pub fn count_passes_limit()
    ensures { CountPassesLimit }
{}

/// `IF FOUND IF NONE ELSE ALWAYS ALWAYS`: the ELSE is of the inner IF.
pub fn else_is_of_the_inner_if()
    ensures { ElseIsOfTheInnerIf }
{}

/// `FOR EVERY T FOR EVERY S DO LOOP STOP`: one LOOP ends the chain, and STOP is after it.
pub fn loop_ends_the_chain()
    ensures { LoopEndsTheChain }
{}

/// `FOR EVERY T IF FOUND ALWAYS STOP`: the phrase controls only the IF.
pub fn for_controls_one_statement()
    ensures { ForControlsOneStatement }
{}

/// `X = 1 OR Y = 1 AND S = 1`: AND binds more tightly than OR.
pub fn and_binds_more_tightly()
    ensures { AndBindsMoreTightly }
{}

/// `(X) = 1` has a value in parentheses, and `(X = 1)` a condition.
pub fn parentheses_are_told()
    ensures { ParenthesesAreTold }
{}

/// A COMPUTE is two places in its line, and DO is none.
pub fn compute_is_two_places()
    ensures { ComputeIsTwoPlaces }
{}

/// How many phrases are open after small texts: after a chain of them, after the part that it
/// controls, in an IF and a loop that it controls, and after 16 and 17.
pub fn open_phrases_are_told()
    ensures { OpenPhrasesAreTold }
{}

/// Words that are an expression spell it, with at most 50 parentheses open at once.
pub fn expression_is_spelled()
    ensures { ExpressionIsSpelled }
{}

/// The words of an expression with at most 50 parentheses open at once are that expression.
pub fn spelled_is_expression()
    ensures { SpelledIsExpression }
{}

/// Words that are a condition spell it, with at most 50 parentheses open at once.
pub fn condition_is_spelled()
    ensures { ConditionIsSpelled }
{}

/// The words of a condition with at most 50 parentheses open at once are that condition.
pub fn spelled_is_condition()
    ensures { SpelledIsCondition }
{}

/// `X + Y * 2` is an expression, and `X + Y *` and `X Y` are none; X may be in 50 parentheses, and
/// not in 51.
pub fn expression_is_asked()
    ensures { ExpressionIsAsked }
{}

/// `X = 1 AND S IS EMPTY` is a condition, and `X` and `X = 1 Y = 1` are none.
pub fn condition_is_asked()
    ensures { ConditionIsAsked }
{}

/// Plain words that are refused as a condition are so by the definition of the rule.
pub fn misfit_is_refused()
    ensures { MisfitIsRefused }
{}

/// Plain words that are not refused are a condition.
pub fn fitting_is_condition()
    ensures { FittingIsCondition }
{}

/// Plain words that are a condition are not refused.
pub fn condition_fits()
    ensures { ConditionFits }
{}

/// Some condition begins with the words of each expression: words with which no condition begins
/// are the beginning of no expression.
pub fn expression_begins()
    ensures { ExpressionBegins }
{}

//! The rules by which the plain words come from the words, each on one word and its surroundings.
ghost use Rattle.std.specs.Prelude.{◌≡◌, if◌then◌else◌};
ghost use Rattle.ss_words.specs.PlainRules as spec;
ghost use Rattle.ss_words.specs.PlainRulesView.{surroundings_of};

use crate::mark::Mark;
use crate::reserved::Reserved;
use crate::word::Sign;

/// The surroundings of a word: its neighbours, if they are reserved words or signs, and its
/// governing word.
#[derive(Clone, Copy, Debug)]
pub struct Around {
    pub before: Option<Mark>,
    pub governing: Option<Mark>,
    pub behind: Option<Mark>,
}

/// A rule of the plain words (docs/LANGUAGE.md, "Plain words").
#[derive(Clone, Copy, Debug)]
pub enum Rule {
    AsFollows,
    WithoutFillers,
    ByGoverningWord,
    SingleCommas,
    PartingCommas,
}

impl Rule {
    ghost use Rattle.std.specs.Prelude.{◌≡◌};
    ghost use Rattle.ss_words.specs.PlainRulesView.{rule_of, surroundings_of};

    /// The result of this rule on a reserved word or sign; `None` if it drops it.
    pub fn apply(self, around: Around, mark: Mark) -> Option<Mark>
        ensures { result ≡ rule_of self (surroundings_of around) mark }
    {
        match self {
            Rule::AsFollows => as_follows(around, mark),
            Rule::WithoutFillers => without_fillers(around, mark),
            Rule::ByGoverningWord => by_governing_word(around, mark),
            Rule::SingleCommas => single_commas(around, mark),
            Rule::PartingCommas => parting_commas(around, mark),
        }
    }
}

fn as_follows(around: Around, mark: Mark) -> Option<Mark>
    ensures { result ≡ spec.as_follows (surroundings_of around) mark }
{
    match (mark, around) {
        (
            Mark::Reserved(Reserved::As),
            Around {
                behind: Some(Mark::Reserved(Reserved::Follows)),
                ..
            },
        ) => Some(Mark::Reserved(Reserved::Thus)),
        (
            Mark::Reserved(Reserved::Follows),
            Around {
                before: Some(Mark::Reserved(Reserved::As)),
                ..
            },
        ) => None,
        _ => Some(mark),
    }
}

fn single_commas(around: Around, mark: Mark) -> Option<Mark>
    ensures { result ≡ spec.single_commas (surroundings_of around) mark }
{
    match mark {
        Mark::Sign(Sign::Comma) if is_comma(around.before) => None,
        _ => Some(mark),
    }
}

fn is_comma(mark: Option<Mark>) -> bool
    ensures { result ≡ spec.is_comma mark }
{
    matches!(mark, Some(Mark::Sign(Sign::Comma)))
}

/// Whether it is a word that governs the AND and AT after it.
pub fn is_governing(mark: Mark) -> bool
    ensures { result ≡ spec.is_governing (Some mark) }
{
    match mark {
        Mark::Sign(_) => false,
        Mark::Reserved(word) => matches!(
            word,
            Reserved::Preamble
                | Reserved::Main
                | Reserved::Routine
                | Reserved::Event
                | Reserved::Define
                | Reserved::Let
                | Reserved::Add
                | Reserved::Subtract
                | Reserved::Create
                | Reserved::Destroy
                | Reserved::File
                | Reserved::Remove
                | Reserved::If
                | Reserved::For
                | Reserved::Find
                | Reserved::Compute
                | Reserved::Schedule
                | Reserved::Cancel
                | Reserved::Start
                | Reserved::Stop
                | Reserved::Call
                | Reserved::Return
                | Reserved::Read
                | Reserved::Print
                | Reserved::Skip
        ),
    }
}

fn without_fillers(around: Around, mark: Mark) -> Option<Mark>
    ensures { result ≡ spec.without_fillers (surroundings_of around) mark }
{
    let Mark::Reserved(word) = mark else {
        return Some(mark);
    };
    match word {
        Reserved::A | Reserved::An => after_schedule(around, Reserved::A),
        Reserved::The | Reserved::This => after_schedule(around, Reserved::The),
        Reserved::May | Reserved::Output => None,
        Reserved::To | Reserved::For if is_routine(around.before) => None,
        _ => Some(mark),
    }
}

fn by_governing_word(around: Around, mark: Mark) -> Option<Mark>
    ensures { result ≡ spec.by_governing_word (surroundings_of around) mark }
{
    match mark {
        Mark::Reserved(Reserved::And) if !is_if_or_for(around.governing) => {
            Some(Mark::Sign(Sign::Comma))
        }
        Mark::Reserved(Reserved::At) if !is_schedule(around.governing) => {
            Some(Mark::Reserved(Reserved::In))
        }
        _ => Some(mark),
    }
}

fn parting_commas(around: Around, mark: Mark) -> Option<Mark>
    ensures { result ≡ spec.parting_commas (surroundings_of around) mark }
{
    match mark {
        Mark::Sign(Sign::Comma) if is_reserved(around.behind) => None,
        _ => Some(mark),
    }
}

fn after_schedule(around: Around, article: Reserved) -> Option<Mark>
    ensures { result
        ≡ (if spec.is_schedule around.before then Some (Mark.Reserved article) else None) }
{
    is_schedule(around.before).then_some(Mark::Reserved(article))
}

fn is_schedule(mark: Option<Mark>) -> bool
    ensures { result ≡ spec.is_schedule mark }
{
    matches!(mark, Some(Mark::Reserved(Reserved::Schedule)))
}

fn is_routine(mark: Option<Mark>) -> bool
    ensures { result ≡ spec.is_routine mark }
{
    matches!(mark, Some(Mark::Reserved(Reserved::Routine)))
}

fn is_if_or_for(mark: Option<Mark>) -> bool
    ensures { result ≡ spec.is_if_or_for mark }
{
    matches!(mark, Some(Mark::Reserved(Reserved::If | Reserved::For)))
}

fn is_reserved(mark: Option<Mark>) -> bool
    ensures { result ≡ spec.is_reserved mark }
{
    matches!(mark, Some(Mark::Reserved(_)))
}

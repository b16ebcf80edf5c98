//! Whether a name is assigned, by the words before it; and the word after a name.
ghost use Rattle.std.specs.Prelude.{◌≡◌, map};
ghost use Rattle.ss_words.specs.Plain.{plain_at};
ghost use Rattle.ss_names.specs.Positions as spec;

use crate::here::Here;
use ss_words::{Mark, PlainWord, Reserved, Sign};

/// The reserved word or sign directly after a name, if one is there.
pub fn first_mark(words: &[PlainWord<'_>]) -> Option<Mark>
    ensures { result ≡ spec.first_mark (map plain_at words.now) }
{
    match words {
        [word, ..] => word.kind().mark(),
        [] => None,
    }
}

/// Whether a parenthesis is opened directly after a name.
pub fn opens(behind: &[PlainWord<'_>]) -> bool
    ensures { result ≡ spec.opens (map plain_at behind.now) }
{
    matches!(first_mark(behind), Some(Mark::Sign(Sign::Open)))
}

/// Whether the statement that a name is in assigns it.
pub fn is_target(here: Here) -> bool
    ensures { result ≡ spec.is_target here }
{
    match here.before {
        Some(Mark::Reserved(word)) => assigns(word, here.begun),
        Some(Mark::Sign(Sign::Comma)) => here.depth == 0 && assigns_list(here.begun, here.last),
        _ => false,
    }
}

/// Whether the statement that `begun` begins assigns the name directly after a reserved word.
fn assigns(word: Reserved, begun: Option<Reserved>) -> bool
    ensures { result ≡ spec.assigns word begun }
{
    match word {
        Reserved::Let | Reserved::Read | Reserved::Compute => true,
        Reserved::Yielding => matches!(begun, Some(Reserved::Call)),
        Reserved::To => matches!(begun, Some(Reserved::Add)),
        Reserved::From => matches!(begun, Some(Reserved::Subtract)),
        Reserved::Called => matches!(begun, Some(Reserved::Create | Reserved::Schedule)),
        Reserved::First | Reserved::Last => matches!(begun, Some(Reserved::Remove)),
        _ => false,
    }
}

/// Whether the statement that `begun` begins assigns each name of the list after its last reserved
/// word: READ, CALL after YIELDING, and COMPUTE before OF, which is IN.
fn assigns_list(begun: Option<Reserved>, last: Option<Reserved>) -> bool
    ensures { result ≡ spec.assigns_list begun last }
{
    match begun {
        Some(Reserved::Read) => true,
        Some(Reserved::Call) => matches!(last, Some(Reserved::Yielding)),
        Some(Reserved::Compute) => !matches!(last, Some(Reserved::In)),
        _ => false,
    }
}

//! The text about a breach of the checker's rules.
ghost use Rattle.std.specs.Prelude.{◌≡◌, ◌++◌, map, IfOk, OnOk};
ghost use Rattle.ss_words.specs.Plain.{plain_at};
ghost use Rattle.ss_names.specs.Known.{known_at};
ghost use Rattle.ss_names.specs.Subjects as spec;

use crate::caret::{push_word_caret, wrong_word};
use crate::collected::{Wanted, collect};
use crate::declarations::Declarations;
use crate::known::{Known, What, given, known_as, push_known};
use crate::statements::push_place;
use ss_check::{Reason, Wrong};
use ss_words::{PlainWord, TextFault, plain_words, words};
use std::alloc::{AllocError, Global};

/// The text for a reason that is about a name.
fn reason_text(reason: Reason) -> &'static [u8]
    ensures { result.now ≡ spec.reason_text reason }
{
    match reason {
        Reason::DeclaredTwice => b": it is declared a second time here.\n",
        Reason::WrongClass => b": it is not the class that is needed here.\n",
        Reason::WrongUse => b": it is used here as something that it is not.\n",
        Reason::Ownerless => b": no OWNS names it.\n",
        Reason::OwnedTwice => b": it is owned a second time here.\n",
        Reason::Memberless => b": no BELONGS TO of a class names it.\n",
        Reason::JoinedTwice => b": it is given members a second time here.\n",
        Reason::JoinedBySystem => b": the system cannot belong to it.\n",
        Reason::WrongKey => b": it is no attribute of the class that is ranked.\n",
        Reason::NoSection => b": it has no EVENT section.\n",
        Reason::NoEvent => b": it is no class of event notices.\n",
        Reason::OrderedTwice => b": it is ordered a second time here.\n",
        Reason::DisciplinedTwice => b": its discipline is given a second time here.\n",
        Reason::ParameterTwice => b": it is a parameter twice here.\n",
        Reason::BrokenTwice => b": its ties are broken a second time here.\n",
        Reason::ExternalTwice => b": it is named external a second time here.\n",
        Reason::WrongCount => b": it has another count of values here than it takes.\n",
        Reason::Fixed => b": it cannot be set.\n",
        Reason::NoVariable => b": it is no variable, as a loop needs.\n",
        _ => b"",
    }
}

/// The places among which the first one of a repeated name is.
fn repeated_in(reason: Reason) -> Option<Wanted>
    ensures { result ≡ spec.repeated_in reason }
{
    match reason {
        Reason::OwnedTwice => Some(Wanted::Owned),
        Reason::JoinedTwice => Some(Wanted::Joined),
        Reason::OrderedTwice => Some(Wanted::Ordered),
        Reason::DisciplinedTwice => Some(Wanted::Disciplines),
        Reason::BrokenTwice => Some(Wanted::Ties),
        Reason::ExternalTwice => Some(Wanted::Externals),
        _ => None,
    }
}

/// The kind that the language, a set or a class gives a name, or else its declared kind.
fn first_known<'a>(names: &Declarations<'a>, name: &[u8]) -> Known<'a>
    ensures { known_at result ≡ spec.first_known names.now name.now }
{
    let given = given(names, name);
    match given.what {
        What::Undeclared => known_as(names, name),
        _ => given,
    }
}

/// The knowledge of a name, with the line of the first of these places of it, if it has one.
fn told_at<'a>(
    alloc: Global,
    words: &[PlainWord<'_>],
    known: Known<'a>,
    name: &[u8],
    wanted: Wanted,
) -> Result<Known<'a>, AllocError>
    ensures { IfOk result (λ told. known_at told
        ≡ spec.told_at (map plain_at words.now) (known_at known.entry) name.now wanted) }
{
    let places = collect(alloc, wanted, words)?;
    match places.get(name) {
        Some(row) => Ok(Known {
            line: row.line,
            ..known
        }),
        None => Ok(known),
    }
}

/// The kind of a name, with the line of its first place if it is there a second time.
fn told_by<'a>(
    alloc: Global,
    words: &[PlainWord<'a>],
    names: &Declarations<'a>,
    name: &[u8],
    reason: Reason,
) -> Result<Known<'a>, AllocError>
    ensures { IfOk result (λ known. known_at known
        ≡ spec.told_by (map plain_at words.now) names.now name.now reason) }
{
    if matches!(reason, Reason::DeclaredTwice) {
        return Ok(first_known(names, name));
    }
    let known = known_as(names, name);
    match repeated_in(reason) {
        Some(wanted) => told_at(alloc, words, known, name, wanted),
        None => Ok(known),
    }
}

/// Appends the text about a name that is wrong.
fn push_named(
    alloc: Global,
    words: &[PlainWord<'_>],
    name: &[u8],
    reason: Reason,
    text: &mut Vec<u8>,
) -> Result<(), AllocError>
    ensures { OnOk result (text.new.items ≡ text.old.items
        ++ spec.named_text (map plain_at words.now) name.now reason) }
{
    let names = collect(alloc, Wanted::Declared, words)?;
    let known = told_by(alloc, words, &names, name, reason)?;
    text.extend_from_slice(name)?;
    text.extend_from_slice(b" is ")?;
    push_known(text, known)?;
    text.extend_from_slice(reason_text(reason))
}

/// Appends the text about what is wrong on a line.
fn push_reason(
    alloc: Global,
    words: &[PlainWord<'_>],
    line: usize,
    wrong: &Wrong,
    text: &mut Vec<u8>,
) -> Result<(), AllocError>
    ensures { OnOk result (text.new.items ≡ text.old.items
        ++ spec.reason_told (map plain_at words.now) line wrong.now.reason wrong.now.name) }
{
    match &wrong.name {
        Some(name) => push_named(alloc, words, name.bytes(), wrong.reason, text),
        None => push_place(alloc, words, wrong.reason, line, text),
    }
}

/// Appends the text about what is wrong with the statement on a line of a model that a rule of the
/// checker refuses (docs/SENTENCES.md), to follow that line. For a name it gives a caret below it,
/// after its line if that is a later one, its kind, the place of its declaration, and the reason.
/// For a statement it gives its surroundings. It appends nothing if a rule L refuses the model. The
/// only error is that memory was refused.
#[tactic(auto, unfolding(crate::specs::Subjects::breach_text))]
pub fn push_breach(
    alloc: Global,
    model: &[u8],
    line: usize,
    wrong: &Wrong,
    text: &mut Vec<u8>,
) -> Result<(), AllocError>
    ensures { OnOk result (text.new.items
        ≡ text.old.items ++ spec.breach_text model.now line wrong.now) }
{
    match words(alloc, model) {
        Ok(words) => {
            let plain = plain_words(alloc, &words)?;
            push_word_caret(text, model, &words, line, wrong_word(&plain, line, wrong))?;
            push_reason(alloc, &plain, line, wrong, text)
        }
        Err(TextFault::Memory) => Err(AllocError),
        Err(TextFault::Refused { .. }) => Ok(()),
    }
}

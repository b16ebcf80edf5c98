//! Keys of ranked sets that are set for an entity after its FILE.
ghost use Rattle.std.specs.Prelude.{◌≡◌, ◌++◌, OnOk, map};
ghost use Rattle.ss_words.specs.Plain.{plain_at};
ghost use Rattle.ss_names.specs.Here.{at_start};
ghost use Rattle.ss_names.specs.Ranked as spec;

use crate::collected::here_at;
use crate::declarations::Declarations;
use crate::here::Here;
use crate::once::push_warning;
use crate::position::{is_target, opens};
use ss_words::{Mark, Plain, PlainWord, Reserved};
use std::alloc::AllocError;

/// The text about such a key. The definitions read it too.
pub const RANKED: &[u8] = b" is set after the FILE of its entity, and ranks that set.\n";

/// The declarations of a model.
#[derive(Clone, Copy)]
pub struct Ranking<'a> {
    /// Those of its names.
    pub names: &'a Declarations<'a>,
    /// The keys of its ranked sets.
    pub keys: &'a Declarations<'a>,
}

/// What was filed last before a word.
#[derive(Clone, Copy)]
struct Filed<'a> {
    /// The name of the entity; empty if none was filed.
    member: &'a [u8],
    /// The name of the set; empty if none is named yet.
    set: &'a [u8],
}

/// Whether a name here is the entity that FILE files.
fn is_member(here: Here) -> bool
    ensures { result ≡ spec.is_member here }
{
    matches!(here.begun, Some(Reserved::File))
        && matches!(
            here.before,
            Some(Mark::Reserved(Reserved::File | Reserved::First | Reserved::Last))
        )
}

/// Whether a name here is the set of a FILE.
fn is_filed_set(here: Here) -> bool
    ensures { result ≡ spec.is_filed_set here }
{
    matches!(here.begun, Some(Reserved::File))
        && matches!(here.before, Some(Mark::Reserved(Reserved::In)))
}

/// Whether a reserved word ends the knowledge of a FILE.
fn forgets(word: Reserved) -> bool
    ensures { result ≡ spec.forgets word }
{
    matches!(
        word,
        Reserved::Remove | Reserved::Else | Reserved::Always | Reserved::Loop | Reserved::End
    )
}

/// Whether a word ends the knowledge of a FILE.
fn is_forgetting(word: &PlainWord<'_>) -> bool
    ensures { result ≡ spec.is_forgetting (plain_at word.now) }
{
    match word.kind().mark() {
        Some(Mark::Reserved(reserved)) => forgets(reserved),
        _ => false,
    }
}

/// What was filed last after a word: a name that FILE files, and then the name of its set.
fn filed_behind<'a>(filed: Filed<'a>, here: Here, word: &PlainWord<'a>) -> Filed<'a>
    ensures { spec.filed_at result
        ≡ spec.filed_behind (spec.filed_at filed.entry) here (plain_at word.now) }
{
    if is_forgetting(word) {
        return Filed {
            member: b"",
            set: b"",
        };
    }
    match word.kind() {
        Plain::Name(name) if is_member(here) => Filed {
            member: name.bytes(),
            set: b"",
        },
        Plain::Name(name) if is_filed_set(here) => Filed {
            member: filed.member,
            set: name.bytes(),
        },
        _ => filed,
    }
}

/// A word that is a name, or else this.
fn name_or<'a>(word: &PlainWord<'a>, otherwise: &'a [u8]) -> &'a [u8]
    ensures { result.now ≡ spec.name_or (plain_at word.now) otherwise.now }
{
    match word.kind() {
        Plain::Name(name) => name.bytes(),
        _ => otherwise,
    }
}

/// The name directly after an opened parenthesis; empty if there is none.
fn subscript<'a>(behind: &[PlainWord<'a>]) -> &'a [u8]
    ensures { result.now ≡ spec.subscript (map plain_at behind.now) }
{
    match behind {
        [_, word, ..] => name_or(word, b""),
        _ => b"",
    }
}

/// The name of the entity of an attribute: its subscript if that begins with a name, or its class
/// if it has none.
fn entity<'a>(names: &Declarations<'a>, name: &[u8], behind: &[PlainWord<'a>]) -> &'a [u8]
    ensures { result.now
        ≡ spec.entity names.now name.now (map plain_at behind.now) }
{
    if opens(behind) {
        return subscript(behind);
    }
    match names.get(name) {
        Some(row) => row.of,
        None => b"",
    }
}

/// Whether a name ranks the set of a FILE.
fn ranks(keys: &Declarations<'_>, name: &[u8], set: &[u8]) -> bool
    ensures { result ≡ spec.ranks keys.now name.now set.now }
{
    match keys.get(name) {
        Some(row) => row.of == set,
        None => false,
    }
}

/// Whether a name here is a key that is set for the entity that was filed last.
fn is_told(
    ranking: Ranking<'_>,
    filed: Filed<'_>,
    here: Here,
    name: &[u8],
    behind: &[PlainWord<'_>],
) -> bool
    ensures { result ≡ spec.is_told ranking.entry.names.now ranking.entry.keys.now
        (spec.filed_at filed.entry) here name.now (map plain_at behind.now) }
{
    is_target(here)
        && !filed.set.is_empty()
        && ranks(ranking.keys, name, filed.set)
        && entity(ranking.names, name, behind) == filed.member
}

/// Appends each key of a ranked set that is set for an entity after its FILE in that set, with its
/// line.
#[tactic(auto, unfolding(crate::specs::Ranked::ranked_text))]
pub fn push_ranked<'a>(
    text: &mut Vec<u8>,
    ranking: Ranking<'_>,
    words: &[PlainWord<'a>],
) -> Result<(), AllocError>
    ensures { OnOk result (text.new.items ≡ text.old.items
        ++ spec.ranked_text ranking.entry.names.now ranking.entry.keys.now spec.none_filed at_start
        (map plain_at words.now)) }
{
    let mut here = Here::at_start();
    let mut filed = Filed {
        member: b"",
        set: b"",
    };
    let mut rest = words;
    while let [word, behind @ ..] = rest {
        let at = here_at(here, word);
        if let Plain::Name(name) = word.kind() {
            if is_told(ranking, filed, at, name.bytes(), behind) {
                push_warning(text, word.line(), name.bytes(), RANKED)?;
            }
        }
        filed = filed_behind(filed, at, word);
        here = at.behind(word.kind(), word.line(), behind);
        rest = behind;
    }
    Ok(())
}

//! The declarations of a text, and the facts in its items about sets and events.
ghost use Rattle.std.specs.Prelude.{◌≡◌, [], IfOk, map};
ghost use Rattle.ss_words.specs.Plain.{plain_at};
ghost use Rattle.ss_names.specs.Collected as spec;
ghost use Rattle.ss_names.specs.Here.{at_start};

use crate::declarations::Declarations;
use crate::here::Here;
use crate::meaning::{Meaning, Row};
use ss_words::{Plain, PlainWord, Reserved};
use std::alloc::{AllocError, Global};

/// Which names are collected.
#[derive(Clone, Copy)]
pub enum Wanted {
    /// Those that are declared, with their meanings.
    Declared,
    /// The sets after OWNS.
    Owned,
    /// The sets after BELONGS TO.
    Joined,
    /// The keys of sets, in their DEFINE.
    Keys,
    /// The names after PRIORITY ORDER IS.
    Ordered,
    /// The sets in their DEFINE.
    Disciplines,
    /// The events after BREAK.
    Ties,
    /// The names after EXTERNAL EVENTS ARE.
    Externals,
}

/// Whether a name here is collected, if it has a meaning.
fn is_wanted(wanted: Wanted, here: Here) -> bool
    ensures { result ≡ spec.is_wanted wanted here }
{
    match wanted {
        Wanted::Declared => true,
        Wanted::Owned => matches!(here.last, Some(Reserved::Owns)),
        Wanted::Joined => matches!(here.last, Some(Reserved::To)),
        Wanted::Keys => is_rank(here.last) && is_define(here.begun),
        Wanted::Ordered => matches!(here.begun, Some(Reserved::Priority)),
        Wanted::Disciplines => is_define(here.last) && matches!(here.names, Some(Meaning::Set)),
        Wanted::Ties => matches!(here.last, Some(Reserved::Break)),
        Wanted::Externals => matches!(here.begun, Some(Reserved::External)),
    }
}

/// The meaning of a name that is collected here.
fn meaning_as(wanted: Wanted, here: Here) -> Option<Meaning>
    ensures { result ≡ spec.meaning_as wanted here.names }
{
    match wanted {
        Wanted::Keys => Some(Meaning::Attribute),
        Wanted::Ordered | Wanted::Ties | Wanted::Externals => Some(Meaning::Event),
        _ => here.names,
    }
}

/// The meaning as which a name is collected here, if it is.
fn collected_as(wanted: Wanted, here: Here) -> Option<Meaning>
    ensures { result ≡ spec.collected_as wanted here }
{
    if is_wanted(wanted, here) {
        return meaning_as(wanted, here);
    }
    None
}

fn is_rank(last: Option<Reserved>) -> bool
    ensures { result ≡ spec.is_rank last }
{
    matches!(last, Some(Reserved::High | Reserved::Low))
}

fn is_define(word: Option<Reserved>) -> bool
    ensures { result ≡ spec.is_define word }
{
    matches!(word, Some(Reserved::Define))
}

/// The place of a word, at which a name may begin an assignment.
pub fn here_at(here: Here, word: &PlainWord<'_>) -> Here
    ensures { result ≡ spec.here_at here (plain_at word.now) }
{
    match word.kind() {
        Plain::Name(_) => here.at_name(word.line()),
        _ => here,
    }
}

/// The place after a word.
pub fn here_behind(here: Here, word: &PlainWord<'_>, behind: &[PlainWord<'_>]) -> Here
    ensures { result ≡ spec.here_behind here (plain_at word.now) (map plain_at behind.now) }
{
    here_at(here, word).behind(word.kind(), word.line(), behind)
}

/// The class of EVERY, or the last set of DEFINE, after a word: the word itself, if it is that.
fn class_at<'a>(here: Here, class: &'a [u8], word: &PlainWord<'a>) -> &'a [u8]
    ensures { result.now ≡ spec.class_at here class.now (plain_at word.now) }
{
    if !is_every(here.last) && !is_define(here.last) {
        return class;
    }
    match word.kind() {
        Plain::Name(name) => name.bytes(),
        _ => class,
    }
}

fn is_every(last: Option<Reserved>) -> bool
    ensures { result ≡ spec.is_every last }
{
    matches!(last, Some(Reserved::Every))
}

/// The class whose clause declares a name here, or the set that a key ranks; empty if there is
/// none.
fn class_of<'a>(here: Here, class: &'a [u8]) -> &'a [u8]
    ensures { result.now ≡ spec.class_of here class.now }
{
    if is_every(here.begun) || is_rank(here.last) {
        return class;
    }
    b""
}

/// The first place of each name that is wanted among the plain words of a text.
#[tactic(auto, unfolding(crate::specs::Collected::collection))]
pub fn collect<'a>(
    alloc: Global,
    wanted: Wanted,
    words: &[PlainWord<'a>],
) -> Result<Declarations<'a>, AllocError>
    ensures { IfOk result
        (λ found. found ≡ spec.collection wanted [] at_start [] (map plain_at words.now)) }
{
    let mut found = Declarations::new(alloc);
    let mut here = Here::at_start();
    let mut class: &'a [u8] = b"";
    let mut rest = words;
    while let [word, behind @ ..] = rest {
        let at = here_at(here, word);
        if let Plain::Name(name) = word.kind() {
            if let Some(meaning) = collected_as(wanted, at) {
                found.add(Row {
                    name: name.bytes(),
                    meaning,
                    of: class_of(at, class),
                    line: word.line(),
                })?;
            }
        }
        class = class_at(at, class, word);
        here = at.behind(word.kind(), word.line(), behind);
        rest = behind;
    }
    Ok(found)
}

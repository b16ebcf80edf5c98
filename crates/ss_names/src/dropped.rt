//! Words that are dropped where a name could be.
ghost use Rattle.std.specs.Prelude.{◌≡◌, ◌++◌, None, OnOk, map};
ghost use Rattle.ss_words.specs.Words.{kind_of, word_at};
ghost use Rattle.ss_names.specs.Warnings as spec;

use crate::once::push_warning;
use ss_columns::{SCHEDULING, is_kind_among};
use ss_words::{Word, WordKind, is_reserved_name};
use std::alloc::AllocError;

/// Those that are reported next to a sign. The definitions read these tables too.
pub const ARTICLES: [&[u8]; 3] = [b"A", b"AN", b"OUTPUT"];
/// Those that are reported before a sign.
pub const FILLERS: [&[u8]; 3] = [b"THE", b"THIS", b"MAY"];
/// The text about a dropped word. The definitions read it too.
pub const DROPPED_HERE: &[u8] = b" is dropped here: it can be no name.\n";

/// Whether a word is a sign; `None` if there is no word.
fn is_sign(kind: Option<&WordKind>) -> bool
    ensures { result ≡ spec.is_sign (spec.kind_seen kind.entry) }
{
    matches!(kind, Some(WordKind::Sign(_)))
}

/// Whether a word is a name that is not reserved.
fn is_plain_name(kind: Option<&WordKind>) -> bool
    ensures { result ≡ spec.is_plain_name (spec.kind_seen kind.entry) }
{
    match kind {
        Some(WordKind::Name(name)) => !is_reserved_name(name.bytes()),
        _ => false,
    }
}

/// Whether a word keeps an article directly after it.
#[tactic(auto, unfolding(ss_columns::specs::Reserved::scheduling_words))]
fn is_scheduling(kind: Option<&WordKind>) -> bool
    ensures { result ≡ spec.is_scheduling (spec.kind_seen kind.entry) }
{
    match kind {
        Some(kind) => is_kind_among(kind, &SCHEDULING),
        None => false,
    }
}

/// Whether a word between two others is dropped where a name could be.
fn is_suspect(before: Option<&WordKind>, kind: &WordKind, behind: Option<&WordKind>) -> bool
    ensures { result ≡ spec.is_suspect
        (spec.kind_seen before.entry) (kind_of kind.now) (spec.kind_seen behind.entry) }
{
    if is_scheduling(before) || is_plain_name(behind) {
        return false;
    }
    (is_kind_among(kind, &ARTICLES) && (is_sign(before) || is_sign(behind)))
        || (is_kind_among(kind, &FILLERS) && is_sign(behind))
}

/// The kind of the first of some words, if there is one.
fn first_kind(words: &[Word]) -> Option<&WordKind>
    ensures { spec.kind_seen result ≡ spec.first_kind (map word_at words.now) }
{
    match words {
        [word, ..] => Some(&word.kind),
        [] => None,
    }
}

/// Appends each of these words that is dropped where a name could be, with its line.
#[tactic(auto, unfolding(crate::specs::Warnings::dropped_text))]
pub fn push_dropped(text: &mut Vec<u8>, words: &[Word]) -> Result<(), AllocError>
    ensures { OnOk result (text.new.items
        ≡ text.old.items ++ spec.dropped_text None (map word_at words.now)) }
{
    let mut before = None;
    let mut rest = words;
    while let [word, behind @ ..] = rest {
        if let WordKind::Name(name) = &word.kind {
            if is_suspect(before, &word.kind, first_kind(behind)) {
                push_warning(text, word.line, name.bytes(), DROPPED_HERE)?;
            }
        }
        before = Some(&word.kind);
        rest = behind;
    }
    Ok(())
}

//! Hints at what is often meant by the words of other languages, and by a misspelt word.
ghost use Rattle.std.specs.Prelude.{◌≡◌, ◌-◌, ◌++◌, None, OnOk, length, map, take};
ghost use Rattle.ss_words.specs.Words.{kind_of, word_at};
ghost use Rattle.ss_columns.specs.Reserved.{is_kind_among};
ghost use Rattle.ss_sentences.specs.Meant as spec;
ghost use Rattle.ss_sentences.specs.Pieces.{kind_seen, last_kind};

use crate::candidate::Judgement;
use crate::expected::fits;
use crate::hints::ends_in_dropped;
use crate::near::nearest;
use crate::pieces::{last_kind, push_filled};
use ss_columns::is_kind_among;
use ss_words::{Sign, Word, WordKind, is_reserved_name};
use std::alloc::AllocError;

/// The words to which the hints are given. The definitions read these tables too.
pub const THENS: [&[u8]; 1] = [b"THEN"];

pub const LOOP_ENDS: [&[u8]; 2] = [b"WHILE", b"UNTIL"];

pub const NOTS: [&[u8]; 1] = [b"NOT"];

/// Words of processes, which the language has not.
pub const PROCESS_WORDS: [&[u8]; 12] = [
    b"WAIT",
    b"WORK",
    b"PROCESS",
    b"PROCESSES",
    b"RESOURCE",
    b"RESOURCES",
    b"REQUEST",
    b"RELINQUISH",
    b"ACTIVATE",
    b"REACTIVATE",
    b"SUSPEND",
    b"INTERRUPT",
];

/// The longer words with which a statement begins.
pub const FIRST_WORDS: [&[u8]; 23] = [
    b"SUBTRACT",
    b"CREATE",
    b"DESTROY",
    b"FILE",
    b"REMOVE",
    b"ELSE",
    b"OTHERWISE",
    b"ALWAYS",
    b"REGARDLESS",
    b"LOOP",
    b"REPEAT",
    b"FIND",
    b"COMPUTE",
    b"SCHEDULE",
    b"CAUSE",
    b"CANCEL",
    b"START",
    b"STOP",
    b"CALL",
    b"RETURN",
    b"READ",
    b"PRINT",
    b"SKIP",
];

/// The hints. The definitions read them too.
pub const THEN_HINT: &[u8] = b"An IF has no THEN: its statements follow the condition.\n";

pub const LOOP_END_HINT: &[u8] =
    b"WHILE and UNTIL belong to a FOR: FOR I = 1 TO 1000, WHILE X < 3, DO .. LOOP.\n";

pub const NOT_HINT: &[u8] =
    b"NOT is part of IS NOT EMPTY and IS NOT IN only: turn the comparison, as = to NE.\n";

pub const UNEQUAL_HINT: &[u8] = b"Unequal is NE.\n";

pub const EQUAL_HINT: &[u8] = b"Equal is one =.\n";

pub const AT_LEAST_HINT: &[u8] = b"At least is >=.\n";

pub const AT_MOST_HINT: &[u8] = b"At most is <=.\n";

pub const PROCESS_HINT: &[u8] =
    b"There are events and no processes: SCHEDULE an event, and go on in its EVENT section.\n";

pub const MISSPELT_HINT: &[u8] = b"{} is read as a variable; did you mean {}?\n";

/// Appends a hint, if it is given.
fn push_given(text: &mut Vec<u8>, is_given: bool, hint: &[u8]) -> Result<(), AllocError>
    ensures { OnOk result (text.new.items ≡ text.old.items ++ spec.given is_given hint.now) }
{
    if is_given {
        return text.extend_from_slice(hint);
    }
    Ok(())
}

/// The hint for two signs that do not fit together.
fn sign_hint(before: Sign, refused: Sign) -> &'static [u8]
    ensures { result.now ≡ spec.sign_hint before refused }
{
    match (before, refused) {
        (Sign::Less, Sign::Greater) => UNEQUAL_HINT,
        (Sign::Equal, Sign::Equal) => EQUAL_HINT,
        (Sign::Equal, Sign::Greater) => AT_LEAST_HINT,
        (Sign::Equal, Sign::Less) => AT_MOST_HINT,
        _ => b"",
    }
}

/// The hint for the refused word and the one before it, if both are signs.
fn signs_hint(before: Option<&WordKind>, refused: &WordKind) -> &'static [u8]
    ensures { result.now ≡ spec.signs_hint (kind_seen before.entry) (kind_of refused.now) }
{
    match (before, refused) {
        (Some(WordKind::Sign(before)), WordKind::Sign(refused)) => sign_hint(*before, *refused),
        _ => b"",
    }
}

/// Whether a word is one of processes.
fn is_of_processes(kind: Option<&WordKind>) -> bool
    ensures { result ≡ spec.is_of_processes (kind_seen kind.entry) }
{
    match kind {
        Some(kind) => is_kind_among(kind, &PROCESS_WORDS),
        None => false,
    }
}

/// The words without the last one, if that is dropped.
#[tactic(auto, using(crate::proofs::WordLists::but_last))]
fn without_dropped(words: &[Word]) -> &[Word]
    ensures { map word_at result.now ≡ spec.without_dropped (map word_at words.now) }
{
    if ends_in_dropped(words) {
        return &words[..words.len().saturating_sub(1)];
    }
    words
}

/// Appends the hint that a name is nearly another word, if it is.
fn push_nearest(text: &mut Vec<u8>, name: &[u8]) -> Result<(), AllocError>
    ensures { OnOk result (text.new.items ≡ text.old.items ++ spec.nearest_hint name.now) }
{
    match nearest(name, &FIRST_WORDS) {
        Some(meant) => push_filled(text, MISSPELT_HINT, name, meant),
        None => Ok(()),
    }
}

/// Appends which first word of a statement a word nearly is, if it is a name and not reserved.
fn push_misspelt(text: &mut Vec<u8>, kind: Option<&WordKind>) -> Result<(), AllocError>
    ensures { OnOk result (text.new.items ≡ text.old.items ++ spec.misspelt_hint (kind_seen kind.entry)) }
{
    match kind {
        Some(WordKind::Name(name)) => {
            if is_reserved_name(name.bytes()) {
                return Ok(());
            }
            push_nearest(text, name.bytes())
        }
        _ => Ok(()),
    }
}

/// Appends the hints for the words before a place at which an assignment could go on.
fn push_assigned_hints(text: &mut Vec<u8>, before: &[Word]) -> Result<(), AllocError>
    ensures { OnOk result (text.new.items
        ≡ text.old.items ++ spec.assigned_hints (map word_at before.now)) }
{
    let last = last_kind(without_dropped(before));
    push_given(text, is_of_processes(last), PROCESS_HINT)?;
    push_misspelt(text, last)
}

/// Appends the hints for a refused word after the words before it.
#[tactic(auto, unfolding(crate::specs::Meant::meant_hints))]
pub fn push_meant_hints(
    text: &mut Vec<u8>,
    judged: &[Judgement],
    before: &[Word],
    refused: &Word,
) -> Result<(), AllocError>
    ensures { OnOk result (text.new.items ≡ text.old.items
        ++ spec.meant_hints judged.now (map word_at before.now) (word_at refused.now).kind) }
{
    let kind = &refused.kind;
    let is_then = is_kind_among(kind, &THENS) && fits(judged, b"AND");
    push_given(text, is_then, THEN_HINT)?;
    let is_loop_end = is_kind_among(kind, &LOOP_ENDS) && fits(judged, b"LET");
    push_given(text, is_loop_end, LOOP_END_HINT)?;
    push_given(text, is_kind_among(kind, &NOTS), NOT_HINT)?;
    text.extend_from_slice(signs_hint(last_kind(before), kind))?;
    push_given(text, is_kind_among(kind, &PROCESS_WORDS), PROCESS_HINT)?;
    if fits(judged, b"=") {
        return push_assigned_hints(text, before);
    }
    Ok(())
}

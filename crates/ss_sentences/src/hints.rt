//! Hints at what is often meant if a word does not fit.
ghost use Rattle.std.specs.Prelude.{◌≡◌, ◌-◌, ◌++◌, [], IfOk, None, OnOk, length, map, take};
ghost use Rattle.ss_words.specs.Words.{word_at};
ghost use Rattle.ss_sentences.specs.Hints as spec;
ghost use Rattle.ss_columns.specs.Reserved.{is_kind_among};
ghost use Rattle.ss_sentences.specs.Candidates.{keeps_article};
ghost use Rattle.ss_sentences.specs.Pieces.{last_kind};

use crate::candidate::{Judgement, keeps_article};
use crate::expected::fits;
use crate::pieces::{last_kind, last_text, push_filled};
use ss_columns::{DROPPED, is_kind_among, push_number};
use ss_words::{Word, WordKind, is_reserved_name};
use std::alloc::{AllocError, Global};

/// The words that open blocks, and those that close them. The definitions read these tables too.
pub const IFS: [&[u8]; 1] = [b"IF"];

pub const ALWAYS: [&[u8]; 2] = [b"ALWAYS", b"REGARDLESS"];

pub const DOS: [&[u8]; 1] = [b"DO"];

pub const LOOPS: [&[u8]; 2] = [b"LOOP", b"REPEAT"];

/// The hints. The definitions read them too.
pub const RESERVED_HINT: &[u8] = b"{} is a reserved word: it can be no name.\n";

pub const DROPPED_HINT: &[u8] = b"{} is dropped here: it can be no name.\n";

pub const UNIT_HINT: &[u8] = b"{} is no unit: a time ends with UNITS or DAYS.\n";

pub const IF_HINT: &[u8] = b"An IF is open here, that of line {}: ALWAYS ends it.\n";

pub const DO_HINT: &[u8] = b"A DO is open here, that of line {}: LOOP ends it.\n";

/// Whether a word is in a table.
fn is_word_among(word: &Word, table: &[&[u8]]) -> bool
    ensures { result ≡ is_kind_among (map (λ row. row.now) table.now) (word_at word.now).kind }
{
    is_kind_among(&word.kind, table)
}

/// Whether a word is a name, reserved or not.
fn is_name(word: &Word) -> bool
    ensures { result ≡ spec.is_name (word_at word.now).kind }
{
    matches!(word.kind, WordKind::Name(_))
}

/// Whether a word is a name that is reserved.
pub fn is_reserved_word(word: &Word) -> bool
    ensures { result ≡ spec.is_reserved_word (word_at word.now).kind }
{
    match &word.kind {
        WordKind::Name(name) => is_reserved_name(name.bytes()),
        _ => false,
    }
}

/// Whether the last of these words is one that is dropped, at whatever place it is.
#[tactic(auto, unfolding(ss_columns::specs::Reserved::dropped_words))]
fn ends_in_filler(words: &[Word]) -> bool
    ensures { result ≡ spec.is_dropped_word (last_kind None (map word_at words.now)) }
{
    match last_kind(words) {
        Some(kind) => is_kind_among(kind, &DROPPED),
        None => false,
    }
}

/// Whether the last but one of these words keeps an article after it.
#[tactic(auto, using(crate::proofs::WordLists::but_last))]
fn last_is_kept(words: &[Word]) -> bool
    ensures { let all = map word_at words.now in
        result ≡ keeps_article (take (length all - 1) all) }
{
    keeps_article(&words[..words.len().saturating_sub(1)])
}

/// Whether the last of these words is dropped.
pub fn ends_in_dropped(words: &[Word]) -> bool
    ensures { result ≡ spec.ends_in_dropped (map word_at words.now) }
{
    ends_in_filler(words) && !last_is_kept(words)
}

/// Appends a hint that names a word, if it is to be given.
pub fn push_hint(
    text: &mut Vec<u8>,
    is_given: bool,
    hint: &[u8],
    word: &[u8],
) -> Result<(), AllocError>
    ensures { OnOk result (text.new.items
        ≡ text.old.items ++ spec.hint_text is_given hint.now word.now) }
{
    if is_given {
        return push_filled(text, hint, word, word);
    }
    Ok(())
}

/// Appends the hints for a refused word, after these words.
pub fn push_word_hints(
    text: &mut Vec<u8>,
    judged: &[Judgement],
    refused: &Word,
    told: &[u8],
) -> Result<(), AllocError>
    ensures { OnOk result (text.new.items
        ≡ text.old.items ++ spec.word_hints judged.now (word_at refused.now).kind told.now) }
{
    let reserved = is_reserved_word(refused);
    let name = reserved && fits(judged, b"a name") && !fits(judged, b"LET");
    push_hint(text, name, RESERVED_HINT, told)?;
    let unit = is_name(refused) && !reserved && fits(judged, b"UNITS");
    push_hint(text, unit, UNIT_HINT, told)
}

/// Appends that the last of these words is dropped, if it is.
fn push_dropped_hint(alloc: Global, text: &mut Vec<u8>, before: &[Word]) -> Result<(), AllocError>
    ensures { OnOk result (text.new.items ≡ text.old.items
        ++ spec.dropped_hint (map word_at before.now)) }
{
    let told = last_text(alloc, before)?;
    push_hint(text, ends_in_dropped(before), DROPPED_HINT, &told)
}

/// Appends the hints that the words before a place give.
#[tactic(auto, unfolding(crate::specs::Hints::front_hints))]
pub fn push_front_hints(
    alloc: Global,
    text: &mut Vec<u8>,
    judged: &[Judgement],
    before: &[Word],
) -> Result<(), AllocError>
    ensures { OnOk result (text.new.items
        ≡ text.old.items ++ spec.front_hints judged.now (map word_at before.now)) }
{
    push_dropped_hint(alloc, text, before)?;
    push_block_hints(alloc, text, judged, before)
}

/// The lines of the words that open blocks which no word after them closes, the innermost last.
fn open_lines(
    alloc: Global,
    mut words: &[Word],
    opening: &[&[u8]],
    closing: &[&[u8]],
) -> Result<Vec<usize>, AllocError>
    ensures { IfOk result (λ lines. lines.items ≡ spec.open_lines
        (map (λ row. row.now) opening.now) (map (λ row. row.now) closing.now) []
        (map word_at words.entry.now)) }
{
    let mut lines = Vec::new(alloc);
    while let [word, rest @ ..] = words {
        if is_word_among(word, opening) {
            lines.push(word.line)?;
        } else if is_word_among(word, closing) {
            lines.truncate(lines.len().saturating_sub(1));
        }
        words = rest;
    }
    Ok(lines)
}

/// The last of these lines.
fn last_line(lines: &[usize]) -> Option<usize>
    ensures { result ≡ spec.last_line None lines.now }
{
    let mut last = None;
    let mut rest = lines;
    while let [line, behind @ ..] = rest {
        last = Some(*line);
        rest = behind;
    }
    last
}

/// Appends the line of the innermost open block after these words, if its end fits there.
fn push_open(
    alloc: Global,
    text: &mut Vec<u8>,
    ends_here: bool,
    hint: &[u8],
    lines: &[usize],
) -> Result<(), AllocError>
    ensures { OnOk result (text.new.items
        ≡ text.old.items ++ spec.open_hint ends_here hint.now lines.now) }
{
    let Some(line) = last_line(lines) else {
        return Ok(());
    };
    let mut number = Vec::new(alloc);
    push_number(&mut number, line)?;
    push_hint(text, ends_here, hint, &number)
}

/// Appends which blocks are open after these words, if their ends fit.
pub fn push_block_hints(
    alloc: Global,
    text: &mut Vec<u8>,
    judged: &[Judgement],
    before: &[Word],
) -> Result<(), AllocError>
    ensures { OnOk result (text.new.items
        ≡ text.old.items ++ spec.block_hints judged.now (map word_at before.now)) }
{
    let ifs = open_lines(alloc, before, &IFS, &ALWAYS)?;
    push_open(alloc, text, fits(judged, b"ALWAYS"), IF_HINT, &ifs)?;
    let dos = open_lines(alloc, before, &DOS, &LOOPS)?;
    push_open(alloc, text, fits(judged, b"LOOP"), DO_HINT, &dos)
}

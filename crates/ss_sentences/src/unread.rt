//! The explanation of a model that a rule L refuses.
ghost use Rattle.std.specs.Prelude.{◌≡◌, ◌-◌, ◌++◌, IfOk, OnOk, slice_index};
ghost use Rattle.ss_sentences.specs.Breach as breach;
ghost use Rattle.ss_sentences.specs.Unread as spec;

use crate::breach::{breach_column, front_line, front_run, is_of_picture};
use crate::pieces::{push_filled, push_place};
use crate::wording::{rule_sentence, text_beside_number};
use ss_columns::{
    Place, behind_feed, behind_feeds, first_bytes, is_allowed, push_number, push_source, run_len,
    with_blank_comments,
};
use ss_words::characters::{BLANK, CARRIAGE_RETURN, LINE_FEED, STOP, TAB, TILDE};
use ss_words::{TextRule, without_stops};
use std::alloc::{AllocError, Global};

/// The greatest number of bytes of a run that are printed, and the mark after them if the run has
/// more. The definitions read these too.
pub const LONGEST_RUN_TOLD: usize = 40;

pub const CUT_MARK: &[u8] = b"..";

/// The hints for a byte that has no meaning: what is often meant by it. The definitions read this
/// table too.
pub const BYTE_HINTS: [(u8, &[u8]); 17] = [
    (
        b'/',
        b"A quotient is DIV.F(x, y), and a remainder is MOD.F(x, y).\n",
    ),
    (b'%', b"The remainder of a division is MOD.F(x, y).\n"),
    (
        b'_',
        b"A name is of letters, digits and stops: MEAN.WAIT.\n",
    ),
    (
        b'\'',
        b"A comment begins with two of these bytes, and ends with two or with its line.\n",
    ),
    (
        b'"',
        b"Only the picture of a PRINT is a text: the lines after it, as they are.\n",
    ),
    (b'!', b"Unequal is NE, and a comment begins with ''.\n"),
    (b'#', b"A comment begins with ''.\n"),
    (
        b';',
        b"No sign separates statements: a new one begins with its first word.\n",
    ),
    (
        b':',
        b"No sign separates statements: a new one begins with its first word.\n",
    ),
    (b'[', b"A subscript is written in parentheses: SIZE(JOB).\n"),
    (b']', b"A subscript is written in parentheses: SIZE(JOB).\n"),
    (b'{', b"A block ends with its word: ALWAYS, LOOP or END.\n"),
    (b'}', b"A block ends with its word: ALWAYS, LOOP or END.\n"),
    (b'&', b"Conditions are joined by AND.\n"),
    (b'|', b"Conditions are joined by OR.\n"),
    (b'^', b"A power is written as a product: X * X.\n"),
    (
        b'$',
        b"A name is of letters, digits and stops: MEAN.WAIT.\n",
    ),
];

/// The other hints. The definitions read them too.
pub const OUTSIDE_HINT: &[u8] =
    b"A text has the characters from the blank to ~, and tabs; no others.\n";

pub const LETTER_HINT: &[u8] =
    b"It is part of a letter outside ASCII, such as an accented one: a text has none.\n";

pub const MARK_HINT: &[u8] = b"A byte order mark is here: save the text without one.\n";

/// The byte order mark of UTF-8, and the last byte of ASCII.
pub const BYTE_ORDER_MARK: [u8; 3] = [239, 187, 191];

pub const LAST_OF_ASCII: u8 = 127;

pub const STOP_HINT: &[u8] = b"Values are whole numbers: no digits follow a stop.\n";

pub const GREAT_HINT: &[u8] = b"It is greater than the greatest value.\n";

pub const BEHIND_HINT: &[u8] = b"More follows it on this line.\n";

pub const BELOW_HINT: &[u8] = b"Lines below this one: {}.\n";

// ---- the bytes at the place

/// Appends a byte as it is written, or its number.
fn push_byte(text: &mut Vec<u8>, byte: u8) -> Result<(), AllocError>
    ensures { OnOk result (text.new.items ≡ text.old.items ++ spec.byte_text byte) }
{
    if byte > BLANK && byte <= TILDE {
        return Ok(text.push(byte)?);
    }
    push_number(text, usize::from(byte))
}

/// Appends a run; if it is long, its first bytes and a mark.
fn push_run(text: &mut Vec<u8>, run: &[u8]) -> Result<(), AllocError>
    ensures { OnOk result (text.new.items ≡ text.old.items ++ spec.run_text run.now) }
{
    if run.len() > LONGEST_RUN_TOLD {
        text.extend_from_slice(first_bytes(run, LONGEST_RUN_TOLD))?;
        return text.extend_from_slice(CUT_MARK);
    }
    text.extend_from_slice(run)
}

/// The line from a column on.
fn from_column(line: &[u8], column: usize) -> &[u8]
    ensures { result.now ≡ spec.from_column line.now column }
{
    &line[column.saturating_sub(1).min(line.len())..]
}

/// The byte at a column; 0 if there is none.
fn byte_at(line: &[u8], column: usize) -> u8
    ensures { result ≡ slice_index line.now (column - 1) }
{
    match line.get(column.saturating_sub(1)) {
        Some(byte) => *byte,
        None => 0,
    }
}

/// Appends the text in the first gap of the sentence of a rule.
fn push_breach(
    text: &mut Vec<u8>,
    rule: TextRule,
    line: &[u8],
    column: usize,
) -> Result<(), AllocError>
    ensures { OnOk result (text.new.items ≡ text.old.items ++ spec.breach_text rule line.now column) }
{
    match rule {
        TextRule::StrayByte => push_byte(text, byte_at(line, column)),
        TextRule::LongPictureLine => push_number(text, line.len()),
        _ => push_run(text, front_run(from_column(line, column))),
    }
}

/// Appends the sentence of a rule that is broken at a column of a line.
pub fn push_breach_sentence(
    alloc: Global,
    text: &mut Vec<u8>,
    rule: TextRule,
    line: &[u8],
    column: usize,
) -> Result<(), AllocError>
    ensures { OnOk result (text.new.items
        ≡ text.old.items ++ spec.breach_sentence rule line.now column) }
{
    let mut first = Vec::new(alloc);
    push_breach(&mut first, rule, line, column)?;
    let mut size = Vec::new(alloc);
    push_number(&mut size, front_run(from_column(line, column)).len())?;
    push_filled(text, rule_sentence(rule.code()), &first, &size)
}

// ---- hints

/// A last byte that makes the piece after the last line feed a line.
fn ends_last_line(byte: u8, behind: &[u8]) -> bool
    ensures { result ≡ spec.ends_last_line byte behind.now }
{
    behind.is_empty() && byte != CARRIAGE_RETURN
}

/// How many lines a text has.
#[tactic(auto, unfolding(crate::specs::Unread::line_count))]
fn line_count(text: &[u8]) -> usize
    ensures { result ≡ spec.line_count text.now }
{
    let mut count = 0;
    let mut rest = text;
    while let [byte, behind @ ..] = rest {
        if *byte == LINE_FEED || ends_last_line(*byte, behind) {
            count += 1;
        }
        rest = behind;
    }
    count
}

/// The hint for a byte that may be in no line.
fn outside_hint(byte: u8, rest: &[u8]) -> &'static [u8]
    ensures { result.now ≡ spec.outside_hint byte rest.now }
{
    if first_bytes(rest, BYTE_ORDER_MARK.len()) == BYTE_ORDER_MARK.as_slice() {
        MARK_HINT
    } else if byte > LAST_OF_ASCII {
        LETTER_HINT
    } else {
        OUTSIDE_HINT
    }
}

/// The hint at what is often meant by a byte, with which the rest of its line begins.
fn byte_hint(byte: u8, rest: &[u8]) -> &'static [u8]
    ensures { result.now ≡ spec.byte_hint byte rest.now }
{
    if is_allowed(byte) {
        return text_beside_number(byte, &BYTE_HINTS);
    }
    outside_hint(byte, rest)
}

/// Whether there is a stop in a run.
fn has_stop(run: &[u8]) -> bool
    ensures { result ≡ spec.has_stop run.now }
{
    run.iter().any(|byte| *byte == STOP)
}

/// Why a run is no number.
fn number_hint(run: &[u8]) -> &'static [u8]
    ensures { result.now ≡ spec.number_hint run.now }
{
    if has_stop(without_stops(run)) {
        return STOP_HINT;
    }
    GREAT_HINT
}

/// Whether there are only blanks and comments here.
#[tactic(auto, unfolding(ss_words::specs::TextBytes::is_blank))]
fn is_bare(alloc: Global, behind: &[u8]) -> Result<bool, AllocError>
    ensures { IfOk result (λ bare. bare ≡ spec.is_bare behind.now) }
{
    let plain = with_blank_comments(alloc, behind)?;
    Ok(plain.iter().all(|byte| *byte == BLANK || *byte == TAB))
}

/// Appends the hint at the text after THUS or FOLLOWS.
fn push_picture_hint(
    alloc: Global,
    text: &mut Vec<u8>,
    behind: &[u8],
    below: &[u8],
) -> Result<(), AllocError>
    ensures { OnOk result (text.new.items
        ≡ text.old.items ++ spec.picture_hint behind.now below.now) }
{
    if !is_bare(alloc, behind)? {
        return text.extend_from_slice(BEHIND_HINT);
    }
    let mut count = Vec::new(alloc);
    push_number(&mut count, line_count(below))?;
    push_filled(text, BELOW_HINT, &count, &count)
}

/// The line after the run at its front.
fn behind_run(line: &[u8]) -> &[u8]
    ensures { result.now ≡ spec.behind_run line.now }
{
    &line[run_len(line)..]
}

/// Appends the hint for the breach of a rule at a column.
pub fn push_breach_hint(
    text: &mut Vec<u8>,
    rule: TextRule,
    line: &[u8],
    column: usize,
    below: &[u8],
) -> Result<(), AllocError>
    ensures { OnOk result (text.new.items
        ≡ text.old.items ++ spec.breach_hint rule line.now column below.now) }
{
    match rule {
        TextRule::StrayByte => {
            let hint = byte_hint(byte_at(line, column), from_column(line, column));
            text.extend_from_slice(hint)
        }
        TextRule::BadNumber => {
            text.extend_from_slice(number_hint(front_run(from_column(line, column))))
        }
        TextRule::NoPicture => {
            let alloc = *text.allocator();
            push_picture_hint(alloc, text, behind_run(from_column(line, column)), below)
        }
        _ => Ok(()),
    }
}

// ---- the whole explanation

/// The text before its rest.
fn before_rest<'a>(model: &'a [u8], rest: &[u8]) -> &'a [u8]
    ensures { result.now ≡ spec.before_rest model.now rest.now }
{
    &model[..model.len().saturating_sub(rest.len())]
}

/// The explanation of a model that a rule L refuses on a line.
#[tactic(auto, unfolding(crate::specs::Unread::unread_text))]
pub fn unread_said(
    alloc: Global,
    model: &[u8],
    rule: TextRule,
    line: usize,
) -> Result<Vec<u8>, AllocError>
    ensures { IfOk result (λ said. said.items ≡ spec.unread_text model.now rule line) }
{
    let rest = behind_feeds(line.saturating_sub(1), model);
    let bytes = front_line(rest);
    let of_picture = is_of_picture(alloc, before_rest(model, rest))?;
    let column = breach_column(alloc, rule, of_picture, bytes)?;
    let place = Place {
        line,
        column: Some(column),
    };
    let mut text = Vec::new(alloc);
    push_place(&mut text, place)?;
    push_breach_sentence(alloc, &mut text, rule, bytes, column)?;
    text.extend_from_slice(b"\n")?;
    push_source(alloc, &mut text, model, place)?;
    push_breach_hint(&mut text, rule, bytes, column, behind_feed(rest))?;
    Ok(text)
}

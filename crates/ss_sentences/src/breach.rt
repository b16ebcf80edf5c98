//! The line and column at which a text breaks a rule L.
ghost use Rattle.std.specs.Prelude.{◌≡◌, ◌≤◌, IfOk, length};
ghost use Rattle.ss_words.specs.declared.characters.TheConstants.{BLANK};
ghost use Rattle.ss_words.specs.TextWords.{words_of};
ghost use Rattle.ss_sentences.specs.Breach as spec;

use ss_columns::{in_run, is_joined, is_stray, run_len, with_blank_comments};
use ss_words::characters::{BLANK, CARRIAGE_RETURN, LINE_FEED};
use ss_words::limits::LONGEST_PICTURE_LINE;
use ss_words::{TextFault, TextRule, words};
use std::alloc::{AllocError, Global};

// ---- the line

/// The carriage return at a line's end.
fn is_last_return(byte: u8, behind: &[u8]) -> bool
    ensures { result ≡ spec.is_last_return byte behind.now }
{
    match behind {
        [] => byte == CARRIAGE_RETURN,
        [next, ..] => byte == CARRIAGE_RETURN && *next == LINE_FEED,
    }
}

/// How many bytes the line at the front has.
#[tactic(auto, unfolding(crate::specs::Breach::front_line_len))]
fn front_line_len(text: &[u8]) -> usize
    ensures len { result ≡ spec.front_line_len text.now }
    ensures in_range { result ≤ length text.now }
{
    let mut len = 0;
    let mut rest = text;
    while let [byte, behind @ ..] = rest {
        if *byte == LINE_FEED || is_last_return(*byte, behind) {
            return len;
        }
        len += 1;
        rest = behind;
    }
    len
}

/// The line at the front.
pub fn front_line(text: &[u8]) -> &[u8]
    ensures { result.now ≡ spec.front_line text.now }
{
    &text[..front_line_len(text)]
}

// ---- the column at which the rule is broken

/// Whether a text is refused by this rule.
fn is_refused_by(alloc: Global, text: &[u8], rule: TextRule) -> Result<bool, AllocError>
    ensures { IfOk result (λ is. is ≡ spec.is_refused_by rule (words_of text.now)) }
{
    match words(alloc, text) {
        Ok(_) => Ok(false),
        Err(TextFault::Memory) => Err(AllocError),
        Err(TextFault::Refused { rule: met, .. }) => Ok(met.code() == rule.code()),
    }
}

/// Whether a line is in a picture: the text before it, which lacks lines of one, is given.
pub fn is_of_picture(alloc: Global, before: &[u8]) -> Result<bool, AllocError>
    ensures { IfOk result (λ is. is ≡ spec.is_of_picture before.now) }
{
    is_refused_by(alloc, before, TextRule::NoPicture)
}

/// The line with its comments made blank; in a picture no byte is one of a word.
fn plain_line(alloc: Global, of_picture: bool, line: &[u8]) -> Result<Vec<u8>, AllocError>
    ensures { IfOk result (λ plain. plain.items ≡ spec.plain_line of_picture line.now) }
{
    if !of_picture {
        return with_blank_comments(alloc, line);
    }
    let mut plain = Vec::with_capacity(alloc, line.len())?;
    let mut rest = line;
    while let [_, behind @ ..] = rest {
        plain.push(BLANK)?;
        rest = behind;
    }
    Ok(plain)
}

/// The column of the first byte that may not be in a line; that of its end if there is none.
#[tactic(auto, unfolding(crate::specs::Breach::stray_column))]
fn stray_column(line: &[u8], plain: &[u8]) -> usize
    ensures { result ≡ spec.stray_column 1 line.now plain.now }
{
    let mut column = 1;
    let mut rest = line;
    let mut seen = plain;
    while let [byte, behind @ ..] = rest {
        let [plain, more @ ..] = seen else {
            return column;
        };
        if is_stray(*byte, *plain) {
            return column;
        }
        column += 1;
        rest = behind;
        seen = more;
    }
    column
}

/// The run at the front.
pub fn front_run(plain: &[u8]) -> &[u8]
    ensures { result.now ≡ spec.front_run plain.now }
{
    &plain[..run_len(plain)]
}

/// Whether a run begins at the front, after this byte, and breaks a rule by itself, as the word
/// after AS.
#[tactic(auto, unfolding(crate::specs::Breach::breaks_rule))]
fn breaks_rule(alloc: Global, rule: TextRule, last: u8, rest: &[u8]) -> Result<bool, AllocError>
    ensures { IfOk result (λ breaks. breaks ≡ spec.breaks_rule rule last rest.now) }
{
    let [byte, ..] = rest else {
        return Ok(false);
    };
    if !in_run(*byte) || is_joined(last, *byte) {
        return Ok(false);
    }
    let mut text = Vec::new(alloc);
    text.extend_from_slice(b"AS ")?;
    text.extend_from_slice(front_run(rest))?;
    is_refused_by(alloc, &text, rule)
}

/// The column of the first run that breaks a rule by itself; that of the end if there is none.
#[tactic(auto, unfolding(crate::specs::Breach::run_column))]
fn run_column(alloc: Global, rule: TextRule, plain: &[u8]) -> Result<usize, AllocError>
    ensures { IfOk result (λ column. column ≡ spec.run_column rule 1 BLANK plain.now) }
{
    let mut column = 1;
    let mut last = BLANK;
    let mut rest = plain;
    while let [byte, behind @ ..] = rest {
        if breaks_rule(alloc, rule, last, rest)? {
            return Ok(column);
        }
        column += 1;
        last = *byte;
        rest = behind;
    }
    Ok(column)
}

/// The column at which a line breaks a rule.
pub fn breach_column(
    alloc: Global,
    rule: TextRule,
    of_picture: bool,
    line: &[u8],
) -> Result<usize, AllocError>
    ensures { IfOk result (λ column. column ≡ spec.breach_column rule of_picture line.now) }
{
    match rule {
        TextRule::StrayByte => Ok(stray_column(line, &plain_line(alloc, of_picture, line)?)),
        TextRule::LongPictureLine => Ok(LONGEST_PICTURE_LINE + 1),
        _ => run_column(alloc, rule, &with_blank_comments(alloc, line)?),
    }
}

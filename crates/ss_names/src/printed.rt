//! Lines of a picture that look like statements.
ghost use Rattle.std.specs.Prelude.{◌≡◌, ◌≤◌, ◌++◌, OnOk, length, map, take_while};
ghost use Rattle.ss_words.specs.TextBytes.{in_run, is_blank};
ghost use Rattle.ss_words.specs.Words.{word_at};
ghost use Rattle.ss_names.specs.Printed as spec;

use itoa::Buffer;
use ss_columns::{is_among, run_len};
use ss_words::characters::{ASTERISK, BLANK, TAB};
use ss_words::{Word, WordKind};
use std::alloc::AllocError;

/// The words with which a statement begins. The definitions read them too.
pub const STATEMENT_WORDS: [&[u8]; 26] = [
    b"LET",
    b"ADD",
    b"SUBTRACT",
    b"CREATE",
    b"DESTROY",
    b"FILE",
    b"REMOVE",
    b"IF",
    b"ELSE",
    b"ALWAYS",
    b"FOR",
    b"DO",
    b"LOOP",
    b"FIND",
    b"COMPUTE",
    b"SCHEDULE",
    b"CAUSE",
    b"CANCEL",
    b"START",
    b"STOP",
    b"CALL",
    b"RETURN",
    b"READ",
    b"PRINT",
    b"SKIP",
    b"END",
];

/// The text about such a line. The definitions read it too.
pub const PRINTED: &[u8] = b" begins a line of a picture here: it is printed, and no statement.\n";

#[tactic(auto, unfolding(ss_words::specs::TextBytes::is_blank))]
fn is_blank(byte: u8) -> bool
    ensures { result ≡ is_blank byte }
{
    byte == BLANK || byte == TAB
}

fn blank_len(line: &[u8]) -> usize
    ensures len { result ≡ length (take_while is_blank line.now) }
    ensures in_range { result ≤ length line.now }
{
    line.iter().take_while(|byte| is_blank(**byte)).count()
}

/// A line after the blanks at its front.
fn behind_blanks(line: &[u8]) -> &[u8]
    ensures { result.now ≡ spec.behind_blanks line.now }
{
    &line[blank_len(line)..]
}

/// The run at the front of a line.
fn front_run(line: &[u8]) -> &[u8]
    ensures { result.now ≡ spec.front_run line.now }
{
    &line[..run_len(line)]
}

/// The first word of a line.
fn first_word(line: &[u8]) -> &[u8]
    ensures { result.now ≡ spec.first_word line.now }
{
    front_run(behind_blanks(line))
}

fn has_asterisk(line: &[u8]) -> bool
    ensures { result ≡ spec.has_asterisk line.now }
{
    line.iter().any(|byte| *byte == ASTERISK)
}

/// Whether a line of a picture, after `number` lines, looks like a statement: it is not the first,
/// begins with the word of one, and has no field.
fn is_like_statement(number: usize, line: &[u8]) -> bool
    ensures { result ≡ spec.is_like_statement number line.now }
{
    number > 0 && is_among(first_word(line), &STATEMENT_WORDS) && !has_asterisk(line)
}

/// Appends the text about a line of a picture, after `number` lines.
fn push_printed_line(
    text: &mut Vec<u8>,
    first: usize,
    number: usize,
    line: &[u8],
) -> Result<(), AllocError>
    ensures { OnOk result (text.new.items
        ≡ text.old.items ++ spec.printed_line first number line.now) }
{
    let mut buffer = Buffer::new();
    text.extend_from_slice(b"Line ")?;
    text.extend_from_slice(buffer.format(first as u128 + number as u128).as_bytes())?;
    text.extend_from_slice(b": ")?;
    text.extend_from_slice(first_word(line))?;
    text.extend_from_slice(PRINTED)
}

/// Appends each line of a picture that looks like a statement; the first line has this number.
#[tactic(auto, unfolding(crate::specs::Printed::printed_lines))]
fn push_printed_lines(text: &mut Vec<u8>, first: usize, lines: &[Vec<u8>]) -> Result<(), AllocError>
    ensures { OnOk result (text.new.items
        ≡ text.old.items ++ spec.printed_lines first 0 (map (λ l. l.items) lines.now)) }
{
    for (number, line) in lines.iter().enumerate() {
        if is_like_statement(number, line) {
            push_printed_line(text, first, number, line)?;
        }
    }
    Ok(())
}

/// Appends each line of a picture of these words that looks like a statement.
#[tactic(auto, unfolding(crate::specs::Printed::printed_text))]
pub fn push_printed(text: &mut Vec<u8>, words: &[Word]) -> Result<(), AllocError>
    ensures { OnOk result (text.new.items
        ≡ text.old.items ++ spec.printed_text (map word_at words.now)) }
{
    let mut rest = words;
    while let [word, behind @ ..] = rest {
        if let WordKind::Picture(lines) = &word.kind {
            push_printed_lines(text, word.line, lines)?;
        }
        rest = behind;
    }
    Ok(())
}

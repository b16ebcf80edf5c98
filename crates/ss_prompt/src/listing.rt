//! Lines of the model are listed, and the last of them is where LIST goes on.
ghost use Rattle.std.specs.Prelude.{◌≡◌, ◌+◌, ◌<◌, ◌^◌, [], ◌∷◌, ◌++◌, map, decimal, OnOk};
ghost use Rattle.ss_prompt.specs.Listing.{mark_of, listed_lines, listed_to, listed_about};
ghost use Rattle.ss_prompt.specs.Listing.{no_line_text, no_lines_after_text, listed_between};
ghost use Rattle.ss_prompt.specs.Listing.{listed_further, listed_on};
ghost use Rattle.ss_prompt.specs.Listed.{about_end, further_end, alone_end, between_end};

use crate::source::push_marked_line;
use itoa::Buffer;
use std::alloc::AllocError;

/// How many lines before a line, and how many after it, are listed with it.
const LINES_BESIDE: usize = 5;

/// How many lines LIST prints when it goes on.
const LINES_AT_ONCE: usize = 11;

/// The mark of a line: that of the present place, or another.
fn mark_of(present: usize, line: usize) -> &'static [u8]
    ensures { result.now ≡ mark_of present line }
{
    if line == present { b"> " } else { b": " }
}

/// Appends a number of lines from one on.
fn push_lines(
    text: &mut Vec<u8>,
    lines: &[&[u8]],
    present: usize,
    from: usize,
    count: usize,
) -> Result<(), AllocError>
    requires { from + count < 2 ^ 64 }
    ensures { OnOk result (text.new.items ≡ text.old.items
        ++ listed_lines (map (λ line. line.now) lines.now) present from count) }
{
    for k in 0..count {
        let line = from + k;
        push_marked_line(text, lines, mark_of(present, line), line)?;
    }
    Ok(())
}

/// Appends the lines from one to another that there are.
pub(crate) fn push_lines_to(
    text: &mut Vec<u8>,
    lines: &[&[u8]],
    present: usize,
    from: usize,
    to: usize,
) -> Result<(), AllocError>
    ensures { OnOk result (text.new.items ≡ text.old.items
        ++ listed_to (map (λ line. line.now) lines.now) present from to) }
{
    let last = lines.len().min(to);
    push_lines(text, lines, present, from, (last + 1).saturating_sub(from))
}

/// Appends words, the number of a line, and the end of the row.
fn push_numbered(text: &mut Vec<u8>, words: &[u8], line: usize) -> Result<(), AllocError>
    ensures { OnOk result (text.new.items
        ≡ text.old.items ++ (words.now ++ (decimal line ++ 10 ∷ []))) }
{
    let mut buffer = Buffer::new();
    text.extend_from_slice(words)?;
    text.extend_from_slice(buffer.format(line).as_bytes())?;
    text.extend_from_slice(b"\n")
}

/// Appends that there is no line of this number.
fn push_no_line(text: &mut Vec<u8>, line: usize) -> Result<(), AllocError>
    ensures { OnOk result (text.new.items ≡ text.old.items ++ no_line_text line) }
{
    push_numbered(text, b"NO LINE ", line)
}

/// Appends a line with those about it, or that there is none of this number.
pub(crate) fn push_lines_about(
    text: &mut Vec<u8>,
    lines: &[&[u8]],
    present: usize,
    line: usize,
) -> Result<(), AllocError>
    ensures { OnOk result (text.new.items ≡ text.old.items
        ++ listed_about (map (λ line. line.now) lines.now) present line) }
{
    if line == 0 || lines.len() < line {
        return push_no_line(text, line);
    }
    let from = line.saturating_sub(LINES_BESIDE).max(1);
    push_lines_to(text, lines, present, from, line + LINES_BESIDE)
}

/// Appends the lines from one to another that there are, or that the first is none.
pub(crate) fn push_lines_between(
    text: &mut Vec<u8>,
    lines: &[&[u8]],
    present: usize,
    from: usize,
    to: usize,
) -> Result<(), AllocError>
    ensures { OnOk result (text.new.items ≡ text.old.items
        ++ listed_between (map (λ line. line.now) lines.now) present from to) }
{
    if lines.len() < from {
        return push_no_line(text, from);
    }
    push_lines_to(text, lines, present, from, to)
}

/// Appends that no line comes after this one.
fn push_no_lines_after(text: &mut Vec<u8>, line: usize) -> Result<(), AllocError>
    ensures { OnOk result (text.new.items ≡ text.old.items ++ no_lines_after_text line) }
{
    push_numbered(text, b"NO LINES AFTER ", line)
}

/// Appends the eleven lines after a line.
fn push_lines_after(
    text: &mut Vec<u8>,
    lines: &[&[u8]],
    present: usize,
    line: usize,
) -> Result<(), AllocError>
    ensures { OnOk result (text.new.items ≡ text.old.items
        ++ listed_further (map (λ line. line.now) lines.now) present line) }
{
    if lines.len() <= line {
        return push_no_lines_after(text, line);
    }
    push_lines_to(text, lines, present, line + 1, line + LINES_AT_ONCE)
}

/// Appends the lines after the last one that LIST printed, or else those about the present one.
pub(crate) fn push_lines_on(
    text: &mut Vec<u8>,
    lines: &[&[u8]],
    present: usize,
    listed: Option<usize>,
) -> Result<(), AllocError>
    ensures { OnOk result (text.new.items ≡ text.old.items
        ++ listed_on (map (λ line. line.now) lines.now) present listed) }
{
    match listed {
        Some(last) => push_lines_after(text, lines, present, last),
        None => push_lines_about(text, lines, present, present),
    }
}

/// The last line about a line, if there is that line.
pub(crate) fn about_end(lines: &[&[u8]], line: usize) -> Option<usize>
    ensures { result ≡ about_end (map (λ line. line.now) lines.now) line }
{
    if line == 0 || lines.len() < line {
        return None;
    }
    Some(lines.len().min(line + LINES_BESIDE))
}

/// The last of the eleven lines after a line, if there is one.
fn further_end(lines: &[&[u8]], line: usize) -> Option<usize>
    ensures { result ≡ further_end (map (λ line. line.now) lines.now) line }
{
    if lines.len() <= line {
        return None;
    }
    Some(lines.len().min(line + LINES_AT_ONCE))
}

/// The last line that LIST prints without a line.
pub(crate) fn alone_end(lines: &[&[u8]], present: usize, listed: Option<usize>) -> Option<usize>
    ensures { result ≡ alone_end (map (λ line. line.now) lines.now) present listed }
{
    match listed {
        Some(last) => further_end(lines, last),
        None => about_end(lines, present),
    }
}

/// The last line from one to another, if there is the first.
pub(crate) fn between_end(lines: &[&[u8]], from: usize, to: usize) -> Option<usize>
    ensures { result ≡ between_end (map (λ line. line.now) lines.now) from to }
{
    if lines.len() < from {
        return None;
    }
    Some(lines.len().min(to))
}

//! Prints the break lines, and how many were cleared.
ghost use Rattle.std.specs.Prelude.{◌≡◌, ◌++◌, map, OnOk, IfOk};
ghost use Rattle.std.specs.Option.{option_copied};
ghost use Rattle.ss_prompt.specs.Breaks.{break_mark, break_rows, breaks_text};
ghost use Rattle.ss_prompt.specs.Cleared.{cleared_text};

use crate::source::push_marked_line;
use itoa::Buffer;
use ss_debug::ShownBreak;
use std::alloc::{AllocError, Global};

/// What comes between the number of a break line and its text.
fn break_mark(alloc: Global, condition: Option<&[u8]>) -> Result<Vec<u8>, AllocError>
    ensures { IfOk result (λ mark. mark.items ≡ break_mark (option_copied condition.entry)) }
{
    let Some(condition) = condition else {
        return Vec::from_slice(alloc, b": ");
    };
    let mut mark = Vec::from_slice(alloc, b" WHEN ")?;
    mark.extend_from_slice(condition)?;
    mark.extend_from_slice(b": ")?;
    Ok(mark)
}

/// Appends break lines of the model, each after its number, its condition and a colon.
fn push_break_rows(
    alloc: Global,
    text: &mut Vec<u8>,
    lines: &[&[u8]],
    mut breaks: &[ShownBreak],
) -> Result<(), AllocError>
    ensures { OnOk result (text.new.items ≡ text.old.items
        ++ break_rows (map (λ line. line.now) lines.now) breaks.entry.now) }
{
    while let [first, rest @ ..] = breaks {
        let mark = break_mark(alloc, first.text())?;
        push_marked_line(text, lines, &mark, first.line())?;
        breaks = rest;
    }
    Ok(())
}

/// Appends the break lines, or that there is none.
pub(crate) fn push_break_lines(
    alloc: Global,
    text: &mut Vec<u8>,
    lines: &[&[u8]],
    breaks: &[ShownBreak],
) -> Result<(), AllocError>
    ensures { OnOk result (text.new.items ≡ text.old.items
        ++ breaks_text (map (λ line. line.now) lines.now) breaks.now) }
{
    if breaks.is_empty() {
        return text.extend_from_slice(b"NO BREAKS\n");
    }
    push_break_rows(alloc, text, lines, breaks)
}

/// Appends how many break lines were cleared.
pub(crate) fn push_cleared(text: &mut Vec<u8>, breaks: &[usize]) -> Result<(), AllocError>
    ensures { OnOk result (text.new.items ≡ text.old.items ++ cleared_text breaks.now) }
{
    let mut buffer = Buffer::new();
    text.extend_from_slice(b"BREAKS CLEARED: ")?;
    text.extend_from_slice(buffer.format(breaks.len()).as_bytes())?;
    text.extend_from_slice(b"\n")
}

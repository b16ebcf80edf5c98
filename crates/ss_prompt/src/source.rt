//! The lines of the model.
ghost use Rattle.std.specs.Prelude.{◌≡◌, ◌++◌, map, OnOk, IfOk};
ghost use Rattle.ss_prompt.specs.Source.{without_return, source_lines, line_text, marked_line};

use itoa::Buffer;
use ss_debug::split_line;
use std::alloc::{AllocError, Global};

/// A line without the carriage return at its end.
fn without_return(line: &[u8]) -> &[u8]
    ensures { result.now ≡ without_return line.now }
{
    if !line.is_empty() && line[line.len() - 1] == b'\r' {
        return &line[..line.len() - 1];
    }
    line
}

/// The lines of a model, so that each is found at once.
pub fn source_lines<'a>(alloc: Global, model: &'a [u8]) -> Result<Vec<&'a [u8]>, AllocError>
    ensures { IfOk result (λ lines. map (λ line. line.now) lines.items ≡ source_lines model.now) }
{
    let mut lines = Vec::new(alloc);
    let mut rest = model;
    while !rest.is_empty() {
        let (line, more) = split_line(rest);
        lines.push(without_return(line))?;
        rest = more;
    }
    Ok(lines)
}

/// Line `number` of the model, the first of which is line 1; nothing if there is none.
fn line_text<'a>(lines: &[&'a [u8]], number: usize) -> &'a [u8]
    ensures { result.now ≡ line_text (map (λ line. line.now) lines.now) number }
{
    if number == 0 || lines.len() < number {
        return b"";
    }
    lines[number - 1]
}

/// Appends line `number` of the model after its number and a mark; nothing comes after the mark if
/// there is no such line.
pub fn push_marked_line(
    text: &mut Vec<u8>,
    lines: &[&[u8]],
    mark: &[u8],
    number: usize,
) -> Result<(), AllocError>
    ensures { OnOk result (text.new.items ≡ text.old.items
        ++ marked_line (map (λ line. line.now) lines.now) mark.now number) }
{
    let mut buffer = Buffer::new();
    text.extend_from_slice(buffer.format(number).as_bytes())?;
    text.extend_from_slice(mark)?;
    text.extend_from_slice(line_text(lines, number))?;
    text.extend_from_slice(b"\n")
}

//! Pictures.
ghost use Rattle.std.specs.Prelude.{◌≡◌, ◌+◌, ◌≤◌, [], List, map, take, length, MatchResult, IfOk};
ghost use Rattle.ss_words.specs.Words.{Kind};
ghost use Rattle.ss_words.specs.TextLines.{text_lines};
ghost use Rattle.ss_words.specs.TextWords.{Finding, found_from_line, found_in_picture};
ghost use Rattle.ss_words.specs.TextScan.{SameFindings, IsFirstIn, nearest, found_below};

use crate::fault::{TextFault, TextRule};
use crate::limits::LONGEST_PICTURE_LINE;
use crate::scan::bytes::{all_allowed, is_allowed};
use crate::scan::collected::Collected;
use crate::scan::lines::Lines;
use crate::scan::refused;
use crate::word::WordKind;
use std::alloc::Global;

// Takes the picture that the words call at their end, if they call one: the next lines, as many
// as PRINT says.
pub fn scan_picture(words: &mut Collected, lines: &mut Lines) -> Result<(), TextFault>
    ensures found { let todo = found_below (nearest words.old) (lines.old.taken + 1)
        (text_lines lines.old.rest.now) in
        let left = found_from_line (nearest words.new) (lines.new.taken + 1) 0
        (text_lines lines.new.rest.now) in
        MatchResult result (λ _. SameFindings words.old todo words.new left)
        (λ f. IsFirstIn f todo) }
    ensures shorter { length lines.new.rest.now ≤ length lines.old.rest.now }
{
    if !words.calls_picture() {
        return Ok(());
    }
    let count = match words.picture_lines() {
        Some(count) => count as usize,
        None => return Ok(()),
    };
    let first = lines.taken + 1;
    let picture = picture(words.alloc(), lines, count)?;
    let drawn = Box::new(words.alloc(), picture)?;
    words.push(first, WordKind::Picture(drawn))
}

// The next lines as a picture, at most `count`.
fn picture(alloc: Global, lines: &mut Lines, count: usize) -> Result<Vec<Vec<u8>>, TextFault>
    ensures picture { IfOk result
        (λ p. map (λ l. l.items) p.items ≡ take count (text_lines lines.old.rest.now)) }
    ensures found { (before : List Kind) →
        let todo : List Finding = found_from_line before (lines.old.taken + 1) count
        (text_lines lines.old.rest.now) in
        let left : List Finding = found_from_line before (lines.new.taken + 1) 0
        (text_lines lines.new.rest.now) in
        MatchResult result (λ _. todo ≡ left) (λ f. IsFirstIn f todo) }
    ensures shorter { length lines.new.rest.now ≤ length lines.old.rest.now }
{
    let mut picture = Vec::with_capacity(alloc, count)?;
    for _line in 0..count {
        match lines.next() {
            Some(line) => picture.push(picture_line(alloc, line, lines.taken)?)?,
            None => return Ok(picture),
        }
    }
    Ok(picture)
}

fn picture_line(alloc: Global, line: &[u8], number: usize) -> Result<Vec<u8>, TextFault>
    ensures line { IfOk result (λ l. l.items ≡ line.now) }
    ensures found { let todo = found_in_picture number line.now in
        MatchResult result (λ _. todo ≡ []) (λ f. IsFirstIn f todo) }
{
    if line.is_empty() {
        return Ok(Vec::new(alloc));
    }
    if !is_allowed(line[0]) {
        return Err(refused(TextRule::StrayByte, number));
    }
    if line.len() > LONGEST_PICTURE_LINE {
        return Err(refused(TextRule::LongPictureLine, number));
    }
    if !all_allowed(line) {
        return Err(refused(TextRule::StrayByte, number));
    }
    Ok(line.to_vec(alloc)?)
}

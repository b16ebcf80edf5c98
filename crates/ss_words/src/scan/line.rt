//! The words of a line outside pictures.
ghost use Rattle.std.specs.Prelude.{◌≡◌, ℕ, ◌+◌, ◌<◌, ◌≤◌, true, false, [], List, length, drop, take_while};
ghost use Rattle.std.specs.Prelude.{slice_index, Some, MatchResult, IfOk};
ghost use Rattle.ss_words.specs.Words.{Kind, kind_of};
ghost use Rattle.ss_words.specs.TextBytes.{is_blank, in_run, sign_len};
ghost use Rattle.ss_words.specs.TextLines.{text_lines, is_blank_rest};
ghost use Rattle.ss_words.specs.TextRuns.{is_met, lacks_picture};
ghost use Rattle.ss_words.specs.TextWords.{found_in_line, run_found, word_found};
ghost use Rattle.ss_words.specs.TextScan.{begins_comment, hidden_len, SameFindings, IsFirstIn, nearest, left_in_line};

use crate::characters::QUOTE;
use crate::fault::{TextFault, TextRule};
use crate::limits::LONGEST_RUN;
use crate::scan::bytes::{all_allowed, in_run, is_blank, sign_from};
use crate::scan::collected::Collected;
use crate::scan::lines::Lines;
use crate::scan::refused;
use crate::scan::run::{run_len, spelling_of, without_stops};
use crate::word::{Sign, WordKind};

// Takes the words of the line that was taken last; `below` has the lines below it.
pub fn scan_line(words: &mut Collected, line: &[u8], below: &Lines) -> Result<(), TextFault>
    ensures { let todo = left_in_line below.now.taken below.now.rest.now words.old line.now in
        MatchResult result (λ _. SameFindings words.old todo words.new []) (λ f. IsFirstIn f todo) }
{
    let mut rest = line;
    while !rest.is_empty() {
        let len = scan_place(words, rest, below)?;
        rest = &rest[len..];
    }
    Ok(())
}

// Takes the part that begins at the front of `rest`: a comment, a blank, a run or a sign. Gives its
// number of bytes.
fn scan_place(words: &mut Collected, rest: &[u8], below: &Lines) -> Result<usize, TextFault>
    requires { 0 < length rest.now }
    ensures len { IfOk result (λ len. (0 < len) × (len ≤ length rest.now)) }
    ensures found { let todo = left_in_line below.now.taken below.now.rest.now in
        MatchResult result
        (λ len. SameFindings words.old (todo words.old rest.now) words.new
        (todo words.new (drop len rest.now)))
        (λ f. IsFirstIn f (todo words.old rest.now)) }
{
    if begins_comment(rest) {
        return scan_comment(rest, below.taken);
    }
    let first = rest[0];
    if is_blank(first) {
        Ok(1)
    } else if in_run(first) {
        let len = run_len(rest);
        scan_run(words, &rest[..len], &rest[len..], below)?;
        Ok(len)
    } else {
        scan_sign(words, rest, below)
    }
}

// Two quotes are at the front.
#[tactic(auto, unfolding(crate::specs::TextScan::begins_comment))]
fn begins_comment(rest: &[u8]) -> bool
    ensures { result ≡ begins_comment rest.now }
{
    rest.len() > 1 && rest[0] == QUOTE && rest[1] == QUOTE
}

// The length of the comment at the front: up to past the next two quotes, or to the line's end.
fn comment_len(rest: &[u8]) -> usize
    requires { begins_comment rest.now ≡ true }
    ensures len { result ≡ 2 + hidden_len (drop 2 rest.now) }
    ensures in_range { result ≤ length rest.now }
{
    let mut len = 2;
    while len < rest.len() {
        if begins_comment(&rest[len..]) {
            return len + 2;
        }
        len += 1;
    }
    len
}

fn scan_comment(rest: &[u8], line: usize) -> Result<usize, TextFault>
    requires { begins_comment rest.now ≡ true }
    ensures len { IfOk result (λ len. (0 < len) × (len ≤ length rest.now)) }
    ensures found { let todo = found_in_line line in
        (below : ℕ) (before : List Kind) → MatchResult result
        (λ len. todo below before rest.now ≡ todo below before (drop len rest.now))
        (λ f. IsFirstIn f (todo below before rest.now)) }
{
    let len = comment_len(rest);
    if all_allowed(&rest[..len]) {
        Ok(len)
    } else {
        Err(refused(TextRule::StrayByte, line))
    }
}

fn sign_len(sign: Sign) -> usize
    ensures { result ≡ sign_len sign }
{
    match sign {
        Sign::LessEqual | Sign::GreaterEqual => 2,
        _ => 1,
    }
}

// The second byte, or 0.
fn second(rest: &[u8]) -> u8
    ensures { result ≡ slice_index rest.now 1 }
{
    if rest.len() > 1 { rest[1] } else { 0 }
}

// Takes the sign at the front, if no comment, blank or run begins. Gives its number of bytes.
fn scan_sign(words: &mut Collected, rest: &[u8], below: &Lines) -> Result<usize, TextFault>
    requires nonempty { 0 < length rest.now }
    requires no_comment { begins_comment rest.now ≡ false }
    requires no_blank { is_blank (slice_index rest.now 0) ≡ false }
    requires no_run { in_run (slice_index rest.now 0) ≡ false }
    ensures len { IfOk result (λ len. (0 < len) × (len ≤ length rest.now)) }
    ensures found { let todo = left_in_line below.now.taken below.now.rest.now in
        MatchResult result
        (λ len. SameFindings words.old (todo words.old rest.now) words.new
        (todo words.new (drop len rest.now)))
        (λ f. IsFirstIn f (todo words.old rest.now)) }
{
    match sign_from(rest[0], second(rest)) {
        Some(sign) => {
            words.push(below.taken, WordKind::Sign(sign))?;
            Ok(sign_len(sign))
        }
        None => Err(refused(TextRule::StrayByte, below.taken)),
    }
}

// Takes the word of a run in front of the rest of its line.
fn scan_run(words: &mut Collected, run: &[u8], rest: &[u8], below: &Lines) -> Result<(), TextFault>
    ensures { let lines = length (text_lines below.now.rest.now) in
        let todo = run_found below.now.taken lines (nearest words.old) rest.now run.now in
        MatchResult result (λ _. SameFindings words.old todo words.new []) (λ f. IsFirstIn f todo) }
{
    let kept = without_stops(run);
    let spelling = match spelling_of(kept) {
        Some(spelling) => spelling,
        None => return Err(refused(TextRule::BadNumber, below.taken)),
    };
    if run.len() > LONGEST_RUN {
        return Err(refused(TextRule::LongRun, below.taken));
    }
    if kept.is_empty() {
        return Ok(());
    }
    let kind = words.spelled(kept, spelling)?;
    scan_word(words, kind, rest, below)
}

// Takes a word in front of the rest of its line.
fn scan_word(
    words: &mut Collected,
    kind: WordKind,
    rest: &[u8],
    below: &Lines,
) -> Result<(), TextFault>
    ensures { let lines = length (text_lines below.now.rest.now) in
        let todo = word_found below.now.taken lines (nearest words.old) rest.now
        (Some (kind_of kind)) in
        MatchResult result (λ _. SameFindings words.old todo words.new []) (λ f. IsFirstIn f todo) }
{
    words.push(below.taken, kind)?;
    if lacks_picture(words, rest, below) {
        return Err(refused(TextRule::NoPicture, below.taken));
    }
    Ok(())
}

// The words call a picture at their end, and it is not there.
#[tactic(auto, unfolding(crate::specs::TextRuns::lacks_picture))]
fn lacks_picture(words: &Collected, rest: &[u8], below: &Lines) -> bool
    ensures { result
        ≡ lacks_picture (nearest words.now) rest.now (length (text_lines below.now.rest.now)) }
{
    if !words.calls_picture() {
        return false;
    }
    if !is_blank_rest(rest) {
        return true;
    }
    !is_met(words.picture_lines(), below)
}

// A count is given, and at least that number of lines is left.
fn is_met(lines: Option<u64>, below: &Lines) -> bool
    ensures { result ≡ is_met lines (length (text_lines below.now.rest.now)) }
{
    match lines {
        Some(count) => below.has(count as usize),
        None => false,
    }
}

// The number of blanks and tabs at the front.
fn blanks_len(rest: &[u8]) -> usize
    ensures len { result ≡ length (take_while is_blank rest.now) }
    ensures in_range { result ≤ length rest.now }
{
    rest.iter().take_while(|byte| is_blank(**byte)).count()
}

// Only blanks, tabs and at most one comment.
fn is_blank_rest(rest: &[u8]) -> bool
    ensures { result ≡ is_blank_rest rest.now }
{
    let rest = &rest[blanks_len(rest)..];
    if begins_comment(rest) {
        let behind = &rest[comment_len(rest)..];
        return blanks_len(behind) == behind.len();
    }
    rest.is_empty()
}

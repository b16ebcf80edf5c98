//! Reads the cases of its standard input, one a line, `WAY TEXT -> ANSWER`: the text, read in that
//! way, is to give that answer. The program prints each case that gives another answer, with that
//! answer. Last it prints how many cases there were. A line that begins with no capital is a
//! remark.
//!
//! - `WORKED`: the text is the name of a worked example of data/; the boards, `linked` and `plain`,
//!   over which its session gives its transcript and its status.
//! - `FEED`: the answers of a feed of data to calls, as the module `feeds` says.
//! - `TURNS`: nothing; each command's answer is written at once, also if a growth is refused.
//! - `WORDS`: each word after its line and a colon.
//! - `COUNT`: how many words there are.
//! - `PLAIN`: the plain words; `PLACED`: each after its line and its place in the list of words.
//! - `LINES`: the line of each item of the preamble, that of END, and the first word after it.
//! - `ITEMS`: the items of the preamble, and the first word after it.
//! - `CHECK`: that the program is checked, or the rule that it breaks and its line.
//! - `LOCAL`: the number of MAIN's local variable of the name that is the first line, and the
//!   meaning of that name in the whole program; the program is after that line.
//! - `PLACES`: the number and the line of MAIN, how many local variables it has, and the line of
//!   each of its places.
//! - `PROGRAM`: how many items the preamble has, and how many sections are after it.
//! - `BEGINNINGS`: the answer of `LINES` for each beginning of the text that ends with a line.
//! - `SECTIONS`: each section: its line, its kind, its name, its local DEFINEs and its places, the
//!   DEFINEs and places each after its line.
//! - `BODY`: the places of MAIN but its END; the text is put between MAIN and END.
//! - `SIZES`: how many sections there are, and how many places they have.
//! - `PIECES`: for the beginnings of the text that end before a blank or a line's end, and for the
//!   whole: how many pieces each has and `Ok` or the refusal; those that P2 refuses at their last
//!   line are left out.
//!
//! The last four show names of one letter and numbers of one digit as that letter and that digit. A
//! text that is refused gives its rule and line. The module `notation` says how a text is noted.
//!
//! A line that begins with four blanks is an example as docs/LANGUAGE.md writes it, `TEXT ->
//! ANSWER`, perhaps with a note after two blanks. The answer is `P1 LINE 3` or the like, or `NO
//! REFUSAL`, as the preamble and the sections after it are read.
#![tactic(auto)]

mod answer;
mod checked;
mod feeds;
mod items;
mod notation;
mod pieces;
mod places;
mod plain;
mod raw;
mod sections;
mod shown;
mod turns;
mod worked;

use answer::put_answer;
use std::io;
use std::io::Write;
use std::rt::Files;

/// A case: the way, the text, and the answer that it is to give.
#[derive(Clone, Copy)]
struct Case<'a> {
    way: &'a str,
    text: &'a str,
    wanted: &'a str,
}

/// The case of a line; `None` for a remark.
fn case_of(line: &str) -> Option<Case<'_>> {
    match line.strip_prefix("    ") {
        Some(example) => example_of(example),
        None => noted_case(line),
    }
}

/// The case of an example of a document, without its note.
fn example_of(line: &str) -> Option<Case<'_>> {
    let (text, rest) = line.split_once(" -> ")?;
    let (wanted, _note) = rest.split_once("  ").unwrap_or((rest, ""));
    Some(Case {
        way: "EXAMPLE",
        text: text.trim_end(),
        wanted: wanted.trim_end(),
    })
}

/// `WAY TEXT -> ANSWER`
fn noted_case(line: &str) -> Option<Case<'_>> {
    if !line.as_bytes().first().is_some_and(u8::is_ascii_uppercase) {
        return None;
    }
    let (way, rest) = line.split_once(' ')?;
    let (text, wanted) = rest.split_once(" -> ")?;
    Some(Case { way, text, wanted })
}

/// Tries the case of a line, if it has one, and says whether it has.
fn is_tried<R: Files + AllocGlobal + Print>(rt: &R, line: &str) -> io::Result<bool> {
    match case_of(line) {
        Some(case) => {
            try_case(rt, line, case)?;
            Ok(true)
        }
        None => Ok(false),
    }
}

/// Tries the case of a line; prints the line with the answer that it gives, if that is another one.
fn try_case<R: Files + AllocGlobal + Print>(rt: &R, line: &str, case: Case<'_>) -> io::Result<()> {
    let mut given = Vec::new(rt.alloc());
    let tried = match put_given(rt, &mut given, case) {
        Ok(()) => compare(rt, line, &given, case.wanted),
        Err(error) => Err(error),
    };
    drop(given);
    tried
}

/// Puts the answer that a case gives.
fn put_given<R: Files + AllocGlobal + Print>(
    rt: &R,
    given: &mut Vec<u8>,
    case: Case<'_>,
) -> io::Result<()> {
    match case.way {
        "WORKED" => worked::put_boards(rt, given, case.text),
        "TURNS" => turns::show(rt, case.text),
        "FEED" => Ok(feeds::put_calls(rt.alloc(), given, case.text)?),
        way => Ok(put_answer(rt.alloc(), given, way, case.text)?),
    }
}

/// Prints a line with the answer that its case gave, if that is not the one wanted.
fn compare<R: Print>(rt: &R, line: &str, given: &[u8], wanted: &str) -> io::Result<()> {
    if given == wanted.as_bytes() {
        return Ok(());
    }
    println!(rt; "{line}")?;
    io::writer(rt).write_all(given)?;
    println!(rt; "")
}

fn main(rt: HostRuntime) -> io::Result<()> {
    let mut count = 0;
    for line in rt.lines(rt.alloc()) {
        let line = line?;
        let tried = is_tried(&rt, line.as_str());
        drop(line);
        if tried? {
            count = usize::wrapping_add(count, 1);
        }
    }
    println!(rt; "{count} cases")
}

//! The answers of a feed of data to calls.
use crate::answer::{put_number, put_string, put_text};
use crate::notation::{Repeats, text_of};
use ss_data::{Feed, PieceKind};
use ss_words::RunFault;
use std::alloc::{AllocError, Global};

/// Puts the answers to calls on the feed of a text, and after each how many pieces are taken then.
///
/// The calls are before the text's first `|`, a byte each: `T` takes a number, `K` asks of which
/// kind the next piece is, `P` passes it, `N` asks whether it is the name ARRIVAL, and `E` passes
/// an entry. A digit gives back all pieces but that many.
pub fn put_calls(alloc: Global, out: &mut Vec<u8>, noted: &str) -> Result<(), AllocError> {
    let (calls, data) = noted.split_once('|').unwrap_or((noted, ""));
    let text = text_of(alloc, data, Repeats::BehindColon)?;
    let made = Feed::new(alloc, &text);
    drop(text);
    let mut feed = made?;
    let put = put_all(alloc, out, &mut feed, calls);
    drop(feed);
    put
}

fn put_all(
    alloc: Global,
    out: &mut Vec<u8>,
    feed: &mut Feed,
    calls: &str,
) -> Result<(), AllocError> {
    for call in calls.as_bytes() {
        put_call(alloc, out, feed, *call)?;
        put_number(alloc, out, feed.taken())?;
        put_text(out, ";")?;
    }
    Ok(())
}

/// Puts the answer to a call; nothing if it has none.
fn put_call(alloc: Global, out: &mut Vec<u8>, feed: &mut Feed, call: u8) -> Result<(), AllocError> {
    match call {
        b'T' => put_taken(alloc, out, feed.take()),
        b'E' => put_passed(alloc, out, feed.pass_entry()),
        b'K' => put_text(out, kind_text(feed.kind())),
        b'N' => put_text(out, if feed.names(b"ARRIVAL") { "YES" } else { "NO" }),
        b'P' => {
            pass(feed);
            Ok(())
        }
        digit => {
            give_back(feed, usize::from(digit.wrapping_sub(b'0')));
            Ok(())
        }
    }
}

/// Puts a number that was taken, or the fault.
fn put_taken(
    alloc: Global,
    out: &mut Vec<u8>,
    taken: Result<i64, RunFault>,
) -> Result<(), AllocError> {
    match taken {
        Ok(number) => put_string(out, format!(in alloc; "{number}")),
        Err(fault) => put_passed(alloc, out, Err(fault)),
    }
}

/// Puts the fault, if there is one.
fn put_passed(
    alloc: Global,
    out: &mut Vec<u8>,
    passed: Result<(), RunFault>,
) -> Result<(), AllocError> {
    let Err(fault) = passed else {
        return Ok(());
    };
    let number = fault.number();
    put_string(out, format!(in alloc; "F{number}"))
}

fn kind_text(kind: PieceKind) -> &'static str {
    match kind {
        PieceKind::Number => "NUMBER",
        PieceKind::Mark => "MARK",
        PieceKind::Other => "OTHER",
        PieceKind::End => "END",
    }
}

/// Passes the next piece, if there is one.
fn pass(feed: &mut Feed) {
    if feed.kind() != PieceKind::End {
        feed.pass();
    }
}

/// Gives back all pieces but this number of them, if as many are taken.
fn give_back(feed: &mut Feed, number: usize) {
    if number <= feed.taken() {
        feed.undo(number);
    }
}

//! The comparison of a board's reading calls with lists.
use crate::compare::same;
use crate::links::changes::Lists;
use ss_links::SetBoard;
use std::process::Abort;

/// The head of the list in which a seat is, and the seats after and before it there.
pub type Standing = (Option<u32>, Option<u32>, Option<u32>);

/// The standing of a seat that is in no list.
const NOWHERE: Standing = (None, None, None);

/// The digits of the list with this number.
fn list_at(lists: &[u8], head: usize) -> &[u8] {
    let mut pieces = lists.split(|byte| *byte == b';');
    pieces.nth(head).unwrap_or(&[])
}

/// The seat of a digit.
fn seat_of(byte: u8) -> Option<u32> {
    if byte.is_ascii_digit() {
        Some(u32::from(byte - b'0'))
    } else {
        None
    }
}

/// The seat at a place of a list; none after its end.
fn seat_at(list: &[u8], place: usize) -> Option<u32> {
    match list.get(place) {
        Some(byte) => seat_of(*byte),
        None => None,
    }
}

/// Whether a seat is in a list.
fn is_listed(lists: &[u8], seat: u32) -> bool {
    for byte in lists {
        if seat_of(*byte) == Some(seat) {
            return true;
        }
    }
    false
}

/// How many lists there are.
fn count_of(lists: &[u8]) -> u32 {
    let mut count: u32 = 0;
    for byte in lists {
        if *byte == b';' {
            count = count.wrapping_add(1);
        }
    }
    count
}

/// Compares every reading call with the lists.
pub fn agrees<S: SetBoard>(rt: &impl Abort, board: &S, lists: &Lists) {
    let (lists, seats) = (lists.0.as_slice(), lists.1);
    same(rt, (board.heads(), board.seats()), (count_of(lists), seats));
    for head in 0..board.heads() {
        agrees_on(rt, board, head, list_at(lists, head as usize));
    }
    for seat in 0..board.seats() {
        agrees_on_seat(rt, board, seat, lists);
    }
}

/// Compares the reading calls of a seat, if it is in no list.
fn agrees_on_seat<S: SetBoard>(rt: &impl Abort, board: &S, seat: u32, lists: &[u8]) {
    if !is_listed(lists, seat) {
        stands(rt, board, seat, NOWHERE);
    }
}

/// Compares the reading calls of a head's list with its digits.
fn agrees_on<S: SetBoard>(rt: &impl Abort, board: &S, head: u32, list: &[u8]) {
    assert!(rt; head < board.heads());
    let last = seat_at(list, list.len().wrapping_sub(1));
    let ends = (board.first(head), board.last(head));
    same(rt, ends, (seat_at(list, 0), last));
    same(rt, board.len(head) as usize, list.len());
    let mut before = None;
    for place in 0..list.len() {
        let seat = seat_at(list, place).expect(rt, "a digit");
        let behind = seat_at(list, place + 1);
        stands(rt, board, seat, (Some(head), behind, before));
        before = Some(seat);
    }
}

/// Compares the reading calls of a seat with its standing.
pub fn stands<S: SetBoard>(rt: &impl Abort, board: &S, seat: u32, standing: Standing) {
    assert!(rt; seat < board.seats());
    let found = (board.place(seat), board.next(seat), board.prev(seat));
    same(rt, found, standing);
}

//! The calls on a set board, compared with plain lists.
mod agree;
mod calls;
mod changes;

ghost use Rattle.std.specs.Prelude.{◌<◌};

use crate::compare::same;
use crate::links::agree::{agrees, stands};
use crate::links::calls::{link_first, make, take_and_return};
use crate::links::changes::{Lists, STEPS, Step};
use ss_links::{LinkedSets, PlainSets, SetBoard};
use std::process::Abort;

/// Makes a change, and compares every reading call with the lists after it. If memory is refused,
/// the board is seen as it was, and the change is made again.
fn make_again<S: SetBoard>(
    rt: &(impl Abort + Print),
    board: &mut S,
    step: Step,
    before: &Lists,
    after: &Lists,
) {
    if !make(rt, board, step) {
        agrees(rt, board, before);
        println!(rt; "memory was refused for a change").expect(rt, "a line");
        same(rt, make(rt, board, step), true);
    }
    agrees(rt, board, after);
}

/// Makes changes on an empty board, and compares every reading call with the lists after each.
fn drive<S: SetBoard>(rt: &(impl Abort + Print), board: &mut S, steps: &[(Step, Lists)]) {
    let mut before: Lists = (*b"        ", 0);
    agrees(rt, board, &before);
    for &(step, after) in steps {
        make_again(rt, board, step, &before, &after);
        before = after;
    }
}

/// Makes all changes on an empty board.
fn drive_all<S: SetBoard>(rt: &(impl Abort + Print), board: &mut S) {
    drive(rt, board, &STEPS);
}

/// Makes this number of seats, and puts each first in the list of the head.
fn link_many<S: SetBoard>(rt: &impl Abort, board: &mut S, head: u32, seats: u32) {
    for _ in 0..seats {
        assert!(rt; board.seats() < u32::MAX);
        let seat = board.try_add_seat().expect(rt, "a seat");
        link_first(rt, board, head, seat);
    }
}

/// The seat before this one in the list `seats - 1`, .., 1, 0.
fn seat_before(seats: u32, seat: u32) -> Option<u32>
    requires { seat < seats }
{
    if seat < seats - 1 {
        Some(seat + 1)
    } else {
        None
    }
}

/// Takes a seat of the list `seats - 1`, .., 1, 0 off and puts it back, and reads it.
fn return_one<S: SetBoard>(rt: &impl Abort, board: &mut S, head: u32, seats: u32, seat: u32)
    requires { seat < seats }
{
    take_and_return(rt, board, seat);
    let (behind, before) = (seat.checked_sub(1), seat_before(seats, seat));
    stands(rt, board, seat, (Some(head), behind, before));
    assert!(rt; head < board.heads());
    same(rt, board.len(head), seats);
}

/// Makes all changes on an empty board, which goes.
fn drives<S: SetBoard>(rt: &(impl Abort + Print), board: S) {
    let mut board = board;
    drive_all(rt, &mut board);
    drop(board);
}

#[test]
fn every_call_agrees_with_lists(rt: HostRuntime) {
    drives(&rt, PlainSets::new(rt.alloc()));
    drives(&rt, LinkedSets::new(rt.alloc()));
}

/// The number of seats in one list; a call that walks the list would move 10^12 times.
const MANY_SEATS: u32 = 1_000_000;

/// Makes a list of this number of seats, and takes each off and puts it back.
fn return_many<S: SetBoard>(rt: &impl Abort, board: &mut S) {
    assert!(rt; board.heads() < u32::MAX);
    let head = board.try_add_head().expect(rt, "a head");
    link_many(rt, board, head, MANY_SEATS);
    for seat in 0..MANY_SEATS {
        return_one(rt, board, head, MANY_SEATS, seat);
    }
}

#[test]
fn no_call_walks_a_list(rt: HostRuntime) {
    let mut board = LinkedSets::new(rt.alloc());
    return_many(&rt, &mut board);
    drop(board);
}

//! Calls that change a board, after the check that they may be made.
ghost use Rattle.std.specs.Prelude.{◌≡◌, ◌<◌, None, IsSome};
ghost use Rattle.ss_links.specs.Board.{head_of, CanRelink};

use crate::compare::same;
use crate::links::changes::Step;
use ss_links::{Place, SetBoard, relink_unlinked, unlink_relinked};
use std::process::Abort;

/// Requires that a seat of the board is in no list.
fn is_free<S: SetBoard>(rt: &impl Abort, board: &S, seat: u32)
    ensures is_seat { seat < (S.board board.now).seats }
    ensures is_free { head_of (S.board board.now).lists seat ≡ None }
{
    assert!(rt; seat < board.seats());
    assert!(rt; board.place(seat).is_none());
}

/// Requires that a seat of the board is in a list.
fn is_linked<S: SetBoard>(rt: &impl Abort, board: &S, seat: u32)
    ensures is_seat { seat < (S.board board.now).seats }
    ensures is_linked { IsSome (head_of (S.board board.now).lists seat) }
{
    assert!(rt; seat < board.seats());
    assert!(rt; board.place(seat).is_some());
}

/// Requires that a seat may be put at a place.
fn can_relink<S: SetBoard>(rt: &impl Abort, board: &S, seat: u32, place: Place)
    ensures { CanRelink (S.board board.now) seat place }
{
    is_free(rt, board, seat);
    assert!(rt; place.head < board.heads());
    if let Some(before) = place.before {
        assert!(rt; before < board.seats());
        let head = board
            .place(before)
            .expect(rt, "the seat before the place is in a list");
        assert!(rt; head == place.head);
    }
}

/// Makes a head; false if memory was refused.
fn add_head<S: SetBoard>(rt: &impl Abort, board: &mut S) -> bool {
    assert!(rt; board.heads() < u32::MAX);
    board.try_add_head().is_ok()
}

/// Makes a seat; false if memory was refused.
fn add_seat<S: SetBoard>(rt: &impl Abort, board: &mut S) -> bool {
    assert!(rt; board.seats() < u32::MAX);
    board.try_add_seat().is_ok()
}

fn take_last_head<S: SetBoard>(rt: &impl Abort, board: &mut S) {
    assert!(rt; board.heads() > 0);
    assert!(rt; board.len(board.heads() - 1) == 0);
    board.take_last_head();
}

fn take_last_seat<S: SetBoard>(rt: &impl Abort, board: &mut S) {
    assert!(rt; board.seats() > 0);
    is_free(rt, board, board.seats() - 1);
    board.take_last_seat();
}

pub fn link_first<S: SetBoard>(rt: &impl Abort, board: &mut S, head: u32, seat: u32) {
    assert!(rt; head < board.heads());
    is_free(rt, board, seat);
    board.link_first(head, seat);
}

fn link_last<S: SetBoard>(rt: &impl Abort, board: &mut S, head: u32, seat: u32) {
    assert!(rt; head < board.heads());
    is_free(rt, board, seat);
    board.link_last(head, seat);
}

fn link_before<S: SetBoard>(rt: &impl Abort, board: &mut S, seat: u32, at: u32) {
    is_free(rt, board, seat);
    is_linked(rt, board, at);
    board.link_before(seat, at);
}

fn link_after<S: SetBoard>(rt: &impl Abort, board: &mut S, seat: u32, at: u32) {
    is_free(rt, board, seat);
    is_linked(rt, board, at);
    board.link_after(seat, at);
}

fn unlink<S: SetBoard>(rt: &impl Abort, board: &mut S, seat: u32, from: Place) {
    is_linked(rt, board, seat);
    same(rt, board.unlink(seat), from);
}

fn relink<S: SetBoard>(rt: &impl Abort, board: &mut S, seat: u32, to: Place) {
    can_relink(rt, board, seat, to);
    board.relink(seat, to);
}

/// Takes a seat off and puts it back.
pub fn take_and_return<S: SetBoard>(rt: &impl Abort, board: &mut S, seat: u32) {
    is_linked(rt, board, seat);
    relink_unlinked(board, seat);
}

/// Puts a seat at a place and takes it off.
fn visit<S: SetBoard>(rt: &impl Abort, board: &mut S, seat: u32, at: Place) {
    can_relink(rt, board, seat, at);
    same(rt, unlink_relinked(board, seat, at), at);
}

/// Makes a change of a board; false if memory was refused.
pub fn make<S: SetBoard>(rt: &impl Abort, board: &mut S, step: Step) -> bool {
    match step {
        Step::AddHead => return add_head(rt, board),
        Step::AddSeat => return add_seat(rt, board),
        Step::TakeLastHead => take_last_head(rt, board),
        Step::TakeLastSeat => take_last_seat(rt, board),
        Step::LinkFirst { head, seat } => link_first(rt, board, head, seat),
        Step::LinkLast { head, seat } => link_last(rt, board, head, seat),
        Step::LinkBefore { seat, at } => link_before(rt, board, seat, at),
        Step::LinkAfter { seat, at } => link_after(rt, board, seat, at),
        Step::Unlink { seat, from } => unlink(rt, board, seat, from),
        Step::Relink { seat, to } => relink(rt, board, seat, to),
        Step::Return { seat } => take_and_return(rt, board, seat),
        Step::Visit { seat, at } => visit(rt, board, seat, at),
    }
    true
}

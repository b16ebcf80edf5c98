//! The comparison of the answers of an agenda's reading calls.
use crate::compare::same;
use ss_events::Agenda;
use ss_links::SetBoard;
use std::process::Abort;

// Compares the notice at a place of the order.
fn stands<S: SetBoard>(rt: &impl Abort, agenda: &Agenda<S>, number: usize, notice: Option<u32>) {
    same(rt, agenda.in_order(number), notice);
}

/// Compares the notice of a seat on the board, and gives the seat after it.
pub fn behind_seat<S: SetBoard>(
    rt: &impl Abort,
    agenda: &Agenda<S>,
    at: Option<u32>,
    notice: u32,
) -> Option<u32> {
    let board = agenda.board();
    let seat = at.expect(rt, "a notice more on the board");
    assert!(rt; seat < board.seats());
    same(rt, agenda.notice(seat), notice);
    board.next(seat)
}

/// The first seat of a class on the board.
pub fn first_seat<S: SetBoard>(rt: &impl Abort, agenda: &Agenda<S>, class: u32) -> Option<u32> {
    let board = agenda.board();
    assert!(rt; class < board.heads());
    board.first(class)
}

/// Compares the order with these notices.
pub fn stand_so<S: SetBoard>(rt: &impl Abort, agenda: &Agenda<S>, order: &[u32]) {
    for (number, notice) in order.iter().enumerate() {
        stands(rt, agenda, number, Some(*notice));
    }
    stands(rt, agenda, order.len(), None);
}

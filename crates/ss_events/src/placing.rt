//! The place of a notice in the list of its class: a short list is walked, and a long one has an
//! index.
ghost use Rattle.std.specs.Prelude.{◌≡◌, ◌<◌, ℕ, List, length, Some, None, IfOk, IfSome};
ghost use Rattle.std.specs.Option.{ForSome};
ghost use Rattle.ss_links.specs.Board.{list_at};
ghost use Rattle.ss_links.specs.Seats.{last_of, list_without};
ghost use Rattle.ss_index.specs.Filing.{seats_passed, seats_filed, IsDivided, EachSeat};
ghost use Rattle.ss_events.specs.Rules.{event_classes};
ghost use Rattle.ss_events.specs.State.{board_of};
ghost use Rattle.ss_events.specs.Indexes.{IsIndex, IsFiled, IsWithout};

use crate::agenda::Agenda;
use ss_index::{Order, SeatIndex, SeatNode};
use ss_links::SetBoard;
use std::alloc::{AllocError, Global};

/// A list of this many seats gets an index.
const LONG_LIST: u32 = 64;
/// The index of a list of fewer seats is given up.
const SHORT_LIST: u32 = 32;

/// The seat directly before a place in the list of a head, or none if it is first. The list is
/// walked from its end: most places are near it.
fn walked_before<S: SetBoard, O: Order>(board: &S, head: u32, place: &O) -> Option<u32>
    requires head { head < length (S.board board.now).lists }
    requires known { EachSeat (O.knows place.now) (list_at (S.board board.now).lists head) }
    requires divided { IsDivided (O.behind place.now) (list_at (S.board board.now).lists head) }
    ensures { result
        ≡ last_of (seats_passed (O.behind place.now) (list_at (S.board board.now).lists head)) }
{
    let mut before = board.last(head);
    for _ in 0..board.len(head) {
        let seat = before?;
        if !place.is_behind(seat) {
            return before;
        }
        before = board.prev(seat);
    }
    before
}

/// The room of a seat in the index of its list, if there is an index: the spare one, or a new one if
/// there is memory.
pub(crate) fn node_for(
    alloc: Global,
    index: &Option<SeatIndex>,
    spare: &mut Option<SeatNode>,
    seat: u32,
) -> Option<SeatNode>
    ensures { IfSome result (λ node. node ≡ seat) }
{
    if index.is_none() {
        return None;
    }
    match spare.take() {
        Some(node) => Some(node.renumbered(seat)),
        None => SeatNode::new(alloc, seat).ok(),
    }
}

/// The seat directly before a place in the list of a head, or none if it is first. The index of the
/// list files the node at the place; without a node it is given up.
pub(crate) fn filed_before<S: SetBoard, O: Order>(
    board: &S,
    head: u32,
    index: &mut Option<SeatIndex>,
    node: Option<SeatNode>,
    place: &O,
) -> Option<u32>
    requires head { head < length (S.board board.now).lists }
    requires index { IsIndex index.old (list_at (S.board board.now).lists head) }
    requires known { EachSeat (O.knows place.now) (list_at (S.board board.now).lists head) }
    requires divided { IsDivided (O.behind place.now) (list_at (S.board board.now).lists head) }
    ensures before { result
        ≡ last_of (seats_passed (O.behind place.now) (list_at (S.board board.now).lists head)) }
    ensures index { IsFiled (O.behind place.now) node
        (list_at (S.board board.now).lists head) index.new }
{
    if let Some(tree) = index {
        if let Some(node) = node {
            return tree.put(node, place);
        }
    }
    *index = None;
    walked_before(board, head, place)
}

/// Takes a seat, which is at its place, out of the index of its list, if there is an index. Its room
/// is then the spare one.
pub(crate) fn take_from<O: Order>(
    index: &mut Option<SeatIndex>,
    seat: u32,
    place: &O,
    spare: &mut Option<SeatNode>,
)
    requires known { ForSome index.old (λ l. EachSeat (O.knows place.now) (list_without l seat)) }
    requires divided { ForSome index.old
        (λ l. IsDivided (O.behind place.now) (list_without l seat)) }
    requires placed { ForSome index.old
        (λ l. l ≡ seats_filed (O.behind place.now) seat (list_without l seat)) }
    ensures { IsWithout seat index.old index.new }
{
    if let Some(tree) = index {
        *spare = Some(tree.take(seat, place));
    }
}

impl<S: SetBoard> Agenda<S> {
    /// An index of the list of a head.
    fn index_of(&self, head: u32) -> Result<SeatIndex, AllocError>
        requires { head < length (event_classes self.now.rules) }
        ensures { IfOk result (λ index. index ≡ list_at (board_of self.now).lists head) }
    {
        let mut index = SeatIndex::new();
        let mut next = self.board.first(head);
        for _ in 0..self.board.len(head) {
            let seat = next.unwrap();
            let node = SeatNode::new(self.alloc, seat)?;
            index.put_last(node);
            next = self.board.next(seat);
        }
        Ok(index)
    }

    /// Makes an index of the list of a head, if it is long and memory is there. The index of a
    /// short one is given up.
    pub(crate) fn keep_index(&mut self, head: u32)
        requires { head < length (event_classes self.old.rules) }
        ensures { self.new ≡ self.old }
    {
        let count = self.board.len(head);
        if self.indexes[head as usize].is_some() {
            if count < SHORT_LIST {
                self.indexes[head as usize] = None;
            }
        } else if count >= LONG_LIST {
            self.indexes[head as usize] = self.index_of(head).ok();
        }
    }
}

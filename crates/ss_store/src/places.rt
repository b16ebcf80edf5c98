//! The heads of the lists and the seats of the members of a set on the board.
ghost use Rattle.std.specs.Prelude.{◌≡◌, ◌<◌, ◌^◌, length, IfOk, IsSome, None, Some, ℕ, option_map};
ghost use Rattle.std.specs.Option.{ForNone, ForSome};
ghost use Rattle.ss_store.specs.Store as pure;
ghost use Rattle.ss_store.specs.Rows as table;
ghost use Rattle.ss_store.specs.Finding as finding;
ghost use Rattle.ss_store.specs.Finding.{seat_in_list, seat_to_remove, is_at, spot_by, place_by};
ghost use Rattle.ss_store.specs.Parts.{head_at, seat_at, number_at};
ghost use Rattle.ss_store.specs.Finding.{SpotBelow};
ghost use Rattle.ss_store.specs.Order.{InOrder};
ghost use Rattle.ss_links.specs.Board.{head_of, list_at, IsSound};

use crate::ranking::ranked_place;
use crate::rows::{Entities, Row, Rows};
use crate::shape::{How, SetShape, Which};
use ss_links::SetBoard;
use ss_program::{Discipline, Owner};
use ss_words::RunFault;

/// Gives its caller the facts that a board ensures when its heads and seats are counted.
pub(crate) fn known<S: SetBoard>(board: &S)
    ensures heads { length (S.board board.now).lists < 2 ^ 32 }
    ensures seats { (S.board board.now).seats < 2 ^ 32 }
    ensures sound { IsSound (S.board board.now) }
{
    board.heads();
    board.seats();
}

/// The number of the entity that a value names, 0 if it is below 1 and names none.
pub(crate) fn number_of_value(value: i64) -> usize
    ensures { result ≡ pure.number_of value }
{
    if value < 1 { 0 } else { value as usize }
}

/// The row of the entity with this index, if it is of this class and has not ended.
fn row_in(rows: &Rows, class: usize, index: usize) -> Option<Row>
    ensures { result ≡ table.row_in rows.now class index }
{
    let row = *rows.rows.get(index)?;
    match rows.values.get(index)? {
        None => None,
        Some(_) => { if row.class == class { Some(row) } else { None } }
    }
}

/// The row of an entity, if it exists.
pub(crate) fn row_of(entities: &Entities, class: usize, number: usize) -> Option<Row>
    ensures { result ≡ table.row_of entities.now class number }
{
    if number == 0 {
        return None;
    }
    let index = number - 1;
    let made = match entities.made.get(class) {
        None => None,
        Some(rows) => row_in(rows, class, index),
    };
    match made {
        None => row_in(&entities.references, class, index),
        Some(row) => Some(row),
    }
}

/// How many rows the longer of two numberings has: that of a class, and that of references.
pub(crate) fn greatest_number(entities: &Entities, class: usize) -> usize
    ensures { result ≡ table.greatest_number entities.now class }
{
    let made = match entities.made.get(class) {
        None => 0,
        Some(rows) => rows.rows.len(),
    };
    let given = entities.references.rows.len();
    if made < given { given } else { made }
}

/// The head of a set's list, if its owner exists.
pub(crate) fn head_of(entities: &Entities, set: &SetShape, owner: usize) -> Option<u32>
    requires { (h : ℕ) → head_at entities.now set.now owner ≡ Some h → h < 2 ^ 32 }
    ensures { result ≡ head_at entities.now set.now owner }
{
    match set.owner {
        Owner::System => Some(set.list),
        Owner::OwnedBy(class) => {
            match row_of(entities, class, owner) {
                None => None,
                Some(row) => Some(row.head + set.list),
            }
        }
    }
}

/// The seat of a member in a set, if it exists.
pub(crate) fn seat_of(entities: &Entities, set: &SetShape, member: usize) -> Option<u32>
    requires { (t : ℕ) → seat_at entities.now set.now member ≡ Some t → t < 2 ^ 32 }
    ensures { result ≡ seat_at entities.now set.now member }
{
    let row = row_of(entities, set.member, member)?;
    Some(row.seat + set.slot)
}

/// A place that FILE names, in seats.
#[derive(Clone, Copy)]
pub enum Spot {
    ByRule,
    First,
    Last,
    Before(u32),
    After(u32),
}

/// The place that FILE names; F3 if the member that it names does not exist.
pub(crate) fn spot_of(entities: &Entities, set: &SetShape, how: How) -> Result<Spot, RunFault>
    requires { (y t : ℕ) → seat_at entities.now set.now y ≡ Some t → t < 2 ^ 32 }
    ensures { result ≡ spot_by entities.now set.now how }
{
    match how {
        How::ByRule => Ok(Spot::ByRule),
        How::First => Ok(Spot::First),
        How::Last => Ok(Spot::Last),
        How::Before(y) => match seat_of(entities, set, number_of_value(y)) {
            None => Err(RunFault::NoEntity),
            Some(at) => Ok(Spot::Before(at)),
        },
        How::After(y) => match seat_of(entities, set, number_of_value(y)) {
            None => Err(RunFault::NoEntity),
            Some(at) => Ok(Spot::After(at)),
        },
    }
}

/// Whether a seat is in the list of a head.
pub(crate) fn stands<S: SetBoard>(board: &S, head: u32, seat: u32) -> bool
    requires { seat < (S.board board.now).seats }
    ensures { result ≡ is_at (head_of (S.board board.now).lists seat) head }
{
    match board.place(seat) {
        None => false,
        Some(h) => h == head,
    }
}

/// A list of a set, and where its members are read.
#[derive(Clone, Copy)]
pub(crate) struct ListOfSet<'a> {
    /// The entities, of which some are its members.
    pub(crate) entities: &'a Entities,
    /// The number of the member at each seat of the board.
    pub(crate) numbers: &'a [u32],
    /// The shape of the set.
    pub(crate) set: &'a SetShape,
    /// The head of the list.
    pub(crate) head: u32,
}

/// The seat after which a member is filed, or none if it is filed first; F5 if the member named is
/// not in the list.
pub(crate) fn place_for<S: SetBoard>(
    board: &S,
    list: ListOfSet<'_>,
    start: Option<u32>,
    member: usize,
    spot: Spot,
) -> Result<Option<u32>, RunFault>
    requires head { list.head < length (S.board board.now).lists }
    requires spot { SpotBelow spot (S.board board.now).seats }
    requires numbers { length list.numbers.now ≡ (S.board board.now).seats }
    requires sound { IsSound (S.board board.now) }
    requires order { (t : ℕ) → start ≡ Some t
        → InOrder list.entities.now list.numbers.now list.set.now
        (list_at (S.board board.now).lists list.head) }
    ensures { result
        ≡ place_by list.entry.entities.now list.entry.numbers.now (S.board board.now).lists
        list.entry.set.now list.entry.head member spot }
{
    match spot {
        Spot::First => Ok(None),
        Spot::Last => Ok(board.last(list.head)),
        Spot::ByRule => match &list.set.discipline {
            Discipline::Fifo => Ok(board.last(list.head)),
            Discipline::Lifo => Ok(None),
            Discipline::Ranked(keys) => Ok(ranked_place(board, list, keys, start, member)),
        },
        Spot::Before(at) => {
            if stands(board, list.head, at) {
                Ok(board.prev(at))
            } else {
                Err(RunFault::NotInList)
            }
        }
        Spot::After(at) => {
            if stands(board, list.head, at) {
                Ok(Some(at))
            } else {
                Err(RunFault::NotInList)
            }
        }
    }
}

/// The seat of a member in the list of a head.
pub(crate) fn seat_in_list<S: SetBoard>(
    entities: &Entities,
    board: &S,
    set: &SetShape,
    head: u32,
    member: usize,
) -> Result<u32, RunFault>
    requires seats { (y t : ℕ) → seat_at entities.now set.now y ≡ Some t
        → t < (S.board board.now).seats }
    requires small { (S.board board.now).seats < 2 ^ 32 }
    ensures value { result
        ≡ seat_in_list (S.board board.now).lists head (seat_at entities.now set.now member) }
    ensures within { IfOk result (λ at. at < (S.board board.now).seats) }
{
    match seat_of(entities, set, member) {
        None => Err(RunFault::NoEntity),
        Some(at) => match board.place(at) {
            None => Err(RunFault::NotInList),
            Some(h) => {
                if h == head {
                    Ok(at)
                } else {
                    Err(RunFault::NotInList)
                }
            }
        },
    }
}

/// The seat of the member that is to be removed from the list of a head.
pub(crate) fn seat_to_remove<S: SetBoard>(
    entities: &Entities,
    board: &S,
    set: &SetShape,
    head: u32,
    which: Which,
) -> Result<u32, RunFault>
    requires head { head < length (S.board board.now).lists }
    requires seats { (y t : ℕ) → seat_at entities.now set.now y ≡ Some t
        → t < (S.board board.now).seats }
    requires small { (S.board board.now).seats < 2 ^ 32 }
    ensures { result ≡ seat_to_remove entities.now (S.board board.now).lists set.now head which }
{
    match which {
        Which::First => match board.first(head) {
            None => Err(RunFault::EmptySet),
            Some(seat) => Ok(seat),
        },
        Which::Last => match board.last(head) {
            None => Err(RunFault::EmptySet),
            Some(seat) => Ok(seat),
        },
        Which::Member(x) => seat_in_list(entities, board, set, head, number_of_value(x)),
    }
}

/// The number of the member whose seat it is.
pub(crate) fn member_at_seat(numbers: &[u32], seat: u32) -> u32
    requires { seat < length numbers.now }
    ensures { result ≡ number_at numbers.now seat }
{
    numbers[seat as usize]
}

/// The number of the member whose seat it is, or none.
pub(crate) fn member_if(numbers: &[u32], seat: Option<u32>) -> Option<u32>
    requires { ForSome seat (λ at. at < length numbers.now) }
    ensures { result ≡ option_map (number_at numbers.now) seat }
{
    match seat {
        None => None,
        Some(at) => Some(member_at_seat(numbers, at)),
    }
}

/// The seat of the member with this number, or none if no member is named.
pub(crate) fn seat_if(entities: &Entities, set: &SetShape, member: Option<u32>) -> Option<u32>
    requires { (y t : ℕ) → seat_at entities.now set.now y ≡ Some t → t < 2 ^ 32 }
    ensures none { ForNone member (result ≡ None) }
    ensures some { ForSome member (λ y. result ≡ seat_at entities.now set.now y) }
{
    match member {
        None => None,
        Some(number) => seat_of(entities, set, number as usize),
    }
}

/// The seat of a member if it is in the list of an owner, and none if it isn't; F3 if one of them
/// does not exist.
pub(crate) fn seat_in<S: SetBoard>(
    entities: &Entities,
    board: &S,
    set: &SetShape,
    owner: usize,
    member: usize,
) -> Result<Option<u32>, RunFault>
    requires heads { (h : ℕ) → head_at entities.now set.now owner ≡ Some h → h < 2 ^ 32 }
    requires seats { (y t : ℕ) → seat_at entities.now set.now y ≡ Some t
        → t < (S.board board.now).seats }
    requires small { (S.board board.now).seats < 2 ^ 32 }
    ensures { result ≡ finding.seat_in entities.now (S.board board.now).lists set.now owner member }
{
    let head = match head_of(entities, set, owner) {
        None => return Err(RunFault::NoEntity),
        Some(head) => head,
    };
    match seat_of(entities, set, member) {
        None => Err(RunFault::NoEntity),
        Some(seat) => {
            if stands(board, head, seat) {
                Ok(Some(seat))
            } else {
                Ok(None)
            }
        }
    }
}

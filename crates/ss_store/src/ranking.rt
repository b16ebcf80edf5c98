//! The place at which a ranked set files a member.
ghost use Rattle.std.specs.Prelude.{◌≡◌, ◌<◌, ℕ, length, None, Some, IsSome, unwrap_or, [], pos};
ghost use Rattle.std.specs.Prelude.{slice_index_or, option_map, true, false};
ghost use Rattle.std.specs.Ordering.{is_gt};
ghost use Rattle.std.specs.Option.{ForSome};
ghost use Rattle.ss_links.specs.Board.{list_at, list_of, head_of, IsSound};
ghost use Rattle.ss_links.specs.Seats.{next_in};
ghost use Rattle.ss_program.specs.Keys.{by_keys, key_values};
ghost use Rattle.ss_store.specs.Rows as table;
ghost use Rattle.ss_store.specs.Finding.{Among, is_at, keys_in, rank_before, seat_behind_in};
ghost use Rattle.ss_store.specs.Order.{Climbs, InOrder, known_at, seat_after};
ghost use Rattle.ss_store.specs.Parts.{number_at};
ghost use Rattle.ss_store.specs.declared.places.Spot.TheVariants as spots;

use crate::places::{ListOfSet, Spot, member_at_seat, stands};
use crate::rows::{Entities, Rows};
use crate::search::Search;
use ss_links::SetBoard;
use ss_program::{Discipline, Key, Keys, Rank};

/// The values of the attributes of the entity with this index, if it is of this class and has not
/// ended.
fn values_in(rows: &Rows, class: usize, index: usize) -> Option<&[i64]>
    ensures { option_map (λ v. v.now) result ≡ table.values_in rows.now class index }
{
    let row = *rows.rows.get(index)?;
    match rows.values.get(index)? {
        None => None,
        Some(values) => {
            if row.class == class {
                Some(values)
            } else {
                None
            }
        }
    }
}

/// The values of the attributes of an entity, if it exists.
pub(crate) fn values_of(entities: &Entities, class: usize, number: usize) -> Option<&[i64]>
    ensures { option_map (λ v. v.now) result ≡ table.values_of entities.now class number }
{
    if number == 0 {
        return None;
    }
    let index = number - 1;
    let made = match entities.made.get(class) {
        None => None,
        Some(rows) => values_in(rows, class, index),
    };
    match made {
        None => values_in(&entities.references, class, index),
        Some(values) => Some(values),
    }
}

/// The value of an attribute, 0 if there is none.
pub(crate) fn value_at(values: &[i64], attribute: usize) -> i64
    ensures { result ≡ slice_index_or values.now attribute (pos 0) }
{
    match values.get(attribute) {
        None => 0,
        Some(value) => *value,
    }
}

/// Whether an entity with these values ranks strictly after one with those: by the first key whose
/// values differ.
fn ranks_behind(keys: &[Key], theirs: &[i64], ours: &[i64]) -> bool
    ensures { result
        ≡ is_gt (by_keys keys.now (key_values keys.now theirs.now) (key_values keys.now ours.now)) }
{
    for key in keys {
        let their = value_at(theirs, key.attribute);
        let our = value_at(ours, key.attribute);
        if their < our {
            return key.rank == Rank::High;
        }
        if our < their {
            return key.rank == Rank::Low;
        }
    }
    false
}

/// Whether a member, by its seat, ranks strictly after the entity with these values.
fn seat_behind(list: ListOfSet<'_>, keys: &[Key], seat: u32, ours: &[i64]) -> bool
    requires { seat < length list.numbers.now }
    ensures { result ≡ is_gt (by_keys keys.now
        (keys_in list.entry.entities.now keys.now list.entry.set.now.member
        (number_at list.entry.numbers.now seat))
        (key_values keys.now ours.now)) }
{
    let number = member_at_seat(list.numbers, seat) as usize;
    match values_of(list.entities, list.set.member, number) {
        None => ranks_behind(keys, &[], ours),
        Some(theirs) => ranks_behind(keys, theirs, ours),
    }
}

/// Whether the member at the seat before ranks strictly after the one at this seat.
fn falls(list: ListOfSet<'_>, keys: &[Key], before: Option<u32>, seat: u32) -> bool
    requires before { ForSome before (λ x. x < length list.numbers.now) }
    requires seat { seat < length list.numbers.now }
    ensures { result ≡ false → (x : ℕ) → before ≡ Some x
        → seat_after list.entry.entities.now list.entry.numbers.now keys.now
        list.entry.set.now.member x seat ≡ false }
{
    match before {
        None => false,
        Some(front) => {
            let number = member_at_seat(list.numbers, seat) as usize;
            match values_of(list.entities, list.set.member, number) {
                None => seat_behind(list, keys, front, &[]),
                Some(ours) => seat_behind(list, keys, front, ours),
            }
        }
    }
}

/// Whether no member of a list ranks strictly after a later one.
fn climbs<S: SetBoard>(board: &S, list: ListOfSet<'_>, keys: &[Key]) -> bool
    requires head { list.head < length (S.board board.now).lists }
    requires numbers { length list.numbers.now ≡ (S.board board.now).seats }
    requires sound { IsSound (S.board board.now) }
    ensures { result ≡ true
        → Climbs (seat_after list.entry.entities.now list.entry.numbers.now keys.now
        list.entry.set.now.member)
        (list_at (S.board board.now).lists list.entry.head) }
{
    let mut before = None;
    let mut at = board.first(list.head);
    while let Some(seat) = at {
        if falls(list, keys, before, seat) {
            return false;
        }
        before = at;
        at = board.next(seat);
    }
    true
}

/// Whether a member is to be filed by the ranking of its set, in a list that is in order.
pub(crate) fn is_in_order<S: SetBoard>(
    search: &Search,
    board: &S,
    list: ListOfSet<'_>,
    spot: Spot,
) -> bool
    requires head { list.head < length (S.board board.now).lists }
    requires numbers { length list.numbers.now ≡ (S.board board.now).seats }
    requires sound { IsSound (S.board board.now) }
    requires known { known_at search.now list.head ≡ true
        → InOrder list.entities.now list.numbers.now list.set.now
        (list_at (S.board board.now).lists list.head) }
    ensures order { result ≡ true
        → InOrder list.entry.entities.now list.entry.numbers.now list.entry.set.now
        (list_at (S.board board.now).lists list.entry.head) }
    ensures rule { result ≡ true → spot ≡ spots.ByRule }
{
    match (spot, &list.set.discipline) {
        (Spot::ByRule, Discipline::Ranked(keys)) => {
            search.knows(list.head) || climbs(board, list, &keys.list)
        }
        _ => false,
    }
}

/// The last seat of the tree of a list whose member does not rank after an entity with these
/// values, as far as the tree is right.
fn searched(search: &Search, list: ListOfSet<'_>, keys: &[Key], ours: &[i64]) -> Option<u32> {
    let trees = search.trees();
    let mut found = None;
    let mut at = trees.root(list.head);
    for _ in 0..list.numbers.len() {
        let Some(seat) = at else {
            return found;
        };
        if seat as usize >= list.numbers.len() {
            return found;
        }
        if seat_behind(list, keys, seat, ours) {
            at = trees.left(seat);
        } else {
            found = at;
            at = trees.right(seat);
        }
    }
    found
}

/// A seat of a list after which the place of an entity is to be looked for, if the list is in
/// order.
pub(crate) fn start_of(
    in_order: bool,
    search: &Search,
    list: ListOfSet<'_>,
    member: usize,
) -> Option<u32>
    ensures { in_order ≡ false → result ≡ None }
{
    if !in_order {
        return None;
    }
    match &list.set.discipline {
        Discipline::Ranked(keys) => match values_of(list.entities, list.set.member, member) {
            None => searched(search, list, &keys.list, &[]),
            Some(ours) => searched(search, list, &keys.list, ours),
        },
        _ => None,
    }
}

/// Whether a seat is in a list and its member does not rank after an entity with these values. The
/// search for that entity's place may then begin after the seat.
fn may_begin<S: SetBoard>(
    board: &S,
    list: ListOfSet<'_>,
    keys: &[Key],
    seat: u32,
    ours: &[i64],
) -> bool
    requires { length list.numbers.now ≡ (S.board board.now).seats }
    ensures there { result ≡ true → seat < (S.board board.now).seats }
    ensures stands { result ≡ true
        → is_at (head_of (S.board board.now).lists seat) list.entry.head ≡ true }
    ensures passed { result ≡ true → is_gt (by_keys keys.now
        (keys_in list.entry.entities.now keys.now list.entry.set.now.member
        (number_at list.entry.numbers.now seat))
        (key_values keys.now ours.now)) ≡ false }
{
    if seat as usize >= list.numbers.len() || !stands(board, list.head, seat) {
        return false;
    }
    !seat_behind(list, keys, seat, ours)
}

/// The seat at which the search for the place of an entity with these values begins: the first seat
/// of a list, or the one after a seat of the list whose member does not rank after it.
fn first_look<S: SetBoard>(
    board: &S,
    list: ListOfSet<'_>,
    keys: &[Key],
    start: Option<u32>,
    ours: &[i64],
) -> (Option<u32>, Option<u32>)
    requires head { list.head < length (S.board board.now).lists }
    requires numbers { length list.numbers.now ≡ (S.board board.now).seats }
    requires sound { IsSound (S.board board.now) }
    requires order { (t : ℕ) → start ≡ Some t
        → Climbs (seat_after list.entities.now list.numbers.now keys.now list.set.now.member)
        (list_at (S.board board.now).lists list.head) }
    ensures { Among (list_at (S.board board.now).lists list.entry.head)
        (λ t. is_gt (by_keys keys.now
        (keys_in list.entry.entities.now keys.now list.entry.set.now.member
        (number_at list.entry.numbers.now t))
        (key_values keys.now ours.now)))
        result.0 result.1 }
{
    if let Some(seat) = start {
        if may_begin(board, list, keys, seat, ours) {
            return (start, board.next(seat));
        }
    }
    (None, board.first(list.head))
}

/// The seat after which a list has an entity with these values filed, or none if it is filed first.
fn place_among<S: SetBoard>(
    board: &S,
    list: ListOfSet<'_>,
    keys: &[Key],
    start: Option<u32>,
    ours: &[i64],
) -> Option<u32>
    requires head { list.head < length (S.board board.now).lists }
    requires numbers { length list.numbers.now ≡ (S.board board.now).seats }
    requires sound { IsSound (S.board board.now) }
    requires order { (t : ℕ) → start ≡ Some t
        → Climbs (seat_after list.entities.now list.numbers.now keys.now list.set.now.member)
        (list_at (S.board board.now).lists list.head) }
    ensures { result ≡ rank_before
        (λ t. is_gt (by_keys keys.now
        (keys_in list.entry.entities.now keys.now list.entry.set.now.member
        (number_at list.entry.numbers.now t))
        (key_values keys.now ours.now)))
        None (list_at (S.board board.now).lists list.entry.head) }
{
    let (mut before, mut at) = first_look(board, list, keys, start, ours);
    while let Some(seat) = at {
        if seat_behind(list, keys, seat, ours) {
            return before;
        }
        before = at;
        at = board.next(seat);
    }
    before
}

/// The seat after which a ranked set files entity number `member`, or none if it files it first.
pub(crate) fn ranked_place<S: SetBoard>(
    board: &S,
    list: ListOfSet<'_>,
    keys: &Keys,
    start: Option<u32>,
    member: usize,
) -> Option<u32>
    requires head { list.head < length (S.board board.now).lists }
    requires numbers { length list.numbers.now ≡ (S.board board.now).seats }
    requires sound { IsSound (S.board board.now) }
    requires order { (t : ℕ) → start ≡ Some t
        → Climbs (seat_after list.entities.now list.numbers.now keys.now list.set.now.member)
        (list_at (S.board board.now).lists list.head) }
    ensures { result
        ≡ rank_before (seat_behind_in list.entry.entities.now list.entry.numbers.now keys.now
        list.entry.set.now.member member) None
        (list_at (S.board board.now).lists list.entry.head) }
{
    match values_of(list.entities, list.set.member, member) {
        None => place_among(board, list, &keys.list, start, &[]),
        Some(ours) => place_among(board, list, &keys.list, start, ours),
    }
}

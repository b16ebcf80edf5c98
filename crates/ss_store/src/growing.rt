//! Heads, seats and numbers made for an entity, and taken off again.
ghost use Rattle.std.specs.Prelude.{◌≡◌, ◌≤◌, ◌<◌, ◌+◌, ◌++◌, ◌^◌, ℕ, ◌-◌, [], length, take, replicate, slice_get};
ghost use Rattle.std.specs.Prelude.{IfOk, OnErr, None, Some, true, pos};
ghost use Rattle.ss_links.specs.Board.{IsSound, list_at, head_of};
ghost use Rattle.ss_store.specs.declared.rows.Row.{Row as ARow};
ghost use Rattle.ss_store.specs.Rows.{rows_in};
ghost use Rattle.ss_store.specs.Making.{with_heads, with_seats, with_places, with_table, with_row, without_last_row};
ghost use Rattle.ss_store.specs.Making.{numbering_by};
ghost use Rattle.ss_store.specs.Making.{CanShrink};

use crate::rows::{Entities, Row};
use crate::shape::ClassShape;
use ss_links::SetBoard;
use std::alloc::{AllocError, Global};

/// Takes the last heads off, until `left` are left. Their lists are empty.
pub(crate) fn take_heads<S: SetBoard>(board: &mut S, left: u32)
    requires there { left ≤ length (S.board board.old).lists }
    requires empty { (h : ℕ) → left ≤ h → list_at (S.board board.old).lists h ≡ [] }
    ensures board { S.board board.new
        ≡ record {
          lists = take left (S.board board.old).lists;
          seats = (S.board board.old).seats;
        } }
    ensures sound { IsSound (S.board board.new) }
{
    while board.heads() > left {
        board.take_last_head();
    }
}

/// Takes the last seats off, until `left` are left. They are in no list.
pub(crate) fn take_seats<S: SetBoard>(board: &mut S, left: u32)
    requires there { left ≤ (S.board board.old).seats }
    requires free { (t : ℕ) → left ≤ t → head_of (S.board board.old).lists t ≡ None }
    ensures board { S.board board.new ≡ record { lists = (S.board board.old).lists; seats = left } }
    ensures sound { IsSound (S.board board.new) }
{
    while board.seats() > left {
        board.take_last_seat();
    }
}

/// Makes `count` heads, or none if memory is refused.
pub(crate) fn add_heads<S: SetBoard>(board: &mut S, count: u32) -> Result<(), AllocError>
    requires { length (S.board board.old).lists + count < 2 ^ 32 }
    ensures ok { IfOk result (λ _. S.board board.new ≡ with_heads count (S.board board.old)) }
    ensures err { OnErr result (S.board board.new ≡ S.board board.old) }
    ensures sound { IsSound (S.board board.new) }
{
    let before = board.heads();
    for _ in 0..count {
        if let Err(refused) = board.try_add_head() {
            take_heads(board, before);
            return Err(refused);
        }
    }
    Ok(())
}

/// Makes `count` seats, or none if memory is refused.
fn add_seats<S: SetBoard>(board: &mut S, count: u32) -> Result<(), AllocError>
    requires { (S.board board.old).seats + count < 2 ^ 32 }
    ensures ok { IfOk result (λ _. S.board board.new ≡ with_seats count (S.board board.old)) }
    ensures err { OnErr result (S.board board.new ≡ S.board board.old) }
    ensures sound { IsSound (S.board board.new) }
{
    let before = board.seats();
    for _ in 0..count {
        if let Err(refused) = board.try_add_seat() {
            take_seats(board, before);
            return Err(refused);
        }
    }
    Ok(())
}

/// Makes these numbers of heads and seats, or none if memory is refused.
pub(crate) fn add_places<S: SetBoard>(
    board: &mut S,
    heads: u32,
    seats: u32,
) -> Result<(), AllocError>
    requires heads { length (S.board board.old).lists + heads < 2 ^ 32 }
    requires seats { (S.board board.old).seats + seats < 2 ^ 32 }
    ensures ok { IfOk result
        (λ _. S.board board.new ≡ with_places heads seats (S.board board.old)) }
    ensures err { OnErr result (S.board board.new ≡ S.board board.old) }
    ensures sound { IsSound (S.board board.new) }
{
    let before = board.heads();
    add_heads(board, heads)?;
    if let Err(refused) = add_seats(board, seats) {
        take_heads(board, before);
        return Err(refused);
    }
    Ok(())
}

/// A vector of `count` zeros.
pub(crate) fn zeros(alloc: Global, count: usize) -> Result<Vec<i64>, AllocError>
    ensures { IfOk result (λ values. values.items ≡ replicate count (pos 0)) }
{
    vec![in alloc; 0; count]
}

/// Adds the number of a member, once for each of its seats, or not at all if memory is refused.
pub(crate) fn add_numbers(numbers: &mut Vec<u32>, number: u32, count: u32) -> Result<(), AllocError>
    ensures ok { IfOk result
        (λ _. numbers.new.items ≡ numbers.old.items ++ replicate count number) }
    ensures err { OnErr result (numbers.new.items ≡ numbers.old.items) }
{
    numbers.try_reserve(count as usize)?;
    for _ in 0..count {
        numbers.push_reserved(number);
    }
    Ok(())
}

/// A class by its number, and its shape.
#[derive(Clone, Copy)]
pub(crate) struct NumberedClass {
    pub(crate) number: usize,
    pub(crate) shape: ClassShape,
}

/// Makes an entity of a class, whose attributes are 0, with its heads, its seats and their numbers,
/// and gives its row; nothing if memory is refused.
pub(crate) fn grow<S: SetBoard>(
    alloc: Global,
    entities: &mut Entities,
    numbers: &mut Vec<u32>,
    board: &mut S,
    class: NumberedClass,
) -> Result<Row, AllocError>
    requires class { class.shape.permanent ≡ true → class.number < length entities.old.made }
    requires few { length (rows_in entities.old
        (numbering_by class.shape.permanent class.number)).rows + 1 < 2 ^ 32 }
    requires heads { length (S.board board.old).lists + class.shape.owned < 2 ^ 32 }
    requires seats { (S.board board.old).seats + class.shape.joined < 2 ^ 32 }
    requires numbers { length numbers.old.items ≡ (S.board board.old).seats }
    requires sound { IsSound (S.board board.old) }
    ensures row { IfOk result (λ row. row
        ≡ record {
          class = class.number;
          head = length (S.board board.old).lists;
          seat = (S.board board.old).seats;
        }) }
    ensures rows { IfOk result (λ row. entities.new
        ≡ with_table (with_row row (replicate class.shape.attributes (pos 0)))
        entities.old (numbering_by class.shape.permanent class.number)) }
    ensures numbers { IfOk result (λ _. numbers.new.items ≡ numbers.old.items
        ++ replicate class.shape.joined
        (length (rows_in entities.old
        (numbering_by class.shape.permanent class.number)).rows + 1)) }
    ensures board { IfOk result (λ _. S.board board.new
        ≡ with_places class.shape.owned class.shape.joined (S.board board.old)) }
    ensures err_rows { OnErr result (entities.new ≡ entities.old) }
    ensures err_numbers { OnErr result (numbers.new.items ≡ numbers.old.items) }
    ensures err_board { OnErr result (S.board board.new ≡ S.board board.old) }
    ensures sound { IsSound (S.board board.new) }
{
    let shape = class.shape;
    let number = entities.count(shape.permanent, class.number) + 1;
    let values = zeros(alloc, shape.attributes)?;
    let head = board.heads();
    let seat = board.seats();
    add_numbers(numbers, number as u32, shape.joined)?;
    if let Err(refused) = add_places(board, shape.owned, shape.joined) {
        numbers.truncate(seat as usize);
        return Err(refused);
    }
    let row = Row {
        class: class.number,
        head,
        seat,
    };
    if let Err(refused) = entities.push(shape.permanent, row, values) {
        take_seats(board, seat);
        take_heads(board, head);
        numbers.truncate(seat as usize);
        return Err(refused);
    }
    Ok(row)
}

/// Takes the last entity of a class off, with its heads, its seats and their numbers.
pub(crate) fn shrink<S: SetBoard>(
    entities: &mut Entities,
    numbers: &mut Vec<u32>,
    board: &mut S,
    permanent: bool,
    class: usize,
)
    requires class { permanent ≡ true → class < length entities.old.made }
    requires any { 0 < length (rows_in entities.old (numbering_by permanent class)).rows }
    requires last { (row : ARow)
        → slice_get (rows_in entities.old (numbering_by permanent class)).rows
        (length (rows_in entities.old (numbering_by permanent class)).rows - 1) ≡ Some row →
        CanShrink (S.board board.old) row.head row.seat }
    ensures rows { entities.new
        ≡ with_table without_last_row entities.old (numbering_by permanent class) }
    ensures numbers { (row : ARow)
        → slice_get (rows_in entities.old (numbering_by permanent class)).rows
        (length (rows_in entities.old (numbering_by permanent class)).rows - 1) ≡ Some row →
        numbers.new.items ≡ take row.seat numbers.old.items }
    ensures board { (row : ARow)
        → slice_get (rows_in entities.old (numbering_by permanent class)).rows
        (length (rows_in entities.old (numbering_by permanent class)).rows - 1) ≡ Some row →
        S.board board.new
        ≡ record { lists = take row.head (S.board board.old).lists; seats = row.seat } }
    ensures sound { IsSound (S.board board.new) }
{
    let row = entities.pop(permanent, class);
    take_seats(board, row.seat);
    take_heads(board, row.head);
    numbers.truncate(row.seat as usize);
}

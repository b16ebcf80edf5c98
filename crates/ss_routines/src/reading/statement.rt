//! Reading a statement that holds no other, whichever it is.

ghost use Rattle.std.specs.Prelude.{IfSome, IfOk, length, ◌≤◌, ◌<◌};
ghost use Rattle.ss_words.specs.Reading.{Gives, option_view};
ghost use mathlib.Core.Logic.{inr};
ghost use Rattle.ss_routines.specs.Combined.{either_of, made_of};
ghost use Rattle.ss_routines.specs.SimpleReading as reading;
ghost use Rattle.ss_routines.specs.SimpleReading.{simple_of};
ghost use Rattle.ss_routines.specs.View.{simple_view};

use crate::reading::assignment::{assignment, making};
use crate::reading::exchange::exchange;
use crate::reading::filing::filing;
use crate::reading::timing::timing;
use crate::reading::transfer::transfer;
use crate::tree::simple::Simple;
use ss_words::{Cursor, Refusal};

/// A simple statement, if one begins here. At most `room` parentheses may be open at once in it.
#[tactic(auto, unfolding(crate::proofs::Unfoldings::choices, crate::specs::SimpleReading::simple_at))]
pub fn simple(cursor: &mut Cursor<'_>, room: u32) -> Result<Option<Simple>, Refusal>
    ensures exact { Gives (option_view simple_view) result cursor.new
        (reading.simple_at room cursor.old) }
    ensures shorter { length cursor.new ≤ length cursor.old }
    ensures taken { IfOk result (λ o. IfSome o (λ _. length cursor.new < length cursor.old)) }
{
    if let Some(making) = making(cursor, room)? {
        return Ok(Some(Simple::Make(making)));
    }
    if let Some(filing) = filing(cursor, room)? {
        return Ok(Some(Simple::File(Box::new(cursor.alloc(), filing)?)));
    }
    if let Some(transfer) = transfer(cursor, room)? {
        return Ok(Some(Simple::Transfer(Box::new(cursor.alloc(), transfer)?)));
    }
    other(cursor, room)
}

/// A statement on events, one that reads or writes, or one that assigns, if one begins here.
#[tactic(auto, unfolding(crate::proofs::Unfoldings::choices))]
fn other(cursor: &mut Cursor<'_>, room: u32) -> Result<Option<Simple>, Refusal>
    ensures exact { Gives (option_view simple_view) result cursor.new
        (made_of (λ x. simple_of (inr (inr (inr x))))
        (either_of (reading.timing_at room)
        (either_of (reading.exchange_at room) (reading.assign_at room)))
        cursor.old) }
    ensures shorter { length cursor.new ≤ length cursor.old }
    ensures taken { IfOk result (λ o. IfSome o (λ _. length cursor.new < length cursor.old)) }
{
    if let Some(timing) = timing(cursor, room)? {
        return Ok(Some(Simple::Time(Box::new(cursor.alloc(), timing)?)));
    }
    if let Some(exchange) = exchange(cursor, room)? {
        return Ok(Some(Simple::Exchange(exchange)));
    }
    if let Some(assignment) = assignment(cursor, room)? {
        return Ok(Some(Simple::Assign(assignment)));
    }
    Ok(None)
}

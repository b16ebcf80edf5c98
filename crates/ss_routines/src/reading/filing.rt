//! Reading the statements on sets.

ghost use mathlib.Core.Logic.{inl, inr};
ghost use Rattle.std.specs.Prelude.{IfSome, IfOk, length, ◌≡◌, ◌≤◌, ◌<◌, Ok};
ghost use Rattle.ss_words.specs.declared.mark.Mark.TheVariants as m;
ghost use Rattle.ss_words.specs.declared.reserved.Reserved.TheVariants as r;
ghost use Rattle.ss_words.specs.Reading.{Gives, option_view};
ghost use Rattle.ss_routines.specs.Combined.{before, by_table, made, pair};
ghost use Rattle.ss_routines.specs.SimpleReading as reading;
ghost use Rattle.ss_routines.specs.View.{file_place_view, filing_view, reference_view};

use crate::reading::assignment::{moved, reference};
use crate::reading::expressions::expression;
use crate::tree::condition::Reference;
use crate::tree::simple::{FilePlace, Filing};
use ss_words::{Cursor, Mark, Plain, Refusal, Reserved, SetEnd};

/// FIRST or LAST, if one is here.
#[tactic(auto, unfolding(crate::proofs::Unfoldings::steps_by_table))]
fn set_end(cursor: &mut Cursor<'_>) -> Option<SetEnd>
    ensures exact { by_table reading.end_of cursor.old ≡ (Ok result, cursor.new) }
    ensures shorter { length cursor.new ≤ length cursor.old }
    ensures taken { IfSome result (λ _. length cursor.new < length cursor.old) }
{
    match cursor.peek() {
        Some(Plain::Mark(Mark::Reserved(Reserved::First))) => {
            cursor.pass();
            Some(SetEnd::First)
        }
        Some(Plain::Mark(Mark::Reserved(Reserved::Last))) => {
            cursor.pass();
            Some(SetEnd::Last)
        }
        _ => None,
    }
}

/// `[FIRST | LAST | (BEFORE | AFTER) expression]`
#[tactic(auto, unfolding(crate::proofs::Unfoldings::choices, crate::specs::SimpleReading::file_place_at))]
fn file_place(cursor: &mut Cursor<'_>, room: u32) -> Result<FilePlace, Refusal>
    ensures exact { Gives file_place_view result cursor.new
        (reading.file_place_at room cursor.old) }
    ensures shorter { length cursor.new ≤ length cursor.old }
{
    if let Some(end) = set_end(cursor) {
        return Ok(FilePlace::AtEnd(end));
    }
    if cursor.eat(Mark::Reserved(Reserved::Before)) {
        return Ok(FilePlace::Before(expression(cursor, room)?));
    }
    if cursor.eat(Mark::Reserved(Reserved::After)) {
        return Ok(FilePlace::After(expression(cursor, room)?));
    }
    Ok(FilePlace::ByDiscipline)
}

/// `place IN reference`, after the member of a FILE
#[tactic(auto, unfolding(crate::proofs::Unfoldings::in_turn))]
fn place_in_set(cursor: &mut Cursor<'_>, room: u32) -> Result<(FilePlace, Reference), Refusal>
    ensures exact { Gives (λ x. (file_place_view x.0, reference_view x.1)) result cursor.new
        (pair (before (reading.file_place_at room) (m.Reserved r.In))
        (reading.reference_at room) cursor.old) }
    ensures shorter { length cursor.new ≤ length cursor.old }
{
    let place = file_place(cursor, room)?;
    if let Err(refusal) = cursor.expect(Mark::Reserved(Reserved::In)) {
        drop(place);
        return Err(refusal);
    }
    match reference(cursor, room) {
        Ok(set) => Ok((place, set)),
        Err(refusal) => {
            drop(place);
            Err(refusal)
        }
    }
}

/// The parts of a FILE, after FILE: a member, its place and a set.
#[tactic(auto, unfolding(crate::proofs::Unfoldings::choices, crate::specs::SimpleReading::file_at))]
fn filed(cursor: &mut Cursor<'_>, room: u32) -> Result<Filing, Refusal>
    ensures exact { Gives filing_view result cursor.new
        (made (λ x. reading.filing_of (inl x)) (reading.file_at room) cursor.old) }
    ensures shorter { length cursor.new ≤ length cursor.old }
{
    if let Some(end) = set_end(cursor) {
        let (member, set) = moved(cursor, Mark::Reserved(Reserved::In), room)?;
        return Ok(Filing::FileAt { end, member, set });
    }
    let member = expression(cursor, room)?;
    match place_in_set(cursor, room) {
        Ok((place, set)) => Ok(Filing::File { member, place, set }),
        Err(refusal) => {
            drop(member);
            Err(refusal)
        }
    }
}

/// `reference FROM reference`, after `REMOVE FIRST` or `REMOVE LAST`
#[tactic(auto, unfolding(crate::proofs::Unfoldings::in_turn))]
fn target_from_set(cursor: &mut Cursor<'_>, room: u32) -> Result<(Reference, Reference), Refusal>
    ensures exact { Gives (λ x. (reference_view x.0, reference_view x.1)) result cursor.new
        (pair (before (reading.reference_at room) (m.Reserved r.From))
        (reading.reference_at room) cursor.old) }
    ensures shorter { length cursor.new ≤ length cursor.old }
{
    let target = reference(cursor, room)?;
    if let Err(refusal) = cursor.expect(Mark::Reserved(Reserved::From)) {
        drop(target);
        return Err(refusal);
    }
    match reference(cursor, room) {
        Ok(set) => Ok((target, set)),
        Err(refusal) => {
            drop(target);
            Err(refusal)
        }
    }
}

/// The parts of a REMOVE, after REMOVE: an end, a target and a set, or a member and a set.
#[tactic(auto, unfolding(crate::proofs::Unfoldings::choices, crate::specs::SimpleReading::remove_at))]
fn removed(cursor: &mut Cursor<'_>, room: u32) -> Result<Filing, Refusal>
    ensures exact { Gives filing_view result cursor.new
        (made (λ x. reading.filing_of (inr x)) (reading.remove_at room) cursor.old) }
    ensures shorter { length cursor.new ≤ length cursor.old }
{
    if let Some(end) = set_end(cursor) {
        let (target, set) = target_from_set(cursor, room)?;
        return Ok(Filing::RemoveEnd { end, target, set });
    }
    let (member, set) = moved(cursor, Mark::Reserved(Reserved::From), room)?;
    Ok(Filing::Remove { member, set })
}

/// FILE or REMOVE, if one is here.
#[tactic(auto, unfolding(crate::proofs::Unfoldings::choices, crate::specs::SimpleReading::filing_at))]
pub fn filing(cursor: &mut Cursor<'_>, room: u32) -> Result<Option<Filing>, Refusal>
    ensures exact { Gives (option_view filing_view) result cursor.new
        (reading.filing_at room cursor.old) }
    ensures shorter { length cursor.new ≤ length cursor.old }
    ensures taken { IfOk result (λ o. IfSome o (λ _. length cursor.new < length cursor.old)) }
{
    if cursor.eat(Mark::Reserved(Reserved::File)) {
        return Ok(Some(filed(cursor, room)?));
    }
    if cursor.eat(Mark::Reserved(Reserved::Remove)) {
        return Ok(Some(removed(cursor, room)?));
    }
    Ok(None)
}

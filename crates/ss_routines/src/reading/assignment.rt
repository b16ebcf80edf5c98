//! Reading the statements that assign, CREATE or DESTROY.

ghost use Rattle.std.specs.Prelude.{IfSome, IfOk, List, length, ◌≡◌, ◌≤◌, ◌<◌, Ok};
ghost use Rattle.ss_words.specs.Reading.{Gives, option_view};
ghost use Rattle.ss_words.specs.declared.mark.Mark.TheVariants as mark;
ghost use Rattle.ss_words.specs.declared.word.Sign.TheVariants as sign;
ghost use Rattle.ss_routines.specs.Combined.{before, by_table, if_word, pair};
ghost use Rattle.ss_routines.specs.ExprReading.{expr_at};
ghost use Rattle.ss_routines.specs.SimpleReading as reading;
ghost use Rattle.ss_routines.specs.PartView.{named_view, equation_view, moved_view};
ghost use Rattle.ss_routines.specs.View.{expr_view, reference_view, assign_view, making_view};

use crate::reading::expressions::{expression, within};
use crate::tree::condition::Reference;
use crate::tree::expr::Expr;
use crate::tree::simple::{Assign, Making};
use ss_words::{Cursor, Mark, Name, Plain, Refusal, Reserved, Sign};

/// `["(" expression ")"]`
#[tactic(auto, unfolding(crate::proofs::Unfoldings::steps, crate::specs::SimpleReading::subscript_at))]
fn subscript(cursor: &mut Cursor<'_>, room: u32) -> Result<Option<Box<Expr>>, Refusal>
    ensures exact { Gives (option_view (λ b. expr_view b.value)) result cursor.new
        (reading.subscript_at room cursor.old) }
    ensures shorter { length cursor.new ≤ length cursor.old }
{
    let Some(value) = within(cursor, room)? else {
        return Ok(None);
    };
    Ok(Some(Box::new(cursor.alloc(), value)?))
}

/// `reference = name ["(" expression ")"]`
#[tactic(auto, unfolding(crate::proofs::Unfoldings::in_turn, crate::specs::SimpleReading::reference_at))]
pub fn reference(cursor: &mut Cursor<'_>, room: u32) -> Result<Reference, Refusal>
    ensures exact { Gives reference_view result cursor.new (reading.reference_at room cursor.old) }
    ensures shorter { length cursor.new ≤ length cursor.old }
{
    let name = cursor.name()?;
    let subscript = subscript(cursor, room)?;
    Ok(Reference { name, subscript })
}

/// `[CALLED reference]`
#[tactic(auto, unfolding(crate::proofs::Unfoldings::choices, crate::specs::SimpleReading::called_at))]
pub fn called(cursor: &mut Cursor<'_>, room: u32) -> Result<Option<Reference>, Refusal>
    ensures exact { Gives (option_view reference_view) result cursor.new
        (reading.called_at room cursor.old) }
    ensures shorter { length cursor.new ≤ length cursor.old }
{
    if !cursor.eat(Mark::Reserved(Reserved::Called)) {
        return Ok(None);
    }
    Ok(Some(reference(cursor, room)?))
}

/// `name [CALLED reference]`
#[tactic(auto, unfolding(crate::proofs::Unfoldings::in_turn, crate::specs::SimpleReading::named_at))]
pub fn named(cursor: &mut Cursor<'_>, room: u32) -> Result<(Name, Option<Reference>), Refusal>
    ensures exact { Gives named_view result cursor.new (reading.named_at room cursor.old) }
    ensures shorter { length cursor.new ≤ length cursor.old }
{
    let name = cursor.name()?;
    let called = called(cursor, room)?;
    Ok((name, called))
}

/// `reference "=" expression`
#[tactic(auto, unfolding(crate::proofs::Unfoldings::in_turn, crate::specs::SimpleReading::equation_at))]
fn equation(cursor: &mut Cursor<'_>, room: u32) -> Result<(Reference, Expr), Refusal>
    ensures exact { Gives equation_view result cursor.new (reading.equation_at room cursor.old) }
    ensures shorter { length cursor.new ≤ length cursor.old }
{
    let target = reference(cursor, room)?;
    if let Err(refusal) = cursor.expect(Mark::Sign(Sign::Equal)) {
        drop(target);
        return Err(refusal);
    }
    match expression(cursor, room) {
        Ok(value) => Ok((target, value)),
        Err(refusal) => {
            drop(target);
            Err(refusal)
        }
    }
}

/// `expression mark reference`
#[tactic(auto, unfolding(crate::proofs::Unfoldings::in_turn, crate::specs::SimpleReading::moved_at))]
pub fn moved(cursor: &mut Cursor<'_>, mark: Mark, room: u32) -> Result<(Expr, Reference), Refusal>
    ensures exact { Gives moved_view result cursor.new (reading.moved_at room mark cursor.old) }
    ensures shorter { length cursor.new ≤ length cursor.old }
{
    let value = expression(cursor, room)?;
    if let Err(refusal) = cursor.expect(mark) {
        drop(value);
        return Err(refusal);
    }
    match reference(cursor, room) {
        Ok(target) => Ok((value, target)),
        Err(refusal) => {
            drop(value);
            Err(refusal)
        }
    }
}

/// CREATE EVERY, CREATE or DESTROY, if one is here.
#[tactic(auto, unfolding(crate::proofs::Unfoldings::makings))]
pub fn making(cursor: &mut Cursor<'_>, room: u32) -> Result<Option<Making>, Refusal>
    ensures exact { Gives (option_view making_view) result cursor.new
        (reading.making_at room cursor.old) }
    ensures shorter { length cursor.new ≤ length cursor.old }
    ensures taken { IfOk result (λ o. IfSome o (λ _. length cursor.new < length cursor.old)) }
{
    if cursor.eat(Mark::Reserved(Reserved::Create)) {
        if cursor.eat(Mark::Reserved(Reserved::Every)) {
            let class = cursor.name()?;
            let count = within(cursor, room)?;
            return Ok(Some(Making::CreateEvery { class, count }));
        }
        let (class, target) = named(cursor, room)?;
        return Ok(Some(Making::Create { class, target }));
    }
    if cursor.eat(Mark::Reserved(Reserved::Destroy)) {
        let (class, entity) = named(cursor, room)?;
        return Ok(Some(Making::Destroy { class, entity }));
    }
    Ok(None)
}

/// The name that is here, if there is one.
#[tactic(auto, unfolding(crate::proofs::Unfoldings::steps_by_table, ss_words::specs::Marks::a_name))]
fn bare_name(cursor: &mut Cursor<'_>) -> Result<Option<Name>, Refusal>
    ensures exact { Gives (option_view (λ n. n)) result cursor.new
        (by_table reading.name_of cursor.old) }
    ensures shorter { length cursor.new ≤ length cursor.old }
    ensures taken { IfOk result (λ o. IfSome o (λ _. length cursor.new < length cursor.old)) }
{
    match cursor.peek() {
        Some(Plain::Name(_)) => Ok(Some(cursor.name()?)),
        _ => Ok(None),
    }
}

/// `name ["(" expression ")"] "=" expression`, if a name is here.
#[tactic(auto, unfolding(crate::proofs::Unfoldings::in_turn, crate::specs::Combined::if_word))]
fn bare_equation(cursor: &mut Cursor<'_>, room: u32) -> Result<Option<(Reference, Expr)>, Refusal>
    ensures exact { Gives (option_view
        (λ x. (
          x.0.name,
          (option_view (λ b. expr_view b.value) x.0.subscript, expr_view x.1),
        ))) result cursor.new
        (if_word (by_table reading.name_of)
        (pair (before (reading.subscript_at room) (mark.Sign sign.Equal))
        (expr_at room)) cursor.old) }
    ensures shorter { length cursor.new ≤ length cursor.old }
    ensures taken { IfOk result (λ o. IfSome o (λ _. length cursor.new < length cursor.old)) }
{
    let Some(name) = bare_name(cursor)? else {
        return Ok(None);
    };
    let subscript = subscript(cursor, room)?;
    cursor.expect(Mark::Sign(Sign::Equal))?;
    let value = expression(cursor, room)?;
    Ok(Some((Reference { name, subscript }, value)))
}

/// LET, ADD, SUBTRACT or an assignment without LET, if one is here.
#[tactic(auto, unfolding(crate::proofs::Unfoldings::choices, crate::specs::SimpleReading::assign_at))]
pub fn assignment(cursor: &mut Cursor<'_>, room: u32) -> Result<Option<Assign>, Refusal>
    ensures exact { Gives (option_view assign_view) result cursor.new
        (reading.assign_at room cursor.old) }
    ensures shorter { length cursor.new ≤ length cursor.old }
    ensures taken { IfOk result (λ o. IfSome o (λ _. length cursor.new < length cursor.old)) }
{
    if cursor.eat(Mark::Reserved(Reserved::Let)) {
        let (target, value) = equation(cursor, room)?;
        return Ok(Some(Assign::Let {
            written: true,
            target,
            value,
        }));
    }
    if cursor.eat(Mark::Reserved(Reserved::Add)) {
        let (value, target) = moved(cursor, Mark::Reserved(Reserved::To), room)?;
        return Ok(Some(Assign::Add { value, target }));
    }
    if cursor.eat(Mark::Reserved(Reserved::Subtract)) {
        let (value, target) = moved(cursor, Mark::Reserved(Reserved::From), room)?;
        return Ok(Some(Assign::Subtract { value, target }));
    }
    let Some((target, value)) = bare_equation(cursor, room)? else {
        return Ok(None);
    };
    Ok(Some(Assign::Let {
        written: false,
        target,
        value,
    }))
}

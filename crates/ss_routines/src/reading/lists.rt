//! Reading lists of one or more expressions or references.

ghost use Rattle.std.specs.Prelude.{IfSome, IfOk, IfErr, length, map, ◌≡◌, ◌≤◌, ◌<◌, ◌∷◌};
ghost use Rattle.ss_words.specs.declared.mark.Mark.TheVariants as m;
ghost use Rattle.ss_words.specs.declared.refusal.Refusal.TheVariants.{Memory};
ghost use Rattle.ss_words.specs.declared.word.Sign.TheVariants as s;
ghost use Rattle.ss_words.specs.Lists.{several_view, all_of};
ghost use Rattle.ss_words.specs.Reading.{Gives, option_view};
ghost use Rattle.ss_routines.specs.Combined.{if_mark, star, several};
ghost use Rattle.ss_routines.specs.ExprReading.{expr_at, inner_at};
ghost use Rattle.ss_routines.specs.SimpleReading.{reference_at, list_behind, listing_with};
ghost use Rattle.ss_routines.specs.PartView.{values_view, several_values_view, references_view};
ghost use Rattle.ss_routines.specs.View.{expr_view, reference_view, listing_view};

use crate::reading::assignment::reference;
use crate::reading::expressions::{arguments, expression};
use crate::tree::condition::Reference;
use crate::tree::expr::Expr;
use crate::tree::simple::Listing;
use ss_words::{Cursor, Mark, Refusal, Reserved, Several, Sign};

/// `expression {"," expression}`
#[tactic(auto, unfolding(crate::proofs::Unfoldings::in_turn, crate::specs::Combined::several))]
pub fn expressions(cursor: &mut Cursor<'_>, room: u32) -> Result<Several<Expr>, Refusal>
    ensures exact { Gives several_values_view result cursor.new
        (several (expr_at room) cursor.old) }
    ensures shorter { length cursor.new ≤ length cursor.old }
{
    let first = expression(cursor, room)?;
    match other_expressions(cursor, room) {
        Ok(others) => Ok(Several { first, others }),
        Err(refusal) => {
            drop(first);
            Err(refusal)
        }
    }
}

/// `{"," expression}`
fn other_expressions(cursor: &mut Cursor<'_>, room: u32) -> Result<Vec<Expr>, Refusal>
    ensures exact { Gives values_view result cursor.new
        (star (if_mark (m.Sign s.Comma) (expr_at room)) cursor.old) }
    ensures shorter { length cursor.new ≤ length cursor.old }
{
    let mut values = Vec::new(cursor.alloc());
    while let Some(value) = next_expression(cursor, room)? {
        values.push(value)?;
    }
    Ok(values)
}

/// A comma and an expression, or none.
#[tactic(auto, unfolding(crate::proofs::Unfoldings::steps, crate::specs::Combined::if_mark))]
fn next_expression(cursor: &mut Cursor<'_>, room: u32) -> Result<Option<Expr>, Refusal>
    ensures exact { Gives (option_view expr_view) result cursor.new
        (if_mark (m.Sign s.Comma) (expr_at room) cursor.old) }
    ensures shorter { length cursor.new ≤ length cursor.old }
    ensures taken { IfOk result (λ o. IfSome o (λ _. length cursor.new < length cursor.old)) }
{
    if !cursor.eat(Mark::Sign(Sign::Comma)) {
        return Ok(None);
    }
    Ok(Some(expression(cursor, room)?))
}

/// `reference {"," reference}`
#[tactic(auto, unfolding(crate::proofs::Unfoldings::in_turn, crate::specs::Combined::several))]
pub fn references(cursor: &mut Cursor<'_>, room: u32) -> Result<Several<Reference>, Refusal>
    ensures exact { Gives (several_view reference_view) result cursor.new
        (several (reference_at room) cursor.old) }
    ensures shorter { length cursor.new ≤ length cursor.old }
{
    let first = reference(cursor, room)?;
    match other_references(cursor, room) {
        Ok(others) => Ok(Several { first, others }),
        Err(refusal) => {
            drop(first);
            Err(refusal)
        }
    }
}

/// `{"," reference}`
fn other_references(cursor: &mut Cursor<'_>, room: u32) -> Result<Vec<Reference>, Refusal>
    ensures exact { Gives references_view result cursor.new
        (star (if_mark (m.Sign s.Comma) (reference_at room)) cursor.old) }
    ensures shorter { length cursor.new ≤ length cursor.old }
{
    let mut targets = Vec::new(cursor.alloc());
    while let Some(target) = next_reference(cursor, room)? {
        targets.push(target)?;
    }
    Ok(targets)
}

/// A comma and a reference, or none.
#[tactic(auto, unfolding(crate::proofs::Unfoldings::steps, crate::specs::Combined::if_mark))]
fn next_reference(cursor: &mut Cursor<'_>, room: u32) -> Result<Option<Reference>, Refusal>
    ensures exact { Gives (option_view reference_view) result cursor.new
        (if_mark (m.Sign s.Comma) (reference_at room) cursor.old) }
    ensures shorter { length cursor.new ≤ length cursor.old }
    ensures taken { IfOk result (λ o. IfSome o (λ _. length cursor.new < length cursor.old)) }
{
    if !cursor.eat(Mark::Sign(Sign::Comma)) {
        return Ok(None);
    }
    Ok(Some(reference(cursor, room)?))
}

/// The items of a list of one or more; `Memory` if the memory for them was refused.
pub fn listed<T: Drop>(list: Several<T>) -> Result<Vec<T>, Refusal>
    ensures items { IfOk result (λ v. v.items ≡ list.first ∷ list.others.items) }
    ensures memory { IfErr result (λ e. e ≡ Memory) }
{
    let Several { first, mut others } = list;
    others.insert(0, first)?;
    Ok(others)
}

/// `[mark expression {"," expression}]`; no values if the mark is not here.
#[tactic(auto, unfolding(crate::proofs::Unfoldings::choices, crate::specs::SimpleReading::list_behind))]
pub fn expressions_behind(
    cursor: &mut Cursor<'_>,
    mark: Mark,
    room: u32,
) -> Result<Vec<Expr>, Refusal>
    ensures exact { Gives values_view result cursor.new
        (list_behind mark (expr_at room) cursor.old) }
    ensures shorter { length cursor.new ≤ length cursor.old }
{
    if !cursor.eat(mark) {
        return Ok(Vec::new(cursor.alloc()));
    }
    listed(expressions(cursor, room)?)
}

/// `[mark reference {"," reference}]`; no targets if the mark is not here.
#[tactic(auto, unfolding(crate::proofs::Unfoldings::choices, crate::specs::SimpleReading::list_behind))]
pub fn references_behind(
    cursor: &mut Cursor<'_>,
    mark: Mark,
    room: u32,
) -> Result<Vec<Reference>, Refusal>
    ensures exact { Gives references_view result cursor.new
        (list_behind mark (reference_at room) cursor.old) }
    ensures shorter { length cursor.new ≤ length cursor.old }
{
    if !cursor.eat(mark) {
        return Ok(Vec::new(cursor.alloc()));
    }
    listed(references(cursor, room)?)
}

/// `[GIVEN expressions | "(" expressions ")"]`
#[tactic(auto, unfolding(crate::proofs::Unfoldings::choices, crate::specs::SimpleReading::listing_with))]
pub fn values(cursor: &mut Cursor<'_>, room: u32) -> Result<Listing<Expr>, Refusal>
    ensures exact { Gives (listing_view expr_view) result cursor.new
        (listing_with room (expr_at room) (inner_at room) cursor.old) }
    ensures shorter { length cursor.new ≤ length cursor.old }
{
    if cursor.eat(Mark::Reserved(Reserved::Given)) {
        return Ok(Listing::BehindGiven(expressions(cursor, room)?));
    }
    let Some(values) = arguments(cursor, room)? else {
        return Ok(Listing::Unwritten);
    };
    Ok(Listing::InParentheses(values))
}

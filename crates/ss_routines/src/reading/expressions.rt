//! Reading expressions from left to right, with a limit on their open parentheses.

ghost use Rattle.std.specs.Prelude.{IfSome, IfOk, IsTrue, List, [], length, map, ◌≡◌, ◌≤◌, ◌<◌, ◌∷◌, Ok};
ghost use Rattle.ss_words.specs.Reading.{Gives, option_view};
ghost use Rattle.ss_routines.specs.Combined.{by_table, eat_open, if_open, star, several};
ghost use Rattle.ss_routines.specs.ExprReading as reading;
ghost use Rattle.ss_routines.specs.PartView.{rest_view, factors_view, terms_view, values_view, several_values_view};
ghost use Rattle.ss_routines.specs.View.{expr_view, term_view, factor_view, added_view};

use crate::tree::expr::{Added, Application, Expr, Factor, Term};
use ss_words::{Cursor, Mark, Plain, Refusal, Several, Sign, TermSign};

/// Reads an expression in which at most `room` parentheses may be open at once.
pub fn expression(cursor: &mut Cursor<'_>, room: u32) -> Result<Expr, Refusal>
    ensures exact { Gives expr_view result cursor.new (reading.expr_at room cursor.old) }
    ensures shorter { length cursor.new ≤ length cursor.old }
{
    expr(cursor, room)
}

/// Reads an expression in one more parenthesis.
pub fn inner_expression(cursor: &mut Cursor<'_>, room: u32) -> Result<Expr, Refusal>
    ensures exact { Gives expr_view result cursor.new (reading.inner_at room cursor.old) }
    ensures shorter { length cursor.new ≤ length cursor.old }
{
    inner(cursor, room)
}

/// The sign that is here, if there is one.
#[tactic(auto, unfolding(crate::proofs::Unfoldings::steps_by_table))]
fn lead(cursor: &mut Cursor<'_>) -> Option<TermSign>
    ensures exact { by_table reading.sign_of cursor.old ≡ (Ok result, cursor.new) }
    ensures shorter { length cursor.new ≤ length cursor.old }
    ensures taken { IfSome result (λ _. length cursor.new < length cursor.old) }
{
    match cursor.peek() {
        Some(Plain::Mark(Mark::Sign(Sign::Plus))) => {
            cursor.pass();
            Some(TermSign::Plus)
        }
        Some(Plain::Mark(Mark::Sign(Sign::Minus))) => {
            cursor.pass();
            Some(TermSign::Minus)
        }
        _ => None,
    }
}

/// The number that is here, if there is one.
#[tactic(auto, unfolding(crate::proofs::Unfoldings::steps_by_table))]
fn number(cursor: &mut Cursor<'_>) -> Option<u64>
    ensures exact { by_table reading.number_of cursor.old ≡ (Ok result, cursor.new) }
    ensures shorter { length cursor.new ≤ length cursor.old }
    ensures taken { IfSome result (λ _. length cursor.new < length cursor.old) }
{
    match cursor.peek() {
        Some(Plain::Number(number)) => {
            cursor.pass();
            Some(number)
        }
        _ => None,
    }
}

/// Whether a parenthesis opens here, which is then passed; refused if no more may be open.
pub fn open(cursor: &mut Cursor<'_>, room: u32) -> Result<bool, Refusal>
    ensures exact { Gives (λ b. b) result cursor.new (eat_open room cursor.old) }
    ensures shorter { length cursor.new ≤ length cursor.old }
    ensures taken { IfOk result (λ b. IsTrue b → length cursor.new < length cursor.old) }
{
    if room > 0 {
        return Ok(cursor.eat(Mark::Sign(Sign::Open)));
    }
    if cursor.is_next(Mark::Sign(Sign::Open)) {
        return Err(Refusal::PastLimit);
    }
    Ok(false)
}

/// The part after a first factor: `{"*" factor} {("+" | "-") term}`
#[tactic(auto, unfolding(crate::proofs::Unfoldings::in_turn, crate::specs::ExprReading::rest_with))]
pub fn rest(cursor: &mut Cursor<'_>, room: u32) -> Result<(Vec<Factor>, Vec<Added>), Refusal>
    ensures exact { Gives rest_view result cursor.new (reading.rest_with room cursor.old) }
    ensures shorter { length cursor.new ≤ length cursor.old }
{
    let factors = products(cursor, room)?;
    match sums(cursor, room) {
        Ok(terms) => Ok((factors, terms)),
        Err(refusal) => {
            drop(factors);
            Err(refusal)
        }
    }
}

/// `expression = ["+" | "-"] term {("+" | "-") term}`
#[cycle(expression)]
#[tactic(auto, unfolding(crate::proofs::Unfoldings::in_turn, crate::specs::ExprReading::expr_with))]
fn expr(cursor: &mut Cursor<'_>, room: u32) -> Result<Expr, Refusal>
    ensures exact { Gives expr_view result cursor.new
        (reading.expr_with room (reading.inner_at room) cursor.old) }
    ensures shorter { length cursor.new ≤ length cursor.old }
{
    let sign = lead(cursor);
    let first = term(cursor, room)?;
    match sums(cursor, room) {
        Ok(more) => Ok(Expr { sign, first, more }),
        Err(refusal) => {
            drop(first);
            Err(refusal)
        }
    }
}

/// `{("+" | "-") term}`
#[cycle(expression)]
fn sums(cursor: &mut Cursor<'_>, room: u32) -> Result<Vec<Added>, Refusal>
    ensures exact { Gives terms_view result cursor.new
        (star (reading.next_term_at room) cursor.old) }
    ensures shorter { length cursor.new ≤ length cursor.old }
{
    let mut more = Vec::new(cursor.alloc());
    while let Some(added) = next_sum(cursor, room)? {
        more.push(added)?;
    }
    more.shrink_to_fit();
    Ok(more)
}

/// A sign and its term, or none.
#[cycle(expression)]
#[tactic(auto, unfolding(crate::proofs::Unfoldings::steps, crate::specs::Combined::if_word))]
fn next_sum(cursor: &mut Cursor<'_>, room: u32) -> Result<Option<Added>, Refusal>
    ensures exact { Gives (option_view added_view) result cursor.new
        (reading.next_term_at room cursor.old) }
    ensures shorter { length cursor.new ≤ length cursor.old }
    ensures taken { IfOk result (λ o. IfSome o (λ _. length cursor.new < length cursor.old)) }
{
    let Some(sign) = lead(cursor) else {
        return Ok(None);
    };
    let term = term(cursor, room)?;
    Ok(Some(Added { sign, term }))
}

/// `term = factor {"*" factor}`
#[cycle(expression)]
#[tactic(auto, unfolding(crate::proofs::Unfoldings::in_turn, crate::specs::ExprReading::term_with))]
fn term(cursor: &mut Cursor<'_>, room: u32) -> Result<Term, Refusal>
    ensures exact { Gives term_view result cursor.new
        (reading.term_with room (reading.inner_at room) cursor.old) }
    ensures shorter { length cursor.new ≤ length cursor.old }
{
    let first = factor(cursor, room)?;
    match products(cursor, room) {
        Ok(more) => Ok(Term { first, more }),
        Err(refusal) => {
            drop(first);
            Err(refusal)
        }
    }
}

/// `{"*" factor}`
#[cycle(expression)]
fn products(cursor: &mut Cursor<'_>, room: u32) -> Result<Vec<Factor>, Refusal>
    ensures exact { Gives factors_view result cursor.new
        (star (reading.next_factor_at room) cursor.old) }
    ensures shorter { length cursor.new ≤ length cursor.old }
{
    let mut more = Vec::new(cursor.alloc());
    while let Some(factor) = next_product(cursor, room)? {
        more.push(factor)?;
    }
    more.shrink_to_fit();
    Ok(more)
}

/// A star and its factor, or none.
#[cycle(expression)]
#[tactic(auto, unfolding(crate::proofs::Unfoldings::steps, crate::specs::Combined::if_mark))]
fn next_product(cursor: &mut Cursor<'_>, room: u32) -> Result<Option<Factor>, Refusal>
    ensures exact { Gives (option_view factor_view) result cursor.new
        (reading.next_factor_at room cursor.old) }
    ensures shorter { length cursor.new ≤ length cursor.old }
    ensures taken { IfOk result (λ o. IfSome o (λ _. length cursor.new < length cursor.old)) }
{
    if !cursor.eat(Mark::Sign(Sign::Star)) {
        return Ok(None);
    }
    Ok(Some(factor(cursor, room)?))
}

/// `factor = number | name ["(" expressions ")"] | "(" expression ")"`
#[cycle(expression)]
#[tactic(auto, unfolding(crate::proofs::Unfoldings::choices, crate::specs::ExprReading::factor_with))]
fn factor(cursor: &mut Cursor<'_>, room: u32) -> Result<Factor, Refusal>
    ensures exact { Gives factor_view result cursor.new
        (reading.factor_with room (reading.inner_at room) cursor.old) }
    ensures shorter { length cursor.new ≤ length cursor.old }
{
    if let Some(inner) = within(cursor, room)? {
        return Ok(Factor::Within(Box::new(cursor.alloc(), inner)?));
    }
    if let Some(number) = number(cursor) {
        return Ok(Factor::Number(number));
    }
    let name = cursor.name()?;
    let Some(Several { first, others }) = arguments(cursor, room)? else {
        return Ok(Factor::Name(name));
    };
    let first = Box::new(cursor.alloc(), first)?;
    let application = Application {
        name,
        first,
        others,
    };
    Ok(Factor::Applied(Box::new(cursor.alloc(), application)?))
}

/// An expression in parentheses, if one opens here.
#[cycle(expression)]
#[tactic(auto, unfolding(crate::proofs::Unfoldings::steps, crate::specs::Combined::if_open))]
pub fn within(cursor: &mut Cursor<'_>, room: u32) -> Result<Option<Expr>, Refusal>
    ensures exact { Gives (option_view expr_view) result cursor.new
        (if_open room (reading.inner_at room) cursor.old) }
    ensures shorter { length cursor.new ≤ length cursor.old }
    ensures taken { IfOk result (λ o. IfSome o (λ _. length cursor.new < length cursor.old)) }
{
    if !open(cursor, room)? {
        return Ok(None);
    }
    let value = inner(cursor, room)?;
    match cursor.expect(Mark::Sign(Sign::Close)) {
        Ok(()) => Ok(Some(value)),
        Err(refusal) => {
            drop(value);
            Err(refusal)
        }
    }
}

/// Arguments in parentheses, if one opens here.
#[cycle(expression)]
#[tactic(auto, unfolding(crate::proofs::Unfoldings::steps, crate::specs::Combined::if_open))]
pub fn arguments(cursor: &mut Cursor<'_>, room: u32) -> Result<Option<Several<Expr>>, Refusal>
    ensures exact { Gives (option_view several_values_view) result cursor.new
        (reading.arguments_at room cursor.old) }
    ensures shorter { length cursor.new ≤ length cursor.old }
    ensures taken { IfOk result (λ o. IfSome o (λ _. length cursor.new < length cursor.old)) }
{
    if !open(cursor, room)? {
        return Ok(None);
    }
    let values = inner_values(cursor, room)?;
    match cursor.expect(Mark::Sign(Sign::Close)) {
        Ok(()) => Ok(Some(values)),
        Err(refusal) => {
            drop(values);
            Err(refusal)
        }
    }
}

/// `expression {"," expression}` in one more parenthesis.
#[cycle(expression)]
#[tactic(auto, unfolding(crate::proofs::Unfoldings::in_turn, crate::specs::Combined::several))]
fn inner_values(cursor: &mut Cursor<'_>, room: u32) -> Result<Several<Expr>, Refusal>
    ensures exact { Gives several_values_view result cursor.new
        (several (reading.inner_at room) cursor.old) }
    ensures shorter { length cursor.new ≤ length cursor.old }
{
    let first = inner(cursor, room)?;
    match inner_others(cursor, room) {
        Ok(others) => Ok(Several { first, others }),
        Err(refusal) => {
            drop(first);
            Err(refusal)
        }
    }
}

/// `{"," expression}` in one more parenthesis.
#[cycle(expression)]
fn inner_others(cursor: &mut Cursor<'_>, room: u32) -> Result<Vec<Expr>, Refusal>
    ensures exact { Gives values_view result cursor.new
        (star (reading.next_inner_at room) cursor.old) }
    ensures shorter { length cursor.new ≤ length cursor.old }
{
    let mut values = Vec::new(cursor.alloc());
    while let Some(value) = next_inner(cursor, room)? {
        values.push(value)?;
    }
    values.shrink_to_fit();
    Ok(values)
}

/// A comma and an expression in one more parenthesis, or none.
#[cycle(expression)]
#[tactic(auto, unfolding(crate::proofs::Unfoldings::steps, crate::specs::Combined::if_mark))]
fn next_inner(cursor: &mut Cursor<'_>, room: u32) -> Result<Option<Expr>, Refusal>
    ensures exact { Gives (option_view expr_view) result cursor.new
        (reading.next_inner_at room cursor.old) }
    ensures shorter { length cursor.new ≤ length cursor.old }
    ensures taken { IfOk result (λ o. IfSome o (λ _. length cursor.new < length cursor.old)) }
{
    if !cursor.eat(Mark::Sign(Sign::Comma)) {
        return Ok(None);
    }
    Ok(Some(inner(cursor, room)?))
}

/// An expression in one more parenthesis.
#[cycle(expression)]
fn inner(cursor: &mut Cursor<'_>, room: u32) -> Result<Expr, Refusal>
    ensures exact { Gives expr_view result cursor.new (reading.inner_at room cursor.old) }
    ensures shorter { length cursor.new ≤ length cursor.old }
{
    if room == 0 {
        return Err(Refusal::PastLimit);
    }
    expr(cursor, room - 1)
}

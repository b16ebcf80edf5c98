//! Reading FOR phrases.

ghost use mathlib.Core.Logic.{inl, inr};
ghost use Rattle.std.specs.Prelude.{IfSome, IfOk, length, ◌≡◌, ◌≤◌, ◌<◌, Ok};
ghost use Rattle.ss_words.specs.declared.mark.Mark.TheVariants as m;
ghost use Rattle.ss_words.specs.declared.reserved.Reserved.TheVariants as r;
ghost use Rattle.ss_words.specs.Marks.{a_name};
ghost use Rattle.ss_words.specs.Reading.{Gives, option_view};
ghost use Rattle.ss_routines.specs.Combined.{before, by_table, if_mark, made, pair};
ghost use Rattle.ss_routines.specs.ExprReading.{expr_at};
ghost use Rattle.ss_routines.specs.LoopReading as reading;
ghost use Rattle.ss_routines.specs.PartView.{qualifiers_view};
ghost use Rattle.ss_routines.specs.SimpleReading.{reference_at};
ghost use Rattle.ss_routines.specs.View.{expr_view, reference_view, walk_start_view, range_view, qualifier_view};
ghost use Rattle.ss_routines.specs.View.{phrase_view};

use crate::reading::assignment::reference;
use crate::reading::conditions::condition;
use crate::reading::expressions::expression;
use crate::tree::condition::Reference;
use crate::tree::expr::Expr;
use crate::tree::place::{Phrase, Qualifier, Range, WalkStart};
use ss_words::{Cursor, Direction, Mark, Name, Plain, QualifierWord, Refusal, Reserved, Sign};

/// A FOR phrase, after FOR.
#[tactic(auto, unfolding(crate::proofs::Unfoldings::in_turn, crate::specs::LoopReading::phrase_at))]
pub fn phrase(cursor: &mut Cursor<'_>, room: u32) -> Result<Phrase, Refusal>
    ensures exact { Gives phrase_view result cursor.new (reading.phrase_at room cursor.old) }
    ensures shorter { length cursor.new ≤ length cursor.old }
{
    let range = range(cursor, room)?;
    match qualifiers(cursor, room) {
        Ok(qualifiers) => Ok(Phrase { range, qualifiers }),
        Err(refusal) => {
            // by a call: written out here, as after a `?`, it takes the proof seven times as long
            drop(range);
            Err(refusal)
        }
    }
}

/// The range that a FOR phrase goes through.
#[tactic(auto, unfolding(crate::proofs::Unfoldings::choices, crate::specs::LoopReading::range_at))]
fn range(cursor: &mut Cursor<'_>, room: u32) -> Result<Range, Refusal>
    ensures exact { Gives range_view result cursor.new (reading.range_at room cursor.old) }
    ensures shorter { length cursor.new ≤ length cursor.old }
{
    if cursor.eat(Mark::Reserved(Reserved::Every)) {
        return every(cursor, room);
    }
    counting(cursor, room)
}

/// The range that a FOR phrase goes through, after EVERY.
#[tactic(auto, unfolding(crate::proofs::Unfoldings::choices, crate::specs::LoopReading::walk_at))]
fn every(cursor: &mut Cursor<'_>, room: u32) -> Result<Range, Refusal>
    ensures exact { Gives range_view result cursor.new
        (made (λ x. reading.range_of (inl x)) (pair a_name (reading.walk_at room)) cursor.old) }
    ensures shorter { length cursor.new ≤ length cursor.old }
{
    let name = cursor.name()?;
    if cursor.eat(Mark::Reserved(Reserved::In)) {
        let (set, start, direction) = walk(cursor, room)?;
        return Ok(Range::Walking {
            direction,
            variable: name,
            set,
            start,
        });
    }
    let variable = called_name(cursor)?;
    Ok(Range::Each {
        class: name,
        variable,
    })
}

/// A set, the start of its walk and the way in which it goes.
#[tactic(auto, unfolding(crate::proofs::Unfoldings::in_turn))]
fn walk(cursor: &mut Cursor<'_>, room: u32) -> Result<(Reference, WalkStart, Direction), Refusal>
    ensures exact { Gives (λ x. (reference_view x.0, (walk_start_view x.1, x.2))) result cursor.new
        (pair (reference_at room) (pair (reading.start_at room) reading.an_order) cursor.old) }
    ensures shorter { length cursor.new ≤ length cursor.old }
{
    let set = reference(cursor, room)?;
    let start = match walk_start(cursor, room) {
        Ok(start) => start,
        Err(refusal) => {
            drop(set);
            return Err(refusal);
        }
    };
    match order(cursor) {
        Ok(direction) => Ok((set, start, direction)),
        Err(refusal) => {
            drop(set);
            drop(start);
            Err(refusal)
        }
    }
}

/// The range that a FOR phrase without EVERY counts through.
#[tactic(auto, unfolding(crate::proofs::Unfoldings::in_turn, crate::specs::LoopReading::counting_at))]
fn counting(cursor: &mut Cursor<'_>, room: u32) -> Result<Range, Refusal>
    ensures exact { Gives range_view result cursor.new
        (made (λ x. reading.range_of (inr x)) (reading.counting_at room) cursor.old) }
    ensures shorter { length cursor.new ≤ length cursor.old }
{
    let variable = cursor.name()?;
    let direction = direction(cursor)?;
    let first = expression_to(cursor, room)?;
    match last_and_step(cursor, room) {
        Ok((last, step)) => Ok(Range::Counting {
            direction,
            variable,
            first,
            last,
            step,
        }),
        Err(refusal) => {
            drop(first);
            Err(refusal)
        }
    }
}

/// `expression TO`
#[tactic(auto, unfolding(crate::proofs::Unfoldings::in_turn))]
fn expression_to(cursor: &mut Cursor<'_>, room: u32) -> Result<Expr, Refusal>
    ensures exact { Gives expr_view result cursor.new
        (before (expr_at room) (m.Reserved r.To) cursor.old) }
    ensures shorter { length cursor.new ≤ length cursor.old }
{
    let first = expression(cursor, room)?;
    match cursor.expect(Mark::Reserved(Reserved::To)) {
        Ok(()) => Ok(first),
        Err(refusal) => {
            drop(first);
            Err(refusal)
        }
    }
}

/// `expression [BY expression]`
#[tactic(auto, unfolding(crate::proofs::Unfoldings::in_turn))]
fn last_and_step(cursor: &mut Cursor<'_>, room: u32) -> Result<(Expr, Option<Expr>), Refusal>
    ensures exact { Gives (λ x. (expr_view x.0, option_view expr_view x.1)) result cursor.new
        (pair (expr_at room) (if_mark (m.Reserved r.By) (expr_at room)) cursor.old) }
    ensures shorter { length cursor.new ≤ length cursor.old }
{
    let last = expression(cursor, room)?;
    match step(cursor, room) {
        Ok(step) => Ok((last, step)),
        Err(refusal) => {
            drop(last);
            Err(refusal)
        }
    }
}

/// `[CALLED name]`
#[tactic(auto, unfolding(crate::proofs::Unfoldings::steps, crate::specs::Combined::if_mark))]
fn called_name(cursor: &mut Cursor<'_>) -> Result<Option<Name>, Refusal>
    ensures exact { Gives (option_view (λ n. n)) result cursor.new
        (if_mark (m.Reserved r.Called) a_name cursor.old) }
    ensures shorter { length cursor.new ≤ length cursor.old }
{
    if !cursor.eat(Mark::Reserved(Reserved::Called)) {
        return Ok(None);
    }
    Ok(Some(cursor.name()?))
}

/// `[(FROM | AFTER) expression]`
#[tactic(auto, unfolding(crate::proofs::Unfoldings::choices, crate::specs::LoopReading::start_at))]
fn walk_start(cursor: &mut Cursor<'_>, room: u32) -> Result<WalkStart, Refusal>
    ensures exact { Gives walk_start_view result cursor.new (reading.start_at room cursor.old) }
    ensures shorter { length cursor.new ≤ length cursor.old }
{
    if cursor.eat(Mark::Reserved(Reserved::From)) {
        return Ok(WalkStart::From(expression(cursor, room)?));
    }
    if cursor.eat(Mark::Reserved(Reserved::After)) {
        return Ok(WalkStart::After(expression(cursor, room)?));
    }
    Ok(WalkStart::AtEnd)
}

/// `[IN REVERSE ORDER]`
#[tactic(auto, unfolding(crate::proofs::Unfoldings::choices, crate::specs::LoopReading::an_order))]
fn order(cursor: &mut Cursor<'_>) -> Result<Direction, Refusal>
    ensures exact { Gives (λ d. d) result cursor.new (reading.an_order cursor.old) }
    ensures shorter { length cursor.new ≤ length cursor.old }
{
    if !cursor.eat(Mark::Reserved(Reserved::In)) {
        return Ok(Direction::Onward);
    }
    cursor.expect(Mark::Reserved(Reserved::Reverse))?;
    cursor.expect(Mark::Reserved(Reserved::Order))?;
    Ok(Direction::Backward)
}

/// `"="` or BACK FROM.
#[tactic(auto, unfolding(crate::proofs::Unfoldings::choices, crate::specs::LoopReading::a_direction))]
fn direction(cursor: &mut Cursor<'_>) -> Result<Direction, Refusal>
    ensures exact { Gives (λ d. d) result cursor.new (reading.a_direction cursor.old) }
    ensures shorter { length cursor.new ≤ length cursor.old }
{
    if cursor.eat(Mark::Reserved(Reserved::Back)) {
        cursor.expect(Mark::Reserved(Reserved::From))?;
        return Ok(Direction::Backward);
    }
    cursor.expect(Mark::Sign(Sign::Equal))?;
    Ok(Direction::Onward)
}

/// `[BY expression]`
#[tactic(auto, unfolding(crate::proofs::Unfoldings::steps, crate::specs::Combined::if_mark))]
fn step(cursor: &mut Cursor<'_>, room: u32) -> Result<Option<Expr>, Refusal>
    ensures exact { Gives (option_view expr_view) result cursor.new
        (if_mark (m.Reserved r.By) (expr_at room) cursor.old) }
    ensures shorter { length cursor.new ≤ length cursor.old }
{
    if !cursor.eat(Mark::Reserved(Reserved::By)) {
        return Ok(None);
    }
    Ok(Some(expression(cursor, room)?))
}

/// `{(WITH | UNLESS | WHILE | UNTIL) condition}`
#[tactic(auto, unfolding(crate::specs::LoopReading::qualifiers_at))]
fn qualifiers(cursor: &mut Cursor<'_>, room: u32) -> Result<Vec<Qualifier>, Refusal>
    ensures exact { Gives qualifiers_view result cursor.new
        (reading.qualifiers_at room cursor.old) }
    ensures shorter { length cursor.new ≤ length cursor.old }
{
    let mut qualifiers = Vec::new(cursor.alloc());
    while let Some(qualifier) = next_qualifier(cursor, room)? {
        qualifiers.push(qualifier)?;
    }
    Ok(qualifiers)
}

/// A qualifier, if one begins here.
#[tactic(auto, unfolding(crate::proofs::Unfoldings::choices))]
fn next_qualifier(cursor: &mut Cursor<'_>, room: u32) -> Result<Option<Qualifier>, Refusal>
    ensures exact { Gives (option_view qualifier_view) result cursor.new
        (reading.next_qualifier room cursor.old) }
    ensures shorter { length cursor.new ≤ length cursor.old }
    ensures taken { IfOk result (λ o. IfSome o (λ _. length cursor.new < length cursor.old)) }
{
    let Some(word) = qualifier_word(cursor) else {
        return Ok(None);
    };
    let condition = condition(cursor, room)?;
    Ok(Some(Qualifier { word, condition }))
}

/// WITH, UNLESS, WHILE or UNTIL, if one is here.
#[tactic(auto, unfolding(crate::proofs::Unfoldings::steps_by_table))]
fn qualifier_word(cursor: &mut Cursor<'_>) -> Option<QualifierWord>
    ensures exact { by_table reading.qualifier_of cursor.old ≡ (Ok result, cursor.new) }
    ensures shorter { length cursor.new ≤ length cursor.old }
    ensures taken { IfSome result (λ _. length cursor.new < length cursor.old) }
{
    let word = match cursor.peek() {
        Some(Plain::Mark(Mark::Reserved(Reserved::With))) => QualifierWord::With,
        Some(Plain::Mark(Mark::Reserved(Reserved::Unless))) => QualifierWord::Unless,
        Some(Plain::Mark(Mark::Reserved(Reserved::While))) => QualifierWord::While,
        Some(Plain::Mark(Mark::Reserved(Reserved::Until))) => QualifierWord::Until,
        _ => return None,
    };
    cursor.pass();
    Some(word)
}

//! Reading conditions: a parenthesis that opens may hold a condition or begin an expression. Its
//! closing one shows which.

ghost use Rattle.std.specs.Prelude.{IfSome, IfOk, length, ◌≡◌, ◌≤◌, ◌<◌, Ok, None};
ghost use Rattle.ss_words.specs.declared.mark.Mark.TheVariants as m;
ghost use Rattle.ss_words.specs.declared.reserved.Reserved.TheVariants as r;
ghost use Rattle.ss_words.specs.Reading.{Gives, option_view, bind, pure};
ghost use Rattle.ss_routines.specs.Combined.{by_table, if_open, if_mark, star};
ghost use Rattle.ss_routines.specs.ConditionReading as reading;
ghost use Rattle.ss_routines.specs.Expr as tree;
ghost use Rattle.ss_routines.specs.ExprReading.{rest_with};
ghost use Rattle.ss_routines.specs.OrValueView.{or_value_view};
ghost use Rattle.ss_routines.specs.PartView.{relations_view, conjunctions_view};
ghost use Rattle.ss_routines.specs.View.{expr_view, application_view, factor_view, reference_view};
ghost use Rattle.ss_routines.specs.View.{condition_view, conjunction_view, relation_view};

use crate::reading::assignment::reference;
use crate::reading::expressions::{expression, open, rest};
use crate::tree::condition::{Condition, Conjunction, Reference, Relation};
use crate::tree::expr::{Application, Expr, Factor, Term};
use ss_words::{Comparison, Copula, Cursor, Mark, Plain, Refusal, Reserved, Sign};

/// The part at a place at which an expression may be by itself or begin another part.
#[derive(Drop)]
enum OrValue<T> {
    /// An expression that nothing of the other kind follows.
    Value(Expr),
    Other(T),
}

/// Reads a condition in which at most `room` parentheses may be open at once.
#[tactic(auto, unfolding(crate::proofs::Unfoldings::steps, crate::specs::ConditionReading::condition_at))]
pub fn condition(cursor: &mut Cursor<'_>, room: u32) -> Result<Condition, Refusal>
    ensures exact { Gives condition_view result cursor.new (reading.condition_at room cursor.old) }
    ensures shorter { length cursor.new ≤ length cursor.old }
{
    match value_or_condition(cursor, room)? {
        OrValue::Value(_) => Err(Refusal::Unexpected),
        OrValue::Other(condition) => Ok(condition),
    }
}

/// An expression or a condition in which at most `room` parentheses may be open at once.
fn value_or_condition(cursor: &mut Cursor<'_>, room: u32) -> Result<OrValue<Condition>, Refusal>
    ensures exact { Gives (or_value_view condition_view) result cursor.new
        (reading.either_at room cursor.old) }
    ensures shorter { length cursor.new ≤ length cursor.old }
{
    either(cursor, room)
}

/// The comparison that is here, if there is one.
#[tactic(auto, unfolding(crate::proofs::Unfoldings::steps_by_table))]
fn comparison(cursor: &mut Cursor<'_>) -> Option<Comparison>
    ensures exact { by_table reading.comparison_of cursor.old ≡ (Ok result, cursor.new) }
    ensures shorter { length cursor.new ≤ length cursor.old }
    ensures taken { IfSome result (λ _. length cursor.new < length cursor.old) }
{
    let comparison = match cursor.peek() {
        Some(Plain::Mark(Mark::Sign(Sign::Equal))) => Comparison::Equal,
        Some(Plain::Mark(Mark::Reserved(Reserved::Ne))) => Comparison::Unequal,
        Some(Plain::Mark(Mark::Sign(Sign::Less))) => Comparison::Less,
        Some(Plain::Mark(Mark::Sign(Sign::Greater))) => Comparison::Greater,
        Some(Plain::Mark(Mark::Sign(Sign::LessEqual))) => Comparison::AtMost,
        Some(Plain::Mark(Mark::Sign(Sign::GreaterEqual))) => Comparison::AtLeast,
        _ => return None,
    };
    cursor.pass();
    Some(comparison)
}

/// `[NOT]`, after IS.
#[tactic(auto, unfolding(crate::proofs::Unfoldings::steps, crate::specs::ConditionReading::copula))]
fn copula(cursor: &mut Cursor<'_>) -> Copula
    ensures exact { reading.copula cursor.old ≡ (Ok result, cursor.new) }
    ensures shorter { length cursor.new ≤ length cursor.old }
{
    if cursor.eat(Mark::Reserved(Reserved::Not)) {
        Copula::IsNot
    } else {
        Copula::Is
    }
}

/// The expression that an expression in parentheses begins, after that one.
#[tactic(auto, unfolding(crate::proofs::Unfoldings::steps))]
fn behind_inner(cursor: &mut Cursor<'_>, inner: Expr, room: u32) -> Result<Expr, Refusal>
    ensures exact { Gives expr_view result cursor.new (bind (rest_with room) (λ z. pure
        (tree.expr None (tree.term (tree.within (expr_view inner)) (tree.products_of z.0))
        (tree.sums_of z.1)))
        cursor.old) }
    ensures shorter { length cursor.new ≤ length cursor.old }
{
    let inner = Factor::Within(Box::new(cursor.alloc(), inner)?);
    match rest(cursor, room) {
        Ok((factors, terms)) => Ok(Expr {
            sign: None,
            first: Term {
                first: inner,
                more: factors,
            },
            more: terms,
        }),
        Err(refusal) => {
            drop(inner);
            Err(refusal)
        }
    }
}

/// The reference that an expression is, if it is one.
fn as_reference(value: Expr) -> Option<Reference>
    ensures { option_view reference_view result ≡ reading.reference_of (expr_view value) }
{
    let Expr {
        sign: None,
        first: Term {
            first,
            more: factors,
        },
        more: terms,
    } = value
    else {
        return None;
    };
    match factors.as_slice() {
        [] => match terms.as_slice() {
            [] => factor_as_reference(first),
            [_, ..] => None,
        },
        [_, ..] => None,
    }
}

/// The reference that a factor is, if it is one.
fn factor_as_reference(factor: Factor) -> Option<Reference>
    ensures { option_view reference_view result ≡
        reading.reference_of
        (tree.expr None (tree.term (factor_view factor) tree.no_products) tree.no_sums) }
{
    match factor {
        Factor::Name(name) => Some(Reference {
            name,
            subscript: None,
        }),
        Factor::Applied(application) => application_as_reference(Box::into_inner(application)),
        Factor::Number(_) | Factor::Within(_) => None,
    }
}

/// The reference that a name with its arguments is, if they are one.
fn application_as_reference(application: Application) -> Option<Reference>
    ensures { option_view reference_view result ≡ reading.reference_of
        (tree.expr None (tree.term (application_view application) tree.no_products) tree.no_sums) }
{
    let Application {
        name,
        first,
        others,
    } = application;
    match others.as_slice() {
        [] => Some(Reference {
            name,
            subscript: Some(first),
        }),
        [_, ..] => None,
    }
}

/// After a value and `IS [NOT]`: `IN reference`, or EMPTY if the value is a reference.
#[tactic(auto, unfolding(crate::proofs::Unfoldings::steps, crate::specs::ConditionReading::set_with))]
fn of_set(
    cursor: &mut Cursor<'_>,
    value: Expr,
    copula: Copula,
    room: u32,
) -> Result<Relation, Refusal>
    ensures exact { Gives relation_view result cursor.new
        (reading.set_with room (expr_view value) copula cursor.old) }
    ensures shorter { length cursor.new ≤ length cursor.old }
{
    if cursor.eat(Mark::Reserved(Reserved::In)) {
        return match reference(cursor, room) {
            Ok(set) => Ok(Relation::Member {
                member: value,
                copula,
                set,
            }),
            Err(refusal) => {
                drop(value);
                Err(refusal)
            }
        };
    }
    let Some(set) = as_reference(value) else {
        return Err(Refusal::Unexpected);
    };
    match cursor.expect(Mark::Reserved(Reserved::Empty)) {
        Ok(()) => Ok(Relation::Empty { set, copula }),
        Err(refusal) => {
            drop(set);
            Err(refusal)
        }
    }
}

/// After a value: a comparison and a value, IS, or nothing of a relation.
#[tactic(auto, unfolding(crate::proofs::Unfoldings::steps, crate::specs::ConditionReading::behind_value))]
fn behind_value(
    cursor: &mut Cursor<'_>,
    value: Expr,
    room: u32,
) -> Result<OrValue<Relation>, Refusal>
    ensures exact { Gives (or_value_view relation_view) result cursor.new
        (reading.behind_value room (expr_view value) cursor.old) }
    ensures shorter { length cursor.new ≤ length cursor.old }
{
    if let Some(comparison) = comparison(cursor) {
        return match expression(cursor, room) {
            Ok(right) => Ok(OrValue::Other(Relation::Compared {
                left: value,
                comparison,
                right,
            })),
            Err(refusal) => {
                drop(value);
                Err(refusal)
            }
        };
    }
    if !cursor.eat(Mark::Reserved(Reserved::Is)) {
        return Ok(OrValue::Value(value));
    }
    let copula = copula(cursor);
    Ok(OrValue::Other(of_set(cursor, value, copula, room)?))
}

/// An expression or a condition.
#[cycle(conditions)]
#[tactic(auto, unfolding(crate::proofs::Unfoldings::steps, crate::specs::ConditionReading::either_with))]
fn either(cursor: &mut Cursor<'_>, room: u32) -> Result<OrValue<Condition>, Refusal>
    ensures exact { Gives (or_value_view condition_view) result cursor.new
        (reading.either_with room (reading.inner_either room) cursor.old) }
    ensures shorter { length cursor.new ≤ length cursor.old }
{
    match conjoined(cursor, room)? {
        OrValue::Value(value) => Ok(OrValue::Value(value)),
        OrValue::Other(first) => {
            match alternatives(cursor, room) {
                Ok(more) => Ok(OrValue::Other(Condition { first, more })),
                Err(refusal) => {
                    drop(first);
                    Err(refusal)
                }
            }
        }
    }
}

/// `{OR conjunction}`
#[cycle(conditions)]
fn alternatives(cursor: &mut Cursor<'_>, room: u32) -> Result<Vec<Conjunction>, Refusal>
    ensures exact { Gives conjunctions_view result cursor.new
        (star (if_mark (m.Reserved r.Or)
        (reading.conjunction_with room (reading.inner_either room))) cursor.old) }
    ensures shorter { length cursor.new ≤ length cursor.old }
{
    let mut more = Vec::new(cursor.alloc());
    while let Some(conjunction) = next_conjunction(cursor, room)? {
        more.push(conjunction)?;
    }
    Ok(more)
}

/// OR and a conjunction, or none.
#[cycle(conditions)]
#[tactic(auto, unfolding(crate::proofs::Unfoldings::steps, crate::specs::Combined::if_mark))]
fn next_conjunction(cursor: &mut Cursor<'_>, room: u32) -> Result<Option<Conjunction>, Refusal>
    ensures exact { Gives (option_view conjunction_view) result cursor.new
        (if_mark (m.Reserved r.Or)
        (reading.conjunction_with room (reading.inner_either room)) cursor.old) }
    ensures shorter { length cursor.new ≤ length cursor.old }
    ensures taken { IfOk result (λ o. IfSome o (λ _. length cursor.new < length cursor.old)) }
{
    if !cursor.eat(Mark::Reserved(Reserved::Or)) {
        return Ok(None);
    }
    Ok(Some(conjunction(cursor, room)?))
}

/// `conjunction = relation {AND relation}`
#[cycle(conditions)]
#[tactic(auto, unfolding(crate::proofs::Unfoldings::steps, crate::specs::ConditionReading::conjunction_with))]
fn conjunction(cursor: &mut Cursor<'_>, room: u32) -> Result<Conjunction, Refusal>
    ensures exact { Gives conjunction_view result cursor.new
        (reading.conjunction_with room (reading.inner_either room) cursor.old) }
    ensures shorter { length cursor.new ≤ length cursor.old }
{
    match conjoined(cursor, room)? {
        OrValue::Value(_) => Err(Refusal::Unexpected),
        OrValue::Other(conjunction) => Ok(conjunction),
    }
}

/// An expression or a conjunction.
#[cycle(conditions)]
#[tactic(auto, unfolding(crate::proofs::Unfoldings::steps, crate::specs::ConditionReading::conjoined_with))]
fn conjoined(cursor: &mut Cursor<'_>, room: u32) -> Result<OrValue<Conjunction>, Refusal>
    ensures exact { Gives (or_value_view conjunction_view) result cursor.new
        (reading.conjoined_with room (reading.inner_either room) cursor.old) }
    ensures shorter { length cursor.new ≤ length cursor.old }
{
    match value(cursor, room)? {
        OrValue::Value(value) => Ok(OrValue::Value(value)),
        OrValue::Other(first) => {
            match additions(cursor, room) {
                Ok(more) => Ok(OrValue::Other(Conjunction { first, more })),
                Err(refusal) => {
                    drop(first);
                    Err(refusal)
                }
            }
        }
    }
}

/// `{AND relation}`
#[cycle(conditions)]
fn additions(cursor: &mut Cursor<'_>, room: u32) -> Result<Vec<Relation>, Refusal>
    ensures exact { Gives relations_view result cursor.new
        (star (if_mark (m.Reserved r.And)
        (reading.relation_with room (reading.inner_either room))) cursor.old) }
    ensures shorter { length cursor.new ≤ length cursor.old }
{
    let mut more = Vec::new(cursor.alloc());
    while let Some(relation) = next_relation(cursor, room)? {
        more.push(relation)?;
    }
    Ok(more)
}

/// AND and a relation, or none.
#[cycle(conditions)]
#[tactic(auto, unfolding(crate::proofs::Unfoldings::steps, crate::specs::Combined::if_mark))]
fn next_relation(cursor: &mut Cursor<'_>, room: u32) -> Result<Option<Relation>, Refusal>
    ensures exact { Gives (option_view relation_view) result cursor.new
        (if_mark (m.Reserved r.And)
        (reading.relation_with room (reading.inner_either room)) cursor.old) }
    ensures shorter { length cursor.new ≤ length cursor.old }
    ensures taken { IfOk result (λ o. IfSome o (λ _. length cursor.new < length cursor.old)) }
{
    if !cursor.eat(Mark::Reserved(Reserved::And)) {
        return Ok(None);
    }
    Ok(Some(relation(cursor, room)?))
}

/// A comparison, a question on a set, or a condition in parentheses.
#[cycle(conditions)]
#[tactic(auto, unfolding(crate::proofs::Unfoldings::steps, crate::specs::ConditionReading::relation_with))]
fn relation(cursor: &mut Cursor<'_>, room: u32) -> Result<Relation, Refusal>
    ensures exact { Gives relation_view result cursor.new
        (reading.relation_with room (reading.inner_either room) cursor.old) }
    ensures shorter { length cursor.new ≤ length cursor.old }
{
    match value(cursor, room)? {
        OrValue::Value(_) => Err(Refusal::Unexpected),
        OrValue::Other(relation) => Ok(relation),
    }
}

/// An expression or a relation.
#[cycle(conditions)]
#[tactic(auto, unfolding(crate::proofs::Unfoldings::steps, crate::specs::ConditionReading::value_with))]
fn value(cursor: &mut Cursor<'_>, room: u32) -> Result<OrValue<Relation>, Refusal>
    ensures exact { Gives (or_value_view relation_view) result cursor.new
        (reading.value_with room (reading.inner_either room) cursor.old) }
    ensures shorter { length cursor.new ≤ length cursor.old }
{
    match within(cursor, room)? {
        None => {
            let value = expression(cursor, room)?;
            behind_value(cursor, value, room)
        }
        Some(OrValue::Value(inner)) => {
            let value = behind_inner(cursor, inner, room)?;
            behind_value(cursor, value, room)
        }
        Some(OrValue::Other(condition)) => {
            let condition = Box::new(cursor.alloc(), condition)?;
            Ok(OrValue::Other(Relation::Within(condition)))
        }
    }
}

/// An expression or a condition in parentheses, if one opens here.
#[cycle(conditions)]
#[tactic(auto, unfolding(crate::proofs::Unfoldings::steps, crate::specs::Combined::if_open))]
fn within(cursor: &mut Cursor<'_>, room: u32) -> Result<Option<OrValue<Condition>>, Refusal>
    ensures exact { Gives (option_view (or_value_view condition_view)) result cursor.new
        (if_open room (reading.inner_either room) cursor.old) }
    ensures shorter { length cursor.new ≤ length cursor.old }
{
    if !open(cursor, room)? {
        return Ok(None);
    }
    let inner = inner(cursor, room)?;
    match cursor.expect(Mark::Sign(Sign::Close)) {
        Ok(()) => Ok(Some(inner)),
        Err(refusal) => {
            drop(inner);
            Err(refusal)
        }
    }
}

/// An expression or a condition in one more parenthesis.
#[cycle(conditions)]
fn inner(cursor: &mut Cursor<'_>, room: u32) -> Result<OrValue<Condition>, Refusal>
    ensures exact { Gives (or_value_view condition_view) result cursor.new
        (reading.inner_either room cursor.old) }
    ensures shorter { length cursor.new ≤ length cursor.old }
{
    if room == 0 {
        return Err(Refusal::PastLimit);
    }
    either(cursor, room - 1)
}

//! Reading COMPUTE.

ghost use Rattle.std.specs.Prelude.{IfSome, IfOk, length, ◌≡◌, ◌≤◌, ◌<◌, Ok};
ghost use Rattle.ss_words.specs.declared.mark.Mark.TheVariants as m;
ghost use Rattle.ss_words.specs.declared.word.Sign.TheVariants as s;
ghost use Rattle.ss_words.specs.Lists.{several_view};
ghost use Rattle.ss_words.specs.Reading.{Gives, option_view};
ghost use Rattle.ss_routines.specs.Combined.{by_table, if_mark, star, several};
ghost use Rattle.ss_routines.specs.LoopReading as reading;
ghost use Rattle.ss_routines.specs.PartView.{compute_view, computed_list_view, several_computed_view};
ghost use Rattle.ss_routines.specs.View.{computed_view};

use crate::reading::assignment::reference;
use crate::reading::expressions::expression;
use crate::tree::expr::Expr;
use crate::tree::place::Computed;
use ss_words::{Cursor, Mark, Plain, Refusal, Reserved, Several, Sign, Statistic};

/// The targets and the expression of a COMPUTE, after COMPUTE.
#[tactic(auto, unfolding(crate::proofs::Unfoldings::in_turn, crate::specs::LoopReading::compute_at))]
pub fn compute(cursor: &mut Cursor<'_>, room: u32) -> Result<(Several<Computed>, Expr), Refusal>
    ensures exact { Gives compute_view result cursor.new (reading.compute_at room cursor.old) }
    ensures shorter { length cursor.new ≤ length cursor.old }
{
    let targets = several_computed(cursor, room)?;
    cursor.expect(Mark::Reserved(Reserved::In))?;
    let value = expression(cursor, room)?;
    Ok((targets, value))
}

/// `computed {"," computed}`
#[tactic(auto, unfolding(crate::proofs::Unfoldings::in_turn, crate::specs::Combined::several))]
fn several_computed(cursor: &mut Cursor<'_>, room: u32) -> Result<Several<Computed>, Refusal>
    ensures exact { Gives several_computed_view result cursor.new
        (several (reading.computed_at room) cursor.old) }
    ensures shorter { length cursor.new ≤ length cursor.old }
{
    let first = computed(cursor, room)?;
    match other_computed(cursor, room) {
        Ok(others) => Ok(Several { first, others }),
        Err(refusal) => {
            drop(first);
            Err(refusal)
        }
    }
}

/// `{"," computed}`
fn other_computed(cursor: &mut Cursor<'_>, room: u32) -> Result<Vec<Computed>, Refusal>
    ensures exact { Gives computed_list_view result cursor.new
        (star (if_mark (m.Sign s.Comma) (reading.computed_at room)) cursor.old) }
    ensures shorter { length cursor.new ≤ length cursor.old }
{
    let mut targets = Vec::new(cursor.alloc());
    while let Some(target) = next_computed(cursor, room)? {
        targets.push(target)?;
    }
    Ok(targets)
}

/// A comma and a target with its statistic, or none.
#[tactic(auto, unfolding(crate::proofs::Unfoldings::steps, crate::specs::Combined::if_mark))]
fn next_computed(cursor: &mut Cursor<'_>, room: u32) -> Result<Option<Computed>, Refusal>
    ensures exact { Gives (option_view computed_view) result cursor.new
        (if_mark (m.Sign s.Comma) (reading.computed_at room) cursor.old) }
    ensures shorter { length cursor.new ≤ length cursor.old }
    ensures taken { IfOk result (λ o. IfSome o (λ _. length cursor.new < length cursor.old)) }
{
    if !cursor.eat(Mark::Sign(Sign::Comma)) {
        return Ok(None);
    }
    Ok(Some(computed(cursor, room)?))
}

/// `computed = reference AS (NUMBER | SUM | MAXIMUM | MINIMUM)`
#[tactic(auto, unfolding(crate::proofs::Unfoldings::choices, crate::specs::LoopReading::computed_at))]
fn computed(cursor: &mut Cursor<'_>, room: u32) -> Result<Computed, Refusal>
    ensures exact { Gives computed_view result cursor.new (reading.computed_at room cursor.old) }
    ensures shorter { length cursor.new ≤ length cursor.old }
{
    let target = reference(cursor, room)?;
    cursor.expect(Mark::Reserved(Reserved::As))?;
    let Some(statistic) = statistic(cursor) else {
        return Err(Refusal::Unexpected);
    };
    Ok(Computed { target, statistic })
}

/// The statistic that is here, if there is one.
#[tactic(auto, unfolding(crate::proofs::Unfoldings::steps_by_table))]
fn statistic(cursor: &mut Cursor<'_>) -> Option<Statistic>
    ensures exact { by_table reading.statistic_of cursor.old ≡ (Ok result, cursor.new) }
    ensures shorter { length cursor.new ≤ length cursor.old }
    ensures taken { IfSome result (λ _. length cursor.new < length cursor.old) }
{
    let statistic = match cursor.peek() {
        Some(Plain::Mark(Mark::Reserved(Reserved::Number))) => Statistic::Number,
        Some(Plain::Mark(Mark::Reserved(Reserved::Sum))) => Statistic::Sum,
        Some(Plain::Mark(Mark::Reserved(Reserved::Maximum))) => Statistic::Maximum,
        Some(Plain::Mark(Mark::Reserved(Reserved::Minimum))) => Statistic::Minimum,
        _ => return None,
    };
    cursor.pass();
    Some(statistic)
}

//! Reading the statements that read data or write to the report.

ghost use Rattle.std.specs.Prelude.{IfSome, IfOk, length, map, ◌≤◌, ◌<◌};
ghost use Rattle.ss_words.specs.declared.mark.Mark.TheVariants as m;
ghost use Rattle.ss_words.specs.declared.reserved.Reserved.TheVariants as r;
ghost use Rattle.ss_words.specs.Reading.{Gives, option_view};
ghost use Rattle.ss_routines.specs.Combined.{before};
ghost use Rattle.ss_routines.specs.ExprReading.{expr_at};
ghost use Rattle.ss_routines.specs.PartView.{values_view};
ghost use Rattle.ss_routines.specs.SimpleReading as reading;
ghost use Rattle.ss_routines.specs.SimpleReading.{list_behind};
ghost use Rattle.ss_routines.specs.View.{exchange_view};

use crate::reading::expressions::expression;
use crate::reading::lists::{expressions_behind, references};
use crate::tree::expr::Expr;
use crate::tree::simple::Exchange;
use ss_words::{Cursor, Mark, Refusal, Reserved};

/// `count LINES [WITH values] THUS` and the lines of the picture, after PRINT.
#[tactic(auto, unfolding(crate::proofs::Unfoldings::in_turn, crate::specs::SimpleReading::print_at))]
fn print(cursor: &mut Cursor<'_>, room: u32) -> Result<(u64, Vec<Expr>, Vec<Vec<u8>>), Refusal>
    ensures exact { Gives
        (λ x. (x.0, (values_view x.1, map (λ l. l.items) x.2.items))) result cursor.new
        (reading.print_at room cursor.old) }
    ensures shorter { length cursor.new ≤ length cursor.old }
{
    let count = cursor.number()?;
    cursor.expect(Mark::Reserved(Reserved::Lines))?;
    let values = printed_values(cursor, room)?;
    match cursor.picture() {
        Ok(picture) => Ok((count, values, picture)),
        Err(refusal) => {
            drop(values);
            Err(refusal)
        }
    }
}

/// `[WITH values] THUS`
#[tactic(auto, unfolding(crate::proofs::Unfoldings::in_turn))]
fn printed_values(cursor: &mut Cursor<'_>, room: u32) -> Result<Vec<Expr>, Refusal>
    ensures exact { Gives values_view result cursor.new
        (before (list_behind (m.Reserved r.With) (expr_at room)) (m.Reserved r.Thus) cursor.old) }
    ensures shorter { length cursor.new ≤ length cursor.old }
{
    let values = expressions_behind(cursor, Mark::Reserved(Reserved::With), room)?;
    match cursor.expect(Mark::Reserved(Reserved::Thus)) {
        Ok(()) => Ok(values),
        Err(refusal) => {
            drop(values);
            Err(refusal)
        }
    }
}

/// READ, PRINT or SKIP, if one is here.
#[tactic(auto, unfolding(crate::proofs::Unfoldings::choices, crate::specs::SimpleReading::exchange_at))]
pub fn exchange(cursor: &mut Cursor<'_>, room: u32) -> Result<Option<Exchange>, Refusal>
    ensures exact { Gives (option_view exchange_view) result cursor.new
        (reading.exchange_at room cursor.old) }
    ensures shorter { length cursor.new ≤ length cursor.old }
    ensures taken { IfOk result (λ o. IfSome o (λ _. length cursor.new < length cursor.old)) }
{
    if cursor.eat(Mark::Reserved(Reserved::Read)) {
        return Ok(Some(Exchange::Read(references(cursor, room)?)));
    }
    if cursor.eat(Mark::Reserved(Reserved::Print)) {
        let (count, values, picture) = print(cursor, room)?;
        return Ok(Some(Exchange::Print {
            count,
            values,
            picture,
        }));
    }
    if cursor.eat(Mark::Reserved(Reserved::Skip)) {
        let lines = expression(cursor, room)?;
        cursor.expect(Mark::Reserved(Reserved::Lines))?;
        return Ok(Some(Exchange::Skip(lines)));
    }
    Ok(None)
}

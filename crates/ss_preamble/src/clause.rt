//! Reading the clauses of EVERY and SYSTEM.
ghost use Rattle.std.specs.Prelude.{IfSome, IfOk, Some, length, map, ◌≤◌, ◌<◌};
ghost use Rattle.ss_words.specs.declared.mark.Mark.TheVariants as mark;
ghost use Rattle.ss_words.specs.Plain as plain;
ghost use Rattle.ss_words.specs.Reading.{Gives, option_view};
ghost use Rattle.ss_words.specs.Lists.{several_view};
ghost use Rattle.ss_preamble.specs.ItemReading as reading;
ghost use Rattle.ss_preamble.specs.View.{clause_view};

use crate::item::Clause;
use ss_words::{Cursor, Mark, Plain, Refusal, Reserved, Several};

/// `clause {clause}`
#[tactic(auto, unfolding(crate::proofs::Unfoldings::steps, crate::specs::ItemReading::clauses))]
pub fn clauses(cursor: &mut Cursor<'_>) -> Result<Several<Clause>, Refusal>
    ensures exact { Gives (several_view clause_view) result cursor.new
        (reading.clauses cursor.old) }
    ensures shorter { length cursor.new ≤ length cursor.old }
{
    let first = clause(cursor)?;
    let others = other_clauses(cursor)?;
    Ok(Several { first, others })
}

/// `clause`
#[tactic(auto, unfolding(crate::proofs::Unfoldings::steps, crate::specs::ItemReading::a_clause))]
fn clause(cursor: &mut Cursor<'_>) -> Result<Clause, Refusal>
    ensures exact { Gives clause_view result cursor.new (reading.a_clause cursor.old) }
    ensures shorter { length cursor.new ≤ length cursor.old }
{
    match next_clause(cursor)? {
        Some(clause) => Ok(clause),
        None => Err(Refusal::Unexpected),
    }
}

/// `{clause}`
fn other_clauses(cursor: &mut Cursor<'_>) -> Result<Vec<Clause>, Refusal>
    ensures exact { Gives (λ v. map clause_view v.items) result cursor.new
        (reading.other_clauses cursor.old) }
    ensures shorter { length cursor.new ≤ length cursor.old }
{
    let mut clauses = Vec::new(cursor.alloc());
    while let Some(clause) = next_clause(cursor)? {
        clauses.push(clause)?;
    }
    Ok(clauses)
}

/// `HAS names | OWNS names | BELONGS TO names`, or nothing if none of these words is here.
#[tactic(auto, unfolding(crate::proofs::Unfoldings::steps_by_word, crate::specs::ItemReading::next_clause))]
fn next_clause(cursor: &mut Cursor<'_>) -> Result<Option<Clause>, Refusal>
    ensures exact { Gives (option_view clause_view) result cursor.new
        (reading.next_clause cursor.old) }
    ensures shorter { length cursor.new ≤ length cursor.old }
    ensures taken { IfOk result (λ o. IfSome o (λ _. length cursor.new < length cursor.old)) }
{
    match cursor.peek() {
        Some(Plain::Mark(Mark::Reserved(word))) => clause_by(cursor, word),
        _ => Ok(None),
    }
}

/// The clause that begins with this word, the next one; nothing if none begins with it.
#[tactic(auto, unfolding(crate::proofs::Unfoldings::steps_by_word))]
fn clause_by(cursor: &mut Cursor<'_>, word: Reserved) -> Result<Option<Clause>, Refusal>
    requires { 0 < length cursor.now }
    ensures exact { Gives (option_view clause_view) result cursor.new
        (reading.clause_by (Some (plain.mark (mark.Reserved word))) cursor.old) }
    ensures shorter { length cursor.new ≤ length cursor.old }
    ensures taken { IfOk result (λ o. IfSome o (λ _. length cursor.new < length cursor.old)) }
{
    Ok(match word {
        Reserved::Has => {
            cursor.pass();
            Some(Clause::Has(cursor.names()?))
        }
        Reserved::Owns => {
            cursor.pass();
            Some(Clause::Owns(cursor.names()?))
        }
        Reserved::Belongs => {
            cursor.pass();
            cursor.expect(Mark::Reserved(Reserved::To))?;
            Some(Clause::BelongsTo(cursor.names()?))
        }
        _ => None,
    })
}

//! Reading the statements on events.

ghost use mathlib.Core.Logic.{inl};
ghost use Rattle.std.specs.Prelude.{IfSome, IfOk, length, ◌≤◌, ◌<◌};
ghost use Rattle.ss_words.specs.Reading.{Gives, option_view};
ghost use Rattle.ss_routines.specs.Combined.{made};
ghost use Rattle.ss_routines.specs.SimpleReading as reading;
ghost use Rattle.ss_routines.specs.View.{details_view, when_view, timing_view};

use crate::reading::assignment::{called, named};
use crate::reading::expressions::{arguments, expression};
use crate::reading::lists::expressions_behind;
use crate::tree::simple::{Article, Details, Timing, When};
use ss_words::{Cursor, Mark, Refusal, Reserved};

/// A or THE.
#[tactic(auto, unfolding(crate::proofs::Unfoldings::choices, crate::specs::SimpleReading::an_article))]
fn article(cursor: &mut Cursor<'_>) -> Result<Article, Refusal>
    ensures exact { Gives (λ a. a) result cursor.new (reading.an_article cursor.old) }
    ensures shorter { length cursor.new ≤ length cursor.old }
{
    if cursor.eat(Mark::Reserved(Reserved::A)) {
        return Ok(Article::A);
    }
    cursor.expect(Mark::Reserved(Reserved::The))?;
    Ok(Article::The)
}

/// `"(" expressions ")" [CALLED reference]`, or `[CALLED reference] [GIVEN expressions]`
#[tactic(auto, unfolding(crate::proofs::Unfoldings::choices, crate::specs::SimpleReading::details_at))]
fn details(cursor: &mut Cursor<'_>, room: u32) -> Result<Details, Refusal>
    ensures exact { Gives details_view result cursor.new (reading.details_at room cursor.old) }
    ensures shorter { length cursor.new ≤ length cursor.old }
{
    if let Some(values) = arguments(cursor, room)? {
        return match called(cursor, room) {
            Ok(called) => Ok(Details::ValuesFirst { values, called }),
            Err(refusal) => {
                drop(values);
                Err(refusal)
            }
        };
    }
    let called = called(cursor, room)?;
    match expressions_behind(cursor, Mark::Reserved(Reserved::Given), room) {
        Ok(values) => Ok(Details::CalledFirst { called, values }),
        Err(refusal) => {
            drop(called);
            Err(refusal)
        }
    }
}

/// `AT expression`, NOW, or `IN expression DAYS`
#[tactic(auto, unfolding(crate::proofs::Unfoldings::choices, crate::specs::SimpleReading::when_at))]
fn when(cursor: &mut Cursor<'_>, room: u32) -> Result<When, Refusal>
    ensures exact { Gives when_view result cursor.new (reading.when_at room cursor.old) }
    ensures shorter { length cursor.new ≤ length cursor.old }
{
    if cursor.eat(Mark::Reserved(Reserved::At)) {
        return Ok(When::At(expression(cursor, room)?));
    }
    if cursor.eat(Mark::Reserved(Reserved::Now)) {
        return Ok(When::Now);
    }
    cursor.expect(Mark::Reserved(Reserved::In))?;
    let delay = expression(cursor, room)?;
    match cursor.expect(Mark::Reserved(Reserved::Days)) {
        Ok(()) => Ok(When::In(delay)),
        Err(refusal) => {
            drop(delay);
            Err(refusal)
        }
    }
}

/// `(A | THE) name details when`, after SCHEDULE.
#[tactic(auto, unfolding(crate::proofs::Unfoldings::in_turn, crate::specs::SimpleReading::schedule_at))]
fn scheduled(cursor: &mut Cursor<'_>, room: u32) -> Result<Timing, Refusal>
    ensures exact { Gives timing_view result cursor.new
        (made (λ x. reading.timing_of (inl x)) (reading.schedule_at room) cursor.old) }
    ensures shorter { length cursor.new ≤ length cursor.old }
{
    let article = article(cursor)?;
    let event = cursor.name()?;
    let details = details(cursor, room)?;
    match when(cursor, room) {
        Ok(when) => Ok(Timing::Schedule {
            article,
            event,
            details,
            when,
        }),
        Err(refusal) => {
            drop(details);
            Err(refusal)
        }
    }
}

/// SCHEDULE, CANCEL or START SIMULATION, if one is here.
#[tactic(auto, unfolding(crate::proofs::Unfoldings::choices, crate::specs::SimpleReading::timing_at))]
pub fn timing(cursor: &mut Cursor<'_>, room: u32) -> Result<Option<Timing>, Refusal>
    ensures exact { Gives (option_view timing_view) result cursor.new
        (reading.timing_at room cursor.old) }
    ensures shorter { length cursor.new ≤ length cursor.old }
    ensures taken { IfOk result (λ o. IfSome o (λ _. length cursor.new < length cursor.old)) }
{
    if cursor.eat(Mark::Reserved(Reserved::Schedule)) {
        return Ok(Some(scheduled(cursor, room)?));
    }
    if cursor.eat(Mark::Reserved(Reserved::Cancel)) {
        let (event, called) = named(cursor, room)?;
        return Ok(Some(Timing::Cancel { event, called }));
    }
    if cursor.eat(Mark::Reserved(Reserved::Start)) {
        cursor.expect(Mark::Reserved(Reserved::Simulation))?;
        return Ok(Some(Timing::StartSimulation));
    }
    Ok(None)
}

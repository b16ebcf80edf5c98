//! Reading the question of an IF.

ghost use Rattle.std.specs.Prelude.{length, ◌≤◌};
ghost use Rattle.ss_words.specs.Reading.{Gives};
ghost use Rattle.ss_routines.specs.LoopReading as reading;
ghost use Rattle.ss_routines.specs.View.{question_view};

use crate::reading::conditions::condition;
use crate::tree::place::Question;
use ss_words::{Cursor, Mark, Refusal, Reserved};

/// FOUND, NONE or a condition, after IF.
#[tactic(auto, unfolding(crate::proofs::Unfoldings::choices, crate::specs::LoopReading::question_at))]
pub fn question(cursor: &mut Cursor<'_>, room: u32) -> Result<Question, Refusal>
    ensures exact { Gives question_view result cursor.new (reading.question_at room cursor.old) }
    ensures shorter { length cursor.new ≤ length cursor.old }
{
    if cursor.eat(Mark::Reserved(Reserved::Found)) {
        return Ok(Question::Found);
    }
    if cursor.eat(Mark::Reserved(Reserved::NoneFound)) {
        return Ok(Question::NoneFound);
    }
    let condition = condition(cursor, room)?;
    Ok(Question::Holds(Box::new(cursor.alloc(), condition)?))
}

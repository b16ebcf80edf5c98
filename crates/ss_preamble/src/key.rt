//! Reading the keys of a ranking.
ghost use Rattle.std.specs.Prelude.{IfSome, IfOk, length, map, ◌≤◌, ◌<◌};
ghost use Rattle.ss_words.specs.Reading.{Gives, option_view};
ghost use Rattle.ss_words.specs.Lists.{several_view};
ghost use Rattle.ss_preamble.specs.ItemReading as reading;
ghost use Rattle.ss_preamble.specs.View.{key_view};

use crate::item::Key;
use ss_words::{Cursor, Mark, Rank, Refusal, Reserved, Several};

/// `key {THEN key}`
#[tactic(auto, unfolding(crate::proofs::Unfoldings::steps, crate::specs::ItemReading::keys))]
pub fn keys(cursor: &mut Cursor<'_>) -> Result<Several<Key>, Refusal>
    ensures exact { Gives (several_view key_view) result cursor.new (reading.keys cursor.old) }
    ensures shorter { length cursor.new ≤ length cursor.old }
{
    let first = key(cursor)?;
    let others = other_keys(cursor)?;
    Ok(Several { first, others })
}

/// `{THEN key}`
fn other_keys(cursor: &mut Cursor<'_>) -> Result<Vec<Key>, Refusal>
    ensures exact { Gives (λ v. map key_view v.items) result cursor.new
        (reading.other_keys cursor.old) }
    ensures shorter { length cursor.new ≤ length cursor.old }
{
    let mut keys = Vec::new(cursor.alloc());
    while let Some(key) = next_key(cursor)? {
        keys.push(key)?;
    }
    Ok(keys)
}

/// THEN and a key, or nothing.
#[tactic(auto, unfolding(crate::proofs::Unfoldings::steps, crate::specs::ItemReading::next_key))]
fn next_key(cursor: &mut Cursor<'_>) -> Result<Option<Key>, Refusal>
    ensures exact { Gives (option_view key_view) result cursor.new (reading.next_key cursor.old) }
    ensures shorter { length cursor.new ≤ length cursor.old }
    ensures taken { IfOk result (λ o. IfSome o (λ _. length cursor.new < length cursor.old)) }
{
    if !cursor.eat(Mark::Reserved(Reserved::Then)) {
        return Ok(None);
    }
    Ok(Some(key(cursor)?))
}

/// `key = BY (HIGH | LOW) name`
#[tactic(auto, unfolding(crate::proofs::Unfoldings::steps, crate::specs::ItemReading::a_key))]
fn key(cursor: &mut Cursor<'_>) -> Result<Key, Refusal>
    ensures exact { Gives key_view result cursor.new (reading.a_key cursor.old) }
    ensures shorter { length cursor.new ≤ length cursor.old }
{
    cursor.expect(Mark::Reserved(Reserved::By))?;
    let rank = rank(cursor)?;
    let name = cursor.name()?;
    Ok(Key { rank, name })
}

/// `HIGH | LOW`
#[tactic(auto, unfolding(crate::proofs::Unfoldings::steps, crate::specs::ItemReading::a_rank))]
fn rank(cursor: &mut Cursor<'_>) -> Result<Rank, Refusal>
    ensures exact { Gives (λ b. b) result cursor.new (reading.a_rank cursor.old) }
    ensures shorter { length cursor.new ≤ length cursor.old }
{
    if cursor.eat(Mark::Reserved(Reserved::High)) {
        return Ok(Rank::High);
    }
    cursor.expect(Mark::Reserved(Reserved::Low))?;
    Ok(Rank::Low)
}

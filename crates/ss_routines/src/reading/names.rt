//! Reading lists of names with a limit on their number.

ghost use Rattle.std.specs.Prelude.{length, map, ◌≡◌, ◌≤◌};
ghost use Rattle.ss_words.specs.Lists.{several_view};
ghost use Rattle.ss_words.specs.Plain.{first};
ghost use Rattle.ss_words.specs.Reading.{Gives};
ghost use Rattle.ss_routines.specs.SectionReading as reading;
ghost use Rattle.ss_routines.specs.Tree.{listing_names};
ghost use Rattle.ss_routines.specs.View.{listing_view};

use crate::reading::lists::listed;
use crate::tree::simple::Listing;
use ss_words::{Cursor, Mark, Name, Plain, Refusal, Reserved, Several, Sign};

/// How the next word is refused if no more names may follow: `PastLimit` a name, `Unexpected`
/// anything else.
fn no_more_names(cursor: &Cursor<'_>) -> Refusal
    ensures { result ≡ reading.refusal_of (first cursor.now) }
{
    match cursor.peek() {
        Some(Plain::Name(_)) => Refusal::PastLimit,
        _ => Refusal::Unexpected,
    }
}

/// `{"," name}`, at most `room` names.
fn other_names(cursor: &mut Cursor<'_>, room: usize) -> Result<Vec<Name>, Refusal>
    ensures exact { Gives (λ v. v.items) result cursor.new (reading.others_at room cursor.old) }
    ensures shorter { length cursor.new ≤ length cursor.old }
{
    let mut names = Vec::new(cursor.alloc());
    while cursor.eat(Mark::Sign(Sign::Comma)) {
        if names.len() == room {
            return Err(no_more_names(cursor));
        }
        names.push(cursor.name()?)?;
    }
    Ok(names)
}

/// `name {"," name}`, at most `room` names.
fn names(cursor: &mut Cursor<'_>, room: usize) -> Result<Several<Name>, Refusal>
    ensures exact { Gives (several_view (λ n. n)) result cursor.new
        (reading.names_at room cursor.old) }
    ensures shorter { length cursor.new ≤ length cursor.old }
{
    if room == 0 {
        return Err(no_more_names(cursor));
    }
    let first = cursor.name()?;
    let others = other_names(cursor, room - 1)?;
    Ok(Several { first, others })
}

/// `[GIVEN names | "(" names ")"]`, at most `room` names.
#[tactic(auto, unfolding(crate::proofs::Unfoldings::steps, crate::specs::SectionReading::given_at))]
pub fn given(cursor: &mut Cursor<'_>, room: usize) -> Result<Listing<Name>, Refusal>
    ensures exact { Gives (listing_view (λ n. n)) result cursor.new
        (reading.given_at room cursor.old) }
    ensures shorter { length cursor.new ≤ length cursor.old }
{
    if cursor.eat(Mark::Reserved(Reserved::Given)) {
        return Ok(Listing::BehindGiven(names(cursor, room)?));
    }
    if !cursor.eat(Mark::Sign(Sign::Open)) {
        return Ok(Listing::Unwritten);
    }
    let names = names(cursor, room)?;
    cursor.expect(Mark::Sign(Sign::Close))?;
    Ok(Listing::InParentheses(names))
}

/// `[YIELDING names]`, at most `room` names; none if YIELDING is not here.
#[tactic(auto, unfolding(crate::proofs::Unfoldings::steps, crate::specs::SectionReading::yielded_at))]
pub fn yielded(cursor: &mut Cursor<'_>, room: usize) -> Result<Vec<Name>, Refusal>
    ensures exact { Gives (λ v. v.items) result cursor.new (reading.yielded_at room cursor.old) }
    ensures shorter { length cursor.new ≤ length cursor.old }
{
    if !cursor.eat(Mark::Reserved(Reserved::Yielding)) {
        return Ok(Vec::new(cursor.alloc()));
    }
    listed(names(cursor, room)?)
}

/// How many names are written.
pub fn count(names: &Listing<Name>) -> usize
    ensures { result ≡ length (listing_names (listing_view (λ n. n) names.now)) }
{
    match names {
        Listing::Unwritten => 0,
        Listing::BehindGiven(names) | Listing::InParentheses(names) => 1 + names.others.len(),
    }
}

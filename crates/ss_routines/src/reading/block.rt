//! Reading statements, and noting their places.

ghost use Rattle.std.specs.Prelude.{IfOk, IsTrue, length, ◌≤◌, ◌<◌};
ghost use Rattle.ss_words.specs.Plain.{word_lines};
ghost use Rattle.ss_words.specs.Reading.{Gives};
ghost use Rattle.ss_routines.specs.Combined as combined;
ghost use Rattle.ss_routines.specs.PlacesAtLines as places;
ghost use Rattle.ss_routines.specs.View.{phrase_view, spots};

use crate::reading::noted::{always, find, gather, next, note};
use crate::reading::phrases::phrase;
use crate::reading::question::question;
use crate::reading::statement::simple;
use crate::tree::place::{Branch, Loop, Phrase, Place, Spot};
use ss_words::{Cursor, Mark, PlainWord, Refusal, Reserved};

/// How many parentheses may be open at once, and how many more IFs and FOR phrases.
#[derive(Clone, Copy)]
pub struct Room {
    pub parentheses: u32,
    pub ifs: u32,
    pub phrases: u32,
}

/// Whether a mark is here, which is then passed; refused if no more of them may be open.
fn allowed(cursor: &mut Cursor<'_>, room: u32, mark: Mark) -> Result<bool, Refusal>
    ensures exact { Gives (λ b. b) result cursor.new (combined.eat_allowed room mark cursor.old) }
    ensures shorter { length cursor.new ≤ length cursor.old }
    ensures taken { IfOk result (λ b. IsTrue b → length cursor.new < length cursor.old) }
    ensures free { IfOk result (λ b. IsTrue b → 0 < room) }
{
    if room > 0 {
        return Ok(cursor.eat(mark));
    }
    if cursor.is_next(mark) {
        return Err(Refusal::PastLimit);
    }
    Ok(false)
}

/// `{statement}`: pushes the places of statements, as long as one begins.
#[cycle(statements)]
pub fn block(
    cursor: &mut Cursor<'_>,
    text: &[PlainWord<'_>],
    room: Room,
    out: &mut Vec<Spot>,
) -> Result<(), Refusal>
    ensures exact { Gives (λ u. spots out.new.items) result cursor.new
        (places.noting_statements (word_lines text.now) room.parentheses room.ifs room.phrases
        (spots out.old.items) cursor.old) }
    ensures shorter { length cursor.new ≤ length cursor.old }
{
    while statement(cursor, text, room, out)? {}
    Ok(())
}

/// Pushes the places of a statement, if one begins here.
#[cycle(statements)]
#[tactic(auto, unfolding(crate::proofs::Unfoldings::steps, crate::specs::PlacesAtLines::noting_statement))]
fn statement(
    cursor: &mut Cursor<'_>,
    text: &[PlainWord<'_>],
    room: Room,
    out: &mut Vec<Spot>,
) -> Result<bool, Refusal>
    ensures exact { Gives (λ b. (b, spots out.new.items)) result cursor.new
        (places.noting_statement (word_lines text.now) room.parentheses
        (places.noting_if (word_lines text.now) room.parentheses room.ifs room.phrases)
        (places.noting_loop (word_lines text.now) room.parentheses
        (places.noting_if (word_lines text.now) room.parentheses room.ifs) room.phrases)
        (spots out.old.items) cursor.old) }
    ensures shorter { length cursor.new ≤ length cursor.old }
    ensures taken { IfOk result (λ b. IsTrue b → length cursor.new < length cursor.old) }
{
    if one(cursor, text, room, out)? {
        return Ok(true);
    }
    for_loop(cursor, text, room, out)
}

/// Pushes the places of a statement that is no loop, if one begins here.
#[cycle(statements)]
#[tactic(auto, unfolding(crate::proofs::Notings::at_lines, crate::specs::PlacesAtLines::noting_one))]
fn one(
    cursor: &mut Cursor<'_>,
    text: &[PlainWord<'_>],
    room: Room,
    out: &mut Vec<Spot>,
) -> Result<bool, Refusal>
    ensures exact { Gives (λ b. (b, spots out.new.items)) result cursor.new
        (places.noting_one (word_lines text.now) room.parentheses
        (places.noting_if (word_lines text.now) room.parentheses room.ifs room.phrases)
        (places.noting_loop (word_lines text.now) room.parentheses
        (places.noting_if (word_lines text.now) room.parentheses room.ifs) room.phrases)
        (spots out.old.items) cursor.old) }
    ensures shorter { length cursor.new ≤ length cursor.old }
    ensures taken { IfOk result (λ b. IsTrue b → length cursor.new < length cursor.old) }
{
    let line = cursor.line(text);
    if let Some(statement) = simple(cursor, room.parentheses)? {
        note(out, line, Place::Simple(statement))?;
        return Ok(true);
    }
    branch(cursor, text, room, out)
}

/// Pushes the places of an IF statement, if one begins here.
#[cycle(statements)]
fn branch(
    cursor: &mut Cursor<'_>,
    text: &[PlainWord<'_>],
    room: Room,
    out: &mut Vec<Spot>,
) -> Result<bool, Refusal>
    ensures exact { Gives (λ b. (b, spots out.new.items)) result cursor.new
        (places.noting_if (word_lines text.now) room.parentheses room.ifs room.phrases
        (spots out.old.items) cursor.old) }
    ensures shorter { length cursor.new ≤ length cursor.old }
    ensures taken { IfOk result (λ b. IsTrue b → length cursor.new < length cursor.old) }
{
    let line = cursor.line(text);
    if !allowed(cursor, room.ifs, Mark::Reserved(Reserved::If))? {
        return Ok(false);
    }
    let inside = Room {
        ifs: room.ifs - 1,
        ..room
    };
    behind_if(cursor, text, line, inside, out)?;
    Ok(true)
}

/// `question {statement} [ELSE {statement}] ALWAYS`, after an IF in this line.
#[cycle(statements)]
fn behind_if(
    cursor: &mut Cursor<'_>,
    text: &[PlainWord<'_>],
    line: usize,
    room: Room,
    out: &mut Vec<Spot>,
) -> Result<(), Refusal>
    ensures exact { Gives (λ u. spots out.new.items) result cursor.new
        (places.noting_branch (word_lines text.now) room.parentheses
        (places.noting_statements (word_lines text.now) room.parentheses room.ifs room.phrases) line
        (spots out.old.items) cursor.old) }
    ensures shorter { length cursor.new ≤ length cursor.old }
{
    let question = question(cursor, room.parentheses)?;
    note(out, line, Place::Branch(Branch::If(question)))?;
    block(cursor, text, room, out)?;
    otherwise(cursor, text, room, out)?;
    always(cursor, text, out)
}

/// `[ELSE {statement}]`
#[cycle(statements)]
#[tactic(auto, unfolding(crate::proofs::Notings::at_lines, crate::specs::PlacesAtLines::noting_else))]
fn otherwise(
    cursor: &mut Cursor<'_>,
    text: &[PlainWord<'_>],
    room: Room,
    out: &mut Vec<Spot>,
) -> Result<(), Refusal>
    ensures exact { Gives (λ u. spots out.new.items) result cursor.new
        (places.noting_else (word_lines text.now) room.parentheses
        (places.noting_statements (word_lines text.now) room.parentheses room.ifs room.phrases)
        (spots out.old.items) cursor.old) }
    ensures shorter { length cursor.new ≤ length cursor.old }
{
    let line = cursor.line(text);
    if !cursor.eat(Mark::Reserved(Reserved::Else)) {
        return Ok(());
    }
    note(out, line, Place::Branch(Branch::Else))?;
    block(cursor, text, room, out)
}

/// Pushes the places of a loop, if one begins here.
#[cycle(statements)]
fn for_loop(
    cursor: &mut Cursor<'_>,
    text: &[PlainWord<'_>],
    room: Room,
    out: &mut Vec<Spot>,
) -> Result<bool, Refusal>
    ensures exact { Gives (λ b. (b, spots out.new.items)) result cursor.new
        (places.noting_loop (word_lines text.now) room.parentheses
        (places.noting_if (word_lines text.now) room.parentheses room.ifs) room.phrases
        (spots out.old.items) cursor.old) }
    ensures shorter { length cursor.new ≤ length cursor.old }
    ensures taken { IfOk result (λ b. IsTrue b → length cursor.new < length cursor.old) }
{
    let line = cursor.line(text);
    if !allowed(cursor, room.phrases, Mark::Reserved(Reserved::For))? {
        return Ok(false);
    }
    let phrase = phrase(cursor, room.parentheses)?;
    let inside = Room {
        phrases: room.phrases - 1,
        ..room
    };
    controlled(cursor, text, line, phrase, inside, out)?;
    Ok(true)
}

/// The part after a phrase, whose FOR is in this line.
#[cycle(statements)]
#[tactic(auto, unfolding(crate::proofs::Unfoldings::steps, crate::specs::PlacesAtLines::noting_controlled))]
fn controlled(
    cursor: &mut Cursor<'_>,
    text: &[PlainWord<'_>],
    line: usize,
    phrase: Phrase,
    room: Room,
    out: &mut Vec<Spot>,
) -> Result<(), Refusal>
    ensures exact { Gives (λ u. spots out.new.items) result cursor.new
        (places.noting_controlled (word_lines text.now) room.parentheses
        (places.noting_if (word_lines text.now) room.parentheses room.ifs room.phrases)
        (places.noting_loop (word_lines text.now) room.parentheses
        (places.noting_if (word_lines text.now) room.parentheses room.ifs) room.phrases)
        line (phrase_view phrase) (spots out.old.items) cursor.old) }
    ensures shorter { length cursor.new ≤ length cursor.old }
{
    let phrase = Box::new(cursor.alloc(), phrase)?;
    let repeats = cursor.eat(Mark::Reserved(Reserved::Do));
    note(out, line, Place::Loop(Loop::For { phrase, repeats }))?;
    if repeats {
        return repeated(cursor, text, room, out);
    }
    if for_loop(cursor, text, room, out)? {
        return Ok(());
    }
    last(cursor, text, room, out)
}

/// `{statement} LOOP`, after DO.
#[cycle(statements)]
fn repeated(
    cursor: &mut Cursor<'_>,
    text: &[PlainWord<'_>],
    room: Room,
    out: &mut Vec<Spot>,
) -> Result<(), Refusal>
    ensures exact { Gives (λ u. spots out.new.items) result cursor.new
        (places.noting_repeated (word_lines text.now) room.parentheses
        (places.noting_if (word_lines text.now) room.parentheses room.ifs room.phrases)
        (places.noting_loop (word_lines text.now) room.parentheses
        (places.noting_if (word_lines text.now) room.parentheses room.ifs) room.phrases)
        (spots out.old.items) cursor.old) }
    ensures shorter { length cursor.new ≤ length cursor.old }
{
    block(cursor, text, room, out)?;
    next(cursor, text, out)
}

/// `FIND FIRST CASE`, a COMPUTE, or one statement that is no loop.
#[cycle(statements)]
#[tactic(auto, unfolding(crate::proofs::Notings::last))]
fn last(
    cursor: &mut Cursor<'_>,
    text: &[PlainWord<'_>],
    room: Room,
    out: &mut Vec<Spot>,
) -> Result<(), Refusal>
    ensures exact { Gives (λ u. spots out.new.items) result cursor.new
        (places.noting_last (word_lines text.now) room.parentheses
        (places.noting_if (word_lines text.now) room.parentheses room.ifs room.phrases)
        (places.noting_loop (word_lines text.now) room.parentheses
        (places.noting_if (word_lines text.now) room.parentheses room.ifs) room.phrases)
        (spots out.old.items) cursor.old) }
    ensures shorter { length cursor.new ≤ length cursor.old }
{
    let line = cursor.line(text);
    if cursor.eat(Mark::Reserved(Reserved::Find)) {
        return find(cursor, line, out);
    }
    if cursor.eat(Mark::Reserved(Reserved::Compute)) {
        return gather(cursor, line, room.parentheses, out);
    }
    if one(cursor, text, room, out)? {
        return Ok(());
    }
    Err(Refusal::Unexpected)
}

//! Noting a place with its line, and reading the parts of statements that are noted by themselves.

ghost use Rattle.std.specs.Prelude.{IfOk, IfErr, length, [], ◌≡◌, ◌≤◌, ◌<◌, ◌∷◌, ◌++◌};
ghost use Rattle.ss_words.specs.declared.mark.Mark.TheVariants as m;
ghost use Rattle.ss_words.specs.declared.refusal.Refusal.TheVariants.{Memory};
ghost use Rattle.ss_words.specs.declared.reserved.Reserved.TheVariants as r;
ghost use Rattle.ss_words.specs.Marks.{expect};
ghost use Rattle.ss_words.specs.Noting.{here};
ghost use Rattle.ss_words.specs.Plain.{word_lines};
ghost use Rattle.ss_words.specs.Reading.{Gives, bind, pure};
ghost use Rattle.ss_routines.specs.Combined.{behind};
ghost use Rattle.ss_routines.specs.LoopReading.{compute_at};
ghost use Rattle.ss_routines.specs.Places as p;
ghost use Rattle.ss_routines.specs.PlacesAtLines.{noted_at};
ghost use Rattle.ss_routines.specs.View.{place_view, spots};

use crate::reading::compute::compute;
use crate::reading::find::first_case;
use crate::tree::place::{Branch, Loop, Place, Spot};
use ss_words::{Cursor, Mark, PlainWord, Refusal, Reserved};

/// Pushes a place in this line.
#[tactic(auto, using(crate::proofs::PushedPlaces::pushed))]
pub fn note(out: &mut Vec<Spot>, line: usize, place: Place) -> Result<(), Refusal>
    ensures noted { IfOk result (λ _.
        spots out.new.items ≡ spots out.old.items ++ noted_at line (place_view place) ∷ []) }
    ensures memory { IfErr result (λ e. e ≡ Memory) }
{
    out.push(Spot { line, place })?;
    Ok(())
}

/// ALWAYS, which ends an IF statement.
#[tactic(auto, unfolding(crate::proofs::Notings::at_lines))]
pub fn always(
    cursor: &mut Cursor<'_>,
    text: &[PlainWord<'_>],
    out: &mut Vec<Spot>,
) -> Result<(), Refusal>
    ensures exact { Gives (λ u. spots out.new.items) result cursor.new
        (here (word_lines text.now) (λ j.
        bind (expect (m.Reserved r.Always))
        (λ u. pure (spots out.old.items ++ noted_at j (p.Branches p.Always) ∷ [])))
        cursor.old) }
    ensures shorter { length cursor.new ≤ length cursor.old }
{
    let line = cursor.line(text);
    cursor.expect(Mark::Reserved(Reserved::Always))?;
    note(out, line, Place::Branch(Branch::Always))
}

/// LOOP, which ends a chain of FOR phrases with DO.
#[tactic(auto, unfolding(crate::proofs::Notings::at_lines))]
pub fn next(
    cursor: &mut Cursor<'_>,
    text: &[PlainWord<'_>],
    out: &mut Vec<Spot>,
) -> Result<(), Refusal>
    ensures exact { Gives (λ u. spots out.new.items) result cursor.new
        (here (word_lines text.now) (λ j.
        bind (expect (m.Reserved r.Loop))
        (λ u. pure (spots out.old.items ++ noted_at j (p.Loops p.Next) ∷ [])))
        cursor.old) }
    ensures shorter { length cursor.new ≤ length cursor.old }
{
    let line = cursor.line(text);
    cursor.expect(Mark::Reserved(Reserved::Loop))?;
    note(out, line, Place::Loop(Loop::Next))
}

/// END, which ends a section.
#[tactic(auto, unfolding(crate::proofs::Notings::at_lines))]
pub fn end(
    cursor: &mut Cursor<'_>,
    text: &[PlainWord<'_>],
    out: &mut Vec<Spot>,
) -> Result<(), Refusal>
    ensures exact { Gives (λ u. spots out.new.items) result cursor.new
        (here (word_lines text.now) (λ j.
        bind (expect (m.Reserved r.End))
        (λ u. pure (spots out.old.items ++ noted_at j p.EndOfSection ∷ [])))
        cursor.old) }
    ensures shorter { length cursor.new ≤ length cursor.old }
{
    let line = cursor.line(text);
    cursor.expect(Mark::Reserved(Reserved::End))?;
    note(out, line, Place::End)
}

/// `FIRST CASE`, after a FIND in this line.
#[tactic(auto, unfolding(crate::proofs::Unfoldings::steps))]
pub fn find(cursor: &mut Cursor<'_>, line: usize, out: &mut Vec<Spot>) -> Result<(), Refusal>
    ensures exact { Gives (λ u. spots out.new.items) result cursor.new
        (bind (behind (m.Reserved r.First) (behind (m.Reserved r.Case) (pure (tt {0}))))
        (λ u. pure (spots out.old.items ++ noted_at line (p.Loops p.Find) ∷ [])) cursor.old) }
    ensures shorter { length cursor.new ≤ length cursor.old }
{
    first_case(cursor)?;
    note(out, line, Place::Loop(Loop::Find))
}

/// The targets and the expression of a COMPUTE, after a COMPUTE in this line.
#[tactic(auto, unfolding(crate::proofs::Unfoldings::steps))]
pub fn gather(
    cursor: &mut Cursor<'_>,
    line: usize,
    room: u32,
    out: &mut Vec<Spot>,
) -> Result<(), Refusal>
    ensures exact { Gives (λ u. spots out.new.items) result cursor.new
        (bind (compute_at room)
        (λ x. pure (spots out.old.items ++ noted_at line (p.Loops (p.Gather x.1)) ∷
        noted_at line (p.Loops (p.Compute x.0)) ∷ [])) cursor.old) }
    ensures shorter { length cursor.new ≤ length cursor.old }
{
    let (targets, value) = compute(cursor, room)?;
    note(out, line, Place::Loop(Loop::Gather(value)))?;
    note(out, line, Place::Loop(Loop::Compute(targets)))
}

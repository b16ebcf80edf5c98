//! Reading FIND FIRST CASE.

ghost use Rattle.std.specs.Prelude.{length, ◌≤◌};
ghost use Rattle.ss_words.specs.declared.mark.Mark.TheVariants as m;
ghost use Rattle.ss_words.specs.declared.reserved.Reserved.TheVariants as r;
ghost use Rattle.ss_words.specs.Reading.{Gives, pure};
ghost use Rattle.ss_routines.specs.Combined.{behind};

use ss_words::{Cursor, Mark, Refusal, Reserved};

/// `FIRST CASE`, after FIND.
#[tactic(auto, unfolding(crate::proofs::Unfoldings::steps, crate::specs::Combined::behind))]
pub fn first_case(cursor: &mut Cursor<'_>) -> Result<(), Refusal>
    ensures exact { Gives (λ u. tt) result cursor.new
        (behind (m.Reserved r.First) (behind (m.Reserved r.Case) (pure (tt {0}))) cursor.old) }
    ensures shorter { length cursor.new ≤ length cursor.old }
{
    cursor.expect(Mark::Reserved(Reserved::First))?;
    cursor.expect(Mark::Reserved(Reserved::Case))?;
    Ok(())
}

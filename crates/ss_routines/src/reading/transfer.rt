//! Reading the statements that leave their place.

ghost use Rattle.std.specs.Prelude.{IfSome, IfOk, length, ◌≤◌, ◌<◌};
ghost use Rattle.ss_words.specs.Reading.{Gives, option_view};
ghost use Rattle.ss_routines.specs.SimpleReading as reading;
ghost use Rattle.ss_routines.specs.View.{transfer_view};

use crate::reading::lists::{references_behind, values};
use crate::tree::simple::Transfer;
use ss_words::{Cursor, Mark, Refusal, Reserved};

/// CALL, RETURN or STOP, if one is here.
#[tactic(auto, unfolding(crate::proofs::Unfoldings::transfers))]
pub fn transfer(cursor: &mut Cursor<'_>, room: u32) -> Result<Option<Transfer>, Refusal>
    ensures exact { Gives (option_view transfer_view) result cursor.new
        (reading.transfer_at room cursor.old) }
    ensures shorter { length cursor.new ≤ length cursor.old }
    ensures taken { IfOk result (λ o. IfSome o (λ _. length cursor.new < length cursor.old)) }
{
    if cursor.eat(Mark::Reserved(Reserved::Call)) {
        let routine = cursor.name()?;
        let values = values(cursor, room)?;
        return match references_behind(cursor, Mark::Reserved(Reserved::Yielding), room) {
            Ok(targets) => Ok(Some(Transfer::Call {
                routine,
                values,
                targets,
            })),
            Err(refusal) => {
                drop(values);
                Err(refusal)
            }
        };
    }
    if cursor.eat(Mark::Reserved(Reserved::Return)) {
        return Ok(Some(Transfer::Return));
    }
    if cursor.eat(Mark::Reserved(Reserved::Stop)) {
        return Ok(Some(Transfer::Stop));
    }
    Ok(None)
}

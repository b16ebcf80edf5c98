//! The trait of states that take back their own changes, and the roll back of an open step.
ghost use Rattle.std.specs.Prelude.{◌≡◌, ◌+◌, [], length};
ghost use Rattle.ss_journal.specs.Undoing.{unapply_all, FitsAll};

use crate::Journal;

/// A state that can take back its own changes.
pub trait Undo {
    /// The note of one change, enough to take it back.
    type Change;

    /// That a change can be taken back from a state.
    ghost fits: { Self.Change → Self → Type 0 };

    /// The state before a change, from the change and the state after it.
    ghost unapply: { Self.Change → Self → Self };

    /// Takes back a change that fits. It takes no memory.
    fn undo(&mut self, change: Self::Change)
        requires { fits change self.old }
        ensures { self.new ≡ unapply change self.old };
}

/// Takes back all changes of the open step, the newest first. It takes no memory.
///
/// The journal's open step is then empty, and the room of its notes is free again.
pub fn roll_back<U: Undo>(target: &mut U, journal: &mut Journal<U::Change>)
    requires { FitsAll U.fits U.unapply journal.old.current target.old }
    ensures target { target.new ≡ unapply_all U.unapply journal.old.current target.old }
    ensures steps { journal.new.steps ≡ journal.old.steps }
    ensures current { journal.new.current ≡ [] }
    ensures notes { journal.new.notes ≡ journal.old.notes + length journal.old.current }
    ensures closes { journal.new.closes ≡ journal.old.closes }
{
    while let Some(change) = journal.pop_open() {
        target.undo(change);
    }
}

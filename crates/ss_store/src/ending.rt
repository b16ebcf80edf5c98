//! Entities ended, and the calls that bring them back.
ghost use Rattle.std.specs.Prelude.{◌≡◌, ◌<◌, ◌+◌, ◌==◌, ◌&&◌, ℕ, length, false, is_some};
ghost use Rattle.std.specs.List.{list_any};
ghost use Rattle.ss_links.specs.Board.{head_of, list_at};
ghost use Rattle.ss_store.specs.declared.shape.SetShape.{SetShape as ASet};
ghost use Rattle.ss_store.specs.Tables.{class_of};
ghost use Rattle.ss_store.specs.Store as pure;
ghost use Rattle.ss_store.specs.Store.{is_filled, without_entity, with_back, entity_back};
ghost use Rattle.ss_store.specs.Parts.{owned_from};
ghost use Rattle.ss_store.specs.Tables.{IsSet};
ghost use Rattle.ss_store.specs.Change.{FitsEnded, IsOutcome};

use crate::change::StoreChange;
use crate::places::{known, number_of_value, row_of};
use crate::shape::SetShape;
use crate::store::Store;
use ss_links::SetBoard;
use ss_words::RunFault;

/// Whether an entity of a class, whose seats begin at this one, is in a list.
fn stands_anywhere<S: SetBoard>(board: &S, sets: &[SetShape], class: usize, seat: u32) -> bool
    requires { (s : ASet) → IsSet sets.now s → s.member ≡ class
        → seat + s.slot < (S.board board.now).seats }
    ensures { result
        ≡ list_any (λ s. (s.member == class)
        && is_some (head_of (S.board board.now).lists (seat + s.slot))) sets.now }
{
    known(board);
    for set in sets {
        if set.member == class && board.place(seat + set.slot).is_some() {
            return true;
        }
    }
    false
}

/// Whether one of `lists` lists, from that of this head on, has members.
fn has_members<S: SetBoard>(board: &S, head: u32, lists: u32) -> bool
    requires { (k : ℕ) → k < lists → head + k < length (S.board board.now).lists }
    ensures { result
        ≡ list_any is_filled (owned_from (list_at (S.board board.now).lists) head lists) }
{
    known(board);
    for list in 0..lists {
        if board.first(head + list).is_some() {
            return true;
        }
    }
    false
}

impl<S: SetBoard> Store<S> {
    /// Ends an entity of a temporary or event class. Its reference is never given again.
    ///
    /// Faults, which change nothing: F3 if it does not exist; F7 if it is in a list of a set; F8 if
    /// a set that it owns has members.
    pub fn destroy(&mut self, class: usize, entity: i64) -> Result<StoreChange, RunFault>
        requires class { class < length self.old.tables.classes }
        requires kind { (class_of self.old.tables class).permanent ≡ false }
        ensures { IsOutcome result
            (without_entity self.old.tables self.old.state class (pure.number_of entity))
            self.old self.new }
    {
        let shape = self.classes[class];
        let number = number_of_value(entity);
        let row = match row_of(&self.entities, class, number) {
            None => return Err(RunFault::NoEntity),
            Some(row) => row,
        };
        if stands_anywhere(&self.board, &self.sets, class, row.seat) {
            return Err(RunFault::EndedInUse);
        }
        if has_members(&self.board, row.head, shape.owned) {
            return Err(RunFault::EndedOwner);
        }
        let index = number - 1;
        let values = self.entities.take_values(false, class, index).unwrap();
        Ok(StoreChange::Ended {
            class,
            number,
            owned: shape.owned,
            values,
        })
    }

    /// Brings an entity back that has ended, with these values of its attributes.
    pub(crate) fn bring_back(&mut self, class: usize, number: usize, values: Vec<i64>)
        requires { FitsEnded self.old class number
            (class_of self.old.tables class).owned values.items }
        ensures { self.new ≡ record {
          tables = self.old.tables;
          state = with_back self.old.state number
              (entity_back class (class_of self.old.tables class).owned values.items);
          kept = self.old.kept;
        } }
    {
        let index = number - 1;
        self.entities.put_values(false, class, index, values);
        self.search.forget();
    }
}

//! Attributes written.
ghost use Rattle.std.specs.Prelude.{◌+◌, ◌==◌, ◌&&◌, is_some};
ghost use Rattle.std.specs.List.{list_any};
ghost use Rattle.ss_links.specs.Board.{head_of};
ghost use Rattle.ss_store.specs.declared.shape.SetShape.{SetShape as ASet};
ghost use Rattle.ss_store.specs.Order as order;
ghost use Rattle.ss_store.specs.Tables.{IsSet};
ghost use Rattle.std.specs.Prelude.{◌≡◌, ◌<◌, ℤ, List, pos, length, true, slice_get, slice_index_or, slice_set, Some};
ghost use Rattle.ss_store.specs.Rows.{rows_in, values_of};
ghost use Rattle.ss_store.specs.Making.{with_table, numbering_by};
ghost use Rattle.ss_store.specs.Writing.{with_values};
ghost use Rattle.ss_store.specs.Store as pure;
ghost use Rattle.ss_store.specs.Change.{IsOutcome};

use crate::change::StoreChange;
use crate::places::{known, number_of_value, row_of};
use crate::ranking::value_at;
use crate::rows::Entities;
use crate::shape::SetShape;
use crate::store::Store;
use ss_links::SetBoard;
use ss_program::{Discipline, Key};
use ss_words::RunFault;

/// An entity, by its index in its numbering.
#[derive(Clone, Copy)]
pub(crate) struct EntityAt {
    /// Whether the numbering is that of its class, and not that of references.
    pub(crate) permanent: bool,
    pub(crate) class: usize,
    pub(crate) index: usize,
}

/// Gives an attribute of an entity another value; answers the old one.
#[inline(always)]
pub(crate) fn replace(entities: &mut Entities, at: EntityAt, attribute: usize, value: i64) -> i64
    requires there { at.permanent ≡ true → at.class < length entities.old.made }
    requires living { (v : List ℤ)
        × (slice_get (rows_in entities.old (numbering_by at.permanent at.class)).values at.index
        ≡ Some (Some v)) }
    ensures value { (v : List ℤ)
        → slice_get (rows_in entities.old (numbering_by at.permanent at.class)).values at.index
        ≡ Some (Some v)
        → result ≡ slice_index_or v attribute (pos 0) }
    ensures rows { (v : List ℤ)
        → slice_get (rows_in entities.old (numbering_by at.permanent at.class)).values at.index
        ≡ Some (Some v)
        → entities.new ≡ with_table (with_values at.index (Some (slice_set v attribute value)))
        entities.old (numbering_by at.permanent at.class) }
{
    let mut values = entities
        .take_values(at.permanent, at.class, at.index)
        .unwrap();
    let old = value_at(&values, attribute);
    if attribute < values.len() {
        values[attribute] = value;
    }
    entities.put_values(at.permanent, at.class, at.index, values);
    old
}

/// Whether an attribute is one of these keys.
fn has_key(keys: &[Key], attribute: usize) -> bool
    ensures { result ≡ list_any (λ k. k.attribute == attribute) keys.now }
{
    for key in keys {
        if key.attribute == attribute {
            return true;
        }
    }
    false
}

/// Whether an attribute is a key of the ranking of a set.
fn is_key(set: &SetShape, attribute: usize) -> bool
    ensures { result ≡ order.is_key set.now attribute }
{
    match &set.discipline {
        Discipline::Ranked(keys) => has_key(&keys.list, attribute),
        _ => false,
    }
}

/// Whether an entity of a class, whose seats begin at this one, is in a list that this attribute
/// ranks.
fn is_ranked_by<S: SetBoard>(
    board: &S,
    sets: &[SetShape],
    class: usize,
    seat: u32,
    attribute: usize,
) -> bool
    requires { (s : ASet) → IsSet sets.now s → s.member ≡ class
        → seat + s.slot < (S.board board.now).seats }
    ensures { result
        ≡ list_any (λ s. (s.member == class) && order.is_key s attribute
        && is_some (head_of (S.board board.now).lists (seat + s.slot))) sets.now }
{
    known(board);
    for set in sets {
        if set.member == class && is_key(set, attribute) && board.place(seat + set.slot).is_some() {
            return true;
        }
    }
    false
}

impl<S: SetBoard> Store<S> {
    /// Gives an attribute of an entity, by its number in the class, another value; F3 if the entity
    /// does not exist, and then nothing changes.
    #[inline(always)]
    pub fn set(
        &mut self,
        class: usize,
        attribute: usize,
        entity: i64,
        value: i64,
    ) -> Result<StoreChange, RunFault>
        requires { class < length self.old.tables.classes }
        ensures { IsOutcome result
            (pure.with_attribute self.old.state class attribute (pure.number_of entity) value)
            self.old self.new }
    {
        let shape = self.classes[class];
        let number = number_of_value(entity);
        let row = match row_of(&self.entities, class, number) {
            None => return Err(RunFault::NoEntity),
            Some(row) => row,
        };
        let ranked = is_ranked_by(&self.board, &self.sets, class, row.seat, attribute);
        let at = EntityAt {
            permanent: shape.permanent,
            class,
            index: number - 1,
        };
        let old = replace(&mut self.entities, at, attribute, value);
        self.search.forget_if(ranked);
        Ok(StoreChange::AttributeSet {
            class,
            attribute,
            number,
            old,
        })
    }

    /// Gives an attribute of an entity that exists another value.
    pub(crate) fn reset(&mut self, class: usize, attribute: usize, number: usize, value: i64)
        requires class { class < length self.old.tables.classes }
        requires number { 0 < number }
        requires there { pure.exists self.old.state class number ≡ true }
        ensures { self.new ≡ record {
          tables = self.old.tables;
          state = pure.with_changed (pure.with_value attribute value) self.old.state class number;
          kept = self.old.kept;
        } }
    {
        let shape = self.classes[class];
        let at = EntityAt {
            permanent: shape.permanent,
            class,
            index: number - 1,
        };
        replace(&mut self.entities, at, attribute, value);
        self.search.forget();
    }
}

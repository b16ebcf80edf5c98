//! The calls that read: entities, attributes, and the lists of the sets.
ghost use Rattle.std.specs.Prelude.{◌≡◌, ◌<◌, length, option_map};
ghost use Rattle.ss_store.specs.Tables.{set_of};
ghost use Rattle.ss_store.specs.WellStore.{IsWellStore};
ghost use Rattle.ss_store.specs.Store as pure;
ghost use Rattle.ss_store.specs.Filing.{is_in, count, walk_first, walk_last, walk_next};
ghost use Rattle.ss_store.specs.Filing.{walk_prev, predecessor, successor, membership, AreNeighbours};

use crate::places::{
    greatest_number, head_of, known, member_if, number_of_value, row_of, seat_in, seat_of,
};
use crate::ranking::{value_at, values_of};
use crate::shape::Neighbours;
use crate::store::Store;
use ss_links::SetBoard;
use ss_words::RunFault;

impl<S: SetBoard> Store<S> {
    /// Gives its caller the fact that the store is well-formed.
    pub fn known(&self)
        ensures { IsWellStore self.now.tables self.now.state }
    {
        // The store's invariant is known once a field is read.
        let _ = &self.entities;
    }

    /// Whether there is an entity of this class with this number.
    pub fn exists(&self, class: usize, entity: i64) -> bool
        ensures { result ≡ pure.exists self.now.state class (pure.number_of entity) }
    {
        row_of(&self.entities, class, number_of_value(entity)).is_some()
    }

    /// A number that no entity of this class is past. References count though their entities have
    /// ended.
    pub fn greatest_number(&self, class: usize) -> u32
        ensures { result ≡ pure.greatest_number self.now.state class }
    {
        greatest_number(&self.entities, class) as u32
    }

    /// The value of an attribute, by its number in the class; F3 if the entity does not exist.
    pub fn get(&self, class: usize, attribute: usize, entity: i64) -> Result<i64, RunFault>
        ensures { result
            ≡ pure.attribute_of self.now.state class attribute (pure.number_of entity) }
    {
        match values_of(&self.entities, class, number_of_value(entity)) {
            None => Err(RunFault::NoEntity),
            Some(values) => Ok(value_at(values, attribute)),
        }
    }

    /// The values of all attributes of an entity, by one look for it, if it exists.
    pub fn attributes(&self, class: usize, entity: i64) -> Option<&[i64]>
        ensures { option_map (λ values. values.now) result
            ≡ pure.attributes_of self.now.state class (pure.number_of entity) }
    {
        let number = number_of_value(entity);
        values_of(&self.entities, class, number)
    }

    /// The number of members in the list of a set for this owner; F3 if the owner does not exist.
    pub fn count(&self, set: usize, owner: i64) -> Result<u32, RunFault>
        requires { set < length self.now.tables.sets }
        ensures { result
            ≡ count (set_of self.now.tables set) self.now.state (pure.number_of owner) }
    {
        let shape = &self.sets[set];
        known(&self.board);
        match head_of(&self.entities, shape, number_of_value(owner)) {
            None => Err(RunFault::NoEntity),
            Some(head) => Ok(self.board.len(head)),
        }
    }

    /// The first member of the list of a set for this owner, or none; F3 if the owner does not
    /// exist.
    pub fn walk_first(&self, set: usize, owner: i64) -> Result<Option<u32>, RunFault>
        requires { set < length self.now.tables.sets }
        ensures { result
            ≡ walk_first (set_of self.now.tables set) self.now.state (pure.number_of owner) }
    {
        let shape = &self.sets[set];
        known(&self.board);
        match head_of(&self.entities, shape, number_of_value(owner)) {
            None => Err(RunFault::NoEntity),
            Some(head) => {
                let first = self.board.first(head);
                Ok(member_if(&self.numbers, first))
            }
        }
    }

    /// The last member of the list of a set for this owner, or none; F3 if the owner does not
    /// exist.
    pub fn walk_last(&self, set: usize, owner: i64) -> Result<Option<u32>, RunFault>
        requires { set < length self.now.tables.sets }
        ensures { result
            ≡ walk_last (set_of self.now.tables set) self.now.state (pure.number_of owner) }
    {
        let shape = &self.sets[set];
        known(&self.board);
        match head_of(&self.entities, shape, number_of_value(owner)) {
            None => Err(RunFault::NoEntity),
            Some(head) => {
                let last = self.board.last(head);
                Ok(member_if(&self.numbers, last))
            }
        }
    }

    /// Whether a member is in the list of a set for this owner; F3 if the owner or the member does
    /// not exist.
    pub fn is_in(&self, set: usize, owner: i64, member: i64) -> Result<bool, RunFault>
        requires { set < length self.now.tables.sets }
        ensures { result ≡ is_in (set_of self.now.tables set) self.now.state (pure.number_of owner)
            (pure.number_of member) }
    {
        let shape = &self.sets[set];
        known(&self.board);
        match seat_in(
            &self.entities,
            &self.board,
            shape,
            number_of_value(owner),
            number_of_value(member),
        ) {
            Err(fault) => Err(fault),
            Ok(None) => Ok(false),
            Ok(Some(_)) => Ok(true),
        }
    }

    /// The member directly after one of the list of a set for this owner, or none if that is the
    /// last.
    ///
    /// Faults: F3 if the owner or the member does not exist; F14 if the member is not in the list.
    pub fn walk_next(&self, set: usize, owner: i64, member: i64) -> Result<Option<u32>, RunFault>
        requires { set < length self.now.tables.sets }
        ensures { result
            ≡ walk_next (set_of self.now.tables set) self.now.state (pure.number_of owner)
            (pure.number_of member) }
    {
        let shape = &self.sets[set];
        known(&self.board);
        match seat_in(
            &self.entities,
            &self.board,
            shape,
            number_of_value(owner),
            number_of_value(member),
        ) {
            Err(fault) => Err(fault),
            Ok(None) => Err(RunFault::MemberLeft),
            Ok(Some(seat)) => {
                let next = self.board.next(seat);
                Ok(member_if(&self.numbers, next))
            }
        }
    }

    /// The member directly before one of the list of a set for this owner, or none if that is the
    /// first.
    ///
    /// Faults: F3 if the owner or the member does not exist; F14 if the member is not in the list.
    pub fn walk_prev(&self, set: usize, owner: i64, member: i64) -> Result<Option<u32>, RunFault>
        requires { set < length self.now.tables.sets }
        ensures { result
            ≡ walk_prev (set_of self.now.tables set) self.now.state (pure.number_of owner)
            (pure.number_of member) }
    {
        let shape = &self.sets[set];
        known(&self.board);
        match seat_in(
            &self.entities,
            &self.board,
            shape,
            number_of_value(owner),
            number_of_value(member),
        ) {
            Err(fault) => Err(fault),
            Ok(None) => Err(RunFault::MemberLeft),
            Ok(Some(seat)) => {
                let before = self.board.prev(seat);
                Ok(member_if(&self.numbers, before))
            }
        }
    }

    /// `P.s`: the member directly before one in the list that holds it, or none if it is the first
    /// or in no list; F3 if it does not exist.
    pub fn predecessor(&self, set: usize, member: i64) -> Result<Option<u32>, RunFault>
        requires { set < length self.now.tables.sets }
        ensures { result
            ≡ predecessor (set_of self.now.tables set) self.now.state (pure.number_of member) }
    {
        let shape = &self.sets[set];
        known(&self.board);
        match seat_of(&self.entities, shape, number_of_value(member)) {
            None => Err(RunFault::NoEntity),
            Some(seat) => {
                let earlier = self.board.prev(seat);
                Ok(member_if(&self.numbers, earlier))
            }
        }
    }

    /// `S.s`: the member directly after one in the list that holds it, or none if it is the last or
    /// in no list; F3 if it does not exist.
    pub fn successor(&self, set: usize, member: i64) -> Result<Option<u32>, RunFault>
        requires { set < length self.now.tables.sets }
        ensures { result
            ≡ successor (set_of self.now.tables set) self.now.state (pure.number_of member) }
    {
        let shape = &self.sets[set];
        known(&self.board);
        match seat_of(&self.entities, shape, number_of_value(member)) {
            None => Err(RunFault::NoEntity),
            Some(seat) => {
                let later = self.board.next(seat);
                Ok(member_if(&self.numbers, later))
            }
        }
    }

    /// `M.s`: whether an entity is in a list of the set; F3 if it does not exist.
    pub fn membership(&self, set: usize, member: i64) -> Result<bool, RunFault>
        requires { set < length self.now.tables.sets }
        ensures { result
            ≡ membership (set_of self.now.tables set) self.now.state (pure.number_of member) }
    {
        let shape = &self.sets[set];
        known(&self.board);
        match seat_of(&self.entities, shape, number_of_value(member)) {
            None => Err(RunFault::NoEntity),
            Some(seat) => Ok(self.board.place(seat).is_some()),
        }
    }

    /// `P.s`, `S.s` and `M.s` of an entity, by one look for it; F3 if it does not exist.
    pub fn neighbours(&self, set: usize, member: i64) -> Result<Neighbours, RunFault>
        requires { set < length self.now.tables.sets }
        ensures { AreNeighbours (set_of self.now.tables set) self.now.state (pure.number_of member)
            result }
    {
        let shape = &self.sets[set];
        known(&self.board);
        match seat_of(&self.entities, shape, number_of_value(member)) {
            None => Err(RunFault::NoEntity),
            Some(seat) => {
                let earlier = self.board.prev(seat);
                let later = self.board.next(seat);
                let before = member_if(&self.numbers, earlier);
                let behind = member_if(&self.numbers, later);
                let is_filed = self.board.place(seat).is_some();
                Ok(Neighbours {
                    before,
                    behind,
                    is_filed,
                })
            }
        }
    }
}

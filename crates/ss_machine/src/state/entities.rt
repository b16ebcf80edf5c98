//! The entities of a state, and its sets.
ghost use Rattle.std.specs.Prelude.{◌≡◌, ◌<◌, ◌≤◌, length, true, OnOk, IfOk, IfErr, false, Ok, map};
ghost use Rattle.ss_store.specs.Tables.{class_of, set_of};
ghost use Rattle.ss_values.specs.Values.{FaultIs};
ghost use Rattle.ss_store.specs.Store as entities;
ghost use Rattle.ss_store.specs.Store.{number_of};
ghost use Rattle.ss_store.specs.Filing.{after_filing, after_removing};
ghost use Rattle.std.specs.List.{range_with_len};
ghost use Rattle.ss_state.specs.Statements.{entity_named};
ghost use Rattle.ss_state.specs.Statements.Timing.{attributes_now};
ghost use Rattle.ss_machine.specs.Storing.{IsStoring, IsRemoving, IsCreating, IsMakingAll};

use crate::state::State;
use crate::state::change::Change;
use ss_links::SetBoard;
use ss_program::Keys;
use ss_store::{How, Store, Which};
use ss_words::limits::MOST_REFERENCES;
use ss_words::{RunFault, StepFault};

impl<S: SetBoard> State<S> {
    /// Gives an attribute of an entity another value, or F3; then nothing has changed.
    #[inline(always)]
    pub fn set_attribute(
        &mut self,
        class: usize,
        attribute: usize,
        entity: i64,
        value: i64,
    ) -> Result<Change, RunFault>
        requires { class < length self.old.beside.tables.classes }
        ensures { IsStoring result
            (entities.with_attribute self.old.state.store class attribute
            (number_of entity) value) self.old self.new }
    {
        match self.store.set(class, attribute, entity, value) {
            Ok(change) => Ok(Change::Store(change)),
            Err(fault) => Err(fault),
        }
    }

    /// Makes an entity of a temporary or event class, and gives its reference. After F20 and want
    /// of memory nothing has changed.
    #[inline(always)]
    pub fn create(&mut self, class: usize) -> Result<(u32, Change), StepFault>
        requires class { class < length self.old.beside.tables.classes }
        requires kind { (class_of self.old.beside.tables class).permanent ≡ false }
        ensures { IsCreating result
            (entities.with_new self.old.state.store class
            (class_of self.old.beside.tables class)) self.old self.new }
    {
        match self.store.create(class) {
            Ok((number, change)) => Ok((number, Change::Store(change))),
            Err(fault) => Err(fault),
        }
    }

    /// Makes the entities of a permanent class. After F12, F13 and want of memory nothing has
    /// changed.
    pub fn create_all(&mut self, class: usize, count: i64) -> Result<Change, StepFault>
        requires class { class < length self.old.beside.tables.classes }
        requires kind { (class_of self.old.beside.tables class).permanent ≡ true }
        ensures { IsMakingAll result
            (entities.with_class self.old.state.store class
            (class_of self.old.beside.tables class) count)
            self.old self.new }
    {
        match self.store.create_all(class, count) {
            Ok(change) => Ok(Change::Store(change)),
            Err(fault) => Err(fault),
        }
    }

    /// Ends an entity of a temporary or event class. After F3, F7 and F8 nothing has changed.
    #[inline(always)]
    pub fn destroy(&mut self, class: usize, entity: i64) -> Result<Change, RunFault>
        requires class { class < length self.old.beside.tables.classes }
        requires kind { (class_of self.old.beside.tables class).permanent ≡ false }
        ensures { IsStoring result
            (entities.without_entity self.old.beside.tables self.old.state.store class
            (number_of entity))
            self.old self.new }
    {
        match self.store.destroy(class, entity) {
            Ok(change) => Ok(Change::Store(change)),
            Err(fault) => Err(fault),
        }
    }

    /// Files a member in a list. After F3, F4 and F5 nothing has changed.
    #[inline(always)]
    pub fn file(
        &mut self,
        set: usize,
        owner: i64,
        member: i64,
        how: How,
    ) -> Result<Change, RunFault>
        requires { set < length self.old.beside.tables.sets }
        ensures { IsStoring result
            (after_filing (set_of self.old.beside.tables set) self.old.state.store (number_of owner)
            (number_of member) how)
            self.old self.new }
    {
        match self.store.file(set, owner, member, how) {
            Ok(change) => Ok(Change::Store(change)),
            Err(fault) => Err(fault),
        }
    }

    /// Removes a member from a list, and gives its number. After F3, F5 and F6 nothing has changed.
    #[inline(always)]
    pub fn remove(
        &mut self,
        set: usize,
        owner: i64,
        which: Which,
    ) -> Result<(u32, Change), RunFault>
        requires { set < length self.old.beside.tables.sets }
        ensures { IsRemoving result
            (after_removing (set_of self.old.beside.tables set) self.old.state.store
            (number_of owner) which)
            self.old self.new }
    {
        match self.store.remove(set, owner, which) {
            Ok((number, change)) => Ok((number, Change::Store(change))),
            Err(fault) => Err(fault),
        }
    }

    /// The number of the entity of a class that a value names, or F3.
    pub fn entity_named(&self, class: usize, x: i64) -> Result<u32, RunFault>
        ensures number { result ≡ entity_named self.now.state.store class x }
        ensures named { IfOk result (λ k. 0 < k) }
        ensures small { IfOk result (λ k. k ≤ MOST_REFERENCES) }
    {
        self.store.known();
        if !self.store.exists(class, x) {
            return Err(RunFault::NoEntity);
        }
        Ok(x.unsigned_abs() as u32)
    }

    /// Puts the values of an entity's attributes that break ties, or F3, in place of the old
    /// contents of `values`.
    pub fn keys(
        &self,
        class: usize,
        ties: &Keys,
        entity: u32,
        values: &mut Vec<i64>,
    ) -> Result<(), StepFault>
        ensures ok { OnOk result
            (attributes_now self.now.state.store class entity (map (λ key. key.attribute) ties.now)
            ≡ Ok values.new.items) }
        ensures err { IfErr result
            (λ e. FaultIs e (attributes_now self.now.state.store class entity
            (map (λ key. key.attribute) ties.now))) }
    {
        values.clear();
        for key in &ties.list {
            let value = self.store.get(class, key.attribute, i64::from(entity))?;
            values.push(value)?;
        }
        Ok(())
    }

    /// Puts the values of an entity's first `count` attributes, or F3, in place of the old contents
    /// of `values`.
    pub fn first_attributes(
        &self,
        class: usize,
        count: usize,
        entity: u32,
        values: &mut Vec<i64>,
    ) -> Result<(), StepFault>
        ensures ok { OnOk result
            (attributes_now self.now.state.store class entity (range_with_len 0 count)
            ≡ Ok values.new.items) }
        ensures err { IfErr result
            (λ e.
            FaultIs e (attributes_now self.now.state.store class entity (range_with_len 0 count))) }
    {
        values.clear();
        for attribute in 0..count {
            let value = self.store.get(class, attribute, i64::from(entity))?;
            values.push(value)?;
        }
        Ok(())
    }
}

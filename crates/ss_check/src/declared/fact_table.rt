//! A list of facts about names in the order of the text, searched by name.

ghost use Rattle.std.specs.Prelude.{◌≡◌, ◌<◌, ◌==◌, true, false, [], ◌∷◌, ◌++◌, bytes_eq, length, option_map};
ghost use Rattle.std.specs.Prelude.{slice_get, Some, OnErr, OnOk};
ghost use Rattle.std.specs.List.{position_or_len};
ghost use Rattle.ss_check.specs.Facts.{fact, fact_of, first_repeat, is_among, names_of, repeats};

use crate::declared::fact::Fact;
use ss_program::Name;
use std::alloc::{AllocError, Global};
use std::collections::BTreeMap;
use std::marker::Model;

/// Facts on names in the order in which they were put in. The first fact of a name is found in time
/// that grows with the logarithm of their number.
#[derive(Drop)]
pub struct FactTable<T> {
    alloc: Global,
    facts: Vec<Fact<T>>,
    first: BTreeMap<Vec<u8>, usize>,
    /// The first name that has a second fact.
    repeat: Option<Vec<u8>>,
}

impl<T> Model for FactTable<T> {
    ghost use Rattle.std.specs.Prelude.{List, [], ◌≡◌, option_map};
    ghost use Rattle.ss_check.specs.Facts.{Fact as FactData};
    ghost use Rattle.ss_program.specs.NameIndex.{IsIndex};
    ghost use Rattle.ss_check.specs.Facts.{names_of, first_repeat};

    ghost Value = { List (FactData T) };

    ghost view = { λ a. a.facts.items };

    ghost invariant = { λ a.
        IsIndex (names_of a.facts.items) a.first
        × (option_map (λ n. n.items) a.repeat ≡ first_repeat [] (names_of a.facts.items)) };
}

impl<T: Drop> FactTable<T> {
    /// A table without facts.
    pub fn new(alloc: Global) -> Self
        ensures { result ≡ [] }
    {
        FactTable {
            alloc,
            facts: Vec::new(alloc),
            first: BTreeMap::new(alloc),
            repeat: None,
        }
    }

    /// The facts, in order.
    pub fn as_slice(&self) -> &[Fact<T>]
        ensures { result.now ≡ self.now }
    {
        &self.facts
    }

    /// How many facts there are.
    pub fn len(&self) -> usize
        ensures { result ≡ length self.now }
    {
        self.facts.len()
    }

    /// Whether there is no fact.
    pub fn is_empty(&self) -> bool
        ensures { result ≡ (length self.now == 0) }
    {
        self.facts.is_empty()
    }

    /// The fact at this place.
    fn fact(&self, place: usize) -> &Fact<T>
        requires { place < length self.now }
        ensures { slice_get self.now place ≡ Some result.now }
    {
        &self.facts[place]
    }

    /// The contents of the first fact of this name, if there is one.
    #[tactic(auto, using(crate::proofs::FactTables::fact_found, crate::proofs::FactTables::fact_none))]
    pub fn get(&self, name: &[u8]) -> Option<&T>
        ensures { option_map (λ what. what.now) result ≡ fact_of self.now name.now }
    {
        let place = self.place(name);
        if place < self.len() {
            Some(&self.fact(place).what)
        } else {
            None
        }
    }

    /// Whether this name has a fact.
    #[tactic(auto, using(crate::proofs::FactTables::among_at))]
    pub fn has(&self, name: &[u8]) -> bool
        ensures { result ≡ is_among name.now (names_of self.now) }
    {
        self.place(name) < self.len()
    }

    /// Whether some name has two facts.
    #[tactic(auto, using(crate::proofs::FactTables::repeat_found))]
    pub fn has_repeat(&self) -> bool
        ensures { result ≡ repeats [] (names_of self.now) }
    {
        self.first_repeat().is_some()
    }

    /// The name of the first fact whose name has one before it.
    pub fn first_repeat(&self) -> Option<&[u8]>
        ensures { option_map (λ n. n.now) result ≡ first_repeat [] (names_of self.now) }
    {
        match &self.repeat {
            Some(name) => Some(name),
            None => None,
        }
    }

    /// The place of the first fact of this name, or the number of facts.
    fn place(&self, name: &[u8]) -> usize
        ensures { result ≡ position_or_len (bytes_eq name.now) (names_of self.now) }
    {
        match self.first.get(name) {
            Some(place) => *place,
            None => self.len(),
        }
    }

    /// Puts a fact at the end. If memory is refused the table is as before.
    pub fn add(&mut self, name: &[u8], what: T) -> Result<(), AllocError>
        ensures ok { OnOk result (self.new ≡ self.old ++ fact name.now what ∷ []) }
        ensures err { OnErr result (self.new ≡ self.old) }
    {
        let is_there = self.has(name);
        let bytes = Vec::from_slice(self.alloc, name)?;
        let key = Vec::from_slice(self.alloc, name)?;
        let name = Name { bytes };
        if is_there {
            return self.add_again(Fact { name, what }, key);
        }
        self.add_first(Fact { name, what }, key)
    }

    /// Puts a fact at the end of a name that has one; the key is this name.
    fn add_again(&mut self, fact: Fact<T>, key: Vec<u8>) -> Result<(), AllocError>
        requires there { is_among fact.name (names_of self.now) ≡ true }
        requires same { key.items ≡ fact.name }
        ensures ok { OnOk result (self.new ≡ self.old ++ fact ∷ []) }
        ensures err { OnErr result (self.new ≡ self.old) }
    {
        self.facts.reserve(1)?;
        self.facts.push_reserved(fact);
        if self.repeat.is_none() {
            self.repeat = Some(key);
        }
        Ok(())
    }

    /// Puts a fact at the end of a name that has none; the key is this name.
    fn add_first(&mut self, fact: Fact<T>, key: Vec<u8>) -> Result<(), AllocError>
        requires new { is_among fact.name (names_of self.now) ≡ false }
        requires same { key.items ≡ fact.name }
        ensures ok { OnOk result (self.new ≡ self.old ++ fact ∷ []) }
        ensures err { OnErr result (self.new ≡ self.old) }
    {
        self.facts.reserve(1)?;
        self.first.insert(key, self.facts.len())?;
        self.facts.push_reserved(fact);
        Ok(())
    }
}

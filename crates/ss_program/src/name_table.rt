//! Gives each distinct name its number while a program is checked; a map finds the number fast.
ghost use Rattle.std.specs.Prelude.{◌≡◌, ◌<◌, [], bytes_eq, length, position, IfOk, IfSome, OnErr, OnOk};
ghost use Rattle.ss_program.specs.NameIndex.{with_name};

use crate::name::Name;
use std::alloc::{AllocError, Global};
use std::collections::BTreeMap;
use std::marker::Model;

/// Names in the order in which they were put in, none twice. A name is found in time that grows
/// with the logarithm of their number.
#[derive(Drop)]
pub struct NameTable {
    alloc: Global,
    names: Vec<Name>,
    places: BTreeMap<Vec<u8>, usize>,
}

impl Model for NameTable {
    ghost use Rattle.std.specs.Prelude.{List, ℕ};
    ghost use Rattle.ss_program.specs.NameIndex.{IsIndex};

    ghost Value = { List (List ℕ) };

    ghost view = { λ a. a.names.items };

    ghost invariant = { λ a. IsIndex a.names.items a.places };
}

impl NameTable {
    /// A table without names.
    pub fn new(alloc: Global) -> Self
        ensures { result ≡ [] }
    {
        NameTable {
            alloc,
            names: Vec::new(alloc),
            places: BTreeMap::new(alloc),
        }
    }

    /// How many names there are.
    pub fn len(&self) -> usize
        ensures { result ≡ length self.now }
    {
        self.names.len()
    }

    /// The place of this name, if it is in the table.
    pub fn number(&self, name: &[u8]) -> Option<usize>
        ensures value { result ≡ position (bytes_eq name.now) self.now }
        ensures within { IfSome result (λ i. i < length self.now) }
    {
        self.places.get(name).copied()
    }

    /// Puts a name at the end, unless it is in the table. If memory is refused, the table is as
    /// before.
    pub fn add(&mut self, name: &[u8]) -> Result<(), AllocError>
        ensures ok { OnOk result (self.new ≡ with_name self.old name.now) }
        ensures err { OnErr result (self.new ≡ self.old) }
    {
        if self.number(name).is_some() {
            return Ok(());
        }
        let bytes = Vec::from_slice(self.alloc, name)?;
        let key = Vec::from_slice(self.alloc, name)?;
        self.names.reserve(1)?;
        self.places.insert(key, self.names.len())?;
        self.names.push_reserved(Name { bytes });
        Ok(())
    }

    /// The names, in order.
    pub fn names(&self) -> &[Name]
        ensures { result.now ≡ self.now }
    {
        &self.names
    }

    /// Gives the names away, in order.
    pub fn into_names(self) -> Vec<Name>
        ensures { result.items ≡ self }
    {
        self.names
    }
}

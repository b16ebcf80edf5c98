//! Counts names while a program is checked; a map finds each count fast.
ghost use Rattle.std.specs.Prelude.{◌≡◌, [], ◌∷◌, ◌++◌, bytes_eq, count_by, OnErr, OnOk};

use crate::name::Name;
use std::alloc::{AllocError, Global};
use std::collections::BTreeMap;
use std::marker::Model;

/// Names in the order in which they were put in, with the count of each. A name is counted in time
/// that grows with the logarithm of their number.
#[derive(Drop)]
pub struct NameCounts {
    alloc: Global,
    names: Vec<Name>,
    counts: BTreeMap<Vec<u8>, usize>,
}

impl Model for NameCounts {
    ghost use Rattle.std.specs.Prelude.{List, ℕ};
    ghost use Rattle.ss_program.specs.CountMap.{AreCounts};

    ghost Value = { List (List ℕ) };

    ghost view = { λ a. a.names.items };

    ghost invariant = { λ a. AreCounts a.names.items a.counts };
}

impl NameCounts {
    /// No names.
    pub fn new(alloc: Global) -> Self
        ensures { result ≡ [] }
    {
        NameCounts {
            alloc,
            names: Vec::new(alloc),
            counts: BTreeMap::new(alloc),
        }
    }

    /// How often this name was put in.
    pub fn count(&self, name: &[u8]) -> usize
        ensures { result ≡ count_by (bytes_eq name.now) self.now }
    {
        match self.counts.get(name) {
            Some(count) => *count,
            None => 0,
        }
    }

    /// Puts a name at the end. If memory is refused, the names are as before.
    pub fn add(&mut self, name: &[u8]) -> Result<(), AllocError>
        ensures ok { OnOk result (self.new ≡ self.old ++ name.now ∷ []) }
        ensures err { OnErr result (self.new ≡ self.old) }
    {
        let bytes = Vec::from_slice(self.alloc, name)?;
        let key = Vec::from_slice(self.alloc, name)?;
        let count = self.count(name);
        self.put(Name { bytes }, key, count)
    }

    /// Puts a name at the end that was put in `count` times before; the key is this name.
    fn put(&mut self, name: Name, key: Vec<u8>, count: usize) -> Result<(), AllocError>
        requires same { key.items ≡ name }
        requires count { count ≡ count_by (bytes_eq name) self.now }
        ensures ok { OnOk result (self.new ≡ self.old ++ name ∷ []) }
        ensures err { OnErr result (self.new ≡ self.old) }
    {
        self.names.reserve(1)?;
        self.counts.insert(key, count + 1)?;
        self.names.push_reserved(name);
        Ok(())
    }
}

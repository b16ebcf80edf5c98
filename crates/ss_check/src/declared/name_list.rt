//! A list of names that finds a repeat.

ghost use Rattle.std.specs.Prelude.{◌≡◌, ◌==◌, [], ◌∷◌, ◌++◌, length, option_map, OnErr, OnOk};
ghost use Rattle.ss_check.specs.Facts.{first_repeat, is_among, names_of, repeats};

use crate::declared::fact::Fact;
use crate::declared::fact_table::FactTable;
use std::alloc::{AllocError, Global};
use std::marker::Model;

/// Names in the order in which they were put in. A name is found in time that grows with the
/// logarithm of their number.
#[derive(Drop)]
pub struct NameList {
    table: FactTable<()>,
}

impl Model for NameList {
    ghost use Rattle.std.specs.Prelude.{List, ℕ};
    ghost use Rattle.ss_check.specs.Facts.{names_of};

    ghost Value = { List (List ℕ) };

    ghost view = { λ a. names_of a.table };
}

impl NameList {
    /// A list without names.
    pub fn new(alloc: Global) -> Self
        ensures { result ≡ [] }
    {
        NameList {
            table: FactTable::new(alloc),
        }
    }

    /// Whether there is no name.
    #[tactic(auto, using(crate::proofs::FactTables::names_length))]
    pub fn is_empty(&self) -> bool
        ensures { result ≡ (length self.now == 0) }
    {
        self.table.is_empty()
    }

    /// The names, in order, each as a fact without contents.
    pub(crate) fn facts(&self) -> &[Fact<()>]
        ensures { names_of result.now ≡ self.now }
    {
        self.table.as_slice()
    }

    /// Whether this name is in the list.
    pub fn has(&self, name: &[u8]) -> bool
        ensures { result ≡ is_among name.now self.now }
    {
        self.table.has(name)
    }

    /// Whether some name is in the list twice.
    pub fn has_repeat(&self) -> bool
        ensures { result ≡ repeats [] self.now }
    {
        self.table.has_repeat()
    }

    /// The first name that is in the list before its place.
    pub fn first_repeat(&self) -> Option<&[u8]>
        ensures { option_map (λ n. n.now) result ≡ first_repeat [] self.now }
    {
        self.table.first_repeat()
    }

    /// How many names there are.
    #[tactic(auto, using(crate::proofs::FactTables::names_length))]
    pub fn len(&self) -> usize
        ensures { result ≡ length self.now }
    {
        self.table.len()
    }

    /// Puts a name at the end. If memory is refused the list is as before.
    #[tactic(auto, using(crate::proofs::FactTables::names_of_push))]
    pub fn add(&mut self, name: &[u8]) -> Result<(), AllocError>
        ensures ok { OnOk result (self.new ≡ self.old ++ name.now ∷ []) }
        ensures err { OnErr result (self.new ≡ self.old) }
    {
        self.table.add(name, ())
    }
}

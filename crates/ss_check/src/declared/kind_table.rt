//! A table of the kinds as which names are declared, which finds conflicts.

ghost use Rattle.std.specs.Prelude.{◌≡◌, ◌&&◌, false, [], ◌∷◌, ◌++◌, bytes_eq, option_map, unwrap_or};
ghost use Rattle.std.specs.Prelude.{OnErr, OnOk};
ghost use Rattle.std.specs.List.{list_any};
ghost use Rattle.ss_check.specs.Facts.{fact, fact_of, is_among, names_of};
ghost use Rattle.ss_check.specs.FactsView.{facts_view};
ghost use Rattle.ss_check.specs.KindView.{kind_view};
ghost use Rattle.ss_check.specs.NameKinds.{first_conflict, is_attribute_of as is_attribute};
ghost use Rattle.ss_check.specs.NameKinds.{one_conflicts};
ghost use Rattle.ss_check.specs.ResolvedNames.{names_where};

use crate::declared::fact::Fact;
use crate::declared::fact_table::FactTable;
use crate::declared::name_kind::{NameKind, conflicts, is_attribute_of};
use std::alloc::{AllocError, Global};
use std::marker::Model;

/// The kinds as which names are declared, in the order of the text.
#[derive(Drop)]
pub struct KindTable {
    alloc: Global,
    table: FactTable<NameKind>,
    /// The name of the first declaration that conflicts with the kind of its name before.
    conflict: Option<Vec<u8>>,
}

impl Model for KindTable {
    ghost use Rattle.std.specs.Prelude.{List, [], ◌≡◌, option_map};
    ghost use Rattle.ss_check.specs.Facts.{Fact};
    ghost use Rattle.ss_check.specs.FactsView.{facts_view};
    ghost use Rattle.ss_check.specs.KindView.{kind_view};
    ghost use Rattle.ss_check.specs.NameKind.{NameKind as NameKindData};
    ghost use Rattle.ss_check.specs.NameKinds.{first_conflict};

    ghost Value = { List (Fact NameKindData) };

    ghost view = { λ a. facts_view kind_view a.table };

    ghost invariant = { λ a. option_map (λ n. n.items) a.conflict
        ≡ first_conflict [] (facts_view kind_view a.table) };
}

impl KindTable {
    /// No declarations.
    pub fn new(alloc: Global) -> Self
        ensures { result ≡ [] }
    {
        KindTable {
            alloc,
            table: FactTable::new(alloc),
            conflict: None,
        }
    }

    /// The kind as which a name is declared, if it is.
    #[tactic(auto, using(crate::proofs::TableTurns::fact_of_view))]
    pub fn get(&self, name: &[u8]) -> Option<&NameKind>
        ensures { option_map (λ kind. kind_view kind.now) result ≡ fact_of self.now name.now }
    {
        self.table.get(name)
    }

    /// The declarations, in order.
    pub fn as_slice(&self) -> &[Fact<NameKind>]
        ensures { facts_view kind_view result.now ≡ self.now }
    {
        self.table.as_slice()
    }

    /// Whether a name is declared.
    #[tactic(auto, using(crate::proofs::TableTurns::names_of_view))]
    pub fn has(&self, name: &[u8]) -> bool
        ensures { result ≡ is_among name.now (names_of self.now) }
    {
        self.table.has(name)
    }

    /// Whether some declaration of a name is as an attribute of this class. All declarations are
    /// gone over only if the name's first one is another.
    pub fn has_attribute(&self, class: &[u8], name: &[u8]) -> bool
        ensures { result ≡ is_among name.now (names_where (is_attribute class.now) self.now) }
    {
        self.is_first_attribute(class, name) || any_attribute(self.as_slice(), class, name)
    }

    /// Whether the first declaration of a name is as an attribute of this class.
    fn is_first_attribute(&self, class: &[u8], name: &[u8]) -> bool
        ensures { result ≡ unwrap_or
            (option_map (is_attribute class.now) (fact_of self.now name.now)) false }
    {
        match self.get(name) {
            Some(kind) => is_attribute_of(class, kind),
            None => false,
        }
    }

    /// Whether some declaration conflicts with the kind of its name before.
    #[tactic(auto, using(crate::proofs::Conflicts::conflict_found))]
    pub fn has_conflict(&self) -> bool
        ensures { result ≡ one_conflicts [] self.now }
    {
        self.first_conflict().is_some()
    }

    /// The name of the first declaration that conflicts with the kind of its name before.
    pub fn first_conflict(&self) -> Option<&[u8]>
        ensures { option_map (λ n. n.now) result ≡ first_conflict [] self.now }
    {
        match &self.conflict {
            Some(name) => Some(name),
            None => None,
        }
    }

    /// Declares a name as this too. If memory is refused the table is as before.
    #[tactic(auto, using(crate::proofs::Conflicts::conflict_push, crate::proofs::TableTurns::facts_view_push))]
    pub fn add(&mut self, name: &[u8], kind: NameKind) -> Result<(), AllocError>
        ensures ok { OnOk result (self.new ≡ self.old ++ fact name.now (kind_view kind) ∷ []) }
        ensures err { OnErr result (self.new ≡ self.old) }
    {
        if self.conflict.is_some() || !conflicts(self.get(name), &kind) {
            return self.table.add(name, kind);
        }
        let first = Vec::from_slice(self.alloc, name)?;
        self.table.add(name, kind)?;
        self.conflict = Some(first);
        Ok(())
    }
}

/// Whether one of these declares a name as an attribute of this class.
fn any_attribute(facts: &[Fact<NameKind>], class: &[u8], name: &[u8]) -> bool
    ensures { result ≡ list_any
        (λ f. is_attribute class.now (kind_view f.what) && bytes_eq name.now f.name) facts.now }
{
    for fact in facts {
        if is_attribute_of(class, &fact.what) && name == fact.name.bytes.as_slice() {
            return true;
        }
    }
    false
}

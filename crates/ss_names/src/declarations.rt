//! Declarations of names, each found by its name.
ghost use Rattle.std.specs.Prelude.{◌≡◌, ◌<◌, ◌++◌, [], is_some, length, option_map, slice_get, IfSome, OnOk, Some};
ghost use Rattle.ss_names.specs.Meanings as spec;
ghost use Rattle.ss_names.specs.Meanings.{declaration_at};

use crate::meaning::Row;
use ss_program::NameTable;
use std::alloc::{AllocError, Global};
use std::marker::Model;

/// The first declaration of each name, in their order. The time to find a name's grows with the
/// logarithm of their number.
#[derive(Drop)]
pub struct Declarations<'a> {
    rows: Vec<Row<'a>>,
    names: NameTable,
}

impl<'a> Model for Declarations<'a> {
    ghost use Rattle.std.specs.Prelude.{List, ◌≡◌, map};
    ghost use Rattle.ss_names.specs.Meanings.{Declaration, declaration_at, names_of};

    ghost Value = { List Declaration };

    ghost view = { λ a. map declaration_at a.rows.items };

    ghost invariant = { λ a. a.names ≡ names_of (map declaration_at a.rows.items) };
}

impl<'a> Declarations<'a> {
    /// No declarations.
    pub fn new(alloc: Global) -> Self
        ensures { result ≡ [] }
    {
        Declarations {
            rows: Vec::new(alloc),
            names: NameTable::new(alloc),
        }
    }

    /// The place of the declaration of a name, if it has one.
    fn place(&self, name: &[u8]) -> Option<usize>
        ensures value { result ≡ position (bytes_eq name.now) (spec.names_of self.now) }
        ensures within { IfSome result (λ i. i < length self.now) }
    {
        self.names.number(name)
    }

    /// The declaration at this place.
    fn row(&self, place: usize) -> Row<'a>
        requires { place < length self.now }
        ensures { slice_get self.now place ≡ Some (declaration_at result) }
    {
        self.rows[place]
    }

    /// The declaration of a name, if it has one.
    #[tactic(auto, using(crate::proofs::RowPlaces::place_found, crate::proofs::RowPlaces::place_missed))]
    pub fn get(&self, name: &[u8]) -> Option<Row<'a>>
        ensures { option_map declaration_at result ≡ spec.declared_as self.now name.now }
    {
        match self.place(name) {
            Some(place) => Some(self.row(place)),
            None => None,
        }
    }

    /// Whether a name has a declaration.
    pub fn has(&self, name: &[u8]) -> bool
        ensures { result ≡ is_some (spec.declared_as self.now name.now) }
    {
        self.get(name).is_some()
    }

    /// Puts a declaration at the end, unless its name has one.
    pub fn add(&mut self, row: Row<'a>) -> Result<(), AllocError>
        ensures { OnOk result
            (self.new ≡ spec.with_declaration self.old (declaration_at row.entry)) }
    {
        if self.has(row.name) {
            return Ok(());
        }
        self.rows.reserve(1)?;
        self.names.add(row.name)?;
        self.rows.push_reserved(row);
        Ok(())
    }
}

ghost use Rattle.std.specs.Prelude.{bytes_eq, map, position};

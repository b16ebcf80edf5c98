//! The numbers of names in the tables of a program.

ghost use Rattle.std.specs.Prelude.{◌≡◌, ◌++◌, [], bytes_eq, codes, map, position, slice_index_or, unwrap_or, IfOk};
ghost use Rattle.ss_routines.specs.View.{section_view};
ghost use Rattle.ss_check.specs.Declarations.{events_in, heads, routine_facts};
ghost use Rattle.ss_check.specs.Facts.{fact_of};
ghost use Rattle.ss_check.specs.FactsView.{facts_view};
ghost use Rattle.ss_check.specs.KindView.{kind_view};
ghost use Rattle.ss_check.specs.NameKinds as rules;
ghost use Rattle.ss_check.specs.ResolvedNames as resolved;
ghost use Rattle.ss_check.specs.Sorts.{belongs};

use crate::declared::fact::Fact;
use crate::declared::fact_table::FactTable;
use crate::declared::name_kind::{NameKind, is_attribute_of};
use crate::declared::tables::Tables;
use crate::resolved::declarations::{copied, prefixed};
use ss_program::{Name, NameTable};
use ss_routines::{Section, SectionKind};
use std::alloc::{AllocError, Global};
use std::marker::Model;

/// The names of a program's global variables, classes and sets, each in its table in order of
/// declaration, those of each class's attributes, and the numbers of the sections of routines and
/// of event classes. A name is resolved to its number in its table.
#[derive(Drop)]
pub struct NameTables {
    globals: NameTable,
    classes: NameTable,
    attributes: Vec<Vec<Name>>,
    sets: NameTable,
    routines: FactTable<usize>,
    events: FactTable<usize>,
}

impl Model for NameTables {
    ghost use Rattle.std.specs.Prelude.{map};
    ghost use Rattle.ss_check.specs.ResolvedNames.{Names};

    ghost Value = { Names };

    ghost view = { λ a. record {
      globals = a.globals;
      classes = a.classes;
      attributes = map (λ t. t.items) a.attributes.items;
      sets = a.sets;
      routines = a.routines;
      events = a.events;
    } };
}

/// A sort of names that have a table.
#[derive(Clone, Copy)]
enum Sort {
    /// Global variables, N.c among them, and classes, each of which has a variable of its name.
    GlobalVariable,
    Class,
    Set,
}

impl Sort {
    /// Whether names declared as this are of the sort.
    fn has(self, kind: &NameKind) -> bool
        ensures { result ≡ belongs self (kind_view kind.now) }
    {
        match kind {
            NameKind::Class(_) => matches!(self, Sort::GlobalVariable | Sort::Class),
            NameKind::Variable | NameKind::ClassCount => matches!(self, Sort::GlobalVariable),
            NameKind::Set => matches!(self, Sort::Set),
            _ => false,
        }
    }
}

impl NameTables {
    /// The tables of a program of these sections, whose items and heads declare this.
    pub fn new(alloc: Global, tables: &Tables, sections: &[Section]) -> Result<Self, AllocError>
        ensures { IfOk result (λ v. v
            ≡ resolved.names tables.now (heads (map section_view sections.now))) }
    {
        let kinds = tables.kinds.as_slice();
        let classes = names_of_sort(alloc, Sort::Class, kinds)?;
        Ok(NameTables {
            globals: names_of_sort(alloc, Sort::GlobalVariable, kinds)?,
            attributes: attributes_of_classes(alloc, kinds, classes.names())?,
            classes,
            sets: names_of_sort(alloc, Sort::Set, kinds)?,
            routines: routine_sections(alloc, sections)?,
            events: event_sections(alloc, sections)?,
        })
    }

    /// The number of a global variable, or the count of them if it is none.
    pub fn global(&self, name: &[u8]) -> usize
        ensures { result ≡ resolved.number name.now self.now.globals }
    {
        number(&self.globals, name)
    }

    /// The number of the global variable `N.class`, or the count of global variables if it is none.
    pub fn count(&self, alloc: Global, class: &[u8]) -> Result<usize, AllocError>
        ensures { IfOk result
            (λ n. n ≡ resolved.number (codes "N." ++ class.now) self.now.globals) }
    {
        let name = prefixed(alloc, b"N.", class)?;
        Ok(self.global(&name))
    }

    /// The number of a class, or the count of classes if it is none.
    pub fn class(&self, name: &[u8]) -> usize
        ensures { result ≡ resolved.number name.now self.now.classes }
    {
        number(&self.classes, name)
    }

    /// The number of a set, or the count of sets if it is none.
    pub fn set(&self, name: &[u8]) -> usize
        ensures { result ≡ resolved.number name.now self.now.sets }
    {
        number(&self.sets, name)
    }

    /// The number of an attribute in the class with this number, or the count of its attributes if
    /// it is none of them; 0 if there is no such class.
    pub fn attribute(&self, class: usize, name: &[u8]) -> usize
        ensures { result ≡ resolved.number name.now (slice_index_or self.now.attributes class []) }
    {
        match self.attributes.get(class) {
            Some(attributes) => place_of(attributes, name),
            None => 0,
        }
    }

    /// The number of a routine's section, 0 if it is none.
    pub fn routine(&self, name: &[u8]) -> usize
        ensures { result ≡ unwrap_or (fact_of self.now.routines name.now) 0 }
    {
        self.routines.get(name).copied().unwrap_or(0)
    }

    /// The number of an event class's section, 0 if it has none.
    pub fn event(&self, name: &[u8]) -> usize
        ensures { result ≡ unwrap_or (fact_of self.now.events name.now) 0 }
    {
        self.events.get(name).copied().unwrap_or(0)
    }

    /// The names of the classes, in order.
    pub(crate) fn classes(&self) -> &[Name]
        ensures { result.now ≡ self.now.classes }
    {
        self.classes.names()
    }

    /// The names of the sets, in order.
    pub(crate) fn sets(&self) -> &[Name]
        ensures { result.now ≡ self.now.sets }
    {
        self.sets.names()
    }

    /// Gives the names of the global variables away, in order.
    pub(crate) fn into_globals(self) -> Vec<Name>
        ensures { result.items ≡ self.globals }
    {
        self.globals.into_names()
    }
}

/// The number of a name in a table, or the count of names if it is not in it.
pub(crate) fn number(table: &NameTable, name: &[u8]) -> usize
    ensures { result ≡ resolved.number name.now table.now }
{
    match table.number(name) {
        Some(number) => number,
        None => table.len(),
    }
}

/// The number of a name among these, or the count of names if it is none of them.
fn place_of(names: &[Name], name: &[u8]) -> usize
    ensures { result ≡ resolved.number name.now names.now }
{
    match find(names, name) {
        Some(place) => place,
        None => names.len(),
    }
}

/// The number of a name among these, if it is one of them.
fn find(names: &[Name], name: &[u8]) -> Option<usize>
    ensures { result ≡ position (bytes_eq name.now) names.now }
{
    names.iter().position(|n| name == n.bytes.as_slice())
}

/// The names that are declared as this sort, each once, in order of declaration.
fn names_of_sort(
    alloc: Global,
    sort: Sort,
    kinds: &[Fact<NameKind>],
) -> Result<NameTable, AllocError>
    ensures { IfOk result
        (λ table. table ≡ resolved.each_of (belongs sort) (facts_view kind_view kinds.now)) }
{
    let mut table = NameTable::new(alloc);
    for fact in kinds {
        if sort.has(&fact.what) {
            table.add(&fact.name.bytes)?;
        }
    }
    Ok(table)
}

/// The attributes of each of these classes, in order of declaration.
fn attributes_of_classes(
    alloc: Global,
    kinds: &[Fact<NameKind>],
    classes: &[Name],
) -> Result<Vec<Vec<Name>>, AllocError>
    ensures { IfOk result (λ tables. map (λ t. t.items) tables.items
        ≡ map (λ c. resolved.names_where (rules.is_attribute_of c) (facts_view kind_view kinds.now))
        classes.now) }
{
    let mut tables = Vec::with_capacity(alloc, classes.len())?;
    for class in classes {
        tables.push(attributes_of(alloc, kinds, &class.bytes)?)?;
    }
    Ok(tables)
}

/// The attributes of a class, in order of declaration.
pub(crate) fn attributes_of(
    alloc: Global,
    kinds: &[Fact<NameKind>],
    class: &[u8],
) -> Result<Vec<Name>, AllocError>
    ensures { IfOk result (λ names. names.items
        ≡ resolved.names_where (rules.is_attribute_of class.now) (facts_view kind_view kinds.now)) }
{
    let mut names = Vec::new(alloc);
    for fact in kinds {
        if is_attribute_of(class, &fact.what) {
            names.push(copied(alloc, &fact.name.bytes)?)?;
        }
    }
    Ok(names)
}

/// The routines, each with the number of its section.
fn routine_sections(alloc: Global, sections: &[Section]) -> Result<FactTable<usize>, AllocError>
    ensures { IfOk result (λ table. table
        ≡ resolved.section_numbers 0 (map routine_facts (heads (map section_view sections.now)))
        (λ f. f.name)) }
{
    let mut table = FactTable::new(alloc);
    for (number, section) in sections.iter().enumerate() {
        if let SectionKind::Routine { .. } = section.kind {
            table.add(section.name.bytes(), number)?;
        }
    }
    Ok(table)
}

/// The event classes that have a section, each with its number.
fn event_sections(alloc: Global, sections: &[Section]) -> Result<FactTable<usize>, AllocError>
    ensures { IfOk result (λ table. table
        ≡ resolved.section_numbers 0 (map events_in (heads (map section_view sections.now)))
        (λ n. n)) }
{
    let mut table = FactTable::new(alloc);
    for (number, section) in sections.iter().enumerate() {
        if let SectionKind::Event { .. } = section.kind {
            table.add(section.name.bytes(), number)?;
        }
    }
    Ok(table)
}

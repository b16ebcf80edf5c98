//! All declarations of a text in one place, and adding those of an item or a head.

ghost use Rattle.std.specs.Prelude.{◌≡◌, ◌++◌, [], length, IfOk, OnOk};
ghost use Rattle.ss_preamble.specs.View as items;
ghost use Rattle.ss_routines.specs.Tree.{listing_names};
ghost use Rattle.ss_routines.specs.View as heads;
ghost use Rattle.ss_check.specs.Increments.{headed_item, with_item, with_head};
ghost use Rattle.ss_check.specs.Declarations.{declared_by};
ghost use Rattle.ss_check.specs.NameKinds.{language_facts};

use crate::declared::fact_table::FactTable;
use crate::declared::function::Function;
use crate::declared::item_names::add_item_names;
use crate::declared::kind_table::KindTable;
use crate::declared::name_kind::NameKind;
use crate::declared::name_list::NameList;
use crate::declared::set_facts::{add_attributes, add_members, add_owners};
use crate::resolved::declarations::add_declarations;
use ss_preamble::{Heading, ItemAt};
use ss_program::{Name, NameCounts};
use ss_routines::{Listing, Section, SectionKind};
use std::alloc::{AllocError, Global};
use std::marker::Model;

/// How many given and how many yielded parameters a routine has.
#[derive(Drop)]
pub struct Counts {
    pub given: usize,
    pub yielded: usize,
}

impl Model for Counts {
    ghost use Rattle.ss_check.specs.Declarations.{Counts as CountsData};

    ghost Value = { CountsData };

    ghost view = { λ a. record { given = a.given; yielded = a.yielded } };
}

/// The declarations of items and heads about names (docs/LANGUAGE.md, "Rules of the checker").
#[derive(Drop)]
pub struct Tables {
    /// The kinds as which names are declared.
    pub kinds: KindTable,
    /// The class of each attribute.
    pub attributes: NameCounts,
    /// The owner of each set: a class, or none for the system.
    pub owners: FactTable<Option<Name>>,
    /// The class of each set's members.
    pub members: FactTable<Name>,
    /// The sets whose discipline is given.
    pub disciplines: NameList,
    /// The event classes whose ties are broken.
    pub ties: NameList,
    /// The external classes.
    pub external: NameList,
    /// The classes that PRIORITY names.
    pub priority: NameList,
    /// All names that are named as classes.
    pub classes: NameList,
    /// The event classes that have a section.
    pub events: NameList,
    pub routines: FactTable<Counts>,
    pub has_main: bool,
}

impl Model for Tables {
    ghost use Rattle.ss_check.specs.Declarations.{Declared};

    ghost Value = { Declared };

    ghost view = { λ a. record {
      kinds = a.kinds;
      attributes = a.attributes;
      owners = a.owners;
      members = a.members;
      disciplines = a.disciplines;
      ties = a.ties;
      external = a.external;
      priority = a.priority;
      classes = a.classes;
      events = a.events;
      routines = a.routines;
      has_main = a.has_main;
    } };
}

impl Tables {
    /// The declarations before all items and heads: those of the language.
    pub fn new(alloc: Global) -> Result<Self, AllocError>
        ensures { IfOk result (λ tables. tables ≡ declared_by [] []) }
    {
        Ok(Tables {
            kinds: language_kinds(alloc)?,
            attributes: NameCounts::new(alloc),
            owners: FactTable::new(alloc),
            members: FactTable::new(alloc),
            disciplines: NameList::new(alloc),
            ties: NameList::new(alloc),
            external: NameList::new(alloc),
            priority: NameList::new(alloc),
            classes: NameList::new(alloc),
            events: NameList::new(alloc),
            routines: FactTable::new(alloc),
            has_main: false,
        })
    }

    /// Adds the declarations of an item, under this heading.
    #[tactic(auto, unfolding(crate::specs::Increments::with_item))]
    pub fn add_item(
        &mut self,
        alloc: Global,
        heading: Option<Heading>,
        item_at: &ItemAt,
    ) -> Result<(), AllocError>
        ensures { OnOk result
            (self.new ≡ with_item self.old (headed_item heading (items.item_at_view item_at.now))) }
    {
        let item = &item_at.item;
        add_declarations(alloc, &mut self.kinds, heading, item)?;
        add_attributes(&mut self.attributes, item)?;
        add_owners(alloc, &mut self.owners, item)?;
        add_members(alloc, &mut self.members, item)?;
        add_item_names(self, item)
    }

    /// Adds the declarations of the head of a section.
    #[tactic(auto, unfolding(crate::specs::Increments::with_head))]
    pub fn add_head(&mut self, section: &Section) -> Result<(), AllocError>
        ensures { OnOk result
            (self.new ≡ with_head self.old (heads.section_view section.now).head) }
    {
        match &section.kind {
            SectionKind::Main => {
                self.has_main = true;
                Ok(())
            }
            SectionKind::Routine { given, yielded } => {
                let counts = Counts {
                    given: name_count(given),
                    yielded: yielded.len(),
                };
                self.kinds.add(section.name.bytes(), NameKind::Routine)?;
                self.routines.add(section.name.bytes(), counts)
            }
            SectionKind::Event { .. } => self.events.add(section.name.bytes()),
        }
    }
}

/// How many names are listed.
pub(crate) fn name_count(names: &Listing<ss_words::Name>) -> usize
    ensures { result ≡ length (listing_names (heads.listing_view (λ n. n) names.now)) }
{
    match names {
        Listing::Unwritten => 0,
        Listing::BehindGiven(names) | Listing::InParentheses(names) => 1 + names.others.len(),
    }
}

/// The declarations of the language before all.
fn language_kinds(alloc: Global) -> Result<KindTable, AllocError>
    ensures { IfOk result (λ kinds. kinds ≡ language_facts) }
{
    let mut kinds = KindTable::new(alloc);
    match add_language(&mut kinds) {
        Ok(()) => Ok(kinds),
        Err(fault) => {
            drop(kinds);
            Err(fault)
        }
    }
}

/// Adds the declarations of the language before all.
fn add_language(kinds: &mut KindTable) -> Result<(), AllocError>
    ensures { OnOk result (kinds.new ≡ kinds.old ++ language_facts) }
{
    kinds.add(b"ABS.F", NameKind::Function(Function::Absolute))?;
    kinds.add(b"MAX.F", NameKind::Function(Function::Greatest))?;
    kinds.add(b"MIN.F", NameKind::Function(Function::Least))?;
    kinds.add(b"DIV.F", NameKind::Function(Function::Quotient))?;
    kinds.add(b"MOD.F", NameKind::Function(Function::Remainder))?;
    kinds.add(b"TIME.V", NameKind::Clock)
}

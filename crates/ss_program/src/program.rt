//! The whole checked program with its invariant, and the rows of its tables.
ghost use Rattle.std.specs.Prelude.{◌≡◌, ◌<◌, length, position, slice_get, Some};
ghost use Rattle.ss_program.specs.Program.{ProgramTable, event_of, is_main, main_number, places_of, spot_at};
ghost use Rattle.ss_program.specs.ProgramSound.{IsSound};
ghost use Rattle.ss_program.specs.Match.{section_ways};

use crate::kinds::SectionKind;
use crate::name::Name;
use crate::place::Spot;
use crate::section::Section;
use crate::tables::{Class, Set};
use crate::ways::Ways;
use std::marker::Model;

/// A checked program. The names of its global variables, classes and sets, those of a class's
/// attributes and those of a section's locals are in order of declaration, each once in its
/// table.
#[derive(Drop)]
pub struct Program {
    pub globals: Vec<Name>,
    pub classes: Vec<Class>,
    pub sets: Vec<Set>,
    /// The event classes that PRIORITY names, by their numbers, the first in priority first.
    pub priority: Vec<usize>,
    pub sections: Vec<Section>,
}

impl Model for Program {
    ghost use Rattle.std.specs.Coded.{codes};
    ghost use Rattle.ss_program.specs.Program.{ProgramTable};
    ghost use Rattle.ss_program.specs.ProgramSound.{IsSound};
    ghost use Rattle.ss_program.specs.contracts.section.Section as section;

    ghost Value = { ProgramTable };

    ghost coded = { Prim.hlevel (codes, section.the_row.coded) };

    ghost view = { λ a. record {
      globals = a.globals.items;
      classes = a.classes.items;
      sets = a.sets.items;
      priority = a.priority.items;
      sections = a.sections.items;
    } };

    ghost invariant = { λ a. IsSound (record {
      globals = a.globals.items;
      classes = a.classes.items;
      sets = a.sets.items;
      priority = a.priority.items;
      sections = a.sections.items;
    }) };
}

impl Program {
    /// A program of these tables.
    pub fn new(
        globals: Vec<Name>,
        classes: Vec<Class>,
        sets: Vec<Set>,
        priority: Vec<usize>,
        sections: Vec<Section>,
    ) -> Self
        requires { IsSound (record {
          globals = globals.items;
          classes = classes.items;
          sets = sets.items;
          priority = priority.items;
          sections = sections.items;
        }) }
        ensures { result ≡ record {
          globals = globals.items;
          classes = classes.items;
          sets = sets.items;
          priority = priority.items;
          sections = sections.items;
        } }
    {
        Program {
            globals,
            classes,
            sets,
            priority,
            sections,
        }
    }

    /// Gives the program's memory back: the caller's crate does not prove its end.
    pub fn end(self) {
        drop(self);
    }

    /// Lets its caller know that the program is sound.
    pub fn known(&self)
        ensures { IsSound self.now }
    {
        // Reading a field makes the invariant known.
        let _ = &self.sections;
    }

    /// The number of the section MAIN.
    #[tactic(auto, using(crate::proofs::Mains::found_main, crate::proofs::Mains::one_main))]
    pub fn main(&self) -> usize
        ensures main { result ≡ main_number self.now }
        ensures there { result < length self.now.sections }
    {
        // Reading a field makes the invariant known: there is one MAIN.
        let _ = &self.sections;
        match self.find_main() {
            Some(number) => number,
            None => 0,
        }
    }

    fn find_main(&self) -> Option<usize>
        ensures { result ≡ position is_main self.now.sections }
    {
        self.sections
            .iter()
            .position(|s| s.kind == SectionKind::Main)
    }

    /// Whether the class with this number is an event class whose notices the data may name
    /// (docs/LANGUAGE.md, "External events").
    pub fn is_external(&self, class: usize) -> bool
        requires { class < length self.now.classes }
        ensures { result ≡ (event_of self.now class).external }
    {
        self.classes[class].is_external()
    }

    /// The section with this number.
    pub fn section(&self, number: usize) -> &Section
        requires { number < length self.now.sections }
        ensures { slice_get self.now.sections number ≡ Some result.now }
    {
        &self.sections[number]
    }

    /// The place with this number of the section with this number.
    pub fn spot(&self, section: usize, place: usize) -> &Spot
        requires section { section < length self.now.sections }
        requires place { place < length (places_of (slice_get self.now.sections section)) }
        ensures { spot_at self.now section place ≡ Some result.now }
    {
        &self.sections[section].places[place]
    }

    /// The ways on from the place with this number of the section with this number.
    pub fn ways(&self, section: usize, place: usize) -> Ways
        requires section { section < length self.now.sections }
        requires place { place < length (places_of (slice_get self.now.sections section)) }
        ensures { slice_get (section_ways (places_of (slice_get self.now.sections section))) place
            ≡ Some result }
    {
        self.sections[section].ways(place)
    }
}

//! A section as a tree: its head, its local DEFINEs and its places.

ghost use Rattle.std.specs.Prelude.{◌≡◌, map};
ghost use Rattle.ss_routines.specs.Ended.{AreEnded};
ghost use Rattle.ss_routines.specs.OfProgram.{AreOfProgram};
ghost use Rattle.ss_routines.specs.View.{section_view};

use crate::tree::place::Spot;
use crate::tree::simple::Listing;
use ss_words::{Name, Several};
use std::marker::Model;

/// The kind of a section, with its parameters in upper case.
#[derive(Debug, Drop)]
pub enum SectionKind {
    Main,
    /// `ROUTINE name [given] [YIELDING yielded]`; none is yielded if YIELDING is not written.
    Routine {
        given: Listing<Name>,
        yielded: Vec<Name>,
    },
    /// `EVENT name [given] [SAVING EVENT NOTICES]`; `saving` says whether that is written.
    Event {
        given: Listing<Name>,
        saving: bool,
    },
}

/// A DEFINE at a section's head: its line and its names.
#[derive(Debug, Drop)]
pub struct LocalNames {
    pub line: usize,
    pub names: Several<Name>,
}

/// A section: its head, its local DEFINEs and the list of its places, of which END is the last.
#[derive(Debug, Drop)]
pub struct Section {
    /// The line of the head's first plain word.
    pub line: usize,
    pub kind: SectionKind,
    /// In upper case; that of the main section is `MAIN`.
    pub name: Name,
    pub locals: Vec<LocalNames>,
    pub places: Vec<Spot>,
}

/// The sections of a program within the limits, in order. Each has its END as its last place, and
/// no other END.
#[derive(Debug, Drop)]
pub struct Sections {
    list: Vec<Section>,
}

impl Model for Sections {
    ghost use Rattle.std.specs.Prelude.{List, map};
    ghost use Rattle.std.specs.Coded.{codes};
    ghost use Rattle.ss_routines.specs.Places.{Section as SectionData};
    ghost use Rattle.ss_routines.specs.ExprCode.{expr_code};
    ghost use Rattle.ss_routines.specs.ConditionCode.{condition_code};
    ghost use Rattle.ss_routines.specs.OfProgram.{AreOfProgram};
    ghost use Rattle.ss_routines.specs.View.{section_view};

    ghost Value = { List SectionData };

    ghost coded = { Prim.hlevel (codes, expr_code, condition_code) };

    ghost view = { λ a. map section_view a.list.items };

    ghost invariant = { λ a. AreOfProgram (map section_view a.list.items) };
}

impl Sections {
    /// The sections of a list that a program within the limits writes out.
    pub(crate) fn new(list: Vec<Section>) -> Self
        requires { AreOfProgram (map section_view list.items) }
        ensures { result ≡ map section_view list.items }
    {
        Sections { list }
    }

    /// The sections, in order.
    #[tactic(auto, using(crate::proofs::EndIsLast::program_ended))]
    pub fn list(&self) -> &[Section]
        ensures list { map section_view result.now ≡ self.now }
        ensures program { AreOfProgram self.now }
        ensures ended { AreEnded self.now }
    {
        &self.list
    }

    /// Gives the sections away, in order.
    #[tactic(auto, using(crate::proofs::EndIsLast::program_ended))]
    pub fn into_list(self) -> Vec<Section>
        ensures list { map section_view result.items ≡ self }
        ensures program { AreOfProgram self }
        ensures ended { AreEnded self }
    {
        self.list
    }
}

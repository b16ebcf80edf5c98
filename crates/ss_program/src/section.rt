//! A section of a program, with its places and the ways on from each.
ghost use Rattle.std.specs.Prelude.{◌≡◌, ◌<◌, ◌^◌, length, slice_get, Some, IfOk};
ghost use Rattle.ss_program.specs.Match.{section_ways};

use crate::kinds::SectionKind;
use crate::name::Name;
use crate::place::Spot;
use crate::timing::Listing;
use crate::ways::{self, Ways};
use std::alloc::{AllocError, Global};
use std::marker::Model;

/// A local DEFINE: its line, and the names that it gives, whether or not a place takes them for
/// variables.
#[derive(Drop)]
pub struct LocalDefine {
    pub line: usize,
    pub names: Vec<Name>,
}

impl Model for LocalDefine {
    ghost use Rattle.ss_program.specs.Program.{DefineTable};

    ghost Value = { DefineTable };

    ghost view = { λ a. record {
      line = a.line;
      names = a.names.items;
    } };
}

/// A section: its name (`MAIN` for the main one), the line of its head, how many given and how many
/// yielded parameters it has, whether its event's notice is saved, its locals in the order of its
/// table (those of the parameters first), its places, how its given parameters are written, and its
/// local DEFINEs.
#[derive(Drop)]
pub struct Section {
    pub name: Name,
    pub kind: SectionKind,
    pub line: usize,
    pub given: usize,
    pub yielded: usize,
    pub saving: bool,
    pub locals: Vec<Name>,
    pub places: Vec<Spot>,
    pub listing: Listing,
    pub defines: Vec<LocalDefine>,
    ways: Vec<Ways>,
}

impl Model for Section {
    ghost use Rattle.std.specs.Prelude.{◌≡◌};
    ghost use Rattle.ss_program.specs.Match.{section_ways};
    ghost use Rattle.std.specs.Coded.{codes};
    ghost use Rattle.ss_program.specs.Program.{SectionTable};
    ghost use Rattle.ss_program.specs.contracts.place.Spot as spot;

    ghost Value = { SectionTable };

    ghost coded = { Prim.hlevel (codes, spot.the_row.coded) };

    ghost view = { λ a. record {
      name = a.name;
      kind = a.kind;
      line = a.line;
      given = a.given;
      yielded = a.yielded;
      saving = a.saving;
      locals = a.locals.items;
      places = a.places.items;
      listing = a.listing;
      defines = a.defines.items;
    } };

    ghost invariant = { λ a. a.ways.items ≡ section_ways a.places.items };
}

/// The parts of a section other than its locals, its places and its local DEFINEs.
#[derive(Drop)]
pub struct Head {
    pub name: Name,
    pub kind: SectionKind,
    pub line: usize,
    pub given: usize,
    pub yielded: usize,
    pub saving: bool,
    pub listing: Listing,
}

impl Section {
    /// A section of these places, with the ways on from each, and of these local DEFINEs.
    pub fn new(
        alloc: Global,
        head: Head,
        locals: Vec<Name>,
        places: Vec<Spot>,
        defines: Vec<LocalDefine>,
    ) -> Result<Self, AllocError>
        requires few { length places.items < 2 ^ 63 }
        ensures { IfOk result (λ section. section ≡ record {
          name = head.name;
          kind = head.kind;
          line = head.line;
          given = head.given;
          yielded = head.yielded;
          saving = head.saving;
          locals = locals.items;
          places = places.items;
          listing = head.listing;
          defines = defines.items;
        }) }
    {
        let ways = ways::section_ways(alloc, &places)?;
        Ok(Section {
            name: head.name,
            kind: head.kind,
            line: head.line,
            given: head.given,
            yielded: head.yielded,
            saving: head.saving,
            locals,
            places,
            listing: head.listing,
            defines,
            ways,
        })
    }

    /// The ways on from the place with this number.
    #[tactic(auto, using(crate::proofs::WaysLength::ways_length))]
    pub fn ways(&self, place: usize) -> Ways
        requires { place < length self.now.places }
        ensures { slice_get (section_ways self.now.places) place ≡ Some result }
    {
        ways_at(&self.ways, place)
    }
}

fn ways_at(ways: &[Ways], place: usize) -> Ways
    requires { place < length ways.now }
    ensures { slice_get ways.now place ≡ Some result }
{
    ways[place]
}

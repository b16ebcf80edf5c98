//! The data that the adapter keeps in addition to the debugger.
ghost use Rattle.std.specs.Prelude.{◌≡◌};
ghost use Rattle.ss_adapter.specs.Desk.{new_desk};

use crate::pen::Pen;
use ss_check::SymbolTable;
use ss_messages::{Counting, Post, Source, Stops, Text};
use ss_prompt::Shown;
use std::marker::Model;

/// The most data break points. Their numbers are 1 to this one; those of break lines come after.
pub const MOST_WATCHED: usize = 8;

/// The data that the adapter keeps in addition to the debugger.
#[derive(Drop)]
pub struct Desk {
    /// The path of the model.
    pub(crate) path: Vec<u8>,
    /// The bytes of the model.
    pub(crate) model: Vec<u8>,
    /// The symbol table of the model.
    pub(crate) symbols: SymbolTable,
    /// The questions that are answered at each stop of the console.
    pub(crate) displays: Vec<Shown>,
    /// The break lines that requests set by lines.
    pub(crate) set: Vec<u32>,
    /// Those that they set by sections.
    pub(crate) sections: Vec<u32>,
    /// The questions that are data break points, as they were asked.
    pub(crate) watched: Vec<Text>,
    /// How much of the report is sent.
    pub(crate) told: usize,
    /// From which numbers the editor counts lines and columns.
    pub(crate) counting: Counting,
    /// Whether configurationDone stops at the run's position, and whether the run stops at its end.
    pub(crate) stops: Stops,
}

impl Model for Desk {
    ghost use Rattle.ss_adapter.specs.Desk.{DeskView};

    ghost Value = { DeskView };

    ghost view = { λ k. record {
      path = k.path.items;
      model = k.model.items;
      symbols = k.symbols;
      displays = k.displays.items;
      set = k.set.items;
      sections = k.sections.items;
      watched = k.watched.items;
      told = k.told;
      counting = k.counting;
      stops = k.stops;
    } };
}

impl Desk {
    /// The path of the model.
    pub fn path(&self) -> &[u8]
        ensures { result.now ≡ self.now.path }
    {
        &self.path
    }

    /// The model, as the editor knows it.
    pub(crate) fn source(&self) -> Source<'_>
        ensures path { result.path.now ≡ self.now.path }
        ensures counting { result.counting ≡ self.now.counting }
    {
        Source {
            path: &self.path,
            counting: self.counting,
        }
    }

    /// The pen with which a reply of these messages is written.
    pub(crate) fn pen(&self, post: &Post) -> Pen
        ensures { result.counting ≡ self.now.counting }
    {
        Pen {
            alloc: post.alloc(),
            counting: self.counting,
        }
    }

    /// A desk on which nothing is set yet, and no part of the report is sent.
    pub fn new(
        path: Vec<u8>,
        model: Vec<u8>,
        symbols: SymbolTable,
        counting: Counting,
        stops: Stops,
    ) -> Self
        ensures { result ≡ new_desk path.items model.items symbols counting stops }
    {
        let alloc = *path.allocator();
        Desk {
            path,
            model,
            symbols,
            displays: Vec::new(alloc),
            set: Vec::new(alloc),
            sections: Vec::new(alloc),
            watched: Vec::new(alloc),
            told: 0,
            counting,
            stops,
        }
    }
}

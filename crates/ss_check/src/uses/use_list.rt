//! The uses of a name, and the list that collects them.

ghost use Rattle.std.specs.Prelude.{◌≡◌, [], ◌∷◌, ◌++◌, map, OnOk};
ghost use Rattle.ss_check.specs.UseView.{use_view};

use crate::declared::class_need::ClassNeed;
use std::alloc::{AllocError, Global};
use std::marker::Model;

/// A use of a name by a place.
#[derive(Clone, Copy)]
pub enum Use<'a> {
    /// As a value, with how many arguments, if there are parentheses.
    Value {
        name: &'a [u8],
        arguments: Option<usize>,
    },
    /// As a target, with whether there is a subscript.
    Target {
        name: &'a [u8],
        subscripted: bool,
    },
    /// As a set, with whether there is a subscript.
    InSet {
        name: &'a [u8],
        subscripted: bool,
    },
    LoopVariable(&'a [u8]),
    /// As a class of the kind needed.
    OfClass {
        need: ClassNeed,
        name: &'a [u8],
    },
    /// As the class of a notice with this number of values.
    Notice {
        event: &'a [u8],
        values: usize,
    },
    /// As a routine with these numbers of values and targets.
    Routine {
        name: &'a [u8],
        values: usize,
        targets: usize,
    },
}

/// Uses in the order in which they are written.
#[derive(Drop)]
pub struct UseList<'a> {
    list: Vec<Use<'a>>,
}

impl<'a> Model for UseList<'a> {
    ghost use Rattle.std.specs.Prelude.{List, map};
    ghost use Rattle.ss_check.specs.Uses.{Use as UseData};
    ghost use Rattle.ss_check.specs.UseView.{use_view};

    ghost Value = { List UseData };

    ghost view = { λ a. map use_view a.list.items };
}

impl<'a> UseList<'a> {
    /// No uses.
    pub fn new(alloc: Global) -> Self
        ensures { result ≡ [] }
    {
        UseList {
            list: Vec::new(alloc),
        }
    }

    /// Puts a use at the end.
    pub fn add(&mut self, name_use: Use<'a>) -> Result<(), AllocError>
        ensures { OnOk result (self.new ≡ self.old ++ use_view name_use.entry ∷ []) }
    {
        self.list.push(name_use)?;
        Ok(())
    }

    /// The uses, in order.
    pub fn as_slice(&self) -> &[Use<'a>]
        ensures { map use_view result.now ≡ self.now }
    {
        &self.list
    }
}

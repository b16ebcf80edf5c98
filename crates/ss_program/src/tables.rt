//! The rows of the tables of classes and of sets.
use crate::kinds::{ClassKind, Discipline, Owner};
use crate::name::Name;
use std::marker::Model;

/// A class, the number of the global variable of its name, and the names of its attributes in order
/// of declaration.
#[derive(Drop)]
pub struct Class {
    pub name: Name,
    pub kind: ClassKind,
    pub variable: usize,
    pub attributes: Vec<Name>,
}

impl Model for Class {
    ghost use Rattle.ss_program.specs.Program.{ClassTable};

    ghost Value = { ClassTable };

    ghost view = { λ a. record {
      name = a.name;
      kind = a.kind;
      variable = a.variable;
      attributes = a.attributes.items;
    } };
}

impl Class {
    ghost use Rattle.std.specs.Prelude.{◌≡◌};
    ghost use Rattle.ss_program.specs.Program.{event_of_kind};

    /// Whether it is an event class whose notices the data may name (docs/LANGUAGE.md, "External
    /// events").
    pub fn is_external(&self) -> bool
        ensures { result ≡ (event_of_kind self.now.kind).external }
    {
        match &self.kind {
            ClassKind::Event(event) => event.external,
            _ => false,
        }
    }
}

/// A set: its discipline, the owner of its lists, and the number of its members' class.
#[derive(Drop)]
pub struct Set {
    pub name: Name,
    pub discipline: Discipline,
    pub owner: Owner,
    pub member: usize,
}

impl Model for Set {
    ghost use Rattle.ss_program.specs.Program.{SetTable};

    ghost Value = { SetTable };

    ghost view = { λ a. record {
      name = a.name;
      discipline = a.discipline;
      owner = a.owner;
      member = a.member;
    } };
}

//! The kinds of the rows of a program's tables: of classes, of sets and of sections.
use crate::keys::Keys;
use std::marker::Model;

/// The kind of the entities of a class.
#[derive(Drop)]
pub enum ClassKind {
    /// Made once, all of them; `count` is the number of the global variable `N.c`.
    Permanent { count: usize },
    Temporary,
    Event(EventClass),
}

/// The further parts of an event class: the number of its section, the keys that break its ties,
/// and whether the data may name it.
#[derive(Drop)]
pub struct EventClass {
    pub section: usize,
    pub ties: Keys,
    pub external: bool,
}

impl Model for EventClass {
    ghost use Rattle.ss_program.specs.EventTable.{EventTable};

    ghost Value = { EventTable };

    ghost view = { λ a. record { section = a.section; ties = a.ties; external = a.external } };
}

/// The position at which a set files a member if no position is named.
#[derive(Drop)]
pub enum Discipline {
    Fifo,
    Lifo,
    Ranked(Keys),
}

/// The owner of a set's lists: the system has one, or each entity of a class, given by its number,
/// has one.
#[derive(Clone, Copy, PartialEq, Eq)]
pub enum Owner {
    System,
    OwnedBy(usize),
}

/// The kind of a section.
#[derive(Clone, Copy, PartialEq, Eq)]
pub enum SectionKind {
    Main,
    Routine,
    Event,
}

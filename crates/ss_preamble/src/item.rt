//! The items of a preamble as they are written: headings, clauses, definitions and rules of events.

use ss_words::{Name, Rank, Several};

/// One or more names, in upper case.
pub type Names = Several<Name>;

/// A heading of classes.
#[derive(Clone, Copy, Debug, PartialEq, Eq)]
pub enum Heading {
    PermanentEntities,
    TemporaryEntities,
    EventNotices,
}

/// A clause of EVERY or SYSTEM.
#[derive(Debug, Drop)]
pub enum Clause {
    /// `HAS names`
    Has(Names),
    /// `OWNS names`
    Owns(Names),
    /// `BELONGS TO names`
    BelongsTo(Names),
}

/// A key of a ranking: `BY HIGH name` or `BY LOW name`.
#[derive(Debug, Drop)]
pub struct Key {
    pub rank: Rank,
    pub name: Name,
}

/// The discipline of the sets of a DEFINE.
#[derive(Debug, Drop)]
pub enum SetDiscipline {
    /// `FIFO SETS`
    Fifo,
    /// `LIFO SETS`
    Lifo,
    /// `SETS RANKED keys`
    Ranked(Several<Key>),
}

/// A DEFINE.
#[derive(Debug, Drop)]
pub enum Definition {
    /// `DEFINE names AS INTEGER VARIABLES`
    Variables(Names),
    /// `DEFINE names AS` and the discipline of these sets.
    Sets { names: Names, kind: SetDiscipline },
}

/// An item on the order of events, or on events from outside.
#[derive(Debug, Drop)]
pub enum EventRule {
    /// `PRIORITY ORDER IS names`
    PriorityOrder(Names),
    /// `BREAK event TIES keys`
    BreakTies { event: Name, keys: Several<Key> },
    /// `EXTERNAL EVENTS ARE names`
    ExternalEvents(Names),
}

/// An item of the preamble (docs/LANGUAGE.md, "The preamble").
#[derive(Debug, Drop)]
pub enum Item {
    /// `NORMALLY MODE IS INTEGER`
    Normally,
    /// A heading, with the names after INCLUDE or without.
    Headed {
        heading: Heading,
        included: Option<Names>,
    },
    /// `EVERY class` and its clauses.
    OfEvery {
        class: Name,
        clauses: Several<Clause>,
    },
    /// `SYSTEM` and its clauses.
    OfSystem(Several<Clause>),
    Defines(Definition),
    Orders(EventRule),
}

/// An item and the line of its first plain word; lines count from 1.
#[derive(Debug, Drop)]
pub struct ItemAt {
    pub line: usize,
    pub item: Item,
}

/// The declarations of a text: the items of its preamble, in order.
#[derive(Debug, Drop)]
pub struct Decls {
    pub items: Vec<ItemAt>,
    /// The line of the preamble's END; `None` if the text has no preamble.
    pub end: Option<usize>,
}

//! The keys by which members of a ranked set or simultaneous notices are ordered.
use ss_words::Rank;
use std::marker::Model;

/// A key: how it ranks, and the number of an attribute in its class.
#[derive(Clone, Copy, PartialEq, Eq)]
pub struct Key {
    pub rank: Rank,
    pub attribute: usize,
}

/// The keys of a ranking, the one that decides first at the front.
#[derive(Drop)]
pub struct Keys {
    pub list: Vec<Key>,
}

impl Model for Keys {
    ghost use Rattle.std.specs.Prelude.{List};
    ghost use Rattle.ss_program.specs.declared.keys.Key.{Key};

    ghost Value = { List Key };

    ghost view = { λ a. a.list.items };
}

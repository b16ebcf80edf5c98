//! The lists that are known to be in order, and the seats at which a search for a place may begin.
ghost use Rattle.std.specs.Prelude.{◌≡◌, ◌++◌, ℕ, [], false, true, slice_set, replicate, IfOk, OnErr};
ghost use Rattle.ss_store.specs.Order.{known_at};

use crate::shape::SetShape;
use crate::trees::Trees;
use ss_program::Discipline;
use std::alloc::{AllocError, Global};
use std::marker::Model;

/// The round of a list that was found to be in order in no round.
const NO_ROUND: u64 = 0;

/// The lists of the ranked sets that are known to be in order, and a tree of the seats of each.
///
/// A list is known in the round in which it was found to be in order, until that round ends.
/// Contracts see which lists are known. They say nothing of the trees: a tree only gives a seat at
/// which a search may begin.
#[derive(Drop)]
pub(crate) struct Search {
    /// The round in which each list was found to be in order.
    rounds: Vec<u64>,
    /// The round that lasts.
    round: u64,
    trees: Trees,
}

impl Model for Search {
    ghost use Rattle.std.specs.Prelude.{List, Bool};
    ghost use Rattle.ss_store.specs.Order.{AreRounds, known_in};

    ghost Value = { List Bool };

    ghost view = { λ a. known_in a.rounds.items a.round };

    ghost invariant = { λ a. AreRounds a.rounds.items a.round };
}

/// Adds `count` lists that were found to be in order in no round, or none if memory is refused.
fn add_unknown(rounds: &mut Vec<u64>, count: usize) -> Result<(), AllocError>
    ensures ok { IfOk result (λ _. rounds.new.items ≡ rounds.old.items ++ replicate count NO_ROUND) }
    ensures err { OnErr result (rounds.new.items ≡ rounds.old.items) }
{
    rounds.try_reserve(count)?;
    for _ in 0..count {
        rounds.push_reserved(NO_ROUND);
    }
    Ok(())
}

impl Search {
    /// Nothing is known. It takes no memory.
    pub(crate) fn new(alloc: Global) -> Search
        ensures { result ≡ [] }
    {
        Search {
            rounds: Vec::new(alloc),
            round: 1,
            trees: Trees::new(alloc),
        }
    }

    /// Makes room for these numbers of heads and seats. No more is known of any list.
    pub(crate) fn try_grow(&mut self, heads: u32, seats: u32) -> Result<(), AllocError>
        ensures { (h : ℕ) → known_at self.new h ≡ true → known_at self.old h ≡ true }
    {
        let more = (heads as usize).saturating_sub(self.rounds.len());
        add_unknown(&mut self.rounds, more)?;
        self.trees.try_grow(heads as usize, seats as usize)
    }

    /// Whether the list of a head is known to be in order.
    pub(crate) fn knows(&self, head: u32) -> bool
        ensures { result ≡ known_at self.now head }
    {
        match self.rounds.get(head as usize) {
            None => false,
            Some(round) => *round == self.round,
        }
    }

    /// Notes whether the list of a head is known to be in order.
    pub(crate) fn note(&mut self, head: u32, known: bool)
        ensures { self.new ≡ slice_set self.old head known }
    {
        let at = head as usize;
        if at < self.rounds.len() {
            self.rounds[at] = if known { self.round } else { NO_ROUND };
        }
    }

    /// Nothing is known of any list until it is found to be in order once more. No run has as many
    /// rounds as there are; if it had, nothing would be known until the next lists are made.
    pub(crate) fn forget(&mut self)
        ensures { (h : ℕ) → known_at self.new h ≡ false }
    {
        match self.round.checked_add(1) {
            None => self.rounds.truncate(0),
            Some(next) => self.round = next,
        }
    }

    /// Forgets all lists, if `all` is true: none is known to be in order then.
    pub(crate) fn forget_if(&mut self, all: bool)
        ensures forgotten { all ≡ true → (h : ℕ) → known_at self.new h ≡ false }
        ensures kept { all ≡ false → self.new ≡ self.old }
    {
        if all {
            self.forget();
        }
    }

    /// Puts a seat directly after another in the tree of a head, or first, if the set is ranked.
    pub(crate) fn put(&mut self, set: &SetShape, head: u32, seat: u32, before: Option<u32>)
        ensures { self.new ≡ self.old }
    {
        if let Discipline::Ranked(_) = &set.discipline {
            self.trees.put(head, seat, before);
        }
    }

    /// Takes a seat out of the tree of a head, if the set is ranked.
    pub(crate) fn take(&mut self, set: &SetShape, head: u32, seat: u32)
        ensures { self.new ≡ self.old }
    {
        if let Discipline::Ranked(_) = &set.discipline {
            self.trees.take(head, seat);
        }
    }

    /// The trees, to be searched.
    pub(crate) fn trees(&self) -> &Trees {
        &self.trees
    }
}

//! The disciplines of sets and the keys of ties, as items give them.

ghost use Rattle.std.specs.Prelude.{◌≡◌, ◌++◌, map, option_map, IfOk, OnOk};
ghost use Rattle.std.specs.List.{flat_map};
ghost use Rattle.ss_words.specs.Lists.{all_of, several_view};
ghost use Rattle.ss_preamble.specs.View as view;
ghost use Rattle.ss_check.specs.Declarations as declared;
ghost use Rattle.ss_check.specs.Facts.{fact, fact_of};
ghost use Rattle.ss_check.specs.FactsView.{facts_view};
ghost use Rattle.ss_check.specs.Resolved as resolved;

use crate::declared::fact_table::FactTable;
use ss_preamble::{Definition, EventRule, Item, ItemAt, Key, Names, SetDiscipline};
use ss_words::Several;
use std::alloc::{AllocError, Global};
use std::marker::Model;

/// The rankings of a preamble: the disciplines of sets, and the keys that break the ties of event
/// classes.
#[derive(Drop)]
pub(crate) struct Rankings<'a> {
    disciplines: FactTable<&'a SetDiscipline>,
    ties: FactTable<&'a Several<Key>>,
}

impl<'a> Model for Rankings<'a> {
    ghost use Rattle.ss_words.specs.Lists.{all_of, several_view};
    ghost use Rattle.ss_preamble.specs.View.{key_view, set_discipline_view};
    ghost use Rattle.ss_check.specs.FactsView.{facts_view};
    ghost use Rattle.ss_check.specs.Resolved.{Rankings as RankingsData};

    ghost Value = { RankingsData };

    ghost view = { λ a. record {
      disciplines = facts_view (λ k. set_discipline_view k.now) a.disciplines;
      ties = facts_view (λ keys. all_of (several_view key_view keys.now)) a.ties;
    } };
}

impl<'a> Rankings<'a> {
    /// The rankings that these items give.
    pub(crate) fn new(alloc: Global, items: &'a [ItemAt]) -> Result<Self, AllocError>
        ensures { IfOk result (λ r. r ≡ resolved.rankings (view.items_view items.now)) }
    {
        let mut disciplines = FactTable::new(alloc);
        let mut ties = FactTable::new(alloc);
        match add_rankings(&mut disciplines, &mut ties, items) {
            Ok(()) => Ok(Rankings { disciplines, ties }),
            Err(fault) => {
                drop(ties);
                drop(disciplines);
                Err(fault)
            }
        }
    }

    /// The discipline of a set, if one is given.
    #[tactic(auto, using(crate::proofs::TableTurns::fact_of_view))]
    pub(crate) fn discipline(&self, set: &[u8]) -> Option<&'a SetDiscipline>
        ensures { option_map (λ k. view.set_discipline_view k.now) result
            ≡ fact_of self.now.disciplines set.now }
    {
        self.disciplines.get(set).copied()
    }

    /// The keys that break the ties of an event class, if some are given.
    #[tactic(auto, using(crate::proofs::TableTurns::fact_of_view))]
    pub(crate) fn ties(&self, event: &[u8]) -> Option<&'a Several<Key>>
        ensures { option_map (λ keys. all_of (several_view view.key_view keys.now)) result
            ≡ fact_of self.now.ties event.now }
    {
        self.ties.get(event).copied()
    }
}

/// Adds the disciplines and the keys of ties that items give.
fn add_rankings<'a>(
    disciplines: &mut FactTable<&'a SetDiscipline>,
    ties: &mut FactTable<&'a Several<Key>>,
    items: &'a [ItemAt],
) -> Result<(), AllocError>
    ensures disciplines { OnOk result
        (facts_view (λ k. view.set_discipline_view k.now) disciplines.new
        ≡ facts_view (λ k. view.set_discipline_view k.now) disciplines.old
        ++ flat_map (λ i. declared.disciplines_in i.item) (view.items_view items.now)) }
    ensures ties { OnOk result
        (facts_view (λ keys. all_of (several_view view.key_view keys.now)) ties.new
        ≡ facts_view (λ keys. all_of (several_view view.key_view keys.now)) ties.old
        ++ flat_map (λ i. declared.ties_in i.item) (view.items_view items.now)) }
{
    for one in items {
        add_disciplines(disciplines, &one.item)?;
        add_ties(ties, &one.item)?;
    }
    Ok(())
}

/// Adds the disciplines that an item gives.
fn add_disciplines<'a>(
    disciplines: &mut FactTable<&'a SetDiscipline>,
    item: &'a Item,
) -> Result<(), AllocError>
    ensures { OnOk result (facts_view (λ k. view.set_discipline_view k.now) disciplines.new
        ≡ facts_view (λ k. view.set_discipline_view k.now) disciplines.old
        ++ declared.disciplines_in (view.item_view item.now)) }
{
    match item {
        Item::Defines(Definition::Sets { names, kind }) => add_kinds(disciplines, names, kind),
        _ => Ok(()),
    }
}

/// Adds this as the discipline of sets.
#[tactic(auto, using(crate::proofs::TableTurns::facts_view_push))]
fn add_kinds<'a>(
    disciplines: &mut FactTable<&'a SetDiscipline>,
    sets: &Names,
    kind: &'a SetDiscipline,
) -> Result<(), AllocError>
    ensures { OnOk result (facts_view (λ k. view.set_discipline_view k.now) disciplines.new
        ≡ facts_view (λ k. view.set_discipline_view k.now) disciplines.old
        ++ map (λ s. fact s (view.set_discipline_view kind.now))
        (all_of (several_view (λ n. n) sets.now))) }
{
    disciplines.add(sets.first.bytes(), kind)?;
    for set in &sets.others {
        disciplines.add(set.bytes(), kind)?;
    }
    Ok(())
}

/// Adds the keys of an event class's ties that an item gives.
#[tactic(auto, using(crate::proofs::TableTurns::facts_view_push))]
fn add_ties<'a>(ties: &mut FactTable<&'a Several<Key>>, item: &'a Item) -> Result<(), AllocError>
    ensures { OnOk result
        (facts_view (λ keys. all_of (several_view view.key_view keys.now)) ties.new
        ≡ facts_view (λ keys. all_of (several_view view.key_view keys.now)) ties.old
        ++ declared.ties_in (view.item_view item.now)) }
{
    match item {
        Item::Orders(EventRule::BreakTies { event, keys }) => ties.add(event.bytes(), keys),
        _ => Ok(()),
    }
}

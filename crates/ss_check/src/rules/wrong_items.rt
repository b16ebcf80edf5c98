//! What is wrong with an item that breaks a rule, in the tables with it.

ghost use Rattle.std.specs.Prelude.{◌≡◌, length, map, option_map, IfOk};
ghost use Rattle.std.specs.List.{find, flat_map};
ghost use Rattle.ss_words.specs.Lists.{all_of, several_view};
ghost use Rattle.ss_preamble.specs.View as view;
ghost use Rattle.ss_check.specs.declared.fault.CheckRule.TheVariants as check;
ghost use Rattle.ss_check.specs.Declarations as declared;
ghost use Rattle.ss_check.specs.Facts.{first_of};
ghost use Rattle.ss_check.specs.Increments as later;
ghost use Rattle.ss_check.specs.ItemRules as rules;

use crate::declared::tables::Tables;
use crate::fault::CheckRule;
use crate::rules::keys::wrong_key_of;
use crate::rules::named::{first_class, first_of_names, first_set};
use crate::wrong::{Reason, Wrong, about};
use ss_preamble::{Clause, EventRule, Item};
use ss_words::Several;
use std::alloc::{AllocError, Global};

// ---- C1, C4 and C5

/// What is wrong if these tables say something twice.
fn twice(alloc: Global, with: &Tables) -> Result<Wrong, AllocError>
    ensures { IfOk result (λ wrong. wrong ≡ later.twice_with with.now) }
{
    if let Some(name) = with.kinds.first_conflict() {
        about(alloc, Reason::DeclaredTwice, Some(name))
    } else if let Some(name) = with.disciplines.first_repeat() {
        about(alloc, Reason::DisciplinedTwice, Some(name))
    } else if let Some(name) = with.ties.first_repeat() {
        about(alloc, Reason::BrokenTwice, Some(name))
    } else {
        about(alloc, Reason::ExternalTwice, with.external.first_repeat())
    }
}

/// What is wrong with the owner of a set of an item.
fn wrong_owner(
    alloc: Global,
    whole: &Tables,
    with: &Tables,
    item: &Item,
) -> Result<Wrong, AllocError>
    ensures { IfOk result
        (λ wrong. wrong ≡ later.owner_with whole.now with.now (view.item_view item.now)) }
{
    match first_set(whole, CheckRule::WrongOwner, item) {
        Some(name) => about(alloc, Reason::Ownerless, Some(name)),
        None => about(alloc, Reason::OwnedTwice, with.owners.first_repeat()),
    }
}

/// The first set that one of these clauses joins.
fn first_joined(clauses: &[Clause]) -> Option<&[u8]>
    ensures { option_map (λ n. n.now) result
        ≡ first_of (flat_map declared.joined_in (map view.clause_view clauses.now)) }
{
    for clause in clauses {
        if let Clause::BelongsTo(sets) = clause {
            return Some(sets.first.bytes());
        }
    }
    None
}

/// The first set that one of several clauses joins.
pub(crate) fn first_joined_of(clauses: &Several<Clause>) -> Option<&[u8]>
    ensures { option_map (λ n. n.now) result ≡ first_of
        (flat_map declared.joined_in (all_of (several_view view.clause_view clauses.now))) }
{
    match &clauses.first {
        Clause::BelongsTo(sets) => Some(sets.first.bytes()),
        Clause::Has(_) | Clause::Owns(_) => first_joined(&clauses.others),
    }
}

/// The first set that an item joins.
fn joined_set(item: &Item) -> Option<&[u8]>
    ensures { option_map (λ n. n.now) result
        ≡ first_of (declared.sets_joined (view.item_view item.now)) }
{
    match item {
        Item::OfEvery { clauses, .. } | Item::OfSystem(clauses) => first_joined_of(clauses),
        _ => None,
    }
}

/// What is wrong with the class of the members of a set of an item.
fn wrong_member(
    alloc: Global,
    whole: &Tables,
    with: &Tables,
    item: &Item,
) -> Result<Wrong, AllocError>
    ensures { IfOk result
        (λ wrong. wrong ≡ later.member_with whole.now with.now (view.item_view item.now)) }
{
    match first_set(whole, CheckRule::WrongMember, item) {
        Some(name) => about(alloc, Reason::Memberless, Some(name)),
        None => match with.members.first_repeat() {
            Some(name) => about(alloc, Reason::JoinedTwice, Some(name)),
            None => about(alloc, Reason::JoinedBySystem, joined_set(item)),
        },
    }
}

// ---- C12

/// How many classes a PRIORITY names.
fn priority_count(item: &Item) -> usize
    ensures { result ≡ length (declared.priority_in (view.item_view item.now)) }
{
    match item {
        Item::Orders(EventRule::PriorityOrder(names)) => 1 + names.others.len(),
        _ => 0,
    }
}

/// The first name of a PRIORITY that is no event class.
fn ordered_no_event<'a>(whole: &Tables, item: &'a Item) -> Option<&'a [u8]>
    ensures { option_map (λ n. n.now) result
        ≡ find (rules.name_breaks whole.now check.WrongPriority)
        (declared.priority_in (view.item_view item.now)) }
{
    match item {
        Item::Orders(EventRule::PriorityOrder(names)) => {
            first_of_names(whole, CheckRule::WrongPriority, names)
        }
        _ => None,
    }
}

/// What is wrong with a PRIORITY.
fn wrong_priority(
    alloc: Global,
    whole: &Tables,
    with: &Tables,
    item: &Item,
) -> Result<Wrong, AllocError>
    ensures { IfOk result
        (λ wrong. wrong ≡ later.priority_with whole.now with.now (view.item_view item.now)) }
{
    if priority_count(item) < with.priority.len() {
        return about(alloc, Reason::SecondPriority, None);
    }
    match with.priority.first_repeat() {
        Some(name) => about(alloc, Reason::OrderedTwice, Some(name)),
        None => about(alloc, Reason::NoEvent, ordered_no_event(whole, item)),
    }
}

// ---- all rules

/// What is wrong with an item that breaks this rule, in the tables with it.
pub(crate) fn item_wrong(
    alloc: Global,
    whole: &Tables,
    with: &Tables,
    item: &Item,
    rule: CheckRule,
) -> Result<Wrong, AllocError>
    ensures { IfOk result
        (λ wrong. wrong ≡ later.item_wrong_with whole.now with.now (view.item_view item.now) rule) }
{
    match rule {
        CheckRule::DeclaredTwice => twice(alloc, with),
        CheckRule::WrongClass => {
            let name = first_class(whole, rule, item);
            about(alloc, Reason::WrongClass, name)
        }
        CheckRule::WrongOwner => wrong_owner(alloc, whole, with, item),
        CheckRule::WrongMember => wrong_member(alloc, whole, with, item),
        CheckRule::WrongKey => about(alloc, Reason::WrongKey, wrong_key_of(whole, item)),
        CheckRule::WrongEvent => {
            let name = first_class(whole, rule, item);
            about(alloc, Reason::NoSection, name)
        }
        _ => wrong_priority(alloc, whole, with, item),
    }
}

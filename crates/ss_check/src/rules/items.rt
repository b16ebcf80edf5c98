//! The rules on the items of a preamble.

ghost use Rattle.std.specs.Prelude.{◌≡◌, ◌++◌, ◌&&◌, ◌||◌, [], not, Some, IfOk, OnOk};
ghost use Rattle.std.specs.List.{list_any};
ghost use Rattle.ss_check.specs.declared.fault.CheckRule.TheVariants as check;
ghost use Rattle.ss_words.specs.Lists.{all_of, several_view};
ghost use Rattle.ss_preamble.specs.View as view;
ghost use Rattle.ss_check.specs.Increments.{IsOnce, headed_item, with_item};
ghost use Rattle.ss_check.specs.Declarations as declared;
ghost use Rattle.ss_check.specs.Facts.{fact_of, is_among, names_of, repeats};
ghost use Rattle.ss_check.specs.ItemRules as rules;
ghost use Rattle.ss_check.specs.NameKinds.{names_set, one_conflicts};
ghost use Rattle.ss_check.specs.Statements.{rule_where, lowest};

use crate::declared::class_need::ClassNeed;
use crate::declared::fact_table::FactTable;
use crate::declared::item_names::add_names;
use crate::declared::kind_table::KindTable;
use crate::declared::name_kind::{names_set, serves};
use crate::declared::name_list::NameList;
use crate::declared::tables::Tables;
use crate::fault::CheckRule;
use crate::rules::keys::has_wrong_keys_unless;
use crate::rules::named::first_of_names;
use crate::rules::wrong_items::first_joined_of;
use ss_preamble::{Clause, Definition, EventRule, Heading, Item, ItemAt, Names};
use ss_words::Name;
use std::alloc::{AllocError, Global};

/// Which rules an item breaks.
#[derive(Clone, Copy)]
struct ItemBreaks {
    /// C1
    declares_twice: bool,
    /// C2
    names_wrong_class: bool,
    /// C4
    has_wrong_owner: bool,
    /// C5
    has_wrong_member: bool,
    /// C6, asked only if C1 is kept
    has_wrong_keys: bool,
    /// C8
    lacks_section: bool,
    /// C12
    has_wrong_priority: bool,
}

impl ItemBreaks {
    /// The lowest of these rules.
    fn lowest(&self) -> Option<CheckRule>
        ensures { result ≡ lowest (rule_where check.DeclaredTwice self.now.declares_twice
            ++ rule_where check.WrongClass self.now.names_wrong_class
            ++ rule_where check.WrongOwner self.now.has_wrong_owner
            ++ rule_where check.WrongMember self.now.has_wrong_member
            ++ rule_where check.WrongKey self.now.has_wrong_keys
            ++ rule_where check.WrongEvent self.now.lacks_section
            ++ rule_where check.WrongPriority self.now.has_wrong_priority) }
    {
        if self.declares_twice {
            Some(CheckRule::DeclaredTwice)
        } else if self.names_wrong_class {
            Some(CheckRule::WrongClass)
        } else if self.has_wrong_owner {
            Some(CheckRule::WrongOwner)
        } else if self.has_wrong_member {
            Some(CheckRule::WrongMember)
        } else if self.has_wrong_keys {
            Some(CheckRule::WrongKey)
        } else if self.lacks_section {
            Some(CheckRule::WrongEvent)
        } else if self.has_wrong_priority {
            Some(CheckRule::WrongPriority)
        } else {
            None
        }
    }
}

/// The lowest rule that an item under this heading breaks after the declarations `before`, to which
/// it is added.
pub(crate) fn item_rule(
    alloc: Global,
    whole: &Tables,
    before: &mut Tables,
    heading: Option<Heading>,
    item_at: &ItemAt,
) -> Result<Option<CheckRule>, AllocError>
    requires { IsOnce before.old }
    ensures rule { IfOk result
        (λ r. r ≡ rules.item_rule whole.now before.old
        (headed_item heading (view.item_at_view item_at.now))) }
    ensures tables { OnOk result
        (before.new ≡ with_item before.old (headed_item heading (view.item_at_view item_at.now))) }
{
    let item = &item_at.item;
    let is_ownerless = names_ownerless_set(whole, before, item);
    let is_memberless = names_memberless_set(whole, before, item);
    let lacks_section = names_without_section(whole, before, item);
    let has_wrong_priority = orders_wrong_priority(alloc, whole, before, item)?;
    before.add_item(alloc, heading, item_at)?;
    let declares_twice = says_twice(before);
    let breaks = ItemBreaks {
        declares_twice,
        names_wrong_class: names_wrong_class(whole, heading, item),
        has_wrong_owner: is_ownerless | repeats_owner(before),
        has_wrong_member: is_memberless | repeats_member(before) | joins_system(item),
        has_wrong_keys: has_wrong_keys_unless(declares_twice, whole, item),
        lacks_section,
        has_wrong_priority,
    };
    Ok(breaks.lowest())
}

// ---- C1

/// Whether these tables declare a name twice, give a set two disciplines, break the ties of an
/// event class twice or name one twice as external.
fn says_twice(tables: &Tables) -> bool
    ensures { result ≡ (one_conflicts [] tables.now.kinds || repeats [] tables.now.disciplines
        || repeats [] tables.now.ties || repeats [] tables.now.external) }
{
    tables.kinds.has_conflict()
        || tables.disciplines.has_repeat()
        || tables.ties.has_repeat()
        || tables.external.has_repeat()
}

// ---- C2

/// Whether an item is EVERY under no heading, or BREAK or EXTERNAL of no event class.
fn names_wrong_class(whole: &Tables, heading: Option<Heading>, item: &Item) -> bool
    ensures { result ≡ rules.names_wrong_class whole.now heading (view.item_view item.now) }
{
    match item {
        Item::OfEvery { .. } => heading.is_none(),
        Item::Orders(EventRule::BreakTies { event, .. }) => !is_event_class(whole, event.bytes()),
        Item::Orders(EventRule::ExternalEvents(names)) => names_no_event(whole, names),
        _ => false,
    }
}

/// Whether a name is an event class.
pub(crate) fn is_event_class(whole: &Tables, name: &[u8]) -> bool
    ensures { result ≡ declared.is_event_class whole.now name.now }
{
    serves(ClassNeed::Event, whole.kinds.get(name))
}

/// Whether one of these names is no event class.
#[tactic(auto, using(crate::proofs::Finds::found_any))]
fn names_no_event(whole: &Tables, names: &Names) -> bool
    ensures { result ≡ list_any (λ c. not (declared.is_event_class whole.now c))
        (all_of (several_view (λ n. n) names.now)) }
{
    first_of_names(whole, CheckRule::WrongClass, names).is_some()
}

// ---- C4 and C5

/// Whether an item is the first to name a set that has no owner.
fn names_ownerless_set(whole: &Tables, before: &Tables, item: &Item) -> bool
    ensures { result ≡ list_any (λ s. not (names_set (fact_of before.now.kinds s))
        && not (is_among s (names_of whole.now.owners)))
        (declared.sets_in (view.item_view item.now)) }
{
    names_new_without(&whole.owners, &before.kinds, item)
}

/// Whether an item is the first to name a set that has no class of members.
fn names_memberless_set(whole: &Tables, before: &Tables, item: &Item) -> bool
    ensures { result ≡ list_any (λ s. not (names_set (fact_of before.now.kinds s))
        && not (is_among s (names_of whole.now.members)))
        (declared.sets_in (view.item_view item.now)) }
{
    names_new_without(&whole.members, &before.kinds, item)
}

/// Whether these tables give a set two owners.
fn repeats_owner(tables: &Tables) -> bool
    ensures { result ≡ repeats [] (names_of tables.now.owners) }
{
    tables.owners.has_repeat()
}

/// Whether these tables give a set two classes of members.
fn repeats_member(tables: &Tables) -> bool
    ensures { result ≡ repeats [] (names_of tables.now.members) }
{
    tables.members.has_repeat()
}

/// Whether an item is the first to name a set of which there is no fact.
#[tactic(auto, using(crate::proofs::Tests::any_append, crate::proofs::Tests::any_end, crate::proofs::Tests::any_parts))]
fn names_new_without<T: Drop>(facts: &FactTable<T>, kinds: &KindTable, item: &Item) -> bool
    ensures { result ≡ list_any
        (λ s. not (names_set (fact_of kinds.now s)) && not (is_among s (names_of facts.now)))
        (declared.sets_in (view.item_view item.now)) }
{
    match item {
        Item::OfEvery { clauses, .. } | Item::OfSystem(clauses) => {
            clause_names_new(facts, kinds, &clauses.first)
                || any_clause_names_new(facts, kinds, &clauses.others)
        }
        Item::Defines(Definition::Sets { names, .. }) => any_new_without(facts, kinds, names),
        _ => false,
    }
}

fn any_clause_names_new<T: Drop>(
    facts: &FactTable<T>,
    kinds: &KindTable,
    clauses: &[Clause],
) -> bool
    ensures { result ≡ list_any (λ c. list_any
        (λ s. not (names_set (fact_of kinds.now s)) && not (is_among s (names_of facts.now)))
        (declared.sets_of (view.clause_view c))) clauses.now }
{
    for clause in clauses {
        if clause_names_new(facts, kinds, clause) {
            return true;
        }
    }
    false
}

/// Whether a clause names a set that is not declared and of which there is no fact.
fn clause_names_new<T: Drop>(facts: &FactTable<T>, kinds: &KindTable, clause: &Clause) -> bool
    ensures { result ≡ list_any
        (λ s. not (names_set (fact_of kinds.now s)) && not (is_among s (names_of facts.now)))
        (declared.sets_of (view.clause_view clause.now)) }
{
    match clause {
        Clause::Has(_) => false,
        Clause::Owns(sets) | Clause::BelongsTo(sets) => any_new_without(facts, kinds, sets),
    }
}

/// Whether one of these names is not declared as a set, and there is no fact of it.
#[tactic(auto, using(crate::proofs::Tests::any_map))]
fn any_new_without<T: Drop>(facts: &FactTable<T>, kinds: &KindTable, sets: &Names) -> bool
    ensures { result ≡ list_any
        (λ s. not (names_set (fact_of kinds.now s)) && not (is_among s (names_of facts.now)))
        (all_of (several_view (λ n. n) sets.now)) }
{
    is_new_without(facts, kinds, sets.first.bytes())
        || any_other_without(facts, kinds, &sets.others)
}

fn any_other_without<T: Drop>(facts: &FactTable<T>, kinds: &KindTable, sets: &[Name]) -> bool
    ensures { result ≡ list_any
        (λ s. not (names_set (fact_of kinds.now s)) && not (is_among s (names_of facts.now)))
        sets.now }
{
    for set in sets {
        if is_new_without(facts, kinds, set.bytes()) {
            return true;
        }
    }
    false
}

fn is_new_without<T: Drop>(facts: &FactTable<T>, kinds: &KindTable, set: &[u8]) -> bool
    ensures { result
        ≡ (not (names_set (fact_of kinds.now set.now))
        && not (is_among set.now (names_of facts.now))) }
{
    !names_set(kinds.get(set)) && !facts.has(set)
}

/// Whether an item is SYSTEM with a BELONGS.
#[tactic(auto, using(crate::proofs::Tests::joins_found))]
fn joins_system(item: &Item) -> bool
    ensures { result ≡ rules.joins_system (declared.class_of_item (view.item_view item.now))
        (declared.sets_joined (view.item_view item.now)) }
{
    match item {
        Item::OfSystem(clauses) => first_joined_of(clauses).is_some(),
        _ => false,
    }
}

// ---- C8

/// Whether an item is the first to name an event class without a section.
fn names_without_section(whole: &Tables, before: &Tables, item: &Item) -> bool
    ensures { result ≡ rules.lacks_section whole.now before.now (view.item_view item.now) }
{
    lacks_section(whole, &before.classes, item)
}

/// Whether an item names an event class without a section that is not among `classes`, those named
/// before.
fn lacks_section(whole: &Tables, classes: &NameList, item: &Item) -> bool
    ensures { result ≡ list_any
        (λ c. not (is_among c classes.now) && rules.is_without_section whole.now c)
        (declared.classes_in (view.item_view item.now)) }
{
    match item {
        Item::Headed {
            included: Some(names),
            ..
        } => any_lacks_section(whole, classes, names),
        Item::OfEvery { class, .. } => is_new_without_section(whole, classes, class.bytes()),
        Item::Orders(order) => order_lacks_section(whole, classes, order),
        Item::Normally
        | Item::Headed { included: None, .. }
        | Item::OfSystem(_)
        | Item::Defines(_) => false,
    }
}

/// Whether an item on events names such a class.
fn order_lacks_section(whole: &Tables, classes: &NameList, order: &EventRule) -> bool
    ensures { result ≡ list_any
        (λ c. not (is_among c classes.now) && rules.is_without_section whole.now c)
        (declared.classes_ordered (view.event_rule_view order.now)) }
{
    match order {
        EventRule::PriorityOrder(names) => any_lacks_section(whole, classes, names),
        EventRule::ExternalEvents(names) => any_lacks_section(whole, classes, names),
        EventRule::BreakTies { event, .. } => is_new_without_section(whole, classes, event.bytes()),
    }
}

/// Whether one of these is an event class without a section, and not among `classes`.
#[tactic(auto, using(crate::proofs::Tests::any_map))]
fn any_lacks_section(whole: &Tables, classes: &NameList, names: &Names) -> bool
    ensures { result ≡ list_any
        (λ c. not (is_among c classes.now) && rules.is_without_section whole.now c)
        (all_of (several_view (λ n. n) names.now)) }
{
    is_new_without_section(whole, classes, names.first.bytes())
        || any_other_section(whole, classes, &names.others)
}

fn any_other_section(whole: &Tables, classes: &NameList, names: &[Name]) -> bool
    ensures { result ≡ list_any
        (λ n. not (is_among n classes.now) && rules.is_without_section whole.now n) names.now }
{
    for name in names {
        if is_new_without_section(whole, classes, name.bytes()) {
            return true;
        }
    }
    false
}

fn is_new_without_section(whole: &Tables, classes: &NameList, name: &[u8]) -> bool
    ensures { result
        ≡ (not (is_among name.now classes.now) && rules.is_without_section whole.now name.now) }
{
    !classes.has(name) && is_event_class(whole, name) && !whole.events.has(name)
}

// ---- C12

/// Whether an item is a PRIORITY after one of `before`, names a class twice or names a class that
/// is no event class.
fn orders_wrong_priority(
    alloc: Global,
    whole: &Tables,
    before: &Tables,
    item: &Item,
) -> Result<bool, AllocError>
    ensures { IfOk result (λ r. r ≡ rules.has_wrong_priority whole.now before.now.priority
        (declared.priority_in (view.item_view item.now))) }
{
    has_wrong_priority(alloc, whole, &before.priority, item)
}

/// Whether an item is a PRIORITY after others, names a class twice or names a class that is no
/// event class.
fn has_wrong_priority(
    alloc: Global,
    whole: &Tables,
    before: &NameList,
    item: &Item,
) -> Result<bool, AllocError>
    ensures { IfOk result (λ r. r ≡ rules.has_wrong_priority whole.now before.now
        (declared.priority_in (view.item_view item.now))) }
{
    let Item::Orders(EventRule::PriorityOrder(names)) = item else {
        return Ok(false);
    };
    if !before.is_empty() {
        return Ok(true);
    }
    Ok(names_twice(alloc, names)? || names_no_event(whole, names))
}

/// Whether a name is twice among these.
fn names_twice(alloc: Global, names: &Names) -> Result<bool, AllocError>
    ensures { IfOk result (λ r. r ≡ repeats [] (all_of (several_view (λ n. n) names.now))) }
{
    let mut list = NameList::new(alloc);
    let added = add_names(&mut list, names);
    let is_repeated = list.has_repeat();
    drop(list);
    added?;
    Ok(is_repeated)
}

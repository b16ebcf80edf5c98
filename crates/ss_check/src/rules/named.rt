//! The first of several names that breaks a rule.

ghost use Rattle.std.specs.Prelude.{◌≡◌, [], ◌∷◌, map, option_map};
ghost use Rattle.std.specs.List.{find, flat_map};
ghost use Rattle.ss_words.specs.Lists.{all_of, several_view};
ghost use Rattle.ss_preamble.specs.View as view;
ghost use Rattle.ss_routines.specs.Tree.{listing_names};
ghost use Rattle.ss_routines.specs.View as routines;
ghost use Rattle.ss_check.specs.declared.fault.CheckRule.TheVariants as check;
ghost use Rattle.ss_check.specs.Declarations as declared;
ghost use Rattle.ss_check.specs.ItemRules as rules;

use crate::declared::tables::Tables;
use crate::fault::CheckRule;
use crate::rules::items::is_event_class;
use ss_preamble::{Clause, Definition, EventRule, Item, Names};
use ss_routines::{Listing, Section, SectionKind};
use ss_words::{Name, Several};

/// Whether a name breaks this rule by itself, if an item, a parameter or a local DEFINE names it.
fn name_breaks(whole: &Tables, rule: CheckRule, name: &[u8]) -> bool
    ensures { result ≡ rules.name_breaks whole.now rule name.now }
{
    match rule {
        CheckRule::DeclaredTwice => whole.kinds.has(name),
        CheckRule::WrongClass | CheckRule::WrongPriority => !is_event_class(whole, name),
        CheckRule::WrongOwner => !whole.owners.has(name),
        CheckRule::WrongMember => !whole.members.has(name),
        CheckRule::WrongEvent => is_event_class(whole, name) && !whole.events.has(name),
        _ => false,
    }
}

/// The name, if it breaks the rule.
fn where_broken<'a>(whole: &Tables, rule: CheckRule, name: &'a [u8]) -> Option<&'a [u8]>
    ensures { option_map (λ n. n.now) result
        ≡ find (rules.name_breaks whole.now rule) (name.now ∷ []) }
{
    if name_breaks(whole, rule, name) {
        Some(name)
    } else {
        None
    }
}

/// The first of these names that breaks the rule.
pub(crate) fn first_named<'a>(
    whole: &Tables,
    rule: CheckRule,
    names: &'a [Name],
) -> Option<&'a [u8]>
    ensures { option_map (λ n. n.now) result
        ≡ find (rules.name_breaks whole.now rule) names.now }
{
    for name in names {
        if name_breaks(whole, rule, name.bytes()) {
            return Some(name.bytes());
        }
    }
    None
}

/// The first of several names that breaks the rule.
#[tactic(auto, using(crate::proofs::Finds::find_same))]
pub(crate) fn first_of_names<'a>(
    whole: &Tables,
    rule: CheckRule,
    names: &'a Names,
) -> Option<&'a [u8]>
    ensures { option_map (λ n. n.now) result
        ≡ find (rules.name_breaks whole.now rule) (all_of (several_view (λ n. n) names.now)) }
{
    if name_breaks(whole, rule, names.first.bytes()) {
        return Some(names.first.bytes());
    }
    first_named(whole, rule, &names.others)
}

/// The first set of a clause that breaks the rule.
fn first_of_clause<'a>(whole: &Tables, rule: CheckRule, clause: &'a Clause) -> Option<&'a [u8]>
    ensures { option_map (λ n. n.now) result
        ≡ find (rules.name_breaks whole.now rule) (declared.sets_of (view.clause_view clause.now)) }
{
    match clause {
        Clause::Has(_) => None,
        Clause::Owns(sets) | Clause::BelongsTo(sets) => first_of_names(whole, rule, sets),
    }
}

/// The first set of these clauses that breaks the rule.
fn first_of_clauses<'a>(whole: &Tables, rule: CheckRule, clauses: &'a [Clause]) -> Option<&'a [u8]>
    ensures { option_map (λ n. n.now) result ≡ find (rules.name_breaks whole.now rule)
        (flat_map declared.sets_of (map view.clause_view clauses.now)) }
{
    for clause in clauses {
        if let Some(name) = first_of_clause(whole, rule, clause) {
            return Some(name);
        }
    }
    None
}

/// The first set of several clauses that breaks the rule.
#[tactic(auto, using(crate::proofs::Finds::find_append))]
fn first_of_several<'a>(
    whole: &Tables,
    rule: CheckRule,
    clauses: &'a Several<Clause>,
) -> Option<&'a [u8]>
    ensures { option_map (λ n. n.now) result ≡ find (rules.name_breaks whole.now rule)
        (flat_map declared.sets_of (all_of (several_view view.clause_view clauses.now))) }
{
    if let Some(name) = first_of_clause(whole, rule, &clauses.first) {
        return Some(name);
    }
    first_of_clauses(whole, rule, &clauses.others)
}

/// The first set that an item names and that breaks the rule.
pub(crate) fn first_set<'a>(whole: &Tables, rule: CheckRule, item: &'a Item) -> Option<&'a [u8]>
    ensures { option_map (λ n. n.now) result ≡ find (rules.name_breaks whole.now rule)
        (declared.sets_in (view.item_view item.now)) }
{
    match item {
        Item::OfEvery { clauses, .. } | Item::OfSystem(clauses) => {
            first_of_several(whole, rule, clauses)
        }
        Item::Defines(Definition::Sets { names, .. }) => first_of_names(whole, rule, names),
        _ => None,
    }
}

/// The first name that an item names as a class and that breaks the rule.
pub(crate) fn first_class<'a>(whole: &Tables, rule: CheckRule, item: &'a Item) -> Option<&'a [u8]>
    ensures { option_map (λ n. n.now) result ≡ find (rules.name_breaks whole.now rule)
        (declared.classes_in (view.item_view item.now)) }
{
    match item {
        Item::Headed {
            included: Some(names),
            ..
        }
        | Item::Orders(EventRule::PriorityOrder(names) | EventRule::ExternalEvents(names)) => {
            first_of_names(whole, rule, names)
        }
        Item::OfEvery { class, .. } => where_broken(whole, rule, class.bytes()),
        Item::Orders(EventRule::BreakTies { event, .. }) => {
            where_broken(whole, rule, event.bytes())
        }
        Item::Normally
        | Item::Headed { included: None, .. }
        | Item::OfSystem(_)
        | Item::Defines(_) => None,
    }
}

/// The first declared name of a list that may be left out.
fn first_listed<'a>(whole: &Tables, names: &'a Listing<Name>) -> Option<&'a [u8]>
    ensures { option_map (λ n. n.now) result
        ≡ find (rules.name_breaks whole.now check.DeclaredTwice)
        (listing_names (routines.listing_view (λ n. n) names.now)) }
{
    match names {
        Listing::Unwritten => None,
        Listing::BehindGiven(names) | Listing::InParentheses(names) => {
            first_of_names(whole, CheckRule::DeclaredTwice, names)
        }
    }
}

/// The first parameter of a section that has a declared name.
#[tactic(auto, using(crate::proofs::Finds::find_append, crate::proofs::Finds::find_end))]
pub(crate) fn declared_parameter<'a>(whole: &Tables, section: &'a Section) -> Option<&'a [u8]>
    ensures { option_map (λ n. n.now) result
        ≡ find (rules.name_breaks whole.now check.DeclaredTwice)
        (declared.parameters (routines.section_view section.now).head) }
{
    match &section.kind {
        SectionKind::Main => None,
        SectionKind::Routine { given, yielded } => match first_listed(whole, given) {
            Some(name) => Some(name),
            None => first_named(whole, CheckRule::DeclaredTwice, yielded),
        },
        SectionKind::Event { given, .. } => first_listed(whole, given),
    }
}

//! The rule on the attributes that rank sets and break ties, and the first that breaks it.

ghost use Rattle.std.specs.Prelude.{◌≡◌, ◌&&◌, map, not, option_map, Some};
ghost use Rattle.std.specs.List.{find};
ghost use Rattle.ss_words.specs.Lists.{all_of, several_view};
ghost use Rattle.ss_preamble.specs.View as view;
ghost use Rattle.ss_check.specs.Facts.{fact_of};
ghost use Rattle.ss_check.specs.ItemRules as rules;

use crate::declared::tables::Tables;
use ss_preamble::{Definition, EventRule, Item, Key, Names, SetDiscipline};
use ss_words::{Name, Several};

/// Whether an item that declares nothing twice has a wrong key. An item that declares something
/// twice breaks a lower rule, and is not asked: so no set and no event class is asked for its keys
/// a second time.
pub(crate) fn has_wrong_keys_unless(declares_twice: bool, whole: &Tables, item: &Item) -> bool
    ensures { result
        ≡ (not declares_twice && rules.has_wrong_keys whole.now (view.item_view item.now)) }
{
    !declares_twice && has_wrong_keys(whole, item)
}

/// Whether an item ranks a set by a name that is no attribute of its members, or breaks the ties of
/// an event class by a name that is none of its attributes.
fn has_wrong_keys(whole: &Tables, item: &Item) -> bool
    ensures { result ≡ rules.has_wrong_keys whole.now (view.item_view item.now) }
{
    wrong_key_of(whole, item).is_some()
}

/// Whether a set is ranked by a name that is no attribute of its members, or has no members and is
/// ranked.
#[tactic(auto, using(crate::proofs::Keys::rank_found))]
fn is_wrong_rank(whole: &Tables, set: &[u8], kind: &SetDiscipline) -> bool
    ensures { result ≡ rules.has_wrong_rank whole.now (fact_of whole.now.members set.now)
        (view.set_discipline_view kind.now) }
{
    wrong_rank(whole, set, kind).is_some()
}

/// Whether a key is no attribute of a class.
fn is_wrong_key(whole: &Tables, class: &[u8], key: &Key) -> bool
    ensures { result ≡ rules.is_wrong_key whole.now class.now (view.key_view key.now) }
{
    !whole.kinds.has_attribute(class, key.name.bytes())
}

/// The first of these keys that is no attribute of a class.
fn first_wrong_key<'a>(whole: &Tables, class: &[u8], keys: &'a [Key]) -> Option<&'a [u8]>
    ensures { option_map (λ n. n.now) result ≡ option_map (λ k. k.name)
        (find (rules.is_wrong_key whole.now class.now) (map view.key_view keys.now)) }
{
    for key in keys {
        if is_wrong_key(whole, class, key) {
            return Some(key.name.bytes());
        }
    }
    None
}

/// The first of several keys that is no attribute of a class; without a class the first one.
fn wrong_key<'a>(whole: &Tables, class: Option<&[u8]>, keys: &'a Several<Key>) -> Option<&'a [u8]>
    ensures { option_map (λ n. n.now) result
        ≡ rules.wrong_key whole.now (option_map (λ c. c.now) class.entry)
        (all_of (several_view view.key_view keys.now)) }
{
    match class {
        Some(class) if !is_wrong_key(whole, class, &keys.first) => {
            first_wrong_key(whole, class, &keys.others)
        }
        _ => Some(keys.first.name.bytes()),
    }
}

/// The class of a set's members, if it has one.
fn members_of<'a>(whole: &'a Tables, set: &[u8]) -> Option<&'a [u8]>
    ensures { option_map (λ n. n.now) result ≡ fact_of whole.now.members set.now }
{
    match whole.members.get(set) {
        Some(class) => Some(&class.bytes),
        None => None,
    }
}

/// The first of several keys that is no attribute of an event class.
fn wrong_tie<'a>(whole: &Tables, event: &[u8], keys: &'a Several<Key>) -> Option<&'a [u8]>
    ensures { option_map (λ n. n.now) result ≡ rules.wrong_key whole.now (Some event.now)
        (all_of (several_view view.key_view keys.now)) }
{
    wrong_key(whole, Some(event), keys)
}

/// The first wrong key of a set of this discipline.
fn wrong_rank<'a>(whole: &Tables, set: &[u8], kind: &'a SetDiscipline) -> Option<&'a [u8]>
    ensures { option_map (λ n. n.now) result ≡ rules.wrong_rank whole.now
        (fact_of whole.now.members set.now) (view.set_discipline_view kind.now) }
{
    match kind {
        SetDiscipline::Fifo | SetDiscipline::Lifo => None,
        SetDiscipline::Ranked(keys) => wrong_key(whole, members_of(whole, set), keys),
    }
}

/// The first wrong key of this set of a discipline, if there is one.
fn wrong_rank_of<'a>(
    whole: &Tables,
    set: Option<&[u8]>,
    kind: &'a SetDiscipline,
) -> Option<&'a [u8]>
    ensures { option_map (λ n. n.now) result ≡ rules.wrong_rank_of whole.now
        (view.set_discipline_view kind.now) (option_map (λ s. s.now) set.entry) }
{
    match set {
        Some(set) => wrong_rank(whole, set, kind),
        None => None,
    }
}

/// The first of these sets that has a wrong key in this discipline.
fn first_wrong_rank<'a>(whole: &Tables, sets: &'a [Name], kind: &SetDiscipline) -> Option<&'a [u8]>
    ensures { option_map (λ n. n.now) result ≡ find
        (λ s. rules.has_wrong_rank whole.now (fact_of whole.now.members s)
        (view.set_discipline_view kind.now)) sets.now }
{
    for set in sets {
        if is_wrong_rank(whole, set.bytes(), kind) {
            return Some(set.bytes());
        }
    }
    None
}

/// The first of several sets that has a wrong key in this discipline.
#[tactic(auto, using(crate::proofs::Finds::find_same))]
fn wrong_set<'a>(whole: &Tables, sets: &'a Names, kind: &SetDiscipline) -> Option<&'a [u8]>
    ensures { option_map (λ n. n.now) result ≡ find
        (λ s. rules.has_wrong_rank whole.now (fact_of whole.now.members s)
        (view.set_discipline_view kind.now)) (all_of (several_view (λ n. n) sets.now)) }
{
    if is_wrong_rank(whole, sets.first.bytes(), kind) {
        return Some(sets.first.bytes());
    }
    first_wrong_rank(whole, &sets.others, kind)
}

/// The first wrong key of a DEFINE: of its first set that has one.
fn wrong_set_key<'a>(whole: &Tables, definition: &'a Definition) -> Option<&'a [u8]>
    ensures { option_map (λ n. n.now) result
        ≡ rules.wrong_set_key whole.now (view.definition_view definition.now) }
{
    match definition {
        Definition::Variables(_) => None,
        Definition::Sets { names, kind } => {
            wrong_rank_of(whole, wrong_set(whole, names, kind), kind)
        }
    }
}

/// The first wrong key of the ties that an item on events breaks.
fn wrong_tie_key<'a>(whole: &Tables, order: &'a EventRule) -> Option<&'a [u8]>
    ensures { option_map (λ n. n.now) result
        ≡ rules.wrong_tie_key whole.now (view.event_rule_view order.now) }
{
    match order {
        EventRule::BreakTies { event, keys } => wrong_tie(whole, event.bytes(), keys),
        EventRule::PriorityOrder(_) | EventRule::ExternalEvents(_) => None,
    }
}

/// The first wrong key of an item.
pub(crate) fn wrong_key_of<'a>(whole: &Tables, item: &'a Item) -> Option<&'a [u8]>
    ensures { option_map (λ n. n.now) result
        ≡ rules.wrong_key_of whole.now (view.item_view item.now) }
{
    match item {
        Item::Defines(definition) => wrong_set_key(whole, definition),
        Item::Orders(order) => wrong_tie_key(whole, order),
        _ => None,
    }
}

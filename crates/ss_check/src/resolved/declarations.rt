//! Collecting the kinds of all names that a program declares.

ghost use Rattle.std.specs.Prelude.{◌≡◌, [], ◌∷◌, ◌++◌, map, option_map, Some, IfOk, OnOk};
ghost use Rattle.std.specs.List.{flat_map};
ghost use Rattle.ss_words.specs.Lists.{all_of, several_view};
ghost use Rattle.ss_preamble.specs.View as view;
ghost use Rattle.ss_check.specs.NameKind as kind;
ghost use Rattle.ss_check.specs.Declarations as declared;
ghost use Rattle.ss_check.specs.Facts.{fact};
ghost use Rattle.ss_check.specs.NameKinds.{class_facts, set_facts};

use crate::declared::kind_table::KindTable;
use crate::declared::name_kind::NameKind;
use ss_preamble::{Clause, Definition, Heading, Item, Names};
use ss_program::Name;
use ss_words::{MemberKept, OwnerKept, Several};
use std::alloc::{AllocError, Global};

/// A name with letters and a stop before it.
pub(crate) fn prefixed(alloc: Global, prefix: &[u8], name: &[u8]) -> Result<Vec<u8>, AllocError>
    ensures { IfOk result (λ bytes. bytes.items ≡ prefix.now ++ name.now) }
{
    let mut bytes = Vec::from_slice(alloc, prefix)?;
    bytes.extend_from_slice(name)?;
    Ok(bytes)
}

/// A copy of a name.
pub(crate) fn copied(alloc: Global, name: &[u8]) -> Result<Name, AllocError>
    ensures { IfOk result (λ copy. copy ≡ name.now) }
{
    let bytes = Vec::from_slice(alloc, name)?;
    Ok(Name { bytes })
}

/// Declares a class under this heading, and its N.c.
pub(crate) fn add_class(
    alloc: Global,
    kinds: &mut KindTable,
    heading: Option<Heading>,
    class: &[u8],
) -> Result<(), AllocError>
    ensures { OnOk result (kinds.new ≡ kinds.old ++ class_facts heading class.now) }
{
    kinds.add(class, NameKind::Class(heading))?;
    if heading == Some(Heading::PermanentEntities) {
        let count = prefixed(alloc, b"N.", class)?;
        kinds.add(&count, NameKind::ClassCount)?;
    }
    Ok(())
}

/// Declares a set and its kept attributes.
pub(crate) fn add_set(alloc: Global, kinds: &mut KindTable, set: &[u8]) -> Result<(), AllocError>
    ensures { OnOk result (kinds.new ≡ kinds.old ++ set_facts set.now) }
{
    kinds.add(set, NameKind::Set)?;
    add_owner_kept(alloc, kinds, b"F.", OwnerKept::First, set)?;
    add_owner_kept(alloc, kinds, b"L.", OwnerKept::Last, set)?;
    add_owner_kept(alloc, kinds, b"N.", OwnerKept::Count, set)?;
    add_member_kept(alloc, kinds, b"P.", MemberKept::Predecessor, set)?;
    add_member_kept(alloc, kinds, b"S.", MemberKept::Successor, set)?;
    add_member_kept(alloc, kinds, b"M.", MemberKept::Membership, set)
}

fn add_owner_kept(
    alloc: Global,
    kinds: &mut KindTable,
    prefix: &[u8],
    kept: OwnerKept,
    set: &[u8],
) -> Result<(), AllocError>
    ensures { OnOk result
        (kinds.new ≡ kinds.old ++ fact (prefix.now ++ set.now) (kind.OwnerKept kept set.now) ∷ []) }
{
    let name = prefixed(alloc, prefix, set)?;
    let set = copied(alloc, set)?;
    kinds.add(&name, NameKind::OwnerKept { kept, set })
}

fn add_member_kept(
    alloc: Global,
    kinds: &mut KindTable,
    prefix: &[u8],
    kept: MemberKept,
    set: &[u8],
) -> Result<(), AllocError>
    ensures { OnOk result
        (kinds.new ≡ kinds.old
        ++ fact (prefix.now ++ set.now) (kind.MemberKept kept set.now) ∷ []) }
{
    let name = prefixed(alloc, prefix, set)?;
    let set = copied(alloc, set)?;
    kinds.add(&name, NameKind::MemberKept { kept, set })
}

/// Declares sets.
fn add_sets(alloc: Global, kinds: &mut KindTable, sets: &Names) -> Result<(), AllocError>
    ensures { OnOk result
        (kinds.new ≡ kinds.old ++ flat_map set_facts (all_of (several_view (λ n. n) sets.now))) }
{
    add_set(alloc, kinds, sets.first.bytes())?;
    for set in &sets.others {
        add_set(alloc, kinds, set.bytes())?;
    }
    Ok(())
}

/// Declares classes under this heading.
fn add_classes(
    alloc: Global,
    kinds: &mut KindTable,
    heading: Heading,
    classes: &Names,
) -> Result<(), AllocError>
    ensures { OnOk result (kinds.new
        ≡ kinds.old
        ++ flat_map (class_facts (Some heading)) (all_of (several_view (λ n. n) classes.now))) }
{
    add_class(alloc, kinds, Some(heading), classes.first.bytes())?;
    for class in &classes.others {
        add_class(alloc, kinds, Some(heading), class.bytes())?;
    }
    Ok(())
}

/// Declares variables.
fn add_variables(kinds: &mut KindTable, names: &Names) -> Result<(), AllocError>
    ensures { OnOk result (kinds.new
        ≡ kinds.old ++ map (λ n. fact n kind.Variable) (all_of (several_view (λ n. n) names.now))) }
{
    kinds.add(names.first.bytes(), NameKind::Variable)?;
    for name in &names.others {
        kinds.add(name.bytes(), NameKind::Variable)?;
    }
    Ok(())
}

/// Declares an attribute of a class.
fn add_attribute(
    alloc: Global,
    kinds: &mut KindTable,
    class: &[u8],
    name: &[u8],
) -> Result<(), AllocError>
    ensures { OnOk result
        (kinds.new ≡ kinds.old ++ fact name.now (kind.Attribute class.now) ∷ []) }
{
    let class = copied(alloc, class)?;
    kinds.add(name, NameKind::Attribute(class))
}

/// Declares attributes of a class.
fn add_attributes(
    alloc: Global,
    kinds: &mut KindTable,
    class: &[u8],
    names: &Names,
) -> Result<(), AllocError>
    ensures { OnOk result (kinds.new
        ≡ kinds.old
        ++ map (λ n. fact n (kind.Attribute class.now))
        (all_of (several_view (λ n. n) names.now))) }
{
    add_attribute(alloc, kinds, class, names.first.bytes())?;
    for name in &names.others {
        add_attribute(alloc, kinds, class, name.bytes())?;
    }
    Ok(())
}

/// Declares the names in a clause for a class, or for the system if there is no class.
fn add_clause(
    alloc: Global,
    kinds: &mut KindTable,
    class: Option<&[u8]>,
    clause: &Clause,
) -> Result<(), AllocError>
    ensures { OnOk result (kinds.new
        ≡ kinds.old
        ++ declared.clause_facts (option_map (λ c. c.now) class.entry)
        (view.clause_view clause.now)) }
{
    match clause {
        Clause::Has(names) => match class {
            Some(class) => add_attributes(alloc, kinds, class, names),
            None => add_variables(kinds, names),
        },
        Clause::Owns(sets) | Clause::BelongsTo(sets) => add_sets(alloc, kinds, sets),
    }
}

/// Declares the names in clauses for a class, or for the system if there is no class.
fn add_clauses(
    alloc: Global,
    kinds: &mut KindTable,
    class: Option<&[u8]>,
    clauses: &Several<Clause>,
) -> Result<(), AllocError>
    ensures { OnOk result (kinds.new
        ≡ kinds.old ++ flat_map (declared.clause_facts (option_map (λ c. c.now) class.entry))
        (all_of (several_view view.clause_view clauses.now))) }
{
    add_clause(alloc, kinds, class, &clauses.first)?;
    for clause in &clauses.others {
        add_clause(alloc, kinds, class, clause)?;
    }
    Ok(())
}

/// Declares the names of a DEFINE.
fn add_definition(
    alloc: Global,
    kinds: &mut KindTable,
    definition: &Definition,
) -> Result<(), AllocError>
    ensures { OnOk result
        (kinds.new ≡ kinds.old ++ declared.definition_facts (view.definition_view definition.now)) }
{
    match definition {
        Definition::Variables(names) => add_variables(kinds, names),
        Definition::Sets { names, .. } => add_sets(alloc, kinds, names),
    }
}

/// Declares all that an item says, under this heading.
pub(crate) fn add_declarations(
    alloc: Global,
    kinds: &mut KindTable,
    heading: Option<Heading>,
    item: &Item,
) -> Result<(), AllocError>
    ensures { OnOk result (kinds.new ≡ kinds.old ++ declared.declarations
        (record { line = 0; heading = heading; item = view.item_view item.now })) }
{
    match item {
        Item::Headed {
            heading,
            included: Some(classes),
        } => add_classes(alloc, kinds, *heading, classes),
        Item::OfEvery { class, clauses } => {
            add_class(alloc, kinds, heading, class.bytes())?;
            add_clauses(alloc, kinds, Some(class.bytes()), clauses)
        }
        Item::OfSystem(clauses) => add_clauses(alloc, kinds, None, clauses),
        Item::Defines(definition) => add_definition(alloc, kinds, definition),
        Item::Normally | Item::Headed { included: None, .. } | Item::Orders(_) => Ok(()),
    }
}

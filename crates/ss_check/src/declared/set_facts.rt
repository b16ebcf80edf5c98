//! Adding the owners and the member classes of sets, and the attributes of classes.

ghost use Rattle.std.specs.Prelude.{◌≡◌, [], ◌∷◌, ◌++◌, map, option_map, IfOk, OnOk};
ghost use Rattle.std.specs.List.{flat_map};
ghost use Rattle.ss_words.specs.Lists.{all_of, several_view};
ghost use Rattle.ss_preamble.specs.View as view;
ghost use Rattle.ss_check.specs.Declarations as declared;
ghost use Rattle.ss_check.specs.Facts.{fact};

use crate::declared::fact_table::FactTable;
use crate::resolved::declarations::copied;
use ss_preamble::{Clause, Item};
use ss_program::{Name, NameCounts};
use ss_words::Several;
use std::alloc::{AllocError, Global};

/// A copy of a class's name, if there is one.
fn copied_class(alloc: Global, class: Option<&[u8]>) -> Result<Option<Name>, AllocError>
    ensures { IfOk result (λ copy. copy ≡ option_map (λ c. c.now) class.entry) }
{
    match class {
        Some(class) => Ok(Some(copied(alloc, class)?)),
        None => Ok(None),
    }
}

/// Adds this class, or the system, as the owner of a set.
fn add_owner(
    alloc: Global,
    owners: &mut FactTable<Option<Name>>,
    class: Option<&[u8]>,
    set: &[u8],
) -> Result<(), AllocError>
    ensures { OnOk result
        (owners.new ≡ owners.old ++ fact set.now (option_map (λ c. c.now) class.entry) ∷ []) }
{
    owners.add(set, copied_class(alloc, class)?)
}

/// Adds the owner of each set that a clause says is owned: this class, or the system.
fn add_owned(
    alloc: Global,
    owners: &mut FactTable<Option<Name>>,
    class: Option<&[u8]>,
    clause: &Clause,
) -> Result<(), AllocError>
    ensures { OnOk result (owners.new ≡ owners.old
        ++ map (λ s. fact s (option_map (λ c. c.now) class.entry))
        (declared.owned_in (view.clause_view clause.now))) }
{
    let Clause::Owns(sets) = clause else {
        return Ok(());
    };
    add_owner(alloc, owners, class, sets.first.bytes())?;
    for set in &sets.others {
        add_owner(alloc, owners, class, set.bytes())?;
    }
    Ok(())
}

/// Adds the owner of each set that clauses say is owned.
fn add_all_owned(
    alloc: Global,
    owners: &mut FactTable<Option<Name>>,
    class: Option<&[u8]>,
    clauses: &Several<Clause>,
) -> Result<(), AllocError>
    ensures { OnOk result
        (owners.new ≡ owners.old ++ map (λ s. fact s (option_map (λ c. c.now) class.entry))
        (flat_map declared.owned_in (all_of (several_view view.clause_view clauses.now)))) }
{
    add_owned(alloc, owners, class, &clauses.first)?;
    for clause in &clauses.others {
        add_owned(alloc, owners, class, clause)?;
    }
    Ok(())
}

/// Adds the owner of each set that an item says is owned.
pub(crate) fn add_owners(
    alloc: Global,
    owners: &mut FactTable<Option<Name>>,
    item: &Item,
) -> Result<(), AllocError>
    ensures { OnOk result
        (owners.new ≡ owners.old ++ declared.owners_in (view.item_view item.now)) }
{
    match item {
        Item::OfEvery { class, clauses } => add_all_owned(
            alloc,
            owners,
            Some(class.bytes()),
            clauses,
        ),
        Item::OfSystem(clauses) => add_all_owned(alloc, owners, None, clauses),
        _ => Ok(()),
    }
}

/// Adds this class as that of the members of a set.
fn add_member(
    alloc: Global,
    members: &mut FactTable<Name>,
    class: &[u8],
    set: &[u8],
) -> Result<(), AllocError>
    ensures { OnOk result (members.new ≡ members.old ++ fact set.now class.now ∷ []) }
{
    members.add(set, copied(alloc, class)?)
}

/// Adds the class of the members of each set to which a clause says that it belongs.
fn add_joined(
    alloc: Global,
    members: &mut FactTable<Name>,
    class: &[u8],
    clause: &Clause,
) -> Result<(), AllocError>
    ensures { OnOk result (members.new ≡ members.old
        ++ map (λ s. fact s class.now) (declared.joined_in (view.clause_view clause.now))) }
{
    let Clause::BelongsTo(sets) = clause else {
        return Ok(());
    };
    add_member(alloc, members, class, sets.first.bytes())?;
    for set in &sets.others {
        add_member(alloc, members, class, set.bytes())?;
    }
    Ok(())
}

/// Adds the class of the members of each set to which clauses say that it belongs.
fn add_all_joined(
    alloc: Global,
    members: &mut FactTable<Name>,
    class: &[u8],
    clauses: &Several<Clause>,
) -> Result<(), AllocError>
    ensures { OnOk result (members.new ≡ members.old ++ map (λ s. fact s class.now)
        (flat_map declared.joined_in (all_of (several_view view.clause_view clauses.now)))) }
{
    add_joined(alloc, members, class, &clauses.first)?;
    for clause in &clauses.others {
        add_joined(alloc, members, class, clause)?;
    }
    Ok(())
}

/// Adds the class of the members of each set whose members an item gives.
pub(crate) fn add_members(
    alloc: Global,
    members: &mut FactTable<Name>,
    item: &Item,
) -> Result<(), AllocError>
    ensures { OnOk result
        (members.new ≡ members.old ++ declared.members_in (view.item_view item.now)) }
{
    match item {
        Item::OfEvery { class, clauses } => add_all_joined(alloc, members, class.bytes(), clauses),
        _ => Ok(()),
    }
}

/// Adds a class once for each attribute that a clause declares.
fn add_owned_attributes(
    attributes: &mut NameCounts,
    class: &[u8],
    clause: &Clause,
) -> Result<(), AllocError>
    ensures { OnOk result (attributes.new ≡ attributes.old
        ++ declared.attribute_classes class.now (view.clause_view clause.now)) }
{
    let Clause::Has(names) = clause else {
        return Ok(());
    };
    attributes.add(class)?;
    for _name in &names.others {
        attributes.add(class)?;
    }
    Ok(())
}

/// Adds a class once for each attribute that clauses declare.
fn add_all_attributes(
    attributes: &mut NameCounts,
    class: &[u8],
    clauses: &Several<Clause>,
) -> Result<(), AllocError>
    ensures { OnOk result (attributes.new ≡ attributes.old
        ++ flat_map (declared.attribute_classes class.now)
        (all_of (several_view view.clause_view clauses.now))) }
{
    add_owned_attributes(attributes, class, &clauses.first)?;
    for clause in &clauses.others {
        add_owned_attributes(attributes, class, clause)?;
    }
    Ok(())
}

/// Adds the class of each attribute that an item declares.
pub(crate) fn add_attributes(attributes: &mut NameCounts, item: &Item) -> Result<(), AllocError>
    ensures { OnOk result
        (attributes.new ≡ attributes.old ++ declared.attributes_in (view.item_view item.now)) }
{
    match item {
        Item::OfEvery { class, clauses } => add_all_attributes(attributes, class.bytes(), clauses),
        _ => Ok(()),
    }
}

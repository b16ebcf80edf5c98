//! Making the tables of sets, with their owners, members and disciplines.

ghost use Rattle.std.specs.Prelude.{◌≡◌, ◌++◌, [], map, option_map, unwrap_or, IfOk, OnOk};
ghost use Rattle.ss_preamble.specs.View.{set_discipline_view};
ghost use Rattle.ss_check.specs.Facts.{fact_of};
ghost use Rattle.ss_check.specs.Resolved as resolved;
ghost use Rattle.ss_check.specs.ResolvedNames.{attribute_names};

use crate::declared::name_tables::NameTables;
use crate::declared::tables::Tables;
use crate::resolved::class_tables::resolve_keys;
use crate::resolved::declarations::copied;
use crate::resolved::rankings::Rankings;
use ss_preamble::SetDiscipline;
use ss_program::{Discipline, Owner, Set};
use std::alloc::{AllocError, Global};

/// The sets of a program, in order of declaration.
pub(crate) fn set_tables(
    alloc: Global,
    tables: &Tables,
    names: &NameTables,
    rankings: &Rankings<'_>,
) -> Result<Vec<Set>, AllocError>
    ensures { IfOk result (λ sets. sets.items
        ≡ map (resolved.set_table tables.now names.now rankings.now) names.now.sets) }
{
    let mut sets = Vec::with_capacity(alloc, names.sets().len())?;
    match add_sets(alloc, tables, names, rankings, &mut sets) {
        Ok(()) => Ok(sets),
        Err(fault) => {
            drop(sets);
            Err(fault)
        }
    }
}

/// Puts the sets of a program at the end of a list, in order of declaration.
fn add_sets(
    alloc: Global,
    tables: &Tables,
    names: &NameTables,
    rankings: &Rankings<'_>,
    sets: &mut Vec<Set>,
) -> Result<(), AllocError>
    ensures { OnOk result (sets.new.items ≡ sets.old.items
        ++ map (resolved.set_table tables.now names.now rankings.now) names.now.sets) }
{
    for name in names.sets() {
        sets.push(set_table(alloc, tables, names, rankings, &name.bytes)?)?;
    }
    Ok(())
}

/// The set of this name.
fn set_table(
    alloc: Global,
    tables: &Tables,
    names: &NameTables,
    rankings: &Rankings<'_>,
    set: &[u8],
) -> Result<Set, AllocError>
    ensures { IfOk result
        (λ table. table ≡ resolved.set_table tables.now names.now rankings.now set.now) }
{
    let class = member_class(tables, set);
    Ok(Set {
        name: copied(alloc, set)?,
        discipline: discipline(alloc, names, class, rankings.discipline(set))?,
        owner: owner(tables, names, set),
        member: names.class(class),
    })
}

/// The class of a set's members; a name of no letters if none is declared.
fn member_class<'a>(tables: &'a Tables, set: &[u8]) -> &'a [u8]
    ensures { result.now ≡ unwrap_or (fact_of tables.now.members set.now) [] }
{
    match tables.members.get(set) {
        Some(class) => &class.bytes,
        None => b"",
    }
}

/// The discipline of a set with members of this class; FIFO if none is given.
fn discipline(
    alloc: Global,
    names: &NameTables,
    class: &[u8],
    given: Option<&SetDiscipline>,
) -> Result<Discipline, AllocError>
    ensures { IfOk result (λ discipline. discipline
        ≡ resolved.resolved_discipline (attribute_names names.now class.now)
        (option_map (λ k. set_discipline_view k.now) given.entry)) }
{
    match given {
        None | Some(SetDiscipline::Fifo) => Ok(Discipline::Fifo),
        Some(SetDiscipline::Lifo) => Ok(Discipline::Lifo),
        Some(SetDiscipline::Ranked(keys)) => {
            let keys = resolve_keys(alloc, names, class, keys)?;
            Ok(Discipline::Ranked(keys))
        }
    }
}

/// The owner of a set's lists.
fn owner(tables: &Tables, names: &NameTables, set: &[u8]) -> Owner
    ensures { result
        ≡ resolved.resolved_owner names.now.classes
        (unwrap_or (fact_of tables.now.owners set.now) None) }
{
    match tables.owners.get(set) {
        Some(Some(class)) => Owner::OwnedBy(names.class(&class.bytes)),
        Some(None) | None => Owner::System,
    }
}

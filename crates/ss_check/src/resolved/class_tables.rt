//! Making the tables of classes, with their attributes, kinds, sections and ties.

ghost use Rattle.std.specs.Prelude.{◌≡◌, ◌++◌, [], map, slice_index_or, IfOk, OnOk};
ghost use Rattle.ss_words.specs.Lists.{all_of, several_view};
ghost use Rattle.ss_preamble.specs.View.{key_view};
ghost use Rattle.ss_check.specs.Declarations.{kind_of};
ghost use Rattle.ss_check.specs.Resolved as resolved;
ghost use Rattle.ss_check.specs.ResolvedNames.{attribute_names, number};

use crate::declared::name_kind::NameKind;
use crate::declared::name_tables::{NameTables, attributes_of};
use crate::declared::tables::Tables;
use crate::resolved::declarations::copied;
use crate::resolved::rankings::Rankings;
use ss_preamble::Heading;
use ss_program::{Class, ClassKind, EventClass, Key, Keys};
use ss_words::Several;
use std::alloc::{AllocError, Global};

/// The classes of a program, in order of declaration.
pub(crate) fn class_tables(
    alloc: Global,
    tables: &Tables,
    names: &NameTables,
    rankings: &Rankings<'_>,
) -> Result<Vec<Class>, AllocError>
    ensures { IfOk result (λ classes. classes.items
        ≡ map (resolved.class_table tables.now names.now rankings.now) names.now.classes) }
{
    let mut classes = Vec::with_capacity(alloc, names.classes().len())?;
    match add_classes(alloc, tables, names, rankings, &mut classes) {
        Ok(()) => Ok(classes),
        Err(fault) => {
            drop(classes);
            Err(fault)
        }
    }
}

/// Puts the classes of a program at the end of a list, in order of declaration.
fn add_classes(
    alloc: Global,
    tables: &Tables,
    names: &NameTables,
    rankings: &Rankings<'_>,
    classes: &mut Vec<Class>,
) -> Result<(), AllocError>
    ensures { OnOk result (classes.new.items ≡ classes.old.items
        ++ map (resolved.class_table tables.now names.now rankings.now) names.now.classes) }
{
    for name in names.classes() {
        classes.push(class_table(alloc, tables, names, rankings, &name.bytes)?)?;
    }
    Ok(())
}

/// The class of this name.
fn class_table(
    alloc: Global,
    tables: &Tables,
    names: &NameTables,
    rankings: &Rankings<'_>,
    class: &[u8],
) -> Result<Class, AllocError>
    ensures { IfOk result
        (λ table. table ≡ resolved.class_table tables.now names.now rankings.now class.now) }
{
    Ok(Class {
        name: copied(alloc, class)?,
        kind: class_kind(alloc, tables, names, rankings, class)?,
        variable: names.global(class),
        attributes: attributes_of(alloc, tables.kinds.as_slice(), class)?,
    })
}

/// The kind of the entities of a class, by the kind as which its name is declared.
fn class_kind(
    alloc: Global,
    tables: &Tables,
    names: &NameTables,
    rankings: &Rankings<'_>,
    class: &[u8],
) -> Result<ClassKind, AllocError>
    ensures { IfOk result (λ kind. kind
        ≡ resolved.class_kind tables.now names.now rankings.now class.now
        (kind_of tables.now class.now)) }
{
    match tables.kinds.get(class) {
        Some(NameKind::Class(Some(Heading::PermanentEntities))) => {
            let count = names.count(alloc, class)?;
            Ok(ClassKind::Permanent { count })
        }
        Some(NameKind::Class(Some(Heading::EventNotices))) => {
            let event = event_class(alloc, tables, names, rankings, class)?;
            Ok(ClassKind::Event(event))
        }
        _ => Ok(ClassKind::Temporary),
    }
}

/// The parts of an event class apart from its name and attributes.
fn event_class(
    alloc: Global,
    tables: &Tables,
    names: &NameTables,
    rankings: &Rankings<'_>,
    class: &[u8],
) -> Result<EventClass, AllocError>
    ensures { IfOk result
        (λ event. event ≡ resolved.event_table tables.now names.now rankings.now class.now) }
{
    let ties = match rankings.ties(class) {
        Some(keys) => resolve_keys(alloc, names, class, keys)?,
        None => Keys {
            list: Vec::new(alloc),
        },
    };
    Ok(EventClass {
        section: names.event(class),
        ties,
        external: tables.external.has(class),
    })
}

/// The keys of a ranking of a class, each with the number of its attribute.
pub(crate) fn resolve_keys(
    alloc: Global,
    names: &NameTables,
    class: &[u8],
    keys: &Several<ss_preamble::Key>,
) -> Result<Keys, AllocError>
    ensures { IfOk result (λ ranking. ranking
        ≡ map (resolved.resolved_key (attribute_names names.now class.now))
        (all_of (several_view key_view keys.now))) }
{
    let number = names.class(class);
    let mut list = Vec::with_capacity(alloc, 1 + keys.others.len())?;
    list.push(resolve_key(names, number, &keys.first))?;
    for key in &keys.others {
        list.push(resolve_key(names, number, key))?;
    }
    Ok(Keys { list })
}

/// A key of the class with this number.
fn resolve_key(names: &NameTables, class: usize, key: &ss_preamble::Key) -> Key
    ensures { result
        ≡ resolved.resolved_key (slice_index_or names.now.attributes class []) (key_view key.now) }
{
    Key {
        rank: key.rank,
        attribute: names.attribute(class, key.name.bytes()),
    }
}

/// The numbers of the classes that PRIORITY names, in its order.
pub(crate) fn priority(
    alloc: Global,
    tables: &Tables,
    names: &NameTables,
) -> Result<Vec<usize>, AllocError>
    ensures { IfOk result (λ numbers. numbers.items
        ≡ map (λ c. number c names.now.classes) tables.now.priority) }
{
    let classes = tables.priority.facts();
    let mut numbers = Vec::with_capacity(alloc, classes.len())?;
    for class in classes {
        numbers.push(names.class(&class.name.bytes))?;
    }
    Ok(numbers)
}

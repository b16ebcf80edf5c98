//! The names of what a statement looks at.
ghost use Rattle.std.specs.Prelude.{◌≡◌, ◌++◌, OnOk, codes};
ghost use Rattle.std.specs.Fmt.{signed_decimal};
ghost use Rattle.ss_reads.specs.Answers as spec;

use crate::part::{Item, Part};
use crate::written::{push_item, variable_name};
use ss_debug::push_integer;
use ss_program::{Owner, OwnerKept, Program};
use std::alloc::AllocError;

/// Appends a blank and a number.
fn push_after_blank(text: &mut Vec<u8>, number: i64) -> Result<(), AllocError>
    ensures { OnOk result (text.new.items
        ≡ text.old.items ++ (codes " " ++ signed_decimal number)) }
{
    text.extend_from_slice(b" ")?;
    push_integer(text, number)
}

/// Appends an owner after a blank; the system is not named.
fn push_owner(text: &mut Vec<u8>, owner: Owner, x: i64) -> Result<(), AllocError>
    ensures { OnOk result (text.new.items ≡ text.old.items ++ spec.owner_text owner x) }
{
    match owner {
        Owner::System => Ok(()),
        Owner::OwnedBy(_) => push_after_blank(text, x),
    }
}

/// Appends a set after a word, and its owner.
fn push_owned(
    text: &mut Vec<u8>,
    program: &Program,
    head: &[u8],
    set: usize,
    owner: i64,
) -> Result<(), AllocError>
    ensures { OnOk result (text.new.items
        ≡ text.old.items ++ spec.owned_name program.now head.now set owner) }
{
    text.extend_from_slice(head)?;
    text.extend_from_slice(program.set_name(set))?;
    push_owner(text, program.set_owner(set), owner)
}

/// Appends an entity of a class, and what it has.
fn push_entity(
    text: &mut Vec<u8>,
    program: &Program,
    class: usize,
    entity: i64,
    item: Item,
) -> Result<(), AllocError>
    ensures { OnOk result (text.new.items
        ≡ text.old.items ++ spec.entity_name program.now class entity item) }
{
    text.extend_from_slice(program.class_name(class))?;
    push_after_blank(text, entity)?;
    text.extend_from_slice(b" ")?;
    push_item(text, program, item)
}

/// Appends `F.s` or `L.s` of an owner; the system is not named.
fn push_end(
    text: &mut Vec<u8>,
    program: &Program,
    owner: Owner,
    x: i64,
    item: Item,
) -> Result<(), AllocError>
    ensures { OnOk result (text.new.items
        ≡ text.old.items ++ spec.end_name program.now owner x item) }
{
    match owner {
        Owner::System => push_item(text, program, item),
        Owner::OwnedBy(class) => push_entity(text, program, class, x, item),
    }
}

/// Appends `F.s`, `L.s` or `N.s` of an owner, as its question.
fn push_owner_kept(
    text: &mut Vec<u8>,
    program: &Program,
    kept: OwnerKept,
    set: usize,
    owner: i64,
) -> Result<(), AllocError>
    ensures { OnOk result (text.new.items
        ≡ text.old.items ++ spec.owner_kept_name program.now kept set owner) }
{
    let item = Item::OwnerKept { kept, set };
    match kept {
        OwnerKept::First => push_end(text, program, program.set_owner(set), owner, item),
        OwnerKept::Last => push_end(text, program, program.set_owner(set), owner, item),
        OwnerKept::Count => push_owned(text, program, b"COUNT ", set, owner),
    }
}

/// Appends the name of what an entity has, as its question.
fn push_of(text: &mut Vec<u8>, program: &Program, item: Item, entity: i64) -> Result<(), AllocError>
    ensures { OnOk result (text.new.items
        ≡ text.old.items ++ spec.of_name program.now item entity) }
{
    match item {
        Item::Attribute { class, .. } => push_entity(text, program, class, entity, item),
        Item::OwnerKept { kept, set } => push_owner_kept(text, program, kept, set, entity),
        Item::MemberKept { set, .. } => {
            push_entity(text, program, program.member_class(set), entity, item)
        }
        Item::Members { set } => push_owned(text, program, b"SET ", set, entity),
    }
}

/// Appends the name of a part, as its question.
pub fn push_part(
    text: &mut Vec<u8>,
    program: &Program,
    section: usize,
    part: Part,
) -> Result<(), AllocError>
    ensures { OnOk result (text.new.items
        ≡ text.old.items ++ spec.part_name program.now section part) }
{
    match part {
        Part::Variable(variable) => {
            text.extend_from_slice(b"VAR ")?;
            text.extend_from_slice(variable_name(program, section, variable))
        }
        Part::Of(item, entity) => push_of(text, program, item, entity),
    }
}

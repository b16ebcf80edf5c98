//! The entities, lists and values that a statement names.
ghost use Rattle.std.specs.Prelude.{◌≡◌, ◌++◌, OnOk};
ghost use Rattle.ss_faults.specs.About as spec;
ghost use Rattle.ss_faults.specs.Texts.{if_told, label_and_value};

use crate::reading::{expression_told, index_told};
use crate::texts::{push_entity, push_list, push_valued};
use crate::told::Told;
use ss_links::SetBoard;
use ss_machine::Machine;
use ss_program::{Expr, SetRef};
use std::alloc::AllocError;

/// Appends a value after a label, if it is known.
pub fn push_if_told(text: &mut Vec<u8>, label: &[u8], told: Told) -> Result<(), AllocError>
    ensures { OnOk result (text.new.items ≡ text.old.items
        ++ if_told told (label_and_value label.now)) }
{
    match told {
        Told::Value(value) => push_valued(text, label, value),
        Told::Untold | Told::Missing { .. } | Told::Unclear => Ok(()),
    }
}

/// Appends the entity of a class that an expression names.
pub fn push_entity_of<S: SetBoard>(
    text: &mut Vec<u8>,
    machine: &Machine<S>,
    class: usize,
    e: &Expr,
) -> Result<(), AllocError>
    ensures { OnOk result (text.new.items ≡ text.old.items
        ++ spec.entity_of machine.now.input.program machine.now.state class e.now) }
{
    match expression_told(machine, e) {
        Told::Value(number) => push_entity(text, machine.program(), class, number),
        Told::Untold | Told::Missing { .. } | Told::Unclear => Ok(()),
    }
}

/// Appends the list of a set and an owner.
pub fn push_list_of<S: SetBoard>(
    text: &mut Vec<u8>,
    machine: &Machine<S>,
    list: &SetRef,
) -> Result<(), AllocError>
    ensures { OnOk result (text.new.items ≡ text.old.items
        ++ spec.list_of machine.now.input.program machine.now.state list.now) }
{
    match index_told(machine, &list.owner) {
        Told::Value(owner) => push_list(text, machine.program(), list.set, owner),
        Told::Untold | Told::Missing { .. } | Told::Unclear => Ok(()),
    }
}

/// Appends a member of a set.
pub fn push_member_of<S: SetBoard>(
    text: &mut Vec<u8>,
    machine: &Machine<S>,
    member: &Expr,
    list: &SetRef,
) -> Result<(), AllocError>
    ensures { OnOk result (text.new.items ≡ text.old.items
        ++ spec.member_of machine.now.input.program machine.now.state member.now list.now) }
{
    let class = machine.program().member_class(list.set);
    push_entity_of(text, machine, class, member)
}

/// Appends a member of a set, and the list.
pub fn push_member_and_list<S: SetBoard>(
    text: &mut Vec<u8>,
    machine: &Machine<S>,
    member: &Expr,
    list: &SetRef,
) -> Result<(), AllocError>
    ensures { OnOk result (text.new.items ≡ text.old.items
        ++ (spec.member_of machine.now.input.program machine.now.state member.now list.now
        ++ spec.list_of machine.now.input.program machine.now.state list.now)) }
{
    push_member_of(text, machine, member, list)?;
    push_list_of(text, machine, list)
}

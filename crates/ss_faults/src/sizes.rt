//! The parts that the sentences of F1 and F19 name: values and sizes that pass their bounds.
ghost use Rattle.std.specs.Prelude.{◌≡◌, ◌++◌, OnOk};
ghost use Rattle.ss_program.specs.declared.place.Place.TheVariants as places;
ghost use Rattle.ss_faults.specs.About as spec;

use crate::reading::{attribute_told, expression_told, index_told, variable_value};
use crate::texts::{push_counted, push_valued};
use crate::told::Told;
use ss_links::SetBoard;
use ss_machine::Machine;
use ss_program::{Assign, Place, Target};
use std::alloc::AllocError;

/// The value of a target before it is assigned.
fn target_value<S: SetBoard>(machine: &Machine<S>, target: &Target) -> Told
    ensures { result
        ≡ spec.target_value machine.now.input.program machine.now.state target.now }
{
    match target {
        Target::Variable(variable) => Told::Value(variable_value(machine, *variable)),
        Target::Attribute {
            class,
            attribute,
            index,
        } => {
            match index_told(machine, index) {
                Told::Value(number) => attribute_told(machine, *class, *attribute, number),
                Told::Missing { class, number } => Told::Missing { class, number },
                _ => Told::Unclear,
            }
        }
    }
}

/// Appends two values after their labels, if both are known.
fn push_pair(
    text: &mut Vec<u8>,
    first_label: &[u8],
    second_label: &[u8],
    first: Told,
    second: Told,
) -> Result<(), AllocError>
    ensures { OnOk result (text.new.items ≡ text.old.items
        ++ spec.pair_of first_label.now second_label.now first second) }
{
    let Told::Value(first) = first else {
        return Ok(());
    };
    let Told::Value(second) = second else {
        return Ok(());
    };
    push_valued(text, first_label, first)?;
    push_valued(text, second_label, second)
}

/// Appends the values of a sum that passes its bounds.
fn push_sum_of<S: SetBoard>(
    text: &mut Vec<u8>,
    machine: &Machine<S>,
    assign: &Assign,
) -> Result<(), AllocError>
    ensures { OnOk result (text.new.items ≡ text.old.items
        ++ spec.sum_of machine.now.input.program machine.now.state (places.Assign assign.now)) }
{
    match assign {
        Assign::Add { value, target } => {
            let first = expression_told(machine, value);
            push_pair(
                text,
                b" Added: ",
                b" To: ",
                first,
                target_value(machine, target),
            )
        }
        Assign::Subtract { value, target } => {
            let first = expression_told(machine, value);
            push_pair(
                text,
                b" Subtracted: ",
                b" From: ",
                first,
                target_value(machine, target),
            )
        }
        Assign::Let { .. } => Ok(()),
    }
}

/// F1: both values of ADD and SUBTRACT.
pub fn push_sum<S: SetBoard>(
    text: &mut Vec<u8>,
    machine: &Machine<S>,
    place: &Place,
) -> Result<(), AllocError>
    ensures { OnOk result (text.new.items ≡ text.old.items
        ++ spec.sum_of machine.now.input.program machine.now.state place.now) }
{
    let Place::Assign(assign) = place else {
        return Ok(());
    };
    push_sum_of(text, machine, assign)
}

/// F19: the number of bytes of the report.
pub fn push_report_size<S: SetBoard>(
    text: &mut Vec<u8>,
    machine: &Machine<S>,
) -> Result<(), AllocError>
    ensures { OnOk result (text.new.items ≡ text.old.items ++ spec.report_size machine.now.state) }
{
    push_counted(text, b" Report so far: ", machine.report().len() as u64)
}

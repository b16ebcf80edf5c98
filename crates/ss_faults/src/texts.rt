//! The texts of the parts that a fault is about, and what other texts share.
ghost use Rattle.std.specs.Prelude.{◌≡◌, ◌++◌, decimal, OnOk};
ghost use Rattle.std.specs.Fmt.{signed_decimal};
ghost use Rattle.ss_faults.specs.Texts as spec;

use crate::told::Told;
use itoa::Buffer;
use ss_program::{Owner, Program};
use std::alloc::AllocError;

/// Appends an integer in least digits, with its sign below 0.
pub fn push_integer(text: &mut Vec<u8>, n: i64) -> Result<(), AllocError>
    ensures { OnOk result (text.new.items ≡ text.old.items ++ signed_decimal n) }
{
    let mut buffer = Buffer::new();
    text.extend_from_slice(buffer.format(n).as_bytes())
}

/// Appends a number in least digits.
pub fn push_number(text: &mut Vec<u8>, n: u64) -> Result<(), AllocError>
    ensures { OnOk result (text.new.items ≡ text.old.items ++ decimal n) }
{
    let mut buffer = Buffer::new();
    text.extend_from_slice(buffer.format(n).as_bytes())
}

/// Appends a label and a name.
fn push_named(text: &mut Vec<u8>, label: &[u8], name: &[u8]) -> Result<(), AllocError>
    ensures { OnOk result (text.new.items ≡ text.old.items ++ spec.label_and_name label.now name.now) }
{
    text.extend_from_slice(label)?;
    text.extend_from_slice(name)?;
    text.extend_from_slice(b".")
}

/// Appends a label, a name and a number.
fn push_numbered(
    text: &mut Vec<u8>,
    label: &[u8],
    name: &[u8],
    number: i64,
) -> Result<(), AllocError>
    ensures { OnOk result (text.new.items
        ≡ text.old.items ++ spec.label_name_and_number label.now name.now number) }
{
    text.extend_from_slice(label)?;
    text.extend_from_slice(name)?;
    text.extend_from_slice(b" ")?;
    push_integer(text, number)?;
    text.extend_from_slice(b".")
}

/// Appends a label and a value.
pub fn push_valued(text: &mut Vec<u8>, label: &[u8], value: i64) -> Result<(), AllocError>
    ensures { OnOk result (text.new.items ≡ text.old.items ++ spec.label_and_value label.now value) }
{
    text.extend_from_slice(label)?;
    push_integer(text, value)?;
    text.extend_from_slice(b".")
}

/// Appends a label and a count.
pub fn push_counted(text: &mut Vec<u8>, label: &[u8], count: u64) -> Result<(), AllocError>
    ensures { OnOk result (text.new.items ≡ text.old.items ++ spec.label_and_count label.now count) }
{
    text.extend_from_slice(label)?;
    push_number(text, count)?;
    text.extend_from_slice(b".")
}

/// Appends an entity.
pub fn push_entity(
    text: &mut Vec<u8>,
    program: &Program,
    class: usize,
    number: i64,
) -> Result<(), AllocError>
    ensures { OnOk result (text.new.items
        ≡ text.old.items ++ spec.entity_text program.now class number) }
{
    push_numbered(text, b" Entity: ", program.class_name(class), number)
}

/// Appends the list of a set for this owner.
pub fn push_list(
    text: &mut Vec<u8>,
    program: &Program,
    set: usize,
    owner: i64,
) -> Result<(), AllocError>
    ensures { OnOk result (text.new.items
        ≡ text.old.items ++ spec.list_text program.now set owner) }
{
    let name = program.set_name(set);
    match program.set_owner(set) {
        Owner::System => push_named(text, b" List: ", name),
        Owner::OwnedBy(_) => push_numbered(text, b" List: ", name, owner),
    }
}

/// Appends a class.
pub fn push_class(text: &mut Vec<u8>, program: &Program, class: usize) -> Result<(), AllocError>
    ensures { OnOk result (text.new.items ≡ text.old.items ++ spec.class_text program.now class) }
{
    push_named(text, b" Class: ", program.class_name(class))
}

/// Appends a set.
pub fn push_set(text: &mut Vec<u8>, program: &Program, set: usize) -> Result<(), AllocError>
    ensures { OnOk result (text.new.items ≡ text.old.items ++ spec.set_text program.now set) }
{
    push_named(text, b" Set: ", program.set_name(set))
}

/// Appends a section.
pub fn push_section(text: &mut Vec<u8>, program: &Program, section: usize) -> Result<(), AllocError>
    ensures { OnOk result (text.new.items
        ≡ text.old.items ++ spec.section_text program.now section) }
{
    push_named(text, b" Section: ", program.section_name(section))
}

/// Appends that no entity has this number, if that is plain.
fn push_unnumbered(text: &mut Vec<u8>, number: i64) -> Result<(), AllocError>
    ensures { OnOk result (text.new.items ≡ text.old.items ++ spec.unnumbered_text number) }
{
    if number < 1 {
        return text.extend_from_slice(b" No entity has a number below 1.");
    }
    Ok(())
}

/// Appends an entity that is missing.
pub fn push_missing(text: &mut Vec<u8>, program: &Program, told: Told) -> Result<(), AllocError>
    ensures { OnOk result (text.new.items ≡ text.old.items ++ spec.missing_text program.now told) }
{
    match told {
        Told::Missing { class, number } => {
            push_entity(text, program, class, number)?;
            push_unnumbered(text, number)
        }
        Told::Value(_) | Told::Untold | Told::Unclear => Ok(()),
    }
}

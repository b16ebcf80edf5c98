//! Texts that several answers are made of.
ghost use Rattle.std.specs.Prelude.{◌≡◌, ◌++◌, OnOk};
ghost use Rattle.ss_debug.specs.Entities.{no_entity_text, members_text, further_members};
ghost use Rattle.ss_inspect.specs.Texts.{named_value, no_such_text};

use ss_debug::{push_integer, push_number};
use std::alloc::AllocError;

/// Appends a name and its value.
pub fn push_named_value(text: &mut Vec<u8>, name: &[u8], value: i64) -> Result<(), AllocError>
    ensures { OnOk result (text.new.items ≡ text.old.items ++ named_value name.now value) }
{
    text.extend_from_slice(name)?;
    text.extend_from_slice(b" = ")?;
    push_integer(text, value)
}

/// Appends that there is nothing of this kind and this name.
pub fn push_no_such(text: &mut Vec<u8>, kind: &[u8], name: &[u8]) -> Result<(), AllocError>
    ensures { OnOk result (text.new.items ≡ text.old.items ++ no_such_text kind.now name.now) }
{
    text.extend_from_slice(b"NO ")?;
    text.extend_from_slice(kind)?;
    text.extend_from_slice(b" ")?;
    text.extend_from_slice(name)?;
    text.extend_from_slice(b"\n")
}

/// Appends that a class has no entity of this number.
pub fn push_no_entity(text: &mut Vec<u8>, class: &[u8], x: i64) -> Result<(), AllocError>
    ensures { OnOk result (text.new.items ≡ text.old.items ++ no_entity_text class.now x) }
{
    text.extend_from_slice(b"NO ENTITY ")?;
    text.extend_from_slice(class)?;
    text.extend_from_slice(b" ")?;
    push_integer(text, x)?;
    text.extend_from_slice(b"\n")
}

/// Appends numbers, each after a blank.
fn push_further(text: &mut Vec<u8>, numbers: &[u32]) -> Result<(), AllocError>
    ensures { OnOk result (text.new.items ≡ text.old.items ++ further_members numbers.now) }
{
    for number in numbers {
        text.extend_from_slice(b" ")?;
        push_number(text, u64::from(*number))?;
    }
    Ok(())
}

/// Appends numbers with a blank between, or `EMPTY`.
pub fn push_members(text: &mut Vec<u8>, numbers: &[u32]) -> Result<(), AllocError>
    ensures { OnOk result (text.new.items ≡ text.old.items ++ members_text numbers.now) }
{
    let Some(first) = numbers.first() else {
        return text.extend_from_slice(b"EMPTY");
    };
    push_number(text, u64::from(*first))?;
    push_further(text, &numbers[1..])
}

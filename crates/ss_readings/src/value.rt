//! The values that questions have in a state, and their texts.
ghost use Rattle.std.specs.Prelude.{◌≡◌, ◌++◌, OnOk};
ghost use Rattle.ss_debug.specs.Entities.{further_members, members_text};
ghost use Rattle.ss_readings.specs.Value as spec;
ghost use Rattle.ss_readings.specs.ValueView.{value_view, value_if};

use ss_debug::{push_integer, push_number};
use std::alloc::AllocError;

/// A value that a question has in a state.
#[derive(Drop)]
pub enum Value {
    /// That of an expression.
    Number(i64),
    /// Whether a condition holds.
    Truth(bool),
    /// The numbers of entities, such as the members of a list.
    Members(Vec<u32>),
}

/// Whether two values are the same.
fn is_same_value(left: &Value, right: &Value) -> bool
    ensures { result ≡ spec.is_same_value (value_view left.now) (value_view right.now) }
{
    match (left, right) {
        (Value::Number(x), Value::Number(y)) => x == y,
        (Value::Truth(a), Value::Truth(b)) => a == b,
        (Value::Members(ks), Value::Members(ls)) => ks.as_slice() == ls.as_slice(),
        _ => false,
    }
}

/// Whether there is the same value, or none both times.
pub fn is_same(left: &Option<Value>, right: &Option<Value>) -> bool
    ensures { result ≡ spec.is_same (value_if left.now) (value_if right.now) }
{
    match (left, right) {
        (None, None) => true,
        (Some(v), Some(w)) => is_same_value(v, w),
        _ => false,
    }
}

/// Appends further members, each after a blank.
fn push_further(text: &mut Vec<u8>, members: &[u32]) -> Result<(), AllocError>
    ensures { OnOk result (text.new.items ≡ text.old.items ++ further_members members.now) }
{
    let mut left = members;
    while let Some((member, rest)) = left.split_first() {
        text.extend_from_slice(b" ")?;
        push_number(text, u64::from(*member))?;
        left = rest;
    }
    Ok(())
}

/// Appends the numbers of members with a blank between, or `EMPTY`.
///
/// `AllocError` if a growth was refused; then the appended bytes do not count.
pub fn push_members(text: &mut Vec<u8>, members: &[u32]) -> Result<(), AllocError>
    ensures { OnOk result (text.new.items ≡ text.old.items ++ members_text members.now) }
{
    let Some((first, further)) = members.split_first() else {
        return text.extend_from_slice(b"EMPTY");
    };
    push_number(text, u64::from(*first))?;
    push_further(text, further)
}

/// Appends a value: a number, `YES` or `NO`, or the members with a blank between, or `EMPTY`;
/// `NONE` if there is no value.
///
/// `AllocError` if a growth was refused; then the appended bytes do not count.
pub fn push_value(text: &mut Vec<u8>, value: &Option<Value>) -> Result<(), AllocError>
    ensures { OnOk result (text.new.items ≡ text.old.items ++ spec.value_text (value_if value.now)) }
{
    match value {
        None => text.extend_from_slice(b"NONE"),
        Some(Value::Number(x)) => push_integer(text, *x),
        Some(Value::Truth(holds)) => text.extend_from_slice(if *holds { b"YES" } else { b"NO" }),
        Some(Value::Members(members)) => push_members(text, members),
    }
}

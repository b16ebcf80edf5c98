//! The values of the parts of a state.
ghost use Rattle.std.specs.Prelude.{◌≡◌, IfOk};
ghost use Rattle.ss_changes.specs.Values.{is_same_entry, is_same, is_there, needs_both, is_told};

use crate::part::Part;
use ss_state::Entry;
use std::alloc::{AllocError, Global};
use std::marker::Model;

/// The members of a list, first to last.
#[derive(Drop)]
pub struct Members {
    /// Their numbers.
    pub numbers: Vec<u32>,
}

impl Model for Members {
    ghost use Rattle.std.specs.Prelude.{List, ℕ};

    ghost Value = { List ℕ };

    ghost view = { λ m. m.numbers.items };
}

/// The value of a part of a state.
#[derive(Drop)]
pub enum PartValue {
    /// The part isn't there.
    Absent,
    /// The value of a variable or an attribute, or a time.
    Number(i64),
    /// How many there are.
    Count(usize),
    /// An entity lives.
    Lives,
    /// The members of a list.
    Listed(Members),
    /// The entry of an external event.
    Entered(Entry),
    /// A number of bytes.
    Bytes(usize),
}

/// Whether two entries are the same.
fn is_same_entry(one: Entry, other: Entry) -> bool
    ensures { result ≡ is_same_entry one other }
{
    match (one, other) {
        (Entry::Absent, Entry::Absent) => true,
        (
            Entry::Waiting { class, notice },
            Entry::Waiting {
                class: other_class,
                notice: other_notice,
            },
        ) => class == other_class && notice == other_notice,
        (
            Entry::Running { class, notice },
            Entry::Running {
                class: other_class,
                notice: other_notice,
            },
        ) => class == other_class && notice == other_notice,
        _ => false,
    }
}

/// Whether two values are the same.
pub fn is_same(one: &PartValue, other: &PartValue) -> bool
    ensures { result ≡ is_same one.now other.now }
{
    match (one, other) {
        (PartValue::Absent, PartValue::Absent) => true,
        (PartValue::Number(x), PartValue::Number(y)) => *x == *y,
        (PartValue::Count(x), PartValue::Count(y)) => *x == *y,
        (PartValue::Lives, PartValue::Lives) => true,
        (PartValue::Listed(one), PartValue::Listed(other)) => {
            one.numbers.as_slice() == other.numbers.as_slice()
        }
        (PartValue::Entered(one), PartValue::Entered(other)) => is_same_entry(*one, *other),
        (PartValue::Bytes(x), PartValue::Bytes(y)) => *x == *y,
        _ => false,
    }
}

/// Whether a part is there.
pub fn is_there(value: &PartValue) -> bool
    ensures { result ≡ is_there value.now }
{
    !matches!(value, PartValue::Absent)
}

/// Whether a part is shown only if both states have it.
fn needs_both(part: Part) -> bool
    ensures { result ≡ needs_both part }
{
    !matches!(part, Part::Entity { .. } | Part::Notice { .. })
}

/// Whether a part with these values before and after is shown.
pub fn is_told(part: Part, before: &PartValue, after: &PartValue) -> bool
    ensures { result ≡ is_told part before.now after.now }
{
    !is_same(before, after) && (!needs_both(part) || (is_there(before) && is_there(after)))
}

/// The same members once more.
fn copy_of_members(alloc: Global, members: &Members) -> Result<Members, AllocError>
    ensures { IfOk result (λ copy. copy ≡ members.now) }
{
    Ok(Members {
        numbers: Vec::from_slice(alloc, &members.numbers)?,
    })
}

/// The same value once more.
pub fn copy_of(alloc: Global, value: &PartValue) -> Result<PartValue, AllocError>
    ensures { IfOk result (λ copy. copy ≡ value.now) }
{
    Ok(match value {
        PartValue::Absent => PartValue::Absent,
        PartValue::Number(x) => PartValue::Number(*x),
        PartValue::Count(n) => PartValue::Count(*n),
        PartValue::Lives => PartValue::Lives,
        PartValue::Listed(members) => PartValue::Listed(copy_of_members(alloc, members)?),
        PartValue::Entered(entry) => PartValue::Entered(*entry),
        PartValue::Bytes(n) => PartValue::Bytes(*n),
    })
}

//! The values of a frame's locals.
ghost use Rattle.std.specs.Prelude.{◌≡◌, ◌<◌, ◌≤◌, length, pos, slice_index_or, slice_set, IfOk, MatchBool};
ghost use Rattle.ss_machine.specs.Locals.{padded, few_values, IsPadded};
ghost use Rattle.ss_machine.specs.declared.state.locals.TheConstants.{MOST_WITHIN};

use std::alloc::{AllocError, Global};
use std::marker::Model;

/// The greatest number of locals that are within their frame; more have memory of their own.
pub const MOST_WITHIN: usize = 4;

/// Values of few locals: the first `count` of these.
#[derive(Clone, Copy)]
pub struct FewValues {
    pub count: usize,
    pub values: [i64; MOST_WITHIN],
}

/// The values of the locals of a frame, in the order of its section's table.
#[derive(Drop)]
pub struct Locals {
    count: usize,
    // The first of these, if they are few.
    few: [i64; MOST_WITHIN],
    // All of them, if they are too many to be within the frame.
    many: Vec<i64>,
}

impl Model for Locals {
    ghost use Rattle.std.specs.Prelude.{List, ℤ};
    ghost use Rattle.ss_machine.specs.Locals.{values_of, HasCount};

    ghost Value = { List ℤ };

    ghost view = { λ a. values_of a.count a.few a.many.items };

    ghost invariant = { λ a. HasCount a.count a.many.items };
}

impl Locals {
    /// The values of `count` locals, the first given, the others 0. Few take no memory.
    #[inline(always)]
    pub fn new(alloc: Global, given: &[i64], count: usize) -> Result<Self, AllocError>
        requires { length given.now ≤ count }
        ensures { IfOk result (λ locals. locals ≡ padded given.now count) }
    {
        let many = many_values(alloc, given, count)?;
        let few = [
            value_or_zero(given, 0),
            value_or_zero(given, 1),
            value_or_zero(given, 2),
            value_or_zero(given, 3),
        ];
        Ok(Locals { count, few, many })
    }

    /// Few locals. They take no memory.
    #[inline(always)]
    pub fn of_few(alloc: Global, few: FewValues) -> Self
        ensures { result ≡ few_values few }
    {
        let FewValues { count, values } = few;
        Locals {
            count: count.min(MOST_WITHIN),
            few: values,
            many: Vec::new(alloc),
        }
    }

    /// Whether the locals are few.
    #[inline(always)]
    pub fn are_few(&self) -> bool
        ensures { MatchBool result (length self.now ≤ MOST_WITHIN) (Unit {0}) }
    {
        self.count <= MOST_WITHIN
    }

    /// The values of few locals.
    #[inline(always)]
    pub fn few(&self) -> FewValues
        requires { length self.now ≤ MOST_WITHIN }
        ensures { few_values result ≡ self.now }
    {
        let values = self.few;
        FewValues {
            count: self.count,
            values,
        }
    }

    #[inline(always)]
    pub fn as_slice(&self) -> &[i64]
        ensures { result.now ≡ self.now }
    {
        if self.count <= MOST_WITHIN {
            &self.few[..self.count]
        } else {
            self.many.as_slice()
        }
    }

    /// Gives a local another value; answers the old one.
    #[inline(always)]
    pub fn set(&mut self, number: usize, value: i64) -> i64
        requires { number < length self.old }
        ensures state { self.new ≡ slice_set self.old number value }
        ensures back { slice_set self.new number result ≡ self.old }
    {
        if self.count <= MOST_WITHIN {
            let old = self.few[number];
            self.few[number] = value;
            old
        } else {
            let old = self.many[number];
            self.many[number] = value;
            old
        }
    }
}

/// Memory with the values of `count` locals, the first given, the others 0; none if they are few.
#[inline(always)]
fn many_values(alloc: Global, given: &[i64], count: usize) -> Result<Vec<i64>, AllocError>
    requires { length given.now ≤ count }
    ensures { IfOk result (λ many. IsPadded given.now count many.items) }
{
    if count <= MOST_WITHIN {
        return Ok(Vec::new(alloc));
    }
    padded_values(alloc, given, count)
}

#[cold]
#[inline(never)]
fn padded_values(alloc: Global, given: &[i64], count: usize) -> Result<Vec<i64>, AllocError>
    requires { length given.now ≤ count }
    ensures { IfOk result (λ many. many.items ≡ padded given.now count) }
{
    let mut values = Vec::with_capacity(alloc, count)?;
    values.extend_from_slice(given)?;
    values.resize(count, 0)?;
    Ok(values)
}

#[inline(always)]
fn value_or_zero(given: &[i64], number: usize) -> i64
    ensures { result ≡ slice_index_or given.now number (pos 0) }
{
    match given.get(number) {
        Some(&value) => value,
        None => 0,
    }
}

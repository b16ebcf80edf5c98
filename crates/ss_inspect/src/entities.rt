//! The entities of a class that live, and the answer to SHOW c.
ghost use Rattle.std.specs.Prelude.{◌≡◌, ◌++◌, ◌-◌, ◌<◌, ◌≤◌, ◌^◌, length, OnOk, IfOk};
ghost use Rattle.ss_store.specs.Tables.{class_of};
ghost use Rattle.ss_machine.specs.Moment.{position};
ghost use Rattle.ss_store.specs.Store.{greatest_number};
ghost use Rattle.ss_inspect.specs.Living.{living_at, living_numbers, living_text};

use crate::texts::{push_members, push_no_such};
use ss_debug::find_class;
use ss_links::SetBoard;
use ss_machine::Machine;
use ss_store::Store;
use std::alloc::{AllocError, Global};

/// A number that no entity of a class is past.
pub fn number_limit<S: SetBoard>(store: &Store<S>, class: usize) -> u32
    ensures { greatest_number store.now.state class ≤ result }
{
    store.greatest_number(class)
}

/// Appends the number one more than `below`, if an entity of the class with it lives.
fn push_if_living<S: SetBoard>(
    numbers: &mut Vec<u32>,
    store: &Store<S>,
    class: usize,
    below: u32,
) -> Result<(), AllocError>
    requires { below < 2 ^ 32 - 1 }
    ensures { OnOk result (numbers.new.items
        ≡ numbers.old.items ++ living_at store.now.state class below) }
{
    if !store.exists(class, i64::from(below) + 1) {
        return Ok(());
    }
    numbers.push(below + 1)?;
    Ok(())
}

/// The entities of a class that live, none of which is past a limit.
fn living_within<S: SetBoard>(
    alloc: Global,
    store: &Store<S>,
    class: usize,
    limit: u32,
) -> Result<Vec<u32>, AllocError>
    requires { greatest_number store.now.state class ≤ limit }
    ensures { IfOk result (λ numbers. numbers.items ≡ living_numbers store.now.state class) }
{
    let mut numbers = Vec::new(alloc);
    for below in 0..limit {
        push_if_living(&mut numbers, store, class, below)?;
    }
    Ok(numbers)
}

/// 1 if an entity of the class lives whose number is one more than `below`, else 0.
fn one_if_living<S: SetBoard>(store: &Store<S>, class: usize, below: u32) -> u32
    ensures count { result ≡ length (living_at store.now.state class below) }
    ensures one { result ≤ 1 }
{
    if store.exists(class, i64::from(below) + 1) {
        1
    } else {
        0
    }
}

/// How many entities of a class live, none of which is past a limit.
fn count_living_within<S: SetBoard>(store: &Store<S>, class: usize, limit: u32) -> u32
    requires { greatest_number store.now.state class ≤ limit }
    ensures { result ≡ length (living_numbers store.now.state class) }
{
    let mut count = 0u32;
    for below in 0..limit {
        count += one_if_living(store, class, below);
    }
    count
}

/// The numbers of the entities of the class with this number that live, the least first. It looks
/// once at each number that an entity of the class may have.
///
/// `AllocError` if the memory for them was refused.
pub fn living_numbers<S: SetBoard>(
    alloc: Global,
    machine: &Machine<S>,
    class: usize,
) -> Result<Vec<u32>, AllocError>
    ensures { IfOk result (λ numbers. numbers.items
        ≡ living_numbers machine.now.state.store class) }
{
    let store = machine.store();
    living_within(alloc, store, class, number_limit(store, class))
}

/// How many entities of the class with this number live. It takes no memory, and as long as
/// [`living_numbers`].
pub fn count_living<S: SetBoard>(machine: &Machine<S>, class: usize) -> u32
    ensures { result ≡ length (living_numbers machine.now.state.store class) }
{
    let store = machine.store();
    count_living_within(store, class, number_limit(store, class))
}

/// Appends the answer to SHOW c: the numbers of the entities of the class of this name that live,
/// or `c: EMPTY`, or `NO CLASS c`.
#[tactic(auto, unfolding(crate::specs::Living::living_text))]
pub fn push_living<S: SetBoard>(
    alloc: Global,
    text: &mut Vec<u8>,
    machine: &Machine<S>,
    name: &[u8],
) -> Result<(), AllocError>
    ensures { OnOk result (text.new.items
        ≡ text.old.items ++ living_text name.now machine.now.input (position machine.now)) }
{
    machine.known();
    let Some(class) = find_class(machine.program(), name) else {
        return push_no_such(text, b"CLASS", name);
    };
    let numbers = living_numbers(alloc, machine, class)?;
    text.extend_from_slice(name)?;
    text.extend_from_slice(b": ")?;
    push_members(text, &numbers)?;
    text.extend_from_slice(b"\n")
}

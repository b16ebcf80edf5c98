//! The numbers in the lines of an entity.
ghost use Rattle.std.specs.Prelude.{◌≡◌, ◌++◌, ◌<◌, length, OnOk};
ghost use Rattle.ss_program.specs.Program.{class_of};
ghost use Rattle.ss_store.specs.Store.{number_of};
ghost use Rattle.ss_trace.specs.EntityNumbers.{numbers_below, attribute_numbers, kept_number, set_numbers};
ghost use Rattle.ss_trace.specs.EntityNumbers.{entity_numbers, is_counted, living_numbers, numbers_of, AreKept};
ghost use Rattle.ss_trace.specs.Sight.{IsInTables};

use crate::attribute::{Kept, has_kept, kept_value};
use crate::sight::Sight;
use crate::touches::Part;
use ss_links::SetBoard;
use ss_machine::Machine;
use ss_store::Neighbours;
use std::alloc::AllocError;

/// Appends an attribute of an entity, by its number in the class.
fn push_attribute<S: SetBoard>(
    numbers: &mut Vec<i64>,
    machine: &Machine<S>,
    class: usize,
    attribute: usize,
    x: i64,
) -> Result<(), AllocError>
    ensures { OnOk result (numbers.new.items ≡ numbers.old.items
        ++ attribute_numbers machine.now.state.store class (number_of x) attribute) }
{
    numbers.push(machine.store().get(class, attribute, x).unwrap_or(0))?;
    Ok(())
}

/// Appends the attributes of an entity.
fn push_attributes<S: SetBoard>(
    numbers: &mut Vec<i64>,
    machine: &Machine<S>,
    class: usize,
    x: i64,
) -> Result<(), AllocError>
    ensures { OnOk result (numbers.new.items ≡ numbers.old.items
        ++ numbers_below (attribute_numbers machine.now.state.store class (number_of x))
        (length (class_of machine.now.input.program class).attributes)) }
{
    for attribute in 0..machine.program().attributes(class).len() {
        push_attribute(numbers, machine, class, attribute, x)?;
    }
    Ok(())
}

/// A kept attribute of an entity in a set; 0 if the entities of its class do not have it.
#[tactic(auto, using(ss_debug::proofs::Tables::sets_kept))]
pub fn kept_number<S: SetBoard>(
    machine: &Machine<S>,
    class: usize,
    x: i64,
    set: usize,
    kept: Kept,
) -> i64
    requires { set < length machine.now.input.program.sets }
    ensures { result ≡ kept_number machine.now.input.program machine.now.state.store class
        (number_of x) set kept }
{
    if !has_kept(machine.program(), class, set, kept) {
        return 0;
    }
    i64::from(kept_value(machine.store(), set, x, kept))
}

/// The members of a set next to an entity, and whether a list of the set holds it; none and `false`
/// if the entities of its class are no members, or it does not exist.
#[tactic(auto, using(ss_debug::proofs::Tables::sets_kept))]
pub fn neighbours_of<S: SetBoard>(
    machine: &Machine<S>,
    class: usize,
    x: i64,
    set: usize,
) -> Neighbours
    requires { set < length machine.now.input.program.sets }
    ensures { AreKept machine.now.input.program machine.now.state.store class (number_of x) set
        result }
{
    let none = Neighbours {
        before: None,
        behind: None,
        is_filed: false,
    };
    if machine.program().member_class(set) != class {
        return none;
    }
    match machine.store().neighbours(set, x) {
        Ok(neighbours) => neighbours,
        Err(_) => none,
    }
}

/// Appends the numbers of a set for an entity, as an owner of its lists and as a member of one.
fn push_set<S: SetBoard>(
    numbers: &mut Vec<i64>,
    machine: &Machine<S>,
    class: usize,
    x: i64,
    set: usize,
) -> Result<(), AllocError>
    requires { set < length machine.now.input.program.sets }
    ensures { OnOk result (numbers.new.items ≡ numbers.old.items
        ++ set_numbers machine.now.input.program machine.now.state.store class (number_of x)
        set) }
{
    numbers.extend_from_slice(&[
        kept_number(machine, class, x, set, Kept::First),
        kept_number(machine, class, x, set, Kept::Last),
        kept_number(machine, class, x, set, Kept::Number),
        kept_number(machine, class, x, set, Kept::Predecessor),
        kept_number(machine, class, x, set, Kept::Successor),
        kept_number(machine, class, x, set, Kept::Membership),
    ])
}

/// Appends the numbers of all sets for an entity.
fn push_sets<S: SetBoard>(
    numbers: &mut Vec<i64>,
    machine: &Machine<S>,
    class: usize,
    x: i64,
) -> Result<(), AllocError>
    ensures { OnOk result (numbers.new.items ≡ numbers.old.items
        ++ numbers_below (set_numbers machine.now.input.program machine.now.state.store class
        (number_of x)) (length machine.now.input.program.sets)) }
{
    for set in 0..machine.program().sets.len() {
        push_set(numbers, machine, class, x, set)?;
    }
    Ok(())
}

/// Appends the numbers of the lines of an entity.
fn push_entity<S: SetBoard>(
    numbers: &mut Vec<i64>,
    machine: &Machine<S>,
    class: usize,
    x: i64,
) -> Result<(), AllocError>
    ensures { OnOk result (numbers.new.items ≡ numbers.old.items
        ++ entity_numbers machine.now.input.program machine.now.state.store class
        (number_of x)) }
{
    push_attributes(numbers, machine, class, x)?;
    push_sets(numbers, machine, class, x)
}

/// Whether the numbers of an entity give all of an answer.
pub fn is_counted(part: Part, sight: Sight) -> bool
    ensures { result ≡ is_counted part sight }
{
    matches!((part, sight), (Part::Entities, Sight::Entity(_, _)))
}

/// Appends the numbers of the lines of an entity after a 1, or nothing if it does not exist.
fn push_living<S: SetBoard>(
    numbers: &mut Vec<i64>,
    machine: &Machine<S>,
    class: usize,
    x: i64,
) -> Result<(), AllocError>
    ensures { OnOk result (numbers.new.items ≡ numbers.old.items
        ++ living_numbers machine.now.input.program machine.now.state.store class
        (number_of x)) }
{
    if !machine.store().exists(class, x) {
        return Ok(());
    }
    numbers.push(1)?;
    push_entity(numbers, machine, class, x)
}

/// Appends the numbers of the entity at which a question looks; nothing if it looks at something
/// else.
///
/// `AllocError` if a growth was refused; then the appended numbers do not count.
pub fn push_numbers<S: SetBoard>(
    numbers: &mut Vec<i64>,
    machine: &Machine<S>,
    part: Part,
    sight: Sight,
) -> Result<(), AllocError>
    requires { IsInTables machine.now.input.program sight }
    ensures { OnOk result (numbers.new.items ≡ numbers.old.items
        ++ numbers_of part machine.now.input.program machine.now.state sight) }
{
    match (part, sight) {
        (Part::Entities, Sight::Entity(class, x)) => push_living(numbers, machine, class, x),
        _ => Ok(()),
    }
}

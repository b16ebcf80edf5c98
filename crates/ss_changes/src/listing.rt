//! The parts of a state, one after the other, each kind in the order of its table.
ghost use Rattle.std.specs.Prelude.{◌≡◌, ◌++◌, [], length, slice_index_or, IfOk, OnOk};
ghost use Rattle.ss_program.specs.Program.{set_of};
ghost use Rattle.ss_changes.specs.Parts.{below_of, each_of, global_part, local_part};
ghost use Rattle.ss_changes.specs.Parts.{attribute_part, attributes_of, entity_part, list_part};
ghost use Rattle.ss_changes.specs.Parts.{absent_in, notices_in};
ghost use Rattle.ss_changes.specs.View.{local_counts, living_in, owners_among};

use crate::part::Part;
use crate::reading::value_of;
use crate::rows::local_names;
use crate::value::{Members, is_there};
use ss_inspect::living_numbers;
use ss_links::SetBoard;
use ss_machine::Machine;
use ss_program::{Owner, Program};
use std::alloc::{AllocError, Global};

/// The numbers of the entities that live, class by class.
pub fn living<S: SetBoard>(alloc: Global, machine: &Machine<S>) -> Result<Vec<Members>, AllocError>
    ensures { IfOk result (λ living. living.items
        ≡ living_in machine.now.input.program machine.now.state) }
{
    let mut living = Vec::new(alloc);
    for class in 0..machine.program().classes.len() {
        let numbers = living_numbers(alloc, machine, class)?;
        living.push(Members { numbers })?;
    }
    Ok(living)
}

/// How many locals each frame has, MAIN's first.
pub fn local_counts<S: SetBoard>(
    alloc: Global,
    machine: &Machine<S>,
) -> Result<Vec<usize>, AllocError>
    ensures { IfOk result (λ counts. counts.items
        ≡ local_counts machine.now.input.program machine.now.state) }
{
    let mut counts = Vec::new(alloc);
    for below in 0..machine.frames() {
        counts.push(local_names(machine, below).len())?;
    }
    Ok(counts)
}

/// The pending notices, in their order.
pub fn notices_now<S: SetBoard>(
    alloc: Global,
    machine: &Machine<S>,
) -> Result<Vec<Part>, AllocError>
    ensures { IfOk result (λ parts. parts.items
        ≡ notices_in machine.now.input.program machine.now.state) }
{
    let agenda = machine.agenda();
    agenda.known();
    let mut parts = Vec::new(alloc);
    let mut listing = agenda.listing();
    while let Some(notice) = agenda.list_next(&mut listing) {
        let slot = agenda.slot(notice).unwrap();
        parts.push(Part::Notice {
            class: slot.class,
            notice,
        })?;
    }
    Ok(parts)
}

/// Appends the first `count` global variables.
pub fn push_globals(parts: &mut Vec<Part>, count: usize) -> Result<(), AllocError>
    ensures { OnOk result (parts.new.items ≡ parts.old.items ++ below_of global_part count) }
{
    for number in 0..count {
        parts.push(Part::Global { number })?;
    }
    Ok(())
}

/// Appends the first `count` locals of the frame with `below` frames below it.
pub fn push_locals(parts: &mut Vec<Part>, below: usize, count: usize) -> Result<(), AllocError>
    ensures { OnOk result (parts.new.items
        ≡ parts.old.items ++ below_of (local_part below) count) }
{
    for number in 0..count {
        parts.push(Part::Local { below, number })?;
    }
    Ok(())
}

/// Appends the first `count` attributes of an entity.
fn push_attributes(
    parts: &mut Vec<Part>,
    class: usize,
    entity: u32,
    count: usize,
) -> Result<(), AllocError>
    ensures { OnOk result (parts.new.items
        ≡ parts.old.items ++ below_of (attribute_part class entity) count) }
{
    for attribute in 0..count {
        parts.push(Part::Attribute {
            class,
            entity,
            attribute,
        })?;
    }
    Ok(())
}

/// Appends the attributes of some entities of a class.
fn push_attributes_of(
    parts: &mut Vec<Part>,
    program: &Program,
    class: usize,
    entities: &[u32],
) -> Result<(), AllocError>
    ensures { OnOk result (parts.new.items
        ≡ parts.old.items ++ each_of (attributes_of program.now class) entities.now) }
{
    let count = program.attributes(class).len();
    for entity in entities {
        push_attributes(parts, class, *entity, count)?;
    }
    Ok(())
}

/// Appends the attributes of entities, class by class.
pub fn push_all_attributes(
    parts: &mut Vec<Part>,
    program: &Program,
    living: &[Members],
) -> Result<(), AllocError>
    ensures { OnOk result (parts.new.items ≡ parts.old.items
        ++ below_of (λ c. each_of (attributes_of program.now c) (slice_index_or living.now c []))
        (length living.now)) }
{
    for class in 0..living.len() {
        let entities = &living[class];
        push_attributes_of(parts, program, class, &entities.numbers)?;
    }
    Ok(())
}

/// Appends some entities of a class.
fn push_entities(parts: &mut Vec<Part>, class: usize, entities: &[u32]) -> Result<(), AllocError>
    ensures { OnOk result (parts.new.items
        ≡ parts.old.items ++ each_of (entity_part class) entities.now) }
{
    for entity in entities {
        parts.push(Part::Entity {
            class,
            entity: *entity,
        })?;
    }
    Ok(())
}

/// Appends entities class by class: those of one state, then those of the other.
pub fn push_all_entities(
    parts: &mut Vec<Part>,
    earlier: &[Members],
    later: &[Members],
) -> Result<(), AllocError>
    requires { length earlier.now ≡ length later.now }
    ensures { OnOk result (parts.new.items ≡ parts.old.items
        ++ below_of (λ c. each_of (entity_part c) (slice_index_or earlier.now c [])
        ++ each_of (entity_part c) (slice_index_or later.now c [])) (length later.now)) }
{
    for class in 0..later.len() {
        let (lived, living) = (&earlier[class], &later[class]);
        push_entities(parts, class, &lived.numbers)?;
        push_entities(parts, class, &living.numbers)?;
    }
    Ok(())
}

/// The owners of the lists of a set, of the entities with these numbers.
fn owners(living: &[Members], owner: Owner) -> &[u32]
    ensures { result.now ≡ owners_among living.now owner }
{
    let Owner::OwnedBy(class) = owner else {
        return &[0];
    };
    match living.get(class) {
        None => &[],
        Some(members) => &members.numbers,
    }
}

/// Appends the lists of a set for some owners.
fn push_lists(parts: &mut Vec<Part>, set: usize, owners: &[u32]) -> Result<(), AllocError>
    ensures { OnOk result (parts.new.items
        ≡ parts.old.items ++ each_of (list_part set) owners.now) }
{
    for owner in owners {
        parts.push(Part::List { set, owner: *owner })?;
    }
    Ok(())
}

/// Appends the lists of all sets, for the system and for entities with these numbers.
pub fn push_all_lists(
    parts: &mut Vec<Part>,
    program: &Program,
    living: &[Members],
) -> Result<(), AllocError>
    ensures { OnOk result (parts.new.items ≡ parts.old.items
        ++ below_of (λ s. each_of (list_part s)
        (owners_among living.now (set_of program.now s).owner)) (length program.now.sets)) }
{
    for set in 0..program.sets.len() {
        push_lists(parts, set, owners(living, program.set_owner(set)))?;
    }
    Ok(())
}

/// Appends those of some parts that are not there.
pub fn push_absent<S: SetBoard>(
    alloc: Global,
    parts: &mut Vec<Part>,
    machine: &Machine<S>,
    among: &[Part],
) -> Result<(), AllocError>
    ensures { OnOk result (parts.new.items ≡ parts.old.items
        ++ absent_in machine.now.input.program machine.now.state among.now) }
{
    for part in among {
        if !is_there(&value_of(alloc, machine, *part)?) {
            parts.push(*part)?;
        }
    }
    Ok(())
}

//! Entities and their attributes and lists.
ghost use Rattle.std.specs.Prelude.{◌≡◌, ◌++◌, ◌+◌, ◌-◌, ◌^◌, ◌<◌, length, IfOk, OnOk};
ghost use Rattle.ss_program.specs.declared.kinds.Owner.TheVariants.{OwnedBy};
ghost use Rattle.ss_program.specs.Program.{class_of, set_of, is_same_owner};
ghost use Rattle.ss_store.specs.Tables as tables;
ghost use Rattle.ss_store.specs.Store.{number_of, members_of};
ghost use Rattle.ss_debug.specs.Entities.{shape_of};
ghost use Rattle.ss_inspect.specs.Texts.{texts_below};
ghost use Rattle.ss_scopes.specs.Entities.{entity_name, entity_item, entity_items, living_page, class_page};
ghost use Rattle.ss_scopes.specs.Entities.{attribute_item, list_item, owned_item, joined_item, entity_variables};
ghost use Rattle.ss_scopes.specs.Kept.{owner_items, member_items};

use crate::group::{class_reference, set_reference};
use crate::kept::{push_member_items, push_owner_items};
use crate::pages::Page;
use itoa::Buffer;
use ss_debug::push_number;
use ss_inspect::living_numbers;
use ss_links::SetBoard;
use ss_machine::Machine;
use ss_messages::{paged_item, variable_item};
use ss_program::{Owner, Program, name_at};
use ss_store::Store;
use std::alloc::{AllocError, Global};

/// The name of an entity of the class with this number.
pub fn entity_name(
    alloc: Global,
    program: &Program,
    class: usize,
    number: u32,
) -> Result<Vec<u8>, AllocError>
    ensures { IfOk result (λ name. name.items ≡ entity_name program.now class number) }
{
    let mut name = Vec::new(alloc);
    name.extend_from_slice(program.class_name(class))?;
    name.extend_from_slice(b" ")?;
    push_number(&mut name, u64::from(number))?;
    Ok(name)
}

/// Appends an entity of the class with this number, under its number.
fn push_entity(
    out: &mut Vec<u8>,
    program: &Program,
    class: usize,
    number: u32,
) -> Result<(), AllocError>
    ensures { OnOk result (out.new.items
        ≡ out.old.items ++ entity_item program.now class number) }
{
    let alloc = *out.allocator();
    let mut buffer = Buffer::new();
    let name = entity_name(alloc, program, class, number)?;
    let reference = class_reference(class, number);
    let item = variable_item(alloc, buffer.format(number).as_bytes(), &name, reference)?;
    out.extend_from_slice(&item)
}

/// Appends entities of the class with this number.
pub fn push_entities(
    out: &mut Vec<u8>,
    program: &Program,
    class: usize,
    numbers: &[u32],
) -> Result<(), AllocError>
    ensures { OnOk result (out.new.items
        ≡ out.old.items ++ entity_items program.now class numbers.now) }
{
    for number in numbers {
        push_entity(out, program, class, *number)?;
    }
    Ok(())
}

/// Appends a page of the entities of the class with this number that live.
fn push_living<S: SetBoard>(
    out: &mut Vec<u8>,
    machine: &Machine<S>,
    class: usize,
    page: Page,
) -> Result<(), AllocError>
    ensures { OnOk result (out.new.items ≡ out.old.items
        ++ living_page machine.now.input.program machine.now.state.store class page.start
        page.count) }
{
    let numbers = living_numbers(*out.allocator(), machine, class)?;
    push_entities(out, machine.program(), class, page.numbers_on(&numbers))
}

/// Appends a page of the entities of a class that live, if there is such a class.
pub fn push_class<S: SetBoard>(
    out: &mut Vec<u8>,
    machine: &Machine<S>,
    class: usize,
    page: Page,
) -> Result<(), AllocError>
    ensures { OnOk result (out.new.items ≡ out.old.items
        ++ class_page machine.now.input.program machine.now.state.store class page.start
        page.count) }
{
    if class >= machine.program().classes.len() {
        return Ok(());
    }
    push_living(out, machine, class, page)
}

/// Appends an attribute of an entity of the class with this number.
fn push_attribute<S: SetBoard>(
    out: &mut Vec<u8>,
    machine: &Machine<S>,
    class: usize,
    number: u32,
    attribute: usize,
) -> Result<(), AllocError>
    ensures { OnOk result (out.new.items ≡ out.old.items
        ++ attribute_item machine.now.input.program machine.now.state.store class number
        attribute) }
{
    let mut buffer = Buffer::new();
    let value = machine
        .store()
        .get(class, attribute, i64::from(number))
        .unwrap_or(0);
    let name = name_at(machine.program().attributes(class), attribute);
    let item = variable_item(*out.allocator(), name, buffer.format(value).as_bytes(), 0)?;
    out.extend_from_slice(&item)
}

/// Appends the attributes of an entity of the class with this number.
fn push_attributes<S: SetBoard>(
    out: &mut Vec<u8>,
    machine: &Machine<S>,
    class: usize,
    number: u32,
) -> Result<(), AllocError>
    ensures { OnOk result (out.new.items ≡ out.old.items
        ++ texts_below (attribute_item machine.now.input.program machine.now.state.store class
        number) (length (class_of machine.now.input.program class).attributes)) }
{
    for attribute in 0..machine.program().attributes(class).len() {
        push_attribute(out, machine, class, number, attribute)?;
    }
    Ok(())
}

/// How many members the list of a set has; 0 if its owner does not exist.
fn list_length<S: SetBoard>(store: &Store<S>, set: usize, owner: i64) -> u32
    requires { set < length store.now.tables.sets }
    ensures { result ≡ length (members_of (tables.set_of store.now.tables set) store.now.state
        (number_of owner)) }
{
    store.count(set, owner).unwrap_or(0)
}

/// How many members the list of a set of the program has for the owner with this number.
#[tactic(auto, using(ss_inspect::proofs::Shapes::shape_is, ss_debug::proofs::Tables::sets_kept))]
pub fn member_count<S: SetBoard>(machine: &Machine<S>, set: usize, owner: u32) -> u32
    requires { set < length machine.now.input.program.sets }
    ensures { result ≡ length (members_of (shape_of machine.now.input.program set)
        machine.now.state.store owner) }
{
    list_length(machine.store(), set, i64::from(owner))
}

/// Appends the list of a set for the owner with this number, under a name.
pub fn push_list<S: SetBoard>(
    out: &mut Vec<u8>,
    machine: &Machine<S>,
    name: &[u8],
    set: usize,
    owner: u32,
) -> Result<(), AllocError>
    requires { set < length machine.now.input.program.sets }
    ensures { OnOk result (out.new.items ≡ out.old.items
        ++ list_item machine.now.input.program machine.now.state.store name.now set owner) }
{
    let mut buffer = Buffer::new();
    let count = u64::from(member_count(machine, set, owner));
    let reference = set_reference(set, owner);
    let item = paged_item(
        *out.allocator(),
        name,
        buffer.format(count).as_bytes(),
        reference,
        count,
    )?;
    out.extend_from_slice(&item)
}

/// Whether an owner is the class with this number.
fn is_owned_by(owner: Owner, class: usize) -> bool
    ensures { result ≡ is_same_owner (OwnedBy class) owner }
{
    match owner {
        Owner::System => false,
        Owner::OwnedBy(other) => class == other,
    }
}

/// Appends the kept attributes of the owner with this number, for a set of the program.
#[tactic(auto, using(ss_debug::proofs::Tables::sets_kept))]
fn push_owner_kept<S: SetBoard>(
    out: &mut Vec<u8>,
    machine: &Machine<S>,
    set: usize,
    owner: u32,
) -> Result<(), AllocError>
    requires { set < length machine.now.input.program.sets }
    ensures { OnOk result (out.new.items ≡ out.old.items
        ++ owner_items (set_of machine.now.input.program set).name
        (shape_of machine.now.input.program set) machine.now.state.store owner) }
{
    let name = machine.program().set_name(set);
    push_owner_items(out, machine.store(), name, set, i64::from(owner))
}

/// Appends the kept attributes of an entity in a set of the program.
#[tactic(auto, using(ss_debug::proofs::Tables::sets_kept))]
fn push_member_kept<S: SetBoard>(
    out: &mut Vec<u8>,
    machine: &Machine<S>,
    set: usize,
    number: u32,
) -> Result<(), AllocError>
    requires { set < length machine.now.input.program.sets }
    ensures { OnOk result (out.new.items ≡ out.old.items
        ++ member_items (set_of machine.now.input.program set).name
        (shape_of machine.now.input.program set) machine.now.state.store number) }
{
    let name = machine.program().set_name(set);
    push_member_items(out, machine.store(), name, set, i64::from(number))
}

/// Appends the list of a set for an entity, and the kept attributes of the list, if its class owns
/// it.
fn push_owned<S: SetBoard>(
    out: &mut Vec<u8>,
    machine: &Machine<S>,
    class: usize,
    number: u32,
    set: usize,
) -> Result<(), AllocError>
    requires { set < length machine.now.input.program.sets }
    ensures { OnOk result (out.new.items ≡ out.old.items
        ++ owned_item machine.now.input.program machine.now.state.store class number set) }
{
    let program = machine.program();
    if !is_owned_by(program.set_owner(set), class) {
        return Ok(());
    }
    push_list(out, machine, program.set_name(set), set, number)?;
    push_owner_kept(out, machine, set, number)
}

/// Appends the kept attributes of an entity in a set, if it may be in it.
fn push_joined<S: SetBoard>(
    out: &mut Vec<u8>,
    machine: &Machine<S>,
    class: usize,
    number: u32,
    set: usize,
) -> Result<(), AllocError>
    requires { set < length machine.now.input.program.sets }
    ensures { OnOk result (out.new.items ≡ out.old.items
        ++ joined_item machine.now.input.program machine.now.state.store class number set) }
{
    if machine.program().member_class(set) != class {
        return Ok(());
    }
    push_member_kept(out, machine, set, number)
}

/// Appends the lists that an entity owns, and the kept attributes of each.
fn push_owned_lists<S: SetBoard>(
    out: &mut Vec<u8>,
    machine: &Machine<S>,
    class: usize,
    number: u32,
) -> Result<(), AllocError>
    ensures { OnOk result (out.new.items ≡ out.old.items
        ++ texts_below (owned_item machine.now.input.program machine.now.state.store class number)
        (length machine.now.input.program.sets)) }
{
    for set in 0..machine.program().sets.len() {
        push_owned(out, machine, class, number, set)?;
    }
    Ok(())
}

/// Appends the kept attributes of an entity in the sets in which it may be.
fn push_joined_sets<S: SetBoard>(
    out: &mut Vec<u8>,
    machine: &Machine<S>,
    class: usize,
    number: u32,
) -> Result<(), AllocError>
    ensures { OnOk result (out.new.items ≡ out.old.items
        ++ texts_below (joined_item machine.now.input.program machine.now.state.store class
        number) (length machine.now.input.program.sets)) }
{
    for set in 0..machine.program().sets.len() {
        push_joined(out, machine, class, number, set)?;
    }
    Ok(())
}

/// Appends the attributes of an entity that lives, the lists that it owns, and its kept attributes.
pub fn push_entity_variables<S: SetBoard>(
    out: &mut Vec<u8>,
    machine: &Machine<S>,
    class: usize,
    number: u32,
) -> Result<(), AllocError>
    ensures { OnOk result (out.new.items ≡ out.old.items
        ++ entity_variables machine.now.input.program machine.now.state.store class number) }
{
    let known = class < machine.program().classes.len();
    if !known || !machine.store().exists(class, i64::from(number)) {
        return Ok(());
    }
    push_attributes(out, machine, class, number)?;
    push_owned_lists(out, machine, class, number)?;
    push_joined_sets(out, machine, class, number)
}

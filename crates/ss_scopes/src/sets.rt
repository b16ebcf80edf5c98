//! Classes, sets and the lists of a set.
ghost use Rattle.std.specs.Prelude.{◌≡◌, ◌++◌, ◌<◌, length, OnOk, decimal};
ghost use Rattle.ss_program.specs.declared.kinds.Owner.TheVariants.{OwnedBy};
ghost use Rattle.ss_messages.specs.Shown.{paged_item};
ghost use Rattle.ss_scopes.specs.Sets.{class_item, class_items, set_item, set_items, members_part};
ghost use Rattle.ss_scopes.specs.Sets.{lists_of, lists_page, set_page, list_page};

use crate::entities::{entity_name, member_count, push_entities, push_list};
use crate::group::{class_reference, set_reference};
use crate::pages::Page;
use itoa::Buffer;
use ss_inspect::{count_living, living_numbers, members_page};
use ss_links::SetBoard;
use ss_machine::Machine;
use ss_messages::paged_item;
use ss_program::Owner;
use std::alloc::AllocError;

/// Appends a name with the reference of `count` entities.
fn push_counted(
    out: &mut Vec<u8>,
    name: &[u8],
    reference: u64,
    count: u64,
) -> Result<(), AllocError>
    ensures { OnOk result (out.new.items ≡ out.old.items
        ++ paged_item name.now (decimal count) reference count) }
{
    let mut buffer = Buffer::new();
    let item = paged_item(
        *out.allocator(),
        name,
        buffer.format(count).as_bytes(),
        reference,
        count,
    )?;
    out.extend_from_slice(&item)
}

/// Appends the class with this number.
fn push_class_item<S: SetBoard>(
    out: &mut Vec<u8>,
    machine: &Machine<S>,
    class: usize,
) -> Result<(), AllocError>
    ensures { OnOk result (out.new.items ≡ out.old.items
        ++ class_item machine.now.input.program machine.now.state.store class) }
{
    let count = u64::from(count_living(machine, class));
    let name = machine.program().class_name(class);
    push_counted(out, name, class_reference(class, 0), count)
}

/// Appends the classes.
pub fn push_classes<S: SetBoard>(out: &mut Vec<u8>, machine: &Machine<S>) -> Result<(), AllocError>
    ensures { OnOk result (out.new.items ≡ out.old.items
        ++ class_items machine.now.input.program machine.now.state.store) }
{
    for class in 0..machine.program().classes.len() {
        push_class_item(out, machine, class)?;
    }
    Ok(())
}

/// Appends the set with this number.
fn push_set_item<S: SetBoard>(
    out: &mut Vec<u8>,
    machine: &Machine<S>,
    set: usize,
) -> Result<(), AllocError>
    requires { set < length machine.now.input.program.sets }
    ensures { OnOk result (out.new.items ≡ out.old.items
        ++ set_item machine.now.input.program machine.now.state.store set) }
{
    let program = machine.program();
    let name = program.set_name(set);
    match program.set_owner(set) {
        Owner::System => push_list(out, machine, name, set, 0),
        Owner::OwnedBy(class) => {
            let count = u64::from(count_living(machine, class));
            push_counted(out, name, set_reference(set, 0), count)
        }
    }
}

/// Appends the sets.
pub fn push_sets<S: SetBoard>(out: &mut Vec<u8>, machine: &Machine<S>) -> Result<(), AllocError>
    ensures { OnOk result (out.new.items ≡ out.old.items
        ++ set_items machine.now.input.program machine.now.state.store) }
{
    for set in 0..machine.program().sets.len() {
        push_set_item(out, machine, set)?;
    }
    Ok(())
}

/// Appends a page of the members of the list of a set for the owner with this number.
fn push_members<S: SetBoard>(
    out: &mut Vec<u8>,
    machine: &Machine<S>,
    set: usize,
    owner: u32,
    page: Page,
) -> Result<(), AllocError>
    requires { set < length machine.now.input.program.sets }
    ensures { OnOk result (out.new.items ≡ out.old.items
        ++ members_part machine.now.input.program machine.now.state.store set owner page.start
        page.count) }
{
    let alloc = *out.allocator();
    let size = page.size(member_count(machine, set, owner) as usize);
    let members = members_page(alloc, machine, set, i64::from(owner), page.start, size)?;
    let program = machine.program();
    push_entities(out, program, program.member_class(set), &members)
}

/// Appends the lists of a set for some entities of this class.
fn push_lists_of<S: SetBoard>(
    out: &mut Vec<u8>,
    machine: &Machine<S>,
    set: usize,
    class: usize,
    numbers: &[u32],
) -> Result<(), AllocError>
    requires { set < length machine.now.input.program.sets }
    ensures { OnOk result (out.new.items ≡ out.old.items
        ++ lists_of machine.now.input.program machine.now.state.store set class numbers.now) }
{
    for number in numbers {
        let name = entity_name(*out.allocator(), machine.program(), class, *number)?;
        push_list(out, machine, &name, set, *number)?;
    }
    Ok(())
}

/// Appends a page of the lists of a set for the entities of this class that live.
fn push_lists<S: SetBoard>(
    out: &mut Vec<u8>,
    machine: &Machine<S>,
    set: usize,
    class: usize,
    page: Page,
) -> Result<(), AllocError>
    requires { set < length machine.now.input.program.sets }
    ensures { OnOk result (out.new.items ≡ out.old.items
        ++ lists_page machine.now.input.program machine.now.state.store set class page.start
        page.count) }
{
    let numbers = living_numbers(*out.allocator(), machine, class)?;
    push_lists_of(out, machine, set, class, page.numbers_on(&numbers))
}

/// Appends a page of the members or lists of the set with this number, if there is one.
pub fn push_set<S: SetBoard>(
    out: &mut Vec<u8>,
    machine: &Machine<S>,
    set: usize,
    page: Page,
) -> Result<(), AllocError>
    ensures { OnOk result (out.new.items ≡ out.old.items
        ++ set_page machine.now.input.program machine.now.state.store set page.start page.count) }
{
    let program = machine.program();
    if set >= program.sets.len() {
        return Ok(());
    }
    match program.set_owner(set) {
        Owner::System => push_members(out, machine, set, 0, page),
        Owner::OwnedBy(class) => push_lists(out, machine, set, class, page),
    }
}

/// Appends a page of the list of a set for the owner with this number, if there is such a set.
pub fn push_list_page<S: SetBoard>(
    out: &mut Vec<u8>,
    machine: &Machine<S>,
    set: usize,
    owner: u32,
    page: Page,
) -> Result<(), AllocError>
    ensures { OnOk result (out.new.items ≡ out.old.items
        ++ list_page machine.now.input.program machine.now.state.store set owner page.start
        page.count) }
{
    if set >= machine.program().sets.len() {
        return Ok(());
    }
    push_members(out, machine, set, owner, page)
}

//! The answer to a question about an entity.
ghost use Rattle.std.specs.Prelude.{◌≡◌, ◌++◌, ◌<◌, length, OnOk, IfOk};
ghost use Rattle.ss_program.specs.declared.kinds.Owner.TheVariants.{OwnedBy};
ghost use Rattle.ss_program.specs.Program.{class_of, is_same_owner};
ghost use Rattle.ss_store.specs.Tables.{set_of};
ghost use Rattle.ss_store.specs.Store.{number_of};
ghost use Rattle.ss_machine.specs.Moment.{position};
ghost use Rattle.ss_debug.specs.Entities.{member_read, lines_below, attribute_line, kept_line, owner_lines};
ghost use Rattle.ss_debug.specs.Entities.{member_lines, owned_set_lines, joined_set_lines, entity_lines};
ghost use Rattle.ss_debug.specs.Entities.{no_entity_text, entity_text};

use crate::name::Name;
use crate::program_rows::find_class;
use crate::text::{push_integer, push_number};
use ss_links::SetBoard;
use ss_machine::Machine;
use ss_program::{Owner, name_at};
use ss_store::Store;
use ss_words::RunFault;
use std::alloc::{AllocError, Global};

/// Appends the line of a kept attribute.
fn push_kept(text: &mut Vec<u8>, kept: &[u8], set: &[u8], value: usize) -> Result<(), AllocError>
    ensures ok { OnOk result (text.new.items ≡ text.old.items ++ kept_line kept.now set.now value) }
{
    text.extend_from_slice(kept)?;
    text.extend_from_slice(set)?;
    text.extend_from_slice(b" = ")?;
    push_number(text, value as u64)?;
    text.extend_from_slice(b"\n")
}

/// The number of a member, 0 if there is none.
fn member_number(member: Result<Option<u32>, RunFault>) -> usize
    ensures { result ≡ member_read member }
{
    member.unwrap_or(None).unwrap_or(0) as usize
}

/// Appends the line of an attribute, by its number in the class.
fn push_attribute<S: SetBoard>(
    text: &mut Vec<u8>,
    machine: &Machine<S>,
    class: usize,
    attribute: usize,
    x: i64,
) -> Result<(), AllocError>
    ensures ok { OnOk result (text.new.items ≡ text.old.items
        ++ attribute_line machine.now.input.program machine.now.state.store class
        (number_of x) attribute) }
{
    let value = machine.store().get(class, attribute, x).unwrap_or(0);
    text.extend_from_slice(name_at(machine.program().attributes(class), attribute))?;
    text.extend_from_slice(b" = ")?;
    push_integer(text, value)?;
    text.extend_from_slice(b"\n")
}

/// Appends the attributes of an entity of this class, in order of declaration.
fn push_attributes<S: SetBoard>(
    text: &mut Vec<u8>,
    machine: &Machine<S>,
    class: usize,
    x: i64,
) -> Result<(), AllocError>
    ensures ok { OnOk result (text.new.items ≡ text.old.items
        ++ lines_below (attribute_line machine.now.input.program machine.now.state.store class
        (number_of x))
        (length (class_of machine.now.input.program class).attributes)) }
{
    for attribute in 0..machine.program().attributes(class).len() {
        push_attribute(text, machine, class, attribute, x)?;
    }
    Ok(())
}

/// Appends `F.s`, `L.s` and `N.s` of a set for one of its owners.
fn push_owner_lines<S: SetBoard>(
    text: &mut Vec<u8>,
    name: &[u8],
    store: &Store<S>,
    set: usize,
    x: i64,
) -> Result<(), AllocError>
    requires { set < length store.now.tables.sets }
    ensures ok { OnOk result (text.new.items ≡ text.old.items
        ++ owner_lines name.now (set_of store.now.tables set) store.now.state (number_of x)) }
{
    push_kept(text, b"F.", name, member_number(store.walk_first(set, x)))?;
    push_kept(text, b"L.", name, member_number(store.walk_last(set, x)))?;
    let count = store.count(set, x).unwrap_or(0);
    push_kept(text, b"N.", name, count as usize)
}

/// Appends `P.s`, `S.s` and `M.s` of a set for an entity of its members' class.
fn push_member_lines<S: SetBoard>(
    text: &mut Vec<u8>,
    name: &[u8],
    store: &Store<S>,
    set: usize,
    x: i64,
) -> Result<(), AllocError>
    requires { set < length store.now.tables.sets }
    ensures ok { OnOk result (text.new.items ≡ text.old.items
        ++ member_lines name.now (set_of store.now.tables set) store.now.state (number_of x)) }
{
    push_kept(text, b"P.", name, member_number(store.predecessor(set, x)))?;
    push_kept(text, b"S.", name, member_number(store.successor(set, x)))?;
    let is_member = store.membership(set, x).unwrap_or(false);
    push_kept(text, b"M.", name, if is_member { 1 } else { 0 })
}

fn is_owned_by(owner: Owner, class: usize) -> bool
    ensures { result ≡ is_same_owner (OwnedBy class) owner }
{
    match owner {
        Owner::System => false,
        Owner::OwnedBy(c) => class == c,
    }
}

/// Appends the lines of a set for an entity of this class, if the class owns the set.
#[tactic(auto, using(crate::proofs::Tables::sets_kept, crate::proofs::Tables::nothing_more))]
fn push_owned_set<S: SetBoard>(
    text: &mut Vec<u8>,
    machine: &Machine<S>,
    class: usize,
    set: usize,
    x: i64,
) -> Result<(), AllocError>
    requires { set < length machine.now.input.program.sets }
    ensures ok { OnOk result (text.new.items ≡ text.old.items
        ++ owned_set_lines machine.now.input.program machine.now.state.store class
        (number_of x) set) }
{
    let program = machine.program();
    if is_owned_by(program.set_owner(set), class) {
        push_owner_lines(text, program.set_name(set), machine.store(), set, x)?;
    }
    Ok(())
}

/// Appends the lines of a set for an entity of this class, if the class is that of its members.
#[tactic(auto, using(crate::proofs::Tables::sets_kept, crate::proofs::Tables::nothing_more))]
fn push_joined_set<S: SetBoard>(
    text: &mut Vec<u8>,
    machine: &Machine<S>,
    class: usize,
    set: usize,
    x: i64,
) -> Result<(), AllocError>
    requires { set < length machine.now.input.program.sets }
    ensures ok { OnOk result (text.new.items ≡ text.old.items
        ++ joined_set_lines machine.now.input.program machine.now.state.store class
        (number_of x) set) }
{
    let program = machine.program();
    if program.member_class(set) == class {
        push_member_lines(text, program.set_name(set), machine.store(), set, x)?;
    }
    Ok(())
}

/// Appends the lines of the sets that the class owns, for one of its entities.
fn push_owned_sets<S: SetBoard>(
    text: &mut Vec<u8>,
    machine: &Machine<S>,
    class: usize,
    x: i64,
) -> Result<(), AllocError>
    ensures ok { OnOk result (text.new.items ≡ text.old.items
        ++ lines_below (owned_set_lines machine.now.input.program machine.now.state.store class
        (number_of x))
        (length machine.now.input.program.sets)) }
{
    for set in 0..machine.program().sets.len() {
        push_owned_set(text, machine, class, set, x)?;
    }
    Ok(())
}

/// Appends the lines of the sets in which entities of the class may be, for one of them.
fn push_joined_sets<S: SetBoard>(
    text: &mut Vec<u8>,
    machine: &Machine<S>,
    class: usize,
    x: i64,
) -> Result<(), AllocError>
    ensures ok { OnOk result (text.new.items ≡ text.old.items
        ++ lines_below (joined_set_lines machine.now.input.program machine.now.state.store class
        (number_of x))
        (length machine.now.input.program.sets)) }
{
    for set in 0..machine.program().sets.len() {
        push_joined_set(text, machine, class, set, x)?;
    }
    Ok(())
}

/// Appends all lines of an entity of this class.
pub fn push_entity<S: SetBoard>(
    text: &mut Vec<u8>,
    machine: &Machine<S>,
    class: usize,
    x: i64,
) -> Result<(), AllocError>
    ensures ok { OnOk result (text.new.items ≡ text.old.items
        ++ entity_lines machine.now.input.program machine.now.state.store class (number_of x)) }
{
    push_attributes(text, machine, class, x)?;
    push_owned_sets(text, machine, class, x)?;
    push_joined_sets(text, machine, class, x)
}

/// `NO ENTITY c k`.
pub fn no_entity_text(alloc: Global, class: &[u8], x: i64) -> Result<Vec<u8>, AllocError>
    ensures { IfOk result (λ text. text.items ≡ no_entity_text class.now x) }
{
    let mut text = Vec::from_slice(alloc, b"NO ENTITY ")?;
    text.extend_from_slice(class)?;
    text.extend_from_slice(b" ")?;
    push_integer(&mut text, x)?;
    text.extend_from_slice(b"\n")?;
    Ok(text)
}

/// The lines of an entity, `NO CLASS c` or `NO ENTITY c k`.
#[tactic(auto, unfolding(crate::specs::Entities::entity_text))]
pub fn entity_text<S: SetBoard>(
    alloc: Global,
    name: &Name,
    x: i64,
    machine: &Machine<S>,
) -> Result<Vec<u8>, AllocError>
    ensures { IfOk result (λ text. text.items
        ≡ entity_text name.now x machine.now.input (position machine.now)) }
{
    machine.known();
    let name = name.as_slice();
    let Some(class) = find_class(machine.program(), name) else {
        let mut text = Vec::from_slice(alloc, b"NO CLASS ")?;
        text.extend_from_slice(name)?;
        text.extend_from_slice(b"\n")?;
        return Ok(text);
    };
    if !machine.store().exists(class, x) {
        return no_entity_text(alloc, name, x);
    }
    let mut text = Vec::from_slice(alloc, name)?;
    text.extend_from_slice(b" ")?;
    push_integer(&mut text, x)?;
    text.extend_from_slice(b"\n")?;
    push_entity(&mut text, machine, class, x)?;
    Ok(text)
}

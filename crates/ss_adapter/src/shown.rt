//! The questions on the variables that an editor shows.
ghost use Rattle.std.specs.Prelude.{◌≡◌, ◌++◌, ◌<◌, IfOk};
ghost use Rattle.ss_debug.specs.Entities.{set_named};
ghost use Rattle.ss_adapter.specs.Watch.{list_asked, attribute_asked, entity_asked};
ghost use Rattle.ss_adapter.specs.Watch.{set_asked_by, set_asked, owned_asked_by, owned_asked};
ghost use Rattle.ss_adapter.specs.Watch.{variable_asked, local_asked, run_asked, asked_text};

use crate::words::last_word;
use ss_debug::{find_set, push_number};
use ss_program::{Owner, Program};
use ss_scopes::Group;
use std::alloc::{AllocError, Global};

/// A text after another.
fn joined(alloc: Global, head: &'static [u8], text: &[u8]) -> Result<Vec<u8>, AllocError>
    ensures { IfOk result (λ line. line.items ≡ head.now ++ text.now) }
{
    let mut line = Vec::from_slice(alloc, head)?;
    line.extend_from_slice(text)?;
    Ok(line)
}

/// The question on a set for the owner with this number.
fn list_asked(alloc: Global, set: &[u8], owner: u32) -> Result<Vec<u8>, AllocError>
    ensures { IfOk result (λ line. line.items ≡ list_asked set.now owner) }
{
    let mut line = joined(alloc, b"SET ", set)?;
    line.extend_from_slice(b" ")?;
    push_number(&mut line, u64::from(owner))?;
    Ok(line)
}

/// The question on an attribute of an entity of the class of this name.
fn attribute_asked(
    alloc: Global,
    class: &[u8],
    number: u32,
    name: &[u8],
) -> Result<Vec<u8>, AllocError>
    ensures { IfOk result (λ line. line.items ≡ attribute_asked class.now number name.now) }
{
    let mut line = class.to_vec(alloc)?;
    line.extend_from_slice(b" ")?;
    push_number(&mut line, u64::from(number))?;
    line.extend_from_slice(b" ")?;
    line.extend_from_slice(name)?;
    Ok(line)
}

/// The question on the list or attribute that an entity of the class with this number has under a
/// name, if there is such a class; else an empty text.
fn entity_asked(
    alloc: Global,
    program: &Program,
    class: usize,
    number: u32,
    name: &[u8],
) -> Result<Vec<u8>, AllocError>
    ensures { IfOk result (λ line. line.items
        ≡ entity_asked program.now class number name.now) }
{
    if class >= program.classes.len() {
        return Ok(Vec::new(alloc));
    }
    match find_set(program, name) {
        Some(_) => list_asked(alloc, name, number),
        None => attribute_asked(alloc, program.class_name(class), number, name),
    }
}

/// The question on a set of this name, if the system owns it.
fn set_asked_by(alloc: Global, name: &[u8], owner: Owner) -> Result<Vec<u8>, AllocError>
    ensures { IfOk result (λ line. line.items ≡ set_asked_by name.now owner) }
{
    match owner {
        Owner::System => joined(alloc, b"SET ", name),
        Owner::OwnedBy(_) => Ok(Vec::new(alloc)),
    }
}

/// That question, if there is such a set; else an empty text.
fn set_asked(alloc: Global, program: &Program, name: &[u8]) -> Result<Vec<u8>, AllocError>
    ensures { IfOk result (λ line. line.items
        ≡ set_asked program.now name.now (set_named program.now name.now)) }
{
    match find_set(program, name) {
        Some(set) => set_asked_by(alloc, name, program.set_owner(set)),
        None => Ok(Vec::new(alloc)),
    }
}

/// The question on the list of a set for the owner whose number is last in a name, if a class owns
/// the set.
fn owned_asked_by(
    alloc: Global,
    set: &[u8],
    name: &[u8],
    owner: Owner,
) -> Result<Vec<u8>, AllocError>
    ensures { IfOk result (λ line. line.items ≡ owned_asked_by set.now name.now owner) }
{
    match owner {
        Owner::System => Ok(Vec::new(alloc)),
        Owner::OwnedBy(_) => {
            let mut line = joined(alloc, b"SET ", set)?;
            line.extend_from_slice(b" ")?;
            line.extend_from_slice(last_word(name))?;
            Ok(line)
        }
    }
}

/// The question on the list of the set with this number, if there is such a set.
fn owned_asked(
    alloc: Global,
    program: &Program,
    set: usize,
    name: &[u8],
) -> Result<Vec<u8>, AllocError>
    ensures { IfOk result (λ line. line.items ≡ owned_asked program.now set name.now) }
{
    if set >= program.sets.len() {
        return Ok(Vec::new(alloc));
    }
    owned_asked_by(alloc, program.set_name(set), name, program.set_owner(set))
}

/// The question on the variable of this name.
fn variable_asked(alloc: Global, name: &[u8]) -> Result<Vec<u8>, AllocError>
    ensures { IfOk result (λ line. line.items ≡ variable_asked name.now) }
{
    joined(alloc, b"VAR ", name)
}

/// The question on the local of this name of the frame with `depth` frames above it.
fn local_asked(alloc: Global, name: &[u8], depth: u32) -> Result<Vec<u8>, AllocError>
    ensures { IfOk result (λ line. line.items ≡ local_asked name.now depth) }
{
    if depth == 0 {
        return variable_asked(alloc, name);
    }
    Ok(Vec::new(alloc))
}

/// The name of an item of the run, as a question.
fn run_asked(name: &[u8]) -> &[u8]
    ensures { result.now ≡ run_asked name.now }
{
    if name == b"STATE".as_slice() {
        return b"WHERE";
    }
    name
}

/// The question on the item of a group with a name, as it is asked; empty if the debugger has none.
pub fn asked_text(
    alloc: Global,
    program: &Program,
    name: &[u8],
    group: Group,
) -> Result<Vec<u8>, AllocError>
    ensures { IfOk result (λ line. line.items ≡ asked_text program.now name.now group) }
{
    match group {
        Group::Data => name.to_vec(alloc),
        Group::Globals => variable_asked(alloc, name),
        Group::Locals(depth) => local_asked(alloc, name, depth),
        Group::Sets => set_asked(alloc, program, name),
        Group::Events => Vec::from_slice(alloc, b"EVENTS"),
        Group::Run => run_asked(name).to_vec(alloc),
        Group::Entity(class, number) => entity_asked(alloc, program, class, number, name),
        Group::Set(set) => owned_asked(alloc, program, set, name),
        _ => Ok(Vec::new(alloc)),
    }
}

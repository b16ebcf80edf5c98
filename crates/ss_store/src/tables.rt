//! The tables that a store keeps of a program.
ghost use Rattle.std.specs.Prelude.{◌≡◌, ◌<◌, ◌≤◌, IfOk, length, take, slice_get, unwrap_or, map};
ghost use Rattle.std.specs.List.{range_with_len};
ghost use Rattle.ss_program.specs.Program.{is_same_owner, owned_among};
ghost use Rattle.ss_store.specs.Tables as pure;
ghost use Rattle.ss_store.specs.Tables.{joined_among};

use crate::shape::{ClassShape, SetShape};
use ss_program::{ClassKind, Discipline, Keys, Owner, Program, Set};
use std::alloc::{AllocError, Global};

/// Whether two owners are the same.
fn is_same(owner: Owner, other: Owner) -> bool
    ensures { result ≡ is_same_owner owner other }
{
    match (owner, other) {
        (Owner::System, Owner::System) => true,
        (Owner::OwnedBy(class), Owner::OwnedBy(other)) => class == other,
        _ => false,
    }
}

/// How many of the first sets an owner has.
pub(crate) fn count_owned(sets: &[Set], owner: Owner, end: usize) -> usize
    requires { end ≤ length sets.now }
    ensures value { result ≡ owned_among owner (take end sets.now) }
    ensures few { result ≤ end }
{
    let mut count = 0;
    for i in 0..end {
        let set = &sets[i];
        if is_same(owner, set.owner) {
            count += 1;
        }
    }
    count
}

/// In how many of the first sets the entities of a class may be.
fn count_joined(sets: &[Set], class: usize, end: usize) -> usize
    requires { end ≤ length sets.now }
    ensures value { result ≡ joined_among class (take end sets.now) }
    ensures few { result ≤ end }
{
    let mut count = 0;
    for i in 0..end {
        let set = &sets[i];
        if class == set.member {
            count += 1;
        }
    }
    count
}

/// Whether a class is permanent.
fn is_permanent(kind: &ClassKind) -> bool
    ensures { result ≡ pure.is_permanent kind.now }
{
    match kind {
        ClassKind::Permanent { .. } => true,
        _ => false,
    }
}

/// The shape of a class.
fn class_shape(program: &Program, class: usize) -> ClassShape
    requires { class < length program.now.classes }
    ensures { result ≡ pure.class_shape program.now class }
{
    program.known();
    let end = program.sets.len();
    let declared = &program.classes[class];
    ClassShape {
        attributes: declared.attributes.len(),
        owned: count_owned(&program.sets, Owner::OwnedBy(class), end) as u32,
        joined: count_joined(&program.sets, class, end) as u32,
        permanent: is_permanent(&declared.kind),
    }
}

/// The shapes of a program's classes.
pub(crate) fn class_shapes(alloc: Global, program: &Program) -> Result<Vec<ClassShape>, AllocError>
    ensures { IfOk result (λ shapes. shapes.items
        ≡ map (pure.class_shape program.now) (range_with_len 0 (length program.now.classes))) }
{
    let mut shapes = Vec::new(alloc);
    for class in 0..program.classes.len() {
        shapes.push(class_shape(program, class))?;
    }
    Ok(shapes)
}

/// A copy of a discipline.
fn copied(alloc: Global, discipline: &Discipline) -> Result<Discipline, AllocError>
    ensures { IfOk result (λ copy. copy ≡ discipline.now) }
{
    match discipline {
        Discipline::Fifo => Ok(Discipline::Fifo),
        Discipline::Lifo => Ok(Discipline::Lifo),
        Discipline::Ranked(keys) => {
            let list = keys.list.to_vec(alloc)?;
            Ok(Discipline::Ranked(Keys { list }))
        }
    }
}

/// The shape of a set.
fn set_shape(alloc: Global, program: &Program, set: usize) -> Result<SetShape, AllocError>
    requires { set < length program.now.sets }
    ensures { IfOk result (λ shape. shape ≡ pure.set_shape program.now set) }
{
    program.known();
    let declared = &program.sets[set];
    let discipline = copied(alloc, &declared.discipline)?;
    let owner = declared.owner;
    let member = declared.member;
    Ok(SetShape {
        discipline,
        owner,
        list: count_owned(&program.sets, owner, set) as u32,
        member,
        slot: count_joined(&program.sets, member, set) as u32,
    })
}

/// The shapes of a program's sets.
pub(crate) fn set_shapes(alloc: Global, program: &Program) -> Result<Vec<SetShape>, AllocError>
    ensures { IfOk result (λ shapes. shapes.items
        ≡ map (pure.set_shape program.now) (range_with_len 0 (length program.now.sets))) }
{
    let mut shapes = Vec::new(alloc);
    for set in 0..program.sets.len() {
        let shape = set_shape(alloc, program, set)?;
        shapes.push(shape)?;
    }
    Ok(shapes)
}

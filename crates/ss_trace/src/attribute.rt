//! One attribute of an entity, kept ones too. The definitions name the type of kept ones, only for
//! proofs.
ghost use Rattle.std.specs.Prelude.{◌≡◌, ◌++◌, ◌<◌, length, OnOk, Option};
ghost use Rattle.ss_program.specs.declared.kinds.Owner.TheVariants.{OwnedBy};
ghost use Rattle.ss_program.specs.Program.{set_of, is_same_owner};
ghost use Rattle.ss_store.specs.Tables as tables;
ghost use Rattle.ss_store.specs.Store.{number_of};
ghost use Rattle.ss_machine.specs.Moment.{position};
ghost use Rattle.ss_debug.specs.Entities.{member_read, no_entity_text};
ghost use Rattle.ss_trace.specs.Question.{kept_of, has_kept, kept_value, kept_named};
ghost use Rattle.ss_trace.specs.Question.{attribute_named, attribute_line, attribute_text};

use crate::rows::find_attribute;
use ss_debug::{find_class, find_set, push_integer};
use ss_links::SetBoard;
use ss_machine::Machine;
use ss_program::{Owner, Program};
use ss_store::Store;
use ss_words::RunFault;
use std::alloc::AllocError;

/// A kept attribute: `F.s`, `L.s` and `N.s` of the owners of a set's lists, `P.s`, `S.s` and `M.s`
/// of its members.
#[derive(Clone, Copy)]
pub enum Kept {
    First,
    Last,
    Number,
    Predecessor,
    Successor,
    Membership,
}

/// The kept attribute whose name begins with two bytes.
pub fn kept_of(head: &[u8]) -> Option<Kept>
    ensures { result ≡ kept_of head.now }
{
    if head == b"F.".as_slice() {
        return Some(Kept::First);
    }
    if head == b"L.".as_slice() {
        return Some(Kept::Last);
    }
    if head == b"N.".as_slice() {
        return Some(Kept::Number);
    }
    if head == b"P.".as_slice() {
        return Some(Kept::Predecessor);
    }
    if head == b"S.".as_slice() {
        return Some(Kept::Successor);
    }
    if head == b"M.".as_slice() {
        return Some(Kept::Membership);
    }
    None
}

fn is_owned_by(owner: Owner, class: usize) -> bool
    ensures { result ≡ is_same_owner (OwnedBy class) owner }
{
    match owner {
        Owner::System => false,
        Owner::OwnedBy(c) => class == c,
    }
}

/// Whether the entities of a class have a kept attribute in a set.
pub fn has_kept(program: &Program, class: usize, set: usize, kept: Kept) -> bool
    ensures { result ≡ has_kept (set_of program.now set) class kept }
{
    match kept {
        Kept::First | Kept::Last | Kept::Number => is_owned_by(program.set_owner(set), class),
        Kept::Predecessor | Kept::Successor | Kept::Membership => {
            program.member_class(set) == class
        }
    }
}

/// The number of a member, 0 if there is none.
fn member_number(member: Result<Option<u32>, RunFault>) -> u32
    ensures { result ≡ member_read member }
{
    member.unwrap_or(None).unwrap_or(0)
}

/// The value of a kept attribute in a set.
pub fn kept_value<S: SetBoard>(store: &Store<S>, set: usize, x: i64, kept: Kept) -> u32
    requires { set < length store.now.tables.sets }
    ensures { result ≡ kept_value (tables.set_of store.now.tables set) store.now.state
        (number_of x) kept }
{
    match kept {
        Kept::First => member_number(store.walk_first(set, x)),
        Kept::Last => member_number(store.walk_last(set, x)),
        Kept::Number => store.count(set, x).unwrap_or(0),
        Kept::Predecessor => member_number(store.predecessor(set, x)),
        Kept::Successor => member_number(store.successor(set, x)),
        Kept::Membership => u32::from(store.membership(set, x).unwrap_or(false)),
    }
}

/// The value of a kept attribute in the set of this name.
#[tactic(auto, using(ss_debug::proofs::Tables::sets_kept))]
fn kept_named<S: SetBoard>(
    machine: &Machine<S>,
    class: usize,
    x: i64,
    set: &[u8],
    kept: Kept,
) -> Option<i64>
    ensures { result ≡ kept_named machine.now.input.program machine.now.state.store class
        (number_of x) set.now (Some kept) }
{
    let program = machine.program();
    let set = find_set(program, set)?;
    if !has_kept(program, class, set, kept) {
        return None;
    }
    Some(i64::from(kept_value(machine.store(), set, x, kept)))
}

/// The value of the attribute of this name, kept ones too.
pub fn attribute_named<S: SetBoard>(
    machine: &Machine<S>,
    class: usize,
    x: i64,
    name: &[u8],
) -> Option<i64>
    ensures { result ≡ attribute_named machine.now.input.program machine.now.state.store class
        (number_of x) name.now }
{
    if let Some(attribute) = find_attribute(machine.program(), class, name) {
        return Some(machine.store().get(class, attribute, x).unwrap_or(0));
    }
    let (head, set) = name.split_at(name.len().min(2));
    let kept = kept_of(head)?;
    kept_named(machine, class, x, set, kept)
}

/// Appends `NO ENTITY c k`.
pub fn push_no_entity(bytes: &mut Vec<u8>, class: &[u8], x: i64) -> Result<(), AllocError>
    ensures { OnOk result (bytes.new.items ≡ bytes.old.items ++ no_entity_text class.now x) }
{
    bytes.extend_from_slice(b"NO ENTITY ")?;
    bytes.extend_from_slice(class)?;
    bytes.extend_from_slice(b" ")?;
    push_integer(bytes, x)?;
    bytes.extend_from_slice(b"\n")
}

/// Appends an attribute and its value, or `NO ATTRIBUTE a`.
fn push_line(bytes: &mut Vec<u8>, name: &[u8], value: Option<i64>) -> Result<(), AllocError>
    ensures { OnOk result (bytes.new.items ≡ bytes.old.items ++ attribute_line name.now value) }
{
    let Some(value) = value else {
        bytes.extend_from_slice(b"NO ATTRIBUTE ")?;
        bytes.extend_from_slice(name)?;
        return bytes.extend_from_slice(b"\n");
    };
    bytes.extend_from_slice(name)?;
    bytes.extend_from_slice(b" = ")?;
    push_integer(bytes, value)?;
    bytes.extend_from_slice(b"\n")
}

/// Appends the attribute of this name of the entity of this class that a number names, `NO CLASS
/// c`, `NO ENTITY c k` or `NO ATTRIBUTE a`.
#[tactic(auto, unfolding(crate::specs::Question::attribute_text))]
pub fn push_attribute<S: SetBoard>(
    bytes: &mut Vec<u8>,
    machine: &Machine<S>,
    class: &[u8],
    x: i64,
    name: &[u8],
) -> Result<(), AllocError>
    ensures { OnOk result (bytes.new.items ≡ bytes.old.items
        ++ attribute_text class.now x name.now machine.now.input (position machine.now)) }
{
    machine.known();
    let Some(number) = find_class(machine.program(), class) else {
        bytes.extend_from_slice(b"NO CLASS ")?;
        bytes.extend_from_slice(class)?;
        return bytes.extend_from_slice(b"\n");
    };
    if !machine.store().exists(number, x) {
        return push_no_entity(bytes, class, x);
    }
    push_line(bytes, name, attribute_named(machine, number, x, name))
}

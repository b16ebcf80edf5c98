//! The value of a part in a state.
ghost use Rattle.std.specs.Prelude.{◌≡◌, ◌<◌, length, pos, slice_index_or, true, IfOk};
ghost use Rattle.ss_readings.specs.ValueView.{value_if};
ghost use Rattle.ss_reads.specs.Values as spec;

use crate::evaluation::{member_kept, owner_kept};
use crate::members::members_of;
use crate::part::{Item, Part};
use ss_links::SetBoard;
use ss_machine::Machine;
use ss_program::{MemberKept, OwnerKept, Program, Variable};
use ss_readings::{Reading, Value};
use ss_words::RunFault;
use std::alloc::{AllocError, Global};
use std::marker::Model;

/// A part of a state, as a question. Contracts see the part.
#[derive(Drop)]
pub struct PartReading {
    pub part: Part,
    pub alloc: Global,
}

impl Model for PartReading {
    ghost use Rattle.ss_reads.specs.declared.part.Part.{Part};

    ghost Value = { Part };

    ghost view = { λ a. a.part };
}

/// A number that was read; none after a fault.
fn number_if(number: Result<i64, RunFault>) -> Option<Value>
    ensures { value_if result ≡ spec.number_if number }
{
    match number {
        Ok(number) => Some(Value::Number(number)),
        Err(_) => None,
    }
}

/// The value of a global variable, 0 if there is none with this number.
fn global_value<S: SetBoard>(machine: &Machine<S>, number: usize) -> i64
    ensures { result ≡ slice_index_or machine.now.state.variables number (pos 0) }
{
    machine.known();
    if number < machine.program().globals.len() {
        machine.variable(Variable::Global(number))
    } else {
        0
    }
}

/// The value of a variable; of a local one in the frame with `depth` others above it.
fn variable_value<S: SetBoard>(
    machine: &Machine<S>,
    depth: usize,
    variable: Variable,
) -> Option<Value>
    ensures { value_if result ≡ spec.variable_value machine.now.state depth variable }
{
    match variable {
        Variable::Global(number) => Some(Value::Number(global_value(machine, number))),
        Variable::Local(number) => {
            match machine.frame_local(depth, number) {
                None => None,
                Some(value) => Some(Value::Number(value)),
            }
        }
        Variable::Clock => Some(Value::Number(machine.clock())),
    }
}

/// Whether a program has the set of an item.
fn has_item(program: &Program, item: Item) -> bool
    ensures { result ≡ spec.has_item program.now item }
{
    match item {
        Item::Attribute { .. } => true,
        Item::OwnerKept { set, .. } => set < program.sets.len(),
        Item::MemberKept { set, .. } => set < program.sets.len(),
        Item::Members { set } => set < program.sets.len(),
    }
}

/// `F.s`, `L.s` or `N.s` of an owner, if there is one.
fn owner_value<S: SetBoard>(
    machine: &Machine<S>,
    kept: OwnerKept,
    set: usize,
    owner: i64,
) -> Option<Value>
    requires { set < length machine.now.input.program.sets }
    ensures { value_if result ≡ spec.item_there machine.now.input.program machine.now.state
        (Item.OwnerKept kept set) owner }
{
    number_if(owner_kept(machine, kept, set, owner))
}

/// `P.s`, `S.s` or `M.s` of a member, if there is one.
fn member_value<S: SetBoard>(
    machine: &Machine<S>,
    kept: MemberKept,
    set: usize,
    member: i64,
) -> Option<Value>
    requires { set < length machine.now.input.program.sets }
    ensures { value_if result ≡ spec.item_there machine.now.input.program machine.now.state
        (Item.MemberKept kept set) member }
{
    number_if(member_kept(machine, kept, set, member))
}

/// The list of an owner, if there is one.
fn list_value<S: SetBoard>(
    alloc: Global,
    machine: &Machine<S>,
    set: usize,
    owner: i64,
) -> Result<Option<Value>, AllocError>
    requires { set < length machine.now.input.program.sets }
    ensures { IfOk result (λ value. value_if value
        ≡ spec.item_there machine.now.input.program machine.now.state (Item.Members set) owner) }
{
    match members_of(alloc, machine, set, owner)? {
        None => Ok(None),
        Some(members) => Ok(Some(Value::Members(members))),
    }
}

/// The value of an item of the program for the entity that a value names; `None` if that does not
/// exist.
fn item_there<S: SetBoard>(
    alloc: Global,
    machine: &Machine<S>,
    item: Item,
    entity: i64,
) -> Result<Option<Value>, AllocError>
    requires { spec.has_item machine.now.input.program item ≡ true }
    ensures { IfOk result (λ value. value_if value
        ≡ spec.item_there machine.now.input.program machine.now.state item entity) }
{
    match item {
        Item::Attribute { class, attribute } => {
            Ok(number_if(machine.store().get(class, attribute, entity)))
        }
        Item::OwnerKept { kept, set } => Ok(owner_value(machine, kept, set, entity)),
        Item::MemberKept { kept, set } => Ok(member_value(machine, kept, set, entity)),
        Item::Members { set } => list_value(alloc, machine, set, entity),
    }
}

/// The value of what the entity that a value names has.
fn item_value<S: SetBoard>(
    alloc: Global,
    machine: &Machine<S>,
    item: Item,
    entity: i64,
) -> Result<Option<Value>, AllocError>
    ensures { IfOk result (λ value. value_if value
        ≡ spec.item_value machine.now.input.program machine.now.state item entity) }
{
    if !has_item(machine.program(), item) {
        return Ok(None);
    }
    item_there(alloc, machine, item, entity)
}

impl Reading for PartReading {
    ghost use Rattle.ss_reads.specs.Values.{part_subject};

    ghost suits = { λ reading program. Unit {0} };

    ghost subject = { λ reading program. part_subject reading program };

    fn is_local(&self) -> bool {
        matches!(self.part, Part::Variable(Variable::Local(_)))
    }

    fn value<S: SetBoard>(
        &self,
        machine: &Machine<S>,
        depth: usize,
    ) -> Result<Option<Value>, AllocError> {
        match self.part {
            Part::Variable(variable) => Ok(variable_value(machine, depth, variable)),
            Part::Of(item, entity) => item_value(self.alloc, machine, item, entity),
        }
    }
}

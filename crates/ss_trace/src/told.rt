//! Whether all that a step may have changed of an entity agrees with its numbers on the other side.
ghost use Rattle.std.specs.Prelude.{◌≡◌, ◌<◌, ◌+◌, ◌^◌, [], length, pos, slice_index_or, unwrap_or};
ghost use Rattle.std.specs.Prelude.{if◌then◌else◌};
ghost use Rattle.ss_program.specs.Program.{class_of};
ghost use Rattle.ss_store.specs.Store.{number_of, attributes_of};
ghost use Rattle.ss_trace.specs.declared.told.TheConstants.{NUMBERS_OF_A_SET};
ghost use Rattle.ss_trace.specs.Sight.{IsInTables};
ghost use Rattle.ss_trace.specs.Told.{tells, tells_attribute, tells_attributes, set_place, kept_place};
ghost use Rattle.ss_trace.specs.Told.{told_none, tells_beside, tells_set, tells_sets, tells_all};
ghost use Rattle.ss_trace.specs.Told.{tells_touched, tells_entity, is_told};

use crate::attribute::Kept;
use crate::entity_numbers::{kept_number, neighbours_of};
use crate::sight::Sight;
use crate::touches::{Part, Touch};
use ss_links::SetBoard;
use ss_machine::Machine;
use ss_program::Program;
use ss_store::Neighbours;

/// How many numbers a set has for an entity.
pub const NUMBERS_OF_A_SET: usize = 6;

/// Whether a number of some is this one.
fn tells(numbers: &[i64], at: usize, value: i64) -> bool
    ensures { result ≡ tells numbers.now at value }
{
    match numbers.get(at) {
        Some(told) => *told == value,
        None => value == 0,
    }
}

/// Whether an attribute of an entity is as it was.
fn tells_attribute<S: SetBoard>(
    numbers: &[i64],
    machine: &Machine<S>,
    class: usize,
    x: i64,
    attribute: usize,
) -> bool
    ensures { result ≡ tells_attribute machine.now.state.store class (number_of x) numbers.now
        attribute }
{
    let value = machine.store().get(class, attribute, x).unwrap_or(0);
    tells(numbers, attribute, value)
}

/// The values of all attributes of an entity, none if it does not exist.
fn attributes_of<S: SetBoard>(machine: &Machine<S>, class: usize, x: i64) -> &[i64]
    ensures { result.now
        ≡ unwrap_or (attributes_of machine.now.state.store class (number_of x)) [] }
{
    match machine.store().attributes(class, x) {
        Some(values) => values,
        None => &[],
    }
}

/// Whether a number of some is that of others, with 0 for a number that is not there.
fn tells_value(numbers: &[i64], values: &[i64], at: usize) -> bool
    ensures { result ≡ tells numbers.now at (slice_index_or values.now at (pos 0)) }
{
    tells(numbers, at, values.get(at).copied().unwrap_or(0))
}

/// Whether all attributes of an entity are as they were.
#[tactic(auto, using(crate::proofs::Telling::value_more, crate::proofs::Telling::value_less))]
fn tells_attributes<S: SetBoard>(
    numbers: &[i64],
    machine: &Machine<S>,
    class: usize,
    x: i64,
) -> bool
    ensures { result ≡ tells_attributes machine.now.state.store class (number_of x) numbers.now
        (length (class_of machine.now.input.program class).attributes) }
{
    let values = attributes_of(machine, class, x);
    for attribute in 0..machine.program().attributes(class).len() {
        if !tells_value(numbers, values, attribute) {
            return false;
        }
    }
    true
}

/// The place at which the numbers of a set begin among the numbers of an entity.
fn set_place(program: &Program, class: usize, set: usize) -> usize
    requires class { class < length program.now.classes }
    requires set { set < length program.now.sets }
    ensures place { result ≡ set_place program.now class set }
    ensures within { result + NUMBERS_OF_A_SET < 2 ^ 64 }
{
    program.known();
    program.attributes(class).len() + NUMBERS_OF_A_SET * set
}

/// The place of a kept attribute among the numbers of a set.
fn kept_place(kept: Kept) -> usize
    ensures place { result ≡ kept_place kept }
    ensures within { result < NUMBERS_OF_A_SET }
{
    match kept {
        Kept::First => 0,
        Kept::Last => 1,
        Kept::Number => 2,
        Kept::Predecessor => 3,
        Kept::Successor => 4,
        Kept::Membership => 5,
    }
}

/// Whether the numbers of a set have 0 for a kept attribute.
fn told_none(numbers: &[i64], at: usize, kept: Kept) -> bool
    requires { at + NUMBERS_OF_A_SET < 2 ^ 64 }
    ensures { result ≡ told_none numbers.now at kept }
{
    tells(numbers, at + kept_place(kept), 0)
}

/// Whether the numbers of a set have this one for a kept attribute.
fn tells_number(numbers: &[i64], at: usize, kept: Kept, value: u32) -> bool
    requires { at + NUMBERS_OF_A_SET < 2 ^ 64 }
    ensures { result ≡ tells numbers.now (at + kept_place kept) (pos value) }
{
    tells(numbers, at + kept_place(kept), i64::from(value))
}

/// Whether the numbers of a set for an entity as a member agree with these neighbours.
fn tells_beside(numbers: &[i64], at: usize, now: Neighbours) -> bool
    requires { at + NUMBERS_OF_A_SET < 2 ^ 64 }
    ensures { result ≡ tells_beside numbers.now at (pos (unwrap_or now.before 0))
        (pos (unwrap_or now.behind 0)) (pos (if now.is_filed then 1 else 0)) }
{
    let is_member = tells_number(numbers, at, Kept::Membership, u32::from(now.is_filed));
    if told_none(numbers, at, Kept::Membership) {
        return is_member;
    }
    let was_alone = told_none(numbers, at, Kept::Predecessor)
        && told_none(numbers, at, Kept::Successor);
    tells_number(numbers, at, Kept::Predecessor, now.before.unwrap_or(0))
        && tells_number(numbers, at, Kept::Successor, now.behind.unwrap_or(0))
        && (!was_alone || is_member)
}

/// Whether the numbers of a set for an entity are as they were.
#[tactic(auto, using(crate::proofs::Neighbours::beside_is))]
fn tells_set<S: SetBoard>(
    numbers: &[i64],
    machine: &Machine<S>,
    class: usize,
    x: i64,
    set: usize,
) -> bool
    requires class { class < length machine.now.input.program.classes }
    requires set { set < length machine.now.input.program.sets }
    ensures { result ≡ tells_set machine.now.input.program machine.now.state.store class
        (number_of x) numbers.now set (set_place machine.now.input.program class set) }
{
    let at = set_place(machine.program(), class, set);
    let count = kept_number(machine, class, x, set, Kept::Number);
    tells(numbers, at + kept_place(Kept::Number), count)
        && tells_beside(numbers, at, neighbours_of(machine, class, x, set))
}

/// Whether the numbers of all sets for an entity are as they were.
#[tactic(auto, using(crate::proofs::Telling::sets_more, crate::proofs::Telling::sets_less))]
fn tells_sets<S: SetBoard>(numbers: &[i64], machine: &Machine<S>, class: usize, x: i64) -> bool
    requires { class < length machine.now.input.program.classes }
    ensures { result ≡ tells_sets machine.now.input.program machine.now.state.store class
        (number_of x) numbers.now (length machine.now.input.program.sets) }
{
    for set in 0..machine.program().sets.len() {
        if !tells_set(numbers, machine, class, x, set) {
            return false;
        }
    }
    true
}

/// Whether an entity is still there, and all of it is as it was.
fn tells_all<S: SetBoard>(numbers: &[i64], machine: &Machine<S>, class: usize, x: i64) -> bool
    requires { class < length machine.now.input.program.classes }
    ensures { result ≡ tells_all machine.now.input.program machine.now.state.store class
        (number_of x) numbers.now }
{
    machine.store().exists(class, x)
        && tells_attributes(numbers, machine, class, x)
        && tells_sets(numbers, machine, class, x)
}

/// Whether all that a step may have changed of an entity that existed is as it was.
fn tells_touched<S: SetBoard>(
    numbers: &[i64],
    machine: &Machine<S>,
    class: usize,
    x: i64,
    touched: Touch,
) -> bool
    requires { class < length machine.now.input.program.classes }
    ensures { result ≡ tells_touched machine.now.input.program machine.now.state.store class
        (number_of x) numbers.now touched }
{
    let program = machine.program();
    match touched {
        Touch::Nothing => true,
        Touch::Attribute(of, attribute) => {
            of != class
                || (attribute < program.attributes(class).len()
                    && tells_attribute(numbers, machine, class, x, attribute))
        }
        Touch::Attributes => tells_attributes(numbers, machine, class, x),
        Touch::Set(set) => {
            set < program.sets.len() && tells_set(numbers, machine, class, x, set)
        }
        Touch::Entities => tells_all(numbers, machine, class, x),
        Touch::Anything => false,
    }
}

/// Whether all that a step may have changed of an entity agrees with its numbers before.
fn tells_entity<S: SetBoard>(
    numbers: &[i64],
    machine: &Machine<S>,
    class: usize,
    x: i64,
    touched: Touch,
) -> bool
    requires { class < length machine.now.input.program.classes }
    ensures { result ≡ tells_entity machine.now.input.program machine.now.state.store class
        (number_of x) numbers.now touched }
{
    match (numbers.split_first(), touched) {
        (Some((_, told)), _) => tells_touched(told, machine, class, x, touched),
        (None, Touch::Anything) => false,
        (None, Touch::Entities) => !machine.store().exists(class, x),
        (None, _) => true,
    }
}

/// Whether all that a step may have changed of the entity at which a question looks agrees with its
/// numbers on the other side of the step. If it looks at none, it does not.
pub fn is_told<S: SetBoard>(
    numbers: &[i64],
    machine: &Machine<S>,
    part: Part,
    sight: Sight,
    touched: Touch,
) -> bool
    requires { IsInTables machine.now.input.program sight }
    ensures { result ≡ is_told part sight machine.now.input.program machine.now.state.store
        numbers.now touched }
{
    match (part, sight) {
        (Part::Entities, Sight::Entity(class, x)) => {
            tells_entity(numbers, machine, class, x, touched)
        }
        _ => false,
    }
}

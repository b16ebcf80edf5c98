//! The rows at which a question looks, and the values that are seen there. The definitions name the
//! type, only for proofs.
ghost use Rattle.std.specs.Prelude.{◌≡◌, ◌<◌, length, drop, take, pos, Some, IfSome};
ghost use Rattle.std.specs.Result.{result_unwrap_or};
ghost use Rattle.ss_program.specs.Program.{set_of};
ghost use Rattle.ss_store.specs.Store.{number_of, attribute_of};
ghost use Rattle.ss_debug.specs.Entities.{class_named, set_named, shape_of};
ghost use Rattle.ss_trace.specs.declared.question.Question.TheVariants as questions;
ghost use Rattle.ss_trace.specs.Question.{kept_of, kept_value};
ghost use Rattle.ss_trace.specs.Sight.{sight_of_variable, sight_of_kept, sight_of_class, sight_of_list, sight_of_set};
ghost use Rattle.ss_trace.specs.Sight.{sight_of_entity, sight_of, IsInTables, variable_asked, local_value};
ghost use Rattle.ss_trace.specs.Sight.{value_if_exists};
ghost use Rattle.ss_trace.specs.Sight.{members_seen, glance_of};

use crate::attribute::{Kept, has_kept, kept_of, kept_value};
use crate::glance::Glance;
use crate::question::Question;
use crate::rows::find_attribute;
use ss_debug::{Debugger, Question as Shown, find_class, find_set};
use ss_links::SetBoard;
use ss_machine::Machine;
use ss_program::{Owner, Program, Variable};

/// The rows of the program's tables at which a question looks: those that its names mean.
#[derive(Clone, Copy)]
pub enum Sight {
    /// At nothing that is seen at a glance.
    Nothing,
    /// At the clock.
    Clock,
    /// At a global variable.
    Global(usize),
    /// At the local of its name in the last frame.
    Local,
    /// At how many items of the data are taken.
    Taken,
    /// At the entry of an external event.
    Entry,
    /// At the report.
    Report,
    /// At an entity of a class, with all its lines: not at a glance, but by its numbers.
    Entity(usize, i64),
    /// At whether an entity of a class exists.
    Living(usize, i64),
    /// At an attribute of a class, of an entity.
    Attribute(usize, usize, i64),
    /// At a kept attribute of a class in a set, of an entity.
    Kept(usize, usize, Kept, i64),
    /// At the list of a set, of an owner.
    Members(usize, i64),
    /// At the list of a set, of the owner that a global variable names.
    MembersNamed(usize, usize),
}

fn sight_of_variable(program: &Program, name: &[u8]) -> Sight
    ensures sight { result ≡ sight_of_variable program.now name.now }
    ensures within { IsInTables program.now result }
{
    if name == b"TIME.V".as_slice() {
        return Sight::Clock;
    }
    match program.find(name).and_then(|named| named.variable) {
        Some(global) => Sight::Global(global as usize),
        None => Sight::Local,
    }
}

/// The sight of `c k a` for a kept attribute in a set, if the entities of the class have it; else
/// whether the entity exists.
fn sight_of_kept_in(program: &Program, class: usize, x: i64, kept: Kept, set: usize) -> Sight
    requires { set < length program.now.sets }
    ensures sight { result ≡ sight_of_kept program.now class x (Some kept) (Some set) }
    ensures within { IsInTables program.now result }
{
    if has_kept(program, class, set, kept) {
        return Sight::Kept(class, set, kept, x);
    }
    Sight::Living(class, x)
}

/// The sight of `c k a` for a kept attribute, if there are such an attribute and such a set; else
/// whether the entity exists.
fn sight_of_kept(
    program: &Program,
    class: usize,
    x: i64,
    kept: Option<Kept>,
    set: Option<usize>,
) -> Sight
    requires { IfSome set (λ s. s < length program.now.sets) }
    ensures sight { result ≡ sight_of_kept program.now class x kept set }
    ensures within { IsInTables program.now result }
{
    let Some(kept) = kept else {
        return Sight::Living(class, x);
    };
    let Some(set) = set else {
        return Sight::Living(class, x);
    };
    sight_of_kept_in(program, class, x, kept, set)
}

/// The kept attribute with whose name a name begins.
fn kept_named(name: &[u8]) -> Option<Kept>
    ensures { result ≡ kept_of (take 2 name.now) }
{
    let (head, _) = name.split_at(name.len().min(2));
    kept_of(head)
}

/// The set with whose name a name ends.
fn kept_set(program: &Program, name: &[u8]) -> Option<usize>
    ensures set { result ≡ set_named program.now (drop 2 name.now) }
    ensures within { IfSome result (λ s. s < length program.now.sets) }
{
    let (_, set) = name.split_at(name.len().min(2));
    find_set(program, set)
}

fn sight_of_attribute(program: &Program, class: &[u8], x: i64, name: &[u8]) -> Sight
    ensures sight { result ≡ sight_of_class program.now x name.now
        (class_named program.now class.now) }
    ensures within { IsInTables program.now result }
{
    let Some(class) = find_class(program, class) else {
        return Sight::Nothing;
    };
    match find_attribute(program, class, name) {
        Some(attribute) => Sight::Attribute(class, attribute, x),
        None => sight_of_kept(program, class, x, kept_named(name), kept_set(program, name)),
    }
}

fn sight_of_list(program: &Program, set: usize, owner: Option<i64>) -> Sight
    requires { set < length program.now.sets }
    ensures sight { result ≡ sight_of_list program.now set owner (set_of program.now set).owner }
    ensures within { IsInTables program.now result }
{
    match (program.set_owner(set), owner) {
        (Owner::System, None) => Sight::Members(set, 0),
        (Owner::System, Some(_)) => Sight::Nothing,
        (Owner::OwnedBy(class), None) => {
            program.known();
            Sight::MembersNamed(set, program.class_variable(class))
        }
        (Owner::OwnedBy(_), Some(x)) => Sight::Members(set, x),
    }
}

fn sight_of_set(program: &Program, name: &[u8], owner: Option<i64>) -> Sight
    ensures sight { result ≡ sight_of_set program.now owner (set_named program.now name.now) }
    ensures within { IsInTables program.now result }
{
    match find_set(program, name) {
        Some(set) => sight_of_list(program, set, owner),
        None => Sight::Nothing,
    }
}

fn sight_of_entity(program: &Program, class: &[u8], x: i64) -> Sight
    ensures sight { result ≡ sight_of_entity x (class_named program.now class.now) }
    ensures within { IsInTables program.now result }
{
    match find_class(program, class) {
        Some(class) => Sight::Entity(class, x),
        None => Sight::Nothing,
    }
}

/// The sight of a question of the debugger.
fn sight_of_shown(program: &Program, shown: &Shown) -> Sight
    ensures sight { result ≡ sight_of program.now (questions.Shown shown.now) }
    ensures within { IsInTables program.now result }
{
    match shown {
        Shown::Clock => Sight::Clock,
        Shown::Variable(name) => sight_of_variable(program, name.as_slice()),
        Shown::Set(name, owner) => sight_of_set(program, name.as_slice(), *owner),
        Shown::Taken => Sight::Taken,
        Shown::Entity(class, x) => sight_of_entity(program, class.as_slice(), *x),
        Shown::Entry => Sight::Entry,
        Shown::Report => Sight::Report,
        Shown::Where | Shown::Events => Sight::Nothing,
    }
}

/// The sight of a question.
pub fn sight_of(program: &Program, question: &Question) -> Sight
    ensures sight { result ≡ sight_of program.now question.now }
    ensures within { IsInTables program.now result }
{
    match question {
        Question::Shown(shown) => sight_of_shown(program, shown),
        Question::Attribute(class, x, name) => {
            sight_of_attribute(program, class.as_slice(), *x, name.as_slice())
        }
        Question::Count(name, owner) => sight_of_set(program, name.as_slice(), *owner),
    }
}

/// The value of the local of a question's name, if the section of the last frame has one.
fn local_value<S: SetBoard>(machine: &Machine<S>, question: &Question) -> Option<i64>
    ensures { result ≡ local_value machine.now.input.program machine.now.state
        (variable_asked question.now) }
{
    machine.known();
    let name = match question {
        Question::Shown(Shown::Variable(name)) => name.as_slice(),
        _ => b"",
    };
    let (section, _) = machine.place();
    let local = machine.program().local(section, name)?;
    Some(machine.variable(Variable::Local(local)))
}

/// How many members the list of a set has for this owner, if it exists.
#[tactic(auto, using(ss_debug::proofs::Tables::sets_kept))]
fn members_seen<S: SetBoard>(machine: &Machine<S>, set: usize, owner: i64) -> Glance
    requires { set < length machine.now.input.program.sets }
    ensures { result ≡ members_seen machine.now.input.program machine.now.state.store set owner }
{
    match machine.store().count(set, owner) {
        Ok(count) => Glance::Members(owner, Some(count)),
        Err(_) => Glance::Members(owner, None),
    }
}

/// The value of an attribute of an entity, if that exists.
fn attribute_seen<S: SetBoard>(
    machine: &Machine<S>,
    class: usize,
    attribute: usize,
    x: i64,
) -> Option<i64>
    ensures { result ≡ value_if_exists machine.now.state.store class (number_of x)
        (result_unwrap_or (attribute_of machine.now.state.store class attribute (number_of x))
        (pos 0)) }
{
    match machine.store().get(class, attribute, x) {
        Ok(value) => Some(value),
        Err(_) => None,
    }
}

/// The value of a kept attribute of an entity, if that exists.
#[tactic(auto, using(ss_debug::proofs::Tables::sets_kept))]
fn kept_seen<S: SetBoard>(
    machine: &Machine<S>,
    class: usize,
    set: usize,
    kept: Kept,
    x: i64,
) -> Option<i64>
    requires { set < length machine.now.input.program.sets }
    ensures { result ≡ value_if_exists machine.now.state.store class (number_of x)
        (pos (kept_value (shape_of machine.now.input.program set) machine.now.state.store
        (number_of x) kept)) }
{
    if !machine.store().exists(class, x) {
        return None;
    }
    Some(i64::from(kept_value(machine.store(), set, x, kept)))
}

/// Whether an entity exists: 0, or none.
fn living_seen<S: SetBoard>(machine: &Machine<S>, class: usize, x: i64) -> Option<i64>
    ensures { result
        ≡ value_if_exists machine.now.state.store class (number_of x) (pos 0) }
{
    if machine.store().exists(class, x) {
        Some(0)
    } else {
        None
    }
}

/// The glance at the debugger's present state.
pub fn glance_of<S: SetBoard>(debugger: &Debugger<S>, question: &Question, sight: Sight) -> Glance
    requires { IsInTables debugger.now.machine.input.program sight }
    ensures { result ≡ glance_of debugger.now.machine.input.program debugger.now.machine.state
        question.now sight }
{
    let machine = debugger.machine();
    machine.known();
    match sight {
        Sight::Nothing | Sight::Entity(_, _) => Glance::Number(None),
        Sight::Clock => Glance::Number(Some(machine.clock())),
        Sight::Global(i) => Glance::Number(Some(machine.variable(Variable::Global(i)))),
        Sight::Local => Glance::Number(local_value(machine, question)),
        Sight::Taken => Glance::Amount(machine.taken()),
        Sight::Entry => Glance::Entry(machine.entry()),
        Sight::Report => Glance::Amount(machine.report().len()),
        Sight::Living(class, x) => Glance::Number(living_seen(machine, class, x)),
        Sight::Attribute(class, attribute, x) => {
            Glance::Number(attribute_seen(machine, class, attribute, x))
        }
        Sight::Kept(class, set, kept, x) => Glance::Number(kept_seen(machine, class, set, kept, x)),
        Sight::Members(set, owner) => members_seen(machine, set, owner),
        Sight::MembersNamed(set, i) => {
            members_seen(machine, set, machine.variable(Variable::Global(i)))
        }
    }
}

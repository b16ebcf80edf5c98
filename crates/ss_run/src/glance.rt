//! A glance at a state, in place of the answer to a question. Definitions name the type only for
//! proofs.
ghost use Rattle.std.specs.Prelude.{◌≡◌, ◌<◌, length, not};
ghost use Rattle.ss_program.specs.Program.{set_of};
ghost use Rattle.ss_trace.specs.Touches.{touched_lists, touched_notices};
ghost use Rattle.ss_machine.specs.Moment.{position};
ghost use Rattle.ss_run.specs.Glance.{is_same_count, is_same, owner_asked, members_seen, list_seen};
ghost use Rattle.ss_run.specs.Glance.{glance_at, leaves, is_quiet};

use ss_debug::{Debugger, Question as Shown, class_value, find_set};
use ss_links::SetBoard;
use ss_machine::Machine;
use ss_program::{Making, Owner, Place};
use ss_trace::Question;

/// A glance at a state, in place of the answer to a question.
#[derive(Clone, Copy)]
pub enum Glance {
    /// Nothing.
    Nothing,
    /// The number of bytes of the report: no step changes those that it has.
    Length(usize),
    /// The number of an owner, and the number of members of its list, if it exists.
    Members(i64, Option<u32>),
}

fn is_same_count(n: Option<u32>, m: Option<u32>) -> bool
    ensures { result ≡ is_same_count n m }
{
    match (n, m) {
        (None, None) => true,
        (Some(n), Some(m)) => n == m,
        _ => false,
    }
}

/// Whether two of them are the same.
pub fn is_same(a: Glance, b: Glance) -> bool
    ensures { result ≡ is_same a b }
{
    match (a, b) {
        (Glance::Nothing, Glance::Nothing) => true,
        (Glance::Length(n), Glance::Length(m)) => n == m,
        (Glance::Members(x, n), Glance::Members(y, m)) => x == y && is_same_count(n, m),
        _ => false,
    }
}

/// The owner whose list of a set is asked for; none if a set of the system is asked for by a
/// number.
fn owner_asked<S: SetBoard>(machine: &Machine<S>, set: usize, owner: Option<i64>) -> Option<i64>
    requires { set < length machine.now.input.program.sets }
    ensures { result ≡ owner_asked machine.now.input.program machine.now.state owner
        (set_of machine.now.input.program set).owner }
{
    machine.program().known();
    match (machine.program().set_owner(set), owner) {
        (Owner::System, None) => Some(0),
        (Owner::System, Some(_)) => None,
        (Owner::OwnedBy(class), None) => Some(class_value(machine, class)),
        (Owner::OwnedBy(_), Some(x)) => Some(x),
    }
}

/// The number of members that the list of a set has for this owner, if it exists.
#[tactic(auto, using(ss_debug::proofs::Tables::sets_kept))]
fn members_seen<S: SetBoard>(machine: &Machine<S>, set: usize, owner: i64) -> Glance
    requires { set < length machine.now.input.program.sets }
    ensures { result ≡ members_seen machine.now.input.program machine.now.state.store set owner }
{
    match machine.store().count(set, owner) {
        Ok(count) => Glance::Members(owner, Some(count)),
        Err(_) => Glance::Members(owner, None),
    }
}

/// The glance at the list of the set of this name that is asked for.
fn list_seen<S: SetBoard>(machine: &Machine<S>, name: &[u8], owner: Option<i64>) -> Glance
    ensures { result ≡ list_seen machine.now.input.program machine.now.state name.now owner }
{
    let Some(set) = find_set(machine.program(), name) else {
        return Glance::Nothing;
    };
    match owner_asked(machine, set, owner) {
        Some(x) => members_seen(machine, set, x),
        None => Glance::Nothing,
    }
}

/// The glance at the state at the debugger's position.
pub fn glance_of<S: SetBoard>(debugger: &Debugger<S>, question: &Question) -> Glance
    ensures { result
        ≡ glance_at debugger.now.machine.input question.now (position debugger.now.machine) }
{
    let machine = debugger.machine();
    machine.known();
    match question {
        Question::Shown(Shown::Report) => Glance::Length(machine.report().len()),
        Question::Shown(Shown::Set(name, owner)) => list_seen(machine, name.as_slice(), *owner),
        _ => Glance::Nothing,
    }
}

/// Whether the step of a place makes all entities of a class.
fn makes_a_class(place: &Place) -> bool
    ensures { result ≡ not (leaves (touched_lists place.now)) }
{
    match place {
        Place::Making(making) => matches!(making.value(), Making::CreateEvery { .. }),
        _ => false,
    }
}

/// Whether the step of a place schedules, or takes off, a notice.
fn changes_notices(place: &Place) -> bool
    ensures { result ≡ not (leaves (touched_notices place.now)) }
{
    matches!(place, Place::Timing(_))
}

/// Whether the step of a place leaves the answer to a question as it is, if the glance is the same
/// after it.
pub fn is_quiet(question: &Question, place: &Place) -> bool
    ensures { result ≡ is_quiet question.now place.now }
{
    match question {
        Question::Shown(Shown::Report) => true,
        Question::Shown(Shown::Set(_, _)) => !makes_a_class(place),
        Question::Shown(Shown::Events) => !changes_notices(place),
        _ => false,
    }
}

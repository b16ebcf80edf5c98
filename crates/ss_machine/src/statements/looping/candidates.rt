//! The candidates of a FOR phrase: the loop at its entry, the next candidate, and its qualifiers.

ghost use Rattle.std.specs.Prelude.{◌≡◌, ◌<◌, length, Ok};
ghost use Rattle.ss_program.specs.ProgramSound.{IsSoundPhrase, IsSoundExpr, IsSoundSetRef, IsSoundOption, IsSoundBegin};
ghost use Rattle.ss_program.specs.ProgramSound.{AreSoundQualifiers};
ghost use Rattle.ss_values.specs.Faults.{◌>>=◌ as and_then};
ghost use Rattle.ss_values.specs.Values.{value_of, subscript_value};
ghost use Rattle.ss_values.specs.Seen.{view_readings, InView};
ghost use Rattle.ss_state.specs.Loops as loops;
ghost use Rattle.ss_machine.specs.View.{as_walk, as_verdict};
ghost use Rattle.ss_machine.specs.Outcome.{Gives};

use crate::state::loops::{OpenLoop, Walk};
use crate::statements::looping::verdict::Verdict;
use ss_links::SetBoard;
use ss_program::{Begin, Direction, Expr, Phrase, QualifierWord, Qualifiers, SetRef, Variable};
use ss_values::{View, holds, subscript_value, value, variable_value};
use ss_words::RunFault;

fn candidate_within(direction: Direction, last: i64, x: i64) -> Option<i64>
    ensures { result ≡ loops.candidate_within direction last x }
{
    let is_within = match direction {
        Direction::Onward => x <= last,
        Direction::Backward => last <= x,
    };
    if is_within { Some(x) } else { None }
}

/// The number after another one; none past the last, or past the integers' end.
fn next_number(direction: Direction, last: i64, step: i64, x: i64) -> Option<i64>
    ensures { result ≡ loops.next_number direction last step x }
{
    let next = match direction {
        Direction::Onward => x.checked_add(step),
        Direction::Backward => x.checked_sub(step),
    };
    match next {
        Some(next) => candidate_within(direction, last, next),
        None => None,
    }
}

fn as_candidate(member: Option<u32>) -> Option<i64>
    ensures { loops.as_candidate member ≡ Ok result }
{
    match member {
        None => None,
        Some(number) => Some(i64::from(number)),
    }
}

/// The member at the end at which a walk in this direction begins, or none.
fn end_member<S: SetBoard>(
    view: View<'_, S>,
    direction: Direction,
    set: usize,
    owner: i64,
) -> Result<Option<u32>, RunFault>
    requires { set < length view.store.now.tables.sets }
    ensures { result ≡ loops.end_member (view_readings view.entry) direction set owner }
{
    match direction {
        Direction::Onward => view.store.walk_first(set, owner),
        Direction::Backward => view.store.walk_last(set, owner),
    }
}

/// The member after another one in this direction, or none.
fn member_behind<S: SetBoard>(
    view: View<'_, S>,
    direction: Direction,
    set: usize,
    owner: i64,
    x: i64,
) -> Result<Option<u32>, RunFault>
    requires { set < length view.store.now.tables.sets }
    ensures { result ≡ loops.member_behind (view_readings view.entry) direction set owner x }
{
    match direction {
        Direction::Onward => view.store.walk_next(set, owner, x),
        Direction::Backward => view.store.walk_prev(set, owner, x),
    }
}

/// The candidate after another one; F14 if that one has left its list.
pub fn next_candidate<S: SetBoard>(
    view: View<'_, S>,
    walk: Walk,
    x: i64,
) -> Result<Option<i64>, RunFault>
    requires { loops.IsSoundWalk (length view.store.now.tables.sets) (as_walk walk) }
    ensures { result ≡ loops.next_candidate (view_readings view.entry) (as_walk walk) x }
{
    match walk {
        Walk::Numbers {
            direction,
            last,
            step,
        } => Ok(next_number(direction, last, step, x)),
        Walk::Members {
            direction,
            set,
            owner,
        } => match member_behind(view, direction, set, owner, x) {
            Ok(member) => Ok(as_candidate(member)),
            Err(_) => Err(RunFault::MemberLeft),
        },
    }
}

/// The value that names a member of the list; F5 if the member is not in the list.
fn member_named<S: SetBoard>(
    view: View<'_, S>,
    set: usize,
    owner: i64,
    member: i64,
) -> Result<i64, RunFault>
    requires { set < length view.store.now.tables.sets }
    ensures { result ≡ loops.member_named (view_readings view.entry) set owner member }
{
    if view.store.is_in(set, owner, member)? {
        Ok(member)
    } else {
        Err(RunFault::NotInList)
    }
}

/// The member of the list that a value names; F5 if the member is not in the list.
fn member_got<S: SetBoard>(
    view: View<'_, S>,
    set: usize,
    owner: i64,
    e: &Expr,
) -> Result<i64, RunFault>
    requires set { set < length view.store.now.tables.sets }
    requires sound { InView view IsSoundExpr e.now }
    ensures { result
        ≡ and_then (value_of (view_readings view.entry) e.now)
        (λ y. loops.member_named (view_readings view.entry) set owner y) }
{
    let member = value(view, e)?;
    member_named(view, set, owner, member)
}

/// The first candidate of a walk through a list.
fn candidate_at_begin<S: SetBoard>(
    view: View<'_, S>,
    direction: Direction,
    set: usize,
    owner: i64,
    begin: &Begin,
) -> Result<Option<i64>, RunFault>
    requires set { set < length view.store.now.tables.sets }
    requires sound { InView view IsSoundBegin begin.now }
    ensures { result
        ≡ loops.candidate_at_begin (view_readings view.entry) direction set owner begin.now }
{
    match begin {
        Begin::AtTheEnd => Ok(as_candidate(end_member(view, direction, set, owner)?)),
        Begin::From(e) => Ok(Some(member_got(view, set, owner, e)?)),
        Begin::After(e) => {
            let member = member_got(view, set, owner, e)?;
            Ok(as_candidate(member_behind(view, direction, set, owner, member)?))
        }
    }
}

fn step_value<S: SetBoard>(view: View<'_, S>, step: &Option<Expr>) -> Result<i64, RunFault>
    requires { InView view IsSoundOption step.now }
    ensures { result ≡ loops.step_value (view_readings view.entry) step.now }
{
    match step {
        None => Ok(1),
        Some(e) => value(view, e),
    }
}

/// The loop over numbers of the phrase at a place, or F15.
fn number_loop(
    place: usize,
    direction: Direction,
    first: i64,
    last: i64,
    step: i64,
) -> Result<OpenLoop, RunFault>
    ensures { result ≡ loops.number_loop place direction first last step }
{
    if step < 1 {
        return Err(RunFault::StepBelowOne);
    }
    Ok(OpenLoop {
        phrase: place,
        candidate: candidate_within(direction, last, first),
        walk: Walk::Numbers {
            direction,
            last,
            step,
        },
    })
}

/// The loop over numbers from one value to another one, or the first fault.
fn counting_loop<S: SetBoard>(
    view: View<'_, S>,
    place: usize,
    direction: Direction,
    first: &Expr,
    last: &Expr,
    step: &Option<Expr>,
) -> Result<OpenLoop, RunFault>
    requires first { InView view IsSoundExpr first.now }
    requires last { InView view IsSoundExpr last.now }
    requires step { InView view IsSoundOption step.now }
    ensures { result
        ≡ and_then (value_of (view_readings view.entry) first.now)
        (λ a. and_then (value_of (view_readings view.entry) last.now)
        (λ b. and_then (loops.step_value (view_readings view.entry) step.now)
        (λ c. loops.number_loop place direction a b c))) }
{
    let first = value(view, first)?;
    let last = value(view, last)?;
    let step = step_value(view, step)?;
    number_loop(place, direction, first, last, step)
}

/// The loop through the list of an owner, or the first fault.
fn walking_loop<S: SetBoard>(
    view: View<'_, S>,
    place: usize,
    direction: Direction,
    set: &SetRef,
    begin: &Begin,
) -> Result<OpenLoop, RunFault>
    requires set { InView view IsSoundSetRef set.now }
    requires begin { InView view IsSoundBegin begin.now }
    ensures { result
        ≡ and_then (subscript_value (view_readings view.entry) set.now.owner)
        (λ o. and_then
        (loops.candidate_at_begin (view_readings view.entry) direction set.now.set o begin.now)
        (λ c. Ok (loops.list_loop place direction set.now.set o c))) }
{
    let owner = subscript_value(view, &set.owner)?;
    let candidate = candidate_at_begin(view, direction, set.set, owner, begin)?;
    Ok(OpenLoop {
        phrase: place,
        candidate,
        walk: Walk::Members {
            direction,
            set: set.set,
            owner,
        },
    })
}

/// The loop that the entry of the phrase at a place opens, or the first fault.
pub fn loop_at_entry<S: SetBoard>(
    view: View<'_, S>,
    place: usize,
    phrase: &Phrase,
) -> Result<OpenLoop, RunFault>
    requires { InView view IsSoundPhrase phrase.now }
    ensures { result ≡ loops.loop_at_entry (view_readings view.entry) place phrase.now }
{
    match phrase {
        Phrase::Counting {
            direction,
            first,
            last,
            step,
            ..
        } => counting_loop(view, place, *direction, first, last, step),
        Phrase::Each { count, .. } => {
            let last = variable_value(view, Variable::Global(*count));
            number_loop(place, Direction::Onward, 1, last, 1)
        }
        Phrase::Walking {
            direction,
            set,
            begin,
            ..
        } => walking_loop(view, place, *direction, set, begin),
    }
}

/// The variable to which a candidate goes.
pub fn loop_variable(phrase: &Phrase) -> Variable
    ensures { result ≡ loops.loop_variable phrase.now }
{
    match phrase {
        Phrase::Counting { variable, .. } => *variable,
        Phrase::Each { variable, .. } => *variable,
        Phrase::Walking { variable, .. } => *variable,
    }
}

/// The verdict of the qualifiers, in written order, or the first fault.
pub fn verdict<S: SetBoard>(view: View<'_, S>, qualifiers: &Qualifiers) -> Result<Verdict, RunFault>
    requires { InView view AreSoundQualifiers qualifiers.now }
    ensures { Gives result (loops.verdict_of (view_readings view.entry) qualifiers.now)
        as_verdict }
{
    for qualifier in &qualifiers.list {
        let truth = holds(view, &qualifier.condition)?;
        match (qualifier.word, truth) {
            (QualifierWord::With, false) | (QualifierWord::Unless, true) => {
                return Ok(Verdict::Passes);
            }
            (QualifierWord::While, false) | (QualifierWord::Until, true) => {
                return Ok(Verdict::Closes);
            }
            _ => {}
        }
    }
    Ok(Verdict::Runs)
}

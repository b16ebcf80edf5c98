//! The movements of requests.
ghost use Rattle.std.specs.Prelude.{◌≡◌, ◌++◌, [], IfOk, OnOk};
ghost use Rattle.ss_debug.specs.View.{debugger_state_of};
ghost use Rattle.ss_adapter.specs.Going.{state_behind, going_answer, ends_at_change, place_of, watched_by};
ghost use Rattle.ss_adapter.specs.Going.{plain_going, change_going, watched_going, run_going, going_of};
ghost use Rattle.ss_adapter.specs.Going.{stride_movement, step_going};

use crate::looking::question;
use crate::reach::{Way, change_movement, movement_reach, nearest, nearest_place};
use ss_debug::{Debugger, GREATEST_BOUND, obey};
use ss_links::SetBoard;
use ss_messages::{Command, Text};
use ss_program::Program;
use ss_trace::{Question, make_movement};
use std::alloc::{AllocError, Global};

/// A movement of the debugger.
#[derive(Drop)]
pub enum Going {
    /// One that its commands make.
    Standing(ss_debug::Movement),
    /// One that they do not make.
    Traced(ss_trace::Movement),
    /// One to the change of the data break point in this place.
    Watched(usize, ss_trace::Movement),
}

impl Going {
    /// The place of the data break point to whose change the movement goes.
    fn place(&self) -> Option<usize>
        ensures { result ≡ place_of self.now }
    {
        match self {
            Going::Watched(place, _) => Some(*place),
            _ => None,
        }
    }
}

/// The movement on to the stop of the run, or back to a stop.
fn plain_going(way: Way) -> Going
    ensures { result ≡ plain_going way }
{
    match way {
        Way::Forward => Going::Standing(ss_debug::Movement::Run(GREATEST_BOUND)),
        Way::Back => Going::Standing(ss_debug::Movement::BackBreak),
    }
}

/// The movement to a change of the question that is the data break point in this place.
fn change_going(way: Way, place: usize, question: Option<Question>) -> Going
    ensures { result ≡ change_going way place question }
{
    match question {
        None => plain_going(way),
        Some(question) => Going::Watched(place, change_movement(way, question)),
    }
}

/// The movement to the change of the data break point in this place.
fn watched_going(
    alloc: Global,
    program: &Program,
    way: Way,
    watched: &[Text],
    place: Option<usize>,
) -> Result<Going, AllocError>
    ensures { IfOk result (λ going. going ≡ watched_going program.now way watched.now place) }
{
    let Some(place) = place else {
        return Ok(plain_going(way));
    };
    let text = match watched.get(place) {
        None => b"".as_slice(),
        Some(text) => text.as_slice(),
    };
    Ok(change_going(way, place, question(alloc, program, text)?))
}

/// The movement on to the stop of the run, or back to a stop: at a break line, or at the nearest
/// change of the data break points.
///
/// `AllocError` if memory was refused; then the debugger may be elsewhere in the same run.
pub fn run_going<S: SetBoard>(
    alloc: Global,
    debugger: &mut Debugger<S>,
    watched: &[Text],
    way: Way,
) -> Result<Going, AllocError>
    ensures input { debugger.new.machine.input ≡ debugger.old.machine.input }
    ensures state { OnOk result (debugger_state_of debugger.new
        ≡ debugger_state_of debugger.old) }
    ensures going { IfOk result (λ going. going ≡ run_going debugger.old.machine.input
        (debugger_state_of debugger.old) watched.now way) }
{
    let place = nearest_place(alloc, debugger, way, watched)?;
    watched_going(alloc, debugger.machine().program(), way, watched, place)
}

/// A movement that a data break point may end.
#[derive(Clone, Copy)]
pub enum Stride {
    /// Over a called section.
    Over,
    /// Out of the section.
    Out,
}

/// The movement of a stride.
fn stride_movement(stride: Stride) -> ss_trace::Movement
    ensures { result ≡ stride_movement stride }
{
    match stride {
        Stride::Over => ss_trace::Movement::Over(1),
        Stride::Out => ss_trace::Movement::Out,
    }
}

/// OVER or OUT, or the movement to the nearest change of a data break point, if that is no further.
///
/// `AllocError` if memory was refused; then the debugger may be elsewhere in the same run.
fn step_going<S: SetBoard>(
    alloc: Global,
    debugger: &mut Debugger<S>,
    watched: &[Text],
    stride: Stride,
) -> Result<Going, AllocError>
    ensures input { debugger.new.machine.input ≡ debugger.old.machine.input }
    ensures state { OnOk result (debugger_state_of debugger.new
        ≡ debugger_state_of debugger.old) }
    ensures going { IfOk result (λ going. going ≡ step_going debugger.old.machine.input
        (debugger_state_of debugger.old) watched.now (stride_movement stride)) }
{
    let Some(found) = nearest(alloc, debugger, Way::Forward, watched)? else {
        return Ok(Going::Traced(stride_movement(stride)));
    };
    let reach = movement_reach(alloc, debugger, stride_movement(stride))?;
    if found.reach.met && found.reach.steps <= reach.steps {
        let program = debugger.machine().program();
        return watched_going(alloc, program, Way::Forward, watched, Some(found.place));
    }
    Ok(Going::Traced(stride_movement(stride)))
}

/// The movement that a request asks for.
pub fn asked_movement<S: SetBoard>(
    alloc: Global,
    debugger: &mut Debugger<S>,
    watched: &[Text],
    command: &Command,
) -> Result<Option<Going>, AllocError>
    ensures input { debugger.new.machine.input ≡ debugger.old.machine.input }
    ensures state { OnOk result (debugger_state_of debugger.new
        ≡ debugger_state_of debugger.old) }
    ensures going { IfOk result (λ going. going ≡ going_of debugger.old.machine.input
        (debugger_state_of debugger.old) watched.now command.now) }
{
    let going = match command {
        Command::Continue => run_going(alloc, debugger, watched, Way::Forward)?,
        Command::Next => step_going(alloc, debugger, watched, Stride::Over)?,
        Command::StepIn => Going::Standing(ss_debug::Movement::Step(1)),
        Command::StepOut => step_going(alloc, debugger, watched, Stride::Out)?,
        Command::StepBack(true) => Going::Standing(ss_debug::Movement::Back(1)),
        Command::StepBack(false) => Going::Traced(ss_trace::Movement::BackOver(1)),
        Command::ReverseContinue => run_going(alloc, debugger, watched, Way::Back)?,
        Command::Restart => Going::Traced(ss_trace::Movement::Go(0)),
        _ => return Ok(None),
    };
    Ok(Some(going))
}

/// Makes a movement, and appends its whole answer. Says whether it ended at a change of its question.
pub fn make<S: SetBoard>(
    debugger: &mut Debugger<S>,
    going: Going,
    answer: &mut Vec<u8>,
) -> Result<bool, AllocError>
    ensures input { debugger.new.machine.input ≡ debugger.old.machine.input }
    ensures place { OnOk result (debugger_state_of debugger.new
        ≡ state_behind debugger.old.machine.input (debugger_state_of debugger.old) going) }
    ensures met { IfOk result (λ met. met ≡ ends_at_change debugger.old.machine.input
        (debugger_state_of debugger.old) going) }
    ensures said { OnOk result (answer.new.items ≡ answer.old.items
        ++ going_answer debugger.old.machine.input (debugger_state_of debugger.old) going) }
{
    match going {
        Going::Standing(movement) => {
            obey(debugger, ss_debug::Command::Move(movement), answer)?;
            Ok(false)
        }
        Going::Traced(movement) => make_movement(debugger, movement, answer),
        Going::Watched(_, movement) => make_movement(debugger, movement, answer),
    }
}

/// Makes a movement, and appends its answer. Gives the place of the data break point at whose
/// change it ended, if it did at one.
pub fn make_watched<S: SetBoard>(
    debugger: &mut Debugger<S>,
    going: Going,
    answer: &mut Vec<u8>,
) -> Result<Option<usize>, AllocError>
    requires { answer.old.items ≡ [] }
    ensures input { debugger.new.machine.input ≡ debugger.old.machine.input }
    ensures place { OnOk result (debugger_state_of debugger.new
        ≡ state_behind debugger.old.machine.input (debugger_state_of debugger.old) going) }
    ensures said { OnOk result (answer.new.items
        ≡ going_answer debugger.old.machine.input (debugger_state_of debugger.old) going) }
    ensures watched { IfOk result (λ place. place ≡ watched_by debugger.old.machine.input
        (debugger_state_of debugger.old) going) }
{
    let place = going.place();
    let met = make(debugger, going, answer)?;
    Ok(if met { place } else { None })
}

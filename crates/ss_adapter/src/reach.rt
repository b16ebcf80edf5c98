//! The nearest of the changes of some questions, each looked for by the movement to it.
ghost use Rattle.std.specs.Prelude.{◌≡◌, ◌+◌, ◌<◌, IfOk, OnOk};
ghost use Rattle.ss_debug.specs.Turn.{debugger_state_at};
ghost use Rattle.ss_debug.specs.View.{debugger_state_of};
ghost use Rattle.ss_adapter.specs.Looking.{question_of};
ghost use Rattle.ss_adapter.specs.Reach.{change_movement, steps_between, movement_reach, reach_of};
ghost use Rattle.ss_adapter.specs.Reach.{is_nearer, nearer, reaches, nearest, nearest_place};

use crate::looking::question;
use ss_debug::{Debugger, GREATEST_BOUND};
use ss_links::SetBoard;
use ss_messages::Text;
use ss_trace::{Movement, Question, make_movement};
use std::alloc::{AllocError, Global};

/// Which way the run goes.
#[derive(Clone, Copy)]
pub enum Way {
    Forward,
    Back,
}

/// How far a movement leads, in steps, and whether it ends at a change.
#[derive(Clone, Copy)]
pub struct Reach {
    pub steps: u64,
    pub met: bool,
}

/// The reach of the text in a place.
#[derive(Clone, Copy)]
pub struct Found {
    pub place: usize,
    pub reach: Reach,
}

/// The movement to a change of a question.
pub fn change_movement(way: Way, question: Question) -> Movement
    ensures { result ≡ change_movement way question }
{
    match way {
        Way::Forward => Movement::RunChange(question),
        Way::Back => Movement::BackChange(question),
    }
}

/// How many steps lie between two positions.
fn steps_between(from: u64, to: u64) -> u64
    ensures { result ≡ steps_between from to }
{
    if to < from { from - to } else { to - from }
}

/// Goes to a position at which the run has been. The states before it were ready, so the way
/// forward leads there as the way back does.
#[tactic(auto, using(crate::proofs::Returns::stands_at))]
pub fn return_to<S: SetBoard>(
    alloc: Global,
    debugger: &mut Debugger<S>,
    to: u64,
) -> Result<(), AllocError>
    ensures input { debugger.new.machine.input ≡ debugger.old.machine.input }
    ensures state { OnOk result (debugger_state_of debugger.new
        ≡ debugger_state_at (debugger_state_of debugger.old) to) }
{
    let mut said = Vec::new(alloc);
    make_movement(debugger, Movement::Go(to), &mut said)?;
    if debugger.machine().position() != to {
        return Err(AllocError);
    }
    Ok(())
}

/// Makes a movement and goes back. Gives how far it leads, and whether it ends at a change.
pub fn movement_reach<S: SetBoard>(
    alloc: Global,
    debugger: &mut Debugger<S>,
    movement: Movement,
) -> Result<Reach, AllocError>
    ensures input { debugger.new.machine.input ≡ debugger.old.machine.input }
    ensures state { OnOk result (debugger_state_of debugger.new
        ≡ debugger_state_of debugger.old) }
    ensures reach { IfOk result (λ reach. reach ≡ movement_reach
        debugger.old.machine.input (debugger_state_of debugger.old) movement) }
{
    let from = debugger.machine().position();
    let mut said = Vec::new(alloc);
    let met = make_movement(debugger, movement, &mut said)?;
    let steps = steps_between(from, debugger.machine().position());
    return_to(alloc, debugger, from)?;
    Ok(Reach { steps, met })
}

/// The reach of the movement to a change of the question of a text.
fn text_reach<S: SetBoard>(
    alloc: Global,
    debugger: &mut Debugger<S>,
    way: Way,
    text: &[u8],
) -> Result<Reach, AllocError>
    ensures input { debugger.new.machine.input ≡ debugger.old.machine.input }
    ensures state { OnOk result (debugger_state_of debugger.new
        ≡ debugger_state_of debugger.old) }
    ensures reach { IfOk result (λ reach. reach ≡ reach_of debugger.old.machine.input
        (debugger_state_of debugger.old) way
        (question_of debugger.old.machine.input.program text.now)) }
{
    match question(alloc, debugger.machine().program(), text)? {
        Some(question) => movement_reach(alloc, debugger, change_movement(way, question)),
        None => Ok(Reach {
            steps: GREATEST_BOUND + 1,
            met: false,
        }),
    }
}

/// Whether one reach is nearer than another.
fn is_nearer(one: Reach, other: Reach) -> bool
    ensures { result ≡ is_nearer one other }
{
    if one.steps == other.steps {
        return one.met && !other.met;
    }
    one.steps < other.steps
}

/// The nearest so far, if one more is in this place.
fn nearer(found: Option<Found>, place: usize, reach: Reach) -> Found
    ensures { result ≡ nearer found place reach }
{
    match found {
        None => Found { place, reach },
        Some(found) => {
            if is_nearer(reach, found.reach) {
                return Found { place, reach };
            }
            found
        }
    }
}

/// The nearest of the changes of the questions of some texts.
pub fn nearest<S: SetBoard>(
    alloc: Global,
    debugger: &mut Debugger<S>,
    way: Way,
    texts: &[Text],
) -> Result<Option<Found>, AllocError>
    ensures input { debugger.new.machine.input ≡ debugger.old.machine.input }
    ensures state { OnOk result (debugger_state_of debugger.new
        ≡ debugger_state_of debugger.old) }
    ensures nearest { IfOk result (λ found. found ≡ nearest (reaches
        debugger.old.machine.input (debugger_state_of debugger.old) way texts.now)) }
{
    let mut found = None;
    let mut place = 0;
    for text in texts {
        let reach = text_reach(alloc, debugger, way, text.as_slice())?;
        found = Some(nearer(found, place, reach));
        place += 1;
    }
    Ok(found)
}

/// The place of the text whose question changes nearest; if there is only one text, its change is
/// not looked for. Each change is looked for from the debugger's position, and the debugger is at
/// that position afterwards.
///
/// `AllocError` if memory was refused; then the debugger may be elsewhere in the same run.
#[tactic(auto, unfolding(crate::specs::Reach::nearest_place), using(crate::proofs::Returns::alone))]
pub fn nearest_place<S: SetBoard>(
    alloc: Global,
    debugger: &mut Debugger<S>,
    way: Way,
    texts: &[Text],
) -> Result<Option<usize>, AllocError>
    ensures input { debugger.new.machine.input ≡ debugger.old.machine.input }
    ensures state { OnOk result (debugger_state_of debugger.new
        ≡ debugger_state_of debugger.old) }
    ensures place { IfOk result (λ place. place ≡ nearest_place debugger.old.machine.input
        (debugger_state_of debugger.old) way texts.now) }
{
    if texts.len() == 1 {
        return Ok(Some(0));
    }
    match nearest(alloc, debugger, way, texts)? {
        Some(found) => Ok(Some(found.place)),
        None => Ok(None),
    }
}

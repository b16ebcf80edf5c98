//! The effect of each movement.
ghost use Rattle.std.specs.Prelude.{◌≡◌, ◌++◌, OnOk, OnErr, IfOk, ℕ, List, codes};
ghost use Rattle.ss_state.specs.Run.{Input};
ghost use Rattle.ss_debug.specs.BreakLines.{BreakPoint};
ghost use Rattle.ss_debug.specs.Move.{forward, search_back, shape_of as standing_shape};
ghost use Rattle.ss_debug.specs.Turn.{debugger_state_after_movement, movement_answer};
ghost use Rattle.ss_debug.specs.AfterRefusal.{IsStateAfterRefusedMovement};
ghost use Rattle.ss_debug.specs.View.{debugger_state_of};
ghost use Rattle.ss_trace.specs.Question.{changes_at};
ghost use Rattle.ss_trace.specs.Movements.{debugger_shape, ahead, seek_back, over_by, back_over_by, go_shape};
ghost use Rattle.ss_trace.specs.Movements.{end_condition, has_changed, is_met_back};
ghost use Rattle.ss_trace.specs.declared.movement.TheConstants.{GREATEST_JOURNEY};
ghost use Rattle.ss_machine.specs.Moment.{position};
ghost use Rattle.ss_trace.specs.Turn.{state_after, answer, run_ends_at_change, ends_at_change, IsStateAfterRefusal};
ghost use Rattle.ss_trace.specs.Turn.{state_after_shape, shape_answer, IsAfterRefusedShape};
ghost use Rattle.ss_trace.specs.View.{sought_test};

use crate::ahead::ahead;
use crate::back::back_to;
use crate::change_search::{ahead_to_change, back_to_change};
use crate::counted::{back_over, frames, over};
use crate::movement::{GREATEST_JOURNEY, Movement};
use crate::question::Question;
use crate::sought::{Sought, is_found, is_ready_now};
use crate::text::{backward_word, forward_word};
use ss_debug::{Command, Debugger, GREATEST_BOUND, Movement as Standing, obey};
use ss_links::SetBoard;
use std::alloc::AllocError;

/// A movement of the debugger, and its answer.
#[tactic(auto, unfolding(ss_debug::proofs::Unfoldings::turns))]
fn make_standing<S: SetBoard>(
    debugger: &mut Debugger<S>,
    movement: Standing,
    bytes: &mut Vec<u8>,
) -> Result<(), AllocError>
    ensures input { debugger.new.machine.input ≡ debugger.old.machine.input }
    ensures place { OnOk result (debugger_state_of debugger.new
        ≡ debugger_state_after_movement debugger.old.machine.input
        (debugger_state_of debugger.old)
        (standing_shape debugger.old.machine.input debugger.old.breaks movement)) }
    ensures said { OnOk result (bytes.new.items ≡ bytes.old.items
        ++ movement_answer debugger.old.machine.input (debugger_state_of debugger.old)
        (standing_shape debugger.old.machine.input debugger.old.breaks movement)) }
    ensures memory { OnErr result ((bytes.new.items ≡ bytes.old.items)
        × IsStateAfterRefusedMovement debugger.old.machine.input (debugger_state_of debugger.old)
        (standing_shape debugger.old.machine.input debugger.old.breaks movement)
        (debugger_state_of debugger.new)) }
{
    obey(debugger, Command::Move(movement), bytes)?;
    Ok(())
}

/// A movement forward to a state that is looked for or a break line, and its answer.
fn go_ahead<S: SetBoard>(
    debugger: &mut Debugger<S>,
    sought: Sought,
    word: &'static [u8],
    bytes: &mut Vec<u8>,
) -> Result<(), AllocError>
    ensures input { debugger.new.machine.input ≡ debugger.old.machine.input }
    ensures place { OnOk result (debugger_state_of debugger.new
        ≡ state_after_shape debugger.old.machine.input (debugger_state_of debugger.old)
        (ahead (sought_test debugger.old.machine.input sought) word.now)) }
    ensures said { OnOk result (bytes.new.items ≡ bytes.old.items
        ++ shape_answer debugger.old.machine.input (debugger_state_of debugger.old)
        (ahead (sought_test debugger.old.machine.input sought) word.now)) }
    ensures memory { OnErr result ((bytes.new.items ≡ bytes.old.items)
        × IsAfterRefusedShape debugger.old.machine.input (debugger_state_of debugger.old)
        (ahead (sought_test debugger.old.machine.input sought) word.now)
        (debugger_state_of debugger.new)) }
{
    let from = debugger.machine().position();
    ahead(debugger, sought, GREATEST_BOUND)?;
    let met = from < debugger.machine().position() && is_found(debugger, sought);
    debugger.push_movement(forward_word(debugger, word, from, met), bytes)
}

/// OVER, and its answer.
fn go_over<S: SetBoard>(
    debugger: &mut Debugger<S>,
    count: u64,
    bytes: &mut Vec<u8>,
) -> Result<(), AllocError>
    ensures input { debugger.new.machine.input ≡ debugger.old.machine.input }
    ensures place { OnOk result (debugger_state_of debugger.new
        ≡ state_after_shape debugger.old.machine.input (debugger_state_of debugger.old)
        (over_by count)) }
    ensures said { OnOk result (bytes.new.items ≡ bytes.old.items
        ++ shape_answer debugger.old.machine.input (debugger_state_of debugger.old)
        (over_by count)) }
    ensures memory { OnErr result ((bytes.new.items ≡ bytes.old.items)
        × IsAfterRefusedShape debugger.old.machine.input (debugger_state_of debugger.old)
        (over_by count) (debugger_state_of debugger.new)) }
{
    let from = debugger.machine().position();
    let left = over(debugger, count)?;
    debugger.push_movement(forward_word(debugger, b"DONE", from, left == 0), bytes)
}

/// GO END, and its answer.
fn go_to_end<S: SetBoard>(debugger: &mut Debugger<S>, bytes: &mut Vec<u8>) -> Result<(), AllocError>
    ensures input { debugger.new.machine.input ≡ debugger.old.machine.input }
    ensures place { OnOk result (debugger_state_of debugger.new
        ≡ state_after_shape debugger.old.machine.input (debugger_state_of debugger.old)
        (debugger_shape (forward end_condition GREATEST_JOURNEY))) }
    ensures said { OnOk result (bytes.new.items ≡ bytes.old.items
        ++ shape_answer debugger.old.machine.input (debugger_state_of debugger.old)
        (debugger_shape (forward end_condition GREATEST_JOURNEY))) }
    ensures memory { OnErr result ((bytes.new.items ≡ bytes.old.items)
        × IsAfterRefusedShape debugger.old.machine.input (debugger_state_of debugger.old)
        (debugger_shape (forward end_condition GREATEST_JOURNEY))
        (debugger_state_of debugger.new)) }
{
    let mut said = Vec::new(*bytes.allocator());
    make_standing(debugger, Standing::Step(GREATEST_JOURNEY), &mut said)?;
    let word: &'static [u8] = if is_ready_now(debugger) {
        b"BOUND"
    } else {
        b"HALTED"
    };
    debugger.push_movement(word, bytes)
}

/// A movement back to a state that is looked for, and its answer.
fn go_back_to<S: SetBoard>(
    debugger: &mut Debugger<S>,
    sought: Sought,
    word: &'static [u8],
    bytes: &mut Vec<u8>,
) -> Result<(), AllocError>
    ensures input { debugger.new.machine.input ≡ debugger.old.machine.input }
    ensures place { debugger_state_of debugger.new
        ≡ state_after_shape debugger.old.machine.input (debugger_state_of debugger.old)
        (debugger_shape (search_back (sought_test debugger.old.machine.input sought) word.now)) }
    ensures said { OnOk result (bytes.new.items ≡ bytes.old.items
        ++ shape_answer debugger.old.machine.input (debugger_state_of debugger.old)
        (debugger_shape (search_back (sought_test debugger.old.machine.input sought) word.now))) }
    ensures memory { OnErr result (bytes.new.items ≡ bytes.old.items) }
{
    let from = debugger.machine().position();
    back_to(debugger, sought, GREATEST_BOUND);
    let met = debugger.machine().position() < from && is_found(debugger, sought);
    debugger.push_movement(backward_word(debugger, word, met), bytes)
}

/// BACK OVER, and its answer.
fn go_back_over<S: SetBoard>(
    debugger: &mut Debugger<S>,
    count: u64,
    bytes: &mut Vec<u8>,
) -> Result<(), AllocError>
    ensures input { debugger.new.machine.input ≡ debugger.old.machine.input }
    ensures place { debugger_state_of debugger.new
        ≡ state_after_shape debugger.old.machine.input (debugger_state_of debugger.old)
        (back_over_by count) }
    ensures said { OnOk result (bytes.new.items ≡ bytes.old.items
        ++ shape_answer debugger.old.machine.input (debugger_state_of debugger.old)
        (back_over_by count)) }
    ensures memory { OnErr result (bytes.new.items ≡ bytes.old.items) }
{
    let left = back_over(debugger, count);
    debugger.push_movement(backward_word(debugger, b"DONE", left == 0), bytes)
}

/// RUN CHANGE, and its answer. Says whether it ended at a change.
fn go_to_change<S: SetBoard>(
    debugger: &mut Debugger<S>,
    question: &Question,
    bytes: &mut Vec<u8>,
) -> Result<bool, AllocError>
    ensures input { debugger.new.machine.input ≡ debugger.old.machine.input }
    ensures place { OnOk result (debugger_state_of debugger.new
        ≡ state_after_shape debugger.old.machine.input (debugger_state_of debugger.old)
        (ahead (has_changed debugger.old.machine.input question.now) (codes "CHANGE"))) }
    ensures met { IfOk result (λ met. met ≡ run_ends_at_change debugger.old.machine.input question.now
        (position debugger.old.machine) (position debugger.new.machine)) }
    ensures said { OnOk result (bytes.new.items ≡ bytes.old.items
        ++ shape_answer debugger.old.machine.input (debugger_state_of debugger.old)
        (ahead (has_changed debugger.old.machine.input question.now) (codes "CHANGE"))) }
    ensures memory { OnErr result ((bytes.new.items ≡ bytes.old.items)
        × IsAfterRefusedShape debugger.old.machine.input (debugger_state_of debugger.old)
        (ahead (has_changed debugger.old.machine.input question.now) (codes "CHANGE"))
        (debugger_state_of debugger.new)) }
{
    let from = debugger.machine().position();
    let met = ahead_to_change(*bytes.allocator(), debugger, question, GREATEST_BOUND)?;
    debugger.push_movement(forward_word(debugger, b"CHANGE", from, met), bytes)?;
    Ok(is_ready_now(debugger) && met)
}

/// BACK CHANGE, and its answer. Says whether it ended at a change.
fn go_back_to_change<S: SetBoard>(
    debugger: &mut Debugger<S>,
    question: &Question,
    bytes: &mut Vec<u8>,
) -> Result<bool, AllocError>
    ensures input { debugger.new.machine.input ≡ debugger.old.machine.input }
    ensures place { OnOk result (debugger_state_of debugger.new
        ≡ state_after_shape debugger.old.machine.input (debugger_state_of debugger.old)
        (seek_back (changes_at debugger.old.machine.input question.now) (codes "CHANGE"))) }
    ensures met { IfOk result (λ met. met ≡ is_met_back
        (changes_at debugger.old.machine.input question.now) (position debugger.old.machine)
        (position debugger.new.machine)) }
    ensures said { OnOk result (bytes.new.items ≡ bytes.old.items
        ++ shape_answer debugger.old.machine.input (debugger_state_of debugger.old)
        (seek_back (changes_at debugger.old.machine.input question.now) (codes "CHANGE"))) }
    ensures memory { OnErr result ((bytes.new.items ≡ bytes.old.items)
        × IsAfterRefusedShape debugger.old.machine.input (debugger_state_of debugger.old)
        (seek_back (changes_at debugger.old.machine.input question.now) (codes "CHANGE"))
        (debugger_state_of debugger.new)) }
{
    let met = back_to_change(*bytes.allocator(), debugger, question, GREATEST_BOUND)?;
    debugger.push_movement(backward_word(debugger, b"CHANGE", met), bytes)?;
    Ok(met)
}

/// The steps of GO from position `from`: a number of them back or forward.
fn go_steps(from: u64, to: u64) -> Standing
    ensures { (t : Input) → (breaks : List BreakPoint) →
        standing_shape t breaks result ≡ go_shape from to }
{
    if to < from {
        Standing::Back(from - to)
    } else {
        Standing::Step(to - from)
    }
}

/// Makes a movement, and appends its whole answer to `bytes`. Says whether it ended at a change of its
/// question, which RUN CHANGE and BACK CHANGE have.
///
/// `AllocError` if a growth was refused: `bytes`, the break lines and the earliest kept position
/// are as before. A movement forward was made in part, and the machine is at the position to which
/// the steps that were made led. One back was made as a whole, but BACK CHANGE in part too.
#[tactic(auto, unfolding(crate::specs::Movements::shape_of))]
pub fn make_movement<S: SetBoard>(
    debugger: &mut Debugger<S>,
    movement: Movement,
    bytes: &mut Vec<u8>,
) -> Result<bool, AllocError>
    ensures input { debugger.new.machine.input ≡ debugger.old.machine.input }
    ensures place { OnOk result (debugger_state_of debugger.new
        ≡ state_after debugger.old.machine.input (debugger_state_of debugger.old) movement) }
    ensures met { IfOk result (λ met. met ≡ ends_at_change debugger.old.machine.input
        (debugger_state_of debugger.old) movement) }
    ensures said { OnOk result (bytes.new.items ≡ bytes.old.items
        ++ answer debugger.old.machine.input (debugger_state_of debugger.old) movement) }
    ensures memory { OnErr result ((bytes.new.items ≡ bytes.old.items)
        × IsStateAfterRefusal debugger.old.machine.input (debugger_state_of debugger.old) movement
        (debugger_state_of debugger.new)) }
{
    let frames = frames(debugger);
    match movement {
        Movement::RunChange(question) => return go_to_change(debugger, &question, bytes),
        Movement::BackChange(question) => return go_back_to_change(debugger, &question, bytes),
        Movement::Over(count) => go_over(debugger, count, bytes)?,
        Movement::Out => go_ahead(debugger, Sought::Outside(frames), b"DONE", bytes)?,
        Movement::BackOver(count) => go_back_over(debugger, count, bytes)?,
        Movement::BackOut => go_back_to(debugger, Sought::Outside(frames), b"DONE", bytes)?,
        Movement::BackTo(time) => go_back_to(debugger, Sought::Before(time), b"TIME", bytes)?,
        Movement::Go(position) => {
            let steps = go_steps(debugger.machine().position(), position);
            make_standing(debugger, steps, bytes)?
        }
        Movement::GoEnd => go_to_end(debugger, bytes)?,
    }
    Ok(false)
}

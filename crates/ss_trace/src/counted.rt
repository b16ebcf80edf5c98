//! OVER and BACK OVER, a number of times.
ghost use Rattle.std.specs.Prelude.{◌≡◌, ◌+◌, ◌≤◌, OnOk, OnErr, IfOk};
ghost use Rattle.ss_machine.specs.Moment.{position};
ghost use Rattle.ss_debug.specs.declared.limits.TheConstants.{GREATEST_BOUND};
ghost use Rattle.ss_debug.specs.Move.{search_back_end};
ghost use Rattle.ss_trace.specs.Movements.{frames_at, is_level, ahead_end, is_met, is_met_back, over, back_over};
ghost use Rattle.ss_trace.specs.View.{IsAt, IsBetween};

use crate::ahead::ahead;
use crate::back::back_to;
use crate::sought::{Sought, is_found};
use ss_debug::{Debugger, GREATEST_BOUND};
use ss_links::SetBoard;
use std::alloc::AllocError;

/// How many frames there are.
pub fn frames<S: SetBoard>(debugger: &Debugger<S>) -> usize
    ensures { result ≡ frames_at debugger.now.machine.input (position debugger.now.machine) }
{
    debugger.machine().known();
    debugger.machine().frames()
}

/// OVER once within the bound, and whether it was made.
#[tactic(auto, using(crate::proofs::Parts::ahead_within))]
fn over_once<S: SetBoard>(debugger: &mut Debugger<S>, bound: u64) -> Result<bool, AllocError>
    ensures ok { OnOk result (IsAt debugger.old (ahead_end debugger.old.machine.input
        debugger.old.breaks (is_level debugger.old.machine.input
        (frames_at debugger.old.machine.input (position debugger.old.machine)))
        (position debugger.old.machine) bound) debugger.new) }
    ensures made { IfOk result (λ made. made ≡ is_met (is_level debugger.old.machine.input
        (frames_at debugger.old.machine.input (position debugger.old.machine)))
        (position debugger.old.machine) (position debugger.new.machine)) }
    ensures within { OnOk result
        ((position debugger.old.machine ≤ position debugger.new.machine)
        × (position debugger.new.machine ≤ position debugger.old.machine + bound)) }
    ensures memory { OnErr result (IsBetween debugger.old (position debugger.old.machine)
        (ahead_end debugger.old.machine.input debugger.old.breaks
        (is_level debugger.old.machine.input
        (frames_at debugger.old.machine.input (position debugger.old.machine)))
        (position debugger.old.machine) bound) debugger.new) }
{
    let from = debugger.machine().position();
    let level = Sought::Level(frames(debugger));
    ahead(debugger, level, bound)?;
    Ok(from < debugger.machine().position() && is_found(debugger, level))
}

/// OVER, `count` times within `GREATEST_BOUND` steps. Gives the number that were not made.
///
/// `AllocError` if a step was refused memory: the machine is at the position to which the steps
/// before it led.
pub fn over<S: SetBoard>(debugger: &mut Debugger<S>, count: u64) -> Result<u64, AllocError>
    ensures ok { OnOk result (IsAt debugger.old (over debugger.old.machine.input
        debugger.old.breaks count (position debugger.old.machine) GREATEST_BOUND).position
        debugger.new) }
    ensures left { IfOk result (λ left. left ≡ (over debugger.old.machine.input
        debugger.old.breaks count (position debugger.old.machine) GREATEST_BOUND).left) }
    ensures later { OnOk result
        (position debugger.old.machine ≤ position debugger.new.machine) }
    ensures memory { OnErr result (IsBetween debugger.old (position debugger.old.machine)
        (over debugger.old.machine.input debugger.old.breaks count
        (position debugger.old.machine) GREATEST_BOUND).position debugger.new) }
{
    let mut bound = GREATEST_BOUND;
    for k in 0..count {
        let from = debugger.machine().position();
        let made = over_once(debugger, bound)?;
        if !made {
            return Ok(count - k);
        }
        if debugger.stands_on_break() {
            return Ok(count - k - 1);
        }
        bound -= debugger.machine().position() - from;
    }
    Ok(0)
}

/// BACK OVER once within the bound. Says whether it was made.
#[tactic(auto, using(crate::proofs::Parts::back_within))]
fn back_over_once<S: SetBoard>(debugger: &mut Debugger<S>, bound: u64) -> bool
    ensures place { IsAt debugger.old (search_back_end (is_level debugger.old.machine.input
        (frames_at debugger.old.machine.input (position debugger.old.machine)))
        debugger.old.machine.forgotten (position debugger.old.machine) bound) debugger.new }
    ensures made { result ≡ is_met_back (is_level debugger.old.machine.input
        (frames_at debugger.old.machine.input (position debugger.old.machine)))
        (position debugger.old.machine) (position debugger.new.machine) }
    ensures within { (position debugger.new.machine ≤ position debugger.old.machine)
        × (position debugger.old.machine ≤ position debugger.new.machine + bound) }
{
    let from = debugger.machine().position();
    let level = Sought::Level(frames(debugger));
    back_to(debugger, level, bound);
    debugger.machine().position() < from && is_found(debugger, level)
}

/// BACK OVER, `count` times within `GREATEST_BOUND` steps. Gives the number that were not made.
pub fn back_over<S: SetBoard>(debugger: &mut Debugger<S>, count: u64) -> u64
    ensures place { IsAt debugger.old (back_over debugger.old.machine.input
        debugger.old.machine.forgotten count (position debugger.old.machine)
        GREATEST_BOUND).position debugger.new }
    ensures left { result ≡ (back_over debugger.old.machine.input
        debugger.old.machine.forgotten count (position debugger.old.machine)
        GREATEST_BOUND).left }
{
    let mut bound = GREATEST_BOUND;
    for k in 0..count {
        let from = debugger.machine().position();
        if !back_over_once(debugger, bound) {
            return count - k;
        }
        bound -= from - debugger.machine().position();
    }
    0
}

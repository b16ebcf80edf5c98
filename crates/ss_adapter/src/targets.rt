//! The states near by on a line of the model, and goto, which leads to one.
ghost use Rattle.std.specs.Prelude.{◌≡◌, ◌+◌, ◌-◌, ◌^◌, ◌<◌, ◌&&◌, ◌∷◌, [], nat_lt, codes, true};
ghost use Rattle.std.specs.Prelude.{IfOk, OnOk, OnErr};
ghost use Rattle.ss_machine.specs.Moment.{position};
ghost use Rattle.ss_state.specs.declared.limits.TheConstants.{LAST_POSITION};
ghost use Rattle.ss_debug.specs.Move.{forward_end, search_back_end, is_ready_at, is_stop};
ghost use Rattle.ss_debug.specs.Turn.{debugger_state_at};
ghost use Rattle.ss_debug.specs.View.{debugger_state_of};
ghost use Rattle.ss_trace.specs.View.{IsAt};
ghost use Rattle.ss_messages.specs.Bodies.{list_body};
ghost use Rattle.ss_messages.specs.Messages.{posted_all, reply};
ghost use Rattle.ss_adapter.specs.Targets.{is_on_line, line_condition, line_end, state_target, target_met};
ghost use Rattle.ss_adapter.specs.Targets.{near_item, near_items};
ghost use Rattle.ss_adapter.specs.Turn.{adapter_state_of, answer_to_goto, behind_goto};

use crate::desk::Desk;
use crate::going::{Going, make};
use crate::pen::Pen;
use crate::reach::{Way, return_to};
use crate::telling::{tell_report, tell_stop};
use ss_debug::{Debugger, GREATEST_BOUND, Question, place_line};
use ss_links::SetBoard;
use ss_messages::{NOTHING, Post, Request, list_body, state_item, without_last};
use ss_state::{LAST_POSITION, Status};
use ss_trace::Movement;
use std::alloc::{AllocError, Global};

/// Whether the machine is on a line of the model.
fn is_on_line<S: SetBoard>(debugger: &Debugger<S>, line: u64) -> bool
    ensures { result
        ≡ is_on_line debugger.now.machine.input line (position debugger.now.machine) }
{
    let machine = debugger.machine();
    machine.known();
    let (section, place) = machine.place();
    place_line(machine.program(), section, place) as u64 == line
}

/// Whether a search back for a line stops at the machine's position, after k steps.
fn is_at_back_stop<S: SetBoard>(debugger: &Debugger<S>, line: u64, k: u64) -> bool
    ensures { result ≡ (nat_lt 0 k
        && is_on_line debugger.now.machine.input line (position debugger.now.machine)) }
{
    0 < k && is_on_line(debugger, line)
}

/// Steps back to the nearest earlier state on a line, or to the earliest kept position, within the
/// bound. It takes no memory.
#[tactic(auto, using(ss_debug::proofs::Moves::search_back_is))]
fn back_to_line<S: SetBoard>(debugger: &mut Debugger<S>, line: u64, bound: u64)
    ensures { IsAt debugger.old (search_back_end (is_on_line debugger.old.machine.input line)
        debugger.old.machine.forgotten (position debugger.old.machine) bound) debugger.new }
{
    for k in 0..bound {
        if is_at_back_stop(debugger, line, k) {
            return;
        }
        if !debugger.step_back() {
            return;
        }
    }
}

/// Whether the next step runs a place.
fn is_ready_now<S: SetBoard>(debugger: &Debugger<S>) -> bool
    ensures { result
        ≡ is_ready_at debugger.now.machine.input (position debugger.now.machine) }
{
    debugger.machine().known();
    matches!(debugger.machine().status(), Status::Ready)
}

/// Whether a search forward for a line, from position `from`, stops at the machine's position.
fn is_at_stop<S: SetBoard>(debugger: &Debugger<S>, line: u64, from: u64) -> bool
    ensures { result ≡ is_stop debugger.now.machine.input
        (line_condition debugger.now.machine.input line) from
        (position debugger.now.machine) }
{
    !is_ready_now(debugger) || (from < debugger.machine().position() && is_on_line(debugger, line))
}

/// One step from a state that is ready and not the last.
fn step_once<S: SetBoard>(debugger: &mut Debugger<S>) -> Result<(), AllocError>
    requires ready { is_ready_at debugger.old.machine.input
        (position debugger.old.machine) ≡ true }
    requires before_last { position debugger.old.machine < LAST_POSITION }
    ensures ok { OnOk result (IsAt debugger.old (position debugger.old.machine + 1) debugger.new) }
    ensures err { OnErr result (debugger.new ≡ debugger.old) }
{
    debugger.machine().known();
    debugger.step_forward()?;
    Ok(())
}

/// Steps to the nearest later state on a line, or whose status isn't ready, within the bound and not
/// past the last position.
#[tactic(auto, using(ss_debug::proofs::Moves::least_steps))]
fn ahead_to_line<S: SetBoard>(
    debugger: &mut Debugger<S>,
    line: u64,
    bound: u64,
) -> Result<(), AllocError>
    ensures input { debugger.new.machine.input ≡ debugger.old.machine.input }
    ensures ok { OnOk result (IsAt debugger.old (forward_end debugger.old.machine.input
        (line_condition debugger.old.machine.input line) (position debugger.old.machine) bound)
        debugger.new) }
{
    debugger.machine().known();
    let from = debugger.machine().position();
    let steps = bound.min(LAST_POSITION - from);
    for _k in 0..steps {
        if is_at_stop(debugger, line, from) {
            return Ok(());
        }
        step_once(debugger)?;
    }
    Ok(())
}

/// Goes to the state at which a search for a line ends.
fn seek_line<S: SetBoard>(debugger: &mut Debugger<S>, way: Way, line: u64) -> Result<(), AllocError>
    ensures input { debugger.new.machine.input ≡ debugger.old.machine.input }
    ensures place { OnOk result (debugger_state_of debugger.new
        ≡ debugger_state_at (debugger_state_of debugger.old)
        (line_end debugger.old.machine.input (debugger_state_of debugger.old) way line)) }
{
    match way {
        Way::Forward => ahead_to_line(debugger, line, GREATEST_BOUND),
        Way::Back => {
            back_to_line(debugger, line, GREATEST_BOUND);
            Ok(())
        }
    }
}

/// The state at the machine's position as a target of goto, with its line, as the editor counts.
fn state_here<S: SetBoard>(
    alloc: Global,
    debugger: &Debugger<S>,
    number: u64,
) -> Result<Vec<u8>, AllocError>
    ensures { IfOk result (λ item. item.items
        ≡ state_target debugger.now.machine.input (position debugger.now.machine) number) }
{
    let label = debugger.answer_to(&Question::Where)?;
    let position = debugger.machine().position();
    state_item(alloc, position, without_last(&label), number)
}

/// That target, if a search for a line from position `from` ended here and led to a state on the
/// line.
fn item_met<S: SetBoard>(
    alloc: Global,
    debugger: &Debugger<S>,
    from: u64,
    line: u64,
    number: u64,
) -> Result<Vec<u8>, AllocError>
    ensures { IfOk result (λ item. item.items ≡ target_met debugger.now.machine.input from line
        (position debugger.now.machine) number) }
{
    if debugger.machine().position() != from && is_on_line(debugger, line) {
        return state_here(alloc, debugger, number);
    }
    Ok(Vec::new(alloc))
}

/// The nearest state on the line that the editor means by a number, forward or back, as a target of
/// goto, if there is one within `GREATEST_BOUND` steps. The debugger is back at its old position.
///
/// `AllocError` if memory was refused; then the debugger may be elsewhere in the same run.
fn near_item<S: SetBoard>(
    pen: Pen,
    debugger: &mut Debugger<S>,
    way: Way,
    number: u64,
) -> Result<Vec<u8>, AllocError>
    ensures input { debugger.new.machine.input ≡ debugger.old.machine.input }
    ensures state { OnOk result (debugger_state_of debugger.new
        ≡ debugger_state_of debugger.old) }
    ensures item { IfOk result (λ item. item.items ≡ near_item debugger.old.machine.input
        (debugger_state_of debugger.old) pen.counting way number) }
{
    let from = debugger.machine().position();
    let line = pen.counting.meant_line(number);
    seek_line(debugger, way, line)?;
    let item = item_met(pen.alloc, debugger, from, line, number)?;
    return_to(pen.alloc, debugger, from)?;
    Ok(item)
}

/// Answers with the nearest states on a line, the earlier one first.
#[tactic(auto, unfolding(ss_messages::specs::Messages::posted_all))]
pub fn tell_targets<S: SetBoard>(
    debugger: &mut Debugger<S>,
    desk: &Desk,
    request: &Request,
    post: &mut Post,
    number: u64,
) -> Result<(), AllocError>
    requires { post.old.sent < 2 ^ 64 - 1 }
    ensures input { debugger.new.machine.input ≡ debugger.old.machine.input }
    ensures sent { OnOk result (post.new ≡ posted_all request.now post.old (reply
        (list_body (codes "targets") (near_items debugger.old.machine.input
        (debugger_state_of debugger.old) desk.now.counting number)) ∷ [])) }
    ensures state { OnOk result (debugger_state_of debugger.new
        ≡ debugger_state_of debugger.old) }
{
    let pen = desk.pen(post);
    let mut items = near_item(pen, debugger, Way::Back, number)?;
    let later = near_item(pen, debugger, Way::Forward, number)?;
    items.extend_from_slice(&later)?;
    let body = list_body(pen.alloc, b"targets", &items)?;
    post.reply(request, &body)
}

/// Goes to the state of this number, and answers that the run is there; further than the run leads,
/// it is at its end.
#[tactic(auto, unfolding(ss_messages::specs::Messages::posted_all), using(ss_messages::proofs::Posts::posted_both))]
pub fn go_to<S: SetBoard>(
    debugger: &mut Debugger<S>,
    desk: &mut Desk,
    request: &Request,
    post: &mut Post,
    target: u64,
) -> Result<(), AllocError>
    requires { post.old.sent + 3 < 2 ^ 64 - 1 }
    ensures input { debugger.new.machine.input ≡ debugger.old.machine.input }
    ensures symbols { desk.new.symbols ≡ desk.old.symbols }
    ensures sent { OnOk result (post.new ≡ posted_all request.now post.old
        (answer_to_goto (adapter_state_of debugger.old desk.old) target)) }
    ensures state { OnOk result (adapter_state_of debugger.new desk.new
        ≡ behind_goto (adapter_state_of debugger.old desk.old) target) }
{
    let mut answer = Vec::new(post.alloc());
    make(debugger, Going::Traced(Movement::Go(target)), &mut answer)?;
    post.reply(request, NOTHING)?;
    tell_report(debugger, desk, request, post)?;
    tell_stop(request, post, b"goto", without_last(&answer), None)
}

//! Requests that move the run.
ghost use Rattle.std.specs.Prelude.{◌≡◌, ◌+◌, ◌-◌, ◌^◌, ◌<◌, codes, IfOk, OnOk};
ghost use Rattle.ss_debug.specs.View.{debugger_state_of};
ghost use Rattle.ss_messages.specs.Messages.{posted_all};
ghost use Rattle.ss_adapter.specs.Going.{state_behind};
ghost use Rattle.ss_adapter.specs.Turn.{adapter_state_of, adapter_state_at, reply_with_going};
ghost use Rattle.ss_adapter.specs.Turn.{going_to_stop, answer_to_configuration, behind_configuring};

use crate::desk::Desk;
use crate::going::{Going, make_watched, run_going};
use crate::reach::Way;
use crate::telling::{MovementEnd, tell_here, tell_movement};
use ss_debug::Debugger;
use ss_links::SetBoard;
use ss_messages::{NOTHING, Post, Request};
use ss_trace::Movement;
use std::alloc::{AllocError, Global};

/// Makes a movement that a request asks for.
#[tactic(auto, unfolding(ss_messages::specs::Messages::posted_all))]
pub fn go<S: SetBoard>(
    debugger: &mut Debugger<S>,
    desk: &mut Desk,
    request: &Request,
    post: &mut Post,
    going: Going,
) -> Result<(), AllocError>
    requires { post.old.sent + 3 < 2 ^ 64 - 1 }
    ensures input { debugger.new.machine.input ≡ debugger.old.machine.input }
    ensures symbols { desk.new.symbols ≡ desk.old.symbols }
    ensures sent { OnOk result (post.new ≡ posted_all request.now post.old
        (reply_with_going (adapter_state_of debugger.old desk.old) (codes "{}") going)) }
    ensures state { OnOk result (adapter_state_of debugger.new desk.new
        ≡ adapter_state_at (adapter_state_of debugger.old desk.old)
        (state_behind debugger.old.machine.input (debugger_state_of debugger.old) going)) }
{
    let mut answer = Vec::new(post.alloc());
    let changed = make_watched(debugger, going, &mut answer)?;
    post.reply(request, NOTHING)?;
    let end = MovementEnd {
        answer: &answer,
        changed,
    };
    tell_movement(debugger, desk, request, post, end)
}

/// The movement to the stop of the run; if the run is not debugged, to its end.
///
/// `AllocError` if memory was refused; then the debugger may be elsewhere in the same run.
fn going_to_stop<S: SetBoard>(
    alloc: Global,
    debugger: &mut Debugger<S>,
    desk: &Desk,
) -> Result<Going, AllocError>
    ensures input { debugger.new.machine.input ≡ debugger.old.machine.input }
    ensures state { OnOk result (debugger_state_of debugger.new
        ≡ debugger_state_of debugger.old) }
    ensures going { IfOk result (λ going. going
        ≡ going_to_stop (adapter_state_of debugger.old desk.now)) }
{
    if desk.stops.at_points {
        return run_going(alloc, debugger, &desk.watched, Way::Forward);
    }
    Ok(Going::Traced(Movement::GoEnd))
}

/// configurationDone: the run stops at its position, or runs.
#[tactic(auto, unfolding(ss_messages::specs::Messages::posted_all))]
pub fn configure<S: SetBoard>(
    debugger: &mut Debugger<S>,
    desk: &mut Desk,
    request: &Request,
    post: &mut Post,
) -> Result<(), AllocError>
    requires { post.old.sent + 3 < 2 ^ 64 - 1 }
    ensures input { debugger.new.machine.input ≡ debugger.old.machine.input }
    ensures symbols { desk.new.symbols ≡ desk.old.symbols }
    ensures sent { OnOk result (post.new ≡ posted_all request.now post.old
        (answer_to_configuration (adapter_state_of debugger.old desk.old))) }
    ensures state { OnOk result (adapter_state_of debugger.new desk.new
        ≡ behind_configuring (adapter_state_of debugger.old desk.old)) }
{
    if desk.stops.at_start {
        return tell_here(debugger, request, post, b"entry");
    }
    let going = going_to_stop(post.alloc(), debugger, desk)?;
    go(debugger, desk, request, post, going)?;
    desk.stops.at_start = true;
    Ok(())
}

//! One turn of the adapter: a request is answered.
ghost use Rattle.std.specs.Prelude.{◌≡◌, ◌+◌, ◌-◌, ◌^◌, ◌<◌, None, if◌then◌else◌, IfOk, OnOk};
ghost use Rattle.ss_check.specs.Asked.{IsSymbolsOf};
ghost use Rattle.ss_messages.specs.Messages.{posted_all};
ghost use Rattle.ss_adapter.specs.Turn.{adapter_state_of, told_debugged, left_debugged, point_count};
ghost use Rattle.ss_adapter.specs.Turn.{told_of, left_by, answers, answers_elsewhere, state_after, further_of};

use crate::asking::look;
use crate::console::obey_line;
use crate::desk::Desk;
use crate::going::asked_movement;
use crate::moving::{configure, go};
use crate::setting::{refuse_points, set_breaks, set_section_breaks, set_watch};
use crate::targets::{go_to, tell_targets};
use ss_debug::Debugger;
use ss_links::SetBoard;
use ss_messages::{Command, Post, Request};
use std::alloc::AllocError;

/// Whether a session goes on after a request.
#[derive(Clone, Copy)]
pub enum Further {
    /// The next request is read.
    On,
    /// The request ends the session.
    Ended,
}

/// Answers a request that asks for no movement, if all its break points may be set.
#[tactic(auto, unfolding(crate::specs::Turn::told_debugged, crate::specs::Turn::left_debugged))]
fn answer_debugged<S: SetBoard>(
    debugger: &mut Debugger<S>,
    desk: &mut Desk,
    request: &Request,
    post: &mut Post,
) -> Result<(), AllocError>
    requires symbols { IsSymbolsOf debugger.old.machine.input.program desk.old.symbols }
    requires sent { post.old.sent + 3 < 2 ^ 64 - 1 }
    ensures input { debugger.new.machine.input ≡ debugger.old.machine.input }
    ensures symbols { desk.new.symbols ≡ desk.old.symbols }
    ensures sent { OnOk result (post.new ≡ posted_all request.now post.old
        (told_debugged (adapter_state_of debugger.old desk.old) request.now.command)) }
    ensures state { OnOk result (adapter_state_of debugger.new desk.new
        ≡ left_debugged (adapter_state_of debugger.old desk.old) request.now.command) }
{
    match &request.command {
        Command::SetBreakpoints(_, points) => {
            set_breaks(debugger, desk, request, post, points.as_slice())
        }
        Command::SetFunctionBreakpoints(names) => {
            set_section_breaks(debugger, desk, request, post, names.as_slice())
        }
        Command::SetDataBreakpoints(ids) => {
            set_watch(debugger, desk, request, post, ids.as_slice())
        }
        Command::ConfigurationDone => configure(debugger, desk, request, post),
        Command::GotoTargets(_, line) => tell_targets(debugger, desk, request, post, *line),
        Command::Goto(target) => go_to(debugger, desk, request, post, *target),
        Command::Obey(text) => obey_line(debugger, desk, request, post, text.as_slice()),
        _ => look(debugger, desk, request, post),
    }
}

/// How many break points a request sets.
fn point_count(command: &Command) -> Option<usize>
    ensures { result ≡ point_count command.now }
{
    match command {
        Command::SetBreakpoints(_, points) => Some(points.as_slice().len()),
        Command::SetFunctionBreakpoints(names) => Some(names.as_slice().len()),
        Command::SetDataBreakpoints(ids) => Some(ids.as_slice().len()),
        _ => None,
    }
}

/// How many of them are not set, since the run is not debugged.
fn undebugged_count(at_points: bool, command: &Command) -> Option<usize>
    ensures { result ≡ if at_points then None else point_count command.now }
{
    if at_points {
        None
    } else {
        point_count(command)
    }
}

/// Answers a request that asks for no movement.
fn answer_standing<S: SetBoard>(
    debugger: &mut Debugger<S>,
    desk: &mut Desk,
    request: &Request,
    post: &mut Post,
) -> Result<(), AllocError>
    requires symbols { IsSymbolsOf debugger.old.machine.input.program desk.old.symbols }
    requires sent { post.old.sent + 3 < 2 ^ 64 - 1 }
    ensures input { debugger.new.machine.input ≡ debugger.old.machine.input }
    ensures symbols { desk.new.symbols ≡ desk.old.symbols }
    ensures sent { OnOk result (post.new ≡ posted_all request.now post.old
        (told_of (adapter_state_of debugger.old desk.old) request.now.command)) }
    ensures state { OnOk result (adapter_state_of debugger.new desk.new
        ≡ left_by (adapter_state_of debugger.old desk.old) request.now.command) }
{
    match undebugged_count(desk.stops.at_points, &request.command) {
        Some(count) => refuse_points(request, post, b"the run is not debugged", count),
        None => answer_debugged(debugger, desk, request, post),
    }
}

/// Whether the session goes on.
pub(crate) fn further_behind(command: &Command) -> Further
    ensures { result ≡ further_of command.now }
{
    match command {
        Command::Disconnect => Further::Ended,
        _ => Further::On,
    }
}

/// Why a request is not heeded that speaks of a file other than the model.
const ELSEWHERE: &[u8] = b"a file other than the model";

/// Answers a request that speaks of a file other than the model: of its break points none is set.
#[tactic(auto, unfolding(ss_messages::specs::Messages::posted_all))]
fn refuse_elsewhere(request: &Request, post: &mut Post) -> Result<(), AllocError>
    requires { post.old.sent < 2 ^ 64 - 1 }
    ensures { OnOk result (post.new
        ≡ posted_all request.now post.old (answers_elsewhere request.now.command)) }
{
    match &request.command {
        Command::SetBreakpoints(_, points) => {
            refuse_points(request, post, ELSEWHERE, points.as_slice().len())
        }
        _ => post.fail(request, ELSEWHERE),
    }
}

/// One turn of a request that speaks of a file other than the model: it is not heeded, and the run is
/// not asked.
pub fn turn_elsewhere(request: &Request, post: &mut Post) -> Result<Further, AllocError>
    requires { post.old.sent < 2 ^ 64 - 1 }
    ensures sent { OnOk result (post.new
        ≡ posted_all request.now post.old (answers_elsewhere request.now.command)) }
    ensures further { IfOk result (λ further. further ≡ further_of request.now.command) }
{
    refuse_elsewhere(request, post)?;
    Ok(further_behind(&request.command))
}

/// One turn: obeys a request, and posts its reply and the events that follow it.
pub(crate) fn turn<S: SetBoard>(
    debugger: &mut Debugger<S>,
    desk: &mut Desk,
    request: &Request,
    post: &mut Post,
) -> Result<Further, AllocError>
    requires symbols { IsSymbolsOf debugger.old.machine.input.program desk.old.symbols }
    requires sent { post.old.sent + 3 < 2 ^ 64 - 1 }
    ensures input { debugger.new.machine.input ≡ debugger.old.machine.input }
    ensures symbols { desk.new.symbols ≡ desk.old.symbols }
    ensures sent { OnOk result (post.new ≡ posted_all request.now post.old
        (answers (adapter_state_of debugger.old desk.old) request.now.command)) }
    ensures state { OnOk result (adapter_state_of debugger.new desk.new
        ≡ state_after (adapter_state_of debugger.old desk.old) request.now.command) }
    ensures further { IfOk result (λ further. further ≡ further_of request.now.command) }
{
    match asked_movement(post.alloc(), debugger, &desk.watched, &request.command)? {
        Some(going) => go(debugger, desk, request, post, going)?,
        None => answer_standing(debugger, desk, request, post)?,
    }
    Ok(further_behind(&request.command))
}

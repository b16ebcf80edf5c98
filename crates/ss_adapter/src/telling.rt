//! The messages after a movement: new output, and the position of the run.
ghost use Rattle.std.specs.Prelude.{◌≡◌, ◌+◌, ◌-◌, ◌^◌, ◌<◌, ◌≤◌, IfOk, OnOk, None};
ghost use Rattle.ss_machine.specs.Moment.{position};
ghost use Rattle.ss_debug.specs.View.{debugger_state_of};
ghost use Rattle.ss_messages.specs.Messages.{posted_with, posted_all};
ghost use Rattle.ss_adapter.specs.Turn.{told_with, report_at, untold_output, stopped_event, behind_movement};
ghost use Rattle.ss_adapter.specs.Turn.{reply_with_stop};
ghost use Rattle.ss_adapter.specs.Turn.{change_text, change_event, exit_events, stop_events, end_of};

use crate::desk::Desk;
use crate::fixed::NO_EXIT;
use crate::looking::{hit, is_over, reason};
use ss_debug::{Debugger, Question};
use ss_links::SetBoard;
use ss_messages::{NOTHING, Post, Request, output_body, stopped_body, without_last};
use std::alloc::{AllocError, Global};

/// Sends the part of the report that is not sent yet, and notes how much is.
#[tactic(auto, unfolding(ss_messages::specs::Messages::posted_all))]
pub fn tell_report<S: SetBoard>(
    debugger: &Debugger<S>,
    desk: &mut Desk,
    request: &Request,
    post: &mut Post,
) -> Result<(), AllocError>
    requires { post.old.sent < 2 ^ 64 - 1 }
    ensures symbols { desk.new.symbols ≡ desk.old.symbols }
    ensures sent { OnOk result (post.new ≡ posted_all request.now post.old
        (untold_output desk.old.told (report_at debugger.now.machine.input
        (debugger_state_of debugger.now)))) }
    ensures count { OnOk result (post.new.sent ≤ post.old.sent + 1) }
    ensures desk { OnOk result (desk.new ≡ told_with desk.old
        (report_at debugger.now.machine.input (debugger_state_of debugger.now))) }
{
    debugger.machine().known();
    let report = debugger.machine().report();
    if desk.told < report.len() {
        let body = output_body(post.alloc(), b"stdout", &report[desk.told..])?;
        post.event(request, b"output", &body)?;
        desk.told = report.len();
    }
    Ok(())
}

/// Sends that the run is at its position, for this reason, and at which break point, if it is at
/// one.
pub fn tell_stop(
    request: &Request,
    post: &mut Post,
    reason: &'static [u8],
    text: &[u8],
    hit: Option<u64>,
) -> Result<(), AllocError>
    requires { post.old.sent < 2 ^ 64 - 1 }
    ensures { OnOk result (post.new
        ≡ posted_with request.now post.old (stopped_event reason.now text.now hit)) }
{
    let body = stopped_body(post.alloc(), reason, text, hit)?;
    post.event(request, b"stopped", &body)
}

/// The text at the change of a question: the answer, and the question.
fn change_text(alloc: Global, answer: &[u8], question: &[u8]) -> Result<Vec<u8>, AllocError>
    ensures { IfOk result (λ text. text.items ≡ change_text answer.now question.now) }
{
    let mut text = without_last(answer).to_vec(alloc)?;
    text.extend_from_slice(b": ")?;
    text.extend_from_slice(question)?;
    Ok(text)
}

/// Sends that a movement, of which this is the answer, ended at the change of the data break point
/// in this place.
fn tell_change(
    request: &Request,
    post: &mut Post,
    answer: &[u8],
    place: usize,
    question: &[u8],
) -> Result<(), AllocError>
    requires sent { post.old.sent < 2 ^ 64 - 1 }
    requires place { place < 2 ^ 64 - 1 }
    ensures { OnOk result (post.new
        ≡ posted_with request.now post.old (change_event answer.now place question.now)) }
{
    let text = change_text(post.alloc(), answer, question)?;
    tell_stop(
        request,
        post,
        b"data breakpoint",
        &text,
        Some(place as u64 + 1),
    )
}

/// Sends that the run is over for the editor.
#[tactic(auto, unfolding(ss_messages::specs::Messages::posted_all))]
pub fn tell_over(request: &Request, post: &mut Post) -> Result<(), AllocError>
    requires { post.old.sent + 1 < 2 ^ 64 - 1 }
    ensures { OnOk result (post.new ≡ posted_all request.now post.old exit_events) }
{
    post.event(request, b"terminated", NOTHING)?;
    post.event(request, b"exited", NO_EXIT)
}

/// Sends that a movement with this answer ended at the run's position. The run stops there, or is
/// over, if it is at its end and doesn't stop there.
#[tactic(auto, unfolding(ss_messages::specs::Messages::posted_all))]
fn tell_ended<S: SetBoard>(
    debugger: &Debugger<S>,
    at_end: bool,
    request: &Request,
    post: &mut Post,
    answer: &[u8],
) -> Result<(), AllocError>
    requires { post.old.sent + 1 < 2 ^ 64 - 1 }
    ensures { OnOk result (post.new ≡ posted_all request.now post.old (stop_events
        debugger.now.machine.input (debugger_state_of debugger.now) at_end answer.now)) }
{
    if is_over(debugger.machine(), at_end) {
        return tell_over(request, post);
    }
    let hit = hit(debugger);
    tell_stop(request, post, reason(debugger), without_last(answer), hit)
}

/// How a movement ended.
#[derive(Clone, Copy)]
pub struct MovementEnd<'a> {
    /// Its answer.
    pub answer: &'a [u8],
    /// The place of the data break point at whose change it ended, if it ended at one.
    pub changed: Option<usize>,
}

/// Sends the end of a movement: perhaps at the change of a data break point.
#[tactic(auto, unfolding(ss_messages::specs::Messages::posted_all))]
fn tell_end<S: SetBoard>(
    debugger: &Debugger<S>,
    desk: &Desk,
    request: &Request,
    post: &mut Post,
    end: MovementEnd<'_>,
) -> Result<(), AllocError>
    requires { post.old.sent + 1 < 2 ^ 64 - 1 }
    ensures { OnOk result (post.new ≡ posted_all request.now post.old (end_of
        debugger.now.machine.input (debugger_state_of debugger.now) desk.now.stops.at_end
        desk.now.watched end.entry.answer.now end.entry.changed)) }
{
    let at_end = desk.stops.at_end;
    let Some(place) = end.changed else {
        return tell_ended(debugger, at_end, request, post, end.answer);
    };
    match desk.watched.get(place) {
        None => tell_ended(debugger, at_end, request, post, end.answer),
        Some(question) => tell_change(request, post, end.answer, place, question.as_slice()),
    }
}

/// Sends the messages after a movement that ended so.
#[tactic(auto, using(ss_messages::proofs::Posts::posted_both))]
pub fn tell_movement<S: SetBoard>(
    debugger: &Debugger<S>,
    desk: &mut Desk,
    request: &Request,
    post: &mut Post,
    end: MovementEnd<'_>,
) -> Result<(), AllocError>
    requires { post.old.sent + 2 < 2 ^ 64 - 1 }
    ensures symbols { desk.new.symbols ≡ desk.old.symbols }
    ensures sent { OnOk result (post.new ≡ posted_all request.now post.old
        (behind_movement debugger.now.machine.input desk.old (debugger_state_of debugger.now)
        end.entry.answer.now end.entry.changed)) }
    ensures desk { OnOk result (desk.new ≡ told_with desk.old
        (report_at debugger.now.machine.input (debugger_state_of debugger.now))) }
{
    tell_report(debugger, desk, request, post)?;
    tell_end(debugger, desk, request, post, end)
}

/// Sends the position of the run.
#[tactic(auto, unfolding(ss_messages::specs::Messages::posted_all))]
pub fn tell_here<S: SetBoard>(
    debugger: &Debugger<S>,
    request: &Request,
    post: &mut Post,
    reason: &'static [u8],
) -> Result<(), AllocError>
    requires { post.old.sent + 1 < 2 ^ 64 - 1 }
    ensures { OnOk result (post.new ≡ posted_all request.now post.old
        (reply_with_stop debugger.now.machine.input (position debugger.now.machine) reason.now)) }
{
    post.reply(request, NOTHING)?;
    let line = debugger.answer_to(&Question::Where)?;
    tell_stop(request, post, reason, without_last(&line), None)
}

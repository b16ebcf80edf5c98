//! Requests that set break points.
ghost use Rattle.std.specs.Prelude.{◌≡◌, ◌-◌, ◌^◌, ◌<◌, ◌∷◌, [], codes, OnOk};
ghost use Rattle.ss_check.specs.Asked.{IsSymbolsOf};
ghost use Rattle.ss_messages.specs.Bodies.{list_body};
ghost use Rattle.ss_messages.specs.Messages.{posted_all, reply};
ghost use Rattle.ss_adapter.specs.Turn.{adapter_state_of, first_points, setting_in, sections_in, answer_unset};
ghost use Rattle.ss_adapter.specs.Turn.{behind_setting, behind_sections, behind_watching};
ghost use Rattle.ss_adapter.specs.Watch.{watching_of};

use crate::breaks::{SetPoints, push_all_unset, set_lines, set_sections};
use crate::desk::Desk;
use crate::watch::watch;
use ss_debug::Debugger;
use ss_links::SetBoard;
use ss_messages::{LinePoint, Post, Request, Text, list_body};
use std::alloc::AllocError;

/// The most break points of a request for lines that are answered.
const MOST_POINTS: usize = 1_000;

/// The first of some break points, `limit` at most.
#[tactic(auto, unfolding(crate::specs::Turn::first_points), using(std::proofs::lemmas::List::take_all))]
fn first_points(points: &[LinePoint], limit: usize) -> &[LinePoint]
    ensures { result.now ≡ first_points limit points.now }
{
    if points.len() <= limit {
        return points;
    }
    &points[..limit]
}

/// Sets the break lines of a request.
#[tactic(auto, unfolding(ss_messages::specs::Messages::posted_all))]
pub fn set_breaks<S: SetBoard>(
    debugger: &mut Debugger<S>,
    desk: &mut Desk,
    request: &Request,
    post: &mut Post,
    points: &[LinePoint],
) -> Result<(), AllocError>
    requires symbols { IsSymbolsOf debugger.old.machine.input.program desk.old.symbols }
    requires sent { post.old.sent < 2 ^ 64 - 1 }
    ensures input { debugger.new.machine.input ≡ debugger.old.machine.input }
    ensures symbols { desk.new.symbols ≡ desk.old.symbols }
    ensures sent { OnOk result (post.new ≡ posted_all request.now post.old (reply
        (list_body (codes "breakpoints")
        (setting_in (adapter_state_of debugger.old desk.old) points.now).text) ∷ [])) }
    ensures state { OnOk result (adapter_state_of debugger.new desk.new
        ≡ behind_setting (adapter_state_of debugger.old desk.old)
        (setting_in (adapter_state_of debugger.old desk.old) points.now)) }
{
    let asked = first_points(points, MOST_POINTS);
    let SetPoints { lines, text } = set_lines(desk.pen(post), debugger, desk, asked)?;
    desk.set = lines;
    let body = list_body(post.alloc(), b"breakpoints", &text)?;
    post.reply(request, &body)
}

/// Answers a request for `count` break points; none of them is set, for this reason.
#[tactic(auto, unfolding(ss_messages::specs::Messages::posted_all))]
pub fn refuse_points(
    request: &Request,
    post: &mut Post,
    reason: &'static [u8],
    count: usize,
) -> Result<(), AllocError>
    requires { post.old.sent < 2 ^ 64 - 1 }
    ensures { OnOk result (post.new
        ≡ posted_all request.now post.old (answer_unset reason.now count)) }
{
    let mut text = Vec::new(post.alloc());
    push_all_unset(post.alloc(), &mut text, reason, count)?;
    let body = list_body(post.alloc(), b"breakpoints", &text)?;
    post.reply(request, &body)
}

/// Sets the break lines of the sections of a request.
#[tactic(auto, unfolding(ss_messages::specs::Messages::posted_all))]
pub fn set_section_breaks<S: SetBoard>(
    debugger: &mut Debugger<S>,
    desk: &mut Desk,
    request: &Request,
    post: &mut Post,
    names: &[Option<Text>],
) -> Result<(), AllocError>
    requires { post.old.sent < 2 ^ 64 - 1 }
    ensures input { debugger.new.machine.input ≡ debugger.old.machine.input }
    ensures symbols { desk.new.symbols ≡ desk.old.symbols }
    ensures sent { OnOk result (post.new ≡ posted_all request.now post.old (reply
        (list_body (codes "breakpoints")
        (sections_in (adapter_state_of debugger.old desk.old) names.now).text) ∷ [])) }
    ensures state { OnOk result (adapter_state_of debugger.new desk.new
        ≡ behind_sections (adapter_state_of debugger.old desk.old)
        (sections_in (adapter_state_of debugger.old desk.old) names.now)) }
{
    let SetPoints { lines, text } = set_sections(desk.pen(post), debugger, desk, names)?;
    desk.sections = lines;
    let body = list_body(post.alloc(), b"breakpoints", &text)?;
    post.reply(request, &body)
}

/// Sets the data break points of a request.
#[tactic(auto, unfolding(ss_messages::specs::Messages::posted_all))]
pub fn set_watch<S: SetBoard>(
    debugger: &Debugger<S>,
    desk: &mut Desk,
    request: &Request,
    post: &mut Post,
    ids: &[Option<Text>],
) -> Result<(), AllocError>
    requires { post.old.sent < 2 ^ 64 - 1 }
    ensures symbols { desk.new.symbols ≡ desk.old.symbols }
    ensures sent { OnOk result (post.new ≡ posted_all request.now post.old (reply
        (list_body (codes "breakpoints")
        (watching_of debugger.now.machine.input.program ids.now).text) ∷ [])) }
    ensures state { OnOk result (adapter_state_of debugger.now desk.new
        ≡ behind_watching (adapter_state_of debugger.now desk.old)
        (watching_of debugger.now.machine.input.program ids.now).watched) }
{
    let program = debugger.machine().program();
    let mut text = Vec::new(post.alloc());
    watch(post.alloc(), program, &mut desk.watched, &mut text, ids)?;
    let body = list_body(post.alloc(), b"breakpoints", &text)?;
    post.reply(request, &body)
}

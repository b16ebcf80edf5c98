//! The answers before a run is launched.
ghost use Rattle.std.specs.Prelude.{◌≡◌, ◌+◌, ◌-◌, ◌^◌, ◌<◌, IfOk, OnOk};
ghost use Rattle.ss_messages.specs.Messages.{posted_all};
ghost use Rattle.ss_adapter.specs.Before.{answers_before};
ghost use Rattle.ss_adapter.specs.Turn.{further_of};

use crate::asking::terminate;
use crate::fixed::CAPABILITIES;
use crate::turns::{Further, further_behind};
use ss_messages::{Command, NOTHING, Post, Request};
use std::alloc::AllocError;

/// Answers a request other than launch, before a run is launched.
#[tactic(auto, unfolding(ss_messages::specs::Messages::posted_all, crate::specs::Before::answers_before))]
fn answer_before(request: &Request, post: &mut Post) -> Result<(), AllocError>
    requires { post.old.sent + 2 < 2 ^ 64 - 1 }
    ensures { OnOk result (post.new
        ≡ posted_all request.now post.old (answers_before request.now.command)) }
{
    match &request.command {
        Command::Initialize(_) => post.reply(request, CAPABILITIES),
        Command::Disconnect => post.reply(request, NOTHING),
        Command::Terminate => terminate(request, post),
        Command::Missing(argument) => post.fail(request, argument.wanted_text()),
        Command::Unknown => post.fail(request, b"unknown request"),
        _ => post.fail(request, b"no run is launched"),
    }
}

/// Answers a request before a run is launched, but for launch.
pub fn turn_before(request: &Request, post: &mut Post) -> Result<Further, AllocError>
    requires { post.old.sent + 2 < 2 ^ 64 - 1 }
    ensures sent { OnOk result (post.new
        ≡ posted_all request.now post.old (answers_before request.now.command)) }
    ensures further { IfOk result (λ further. further ≡ further_of request.now.command) }
{
    answer_before(request, post)?;
    Ok(further_behind(&request.command))
}

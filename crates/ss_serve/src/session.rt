//! The session itself: the loop of request and answer over a channel.
ghost use Rattle.std.specs.Prelude.{◌≡◌, ◌<◌, ◌^◌, [], IfOk, IfErr, OnOk};
ghost use Rattle.ss_serve.specs.Faults.{broken_after};
ghost use Rattle.ss_serve.specs.Seen.{seen_of};
ghost use Rattle.ss_serve.specs.Session.{HasEnded};
ghost use Rattle.ss_serve.specs.Steps.{IsAsked, NoneAsked, IsAnswered, Unanswered, IsStep};

use crate::answerer::Answerer;
use crate::channel::Channel;
use crate::fault::SessionFault;
use ss_console::Go;
use ss_messages::{Post, Request, read_request};
use std::alloc::Global;

/// The most messages that are sent: up to this, their numbers are exact as floats too.
const MOST_SENT: u64 = 1 << 53;

/// The next request, for which there are numbers left. `None` at the end of the stream.
fn next_request<C: Channel>(channel: &mut C, post: &Post) -> Result<Option<Request>, SessionFault>
    ensures ok { IfOk result (λ request. IsAsked request (seen_of (C.left channel.old)
        (C.left channel.new) (C.log channel.old) (C.log channel.new))) }
    ensures room { OnOk result (post.now.sent < 2 ^ 53) }
    ensures err { IfErr result (λ fault. NoneAsked post.now.sent (seen_of (C.left channel.old)
        (C.left channel.new) (C.log channel.old) (C.log channel.new)) fault) }
    ensures broken { C.broken channel.new ≡ broken_after result (C.broken channel.old) }
{
    if post.sent() >= MOST_SENT {
        return Err(SessionFault::Count);
    }
    match channel.receive()? {
        Some(body) => Ok(Some(read_request(post.alloc(), &body)?)),
        None => Ok(None),
    }
}

/// Answers a request: all messages that answer it are written.
fn answer_request<A: Answerer, C: Channel>(
    answerer: &mut A,
    channel: &mut C,
    post: &mut Post,
    request: &Request,
) -> Result<Go, SessionFault>
    requires room { post.old.sent < 2 ^ 53 }
    requires none { post.old.bytes ≡ [] }
    ensures ok { IfOk result (λ go. IsAnswered A.meaning (A.state answerer.old)
        (A.state answerer.new) request.now post.old.sent post.new
        (C.log channel.old) (C.log channel.new) go) }
    ensures err { IfErr result (λ fault. Unanswered A.meaning (A.state answerer.old) request.now
        post.old.sent (C.log channel.old) (C.log channel.new) fault) }
    ensures left { C.left channel.new ≡ C.left channel.old }
    ensures broken { C.broken channel.new ≡ broken_after result (C.broken channel.old) }
{
    let go = answerer.answer(request, post)?;
    channel.send(post.bytes())?;
    post.clear();
    Ok(go)
}

/// Answers the next request, if one comes.
fn answer_next<A: Answerer, C: Channel>(
    answerer: &mut A,
    channel: &mut C,
    post: &mut Post,
) -> Result<Go, SessionFault>
    requires none { post.old.bytes ≡ [] }
    ensures step { IsStep A.meaning (A.state answerer.old) (A.state answerer.new) post.old post.new
        (seen_of (C.left channel.old) (C.left channel.new) (C.log channel.old) (C.log channel.new))
        result }
    ensures broken { C.broken channel.new ≡ broken_after result (C.broken channel.old) }
{
    match next_request(channel, post)? {
        Some(request) => answer_request(answerer, channel, post, &request),
        None => Ok(Go::Quit),
    }
}

/// Answers requests, until one ends the session or the stream ends.
fn answer_all<A: Answerer, C: Channel>(
    answerer: &mut A,
    channel: &mut C,
    post: &mut Post,
) -> Result<(), SessionFault>
    requires none { post.old.bytes ≡ [] }
    ensures ended { HasEnded A.meaning (A.state answerer.old) (A.state answerer.new) post.old.sent
        (seen_of (C.left channel.old) (C.left channel.new) (C.log channel.old) (C.log channel.new))
        result }
    ensures broken { C.broken channel.new ≡ broken_after result (C.broken channel.old) }
{
    for _ in 0..u64::MAX {
        if answer_next(answerer, channel, post)? == Go::Quit {
            return Ok(());
        }
    }
    Err(SessionFault::Count)
}

/// Reads messages from a channel and answers them there.
///
/// Each message is answered whole before the next is read, and nothing else is written. The session
/// ends with the request that ends it, or with the stream.
pub fn serve<A: Answerer, C: Channel>(
    alloc: Global,
    answerer: &mut A,
    channel: &mut C,
) -> Result<(), SessionFault>
    ensures ended { HasEnded A.meaning (A.state answerer.old) (A.state answerer.new) 0
        (seen_of (C.left channel.old) (C.left channel.new) (C.log channel.old) (C.log channel.new))
        result }
    ensures broken { C.broken channel.new ≡ broken_after result (C.broken channel.old) }
{
    let mut post = Post::new(alloc);
    answer_all(answerer, channel, &mut post)
}

//! Replies and events.
ghost use Rattle.std.specs.Prelude.{◌≡◌, ◌++◌, decimal, IfOk, OnOk};
ghost use Rattle.ss_messages.specs.Messages.{message_text, response_head, reply_text, failure_text, event_text};

use crate::escape::{push_quoted, push_quoted_text};
use itoa::Buffer;
use std::alloc::{AllocError, Global};

/// Appends a number in least digits.
pub fn push_number(out: &mut Vec<u8>, number: u64) -> Result<(), AllocError>
    ensures { OnOk result (out.new.items ≡ out.old.items ++ decimal number) }
{
    let mut buffer = Buffer::new();
    out.extend_from_slice(buffer.format(number).as_bytes())
}

/// Appends a message with this body.
#[tactic(auto, unfolding(crate::specs::Messages::message_text))]
fn push_framed(out: &mut Vec<u8>, body: &[u8]) -> Result<(), AllocError>
    ensures { OnOk result (out.new.items ≡ out.old.items ++ message_text body.now) }
{
    out.extend_from_slice(b"Content-Length: ")?;
    push_number(out, body.len() as u64)?;
    out.extend_from_slice(b"\r\n\r\n")?;
    out.extend_from_slice(body)
}

/// The head of message `number`, which answers request `request` of this name.
fn response_head(
    alloc: Global,
    number: u64,
    request: u64,
    name: &[u8],
) -> Result<Vec<u8>, AllocError>
    ensures { IfOk result (λ text. text.items ≡ response_head number request name.now) }
{
    let mut text = Vec::new(alloc);
    text.extend_from_slice(b"{\"seq\":")?;
    push_number(&mut text, number)?;
    text.extend_from_slice(b",\"type\":\"response\",\"request_seq\":")?;
    push_number(&mut text, request)?;
    text.extend_from_slice(b",\"command\":")?;
    push_quoted_text(&mut text, name)?;
    Ok(text)
}

/// Appends message `number`: request `request` of this name is done, and this is its body, a JSON
/// value.
#[tactic(auto, unfolding(crate::specs::Messages::reply_text))]
pub fn push_reply(
    out: &mut Vec<u8>,
    number: u64,
    request: u64,
    name: &[u8],
    body: &[u8],
) -> Result<(), AllocError>
    ensures { OnOk result (out.new.items
        ≡ out.old.items ++ message_text (reply_text number request name.now body.now)) }
{
    let mut text = response_head(*out.allocator(), number, request, name)?;
    text.extend_from_slice(b",\"success\":true,\"body\":")?;
    text.extend_from_slice(body)?;
    text.extend_from_slice(b"}")?;
    push_framed(out, &text)
}

/// Appends message `number`: request `request` of this name is not done, for this reason.
#[tactic(auto, unfolding(crate::specs::Messages::failure_text))]
pub fn push_failure(
    out: &mut Vec<u8>,
    number: u64,
    request: u64,
    name: &[u8],
    reason: &[u8],
) -> Result<(), AllocError>
    ensures { OnOk result (out.new.items
        ≡ out.old.items ++ message_text (failure_text number request name.now reason.now)) }
{
    let mut text = response_head(*out.allocator(), number, request, name)?;
    text.extend_from_slice(b",\"success\":false,\"message\":")?;
    push_quoted(&mut text, reason)?;
    text.extend_from_slice(b"}")?;
    push_framed(out, &text)
}

/// Appends message `number`: an event of this name with this body, a JSON value.
#[tactic(auto, unfolding(crate::specs::Messages::event_text))]
pub fn push_event(
    alloc: Global,
    out: &mut Vec<u8>,
    number: u64,
    name: &[u8],
    body: &[u8],
) -> Result<(), AllocError>
    ensures { OnOk result (out.new.items
        ≡ out.old.items ++ message_text (event_text number name.now body.now)) }
{
    let mut text = Vec::new(alloc);
    text.extend_from_slice(b"{\"seq\":")?;
    push_number(&mut text, number)?;
    text.extend_from_slice(b",\"type\":\"event\",\"event\":\"")?;
    text.extend_from_slice(name)?;
    text.extend_from_slice(b"\",\"body\":")?;
    text.extend_from_slice(body)?;
    text.extend_from_slice(b"}")?;
    push_framed(out, &text)
}

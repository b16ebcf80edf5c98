//! Sessions over memory and over streams, and how each ends.
ghost use Rattle.std.specs.Prelude.{◌≤◌, length};

mod echo;

use crate::compare::same;
use crate::entries::tell;
use echo::Echo;
use ss_serve::{MemoryChannel, SessionFault, StreamChannel, serve};
use std::alloc::Global;
use std::io::{self, ErrorKind, Read};
use std::process::Abort;

/// A request. If it is the first, the answer to it is `ANSWERED`.
const ASKED: &[u8] = b"Content-Length: 29\r\n\r\n{\"seq\":1,\"command\":\"threads\"}";

/// A request that ends the session, after a line that is passed over.
const ENDED: &[u8] = b"Host: x\r\nContent-Length: 32\r\n\r\n{\"seq\":2,\"command\":\"disconnect\"}";

/// The events if the first request is read, in angle brackets, and answered.
const ANSWERED: &[u8] =
    b"<{\"seq\":1,\"command\":\"threads\"}>Content-Length: 87\r\n\r\n{\"seq\":1,\"type\":\"response\",\
    \"request_seq\":1,\"command\":\"threads\",\"success\":true,\"body\":0}";

/// The events if the second request is read and answered, after the first.
const LEFT: &[u8] =
    b"<{\"seq\":2,\"command\":\"disconnect\"}>Content-Length: 90\r\n\r\n{\"seq\":2,\"type\":\"response\",\
    \"request_seq\":2,\"command\":\"disconnect\",\"success\":true,\"body\":1}";

/// Some texts, one after the other.
fn joined(rt: &impl Abort, alloc: Global, texts: &[&[u8]]) -> Vec<u8> {
    let mut all = Vec::new(alloc);
    for text in texts {
        all.extend_from_slice(text).expect(rt, "room");
    }
    all
}

/// How many bytes a channel takes that is not to be full.
const AMPLE: usize = 1_000;

/// What is read of a channel, and how many bytes it takes.
type Given<T> = (T, usize);

/// Holds a session over memory, and compares how it ends and its events.
fn holds(
    rt: &impl Abort,
    alloc: Global,
    given: Given<&[u8]>,
    ended: Result<(), SessionFault>,
    events: &[u8],
) {
    let (text, room) = given;
    let mut channel = MemoryChannel::new(alloc, text, room);
    same(rt, serve(alloc, &mut Echo::new(), &mut channel), ended);
    tell(rt, alloc, channel.entries(), events);
    drop(channel);
}

/// The same of texts and events in pieces.
fn answers(
    rt: &impl Abort,
    alloc: Global,
    given: Given<&[&[u8]]>,
    ended: Result<(), SessionFault>,
    events: &[&[u8]],
) {
    let (texts, room) = given;
    let text = joined(rt, alloc, texts);
    let events = joined(rt, alloc, events);
    holds(rt, alloc, (&text, room), ended, &events);
    drop(events);
    drop(text);
}

#[test]
fn each_request_is_answered_before_the_next(rt: HostRuntime) {
    let alloc = rt.alloc();
    let refused = Err(SessionFault::NoRequest);
    answers(&rt, alloc, (&[], AMPLE), Ok(()), &[]);
    answers(&rt, alloc, (&[ASKED], AMPLE), Ok(()), &[ANSWERED]);
    let done = &[ANSWERED, LEFT];
    answers(&rt, alloc, (&[ASKED, ENDED], AMPLE), Ok(()), done);
    answers(&rt, alloc, (&[ASKED, ENDED, ASKED], AMPLE), Ok(()), done);
    answers(&rt, alloc, (&[ASKED, b"\n"], AMPLE), refused, &[ANSWERED]);
    answers(&rt, alloc, (&[b"\r\n"], AMPLE), refused, &[]);
    let unasked = b"Content-Length: 2\n\n{}";
    answers(&rt, alloc, (&[unasked], AMPLE), refused, &[b"<{}>"]);
    let begun = b"<{\"seq\":1,\"command\":\"threads\"}>Content";
    let full = Err(SessionFault::CannotWrite);
    answers(&rt, alloc, (&[ASKED], 7), full, &[begun]);
}

/// Cuts a stream of two requests, and compares how the session ends and its events.
fn cuts(rt: &impl Abort, alloc: Global, both: &[u8], cut: usize)
    requires { cut ≤ length both.now }
{
    let ended = if cut == 0 || cut == ASKED.len() {
        Ok(())
    } else {
        Err(SessionFault::CannotRead)
    };
    let events = if cut < ASKED.len() {
        b"".as_slice()
    } else {
        ANSWERED
    };
    holds(rt, alloc, (&both[..cut], AMPLE), ended, events);
}

#[test]
fn a_stream_is_cut_anywhere(rt: HostRuntime) {
    let alloc = rt.alloc();
    let both = joined(&rt, alloc, &[ASKED, ENDED]);
    for cut in 0..both.len() {
        cuts(&rt, alloc, &both, cut);
    }
    drop(both);
}

/// A reader that gives a byte at a time, and is interrupted before each; in the end it fails, if
/// `fails`.
#[derive(Drop)]
struct Slow<'a> {
    text: &'a [u8],
    interrupted: bool,
    fails: bool,
}

impl Read for Slow<'_> {
    fn read(&mut self, buf: &mut [u8]) -> io::Result<usize> {
        self.interrupted = !self.interrupted;
        if self.interrupted {
            return Err(io::Error::from(ErrorKind::Interrupted));
        }
        if self.text.is_empty() && self.fails {
            return Err(io::Error::from(ErrorKind::Other));
        }
        if self.text.is_empty() || buf.is_empty() {
            return Ok(0);
        }
        buf[0] = self.text[0];
        self.text = &self.text[1..];
        Ok(1)
    }
}

/// Holds a session over a slow reader, and compares how it ends and the bytes that are written.
fn reads_slowly(rt: &impl Abort, alloc: Global, fails: bool, ended: Result<(), SessionFault>) {
    let reader = Slow {
        text: ASKED,
        interrupted: false,
        fails,
    };
    let mut out = Vec::new(alloc);
    let mut channel = StreamChannel::new(alloc, reader, &mut out);
    same(rt, serve(alloc, &mut Echo::new(), &mut channel), ended);
    drop(channel);
    same(rt, out.as_slice(), &ANSWERED[31..]);
    drop(out);
}

#[test]
fn streams_are_read_in_any_pieces(rt: HostRuntime) {
    reads_slowly(&rt, rt.alloc(), false, Ok(()));
    reads_slowly(&rt, rt.alloc(), true, Err(SessionFault::CannotRead));
}

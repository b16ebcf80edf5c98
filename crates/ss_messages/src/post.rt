//! The messages that a request is answered with, numbered one after the other.
ghost use Rattle.std.specs.Prelude.{◌≡◌, ◌+◌, ◌-◌, ◌^◌, ◌<◌, [], IfOk, OnOk};
ghost use Rattle.ss_messages.specs.Messages.{reply, failure, event, posted_with};

use crate::messages::{push_event, push_failure, push_reply};
use crate::request::Request;
use std::alloc::{AllocError, Global};
use std::marker::Model;

/// Messages that are to be written. They are numbered from 1 on. The numbers go on after those of
/// the messages that were written before.
#[derive(Drop)]
pub struct Post {
    alloc: Global,
    sent: u64,
    bytes: Vec<u8>,
}

impl Model for Post {
    ghost use Rattle.ss_messages.specs.Messages.{PostView};

    ghost Value = { PostView };

    ghost view = { λ p. record { sent = p.sent; bytes = p.bytes.items } };
}

impl Post {
    /// No message yet; takes no memory.
    pub fn new(alloc: Global) -> Self
        ensures { result ≡ record { sent = 0; bytes = [] } }
    {
        Post {
            alloc,
            sent: 0,
            bytes: Vec::new(alloc),
        }
    }

    /// The same messages, in memory of their own.
    pub fn copied(&self) -> Result<Self, AllocError>
        ensures { IfOk result (λ post. post ≡ self.now) }
    {
        let bytes = self.bytes.to_vec(self.alloc)?;
        Ok(Post {
            alloc: self.alloc,
            sent: self.sent,
            bytes,
        })
    }

    /// How many messages were numbered.
    pub fn sent(&self) -> u64
        ensures { result ≡ self.now.sent }
    {
        self.sent
    }

    /// The bytes that are to be written.
    pub fn bytes(&self) -> &[u8]
        ensures { result.now ≡ self.now.bytes }
    {
        &self.bytes
    }

    /// They are written; the numbers go on.
    pub fn clear(&mut self)
        ensures { self.new ≡ record { sent = self.old.sent; bytes = [] } }
    {
        self.bytes.clear();
    }

    /// The allocator.
    pub fn alloc(&self) -> Global {
        self.alloc
    }

    /// A request is done, and this is the body of the reply, a JSON value.
    pub fn reply(&mut self, request: &Request, body: &[u8]) -> Result<(), AllocError>
        requires { self.old.sent < 2 ^ 64 - 1 }
        ensures { OnOk result (self.new ≡ posted_with request.now self.old (reply body.now)) }
    {
        let number = self.sent + 1;
        let name = request.name.as_slice();
        push_reply(&mut self.bytes, number, request.number, name, body)?;
        self.sent = number;
        Ok(())
    }

    /// A request is not done, for this reason.
    pub fn fail(&mut self, request: &Request, reason: &[u8]) -> Result<(), AllocError>
        requires { self.old.sent < 2 ^ 64 - 1 }
        ensures { OnOk result (self.new ≡ posted_with request.now self.old (failure reason.now)) }
    {
        let number = self.sent + 1;
        let name = request.name.as_slice();
        push_failure(&mut self.bytes, number, request.number, name, reason)?;
        self.sent = number;
        Ok(())
    }

    /// An event of this name and with this body, a JSON value, that a request led to.
    pub fn event(&mut self, _request: &Request, name: &[u8], body: &[u8]) -> Result<(), AllocError>
        requires { self.old.sent < 2 ^ 64 - 1 }
        ensures { OnOk result (self.new
            ≡ posted_with _request.now self.old (event name.now body.now)) }
    {
        let number = self.sent + 1;
        push_event(self.alloc, &mut self.bytes, number, name, body)?;
        self.sent = number;
        Ok(())
    }
}

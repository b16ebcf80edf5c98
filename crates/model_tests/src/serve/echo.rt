//! A small answerer of requests for the tests of sessions.
ghost use Rattle.std.specs.Prelude.{◌≡◌};
ghost use Rattle.model_tests.specs.Echoing.{echo_meaning};

use itoa::Buffer;
use ss_console::Go;
use ss_messages::{Command, Post, Request};
use ss_serve::Answerer;
use std::alloc::AllocError;

/// A small answerer for the tests: the body of each reply is the number of the requests before.
/// Disconnect ends the session.
#[derive(Drop)]
pub struct Echo {
    count: u64,
}

impl Echo {
    /// An answerer that answered no request yet.
    pub fn new() -> Self
        ensures { result.count ≡ 0 }
    {
        Echo { count: 0 }
    }
}

impl Answerer for Echo {
    ghost meaning = { echo_meaning };

    ghost state = { λ e. e.count };

    #[tactic(auto, using(ss_messages::proofs::Posts::posted_one))]
    fn answer(&mut self, request: &Request, post: &mut Post) -> Result<Go, AllocError> {
        let mut buffer = Buffer::new();
        post.reply(request, buffer.format(self.count).as_bytes())?;
        self.count = self.count.wrapping_add(1);
        match &request.command {
            Command::Disconnect => Ok(Go::Quit),
            _ => Ok(Go::On),
        }
    }
}

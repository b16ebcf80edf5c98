//! The interface of an answerer: the machine that answers the requests of a session.
ghost use Rattle.std.specs.Prelude.{◌<◌, ◌^◌, IfOk};
ghost use Rattle.ss_serve.specs.Meaning.{Meaning, IsAnswer};

use ss_console::Go;
use ss_messages::{Post, Request};
use std::alloc::AllocError;

/// An answerer of the requests of a session: a machine that each request leads from state to state.
pub trait Answerer {
    // its states, the answer to each request, and the state to which the request leads
    ghost meaning: { Meaning };

    // the state in which it is
    ghost state: { Self → meaning.State };

    /// Does the work of a request, and posts its reply and the events that follow it; says whether
    /// the session goes on. `AllocError` if memory was refused: then nothing that is posted counts.
    fn answer(&mut self, request: &Request, post: &mut Post) -> Result<Go, AllocError>
        requires { post.old.sent < 2 ^ 53 }
        ensures { IfOk result (λ go. IsAnswer meaning (state self.old) (state self.new) request.now
            post.old post.new go) };
}

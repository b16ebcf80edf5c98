//! The outlet of a program: standard output, or any other writer.
ghost use Rattle.std.specs.Prelude.{◌≡◌};

use ss_session::{Outlet, PutFault};
use std::io;

/// An outlet over a writer, one write for each call. It shows the bytes that it took if the writer
/// shows them: standard output shows nothing.
#[derive(Drop)]
pub struct Stream<W: io::Write + Drop> {
    writer: W,
    failures: u64,
}

impl<W: io::Write + Drop> Stream<W> {
    pub fn new(writer: W) -> Self
        ensures writer { result.writer ≡ writer }
        ensures none_failed { result.failures ≡ 0 }
    {
        Stream {
            writer,
            failures: 0,
        }
    }
}

impl<W: io::Write + Drop> Outlet for Stream<W> {
    ghost taken = { λ s. W.contents s.writer };

    ghost failures = { λ s. s.failures };

    #[tactic(auto, using(crate::proofs::EmptyAppends::kept_appends_none))]
    fn put(&mut self, piece: &[u8]) -> Result<usize, PutFault> {
        match self.writer.write(piece) {
            Ok(0) => {
                self.failures += 1;
                Ok(0)
            }
            Ok(n) => Ok(n),
            Err(_) => {
                self.failures += 1;
                Err(PutFault)
            }
        }
    }
}

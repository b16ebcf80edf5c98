//! A small answerer of lines for the tests of dialogues.
ghost use Rattle.std.specs.Prelude.{◌≡◌, ◌++◌, codes, decimal, OnOk};
ghost use Rattle.model_tests.specs.Counting.{counter_meaning};

use itoa::Buffer;
use ss_console::{Answerer, Console, Go, PutFault, put_all};
use std::alloc::AllocError;

/// A small answerer for the tests: it repeats each line, after the number of lines before it.
///
/// A blank line has no answer, and QUIT ends the dialogue.
#[derive(Drop)]
pub struct Counter {
    count: u64,
}

impl Counter {
    /// A counter that answered no line yet.
    pub fn new() -> Self
        ensures { result.count ≡ 0 }
    {
        Counter { count: 0 }
    }
}

/// Appends a number, a line and a line feed.
fn say(answer: &mut Vec<u8>, count: u64, line: &[u8]) -> Result<(), AllocError>
    ensures { OnOk result (answer.new.items ≡ answer.old.items
        ++ (decimal count ++ codes " " ++ line.now ++ codes "\n")) }
{
    let mut buffer = Buffer::new();
    answer.extend_from_slice(buffer.format(count).as_bytes())?;
    answer.extend_from_slice(b" ")?;
    answer.extend_from_slice(line)?;
    answer.extend_from_slice(b"\n")
}

impl Answerer for Counter {
    ghost meaning = { counter_meaning };

    ghost state = { λ c. c.count };

    fn position(&self) -> u64 {
        self.count
    }

    fn answer(&mut self, line: &[u8], answer: &mut Vec<u8>) -> Result<Go, AllocError> {
        if line == b"QUIT".as_slice() {
            return Ok(Go::Quit);
        }
        if line.is_empty() {
            return Ok(Go::On);
        }
        say(answer, self.count, line)?;
        self.count = self.count.wrapping_add(1);
        Ok(Go::On)
    }

    fn put_refusal<C: Console>(&self, console: &mut C) -> Result<(), PutFault> {
        put_all(console, b"OUT OF MEMORY\n")
    }
}

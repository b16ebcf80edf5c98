//! Dialogues over memory and over streams, and how each ends.
ghost use Rattle.std.specs.Prelude.{◌≡◌, ◌-◌, ◌^◌, ◌<◌};
ghost use Rattle.model_tests.specs.Counting.{counter_meaning};

mod counter;

use crate::compare::same;
use crate::entries::tell;
use counter::Counter;
use ss_console::{
    Answerer, Console, Cut, Go, LONGEST_LINE, MemoryConsole, PutFault, StreamConsole, converse,
    put_all,
};
use std::alloc::{AllocError, Global};
use std::io::{self, ErrorKind, Read};
use std::process::Abort;

/// Holds a dialogue, and compares how it ends.
fn ends<A: Answerer, C: Console>(
    rt: &impl Abort,
    alloc: Global,
    answerer: &mut A,
    console: &mut C,
    ended: Result<(), Cut>,
)
    requires reads { (C.faults console.old).reads < 2 ^ 64 - 1 }
    requires puts { (C.faults console.old).puts < 2 ^ 64 - 1 }
{
    let mut line = Vec::with_capacity(alloc, LONGEST_LINE + 1).expect(rt, "a line");
    let mut answer = Vec::new(alloc);
    same(
        rt,
        converse(answerer, console, &mut line, &mut answer),
        ended,
    );
    drop(answer);
    drop(line);
}

/// A dialogue over memory: the text that is read, how many bytes are taken, whether prompts are
/// written, how it ends, and the events.
type Dialogue = (&'static [u8], usize, bool, Result<(), Cut>, &'static [u8]);

/// Holds a dialogue over memory, and compares how it ends and its events.
fn holds<A: Answerer>(rt: &impl Abort, alloc: Global, answerer: &mut A, dialogue: Dialogue) {
    let (text, room, terminal, ended, events) = dialogue;
    let mut console = MemoryConsole::new(alloc, text, room, terminal);
    ends(rt, alloc, answerer, &mut console, ended);
    tell(rt, alloc, console.entries(), events);
    drop(console);
}

/// Dialogues with a counter.
const COUNTED: [Dialogue; 8] = [
    (b"", 100, false, Ok(()), b""),
    (
        b"a\n\nb\nQUIT\nc\n",
        100,
        false,
        Ok(()),
        b"<a>0 a\n<><b>1 b\n<QUIT>",
    ),
    (b"a\nb", 100, false, Ok(()), b"<a>0 a\n<b>1 b\n"),
    (b"a\r\n\n", 100, false, Ok(()), b"<a\r>0 a\r\n<>"),
    (b"a\nb", 100, true, Ok(()), b"(0) <a>0 a\n(1) <b>1 b\n(2) "),
    (b"QUIT\n", 100, true, Ok(()), b"(0) <QUIT>"),
    (b"a\nb", 6, false, Err(Cut::Write), b"<a>0 a\n<b>1 "),
    (b"a\nb", 2, true, Err(Cut::Write), b"(0"),
];

#[test]
fn each_answer_comes_before_the_next_line(rt: HostRuntime) {
    for dialogue in &COUNTED {
        holds(&rt, rt.alloc(), &mut Counter::new(), *dialogue);
    }
}

/// A counter for whose answers there is never memory.
#[derive(Drop)]
struct Refused;

impl Answerer for Refused {
    ghost meaning = { counter_meaning };

    ghost state = { λ _. 0 };

    fn position(&self) -> u64 {
        0
    }

    fn answer(&mut self, line: &[u8], _answer: &mut Vec<u8>) -> Result<Go, AllocError> {
        if line == b"QUIT".as_slice() {
            return Ok(Go::Quit);
        }
        Err(AllocError)
    }

    fn put_refusal<C: Console>(&self, console: &mut C) -> Result<(), PutFault> {
        put_all(console, b"OUT OF MEMORY\n")
    }
}

/// A dialogue in which each answer is refused.
const ALL_REFUSED: Dialogue = (
    b"a\nb\nQUIT\nc",
    100,
    false,
    Ok(()),
    b"<a>OUT OF MEMORY\n<b>OUT OF MEMORY\n<QUIT>",
);

#[test]
fn a_refused_answer_is_told(rt: HostRuntime) {
    holds(&rt, rt.alloc(), &mut Refused, ALL_REFUSED);
}

/// Reads the one line of a console, which is cut after an x.
fn cuts(rt: &impl Abort, alloc: Global, console: &mut MemoryConsole<'_>)
    requires { console.old.read_faults ≡ 0 }
{
    let mut line = Vec::with_capacity(alloc, LONGEST_LINE + 1).expect(rt, "a line");
    same(rt, console.read_line(&mut line), Ok(true));
    same(
        rt,
        (line.len(), line.last()),
        (LONGEST_LINE + 1, Some(&b'x')),
    );
    same(rt, console.read_line(&mut line), Ok(false));
    drop(line);
}

#[test]
fn a_long_line_is_cut(rt: HostRuntime) {
    let mut text = [b' '; 304];
    text[300..].copy_from_slice(b"xyz\n");
    let mut console = MemoryConsole::new(rt.alloc(), &text, 0, false);
    cuts(&rt, rt.alloc(), &mut console);
    drop(console);
}

/// A reader that gives a few bytes, and then fails.
#[derive(Drop)]
struct Broken {
    left: u8,
}

impl Read for Broken {
    fn read(&mut self, buf: &mut [u8]) -> io::Result<usize> {
        if self.left == 0 || buf.is_empty() {
            return Err(io::Error::from(ErrorKind::Other));
        }
        self.left -= 1;
        buf[0] = if self.left == 0 { b'\n' } else { b'a' };
        Ok(1)
    }
}

/// Holds a dialogue over a reader, and compares how it ends.
fn reads<R: Read + Drop>(
    rt: &impl Abort,
    counter: &mut Counter,
    out: &mut Vec<u8>,
    reader: R,
    ended: Result<(), Cut>,
) {
    let alloc = *out.allocator();
    let mut console = StreamConsole::new(reader, out, false);
    ends(rt, alloc, counter, &mut console, ended);
    drop(console);
}

#[test]
fn streams_are_read_and_written(rt: HostRuntime) {
    let mut counter = Counter::new();
    let mut out = Vec::new(rt.alloc());
    let whole = b"a\nb".as_slice();
    reads(&rt, &mut counter, &mut out, whole, Ok(()));
    let broken = Broken { left: 3 };
    reads(&rt, &mut counter, &mut out, broken, Err(Cut::Read));
    same(&rt, out.as_slice(), b"0 a\n1 b\n2 aa\n".as_slice());
    drop(out);
}

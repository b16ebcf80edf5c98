//! The answer if memory was refused: that it was, and the state of the debugger then.
ghost use Rattle.std.specs.Prelude.{◌≡◌, ◌-◌, ◌^◌, ◌<◌, ◌++◌, OnOk, OnErr};
ghost use Rattle.ss_console.specs.Event.{Adds, write_events};
ghost use Rattle.ss_console.specs.Faults.{one_more_put};
ghost use Rattle.ss_console.specs.Puts.{AddsPart, joined_texts};
ghost use Rattle.ss_machine.specs.Moment.{position};
ghost use Rattle.ss_debug.specs.Answer.{status_text};
ghost use Rattle.ss_prompt.specs.Refusal.{refusal_parts, refusal_with, refusal_at};

use crate::sections::present_line;
use itoa::Buffer;
use ss_console::{Console, PutFault, put_texts};
use ss_links::SetBoard;
use ss_machine::Machine;
use ss_state::Status;

/// The parts of a state line, as they are printed.
#[derive(Clone, Copy)]
struct StateParts<'a> {
    position: &'a [u8],
    clock: &'a [u8],
    word: &'a [u8],
    number: &'a [u8],
    section: &'a [u8],
    line: &'a [u8],
}

/// Writes that memory was refused, and a state line of its parts.
fn put_parts<C: Console>(console: &mut C, parts: StateParts<'_>) -> Result<(), PutFault>
    requires { (C.faults console.old).puts < 2 ^ 64 - 1 }
    ensures ok { OnOk result (Adds (C.log console.old) (C.log console.new)
        (write_events (joined_texts (refusal_parts parts.entry.position.now parts.entry.clock.now
        parts.entry.word.now parts.entry.number.now parts.entry.section.now
        parts.entry.line.now)))
        × (C.faults console.new ≡ C.faults console.old)) }
    ensures err { OnErr result (AddsPart
        (joined_texts (refusal_parts parts.entry.position.now parts.entry.clock.now
        parts.entry.word.now parts.entry.number.now parts.entry.section.now
        parts.entry.line.now))
        (C.log console.old) (C.log console.new)
        × (C.faults console.new ≡ one_more_put (C.faults console.old))) }
    ensures lines { C.left console.new ≡ C.left console.old }
    ensures terminal { C.terminal console.new ≡ C.terminal console.old }
{
    put_texts(
        console,
        &[
            b"OUT OF MEMORY\n",
            b"STATE ",
            parts.position,
            b" CLOCK ",
            parts.clock,
            b" ",
            parts.word,
            parts.number,
            b" IN ",
            parts.section,
            b" LINE ",
            parts.line,
            b"\n",
        ],
    )
}

/// Writes that memory was refused, and the state of a machine, by the word of its status and the
/// number after that word.
fn put_with<S: SetBoard, C: Console>(
    console: &mut C,
    machine: &Machine<S>,
    word: &[u8],
    number: &[u8],
) -> Result<(), PutFault>
    requires { (C.faults console.old).puts < 2 ^ 64 - 1 }
    ensures ok { OnOk result (Adds (C.log console.old) (C.log console.new)
        (write_events (joined_texts (refusal_with machine.now.input (position machine.now)
        word.now number.now)))
        × (C.faults console.new ≡ C.faults console.old)) }
    ensures err { OnErr result (AddsPart
        (joined_texts (refusal_with machine.now.input (position machine.now) word.now number.now))
        (C.log console.old) (C.log console.new)
        × (C.faults console.new ≡ one_more_put (C.faults console.old))) }
    ensures lines { C.left console.new ≡ C.left console.old }
    ensures terminal { C.terminal console.new ≡ C.terminal console.old }
{
    machine.known();
    let (section, _) = machine.place();
    let name = machine.program().section(section).name.bytes.as_slice();
    let mut position = Buffer::new();
    let mut clock = Buffer::new();
    let mut line = Buffer::new();
    let parts = StateParts {
        position: position.format(machine.position()).as_bytes(),
        clock: clock.format(machine.clock()).as_bytes(),
        word,
        number,
        section: name,
        line: line.format(present_line(machine)).as_bytes(),
    };
    put_parts(console, parts)
}

/// Writes that memory was refused, and the state line of a machine; it needs no memory itself.
pub(crate) fn put_refusal_at<S: SetBoard, C: Console>(
    console: &mut C,
    machine: &Machine<S>,
) -> Result<(), PutFault>
    requires { (C.faults console.old).puts < 2 ^ 64 - 1 }
    ensures ok { OnOk result (Adds (C.log console.old) (C.log console.new)
        (write_events (refusal_at machine.now.input (position machine.now)))
        × (C.faults console.new ≡ C.faults console.old)) }
    ensures err { OnErr result (AddsPart (refusal_at machine.now.input (position machine.now))
        (C.log console.old) (C.log console.new)
        × (C.faults console.new ≡ one_more_put (C.faults console.old))) }
    ensures lines { C.left console.new ≡ C.left console.old }
    ensures terminal { C.terminal console.new ≡ C.terminal console.old }
{
    machine.known();
    let mut digits = Buffer::new();
    let (word, number) = status_pieces(machine.status(), &mut digits);
    put_with(console, machine, word, number)
}

/// The word of a status, and the number after it.
fn status_pieces(status: Status, number: &mut Buffer) -> (&[u8], &[u8])
    ensures { status_text status ≡ result.0.now ++ result.1.now }
{
    match status {
        Status::Ready => (b"READY", b""),
        Status::Stopped => (b"STOPPED", b""),
        Status::Finished => (b"FINISHED", b""),
        Status::Faulted(fault) => {
            let digits = number.format(u64::from(fault.number())).as_bytes();
            (b"FAULT F", digits)
        }
    }
}

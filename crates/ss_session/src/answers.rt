//! A session over an accepted program: its commands are obeyed, then the report is written.
ghost use Rattle.std.specs.Prelude.{◌≡◌, ◌+◌, ◌-◌, ◌^◌, ◌<◌, ◌++◌, [], OnOk, OnErr};
ghost use Rattle.std.specs.Io.KnownBytes.{Appends};
ghost use Rattle.ss_debug.specs.CommandLines.{command_lines};
ghost use Rattle.ss_debug.specs.Turn.{obeyed_lines};
ghost use Rattle.ss_state.specs.State.{is_faulted};
ghost use Rattle.ss_session.specs.Written.{WritesPart};
ghost use Rattle.ss_session.specs.Transcript.{end_of};
ghost use Rattle.ss_session.specs.Private.{ProgramEnds};

use crate::ending::{Cut, End};
use crate::outlet::{Outlet, PutFault, put_all};
use crate::turns::obey_lines;
use ss_debug::Debugger;
use ss_links::SetBoard;
use ss_machine::Machine;
use ss_state::Status;
use std::alloc::Global;

/// Writes two texts, one after the other.
#[tactic(auto, using(crate::proofs::Parts::texts_in_turn))]
fn put_both<W: Outlet>(out: &mut W, first: &[u8], second: &[u8]) -> Result<(), PutFault>
    requires { W.failures out.old < 2 ^ 64 - 1 }
    ensures ok { OnOk result (Appends (W.taken out.old) (W.taken out.new) (first.now ++ second.now)
        × (W.failures out.new ≡ W.failures out.old)) }
    ensures err { OnErr result
        (WritesPart (first.now ++ second.now) (W.taken out.old) (W.taken out.new)
        × (W.failures out.new ≡ W.failures out.old + 1)) }
{
    put_all(out, first)?;
    put_all(out, second)
}

fn end(status: Status) -> End
    ensures { result ≡ end_of (is_faulted status) }
{
    match status {
        Status::Ready => End::Done,
        Status::Stopped => End::Done,
        Status::Finished => End::Done,
        Status::Faulted(_) => End::RunFault,
    }
}

/// Obeys the commands with a debugger at the start of a run, and writes the answers and the report.
fn write_answers<S: SetBoard, W: Outlet>(
    debugger: &mut Debugger<S>,
    bytes: &mut Vec<u8>,
    commands: &[u8],
    out: &mut W,
) -> Result<End, Cut>
    requires start { debugger.old.machine.steps ≡ [] }
    requires forgotten { debugger.old.machine.forgotten ≡ 0 }
    requires breaks { debugger.old.breaks ≡ [] }
    requires room { W.failures out.old < 2 ^ 64 - 1 }
    ensures { ProgramEnds result debugger.old.machine.input
        (obeyed_lines (command_lines commands.now))
        (W.taken out.old) (W.taken out.new) (W.failures out.old) (W.failures out.new) }
{
    obey_lines(debugger, bytes, commands, out)?;
    let machine = debugger.machine();
    machine.known();
    put_both(out, b"REPORT\n", machine.report())?;
    Ok(end(machine.status()))
}

/// Obeys the commands over a machine at the start of its run, and writes the answers and the
/// report.
pub(crate) fn write_transcript<S: SetBoard, W: Outlet>(
    alloc: Global,
    machine: Machine<S>,
    commands: &[u8],
    out: &mut W,
) -> Result<End, Cut>
    requires start { machine.steps ≡ [] }
    requires forgotten { machine.forgotten ≡ 0 }
    requires room { W.failures out.old < 2 ^ 64 - 1 }
    ensures { ProgramEnds result machine.input (obeyed_lines (command_lines commands.now))
        (W.taken out.old) (W.taken out.new) (W.failures out.old) (W.failures out.new) }
{
    let mut debugger = Debugger::new(alloc, machine);
    let mut bytes = Vec::new(alloc);
    let ended = write_answers(&mut debugger, &mut bytes, commands, out);
    drop(bytes);
    // The program ends here: its memory is not given back piece by piece.
    std::mem::forget(debugger);
    ended
}

//! The turns of a session: each line of the commands is obeyed, and its whole answer written.
ghost use Rattle.std.specs.Prelude.{◌≡◌, ◌+◌, ◌-◌, ◌^◌, ◌<◌, false};
ghost use Rattle.ss_debug.specs.CommandLines.{command_lines};
ghost use Rattle.ss_debug.specs.Turn.{obeyed_lines};
ghost use Rattle.ss_session.specs.Private.{TurnEnds, TurnsEnd};

use crate::ending::Cut;
use crate::outlet::{Outlet, put_all};
use ss_debug::{Debugger, Go, command, obey, split_line};
use ss_links::SetBoard;

/// Obeys one line, and writes its whole answer.
#[tactic(auto, using(crate::proofs::Pieces::appends_none), unfolding(crate::specs::Private::TurnEnds))]
fn turn<S: SetBoard, W: Outlet>(
    debugger: &mut Debugger<S>,
    line: &[u8],
    bytes: &mut Vec<u8>,
    out: &mut W,
) -> Result<Go, Cut>
    requires { W.failures out.old < 2 ^ 64 - 1 }
    ensures { TurnEnds result debugger.old.machine.input debugger.old debugger.new line.now
        (W.taken out.old) (W.taken out.new) (W.failures out.old) (W.failures out.new) }
{
    bytes.clear();
    let go = obey(debugger, command(line), bytes)?;
    put_all(out, bytes)?;
    Ok(go)
}

/// Obeys the lines, up to the last or QUIT, and writes their whole answers.
#[tactic(auto, unfolding(crate::specs::Private::TurnEnds, crate::specs::Private::TurnsEnd))]
pub(crate) fn obey_lines<S: SetBoard, W: Outlet>(
    debugger: &mut Debugger<S>,
    bytes: &mut Vec<u8>,
    commands: &[u8],
    out: &mut W,
) -> Result<(), Cut>
    requires { W.failures out.old < 2 ^ 64 - 1 }
    ensures { TurnsEnd result debugger.old.machine.input debugger.old debugger.new
        (obeyed_lines (command_lines commands.now))
        (W.taken out.old) (W.taken out.new) (W.failures out.old) (W.failures out.new) }
{
    let mut rest = commands;
    while !rest.is_empty() {
        let (line, more) = split_line(rest);
        match turn(debugger, line, bytes, out)? {
            Go::On => rest = more,
            Go::Quit => return Ok(()),
        }
    }
    Ok(())
}

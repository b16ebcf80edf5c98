//! The position of a machine, as the rows of a trace show it.
ghost use Rattle.std.specs.Prelude.{◌≡◌};
ghost use Rattle.ss_machine.specs.Moment.{position};
ghost use Rattle.ss_debug.specs.Move.{line_at};
ghost use Rattle.ss_run.specs.Tracing.{IsHere};

use ss_debug::Debugger;
use ss_links::SetBoard;
use ss_machine::Machine;

/// The position of a machine: state, clock, section, place and line.
#[derive(Clone, Copy, Debug)]
pub struct Here {
    /// The number of the state.
    pub position: u64,
    /// Its clock.
    pub clock: i64,
    /// The number of the section that runs.
    pub section: usize,
    /// The number of its present place there.
    pub place: usize,
    /// The line of that place.
    pub line: usize,
}

/// The line of the machine's present place.
fn present_line<S: SetBoard>(machine: &Machine<S>) -> usize
    ensures { result ≡ line_at machine.now.input (position machine.now) }
{
    machine.known();
    let (section, place) = machine.place();
    machine.program().spot(section, place).line
}

/// The position of a debugger's machine.
pub fn read_here<S: SetBoard>(debugger: &Debugger<S>) -> Here
    ensures { IsHere debugger.now.machine.input (position debugger.now.machine) result }
{
    let machine = debugger.machine();
    machine.known();
    let (section, place) = machine.place();
    Here {
        position: machine.position(),
        clock: machine.clock(),
        section,
        place,
        line: present_line(machine),
    }
}

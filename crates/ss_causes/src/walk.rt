//! Whether a debugger is in an event, and its way back to the earliest kept state.
ghost use Rattle.std.specs.Prelude.{◌≡◌};
ghost use Rattle.ss_debug.specs.Move.{runs_event};
ghost use Rattle.ss_trace.specs.View.{IsAt};

use ss_debug::Debugger;
use ss_links::SetBoard;
use ss_program::SectionKind;

/// Whether the frame of an event is the last one.
pub(crate) fn runs_event<S: SetBoard>(debugger: &Debugger<S>) -> bool
    ensures { result ≡ runs_event debugger.now.machine.input debugger.now.machine.state }
{
    let machine = debugger.machine();
    machine.known();
    let (section, _) = machine.place();
    matches!(machine.program().section(section).kind, SectionKind::Event)
}

/// Goes back to the earliest kept position. It takes no memory.
pub(crate) fn back_to_earliest<S: SetBoard>(debugger: &mut Debugger<S>)
    ensures { IsAt debugger.old debugger.old.machine.forgotten debugger.new }
{
    while debugger.step_back() {}
}

//! The words of the movements.
ghost use Rattle.std.specs.Prelude.{◌≡◌, codes, nat_eq, if◌then◌else◌};
ghost use Rattle.ss_machine.specs.Moment.{position};
ghost use Rattle.ss_debug.specs.Answer.{earliest_word};
ghost use Rattle.ss_trace.specs.Turn.{forward_word};

use crate::sought::is_ready_now;
use ss_debug::Debugger;
use ss_links::SetBoard;

/// The word of a movement forward that began at `from` and ended at the machine's present state.
/// `met` says whether it met the state that it looks for.
pub fn forward_word<S: SetBoard>(
    debugger: &Debugger<S>,
    word: &'static [u8],
    from: u64,
    met: bool,
) -> &'static [u8]
    ensures { result.now ≡ forward_word word.now debugger.now.machine.input debugger.now.breaks
        met from (position debugger.now.machine) }
{
    if !is_ready_now(debugger) {
        return b"HALTED";
    }
    if met {
        return word;
    }
    if from < debugger.machine().position() && debugger.stands_on_break() {
        return b"BREAK";
    }
    b"BOUND"
}

/// The word of a movement back that ended at the machine's present state. `met` says whether it met
/// the state that it looks for.
pub fn backward_word<S: SetBoard>(
    debugger: &Debugger<S>,
    word: &'static [u8],
    met: bool,
) -> &'static [u8]
    ensures { result.now ≡ (if met then word.now else
        if nat_eq (position debugger.now.machine) debugger.now.machine.forgotten
        then earliest_word debugger.now.machine.forgotten else codes "BOUND") }
{
    if met {
        return word;
    }
    let machine = debugger.machine();
    if machine.kept() > 0 {
        return b"BOUND";
    }
    if machine.position() == 0 {
        b"START"
    } else {
        b"NOTHING KEPT"
    }
}

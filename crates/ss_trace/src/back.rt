//! Back to a state that is looked for.
ghost use Rattle.std.specs.Prelude.{◌≡◌, ◌&&◌, nat_lt};
ghost use Rattle.ss_machine.specs.Moment.{position};
ghost use Rattle.ss_debug.specs.Move.{search_back_end};
ghost use Rattle.ss_trace.specs.View.{IsAt, sought_test};

use crate::sought::{Sought, is_found};
use ss_debug::Debugger;
use ss_links::SetBoard;

/// Whether a movement back stops at the machine's present state, after k steps.
fn is_at_back_stop<S: SetBoard>(debugger: &Debugger<S>, sought: Sought, k: u64) -> bool
    ensures { result ≡ (nat_lt 0 k && sought_test debugger.now.machine.input sought
        (position debugger.now.machine)) }
{
    0 < k && is_found(debugger, sought)
}

/// Steps back to the greatest earlier position that is looked for, or to the earliest kept
/// position, within the bound. It takes no memory.
#[tactic(auto, using(ss_debug::proofs::Moves::search_back_is))]
pub fn back_to<S: SetBoard>(debugger: &mut Debugger<S>, sought: Sought, bound: u64)
    ensures { IsAt debugger.old (search_back_end (sought_test debugger.old.machine.input sought)
        debugger.old.machine.forgotten (position debugger.old.machine) bound) debugger.new }
{
    for k in 0..bound {
        if is_at_back_stop(debugger, sought, k) {
            return;
        }
        if !debugger.step_back() {
            return;
        }
    }
}

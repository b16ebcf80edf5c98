//! CLEAR without a line, by CLEAR of each break line.
ghost use Rattle.std.specs.Prelude.{◌≡◌, ◌++◌, OnOk, OnErr};
ghost use Rattle.ss_debug.specs.View.{debugger_state_of};
ghost use Rattle.ss_prompt.specs.Cleared.{after_clear, clear_all_next, clear_all_said};
ghost use Rattle.ss_prompt.specs.Cleared.{IsPartCleared, IsClearRefused};
ghost use Rattle.ss_prompt.specs.PromptState.{state_at};

use crate::break_list::push_cleared;
use crate::desk::PromptDesk;
use crate::desk::model::obey_on_line;
use ss_debug::Debugger;
use ss_links::SetBoard;
use std::alloc::AllocError;

/// CLEAR of some lines, one after the other.
#[tactic(auto, using(crate::proofs::Cleared::parts))]
fn clear_lines<S: SetBoard>(
    debugger: &mut Debugger<S>,
    lines: &[usize],
    said: &mut Vec<u8>,
) -> Result<(), AllocError>
    ensures input { debugger.new.machine.input ≡ debugger.old.machine.input }
    ensures place { OnOk result (debugger_state_of debugger.new
        ≡ after_clear debugger.old.machine.input (debugger_state_of debugger.old) lines.now) }
    ensures memory { OnErr result (IsPartCleared debugger.old.machine.input
        (debugger_state_of debugger.old) lines.now (debugger_state_of debugger.new)) }
{
    let Some((line, behind)) = lines.split_first() else {
        return Ok(());
    };
    obey_on_line(debugger, false, *line, said)?;
    clear_lines(debugger, behind, said)
}

impl<'a> PromptDesk<'a> {
    /// CLEAR without a line.
    #[tactic(auto, using(crate::proofs::Cleared::refusals))]
    pub(super) fn clear_all<S: SetBoard>(
        &self,
        debugger: &mut Debugger<S>,
        answer: &mut Vec<u8>,
    ) -> Result<(), AllocError>
        ensures place { OnOk result (state_at debugger.new self.now
            ≡ clear_all_next (state_at debugger.old self.now)) }
        ensures said { OnOk result (answer.new.items
            ≡ answer.old.items ++ clear_all_said (state_at debugger.old self.now)) }
        ensures memory { OnErr result (IsClearRefused (state_at debugger.old self.now)
            (state_at debugger.new self.now)) }
    {
        let lines = debugger.break_lines(self.alloc)?;
        push_cleared(answer, &lines)?;
        let mut said = Vec::new(self.alloc);
        clear_lines(debugger, &lines, &mut said)
    }
}

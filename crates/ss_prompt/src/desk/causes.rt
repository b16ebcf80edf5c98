//! WHY CAUSE and BACK CAUSE.
ghost use Rattle.std.specs.Prelude.{◌≡◌, ◌++◌, OnOk, OnErr};
ghost use Rattle.ss_prompt.specs.Causes.{cause_next, cause_said, IsCauseRefused};
ghost use Rattle.ss_prompt.specs.PromptState.{state_at};
ghost use Rattle.ss_prompt.specs.Valued.{Suits};

use crate::causes::CauseCommand;
use crate::desk::PromptDesk;
use crate::source::push_marked_line;
use ss_causes::{back_cause, push_why_cause};
use ss_debug::Debugger;
use ss_links::SetBoard;
use std::alloc::AllocError;

impl<'a> PromptDesk<'a> {
    /// WHY CAUSE or BACK CAUSE.
    #[tactic(auto, using(crate::proofs::Causing::causing), unfolding(crate::specs::Histories::HasLookedBack))]
    pub(super) fn cause<S: SetBoard>(
        &self,
        debugger: &mut Debugger<S>,
        command: CauseCommand,
        answer: &mut Vec<u8>,
    ) -> Result<(), AllocError>
        requires { Suits debugger.old.machine.input.program self.now.symbols }
        ensures place { OnOk result (state_at debugger.new self.now
            ≡ cause_next (state_at debugger.old self.now) command) }
        ensures said { OnOk result (answer.new.items
            ≡ answer.old.items ++ cause_said (state_at debugger.old self.now) command) }
        ensures memory { OnErr result (IsCauseRefused (state_at debugger.old self.now) command
            (state_at debugger.new self.now)) }
    {
        match command {
            CauseCommand::Why => {
                debugger.machine().known();
                let mut change = Vec::new(self.alloc);
                if let Some(line) = push_why_cause(debugger, answer, &mut change)? {
                    push_marked_line(answer, &self.lines, b"> ", line)?;
                }
                answer.extend_from_slice(&change)
            }
            CauseCommand::Back => {
                back_cause(debugger, answer)?;
                self.push_stop(debugger, true, answer)
            }
        }
    }
}

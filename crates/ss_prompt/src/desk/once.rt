//! TBREAK, by the debugger's BREAK, RUN and CLEAR.
ghost use Rattle.std.specs.Prelude.{◌≡◌, ◌++◌, OnOk, OnErr};
ghost use Rattle.ss_debug.specs.AfterRefusal.{IsStateAfterRefusal};
ghost use Rattle.ss_debug.specs.View.{debugger_state_of};
ghost use Rattle.ss_prompt.specs.Once.{after_unless, said_unless, once_stop, once_stop_said, IsRunRefused};
ghost use Rattle.ss_prompt.specs.Once.{once_next, once_said, IsOnceRefused};
ghost use Rattle.ss_prompt.specs.PromptState.{state_at};
ghost use Rattle.ss_prompt.specs.Valued.{Suits};

use crate::desk::PromptDesk;
use ss_debug::{Command, Debugger, GREATEST_BOUND, Movement, obey};
use ss_links::SetBoard;
use std::alloc::AllocError;

/// A command on a line, unless that was a break line before.
fn obey_unless<S: SetBoard>(
    debugger: &mut Debugger<S>,
    was: bool,
    command: Command,
    said: &mut Vec<u8>,
) -> Result<(), AllocError>
    ensures input { debugger.new.machine.input ≡ debugger.old.machine.input }
    ensures place { OnOk result (debugger_state_of debugger.new ≡ after_unless
        debugger.old.machine.input (debugger_state_of debugger.old) command was) }
    ensures said { OnOk result (said.new.items ≡ said.old.items ++ said_unless
        debugger.old.machine.input (debugger_state_of debugger.old) command was) }
    ensures memory { OnErr result (IsStateAfterRefusal debugger.old.machine.input
        (debugger_state_of debugger.old) command (debugger_state_of debugger.new)) }
{
    if !was {
        obey(debugger, command, said)?;
    }
    Ok(())
}

impl<'a> PromptDesk<'a> {
    /// RUN after BREAK of a line, and CLEAR of the line, if it was no break line before.
    #[tactic(auto, using(crate::proofs::Once::runs), unfolding(ss_debug::specs::AfterRefusal::IsStateAfterRefusal))]
    fn run_to_once<S: SetBoard>(
        &self,
        debugger: &mut Debugger<S>,
        line: u32,
        was: bool,
        answer: &mut Vec<u8>,
    ) -> Result<(), AllocError>
        requires { Suits debugger.old.machine.input.program self.now.symbols }
        ensures place { OnOk result (state_at debugger.new self.now
            ≡ once_stop (state_at debugger.old self.now) line was) }
        ensures said { OnOk result (answer.new.items
            ≡ answer.old.items ++ once_stop_said (state_at debugger.old self.now) line was) }
        ensures memory { OnErr result (IsRunRefused (state_at debugger.old self.now) line was
            (state_at debugger.new self.now)) }
    {
        let run = Command::Move(Movement::Run(GREATEST_BOUND));
        obey(debugger, run, answer)?;
        let mut said = Vec::new(self.alloc);
        obey_unless(debugger, was, Command::Clear(line), &mut said)?;
        self.push_stop(debugger, false, answer)
    }

    /// TBREAK: forward to a line, which is a break line for that once. If BREAK does not take the
    /// line, the answer is that of BREAK.
    #[tactic(auto, using(crate::proofs::Once::refusals), unfolding(ss_debug::specs::AfterRefusal::IsStateAfterRefusal))]
    pub(super) fn run_once<S: SetBoard>(
        &self,
        debugger: &mut Debugger<S>,
        line: u32,
        answer: &mut Vec<u8>,
    ) -> Result<(), AllocError>
        requires { Suits debugger.old.machine.input.program self.now.symbols }
        ensures place { OnOk result (state_at debugger.new self.now
            ≡ once_next (state_at debugger.old self.now) line) }
        ensures said { OnOk result (answer.new.items
            ≡ answer.old.items ++ once_said (state_at debugger.old self.now) line) }
        ensures memory { OnErr result (IsOnceRefused (state_at debugger.old self.now) line
            (state_at debugger.new self.now)) }
    {
        let mut said = Vec::new(self.alloc);
        let was = debugger.is_break_line(line as usize);
        obey_unless(debugger, was, Command::Break(line), &mut said)?;
        if !debugger.is_break_line(line as usize) {
            return answer.extend_from_slice(&said);
        }
        self.run_to_once(debugger, line, was, answer)
    }
}

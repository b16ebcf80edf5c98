//! The movements, each with the text at its stop.
ghost use Rattle.std.specs.Prelude.{◌≡◌, ◌++◌, OnOk, OnErr};
ghost use Rattle.ss_debug.specs.declared.commands.Command.TheVariants.{Move};
ghost use Rattle.ss_prompt.specs.Plain.{plain_next, plain_said, IsPlainRefused};
ghost use Rattle.ss_prompt.specs.PromptState.{state_at};
ghost use Rattle.ss_prompt.specs.Travel.{travel_next, travel_said, IsTravelRefused};
ghost use Rattle.ss_prompt.specs.Valued.{Suits};

use crate::desk::PromptDesk;
use crate::stops::{goes_back, is_whole, travels_back, travels_whole};
use ss_changes::Snapshot;
use ss_debug::{Command, Debugger, Movement as PlainMovement, obey};
use ss_links::SetBoard;
use ss_trace::{Movement, make_movement};
use std::alloc::AllocError;

impl<'a> PromptDesk<'a> {
    /// A movement of docs/DEBUGGER.md.
    #[tactic(auto, using(crate::proofs::StopRefusals::movements))]
    pub(super) fn make_move<S: SetBoard>(
        &self,
        debugger: &mut Debugger<S>,
        movement: PlainMovement,
        answer: &mut Vec<u8>,
    ) -> Result<(), AllocError>
        requires { Suits debugger.old.machine.input.program self.now.symbols }
        ensures place { OnOk result (state_at debugger.new self.now
            ≡ plain_next (state_at debugger.old self.now) (Move movement)) }
        ensures said { OnOk result (answer.new.items
            ≡ answer.old.items ++ plain_said (state_at debugger.old self.now) (Move movement)) }
        ensures memory { OnErr result (IsPlainRefused (state_at debugger.old self.now)
            (Move movement) (state_at debugger.new self.now)) }
    {
        if is_whole(movement) {
            let left = Snapshot::of(self.alloc, debugger)?;
            obey(debugger, Command::Move(movement), answer)?;
            return self.push_leg(debugger, &left, answer);
        }
        obey(debugger, Command::Move(movement), answer)?;
        self.push_stop(debugger, goes_back(movement), answer)
    }

    /// A movement that is none of docs/DEBUGGER.md.
    #[tactic(auto, using(crate::proofs::StopRefusals::movements))]
    pub(super) fn travel<S: SetBoard>(
        &self,
        debugger: &mut Debugger<S>,
        movement: Movement,
        answer: &mut Vec<u8>,
    ) -> Result<(), AllocError>
        requires { Suits debugger.old.machine.input.program self.now.symbols }
        ensures place { OnOk result (state_at debugger.new self.now
            ≡ travel_next (state_at debugger.old self.now) movement) }
        ensures said { OnOk result (answer.new.items
            ≡ answer.old.items ++ travel_said (state_at debugger.old self.now) movement) }
        ensures memory { OnErr result (IsTravelRefused (state_at debugger.old self.now) movement
            (state_at debugger.new self.now)) }
    {
        if travels_whole(&movement) {
            let left = Snapshot::of(self.alloc, debugger)?;
            make_movement(debugger, movement, answer)?;
            return self.push_leg(debugger, &left, answer);
        }
        let is_back = travels_back(&movement, debugger.machine().position());
        make_movement(debugger, movement, answer)?;
        self.push_stop(debugger, is_back, answer)
    }
}

//! The text at the stop of a movement.
ghost use Rattle.std.specs.Prelude.{◌≡◌, ◌++◌, OnOk, OnErr};
ghost use Rattle.ss_changes.specs.Snapshots.{IsTakenIn};
ghost use Rattle.ss_prompt.specs.PromptState.{state_at};
ghost use Rattle.ss_prompt.specs.Stops.{changes_told, head_text, stop_text, leg_text};
ghost use Rattle.ss_prompt.specs.Stops.{HasLookedBeside, IsStopRefused};
ghost use Rattle.ss_prompt.specs.Valued.{Suits};

use crate::desk::PromptDesk;
use crate::displays::push_answers;
use ss_changes::{Snapshot, push_stop_changes, push_stop_changes_ahead, push_stop_changes_since};
use ss_debug::Debugger;
use ss_links::SetBoard;
use std::alloc::AllocError;

impl<'a> PromptDesk<'a> {
    /// Appends the changes of the last step; if a movement went back, the changes of the next one.
    #[tactic(auto, using(crate::proofs::NeighbourStates::beside), unfolding(crate::specs::Stops::HasLookedBeside))]
    fn push_changes<S: SetBoard>(
        &self,
        debugger: &mut Debugger<S>,
        is_back: bool,
        answer: &mut Vec<u8>,
    ) -> Result<(), AllocError>
        ensures place { OnOk result (state_at debugger.new self.now
            ≡ state_at debugger.old self.now) }
        ensures said { OnOk result (answer.new.items
            ≡ answer.old.items ++ changes_told is_back (state_at debugger.old self.now)) }
        ensures memory { OnErr result
            (HasLookedBeside (state_at debugger.old self.now) (state_at debugger.new self.now)) }
    {
        if is_back {
            push_stop_changes_ahead(self.alloc, debugger, answer)
        } else {
            push_stop_changes(self.alloc, debugger, answer)
        }
    }

    /// Appends the text before the changes: on the fault, and the line of the model.
    #[tactic(auto, using(crate::proofs::StopRefusals::stops))]
    fn push_head<S: SetBoard>(
        &self,
        debugger: &mut Debugger<S>,
        answer: &mut Vec<u8>,
    ) -> Result<(), AllocError>
        ensures place { OnOk result (state_at debugger.new self.now
            ≡ state_at debugger.old self.now) }
        ensures said { OnOk result (answer.new.items
            ≡ answer.old.items ++ head_text (state_at debugger.old self.now)) }
        ensures memory { OnErr result
            (IsStopRefused (state_at debugger.old self.now) (state_at debugger.new self.now)) }
    {
        self.push_fault(debugger, answer)?;
        self.push_past(debugger, answer)?;
        self.push_source(debugger, answer)
    }

    /// Appends the text at the stop of a movement, which went back or not, with the changes of one
    /// step.
    #[tactic(auto, using(crate::proofs::StopRefusals::stops))]
    pub(super) fn push_stop<S: SetBoard>(
        &self,
        debugger: &mut Debugger<S>,
        is_back: bool,
        answer: &mut Vec<u8>,
    ) -> Result<(), AllocError>
        requires { Suits debugger.old.machine.input.program self.now.symbols }
        ensures place { OnOk result (state_at debugger.new self.now
            ≡ state_at debugger.old self.now) }
        ensures said { OnOk result (answer.new.items
            ≡ answer.old.items ++ stop_text is_back (state_at debugger.old self.now)) }
        ensures memory { OnErr result
            (IsStopRefused (state_at debugger.old self.now) (state_at debugger.new self.now)) }
    {
        self.push_head(debugger, answer)?;
        self.push_changes(debugger, is_back, answer)?;
        push_answers(debugger, self.symbols, &self.displays, answer)
    }

    /// Appends the text at the stop of a movement from the state of a snapshot, with all that
    /// differs.
    #[tactic(auto, using(crate::proofs::StopRefusals::stops))]
    pub(super) fn push_leg<S: SetBoard>(
        &self,
        debugger: &mut Debugger<S>,
        left: &Snapshot,
        answer: &mut Vec<u8>,
    ) -> Result<(), AllocError>
        requires suits { Suits debugger.old.machine.input.program self.now.symbols }
        requires left { IsTakenIn debugger.old.machine.input left.now }
        ensures place { OnOk result (state_at debugger.new self.now
            ≡ state_at debugger.old self.now) }
        ensures said { OnOk result (answer.new.items ≡ answer.old.items
            ++ leg_text left.now.position (state_at debugger.old self.now)) }
        ensures memory { OnErr result
            (IsStopRefused (state_at debugger.old self.now) (state_at debugger.new self.now)) }
    {
        self.push_head(debugger, answer)?;
        push_stop_changes_since(self.alloc, debugger, left, answer)?;
        push_answers(debugger, self.symbols, &self.displays, answer)
    }
}

//! The commands that look for a change in the steps that were made.
ghost use Rattle.std.specs.Prelude.{◌≡◌, ◌++◌, OnOk, OnErr};
ghost use Rattle.ss_prompt.specs.Histories.{why_said, history_said, HasLookedBack};
ghost use Rattle.ss_prompt.specs.Left.{changed_said, IsChangedRefused};
ghost use Rattle.ss_prompt.specs.PromptState.{state_at};
ghost use Rattle.ss_prompt.specs.Reads.{reads_said};

use crate::desk::PromptDesk;
use crate::left::push_changed_since;
use crate::source::push_marked_line;
use ss_changes::push_changed;
use ss_debug::Debugger;
use ss_links::SetBoard;
use ss_reads::push_reads;
use ss_trace::{Question, push_history, push_why};
use std::alloc::AllocError;

impl<'a> PromptDesk<'a> {
    /// SHOW CHANGED.
    #[tactic(auto, using(crate::proofs::Ways::refusals))]
    pub(super) fn changed<S: SetBoard>(
        &self,
        debugger: &mut Debugger<S>,
        answer: &mut Vec<u8>,
    ) -> Result<(), AllocError>
        ensures place { OnOk result (state_at debugger.new self.now
            ≡ state_at debugger.old self.now) }
        ensures said { OnOk result (answer.new.items
            ≡ answer.old.items ++ changed_said (state_at debugger.old self.now)) }
        ensures memory { OnErr result
            (IsChangedRefused (state_at debugger.old self.now) (state_at debugger.new self.now)) }
    {
        match self.left {
            None => push_changed(self.alloc, debugger, answer),
            Some(left) => push_changed_since(self.alloc, debugger, left, answer),
        }
    }

    /// WHY.
    #[tactic(auto, unfolding(crate::specs::Histories::HasLookedBack))]
    pub(super) fn why<S: SetBoard>(
        &self,
        debugger: &mut Debugger<S>,
        question: &Question,
        answer: &mut Vec<u8>,
    ) -> Result<(), AllocError>
        ensures place { OnOk result (state_at debugger.new self.now
            ≡ state_at debugger.old self.now) }
        ensures said { OnOk result (answer.new.items
            ≡ answer.old.items ++ why_said (state_at debugger.old self.now) question.now) }
        ensures memory { OnErr result
            (HasLookedBack (state_at debugger.old self.now) (state_at debugger.new self.now)) }
    {
        debugger.machine().known();
        let mut change = Vec::new(self.alloc);
        if let Some(line) = push_why(debugger, question, answer, &mut change)? {
            push_marked_line(answer, &self.lines, b"> ", line)?;
        }
        answer.extend_from_slice(&change)
    }

    /// HISTORY.
    #[tactic(auto, unfolding(crate::specs::Histories::HasLookedBack))]
    pub(super) fn history<S: SetBoard>(
        &self,
        debugger: &mut Debugger<S>,
        question: &Question,
        rows: u64,
        answer: &mut Vec<u8>,
    ) -> Result<(), AllocError>
        ensures place { OnOk result (state_at debugger.new self.now
            ≡ state_at debugger.old self.now) }
        ensures said { OnOk result (answer.new.items
            ≡ answer.old.items ++ history_said (state_at debugger.old self.now) question.now rows) }
        ensures memory { OnErr result
            (HasLookedBack (state_at debugger.old self.now) (state_at debugger.new self.now)) }
    {
        push_history(debugger, question, rows, answer)
    }

    /// READS: what the statement that runs next looks at.
    #[tactic(auto, unfolding(crate::specs::Histories::HasLookedBack))]
    pub(super) fn reads<S: SetBoard>(
        &self,
        debugger: &mut Debugger<S>,
        answer: &mut Vec<u8>,
    ) -> Result<(), AllocError>
        ensures place { OnOk result (state_at debugger.new self.now
            ≡ state_at debugger.old self.now) }
        ensures said { OnOk result (answer.new.items
            ≡ answer.old.items ++ reads_said (state_at debugger.old self.now)) }
        ensures memory { OnErr result
            (HasLookedBack (state_at debugger.old self.now) (state_at debugger.new self.now)) }
    {
        push_reads(self.alloc, debugger, answer)
    }
}

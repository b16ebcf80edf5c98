//! SHOW TAKEN and SHOW EVENTS.
ghost use Rattle.std.specs.Prelude.{◌≡◌, ◌++◌, OnOk, OnErr};
ghost use Rattle.ss_prompt.specs.PromptState.{state_at};
ghost use Rattle.ss_prompt.specs.Plain.{plain_next, plain_said, IsPlainRefused};

use crate::desk::PromptDesk;
use crate::notice_rows::push_notice_rows;
use ss_debug::{Command, Debugger, Question as PlainQuestion, obey};
use ss_faults::push_next_pieces;
use ss_links::SetBoard;
use std::alloc::AllocError;

impl<'a> PromptDesk<'a> {
    /// SHOW TAKEN: how many values of the data are taken, and its next pieces, if its text is known.
    #[tactic(auto, using(crate::proofs::TakenRefusals::after_taken, crate::proofs::StopRefusals::movements))]
    pub(super) fn show_taken<S: SetBoard>(
        &self,
        debugger: &mut Debugger<S>,
        answer: &mut Vec<u8>,
    ) -> Result<(), AllocError>
        ensures place { OnOk result (state_at debugger.new self.now
            ≡ plain_next (state_at debugger.old self.now) (Command.Show PlainQuestion.Taken)) }
        ensures said { OnOk result (answer.new.items ≡ answer.old.items
            ++ plain_said (state_at debugger.old self.now) (Command.Show PlainQuestion.Taken)) }
        ensures memory { OnErr result (IsPlainRefused (state_at debugger.old self.now)
            (Command.Show PlainQuestion.Taken) (state_at debugger.new self.now)) }
    {
        obey(debugger, Command::Show(PlainQuestion::Taken), answer)?;
        let machine = debugger.machine();
        machine.known();
        match self.data_text {
            Some(data_text) => push_next_pieces(answer, data_text, machine.taken()),
            None => Ok(()),
        }
    }

    /// SHOW EVENTS.
    #[tactic(auto, using(crate::proofs::TakenRefusals::after_events, crate::proofs::StopRefusals::movements))]
    pub(super) fn show_events<S: SetBoard>(
        &self,
        debugger: &mut Debugger<S>,
        answer: &mut Vec<u8>,
    ) -> Result<(), AllocError>
        ensures place { OnOk result (state_at debugger.new self.now
            ≡ plain_next (state_at debugger.old self.now) (Command.Show PlainQuestion.Events)) }
        ensures said { OnOk result (answer.new.items ≡ answer.old.items
            ++ plain_said (state_at debugger.old self.now) (Command.Show PlainQuestion.Events)) }
        ensures memory { OnErr result (IsPlainRefused (state_at debugger.old self.now)
            (Command.Show PlainQuestion.Events) (state_at debugger.new self.now)) }
    {
        obey(debugger, Command::Show(PlainQuestion::Events), answer)?;
        push_notice_rows(answer, debugger.machine())
    }
}

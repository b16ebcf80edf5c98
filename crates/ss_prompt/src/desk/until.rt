//! RUN UNTIL, BACK UNTIL and GO FIRST.
ghost use Rattle.std.specs.Prelude.{◌≡◌, ◌++◌, OnOk, OnErr, IfOk};
ghost use Rattle.ss_words.specs.Reading.{option_view};
ghost use Rattle.ss_debug.specs.View.{debugger_state_of};
ghost use Rattle.ss_expressions.specs.Aims.{IsSoundAim, IsAimOf};
ghost use Rattle.ss_expressions.specs.AimsView.{aimed_view};
ghost use Rattle.ss_prompt.specs.PromptState.{state_at};
ghost use Rattle.ss_prompt.specs.Until.{holds_at, seek_left, seek_answer, IsSeekCut};
ghost use Rattle.ss_prompt.specs.Until.{seek_next, seek_said, IsSeekRefused, aim_by};
ghost use Rattle.ss_prompt.specs.Until.{until_next, until_said, IsUntilRefused};
ghost use Rattle.ss_prompt.specs.Valued.{Suits};

use crate::advice::push_unread;
use crate::asked_text::AskedText;
use crate::desk::PromptDesk;
use crate::until::Until;
use ss_debug::Debugger;
use ss_expressions::{Aimed, ConditionAim, aim_of};
use ss_links::SetBoard;
use ss_trace::{back_until, go_first, run_until};
use std::alloc::AllocError;

/// Moves to a state in which an aim holds, and appends the answer.
fn seek<S: SetBoard>(
    debugger: &mut Debugger<S>,
    way: Until,
    aim: &ConditionAim,
    answer: &mut Vec<u8>,
) -> Result<(), AllocError>
    requires { IsSoundAim debugger.old.machine.input.program aim.now }
    ensures input { debugger.new.machine.input ≡ debugger.old.machine.input }
    ensures place { OnOk result (debugger_state_of debugger.new
        ≡ seek_left way debugger.old.machine.input (debugger_state_of debugger.old)
        (holds_at debugger.old.machine.input aim.now)) }
    ensures said { OnOk result (answer.new.items ≡ answer.old.items
        ++ seek_answer way debugger.old.machine.input (debugger_state_of debugger.old)
        (holds_at debugger.old.machine.input aim.now)) }
    ensures memory { OnErr result (IsSeekCut way debugger.old.machine.input
        (debugger_state_of debugger.old) (holds_at debugger.old.machine.input aim.now)
        (debugger_state_of debugger.new)) }
{
    match way {
        Until::Run => run_until(debugger, aim, answer),
        Until::Back => back_until(debugger, aim, answer),
        Until::First => go_first(debugger, aim, answer),
    }
}

impl<'a> PromptDesk<'a> {
    /// What a text is as an aim, if a symbol table is kept and the text is a condition.
    fn aim_by<S: SetBoard>(
        &self,
        debugger: &Debugger<S>,
        text: &[u8],
    ) -> Result<Option<Aimed>, AllocError>
        requires { Suits debugger.now.machine.input.program self.now.symbols }
        ensures aim { IfOk result (λ o. option_view aimed_view o
            ≡ aim_by (state_at debugger.now self.now) text.now self.now.symbols) }
        ensures sound { IfOk result (λ o.
            IsAimOf debugger.now.machine.input.program (option_view aimed_view o)) }
    {
        let Some(symbols) = self.symbols else {
            return Ok(None);
        };
        let machine = debugger.machine();
        machine.known();
        aim_of(self.alloc, machine, symbols, text)
    }

    /// Moves to a state in which an aim holds.
    #[tactic(auto, using(crate::proofs::Aims::seeking))]
    fn seek<S: SetBoard>(
        &self,
        debugger: &mut Debugger<S>,
        way: Until,
        aim: &ConditionAim,
        answer: &mut Vec<u8>,
    ) -> Result<(), AllocError>
        requires sound { IsSoundAim debugger.old.machine.input.program aim.now }
        requires suits { Suits debugger.old.machine.input.program self.now.symbols }
        ensures place { OnOk result (state_at debugger.new self.now
            ≡ seek_next (state_at debugger.old self.now) way aim.now) }
        ensures said { OnOk result (answer.new.items ≡ answer.old.items
            ++ seek_said (state_at debugger.old self.now) way aim.now) }
        ensures memory { OnErr result (IsSeekRefused (state_at debugger.old self.now) way aim.now
            (state_at debugger.new self.now)) }
    {
        let from = debugger.machine().position();
        seek(debugger, way, aim, answer)?;
        let is_back = way.goes_back(from, debugger.machine().position());
        self.push_stop(debugger, is_back, answer)
    }

    /// RUN UNTIL, BACK UNTIL or GO FIRST of a text.
    #[tactic(auto, using(crate::proofs::Aims::aiming))]
    pub(crate) fn go_until<S: SetBoard>(
        &self,
        debugger: &mut Debugger<S>,
        way: Until,
        asked: &AskedText,
        answer: &mut Vec<u8>,
    ) -> Result<(), AllocError>
        requires { Suits debugger.old.machine.input.program self.now.symbols }
        ensures place { OnOk result (state_at debugger.new self.now
            ≡ until_next (state_at debugger.old self.now) way asked.now.text) }
        ensures said { OnOk result (answer.new.items ≡ answer.old.items
            ++ until_said (state_at debugger.old self.now) way asked.now.text
            asked.now.is_numbered) }
        ensures memory { OnErr result (IsUntilRefused (state_at debugger.old self.now) way
            asked.now.text (state_at debugger.new self.now)) }
    {
        match self.aim_by(debugger, asked.text.as_slice())? {
            None => push_unread(answer, way.word(), asked.is_numbered),
            Some(Aimed::Refused(text)) => answer.extend_from_slice(&text),
            Some(Aimed::At(aim)) => self.seek(debugger, way, &aim, answer),
        }
    }
}

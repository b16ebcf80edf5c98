//! SHOW of an expression or a condition.
ghost use Rattle.std.specs.Prelude.{◌≡◌, ◌++◌, OnOk, IfOk, option_map};
ghost use Rattle.ss_prompt.specs.PromptState.{state_at};
ghost use Rattle.ss_prompt.specs.Advice.{unread_text};
ghost use Rattle.ss_prompt.specs.Valued.{Suits, show_word, value_by, value_said};

use crate::advice::push_unread;
use crate::asked_text::AskedText;
use crate::desk::PromptDesk;
use crate::line::name_of_word;
use ss_debug::Debugger;
use ss_expressions::asked_answer;
use ss_links::SetBoard;
use std::alloc::AllocError;

/// Appends that SHOW of a text is no command.
fn push_no_value(answer: &mut Vec<u8>, is_numbered: bool) -> Result<(), AllocError>
    ensures { OnOk result (answer.new.items
        ≡ answer.old.items ++ unread_text show_word is_numbered) }
{
    push_unread(answer, name_of_word(b"SHOW"), is_numbered)
}

impl<'a> PromptDesk<'a> {
    /// The value of a text, if a symbol table is kept and the text is an expression or a condition.
    fn value_of<S: SetBoard>(
        &self,
        debugger: &Debugger<S>,
        text: &[u8],
    ) -> Result<Option<Vec<u8>>, AllocError>
        requires { Suits debugger.now.machine.input.program self.now.symbols }
        ensures { IfOk result (λ answer. option_map (λ a. a.items) answer
            ≡ value_by (state_at debugger.now self.now) text.now self.now.symbols) }
    {
        let Some(symbols) = self.symbols else {
            return Ok(None);
        };
        let machine = debugger.machine();
        machine.known();
        asked_answer(self.alloc, machine, symbols, text)
    }

    /// SHOW of a text that is no other question.
    #[tactic(auto, using(crate::proofs::NothingAsked::not_shown))]
    pub(crate) fn show_value<S: SetBoard>(
        &self,
        debugger: &Debugger<S>,
        asked: &AskedText,
        answer: &mut Vec<u8>,
    ) -> Result<(), AllocError>
        requires { Suits debugger.now.machine.input.program self.now.symbols }
        ensures { OnOk result (answer.new.items ≡ answer.old.items
            ++ value_said (state_at debugger.now self.now) asked.now.text asked.now.is_numbered) }
    {
        match self.value_of(debugger, asked.text.as_slice())? {
            Some(value) => answer.extend_from_slice(&value),
            None => push_no_value(answer, asked.is_numbered),
        }
    }
}

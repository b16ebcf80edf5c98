//! The names of the model, and the warnings on it.
ghost use Rattle.std.specs.Prelude.{◌≡◌, ◌++◌, OnOk};
ghost use Rattle.ss_prompt.specs.Names.{names_said, warnings_told, warnings_said};

use crate::desk::PromptDesk;
use ss_debug::{Debugger, Name};
use ss_links::SetBoard;
use ss_names::{push_name, push_names, push_program_warnings, push_warnings};
use std::alloc::AllocError;

impl<'a> PromptDesk<'a> {
    /// NAMES: the names of the model, or the text on one of them.
    #[tactic(auto, unfolding(crate::specs::Names::names_said))]
    pub(super) fn names(&self, name: Option<Name>, answer: &mut Vec<u8>) -> Result<(), AllocError>
        ensures { OnOk result (answer.new.items
            ≡ answer.old.items ++ names_said self.now.model name) }
    {
        if let Some(name) = name {
            return push_name(self.alloc, self.model, name.as_slice(), answer);
        }
        let length = answer.len();
        push_names(self.alloc, self.model, answer)?;
        if length < answer.len() {
            return Ok(());
        }
        answer.extend_from_slice(b"NO NAMES\n")
    }

    /// Appends the warnings on the model: on its words, and on its program.
    #[tactic(auto, unfolding(crate::specs::Names::warnings_told))]
    pub(super) fn push_warnings<S: SetBoard>(
        &self,
        debugger: &Debugger<S>,
        text: &mut Vec<u8>,
    ) -> Result<(), AllocError>
        ensures { OnOk result (text.new.items ≡ text.old.items
            ++ warnings_told debugger.now.machine.input.program self.now.model) }
    {
        push_warnings(self.alloc, self.model, text)?;
        push_program_warnings(self.alloc, debugger.machine().program(), self.model, text)
    }

    /// WARNINGS.
    #[tactic(auto, unfolding(crate::specs::Names::warnings_said))]
    pub(super) fn warnings<S: SetBoard>(
        &self,
        debugger: &Debugger<S>,
        answer: &mut Vec<u8>,
    ) -> Result<(), AllocError>
        ensures { OnOk result (answer.new.items ≡ answer.old.items
            ++ warnings_said debugger.now.machine.input.program self.now.model) }
    {
        let length = answer.len();
        self.push_warnings(debugger, answer)?;
        if length < answer.len() {
            return Ok(());
        }
        answer.extend_from_slice(b"NO WARNINGS\n")
    }
}

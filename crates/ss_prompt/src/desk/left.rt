//! The position that the last movement left, if all that it changed is shown.
ghost use Rattle.std.specs.Prelude.{◌≡◌};
ghost use Rattle.ss_prompt.specs.Left.{left_after};
ghost use Rattle.ss_prompt.specs.PromptState.{state_at, leaving};

use crate::commands::PromptCommand;
use crate::desk::PromptDesk;
use crate::stops::moves_whole;
use ss_debug::Debugger;
use ss_links::SetBoard;

impl<'a> PromptDesk<'a> {
    /// That position after a command.
    pub(super) fn left_after<S: SetBoard>(
        &self,
        debugger: &Debugger<S>,
        command: &PromptCommand,
    ) -> Option<u64>
        ensures { result ≡ left_after (state_at debugger.now self.now) command.now }
    {
        if moves_whole(command) {
            return Some(debugger.machine().position());
        }
        if command.is_movement() {
            return None;
        }
        self.left
    }

    /// Notes it.
    pub(super) fn note_left(&mut self, left: Option<u64>)
        ensures { self.new ≡ leaving self.old left }
    {
        self.left = left;
    }
}

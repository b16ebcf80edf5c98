//! IF, ELSE and ALWAYS.
ghost use Rattle.std.specs.Prelude.{◌≡◌, ◌<◌};
ghost use Rattle.ss_program.specs.ProgramSound.{IsSoundQuestion, IsSoundBranch};
ghost use Rattle.ss_machine.specs.Executor.{state, tables};
ghost use Rattle.ss_machine.specs.Noting.{Notes};
ghost use Rattle.ss_machine.specs.Seen.{InHeld};
ghost use Rattle.ss_state.specs.Statements.Branching.{step_branch, question_answer};

use crate::executor::Executor;
use ss_links::SetBoard;
use ss_program::{Branch, Question, Ways};
use ss_state::Status;
use ss_values::holds;
use ss_words::RunFault;

impl<S: SetBoard> Executor<S> {
    fn answer(&self, question: &Question) -> Result<bool, RunFault>
        requires { InHeld self.now.held IsSoundQuestion question.now }
        ensures { result ≡ question_answer (tables self.now) (state self.now) question.now }
    {
        match question {
            Question::Whether(condition) => holds(self.held.view(), condition),
            Question::WasFound => Ok(self.held.found()),
            Question::WasNone => Ok(!self.held.found()),
        }
    }

    #[inline(never)]
    pub fn run_branch(&mut self, ways: Ways, branch: &Branch)
        requires sound { InHeld self.old.held IsSoundBranch branch.now }
        requires room { 0 < self.old.journal.notes }
        ensures state { state self.new
            ≡ step_branch (tables self.old) (state self.old) ways branch.now }
        ensures notes { Notes 1 self.old self.new }
    {
        match branch {
            Branch::If(question) => match self.answer(question) {
                Ok(true) => self.go_to(ways.next),
                Ok(false) => self.go_to(ways.exit),
                Err(fault) => self.mark(Status::Faulted(fault)),
            },
            Branch::Else | Branch::Always => self.go_to(ways.next),
        }
    }
}

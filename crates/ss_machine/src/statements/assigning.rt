//! LET, ADD and SUBTRACT.
ghost use Rattle.std.specs.Prelude.{◌≡◌, ◌<◌, []};
ghost use Rattle.ss_program.specs.ProgramSound.{IsSoundAssign};
ghost use Rattle.ss_machine.specs.Executor.{state, tables};
ghost use Rattle.ss_machine.specs.Noting.{Notes};
ghost use Rattle.ss_machine.specs.Outcome.{LeadsTo};
ghost use Rattle.ss_machine.specs.Seen.{InHeld};
ghost use Rattle.ss_state.specs.Statements.Assigning.{target_of, state_after_assign, step_assign};

use crate::executor::Executor;
use ss_links::SetBoard;
use ss_program::{Assign, Target};
use ss_values::{assigned_value, value};
use ss_words::RunFault;

impl<S: SetBoard> Executor<S> {
    #[inline(always)]
    fn assign_value(&mut self, assign: &Assign) -> Result<(), RunFault>
        requires sound { InHeld self.old.held IsSoundAssign assign.now }
        requires room { 0 < self.old.journal.notes }
        ensures outcome { LeadsTo result
            (state_after_assign (tables self.old) (state self.old) assign.now) (state self.new) }
        ensures notes { Notes 1 self.old self.new }
    {
        let value = assigned_value(self.held.view(), assign)?;
        self.assign_target(target(assign), value)
    }

    #[inline(never)]
    pub fn run_assign(&mut self, next: usize, assign: &Assign)
        requires sound { InHeld self.old.held IsSoundAssign assign.now }
        requires none { self.old.journal.current ≡ [] }
        requires room { 1 < self.old.journal.notes }
        ensures state { state self.new
            ≡ step_assign (tables self.old) (state self.old) next assign.now }
        ensures notes { Notes 2 self.old self.new }
    {
        let done = self.assign_value(assign);
        self.settle(next, done);
    }
}

fn target(assign: &Assign) -> &Target
    ensures { result.now ≡ target_of assign.now }
{
    match assign {
        Assign::Let { target, .. } => target,
        Assign::Add { target, .. } => target,
        Assign::Subtract { target, .. } => target,
    }
}

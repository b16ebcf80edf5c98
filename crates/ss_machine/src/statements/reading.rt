//! READ of the data.
ghost use Rattle.std.specs.Prelude.{◌≡◌, ◌+◌, ◌<◌, [], length, OnOk};
ghost use Rattle.ss_program.specs.ProgramSound.{AreTargets};
ghost use Rattle.ss_store.specs.Tables.{tables_of};
ghost use Rattle.ss_machine.specs.Executor.{state, tables};
ghost use Rattle.ss_machine.specs.Noting.{Notes};
ghost use Rattle.ss_machine.specs.Outcome.{LeadsToOrRefuses};
ghost use Rattle.ss_machine.specs.Seen.{InHeld};
ghost use Rattle.ss_state.specs.Statements.Reading.{step_read, state_after_read};

use crate::executor::Executor;
use crate::state::external::has_external;
use ss_links::SetBoard;
use ss_program::{Program, Targets};
use ss_state::Entry;
use ss_values::values;
use ss_words::{RunFault, StepFault};
use std::alloc::AllocError;

impl<S: SetBoard> Executor<S> {
    /// Takes the values of a READ and assigns them to its targets, or answers the first fault.
    fn take(&mut self, program: &Program, targets: &Targets) -> Result<(), StepFault>
        requires tables { tables self.old ≡ tables_of program.now }
        requires sound { InHeld self.old.held AreTargets targets.now }
        requires room { 1 + length targets.now < self.old.journal.notes }
        ensures outcome { LeadsToOrRefuses result
            (state_after_read program.now (state self.old) targets.now) (state self.new) }
        ensures notes { Notes (1 + length targets.now) self.old self.new }
    {
        if let Entry::Waiting { .. } = self.held.entry() {
            return Err(StepFault::Fault(RunFault::OutsideEntry));
        }
        let change = self
            .held
            .take(has_external(program), targets, &mut self.values)?;
        self.journal.note(change);
        self.assign_kept(0, targets)?;
        Ok(())
    }

    #[inline(never)]
    pub fn read(
        &mut self,
        program: &Program,
        next: usize,
        targets: &Targets,
    ) -> Result<(), AllocError>
        requires tables { tables self.old ≡ tables_of program.now }
        requires sound { InHeld self.old.held AreTargets targets.now }
        requires none { self.old.journal.current ≡ [] }
        requires room { 1 + length targets.now < self.old.journal.notes }
        ensures state { OnOk result
            (state self.new ≡ step_read program.now (state self.old) next targets.now) }
        ensures notes { Notes (2 + length targets.now) self.old self.new }
    {
        let done = self.take(program, targets);
        self.settle_or_refuse(next, done)
    }
}

//! PRINT and SKIP, which append to the report.
ghost use Rattle.std.specs.Prelude.{◌≡◌, ◌<◌, length, OnOk};
ghost use Rattle.ss_report.specs.Pictures.{field_count};
ghost use Rattle.ss_program.specs.ProgramSound.{IsSoundExpr, IsSoundOutput, AreSoundExprs};
ghost use Rattle.ss_machine.specs.Executor.{state, tables};
ghost use Rattle.ss_machine.specs.Noting.{Notes};
ghost use Rattle.ss_machine.specs.Seen.{InHeld};
ghost use Rattle.ss_state.specs.Statements.Printing.{state_after_print, state_after_skip, step_output};
ghost use Rattle.ss_state.specs.Statements.Printing as steps;
ghost use Rattle.ss_values.specs.Seen.{view_readings, InView};

use crate::executor::Executor;
use ss_links::SetBoard;
use ss_program::{Expr, Output, Values};
use ss_report::Picture;
use ss_state::{MOST_SKIPPED_LINES, Status};
use ss_values::{View, value, values};
use ss_words::{RunFault, StepFault};
use std::alloc::AllocError;

impl<S: SetBoard> Executor<S> {
    /// Gets the values, and prints the picture with them and goes on, or marks the first fault.
    fn print(&mut self, next: usize, es: &Values, picture: &Picture) -> Result<(), AllocError>
        requires fields { length es.now ≡ field_count picture.now }
        requires sound { InHeld self.old.held AreSoundExprs es.now }
        requires room { 1 < self.old.journal.notes }
        ensures state { OnOk result (state self.new
            ≡ state_after_print (tables self.old) (state self.old) next es.now picture.now) }
        ensures notes { Notes 2 self.old self.new }
    {
        let printed = match values(self.held.view(), es, &mut self.values) {
            Ok(()) => self.held.print(picture, self.values.as_slice()),
            Err(fault) => Err(fault),
        };
        match printed {
            Ok(change) => {
                self.journal.note(change);
                self.go_to(next);
                Ok(())
            }
            Err(StepFault::Fault(fault)) => {
                self.mark(Status::Faulted(fault));
                Ok(())
            }
            Err(StepFault::Memory) => Err(AllocError),
        }
    }

    /// Appends `count` line feeds and goes on, or marks the fault.
    fn skip(&mut self, next: usize, count: Result<usize, RunFault>) -> Result<(), AllocError>
        requires room { 1 < self.old.journal.notes }
        ensures state { OnOk result
            (state self.new ≡ state_after_skip (state self.old) next count) }
        ensures notes { Notes 2 self.old self.new }
    {
        let skipped = match count {
            Ok(lines) => self.held.skip(lines),
            Err(fault) => Err(StepFault::Fault(fault)),
        };
        match skipped {
            Ok(change) => {
                self.journal.note(change);
                self.go_to(next);
                Ok(())
            }
            Err(StepFault::Fault(fault)) => {
                self.mark(Status::Faulted(fault));
                Ok(())
            }
            Err(StepFault::Memory) => Err(AllocError),
        }
    }

    #[inline(never)]
    pub fn run_output(&mut self, next: usize, output: &Output) -> Result<(), AllocError>
        requires sound { InHeld self.old.held IsSoundOutput output.now }
        requires room { 1 < self.old.journal.notes }
        ensures state { OnOk result
            (state self.new ≡ step_output (tables self.old) (state self.old) next output.now) }
        ensures notes { Notes 2 self.old self.new }
    {
        match output {
            Output::Print {
                values,
                picture,
                ..
            } => self.print(next, values, picture),
            Output::Skip(count) => {
                let count = line_count(self.held.view(), count);
                self.skip(next, count)
            }
        }
    }
}

/// How many lines a SKIP appends, or the first fault: F13 if they are below 0 or too many.
pub fn line_count<S: SetBoard>(view: View<'_, S>, count: &Expr) -> Result<usize, RunFault>
    requires { InView view IsSoundExpr count.now }
    ensures { result ≡ steps.lines_asked (view_readings view.entry) count.now }
{
    let count = value(view, count)?;
    if count < 0 || MOST_SKIPPED_LINES < count {
        return Err(RunFault::CountOutOfRange);
    }
    Ok(count.unsigned_abs() as usize)
}

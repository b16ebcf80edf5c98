//! CREATE, CREATE EVERY and DESTROY.
ghost use Rattle.std.specs.Prelude.{◌≡◌, ◌<◌, [], length, true, OnOk, false};
ghost use Rattle.ss_program.specs.ProgramSound.{IsTarget, IsSoundOption, IsSoundExpr, IsSoundMaking};
ghost use Rattle.ss_machine.specs.Executor.{state, tables};
ghost use Rattle.ss_machine.specs.Noting.{Notes};
ghost use Rattle.ss_machine.specs.Outcome.{LeadsTo, LeadsToOrRefuses};
ghost use Rattle.ss_machine.specs.Seen.{InHeld};
ghost use Rattle.ss_state.specs.Statements.Entities.{step_making, state_after_create, state_after_making};
ghost use Rattle.ss_state.specs.Statements.Entities.{state_after_destroy};
ghost use Rattle.ss_program.specs.declared.making.Making.TheVariants as making;
ghost use Rattle.ss_store.specs.Tables.{class_of};
ghost use Rattle.ss_state.specs.Statements.Entities as steps;
ghost use Rattle.ss_values.specs.Seen.{view_readings, InView};

use crate::executor::Executor;
use ss_links::SetBoard;
use ss_program::{Expr, Making, Target, Variable};
use ss_values::{View, value, variable_value};
use ss_words::{RunFault, StepFault};
use std::alloc::{AllocError, Global};

impl<S: SetBoard> Executor<S> {
    /// CREATE: makes the entity, then assigns its reference.
    fn create(&mut self, class: usize, target: &Target) -> Result<(), StepFault>
        requires class { class < length (tables self.old).classes }
        requires kind { (class_of (tables self.old) class).permanent ≡ false }
        requires target { InHeld self.old.held IsTarget target.now }
        requires room { 1 < self.old.journal.notes }
        ensures outcome { LeadsToOrRefuses result
            (state_after_create (tables self.old) (state self.old) class target.now)
            (state self.new) }
        ensures notes { Notes 2 self.old self.new }
    {
        let (number, change) = self.held.create(class)?;
        self.journal.note(change);
        self.assign_target(target, i64::from(number))?;
        Ok(())
    }

    /// CREATE EVERY: makes the entities, then assigns their number to the variable `count`.
    fn create_every(
        &mut self,
        class: usize,
        number: &Option<Expr>,
        count: usize,
    ) -> Result<(), StepFault>
        requires class { class < length (tables self.old).classes }
        requires kind { (class_of (tables self.old) class).permanent ≡ true }
        requires number { InHeld self.old.held IsSoundOption number.now }
        requires count { count < length (state self.old).variables }
        requires room { 1 < self.old.journal.notes }
        ensures outcome { LeadsToOrRefuses result
            (state_after_making (tables self.old) (state self.old)
            (making.CreateEvery class number.now count)) (state self.new) }
        ensures notes { Notes 2 self.old self.new }
    {
        let asked = number_asked(self.held.view(), number, count)?;
        let change = self.held.create_all(class, asked)?;
        self.journal.note(change);
        self.assign(Variable::Global(count), asked);
        Ok(())
    }

    /// DESTROY: ends the entity that a value names.
    fn destroy(&mut self, class: usize, entity: &Expr) -> Result<(), RunFault>
        requires class { class < length (tables self.old).classes }
        requires kind { (class_of (tables self.old) class).permanent ≡ false }
        requires entity { InHeld self.old.held IsSoundExpr entity.now }
        requires room { 0 < self.old.journal.notes }
        ensures outcome { LeadsTo result
            (state_after_destroy (tables self.old) (state self.old) class entity.now)
            (state self.new) }
        ensures notes { Notes 1 self.old self.new }
    {
        let x = value(self.held.view(), entity)?;
        let number = self.held.entity_named(class, x)?;
        if self.held.is_pending(number) {
            return Err(RunFault::EndedInUse);
        }
        let change = self.held.destroy(class, x)?;
        self.journal.note(change);
        Ok(())
    }

    #[tactic(auto, using(crate::proofs::Scopes::kind_there, crate::proofs::Scopes::kind_is))]
    fn make(&mut self, making: &Making) -> Result<(), StepFault>
        requires sound { InHeld self.old.held IsSoundMaking making.now }
        requires room { 1 < self.old.journal.notes }
        ensures outcome { LeadsToOrRefuses result
            (state_after_making (tables self.old) (state self.old) making.now) (state self.new) }
        ensures notes { Notes 2 self.old self.new }
    {
        match making {
            Making::Create { class, target, .. } => self.create(*class, target),
            Making::CreateEvery {
                class,
                number,
                count,
            } => self.create_every(*class, number, *count),
            Making::Destroy { class, entity, .. } => {
                self.destroy(*class, entity)?;
                Ok(())
            }
        }
    }

    #[inline(never)]
    pub fn run_making(&mut self, next: usize, making: &Making) -> Result<(), AllocError>
        requires sound { InHeld self.old.held IsSoundMaking making.now }
        requires none { self.old.journal.current ≡ [] }
        requires room { 2 < self.old.journal.notes }
        ensures state { OnOk result
            (state self.new ≡ step_making (tables self.old) (state self.old) next making.now) }
        ensures notes { Notes 3 self.old self.new }
    {
        let done = self.make(making);
        self.settle_or_refuse(next, done)
    }
}

/// How many entities CREATE EVERY makes: as many as are written, else the value of `N.class`.
pub fn number_asked<S: SetBoard>(
    view: View<'_, S>,
    number: &Option<Expr>,
    count: usize,
) -> Result<i64, RunFault>
    requires number { InView view IsSoundOption number.now }
    requires count { count < length view.variables.now }
    ensures { result ≡ steps.number_asked (view_readings view.entry) number.now count }
{
    match number {
        None => Ok(variable_value(view, Variable::Global(count))),
        Some(e) => value(view, e),
    }
}

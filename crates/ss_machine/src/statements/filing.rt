//! FILE and REMOVE.
ghost use Rattle.std.specs.Prelude.{◌≡◌, ◌<◌, []};
ghost use Rattle.ss_program.specs.ProgramSound.{IsTarget, IsSoundSetRef, IsSoundFiling, IsSoundPosition};
ghost use Rattle.ss_machine.specs.Executor.{state, tables};
ghost use Rattle.ss_machine.specs.Noting.{Notes};
ghost use Rattle.ss_machine.specs.Outcome.{LeadsTo};
ghost use Rattle.ss_machine.specs.Seen.{InHeld};
ghost use Rattle.ss_state.specs.Statements.Filing.{step_filing, state_after_file, state_after_remove_end};
ghost use Rattle.ss_state.specs.Statements.Filing.{state_after_remove, state_after_filing};
ghost use Rattle.ss_state.specs.Statements.Filing as steps;
ghost use Rattle.ss_values.specs.Seen.{view_readings, InView};
ghost use Rattle.ss_values.specs.Values as evaluated;

use crate::executor::Executor;
use ss_links::SetBoard;
use ss_program::{Filing, Position, SetEnd, SetRef, Target};
use ss_store::{How, Which};
use ss_values::{View, subscript_value, value};
use ss_words::RunFault;

impl<S: SetBoard> Executor<S> {
    /// Files the member that a value names in a list, whose owner another one names.
    fn file(&mut self, set: &SetRef, member: i64, how: How) -> Result<(), RunFault>
        requires sound { InHeld self.old.held IsSoundSetRef set.now }
        requires room { 0 < self.old.journal.notes }
        ensures outcome { LeadsTo result
            (state_after_file (tables self.old) (state self.old) set.now member how)
            (state self.new) }
        ensures notes { Notes 1 self.old self.new }
    {
        let owner = owner_value(self.held.view(), set)?;
        let change = self.held.file(set.set, owner, member, how)?;
        self.journal.note(change);
        Ok(())
    }

    /// Removes an end of a list, and assigns its number.
    fn remove_end(&mut self, end: SetEnd, target: &Target, set: &SetRef) -> Result<(), RunFault>
        requires sound { InHeld self.old.held IsSoundSetRef set.now }
        requires target { InHeld self.old.held IsTarget target.now }
        requires room { 1 < self.old.journal.notes }
        ensures outcome { LeadsTo result
            (state_after_remove_end (tables self.old) (state self.old) set.now end target.now)
            (state self.new) }
        ensures notes { Notes 2 self.old self.new }
    {
        let owner = owner_value(self.held.view(), set)?;
        let (number, change) = self.held.remove(set.set, owner, which_at(end))?;
        self.journal.note(change);
        self.assign_target(target, i64::from(number))
    }

    /// Removes the member that a value names from a list.
    fn remove(&mut self, member: i64, set: &SetRef) -> Result<(), RunFault>
        requires sound { InHeld self.old.held IsSoundSetRef set.now }
        requires room { 0 < self.old.journal.notes }
        ensures outcome { LeadsTo result
            (state_after_remove (tables self.old) (state self.old) set.now member)
            (state self.new) }
        ensures notes { Notes 1 self.old self.new }
    {
        let owner = owner_value(self.held.view(), set)?;
        let (_, change) = self.held.remove(set.set, owner, Which::Member(member))?;
        self.journal.note(change);
        Ok(())
    }

    fn file_or_remove(&mut self, filing: &Filing) -> Result<(), RunFault>
        requires sound { InHeld self.old.held IsSoundFiling filing.now }
        requires room { 1 < self.old.journal.notes }
        ensures outcome { LeadsTo result
            (state_after_filing (tables self.old) (state self.old) filing.now) (state self.new) }
        ensures notes { Notes 2 self.old self.new }
    {
        match filing {
            Filing::File {
                member,
                position,
                set,
            } => {
                let x = value(self.held.view(), member)?;
                let how = how_asked(self.held.view(), position)?;
                self.file(set, x, how)
            }
            Filing::FileAt { end, member, set } => {
                let x = value(self.held.view(), member)?;
                self.file(set, x, how_at(*end))
            }
            Filing::RemoveAt { end, target, set } => self.remove_end(*end, target, set),
            Filing::Remove { member, set } => {
                let x = value(self.held.view(), member)?;
                self.remove(x, set)
            }
        }
    }

    #[inline(never)]
    pub fn run_filing(&mut self, next: usize, filing: &Filing)
        requires sound { InHeld self.old.held IsSoundFiling filing.now }
        requires none { self.old.journal.current ≡ [] }
        requires room { 2 < self.old.journal.notes }
        ensures state { state self.new
            ≡ step_filing (tables self.old) (state self.old) next filing.now }
        ensures notes { Notes 3 self.old self.new }
    {
        let done = self.file_or_remove(filing);
        self.settle(next, done);
    }
}

/// The value that names the owner of a list.
pub fn owner_value<S: SetBoard>(view: View<'_, S>, set: &SetRef) -> Result<i64, RunFault>
    requires { InView view IsSoundSetRef set.now }
    ensures { result ≡ evaluated.subscript_value (view_readings view.entry) set.now.owner }
{
    subscript_value(view, &set.owner)
}

/// An end of a list as FILE names it.
pub fn how_at(end: SetEnd) -> How
    ensures { result ≡ steps.how_at end }
{
    match end {
        SetEnd::First => How::First,
        SetEnd::Last => How::Last,
    }
}

/// An end of a list as REMOVE names it.
pub fn which_at(end: SetEnd) -> Which
    ensures { result ≡ steps.which_at end }
{
    match end {
        SetEnd::First => Which::First,
        SetEnd::Last => Which::Last,
    }
}

/// The place at which FILE puts a member, with the value that names another one.
pub fn how_asked<S: SetBoard>(view: View<'_, S>, position: &Position) -> Result<How, RunFault>
    requires { InView view IsSoundPosition position.now }
    ensures { result ≡ steps.how_asked (view_readings view.entry) position.now }
{
    match position {
        Position::ByRule => Ok(How::ByRule),
        Position::AtEnd(end) => Ok(how_at(*end)),
        Position::Before(e) => Ok(How::Before(value(view, e)?)),
        Position::After(e) => Ok(How::After(value(view, e)?)),
    }
}

//! The debugger, and the effect of each command.
mod single;

ghost use Rattle.std.specs.Prelude.{◌≡◌, ◌++◌, [], codes, true, map, Some, OnOk, OnErr, IfOk, IsOk};
ghost use Rattle.ss_machine.specs.Moment.{position};
ghost use Rattle.ss_debug.specs.Move.{forward, back, search_back, shape_of, is_on_break, starts_event};
ghost use Rattle.ss_debug.specs.Turn.{debugger_state_after_movement, movement_answer};
ghost use Rattle.ss_debug.specs.Turn.{debugger_state_after_forget, forget_answer, show_answer};
ghost use Rattle.ss_debug.specs.Turn.{debugger_state_after, answer, go_of, is_silent};
ghost use Rattle.ss_debug.specs.Answer.{break_text, break_when_text, clear_text};
ghost use Rattle.ss_debug.specs.BreakCondition.{IsSoundOf, IsSoundIfAny};
ghost use Rattle.ss_debug.specs.BreakLines.{breaks_with, breaks_after_set, without_break, is_break_line};
ghost use Rattle.ss_debug.specs.BreakLines.{is_full, break_lines};
ghost use Rattle.ss_debug.specs.BreakTable.{shown_break};
ghost use Rattle.ss_debug.specs.View.{debugger_state_of, condition_in};
ghost use Rattle.ss_debug.specs.AfterRefusal.{IsStateAfterRefusedMovement, IsStateAfterRefusal};

use crate::break_condition::BreakCondition;
use crate::break_lines::BreakLines;
use crate::commands::{Command, Movement, Question};
use crate::go::Go;
use crate::limits::GREATEST_BOUND;
use crate::movement::{back, back_break, back_event, forward};
use crate::movement_text::{
    back_break_word, back_event_word, back_word, forward_word, movement_text,
};
use crate::shown_break::ShownBreak;
use crate::stop_condition::{StopCondition, Target};
use crate::text::{break_text, break_when_text, clear_text, kept_text};
use ss_links::SetBoard;
use ss_machine::Machine;
use ss_program::Boxed;
use std::alloc::{AllocError, Global};
use std::marker::Model;

/// A machine under the commands of an analyst. Contracts see the machine and the break lines.
#[derive(Drop)]
pub struct Debugger<S: SetBoard> {
    machine: Machine<S>,
    breaks: BreakLines,
    alloc: Global,
}

impl<S: SetBoard> Model for Debugger<S> {
    ghost use Rattle.std.specs.Coded.{codes};
    ghost use Rattle.ss_debug.specs.BreakLines.{AreSoundBreaks};
    ghost use Rattle.ss_debug.specs.View.{DebuggerView};
    ghost use Rattle.ss_debug.specs.contracts.break_condition.BreakCondition as one;
    ghost use Rattle.ss_program.specs.contracts.program.Program as checked;

    ghost Value = { DebuggerView };

    ghost coded = { Prim.hlevel (codes, checked.the_row.coded, one.the_row.coded) };

    ghost view = { λ d. record { machine = d.machine; breaks = d.breaks } };

    ghost invariant = { λ d. AreSoundBreaks d.machine.input.program d.breaks };
}

impl<S: SetBoard> Debugger<S> {
    /// A debugger over a machine, without break lines; takes no memory.
    pub fn new(alloc: Global, machine: Machine<S>) -> Self
        ensures { result ≡ record { machine = machine; breaks = [] } }
    {
        Debugger {
            machine,
            breaks: BreakLines::new(alloc),
            alloc,
        }
    }

    /// Gives the debugger's memory back, with that of its machine: the caller's crate does not prove
    /// its end.
    pub fn end(self) {
        let Debugger {
            machine,
            breaks,
            ..
        } = self;
        drop(breaks);
        machine.end();
    }

    /// The machine, at the position to which the commands so far have led.
    pub fn machine(&self) -> &Machine<S>
        ensures { result.now ≡ self.now.machine }
    {
        &self.machine
    }

    /// The break lines, in ascending order; wants memory for them.
    pub fn break_lines(&self, alloc: Global) -> Result<Vec<usize>, AllocError>
        ensures { IfOk result (λ lines. lines.items ≡ break_lines self.now.breaks) }
    {
        self.breaks.listed(alloc)
    }

    /// The break lines with the texts of their conditions, in ascending order; wants memory for
    /// them.
    pub fn shown_breaks(&self, alloc: Global) -> Result<Vec<ShownBreak>, AllocError>
        ensures { IfOk result (λ shown. shown.items ≡ map shown_break self.now.breaks) }
    {
        self.breaks.shown(alloc)
    }

    /// Whether a line is a break line, with a condition or without.
    pub fn is_break_line(&self, line: usize) -> bool
        ensures { result ≡ is_break_line self.now.breaks line }
    {
        self.breaks.contains(line)
    }

    /// Whether there is no room for a break line: as many others are set as may be.
    pub fn is_full_for(&self, line: u32) -> bool
        ensures { result ≡ is_full self.now.breaks line }
    {
        self.breaks.is_full(line)
    }

    /// A forward movement, and its answer.
    #[tactic(auto, using(crate::proofs::Timelines::sound_in))]
    fn forward(
        &mut self,
        condition: StopCondition,
        bound: u64,
        bytes: &mut Vec<u8>,
    ) -> Result<(), AllocError>
        ensures input { self.new.machine.input ≡ self.old.machine.input }
        ensures place { OnOk result (debugger_state_of self.new
            ≡ debugger_state_after_movement self.old.machine.input (debugger_state_of self.old)
            (forward (condition_in self.old condition) bound)) }
        ensures said { OnOk result (bytes.new.items ≡ bytes.old.items
            ++ movement_answer self.old.machine.input (debugger_state_of self.old)
            (forward (condition_in self.old condition) bound)) }
        ensures memory { OnErr result ((bytes.new.items ≡ bytes.old.items)
            × IsStateAfterRefusedMovement self.old.machine.input (debugger_state_of self.old)
            (forward (condition_in self.old condition) bound) (debugger_state_of self.new)) }
    {
        let from = self.machine.position();
        let before = forward(&mut self.machine, &self.breaks, condition, bound)?;
        let word = forward_word(&self.machine, &self.breaks, condition, from, bound, before);
        let text = movement_text(self.alloc, word, &self.machine)?;
        bytes.extend_from_slice(&text)
    }

    /// BACK, and its answer.
    #[tactic(auto, using(crate::proofs::Timelines::sound_in))]
    fn back(&mut self, count: u64, bytes: &mut Vec<u8>) -> Result<(), AllocError>
        ensures input { self.new.machine.input ≡ self.old.machine.input }
        ensures place { debugger_state_of self.new
            ≡ debugger_state_after_movement self.old.machine.input (debugger_state_of self.old)
            (back count) }
        ensures said { OnOk result (bytes.new.items ≡ bytes.old.items
            ++ movement_answer self.old.machine.input (debugger_state_of self.old)
            (back count)) }
        ensures memory { OnErr result (bytes.new.items ≡ bytes.old.items) }
    {
        let word = back_word(&self.machine, count);
        back(&mut self.machine, count);
        let text = movement_text(self.alloc, word, &self.machine)?;
        bytes.extend_from_slice(&text)
    }

    /// BACK BREAK, and its answer.
    #[tactic(auto, using(crate::proofs::Timelines::sound_in))]
    fn back_break(&mut self, bytes: &mut Vec<u8>) -> Result<(), AllocError>
        ensures input { self.new.machine.input ≡ self.old.machine.input }
        ensures place { debugger_state_of self.new
            ≡ debugger_state_after_movement self.old.machine.input (debugger_state_of self.old)
            (search_back (is_on_break self.old.machine.input self.old.breaks) (codes "BREAK")) }
        ensures said { OnOk result (bytes.new.items ≡ bytes.old.items
            ++ movement_answer self.old.machine.input (debugger_state_of self.old)
            (search_back (is_on_break self.old.machine.input self.old.breaks) (codes "BREAK"))) }
        ensures memory { OnErr result (bytes.new.items ≡ bytes.old.items) }
    {
        let from = self.machine.position();
        back_break(&mut self.machine, &self.breaks, GREATEST_BOUND);
        let word = back_break_word(&self.machine, &self.breaks, from);
        let text = movement_text(self.alloc, word, &self.machine)?;
        bytes.extend_from_slice(&text)
    }

    /// BACK EVENT, and its answer.
    #[tactic(auto, using(crate::proofs::Timelines::sound_in))]
    fn back_event(&mut self, bytes: &mut Vec<u8>) -> Result<(), AllocError>
        ensures input { self.new.machine.input ≡ self.old.machine.input }
        ensures place { debugger_state_of self.new
            ≡ debugger_state_after_movement self.old.machine.input (debugger_state_of self.old)
            (search_back (starts_event self.old.machine.input) (codes "EVENT")) }
        ensures said { OnOk result (bytes.new.items ≡ bytes.old.items
            ++ movement_answer self.old.machine.input (debugger_state_of self.old)
            (search_back (starts_event self.old.machine.input) (codes "EVENT"))) }
        ensures memory { OnErr result (bytes.new.items ≡ bytes.old.items) }
    {
        let from = self.machine.position();
        let is_met = back_event(&mut self.machine, GREATEST_BOUND);
        let word = back_event_word(&self.machine, from, is_met);
        let text = movement_text(self.alloc, word, &self.machine)?;
        bytes.extend_from_slice(&text)
    }

    /// A movement, and its answer.
    fn go(&mut self, movement: Movement, bytes: &mut Vec<u8>) -> Result<(), AllocError>
        ensures input { self.new.machine.input ≡ self.old.machine.input }
        ensures place { OnOk result (debugger_state_of self.new
            ≡ debugger_state_after_movement self.old.machine.input (debugger_state_of self.old)
            (shape_of self.old.machine.input self.old.breaks movement)) }
        ensures said { OnOk result (bytes.new.items ≡ bytes.old.items
            ++ movement_answer self.old.machine.input (debugger_state_of self.old)
            (shape_of self.old.machine.input self.old.breaks movement)) }
        ensures memory { OnErr result ((bytes.new.items ≡ bytes.old.items)
            × IsStateAfterRefusedMovement self.old.machine.input (debugger_state_of self.old)
            (shape_of self.old.machine.input self.old.breaks movement)
            (debugger_state_of self.new)) }
    {
        match movement {
            Movement::Step(n) => self.forward(StopCondition::new(None, Target::Nothing), n, bytes),
            Movement::Run(n) => self.forward(StopCondition::new(None, Target::BreakLine), n, bytes),
            Movement::RunTo(time) => {
                self.forward(
                    StopCondition::new(Some(time), Target::BreakLine),
                    GREATEST_BOUND,
                    bytes,
                )
            }
            Movement::Next => {
                self.forward(
                    StopCondition::new(None, Target::EventStart),
                    GREATEST_BOUND,
                    bytes,
                )
            }
            Movement::Back(n) => self.back(n, bytes),
            Movement::BackEvent => self.back_event(bytes),
            Movement::BackBreak => self.back_break(bytes),
        }
    }

    /// Makes a line a break line with a condition, or without one, unless there are too many, and
    /// appends a text.
    #[tactic(auto, using(crate::proofs::BreakTables::sound_with))]
    fn put_break(
        &mut self,
        line: u32,
        when: Option<Boxed<BreakCondition>>,
        text: &[u8],
        bytes: &mut Vec<u8>,
    ) -> Result<(), AllocError>
        requires { IsSoundIfAny self.old.machine.input.program when }
        ensures machine { self.new.machine ≡ self.old.machine }
        ensures breaks { OnOk result (self.new.breaks ≡ breaks_with self.old.breaks line when) }
        ensures said { OnOk result (bytes.new.items ≡ bytes.old.items ++ text.now) }
        ensures memory { OnErr result ((bytes.new.items ≡ bytes.old.items)
            × (self.new ≡ self.old)) }
    {
        let length = bytes.len();
        let is_full = self.breaks.is_full(line);
        bytes.extend_from_slice(text)?;
        if is_full {
            return Ok(());
        }
        if let Err(error) = self.breaks.set(line, when) {
            bytes.truncate(length);
            return Err(error);
        }
        Ok(())
    }

    /// Makes a line a break line without a condition, unless there are too many, and answers.
    fn set_break(&mut self, line: u32, bytes: &mut Vec<u8>) -> Result<(), AllocError>
        ensures machine { self.new.machine ≡ self.old.machine }
        ensures breaks { OnOk result (self.new.breaks ≡ breaks_after_set self.old.breaks line) }
        ensures said { OnOk result (bytes.new.items ≡ bytes.old.items
            ++ break_text self.old.breaks line) }
        ensures memory { OnErr result ((bytes.new.items ≡ bytes.old.items)
            × (self.new ≡ self.old)) }
    {
        let text = break_text(self.alloc, &self.breaks, line)?;
        self.put_break(line, None, &text, bytes)
    }

    /// Makes a line a break line that stops only in states in which a condition holds, unless there
    /// are too many, and answers. If the line is a break line, its condition is replaced.
    ///
    /// `AllocError` if memory was refused; then nothing has changed.
    pub fn set_break_when(
        &mut self,
        line: u32,
        when: BreakCondition,
        bytes: &mut Vec<u8>,
    ) -> Result<(), AllocError>
        requires { IsSoundOf self.old.machine.input.program when.section when.condition }
        ensures machine { self.new.machine ≡ self.old.machine }
        ensures breaks { OnOk result
            (self.new.breaks ≡ breaks_with self.old.breaks line (Some when)) }
        ensures said { OnOk result (bytes.new.items ≡ bytes.old.items
            ++ break_when_text self.old.breaks line when.text) }
        ensures memory { OnErr result ((bytes.new.items ≡ bytes.old.items)
            × (self.new ≡ self.old)) }
    {
        let text = break_when_text(self.alloc, &self.breaks, line, when.text())?;
        let when = Boxed::new(self.alloc, when)?;
        self.put_break(line, Some(when), &text, bytes)
    }

    /// Makes a line no break line, and answers.
    #[tactic(auto, using(crate::proofs::BreakTables::sound_without))]
    fn clear_break(&mut self, line: u32, bytes: &mut Vec<u8>) -> Result<(), AllocError>
        ensures machine { self.new.machine ≡ self.old.machine }
        ensures breaks { OnOk result (self.new.breaks ≡ without_break line self.old.breaks) }
        ensures said { OnOk result (bytes.new.items ≡ bytes.old.items
            ++ clear_text self.old.breaks line) }
        ensures memory { OnErr result ((bytes.new.items ≡ bytes.old.items)
            × (self.new ≡ self.old)) }
    {
        let text = clear_text(self.alloc, &self.breaks, line)?;
        bytes.extend_from_slice(&text)?;
        self.breaks.clear(line as usize);
        Ok(())
    }

    /// Forgets all steps but the newest `count`, and answers.
    #[tactic(auto, using(crate::proofs::Forgets::earliest_after, crate::proofs::Forgets::kept_after, crate::proofs::Timelines::sound_in))]
    fn forget(&mut self, count: u64, bytes: &mut Vec<u8>) -> Result<(), AllocError>
        ensures input { self.new.machine.input ≡ self.old.machine.input }
        ensures place { OnOk result
            (debugger_state_of self.new
            ≡ debugger_state_after_forget (debugger_state_of self.old) count) }
        ensures said { OnOk result (bytes.new.items ≡ bytes.old.items
            ++ forget_answer (debugger_state_of self.old) count) }
        ensures memory { OnErr result ((bytes.new.items ≡ bytes.old.items)
            × (self.new ≡ self.old)) }
    {
        let text = kept_text(self.alloc, count.min(self.machine.kept()))?;
        bytes.extend_from_slice(&text)?;
        self.machine.forget(count);
        Ok(())
    }

    /// The answer to a question.
    fn show(&self, question: Question, bytes: &mut Vec<u8>) -> Result<(), AllocError>
        ensures said { OnOk result (bytes.new.items ≡ bytes.old.items
            ++ show_answer self.now.machine.input (position self.now.machine) question) }
        ensures memory { OnErr result (bytes.new.items ≡ bytes.old.items) }
    {
        let text = self.answer_to(&question)?;
        bytes.extend_from_slice(&text)
    }
}

/// One turn: obeys a command, and appends its whole answer to `bytes` (docs/DEBUGGER.md). Only QUIT
/// gives `Quit`.
///
/// `AllocError` if a growth was refused: `bytes`, the break lines and the earliest kept position
/// are as before, and the machine is at the position to which the steps that were made led. A
/// command that gives no answer, a blank line or QUIT, succeeds.
#[tactic(auto, unfolding(crate::proofs::Unfoldings::turns))]
pub fn obey<S: SetBoard>(
    debugger: &mut Debugger<S>,
    command: Command,
    bytes: &mut Vec<u8>,
) -> Result<Go, AllocError>
    ensures input { debugger.new.machine.input ≡ debugger.old.machine.input }
    ensures place { OnOk result (debugger_state_of debugger.new
        ≡ debugger_state_after debugger.old.machine.input (debugger_state_of debugger.old)
        command) }
    ensures said { OnOk result (bytes.new.items ≡ bytes.old.items
        ++ answer debugger.old.machine.input (debugger_state_of debugger.old) command) }
    ensures quit { IfOk result (λ go. go ≡ go_of command) }
    ensures silent { is_silent command ≡ true → IsOk result }
    ensures memory { OnErr result ((bytes.new.items ≡ bytes.old.items)
        × IsStateAfterRefusal debugger.old.machine.input (debugger_state_of debugger.old) command
        (debugger_state_of debugger.new)) }
{
    match command {
        Command::Blank => {}
        Command::Bad => bytes.extend_from_slice(b"BAD COMMAND\n")?,
        Command::Move(movement) => debugger.go(movement, bytes)?,
        Command::Break(line) => debugger.set_break(line, bytes)?,
        Command::Clear(line) => debugger.clear_break(line, bytes)?,
        Command::Forget(count) => debugger.forget(count, bytes)?,
        Command::Show(question) => debugger.show(question, bytes)?,
        Command::Quit => return Ok(Go::Quit),
    }
    Ok(Go::On)
}

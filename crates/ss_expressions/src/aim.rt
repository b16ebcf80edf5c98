//! A condition of a section as an aim of the debugger's movements.
ghost use Rattle.std.specs.Prelude.{◌≡◌, IfOk, Some};
ghost use Rattle.ss_words.specs.Reading.{option_view};
ghost use Rattle.ss_routines.specs.View.{condition_view};
ghost use Rattle.ss_check.specs.Asked.{IsSymbolsOf, judged_condition};
ghost use Rattle.ss_program.specs.Program.{ProgramTable};
ghost use Rattle.ss_state.specs.State.{State};
ghost use Rattle.ss_debug.specs.BreakCondition.{is_met, IsSoundOf};
ghost use Rattle.ss_expressions.specs.Aims as spec;
ghost use Rattle.ss_expressions.specs.BreakAims.{section_of_locals, break_condition};
ghost use Rattle.ss_expressions.specs.AimsView.{aimed_view};
ghost use Rattle.ss_expressions.specs.AskedView.{asked_view};

use crate::answer::{push_refused, truth_now};
use crate::asked::{Asked, asked_in};
use crate::local_names::names_local;
use ss_check::SymbolTable;
use ss_debug::{BreakCondition, Debugger};
use ss_links::SetBoard;
use ss_machine::Machine;
use ss_program::{Condition, Program};
use ss_trace::Aim;
use std::alloc::{AllocError, Global};
use std::marker::Model;

/// A condition of the language, in the section in which it was asked. It has no value, and does not
/// hold, in a state whose last frame is of another section, if it names a local variable; nor in a
/// state in which its evaluation faults.
#[derive(Drop)]
pub struct ConditionAim {
    section: usize,
    condition: Condition,
    is_local: bool,
}

impl Model for ConditionAim {
    ghost use Rattle.std.specs.Prelude.{◌≡◌};
    ghost use Rattle.std.specs.Coded.{codes};
    ghost use Rattle.ss_program.specs.ProgramConditionCode.{condition_code};
    ghost use Rattle.ss_expressions.specs.Aims.{Aim};
    ghost use Rattle.ss_expressions.specs.LocalNames.{names_local};

    ghost Value = { Aim };

    ghost coded = { Prim.hlevel (codes, condition_code) };

    ghost view = { λ a. record { section = a.section; condition = a.condition } };

    ghost invariant = { λ a. a.is_local ≡ names_local a.condition };
}

impl ConditionAim {
    /// A condition of the section of this number.
    fn new(section: usize, condition: Condition) -> ConditionAim
        ensures { result ≡ record { section = section; condition = condition } }
    {
        let is_local = names_local(&condition);
        ConditionAim {
            section,
            condition,
            is_local,
        }
    }

    /// The section whose local variables it names, if it names any.
    fn section_of_locals(&self) -> Option<usize>
        ensures { result ≡ section_of_locals self.now }
    {
        if self.is_local {
            Some(self.section)
        } else {
            None
        }
    }

    /// The aim as the condition of a break line with this text.
    #[tactic(auto, using(crate::proofs::BreakAims::broken))]
    pub fn into_break(self, text: Vec<u8>) -> BreakCondition
        ensures condition { result ≡ break_condition self text.items }
        ensures sound { (program : ProgramTable) → spec.IsSoundAim program self
            → IsSoundOf program result.section result.condition }
        ensures holds { (program : ProgramTable) → (state : State) →
            is_met program state result ≡ spec.holds_in program state self }
    {
        let section = self.section_of_locals();
        BreakCondition::new(section, self.condition, text)
    }

    /// Whether it holds in a machine's present state.
    #[tactic(auto, unfolding(crate::specs::Aims::holds_in))]
    fn holds_now<S: SetBoard>(&self, machine: &Machine<S>) -> bool
        requires { spec.IsSoundAim machine.now.input.program self.now }
        ensures { result ≡ spec.holds_in machine.now.input.program machine.now.state self.now }
    {
        machine.known();
        let (section, _) = machine.place();
        if self.is_local && section != self.section {
            return false;
        }
        truth_now(machine, &self.condition).unwrap_or(false)
    }
}

impl Aim for ConditionAim {
    ghost use Rattle.ss_state.specs.Run.{run};
    ghost use Rattle.ss_expressions.specs.Aims.{IsSoundAim, holds_in};

    ghost suits = { λ aim program. IsSoundAim program aim };

    ghost test = { λ aim input p. holds_in input.program (run input p) aim };

    fn is_met<S: SetBoard>(&self, debugger: &Debugger<S>) -> Result<bool, AllocError> {
        let machine = debugger.machine();
        machine.known();
        Ok(self.holds_now(machine))
    }
}

/// What a condition is as an aim.
#[derive(Drop)]
pub enum Aimed {
    /// The aim.
    At(ConditionAim),
    /// No aim: the answer that says why.
    Refused(Vec<u8>),
}

/// The aim that a condition is in the section of this number, or the answer to one that has no
/// meaning there.
#[tactic(auto, using(crate::proofs::Scopes::condition_sound))]
fn aim_judged(
    alloc: Global,
    program: &Program,
    symbols: &SymbolTable,
    section: usize,
    condition: &ss_routines::Condition,
) -> Result<Aimed, AllocError>
    requires { IsSymbolsOf program.now symbols.now }
    ensures aim { IfOk result (λ a. aimed_view a ≡ spec.aim_judged section
        (judged_condition symbols.now section (condition_view condition.now))) }
    ensures sound { IfOk result (λ a. spec.IsSoundAimed program.now (aimed_view a)) }
{
    match symbols.condition(section, condition)? {
        Ok(condition) => Ok(Aimed::At(ConditionAim::new(section, condition))),
        Err(fault) => {
            let mut answer = Vec::new(alloc);
            push_refused(&mut answer, fault)?;
            Ok(Aimed::Refused(answer))
        }
    }
}

/// The aim of what is asked, if it is a condition.
fn aim_of_asked(
    alloc: Global,
    program: &Program,
    symbols: &SymbolTable,
    section: usize,
    asked: &Asked,
) -> Result<Option<Aimed>, AllocError>
    requires { IsSymbolsOf program.now symbols.now }
    ensures aim { IfOk result (λ o. option_view aimed_view o
        ≡ spec.aim_if_asked symbols.now section (Some (asked_view asked.now))) }
    ensures sound { IfOk result (λ o. spec.IsAimOf program.now (option_view aimed_view o)) }
{
    match asked {
        Asked::Value(_) => Ok(None),
        Asked::Truth(c) => Ok(Some(aim_judged(alloc, program, symbols, section, c)?)),
    }
}

/// The aim of a text that is a condition of the language (docs/LANGUAGE.md, "Conditions"), asked in
/// the section of this number of a program: the states in which it holds, or the answer that says
/// why it has no meaning there. `None` if the text is no condition. The symbol table is that of the
/// program's model.
///
/// `AllocError` if memory was refused.
#[tactic(auto, unfolding(crate::specs::Aims::aim_asked))]
pub fn aim_in(
    alloc: Global,
    program: &Program,
    symbols: &SymbolTable,
    section: usize,
    text: &[u8],
) -> Result<Option<Aimed>, AllocError>
    requires { IsSymbolsOf program.now symbols.now }
    ensures aim { IfOk result (λ o. option_view aimed_view o
        ≡ spec.aim_asked symbols.now section text.now) }
    ensures sound { IfOk result (λ o. spec.IsAimOf program.now (option_view aimed_view o)) }
{
    match asked_in(alloc, text)? {
        None => Ok(None),
        Some(asked) => aim_of_asked(alloc, program, symbols, section, &asked),
    }
}

/// The aim of a text that is a condition of the language (docs/LANGUAGE.md, "Conditions"), asked in
/// the section of the last frame: the states in which it holds, or the answer that says why it has
/// no meaning there. `None` if the text is no condition.
///
/// `AllocError` if memory was refused.
pub fn aim_of<S: SetBoard>(
    alloc: Global,
    machine: &Machine<S>,
    symbols: &SymbolTable,
    text: &[u8],
) -> Result<Option<Aimed>, AllocError>
    requires { IsSymbolsOf machine.now.input.program symbols.now }
    ensures aim { IfOk result (λ o. option_view aimed_view o
        ≡ spec.aim_asked symbols.now machine.now.state.frame.section text.now) }
    ensures sound { IfOk result
        (λ o. spec.IsAimOf machine.now.input.program (option_view aimed_view o)) }
{
    machine.known();
    let (section, _) = machine.place();
    aim_in(alloc, machine.program(), symbols, section, text)
}

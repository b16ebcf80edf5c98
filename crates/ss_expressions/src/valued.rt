//! The value of a text that is asked in a section, as a value and not as an answer.
ghost use Rattle.std.specs.Prelude.{◌≡◌, IfOk};
ghost use Rattle.ss_words.specs.Reading.{option_view};
ghost use Rattle.ss_check.specs.Asked.{IsSymbolsOf};
ghost use Rattle.ss_check.specs.AskedView.{asked_fault_view};
ghost use Rattle.ss_readings.specs.ValueView.{value_if};
ghost use Rattle.ss_expressions.specs.Answers.{refused_answer};
ghost use Rattle.ss_expressions.specs.AskedView.{asked_view};
ghost use Rattle.ss_expressions.specs.Meanings.{IsMeaningOf};
ghost use Rattle.ss_expressions.specs.MeaningsView.{meant_view};
ghost use Rattle.ss_expressions.specs.Senses.{judged_sense};
ghost use Rattle.ss_expressions.specs.Valued as spec;
ghost use Rattle.ss_expressions.specs.ValuedView.{judgement_view};
ghost use Rattle.ss_expressions.specs.Wanted.{wanted_of};
ghost use Rattle.ss_expressions.specs.WantedView.{wanted_view};

use crate::answer::push_refused;
use crate::asked::{Asked, asked_in};
use crate::meaning::{Meant, meaning_of};
use crate::sense::judged;
use crate::wanted::{Wanted, wanted_of};
use ss_check::{AskedFault, SymbolTable};
use ss_links::SetBoard;
use ss_machine::Machine;
use ss_program::Program;
use ss_readings::{Reading, Value};
use std::alloc::{AllocError, Global};

/// What a text comes to in a section, before any run.
#[derive(Drop)]
pub enum Judgement {
    /// It has a meaning there.
    Meant,
    /// It has none: the answer that says why.
    Refused(Vec<u8>),
}

/// The value of what a text means in the last frame of a machine's present state.
fn value_of_meant<S: SetBoard>(
    machine: &Machine<S>,
    meant: Option<Meant>,
) -> Result<Option<Value>, AllocError>
    requires { IsMeaningOf machine.now.input.program (option_view meant_view meant) }
    ensures { IfOk result (λ value. value_if value ≡ spec.value_of_meant
        machine.now.input.program machine.now.state (option_view meant_view meant)) }
{
    match meant {
        Some(Meant::As(meaning)) => meaning.value(machine, 0),
        _ => Ok(None),
    }
}

/// The value in the present state of a text that is an expression, a condition, a list or the name
/// of a class (docs/PROMPT.md), by the names of the section with this number. `None` if the text is
/// nothing of these, or has no meaning there; if it names a local variable and the last frame is of
/// another section; or if its evaluation faults.
///
/// `AllocError` if memory was refused.
#[tactic(auto, unfolding(crate::specs::Valued::value_asked))]
pub fn value_asked<S: SetBoard>(
    alloc: Global,
    machine: &Machine<S>,
    symbols: &SymbolTable,
    section: usize,
    text: &[u8],
) -> Result<Option<Value>, AllocError>
    requires { IsSymbolsOf machine.now.input.program symbols.now }
    ensures { IfOk result (λ value. value_if value ≡ spec.value_asked symbols.now
        machine.now.input.program machine.now.state section text.now) }
{
    let meant = meaning_of(alloc, machine, symbols, section, text)?;
    value_of_meant(machine, meant)
}

/// The answer that says why what is asked has no meaning.
fn refusal(alloc: Global, fault: AskedFault<'_>) -> Result<Vec<u8>, AllocError>
    ensures { IfOk result
        (λ answer. answer.items ≡ refused_answer (asked_fault_view fault.entry)) }
{
    let mut answer = Vec::new(alloc);
    push_refused(&mut answer, fault)?;
    Ok(answer)
}

/// Whether what is wanted has a meaning by the names of the section with this number, or why not.
fn judgement_wanted(
    alloc: Global,
    symbols: &SymbolTable,
    section: usize,
    wanted: &Wanted,
) -> Result<Judgement, AllocError>
    ensures { IfOk result (λ j. judgement_view j
        ≡ spec.judgement (judged_sense symbols.now section (wanted_view wanted.now))) }
{
    match judged(symbols, section, wanted)? {
        Ok(_) => Ok(Judgement::Meant),
        Err(fault) => Ok(Judgement::Refused(refusal(alloc, fault)?)),
    }
}

/// Whether what is asked has a meaning by the names of the section with this number, or why not.
fn judgement_asked(
    alloc: Global,
    program: &Program,
    symbols: &SymbolTable,
    section: usize,
    asked: Asked,
) -> Result<Judgement, AllocError>
    ensures { IfOk result (λ j. judgement_view j ≡ spec.judgement
        (judged_sense symbols.now section (wanted_of program.now (asked_view asked)))) }
{
    let wanted = wanted_of(alloc, program, asked);
    judgement_wanted(alloc, symbols, section, &wanted)
}

/// What a text comes to by the names of the section with this number: whether it has a meaning
/// there, or why not. `None` if it is no expression, condition, list or name of a class.
///
/// `AllocError` if memory was refused.
#[tactic(auto, unfolding(crate::specs::Valued::judged_text))]
pub fn judged_text(
    alloc: Global,
    program: &Program,
    symbols: &SymbolTable,
    section: usize,
    text: &[u8],
) -> Result<Option<Judgement>, AllocError>
    ensures { IfOk result (λ o. option_view judgement_view o
        ≡ spec.judged_text symbols.now program.now section text.now) }
{
    match asked_in(alloc, text)? {
        None => Ok(None),
        Some(asked) => Ok(Some(judgement_asked(alloc, program, symbols, section, asked)?)),
    }
}

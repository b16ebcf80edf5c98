//! The answer to an expression or a condition.
ghost use Rattle.std.specs.Prelude.{◌≡◌, ◌++◌, ◌∷◌, [], OnOk, IfOk, option_map};
ghost use Rattle.ss_program.specs.ProgramSound.{IsSoundExpr, IsSoundCondition, IsSoundSubscript, scope_in};
ghost use Rattle.ss_check.specs.Asked.{IsSymbolsOf};
ghost use Rattle.ss_check.specs.AskedView.{asked_fault_view};
ghost use Rattle.ss_values.specs.Values.{value_of, subscript_value};
ghost use Rattle.ss_values.specs.Conditions.{holds};
ghost use Rattle.ss_expressions.specs.Answers as spec;
ghost use Rattle.ss_expressions.specs.Senses.{IsSoundSense, judged_sense, set_in};
ghost use Rattle.ss_expressions.specs.SensesView.{sense_view};
ghost use Rattle.ss_expressions.specs.AskedView.{asked_view};
ghost use Rattle.ss_expressions.specs.WantedView.{wanted_view};

use crate::asked::{Asked, asked_in};
use crate::listed::{push_class, push_list};
use crate::sense::{Sense, judged, set_in};
use crate::wanted::{Wanted, wanted_of};
use ss_check::{AskedFault, CheckRule, SymbolTable};
use ss_debug::{push_integer, push_number};
use ss_links::SetBoard;
use ss_machine::Machine;
use ss_program::{Condition, Expr, Index};
use ss_sentences::{fault_sentence, rule_sentence};
use ss_words::RunFault;
use std::alloc::{AllocError, Global};

/// Appends the number of a fault and its sentence.
fn push_fault(text: &mut Vec<u8>, fault: RunFault) -> Result<(), AllocError>
    ensures { OnOk result (text.new.items ≡ text.old.items ++ spec.fault_line fault) }
{
    text.extend_from_slice(b"F")?;
    push_number(text, u64::from(fault.number()))?;
    text.extend_from_slice(b": ")?;
    push_line(text, fault_sentence(fault))
}

/// Appends a text and the end of its line.
fn push_line(text: &mut Vec<u8>, line: &[u8]) -> Result<(), AllocError>
    ensures { OnOk result (text.new.items ≡ text.old.items ++ (line.now ++ 10 ∷ [])) }
{
    text.extend_from_slice(line)?;
    text.extend_from_slice(b"\n")
}

/// Appends a text after another, and the end of their line.
fn push_after(text: &mut Vec<u8>, head: &[u8], line: &[u8]) -> Result<(), AllocError>
    ensures { OnOk result (text.new.items ≡ text.old.items ++ (head.now ++ (line.now ++ 10 ∷ []))) }
{
    text.extend_from_slice(head)?;
    push_line(text, line)
}

/// Appends that a name is no variable.
fn push_unknown(text: &mut Vec<u8>, name: &[u8]) -> Result<(), AllocError>
    ensures { OnOk result (text.new.items ≡ text.old.items ++ spec.unknown_answer name.now) }
{
    push_after(text, b"NO VARIABLE ", name)
}

/// Appends the code of a rule and its sentence.
fn push_broken(text: &mut Vec<u8>, rule: CheckRule) -> Result<(), AllocError>
    ensures { OnOk result (text.new.items ≡ text.old.items ++ spec.broken_answer rule) }
{
    let code = rule.code();
    text.extend_from_slice(code.as_bytes())?;
    text.extend_from_slice(b": ")?;
    push_line(text, rule_sentence(code))
}

/// Appends why what is asked has no value.
pub(crate) fn push_refused(text: &mut Vec<u8>, fault: AskedFault<'_>) -> Result<(), AllocError>
    ensures { OnOk result (text.new.items
        ≡ text.old.items ++ spec.refused_answer (asked_fault_view fault.entry)) }
{
    match fault {
        AskedFault::Unknown(name) => push_unknown(text, name),
        AskedFault::Broken(rule) => push_broken(text, rule),
    }
}

/// Appends a text with its value, or the fault of its evaluation.
fn push_value(
    answer: &mut Vec<u8>,
    text: &[u8],
    value: Result<i64, RunFault>,
) -> Result<(), AllocError>
    ensures { OnOk result (answer.new.items
        ≡ answer.old.items ++ spec.value_answer text.now value) }
{
    match value {
        Ok(x) => {
            answer.extend_from_slice(text)?;
            answer.extend_from_slice(b" = ")?;
            push_integer(answer, x)?;
            answer.extend_from_slice(b"\n")
        }
        Err(fault) => push_fault(answer, fault),
    }
}

/// Appends a text and whether it holds, or the fault of its evaluation.
fn push_truth(
    answer: &mut Vec<u8>,
    text: &[u8],
    truth: Result<bool, RunFault>,
) -> Result<(), AllocError>
    ensures { OnOk result (answer.new.items
        ≡ answer.old.items ++ spec.truth_answer text.now truth) }
{
    match truth {
        Ok(holds) => {
            answer.extend_from_slice(text)?;
            answer.extend_from_slice(if holds { b": YES\n" } else { b": NO\n" })
        }
        Err(fault) => push_fault(answer, fault),
    }
}

/// The value of an expression in a machine's present state.
fn value_now<S: SetBoard>(machine: &Machine<S>, e: &Expr) -> Result<i64, RunFault>
    requires { IsSoundExpr (scope_in machine.now.input.program
        machine.now.state.frame.section) e.now }
    ensures { result
        ≡ value_of (spec.readings_of machine.now.input.program machine.now.state) e.now }
{
    machine.value_in(0, e).unwrap_or(Err(RunFault::NoEntity))
}

/// Whether a condition holds in a machine's present state.
pub(crate) fn truth_now<S: SetBoard>(machine: &Machine<S>, c: &Condition) -> Result<bool, RunFault>
    requires { IsSoundCondition (scope_in machine.now.input.program
        machine.now.state.frame.section) c.now }
    ensures { result
        ≡ holds (spec.readings_of machine.now.input.program machine.now.state) c.now }
{
    machine.truth_in(0, c).unwrap_or(Err(RunFault::NoEntity))
}

/// The number that a subscript means in a machine's present state.
fn subscript_now<S: SetBoard>(machine: &Machine<S>, index: &Index) -> Result<i64, RunFault>
    requires { IsSoundSubscript (scope_in machine.now.input.program
        machine.now.state.frame.section) index.now }
    ensures { result ≡ subscript_value
        (spec.readings_of machine.now.input.program machine.now.state) index.now }
{
    machine
        .subscript_in(0, index)
        .unwrap_or(Err(RunFault::NoEntity))
}

/// Appends the list of which a condition says that it IS EMPTY, or why there is none.
#[tactic(auto, using(crate::proofs::Frames::set_sound))]
pub(crate) fn push_list_of<S: SetBoard>(
    answer: &mut Vec<u8>,
    machine: &Machine<S>,
    condition: &Condition,
) -> Result<(), AllocError>
    requires { IsSoundCondition (scope_in machine.now.input.program
        machine.now.state.frame.section) condition.now }
    ensures { OnOk result (answer.new.items ≡ answer.old.items
        ++ spec.list_answer machine.now.input.program machine.now.state (set_in condition.now)) }
{
    let Some(set) = set_in(condition) else {
        return Ok(());
    };
    match subscript_now(machine, &set.owner) {
        Ok(owner) => push_list(answer, machine, set.set, owner),
        Err(fault) => push_fault(answer, fault),
    }
}

/// Appends the answer to what is asked, as the checker judged it.
fn push_sense<S: SetBoard>(
    answer: &mut Vec<u8>,
    machine: &Machine<S>,
    text: &[u8],
    sense: &Sense,
) -> Result<(), AllocError>
    requires { IsSoundSense (scope_in machine.now.input.program
        machine.now.state.frame.section) (sense_view sense.now) }
    ensures { OnOk result (answer.new.items ≡ answer.old.items
        ++ spec.sense_answer machine.now.input.program machine.now.state text.now
        (sense_view sense.now)) }
{
    match sense {
        Sense::Expression(e) => push_value(answer, text, value_now(machine, e)),
        Sense::Condition(c) => push_truth(answer, text, truth_now(machine, c)),
        Sense::List(c) => push_list_of(answer, machine, c),
        Sense::Living(class) => push_class(answer, machine, *class),
    }
}

/// The answer to what is wanted, by the names of the section of the last frame.
#[tactic(auto, using(crate::proofs::Scopes::sense_sound))]
fn answer_wanted<S: SetBoard>(
    alloc: Global,
    machine: &Machine<S>,
    symbols: &SymbolTable,
    text: &[u8],
    wanted: &Wanted,
) -> Result<Vec<u8>, AllocError>
    requires { IsSymbolsOf machine.now.input.program symbols.now }
    ensures { IfOk result (λ answer. answer.items
        ≡ spec.judged_answer machine.now.input.program machine.now.state text.now
        (judged_sense symbols.now machine.now.state.frame.section (wanted_view wanted.now))) }
{
    machine.known();
    let (section, _) = machine.place();
    let mut answer = Vec::new(alloc);
    match judged(symbols, section, wanted)? {
        Ok(sense) => push_sense(&mut answer, machine, text, &sense)?,
        Err(fault) => push_refused(&mut answer, fault)?,
    }
    Ok(answer)
}

/// The answer to what is asked.
fn answer_to<S: SetBoard>(
    alloc: Global,
    machine: &Machine<S>,
    symbols: &SymbolTable,
    text: &[u8],
    asked: Asked,
) -> Result<Vec<u8>, AllocError>
    requires { IsSymbolsOf machine.now.input.program symbols.now }
    ensures { IfOk result (λ answer. answer.items
        ≡ spec.answer_to symbols.now machine.now.input.program machine.now.state text.now
        (asked_view asked)) }
{
    let wanted = wanted_of(alloc, machine.program(), asked);
    answer_wanted(alloc, machine, symbols, text, &wanted)
}

/// The answer to a text that is an expression or a condition of the language (docs/LANGUAGE.md,
/// "Expressions" and "Conditions"), a list or the name of a class, in the section of the last frame
/// and in the present state: its value, or why it has none. `None` if the text is nothing of these.
/// The text is in capitals, with one blank between its words: an answer with a value begins with it,
/// but one of a list or a class with its name.
///
/// `AllocError` if memory was refused.
#[tactic(auto, unfolding(crate::specs::Answers::asked_answer))]
pub fn asked_answer<S: SetBoard>(
    alloc: Global,
    machine: &Machine<S>,
    symbols: &SymbolTable,
    text: &[u8],
) -> Result<Option<Vec<u8>>, AllocError>
    requires { IsSymbolsOf machine.now.input.program symbols.now }
    ensures { IfOk result (λ answer. option_map (λ a. a.items) answer
        ≡ spec.asked_answer symbols.now machine.now.input.program machine.now.state text.now) }
{
    match asked_in(alloc, text)? {
        None => Ok(None),
        Some(asked) => Ok(Some(answer_to(alloc, machine, symbols, text, asked)?)),
    }
}

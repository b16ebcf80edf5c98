//! What is measured of a run, in a trace or at its end: a question, an expression, a condition or a
//! list.
ghost use Rattle.std.specs.Prelude.{◌≡◌, IfOk, OnOk};
ghost use Rattle.ss_machine.specs.Moment.{position};
ghost use Rattle.ss_check.specs.Asked.{IsSymbolsOf};
ghost use Rattle.ss_trace.specs.Value.{value_at};
ghost use Rattle.ss_run.specs.Measure as spec;

use ss_check::SymbolTable;
use ss_debug::Debugger;
use ss_expressions::value_asked;
use ss_links::SetBoard;
use ss_trace::{Question, push_asked, push_value};
use std::alloc::{AllocError, Global};
use std::marker::Model;

/// The text of an expression, a condition or a list of the language.
#[derive(Drop)]
pub struct Formula {
    text: Vec<u8>,
}

impl Model for Formula {
    ghost use Rattle.std.specs.Prelude.{ℕ, List};

    ghost Value = { List ℕ };

    ghost view = { λ f. f.text.items };
}

impl Formula {
    /// A formula of this text.
    pub fn new(text: Vec<u8>) -> Formula
        ensures { result ≡ text.items }
    {
        Formula { text }
    }

    /// Its text.
    pub fn text(&self) -> &[u8]
        ensures { result.now ≡ self.now }
    {
        &self.text
    }
}

/// What is measured: in a trace, or in the last state of a run (docs/RUNS.md, "Traces", "Results").
#[derive(Drop)]
pub enum Measure {
    /// A question, as a trace asks it.
    Question(Question),
    /// An expression, a condition or a list, by the names of MAIN.
    Formula(Formula),
}

/// A measure as it is asked, which is the name of its column.
pub(crate) fn measure_name(alloc: Global, measure: &Measure) -> Result<Vec<u8>, AllocError>
    ensures { IfOk result (λ name. name.items ≡ spec.measure_name measure.now) }
{
    let mut name = Vec::new(alloc);
    match measure {
        Measure::Question(question) => push_asked(question, &mut name)?,
        Measure::Formula(formula) => name.extend_from_slice(formula.text())?,
    }
    Ok(name)
}

/// The value of a question in the state that a debugger shows.
fn question_value<S: SetBoard>(
    alloc: Global,
    debugger: &Debugger<S>,
    question: &Question,
) -> Result<Vec<u8>, AllocError>
    ensures { IfOk result (λ value. value.items
        ≡ value_at debugger.now.machine.input question.now (position debugger.now.machine)) }
{
    let mut value = Vec::new(alloc);
    push_value(debugger, question, &mut value)?;
    Ok(value)
}

/// The value of a text by the names of MAIN in the state that a debugger shows: a number, YES or NO,
/// or the members of a list; NONE if there is none.
fn formula_value<S: SetBoard>(
    alloc: Global,
    debugger: &Debugger<S>,
    symbols: &SymbolTable,
    text: &[u8],
) -> Result<Vec<u8>, AllocError>
    requires { IsSymbolsOf debugger.now.machine.input.program symbols.now }
    ensures { IfOk result (λ value. value.items ≡ spec.formula_at debugger.now.machine.input
        symbols.now text.now (position debugger.now.machine)) }
{
    let machine = debugger.machine();
    machine.known();
    let section = machine.program().main();
    let value = value_asked(alloc, machine, symbols, section, text)?;
    let mut cell = Vec::new(alloc);
    ss_readings::push_value(&mut cell, &value)?;
    Ok(cell)
}

/// The value of a measure in the state that a debugger shows.
pub(crate) fn measure_value<S: SetBoard>(
    alloc: Global,
    debugger: &Debugger<S>,
    symbols: &SymbolTable,
    measure: &Measure,
) -> Result<Vec<u8>, AllocError>
    requires { IsSymbolsOf debugger.now.machine.input.program symbols.now }
    ensures { IfOk result (λ value. value.items ≡ spec.measure_at debugger.now.machine.input
        symbols.now measure.now (position debugger.now.machine)) }
{
    match measure {
        Measure::Question(question) => question_value(alloc, debugger, question),
        Measure::Formula(formula) => formula_value(alloc, debugger, symbols, formula.text()),
    }
}

/// Whether one of some measures is asked as a text asks.
fn is_measured(alloc: Global, measures: &[Measure], text: &[u8]) -> Result<bool, AllocError>
    ensures { IfOk result (λ is_there. is_there ≡ spec.is_measured measures.now text.now) }
{
    let mut is_there = false;
    for measure in measures {
        let name = measure_name(alloc, measure)?;
        is_there = is_there || name.as_slice() == text;
    }
    Ok(is_there)
}

/// Appends a measure to some others, if none of them is asked in the same words: one that is named
/// twice is traced once and has one column.
///
/// `AllocError` if a growth was refused; then the contract says nothing about `measures`.
pub fn push_measure(measures: &mut Vec<Measure>, measure: Measure) -> Result<(), AllocError>
    ensures { OnOk result (measures.new.items ≡ spec.with_measure measures.old.items measure) }
{
    let alloc = *measures.allocator();
    let name = measure_name(alloc, &measure)?;
    if is_measured(alloc, measures, &name)? {
        return Ok(());
    }
    measures.push(measure)?;
    Ok(())
}

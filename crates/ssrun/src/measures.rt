//! The measures that `--watch` and `--result` name: questions, or else expressions, conditions and
//! lists by the names of MAIN.
ghost use Rattle.std.specs.Prelude.{◌≡◌, false, map, IfOk, OnOk, IfErr};
ghost use Rattle.ss_words.specs.Reading.{option_view};
ghost use Rattle.ss_expressions.specs.ValuedView.{judgement_view};
ghost use Rattle.ssrun.specs.Measures as spec;
ghost use Rattle.ssrun.specs.MeasuresView.{sought_view};

use crate::cause::Cause;
use crate::questions::question_of;
use ss_check::SymbolTable;
use ss_expressions::{Judgement, judged_text};
use ss_program::Program;
use ss_prompt::{Line, Missing, push_missing};
use ss_run::{Formula, Measure, push_measure};
use std::alloc::{AllocError, Global};

/// What a text asks for.
#[derive(Drop)]
enum Sought {
    /// A measure.
    Measure(Measure),
    /// None: these lines say why.
    Refused(Vec<u8>),
    /// None: it is no question, no expression and no condition.
    Nothing,
}

/// A text as the prompt tells it: in capitals, with one blank between its words; none if it is
/// longer than a line may be.
fn told(alloc: Global, text: &[u8]) -> Result<Option<Line>, AllocError>
    ensures { IfOk result (λ line. line ≡ spec.told text.now) }
{
    let mut upper = Vec::from_slice(alloc, text)?;
    upper.make_ascii_uppercase();
    Ok(Line::of_words(&upper))
}

/// The formula of a line that has this judgement.
fn formula_judged(
    alloc: Global,
    line: &Line,
    judgement: Option<Judgement>,
) -> Result<Sought, AllocError>
    ensures { IfOk result (λ x. sought_view x ≡ spec.formula_judged line.now
        (option_view judgement_view judgement)) }
{
    match judgement {
        Some(Judgement::Meant) => {
            let text = Vec::from_slice(alloc, line.as_slice())?;
            Ok(Sought::Measure(Measure::Formula(Formula::new(text))))
        }
        Some(Judgement::Refused(answer)) => Ok(Sought::Refused(answer)),
        None => Ok(Sought::Nothing),
    }
}

/// The formula that a text is by the names of MAIN.
fn formula_in(
    alloc: Global,
    program: &Program,
    symbols: &SymbolTable,
    text: &[u8],
) -> Result<Sought, AllocError>
    ensures { IfOk result (λ x. sought_view x ≡ spec.formula_of program.now symbols.now text.now) }
{
    let Some(line) = told(alloc, text)? else {
        return Ok(Sought::Nothing);
    };
    let judgement = judged_text(alloc, program, symbols, program.main(), line.as_slice())?;
    formula_judged(alloc, &line, judgement)
}

/// A formula that has a meaning, or else the name that a question misses.
fn formula_or_missing(
    alloc: Global,
    formula: Sought,
    missing: &Missing,
) -> Result<Sought, AllocError>
    ensures { IfOk result (λ x. sought_view x
        ≡ spec.formula_or_missing missing.now (sought_view formula)) }
{
    if let Sought::Measure(measure) = formula {
        return Ok(Sought::Measure(measure));
    }
    let mut lines = Vec::new(alloc);
    push_missing(&mut lines, missing)?;
    Ok(Sought::Refused(lines))
}

/// What a text asks for: a question, if the program has its names; or else an expression, a
/// condition or a list that has a meaning in MAIN.
fn asked_for(
    alloc: Global,
    program: &Program,
    symbols: &SymbolTable,
    text: &[u8],
) -> Result<Sought, AllocError>
    ensures { IfOk result (λ x. sought_view x ≡ spec.sought_of program.now symbols.now text.now) }
{
    match question_of(alloc, program, text)? {
        Some(Ok(question)) => Ok(Sought::Measure(Measure::Question(question))),
        Some(Err(missing)) => {
            let formula = formula_in(alloc, program, symbols, text)?;
            formula_or_missing(alloc, formula, &missing)
        }
        None => formula_in(alloc, program, symbols, text),
    }
}

/// The measures that some texts ask for, each once.
///
/// The error is the first text that asks for nothing; or else lines for each text that names what
/// the program hasn't, or breaks a rule.
pub fn read_measures<'a>(
    alloc: Global,
    program: &Program,
    symbols: &SymbolTable,
    texts: &[&'a str],
) -> Result<Vec<Measure>, Cause<'a>>
    ensures asked { IfOk result (λ measures. measures.items ≡ spec.measures_of program.now
        symbols.now (map (λ text. text.now) texts.now)) }
    ensures whole { OnOk result (spec.is_some_unmeasured program.now symbols.now
        (map (λ text. text.now) texts.now) ≡ false) }
    ensures unasked { IfErr result (λ cause. spec.IsUnmeasured program.now symbols.now
        (map (λ text. text.now) texts.now) cause) }
{
    let mut measures = Vec::new(alloc);
    let mut lines = Vec::new(alloc);
    let mut is_refused = false;
    for text in texts {
        match asked_for(alloc, program, symbols, text.as_bytes())? {
            Sought::Measure(measure) => push_measure(&mut measures, measure)?,
            Sought::Refused(answer) => {
                is_refused = true;
                lines.extend_from_slice(&answer)?;
            }
            Sought::Nothing => return Err(Cause::NoQuestion(*text)),
        }
    }
    if is_refused {
        return Err(Cause::Unnamed(lines));
    }
    Ok(measures)
}

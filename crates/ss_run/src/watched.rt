//! What is traced of a run: questions; and texts, with their meanings by the names of MAIN.
ghost use Rattle.std.specs.Prelude.{◌≡◌, ◌++◌, map, IfOk, OnOk};
ghost use Rattle.ss_words.specs.Reading.{option_view};
ghost use Rattle.ss_check.specs.Asked.{IsSymbolsOf};
ghost use Rattle.ss_expressions.specs.MeaningsView.{meant_view};
ghost use Rattle.ss_run.specs.Watched as spec;
ghost use Rattle.ss_run.specs.WatchedView.{watched_view, AreSound};

use crate::measure::Measure;
use ss_check::SymbolTable;
use ss_debug::Debugger;
use ss_expressions::{Meaning, Meant, meaning_of};
use ss_links::SetBoard;
use ss_trace::{Question, push_asked};
use std::alloc::{AllocError, Global};

/// What is traced.
#[derive(Drop)]
pub(crate) enum Watched<'a> {
    /// A question.
    Question(&'a Question),
    /// A text, and its meaning by the names of MAIN, if it has one.
    Formula(&'a [u8], Option<Meaning>),
}

/// A meaning, if there is one.
fn meaning_if(meant: Option<Meant>) -> Option<Meaning>
    ensures { result ≡ spec.meaning_if (option_view meant_view meant) }
{
    match meant {
        Some(Meant::As(meaning)) => Some(meaning),
        _ => None,
    }
}

/// What is traced if this is to be traced.
fn watched_of<'a, S: SetBoard>(
    alloc: Global,
    debugger: &Debugger<S>,
    symbols: &SymbolTable,
    measure: &'a Measure,
) -> Result<Watched<'a>, AllocError>
    requires { IsSymbolsOf debugger.now.machine.input.program symbols.now }
    ensures watched { IfOk result (λ x. watched_view x
        ≡ spec.watched_of symbols.now debugger.now.machine.input.program measure.now) }
    ensures sound { IfOk result (λ x. spec.IsSoundWatched debugger.now.machine.input.program
        (watched_view x)) }
{
    match measure {
        Measure::Question(question) => Ok(Watched::Question(question)),
        Measure::Formula(formula) => {
            let machine = debugger.machine();
            let main = machine.program().main();
            let meant = meaning_of(alloc, machine, symbols, main, formula.text())?;
            Ok(Watched::Formula(formula.text(), meaning_if(meant)))
        }
    }
}

/// What is traced if these are to be traced.
#[tactic(auto, using(crate::proofs::Keeping::sound_none))]
pub(crate) fn watched_all<'a, S: SetBoard>(
    alloc: Global,
    debugger: &Debugger<S>,
    symbols: &SymbolTable,
    measures: &'a [Measure],
) -> Result<Vec<Watched<'a>>, AllocError>
    requires { IsSymbolsOf debugger.now.machine.input.program symbols.now }
    ensures watched { IfOk result (λ xs. map watched_view xs.items
        ≡ spec.watched_all symbols.now debugger.now.machine.input.program measures.now) }
    ensures sound { IfOk result
        (λ xs. AreSound debugger.now.machine.input.program xs.items) }
{
    let mut watched = Vec::new(alloc);
    for measure in measures {
        let one = watched_of(alloc, debugger, symbols, measure)?;
        watched.push(one)?;
    }
    Ok(watched)
}

/// Appends what is traced as it is asked.
pub(crate) fn push_watched(watched: &Watched<'_>, text: &mut Vec<u8>) -> Result<(), AllocError>
    ensures { OnOk result (text.new.items
        ≡ text.old.items ++ spec.watched_text (watched_view watched.now)) }
{
    match watched {
        Watched::Question(question) => push_asked(question, text),
        Watched::Formula(formula, _) => text.extend_from_slice(formula),
    }
}

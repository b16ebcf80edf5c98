//! A whole run without a debugger: to its end, and only its report.
ghost use Rattle.std.specs.Prelude.{◌≡◌, ◌-◌, ◌^◌, ◌<◌, OnErr, OnOk, IfOk};
ghost use Rattle.ss_check.specs.Asked.{IsSymbolsOf};
ghost use Rattle.ss_machine.specs.Moment.{position};
ghost use Rattle.ss_state.specs.Run.{input_with};
ghost use Rattle.ss_run.specs.Report.{IsRunEnd, status_of_end, status_of_run, SaysEnd, ReportSays};
ghost use Rattle.ss_run.specs.WholeRun.{TellsEnd, RunSays};
ghost use Rattle.ss_run.specs.Advance.{HasAdvanced, MakesRun, RefusesText, RefusesBy, IsRefusal};

use crate::explained::{end_explanation, rule_explanation};
use crate::fields::unfit_values;
use crate::results::{Asked, Wanted, results_row, with_symbols};
use crate::start::linked_machine;
use ss_check::Wrong;
use ss_debug::{Command, Debugger, Question, obey};
use ss_links::SetBoard;
use ss_machine::Machine;
use ss_program::Program;
use ss_sentences::text_refusal;
use ss_session::{LoadFault, Loaded, Outlet, load_with_symbols, put_all, refusal_text};
use ss_state::{Status, Stepped};
use std::alloc::{AllocError, Global};
use thiserror::Error;

/// The greatest number of steps back that are kept while a run goes to its end; nobody goes back.
pub(crate) const MOST_KEPT: u64 = 4096;

/// The number of steps after which a run reports how far it is: ten million.
pub(crate) const STEPS_BETWEEN: u64 = 10_000_000;

/// Hears how far a run is.
pub trait Progress {
    /// The run has come to this position, and its clock to this time; it goes on.
    fn reached(&mut self, position: u64, clock: i64);
}

/// How a whole run ended.
#[derive(Debug, Drop, PartialEq, Eq)]
pub enum RunEnd {
    /// Its last state is finished, stopped, or the last position of a run.
    Done,
    /// Its last state is faulted; this is its state line (docs/DEBUGGER.md, "Movements").
    Faulted(Vec<u8>),
    /// The model is refused; this is the line that says by which rule, and at which line.
    Refused(Vec<u8>),
}

/// The results of a whole run, after its end.
#[derive(Debug, Drop, PartialEq, Eq)]
pub struct WholeRun {
    /// How it ended.
    pub end: RunEnd,
    /// The explanation of a fault or a refusal, in whole lines (docs/SENTENCES.md): the sentence of
    /// the fault, the parts that it is about, and the piece of the data; the explanation of a
    /// refused text, its place and the words that could be there; the sentence of the checker's
    /// rule and the refused line. Empty for another end.
    pub explanation: Vec<u8>,
    /// The number of values of the report that did not fit their fields.
    pub unfit: usize,
    /// The row of its results (docs/RUNS.md): the name of the data, the exit status, and the values
    /// of the questions in its last state. Empty for a refused model.
    pub results: Vec<u8>,
}

/// The reason why a whole run was cut short.
#[derive(Clone, Copy, Debug, Drop, PartialEq, Eq, Error)]
pub enum RunCut {
    /// The outlet failed.
    #[error("cannot write")]
    Write,
    /// Memory was refused.
    #[error("out of memory")]
    Memory,
}

impl From<AllocError> for RunCut {
    ghost use Rattle.std.specs.Prelude.{◌≡◌};
    ghost use Rattle.ss_run.specs.declared.whole_run.RunCut.TheVariants.{Memory};

    ghost from_gives = { λ _ cut. cut ≡ Memory };

    fn from(_error: AllocError) -> RunCut {
        RunCut::Memory
    }
}

/// The exit status of a whole run that was not cut short.
fn end_status(end: &RunEnd) -> u8
    ensures { result ≡ status_of_end end.now }
{
    match end {
        RunEnd::Done => 0,
        RunEnd::Faulted(_) => 4,
        RunEnd::Refused(_) => 3,
    }
}

/// The exit status for how a whole run ended: 0 if it did not fault, 2 if the outlet failed,
/// 3 for a refused model, 4 if the last state is faulted, 5 if memory was refused.
pub fn run_status(outcome: &Result<RunEnd, RunCut>) -> u8
    ensures { result ≡ status_of_run outcome.now }
{
    match outcome {
        Ok(end) => end_status(end),
        Err(RunCut::Write) => 2,
        Err(RunCut::Memory) => 5,
    }
}

/// Forgets the steps back if they have become many.
fn forget_many<S: SetBoard>(machine: &mut Machine<S>)
    ensures input { machine.new.input ≡ machine.old.input }
    ensures position { position machine.new ≡ position machine.old }
{
    if machine.kept() >= MOST_KEPT {
        machine.forget(0);
    }
}

/// One step, or none if the run has ended; few are kept.
#[tactic(auto, using(crate::proofs::Advances::one_step))]
fn advance_once<S: SetBoard>(machine: &mut Machine<S>) -> Result<Stepped, AllocError>
    ensures ok { IfOk result (λ stepped. HasAdvanced stepped 1 machine.old machine.new) }
    ensures err { OnErr result (machine.new.input ≡ machine.old.input) }
{
    machine.known();
    match machine.step() {
        Ok(stepped) => {
            machine.known();
            forget_many(machine);
            Ok(stepped)
        }
        Err(error) => Err(error),
    }
}

/// Makes some steps, or fewer if the run ends.
fn advance<S: SetBoard>(machine: &mut Machine<S>, steps: u64) -> Result<Stepped, AllocError>
    ensures ok { IfOk result (λ stepped. HasAdvanced stepped steps machine.old machine.new) }
    ensures err { OnErr result (machine.new.input ≡ machine.old.input) }
{
    machine.known();
    for _k in 0..steps {
        match advance_once(machine) {
            Ok(Stepped::Moved) => {}
            Ok(Stepped::AtEnd) => return Ok(Stepped::AtEnd),
            Err(error) => return Err(error),
        }
    }
    Ok(Stepped::Moved)
}

/// Makes steps to the end of the run.
#[tactic(auto, using(crate::proofs::Advances::to_the_end))]
fn run_to_end<S: SetBoard, P: Progress>(
    machine: &mut Machine<S>,
    progress: &mut P,
) -> Result<(), AllocError>
    requires { position machine.old ≡ 0 }
    ensures input { machine.new.input ≡ machine.old.input }
    ensures ok { OnOk result (IsRunEnd machine.old.input (position machine.new)) }
{
    machine.known();
    loop {
        match advance(machine, STEPS_BETWEEN) {
            Ok(Stepped::Moved) => progress.reached(machine.position(), machine.clock()),
            Ok(Stepped::AtEnd) => return Ok(()),
            Err(error) => return Err(error),
        }
    }
}

/// How the run ended whose last state a debugger holds.
fn end_of_run<S: SetBoard>(alloc: Global, debugger: &mut Debugger<S>) -> Result<RunEnd, AllocError>
    ensures input { debugger.new.machine.input ≡ debugger.old.machine.input }
    ensures position { position debugger.new.machine ≡ position debugger.old.machine }
    ensures ok { IfOk result (λ end. SaysEnd debugger.old.machine.input
        (position debugger.old.machine) end) }
{
    debugger.machine().known();
    let Status::Faulted(_) = debugger.machine().status() else {
        return Ok(RunEnd::Done);
    };
    let mut line = Vec::new(alloc);
    match obey(debugger, Command::Show(Question::Where), &mut line) {
        Ok(_) => Ok(RunEnd::Faulted(line)),
        Err(error) => Err(error),
    }
}

/// The results of the run over some data whose last state a debugger holds.
fn tell_end<S: SetBoard>(
    alloc: Global,
    debugger: &mut Debugger<S>,
    asked: Wanted<'_>,
) -> Result<WholeRun, AllocError>
    requires symbols { IsSymbolsOf debugger.old.machine.input.program
        asked.symbols.now }
    ensures input { debugger.new.machine.input ≡ debugger.old.machine.input }
    ensures position { position debugger.new.machine ≡ position debugger.old.machine }
    ensures end { IfOk result (λ whole. SaysEnd debugger.old.machine.input
        (position debugger.old.machine) whole.end) }
    ensures beside { IfOk result (λ whole. TellsEnd whole asked.entry.data_text.now
        debugger.old.machine.input
        (record {
          name = asked.entry.name.now;
          results = asked.entry.results.now;
          symbols = asked.entry.symbols.now;
        })
        (position debugger.old.machine)) }
{
    let end = end_of_run(alloc, debugger)?;
    let results = results_row(alloc, debugger, end_status(&end), asked)?;
    let machine = debugger.machine();
    machine.known();
    let explanation = end_explanation(alloc, machine, asked.data_text)?;
    let unfit = unfit_values(machine.report());
    Ok(WholeRun {
        end,
        explanation,
        unfit,
        results,
    })
}

/// Writes the report of the run over some data whose last state a debugger holds.
pub(crate) fn write_report<S: SetBoard, W: Outlet>(
    alloc: Global,
    debugger: &mut Debugger<S>,
    asked: Wanted<'_>,
    out: &mut W,
) -> Result<WholeRun, RunCut>
    requires symbols { IsSymbolsOf debugger.old.machine.input.program
        asked.symbols.now }
    requires end { IsRunEnd debugger.old.machine.input (position debugger.old.machine) }
    requires room { W.failures out.old < 2 ^ 64 - 1 }
    ensures { MakesRun result asked.entry.data_text.now debugger.old.machine.input
        (record {
          name = asked.entry.name.now;
          results = asked.entry.results.now;
          symbols = asked.entry.symbols.now;
        })
        (record { taken = W.taken out.old; failures = W.failures out.old })
        (record { taken = W.taken out.new; failures = W.failures out.new }) }
{
    let whole = tell_end(alloc, debugger, asked)?;
    let machine = debugger.machine();
    machine.known();
    match put_all(out, machine.report()) {
        Ok(()) => Ok(whole),
        Err(_) => {
            drop(whole);
            Err(RunCut::Write)
        }
    }
}

/// Makes the steps of a run over some data to its end, and writes its report.
#[tactic(auto, using(ss_session::proofs::Pieces::appends_none), unfolding(crate::proofs::Reports::runs_made))]
fn write_run<S: SetBoard, P: Progress, W: Outlet>(
    alloc: Global,
    machine: Machine<S>,
    asked: Wanted<'_>,
    progress: &mut P,
    out: &mut W,
) -> Result<WholeRun, RunCut>
    requires symbols { IsSymbolsOf machine.input.program asked.symbols.now }
    requires start { position machine ≡ 0 }
    requires room { W.failures out.old < 2 ^ 64 - 1 }
    ensures { MakesRun result asked.entry.data_text.now machine.input
        (record {
          name = asked.entry.name.now;
          results = asked.entry.results.now;
          symbols = asked.entry.symbols.now;
        })
        (record { taken = W.taken out.old; failures = W.failures out.old })
        (record { taken = W.taken out.new; failures = W.failures out.new }) }
{
    let mut machine = machine;
    let ran = run_to_end(&mut machine, progress);
    let mut debugger = Debugger::new(alloc, machine);
    let written = match ran {
        Ok(()) => write_report(alloc, &mut debugger, asked, out),
        Err(_) => Err(RunCut::Memory),
    };
    debugger.end();
    written
}

/// The result for a model whose text the rule with this code refuses at this line.
fn refused_text(
    alloc: Global,
    model: &[u8],
    code: &str,
    line: usize,
) -> Result<WholeRun, AllocError>
    ensures { IfOk result (λ whole. RefusesText whole.end whole model.now code.now line) }
{
    let explanation = text_refusal(alloc, model)?;
    let text = refusal_text(alloc, code, line)?;
    Ok(WholeRun {
        end: RunEnd::Refused(text),
        explanation,
        unfit: 0,
        results: Vec::new(alloc),
    })
}

/// The result for a model that the checker's rule with this code refuses at this line.
fn refused(
    alloc: Global,
    model: &[u8],
    code: &str,
    line: usize,
    wrong: &Wrong,
) -> Result<WholeRun, AllocError>
    ensures { IfOk result (λ whole. RefusesBy whole.end whole model.now code.now line wrong.now) }
{
    let text = refusal_text(alloc, code, line)?;
    let explanation = rule_explanation(alloc, model, code, line, wrong)?;
    Ok(WholeRun {
        end: RunEnd::Refused(text),
        explanation,
        unfit: 0,
        results: Vec::new(alloc),
    })
}

/// The result for a model that is no program.
pub(crate) fn refusal(alloc: Global, model: &[u8], fault: &LoadFault) -> Result<WholeRun, RunCut>
    ensures { IsRefusal result model.now fault.now }
{
    match fault {
        LoadFault::Memory => Err(RunCut::Memory),
        LoadFault::Text { rule, line } => Ok(refused_text(alloc, model, rule.code(), *line)?),
        LoadFault::Check { rule, line, wrong } => {
            Ok(refused(alloc, model, rule.code(), *line, wrong)?)
        }
    }
}

/// Makes the run of a program over some data to its end, and writes its report.
#[tactic(auto, using(ss_session::proofs::Pieces::appends_none), unfolding(crate::proofs::Reports::runs_made))]
fn run_program<P: Progress, W: Outlet>(
    alloc: Global,
    program: Program,
    asked: Wanted<'_>,
    progress: &mut P,
    out: &mut W,
) -> Result<WholeRun, RunCut>
    requires symbols { IsSymbolsOf program asked.symbols.now }
    requires room { W.failures out.old < 2 ^ 64 - 1 }
    ensures { MakesRun result asked.entry.data_text.now
        (input_with program asked.entry.data_text.now)
        (record {
          name = asked.entry.name.now;
          results = asked.entry.results.now;
          symbols = asked.entry.symbols.now;
        })
        (record { taken = W.taken out.old; failures = W.failures out.old })
        (record { taken = W.taken out.new; failures = W.failures out.new }) }
{
    let machine = linked_machine(alloc, program, asked.data_text)?;
    write_run(alloc, machine, asked, progress, out)
}

/// Makes the run of a program that was read, and writes its report.
fn run_loaded<P: Progress, W: Outlet>(
    alloc: Global,
    loaded: Loaded,
    asked: Asked<'_>,
    progress: &mut P,
    out: &mut W,
) -> Result<WholeRun, RunCut>
    requires symbols { IsSymbolsOf loaded.program loaded.symbols }
    requires room { W.failures out.old < 2 ^ 64 - 1 }
    ensures { MakesRun result asked.entry.data_text.now
        (input_with loaded.program asked.entry.data_text.now)
        (record {
          name = asked.entry.name.now;
          results = asked.entry.results.now;
          symbols = loaded.symbols;
        })
        (record { taken = W.taken out.old; failures = W.failures out.old })
        (record { taken = W.taken out.new; failures = W.failures out.new }) }
{
    let Loaded { program, symbols } = loaded;
    run_program(alloc, program, with_symbols(asked, &symbols), progress, out)
}

/// Runs a model over its data to the end of the run, without a bound, and writes only its report.
///
/// Few steps back are kept, so that the memory that the run takes does not grow with the steps.
/// `progress` hears every ten million steps how far the run is. Besides how the run ended, the
/// result has the explanation of a fault or a refusal, the number of values that did not fit their
/// fields, and the row of the results that `asked` names (docs/RUNS.md).
///
/// `Ok` if all was written: its end is `Done`, or `Faulted` with the state line of the last state;
/// or `Refused` with the line of a refused model, for which nothing is written. `Write` if `out`
/// counted a failure; the text that was written is a prefix of the report. `Memory` if a growth was
/// refused, and nothing is written.
pub fn run_model<P: Progress, W: Outlet>(
    alloc: Global,
    model: &[u8],
    asked: Asked<'_>,
    progress: &mut P,
    out: &mut W,
) -> Result<WholeRun, RunCut>
    requires { W.failures out.old < 2 ^ 64 - 1 }
    ensures { RunSays result model.now asked.entry.data_text.now
        (record { name = asked.entry.name.now; results = asked.entry.results.now })
        (record { taken = W.taken out.old; failures = W.failures out.old })
        (record { taken = W.taken out.new; failures = W.failures out.new }) }
{
    match load_with_symbols(alloc, model) {
        Ok(loaded) => run_loaded(alloc, loaded, asked, progress, out),
        Err(fault) => refusal(alloc, model, &fault),
    }
}

/// As `run_model`, and returns only how the run ended.
///
/// `Ok` if all was written: `Done`, or `Faulted` with the state line of the last state; `Refused`
/// with the line of a refused model, for which nothing is written. `Write` if `out` counted a
/// failure; what was written is a prefix of the report. `Memory` for a refused growth: no text.
#[tactic(auto, unfolding(crate::specs::WholeRun::RunSays))]
pub fn report<P: Progress, W: Outlet>(
    alloc: Global,
    model: &[u8],
    data_text: &[u8],
    progress: &mut P,
    out: &mut W,
) -> Result<RunEnd, RunCut>
    requires { W.failures out.old < 2 ^ 64 - 1 }
    ensures { ReportSays result model.now data_text.now
        (record { taken = W.taken out.old; failures = W.failures out.old })
        (record { taken = W.taken out.new; failures = W.failures out.new }) }
{
    let asked = Asked {
        watched: &[],
        data_text,
        name: b"",
        results: &[],
    };
    match run_model(alloc, model, asked, progress, out) {
        Ok(whole) => Ok(whole.end),
        Err(cut) => Err(cut),
    }
}

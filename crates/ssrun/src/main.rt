//! `ssrun [--watch EXPRESSION --trace FILE] [--result EXPRESSION --results FILE] MODEL [DATA]`: runs
//! a model to its end and writes its report, a trace, and a row of results.
#![tactic(auto)]

ghost use Rattle.std.specs.Prelude.{◌≡◌};
ghost use Rattle.ss_host.specs.Stops.{stop_status};
ghost use Rattle.ss_run.specs.Report.{status_of_run};
ghost use Rattle.ss_run.specs.WholeRun.{end_of_outcome};
ghost use Rattle.ssrun.specs.Causes.{cause_status};

mod cause;
mod measures;
mod meter;
mod questions;
mod words;

use cause::Cause;
use clap::Error;
use clap::error::ErrorKind;
use measures::read_measures;
use meter::Meter;
use ss_host::{Stop, Stream, explain, read_arguments, read_file, read_or, stop_by, tell};
use ss_run::{
    Asked, Measure, Outlets, RunCut, RunEnd, WholeRun, model_warnings, results_head, run_model,
    run_status, trace_model, unfit_words,
};
use ss_session::{LoadFault, Loaded, drop_symbols, load_with_symbols};
use std::alloc::Global;
use std::fs::{self, File};
use std::io::{self, IsTerminal, Write};
use std::path::Path;
use std::process::ExitCode;
use words::{Words, read_words};

/// How a run ended, and the warnings of its model.
type Ran = (Result<WholeRun, RunCut>, Vec<u8>);

/// The words that the program takes.
const USAGE: &str =
    "ssrun [--watch EXPRESSION --trace FILE] [--result EXPRESSION --results FILE] MODEL [DATA]";

/// The measures that some words name of a model; none if it is refused.
fn measures_of<'a>(
    alloc: Global,
    model: &[u8],
    texts: &[&'a str],
) -> Result<Vec<Measure>, Cause<'a>> {
    if texts.is_empty() {
        return Ok(Vec::new(alloc));
    }
    match load_with_symbols(alloc, model) {
        Ok(loaded) => {
            let Loaded { program, symbols } = loaded;
            let measures = read_measures(alloc, &program, &symbols, texts);
            drop_symbols(symbols);
            program.end();
            measures
        }
        Err(LoadFault::Memory) => Err(Cause::Stop(Stop::Memory)),
        Err(_) => Ok(Vec::new(alloc)),
    }
}

/// The name of the file of data, without its folder; empty if none is named.
fn data_name<'a>(path: Option<&'a str>) -> &'a str {
    match path {
        Some(path) => Path::new(path).file_name().unwrap_or(path),
        None => "",
    }
}

/// A new file of this path.
fn created<'a>(rt: &HostRuntime, path: &'a str) -> Result<File, Stop<'a>> {
    match fs::create(rt, path) {
        Ok(file) => Ok(file),
        Err(error) => Err(stop_by(&error, Stop::CannotWrite)),
    }
}

/// Runs a model over its data, and writes its trace to the file of a path.
fn run_traced<'a>(
    rt: &HostRuntime,
    model: &[u8],
    asked: Asked<'_>,
    path: &'a str,
) -> Result<Result<WholeRun, RunCut>, Stop<'a>> {
    let mut outlets = Outlets {
        trace: Stream::new(created(rt, path)?),
        report: Stream::new(io::writer(rt)),
    };
    let mut meter = Meter::new(rt, rt.stderr().is_terminal());
    Ok(trace_model(rt.alloc(), model, asked, &mut meter, &mut outlets))
}

/// Reads model and data, in that order, and runs the model; gives its warnings too.
///
/// The model runs only if both were read and all that is watched or measured has a meaning in it.
fn run<'a>(rt: &HostRuntime, words: &Words<'a>) -> Result<Ran, Cause<'a>> {
    let model = read_file(rt, words.model).map_err(Cause::Stop)?;
    let input = read_or(rt, words.input, b"").map_err(Cause::Stop)?;
    let watched = measures_of(rt.alloc(), &model, &words.watched)?;
    let results = measures_of(rt.alloc(), &model, &words.measured)?;
    let asked = Asked {
        watched: &watched,
        data_text: &input,
        name: data_name(words.input).as_bytes(),
        results: &results,
    };
    let outcome = run_measured(rt, words, asked, &model).map_err(Cause::Stop)?;
    let warnings = warnings_of(rt.alloc(), &model, &outcome);
    Ok((outcome, warnings))
}

/// Runs a model over its data, and writes its results if a file is named for them.
fn run_measured<'a>(
    rt: &HostRuntime,
    words: &Words<'a>,
    asked: Asked<'_>,
    model: &[u8],
) -> Result<Result<WholeRun, RunCut>, Stop<'a>> {
    let Some(path) = words.results else {
        return run_over(rt, words, asked, model);
    };
    let mut file = created(rt, path)?;
    match run_over(rt, words, asked, model)? {
        Ok(whole) => Ok(with_results(rt.alloc(), &mut file, asked.results, whole)),
        Err(cut) => Ok(Err(cut)),
    }
}

/// Writes the results of a run to a file: a row of names, and the row of the run. A refused model
/// has none.
fn with_results(
    alloc: Global,
    file: &mut File,
    measures: &[Measure],
    whole: WholeRun,
) -> Result<WholeRun, RunCut> {
    if whole.results.is_empty() {
        return Ok(whole);
    }
    let mut table = results_head(alloc, measures)?;
    table.extend_from_slice(&whole.results)?;
    match file.write_all(&table) {
        Ok(()) => Ok(whole),
        Err(_) => Err(RunCut::Write),
    }
}

/// Runs a model over its data, and traces it if the words name a trace.
fn run_over<'a>(
    rt: &HostRuntime,
    words: &Words<'a>,
    asked: Asked<'_>,
    model: &[u8],
) -> Result<Result<WholeRun, RunCut>, Stop<'a>> {
    if let Some(path) = words.trace {
        return run_traced(rt, model, asked, path);
    }
    let mut out = Stream::new(io::writer(rt));
    let mut meter = Meter::new(rt, rt.stderr().is_terminal());
    Ok(run_model(rt.alloc(), model, asked, &mut meter, &mut out))
}

/// The warnings of a model that was run; none if memory was refused.
fn warnings_of(alloc: Global, model: &[u8], outcome: &Result<WholeRun, RunCut>) -> Vec<u8> {
    let none = Vec::new(alloc);
    match outcome {
        Ok(whole) if !matches!(whole.end, RunEnd::Refused(_)) => {
            model_warnings(alloc, model).unwrap_or(none)
        }
        _ => none,
    }
}

/// Explains the stop of the program, and gives its exit status.
fn stopped<R: Eprint>(rt: &R, stop: Stop<'_>) -> u8
    ensures { result ≡ stop_status stop.entry }
{
    explain(rt, stop, USAGE);
    stop.status()
}

/// Says why no run is made, and gives the exit status.
fn unmade(rt: &HostRuntime, cause: Cause<'_>) -> u8
    ensures { result ≡ cause_status cause.entry }
{
    match cause {
        Cause::Stop(stop) => stopped(rt, stop),
        Cause::NoQuestion(text) => {
            let _ = eprintln!(rt; "NO QUESTION {text}");
            1
        }
        Cause::Unnamed(lines) => {
            put_lines(rt, &lines);
            1
        }
    }
}

/// Says on standard error how a run ended, and gives the exit status.
fn ended(rt: &HostRuntime, outcome: Result<WholeRun, RunCut>) -> u8
    ensures { result ≡ status_of_run (end_of_outcome outcome) }
{
    let end = match outcome {
        Ok(whole) => {
            tell_whole(rt, &whole);
            Ok(whole.end)
        }
        Err(cut) => {
            tell_cut(rt, cut);
            Err(cut)
        }
    };
    run_status(&end)
}

/// Says why a run did not end well, the explanation of that, and how many values did not fit.
fn tell_whole(rt: &HostRuntime, whole: &WholeRun) {
    match &whole.end {
        RunEnd::Done => {}
        RunEnd::Faulted(line) => put_lines(rt, line),
        RunEnd::Refused(line) => put_lines(rt, line),
    }
    put_lines(rt, &whole.explanation);
    let unfit = whole.unfit;
    if unfit > 0 {
        let words = unfit_words(unfit);
        let _ = eprintln!(rt; "{unfit}{words}");
    }
}

/// Says why a run was cut short.
fn tell_cut(rt: &HostRuntime, cut: RunCut) {
    match cut {
        RunCut::Write => tell(rt, Stop::CannotWrite, USAGE),
        RunCut::Memory => tell(rt, Stop::Memory, USAGE),
    }
}

/// Writes lines to standard error, as far as that takes them.
fn put_lines(rt: &HostRuntime, lines: &[u8]) {
    let _ = rt.stderr().write_all(lines);
}

/// Explains words that name no model, and gives the exit status: 0 if the words ask for help or
/// version.
fn explained(rt: &HostRuntime, error: &Error) -> u8 {
    match error.kind() {
        ErrorKind::OutOfMemory => stopped(rt, Stop::Memory),
        ErrorKind::DisplayHelp => shown(rt, error),
        ErrorKind::DisplayVersion => shown(rt, error),
        _ => stopped(rt, Stop::Usage),
    }
}

/// Writes help or version to standard output, and gives the exit status.
fn shown(rt: &HostRuntime, error: &Error) -> u8 {
    match error.print(rt) {
        Ok(()) => 0,
        Err(_) => stopped(rt, Stop::CannotWrite),
    }
}

/// Runs the model that the words name, and gives the exit status.
fn started(rt: &HostRuntime, arguments: &[String]) -> u8 {
    let words = match read_words(rt.alloc(), arguments) {
        Ok(words) => words,
        Err(error) => return explained(rt, &error),
    };
    match run(rt, &words) {
        Ok((outcome, warnings)) => {
            let status = ended(rt, outcome);
            put_lines(rt, &warnings);
            status
        }
        Err(cause) => unmade(rt, cause),
    }
}

fn main(rt: HostRuntime) -> ExitCode {
    let status = match read_arguments(&rt) {
        Ok(arguments) => started(&rt, &arguments),
        Err(stop) => stopped(&rt, stop),
    };
    ExitCode::from(status)
}

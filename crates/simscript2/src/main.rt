//! `simscript2 [MODEL [DATA [COMMANDS]]]`: runs a model under the debugger's commands and writes
//! the transcript.
#![tactic(auto)]

ghost use Rattle.std.specs.Prelude.{◌≡◌};
ghost use Rattle.ss_session.specs.Exit.{status_of};
ghost use Rattle.ss_host.specs.Stops.{stop_status};

mod paths;

use paths::read_paths;
use ss_host::{Stop, Stream, read_arguments, read_model, read_or, tell};
use ss_session::{End, SessionFault, exit_status, session};
use std::io;
use std::process::ExitCode;
use std::rt::Files;

/// The commands, if no file of commands is named.
const RUN: &[u8] = b"RUN\n";

/// The words that the program takes.
const USAGE: &str = "simscript2 [MODEL [DATA [COMMANDS]]]";

/// Reads the words, then MODEL, DATA and COMMANDS in that order; runs the session if all were read.
fn run<'a, R: Files + Input + Print + AllocGlobal>(
    rt: &R,
    arguments: &'a [String],
) -> Result<Result<End, SessionFault>, Stop<'a>> {
    let paths = read_paths(rt.alloc(), arguments)?;
    let model = read_model(rt, paths.model)?;
    let input = read_or(rt, paths.input, b"")?;
    let commands = read_or(rt, paths.commands, RUN)?;
    let mut out = Stream::new(io::writer(rt));
    Ok(session(rt.alloc(), &model, &input, &commands, &mut out))
}

/// Explains the stop of the program, and gives its exit status.
fn stopped<R: Eprint>(rt: &R, stop: Stop<'_>) -> u8
    ensures { result ≡ stop_status stop.entry }
{
    tell(rt, stop, USAGE);
    stop.status()
}

/// Says why a session was cut short, and gives the exit status of its end.
fn ended<R: Eprint>(rt: &R, outcome: Result<End, SessionFault>) -> u8
    ensures { result ≡ status_of outcome }
{
    match outcome {
        Err(SessionFault::Write) => tell(rt, Stop::CannotWrite, USAGE),
        Err(SessionFault::Memory) => tell(rt, Stop::Memory, USAGE),
        _ => {}
    }
    exit_status(&outcome)
}

fn main(rt: HostRuntime) -> ExitCode {
    let status = match read_arguments(&rt) {
        Ok(arguments) => match run(&rt, &arguments) {
            Ok(outcome) => ended(&rt, outcome),
            Err(stop) => stopped(&rt, stop),
        },
        Err(stop) => stopped(&rt, stop),
    };
    ExitCode::from(status)
}

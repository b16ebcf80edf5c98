//! `ssdb [--words] MODEL [DATA]`: debugs a model at a prompt, or prints words for its completion.
#![tactic(auto)]

ghost use Rattle.std.specs.Prelude.{◌≡◌};
ghost use Rattle.ss_host.specs.Stops.{stop_status};
ghost use Rattle.ssdb.specs.Stops.{prompt_status};

mod completion;
mod dialogues;
mod end;
mod log;
mod opening;
mod orders;
mod refused;
mod scripts;
mod words;

use clap::Error;
use clap::error::ErrorKind;
use completion::tell_words;
use dialogues::{hold_dialogues, read_files};
use end::{PromptEnd, PromptFault};
use scripts::ScriptConsole;
use ss_console::StreamConsole;
use ss_host::{Stop, explain, read_arguments, tell};
use std::io;
use std::io::IsTerminal;
use std::process::ExitCode;
use words::{Words, read_words};

/// The words that the program takes.
const USAGE: &str = "ssdb MODEL [DATA], ssdb --words MODEL";

/// Reads the files that the words name, and holds the dialogues, or prints the words for completion.
fn run<'a>(
    rt: &HostRuntime,
    words: &Words<'a>,
    terminal: bool,
) -> Result<Result<PromptEnd, PromptFault>, Stop<'a>> {
    let sources = read_files(rt, words)?;
    let mut typed = StreamConsole::new(rt.reader(), io::writer(rt), terminal);
    if words.tells_words {
        return Ok(tell_words(rt.alloc(), &sources.model, &mut typed));
    }
    let mut console = ScriptConsole::new(rt, typed);
    Ok(hold_dialogues(rt, words, sources, &mut console))
}

/// The exit status after a dialogue.
fn status(terminal: bool, ended: Result<PromptEnd, PromptFault>) -> u8
    ensures { result ≡ prompt_status terminal ended }
{
    match ended {
        Ok(PromptEnd::Done) => 0,
        Ok(PromptEnd::Faulted) => { if terminal { 0 } else { 4 } }
        Err(PromptFault::Cut(_)) => 2,
        Err(PromptFault::Refused) => 3,
        Err(PromptFault::Memory) => 5,
    }
}

/// Says on standard error why a dialogue was cut short.
fn tell_end(rt: &HostRuntime, ended: Result<PromptEnd, PromptFault>) {
    match ended {
        Err(PromptFault::Cut(cut)) => {
            let _ = eprintln!(rt; "ssdb: {cut}");
        }
        Err(PromptFault::Memory) => tell(rt, Stop::Memory, USAGE),
        _ => {}
    }
}

/// Explains the stop of the program, and gives its exit status.
fn stopped(rt: &HostRuntime, stop: Stop<'_>) -> u8
    ensures { result ≡ stop_status stop.entry }
{
    explain(rt, stop, USAGE);
    stop.status()
}

/// Writes help or version to standard output, and gives the exit status.
fn shown(rt: &HostRuntime, error: &Error) -> u8 {
    match error.print(rt) {
        Ok(()) => 0,
        Err(_) => stopped(rt, Stop::CannotWrite),
    }
}

/// Explains words that name no model, and gives the exit status: 0 if the words ask for help or
/// version.
fn explained(rt: &HostRuntime, error: &Error) -> u8 {
    match error.kind() {
        ErrorKind::OutOfMemory => stopped(rt, Stop::Memory),
        ErrorKind::DisplayHelp => shown(rt, error),
        ErrorKind::DisplayVersion => shown(rt, error),
        _ => stopped(rt, Stop::Usage),
    }
}

/// Does the work that the words name, and gives the exit status.
fn started(rt: &HostRuntime, arguments: &[String]) -> u8 {
    let terminal = rt.stdin().is_terminal();
    let words = match read_words(rt.alloc(), arguments) {
        Ok(words) => words,
        Err(error) => return explained(rt, &error),
    };
    match run(rt, &words, terminal) {
        Ok(ended) => {
            tell_end(rt, ended);
            status(terminal, ended)
        }
        Err(stop) => stopped(rt, stop),
    }
}

fn main(rt: HostRuntime) -> ExitCode {
    let status = match read_arguments(&rt) {
        Ok(arguments) => started(&rt, &arguments),
        Err(stop) => stopped(&rt, stop),
    };
    ExitCode::from(status)
}

//! The words that the program is started with, and the options that it takes.
ghost use Rattle.std.specs.Prelude.{◌≡◌, ◌≢◌};
ghost use Rattle.clap.specs.Words.{kind_of};

use clap::{Arg, ArgAction, Command, Error};
use std::alloc::Global;

/// The words with which the program is called.
#[derive(Drop)]
pub struct Words<'a> {
    /// The path of the model.
    pub model: &'a str,
    /// The path of its data, if one is named.
    pub input: Option<&'a str>,
    /// The expressions, conditions and questions that are traced.
    pub watched: Vec<&'a str>,
    /// The path of their trace, if one is named.
    pub trace: Option<&'a str>,
    /// The expressions, conditions and questions whose values in the last state are results.
    pub measured: Vec<&'a str>,
    /// The path of the results, if one is named.
    pub results: Option<&'a str>,
}

/// The program, with the option that names what is traced.
fn with_watch<'a>(alloc: Global) -> Result<Command<'a>, Error> {
    let watch = Arg::new(alloc, "watch")
        .long("watch")
        .value_name("EXPRESSION")
        .action(ArgAction::Append)
        .requires_arg("trace")?
        .help("an expression, condition or question that is traced; may be repeated");
    let command = Command::new(alloc, "ssrun")
        .version("1")
        .about("Runs a model to its end and writes its report")
        .arg(watch)?;
    Ok(command)
}

/// The same, with the option that names a trace.
fn with_trace<'a>(alloc: Global) -> Result<Command<'a>, Error> {
    let trace = Arg::new(alloc, "trace")
        .long("trace")
        .value_name("FILE")
        .requires_arg("watch")?
        .help("the path of the trace: comma-separated values, a row for each change");
    let command = with_watch(alloc)?.arg(trace)?;
    Ok(command)
}

/// The same, with the option that names a result.
fn with_result<'a>(alloc: Global) -> Result<Command<'a>, Error> {
    let result = Arg::new(alloc, "result")
        .long("result")
        .value_name("EXPRESSION")
        .action(ArgAction::Append)
        .requires_arg("results")?
        .help("an expression, condition or question: its last value is a result; may be repeated");
    let command = with_trace(alloc)?.arg(result)?;
    Ok(command)
}

/// The words that the program takes, for `--help` and the line that reports wrong ones.
///
/// An argument is made only when the program takes it. So an early return has no others to let go.
pub fn command<'a>(alloc: Global) -> Result<Command<'a>, Error> {
    let results = Arg::new(alloc, "results")
        .long("results")
        .value_name("FILE")
        .requires_arg("result")?
        .help(
            "the path of the results: comma-separated values, a row of names and a row of values",
        );
    let command = with_result(alloc)?
        .arg(results)?
        .arg(
            Arg::new(alloc, "MODEL")
                .required(true)
                .help("the path of the model"),
        )?
        .arg(Arg::new(alloc, "DATA").help("the path of its data; without it the data is empty"))?;
    Ok(command)
}

/// The values of an option that may be repeated.
fn all_of<'a>(alloc: Global, texts: Option<&[&'a str]>) -> Result<Vec<&'a str>, Error> {
    match texts {
        Some(texts) => Ok(texts.to_vec(alloc)?),
        None => Ok(Vec::new(alloc)),
    }
}

/// The words after the program's name, or why they name no model; the reason may be that help or
/// version is asked for.
pub fn read_words<'a>(alloc: Global, arguments: &'a [String]) -> Result<Words<'a>, Error> {
    let matches = command(alloc)?.try_get_matches_from(arguments)?;
    let watched = all_of(alloc, matches.get_strs("watch"))?;
    let measured = all_of(alloc, matches.get_strs("result"))?;
    Ok(Words {
        model: matches.get_str("MODEL").unwrap_or(""),
        input: matches.get_str("DATA"),
        watched,
        trace: matches.get_str("trace"),
        measured,
        results: matches.get_str("results"),
    })
}

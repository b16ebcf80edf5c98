//! The paths that the words of the program name.
ghost use Rattle.std.specs.Prelude.{◌≡◌, ◌≢◌, Err, IfErr, map, true};
ghost use Rattle.std.specs.List.{list_any};
ghost use Rattle.std.specs.String.{string_bytes};
ghost use Rattle.clap.specs.Words.{kind_of};
ghost use Rattle.ss_host.specs.Stops.{IsOfWords};
ghost use Rattle.simscript2.specs.Words.{are_wrong_words, is_option};

use clap::error::ErrorKind;
use clap::{Arg, Command, Error};
use ss_host::Stop;
use std::alloc::Global;

/// The most paths that the program takes.
const MOST_PATHS: usize = 3;

/// The three paths, each if it is given.
#[derive(Drop)]
pub struct Paths<'a> {
    pub model: Option<&'a str>,
    pub input: Option<&'a str>,
    pub commands: Option<&'a str>,
}

/// Whether a word is an option: it begins with `-` and goes on.
fn is_option(word: &str) -> bool
    ensures { result ≡ is_option word.now }
{
    word.len() > 1 && word.as_bytes()[0] == b'-'
}

fn has_option(words: &[String]) -> bool
    ensures { result ≡ list_any (λ word. is_option (string_bytes word)) words.now }
{
    words.iter().any(|word| is_option(word.as_str()))
}

/// Whether more than three words are after the program's name, or an option is among them.
fn are_wrong_words(words: &[String]) -> bool
    ensures { result ≡ are_wrong_words (map string_bytes words.now) }
{
    match words.split_first() {
        None => false,
        Some((_, paths)) => paths.len() > MOST_PATHS || has_option(paths),
    }
}

fn parse<'a>(alloc: Global, arguments: &'a [String]) -> Result<Paths<'a>, Error> {
    let command = Command::new(alloc, "simscript2")
        .arg(Arg::new(alloc, "MODEL"))?
        .arg(Arg::new(alloc, "DATA"))?
        .arg(Arg::new(alloc, "COMMANDS"))?;
    let matches = command.try_get_matches_from(arguments)?;
    Ok(Paths {
        model: matches.get_str("MODEL"),
        input: matches.get_str("DATA"),
        commands: matches.get_str("COMMANDS"),
    })
}

/// Why the words gave no paths.
fn stop_of(error: &Error) -> Stop<'static>
    ensures memory { kind_of error.now ≡ ErrorKind.OutOfMemory → result ≡ Stop.Memory }
    ensures other { kind_of error.now ≢ ErrorKind.OutOfMemory → result ≡ Stop.Usage }
{
    match error.kind() {
        ErrorKind::OutOfMemory => Stop::Memory,
        _ => Stop::Usage,
    }
}

/// The paths that the words name. More than three words and an option are refused before they are
/// parsed, so that `--` hides neither; and every answer of the parse that gives no paths is a
/// refusal of the words.
pub fn read_paths<'a>(alloc: Global, arguments: &'a [String]) -> Result<Paths<'a>, Stop<'a>>
    ensures wrong { are_wrong_words (map string_bytes arguments.now) ≡ true → result ≡ Err Stop.Usage }
    ensures err { IfErr result (λ stop. IsOfWords stop) }
{
    if are_wrong_words(arguments) {
        return Err(Stop::Usage);
    }
    match parse(alloc, arguments) {
        Ok(paths) => Ok(paths),
        Err(error) => Err(stop_of(&error)),
    }
}

//! The words that the program is started with.
use crate::stop::Stop;
use clap::error::ErrorKind;
use clap::{Command, Error};
use std::alloc::Global;

/// The version that `--version` prints.
const VERSION: &str = "1.0";

/// Reads the words: there are none.
fn parse(alloc: Global, words: &[String]) -> Result<(), Error> {
    let command = Command::new(alloc, "ssdap").version(VERSION).about(
        "The debug adapter of SIMSCRIPT II models, for editors: it speaks the Debug Adapter Protocol \
         over standard input and output (docs/EDITORS.md)",
    );
    command.try_get_matches_from(words)?;
    Ok(())
}

/// Prints the help or version that the words ask for, or the error of wrong words.
fn tell<R: Print + Eprint>(rt: &R, error: &Error) -> Stop {
    match error.kind() {
        ErrorKind::OutOfMemory => Stop::Memory,
        ErrorKind::DisplayHelp | ErrorKind::DisplayVersion => match print!(rt; "{error}") {
            Ok(()) => Stop::Words(0),
            Err(_) => Stop::Words(2),
        },
        _ => {
            let _ = eprint!(rt; "{error}");
            Stop::Words(1)
        }
    }
}

/// Reads the words.
///
/// If there are some, the program has said why they are wrong, or has printed the help or the
/// version that `--help` and `--version` ask for.
pub fn read_words<R: Print + Eprint + AllocGlobal>(rt: &R, words: &[String]) -> Result<(), Stop> {
    match parse(rt.alloc(), words) {
        Ok(()) => Ok(()),
        Err(error) => Err(tell(rt, &error)),
    }
}

//! The words that the program is started with.
use clap::{Arg, ArgAction, Command, Error};
use std::alloc::Global;

/// The words with which the program is called.
#[derive(Drop)]
pub struct Words<'a> {
    /// The path of the model.
    pub model: &'a str,
    /// The path of its data, if one is named.
    pub data: Option<&'a str>,
    /// Whether the words for completion are asked for, and no dialogue.
    pub tells_words: bool,
}

/// The version that `--version` prints.
const VERSION: &str = "1.0";

/// The words that the program takes, for `--help` and the line that reports wrong ones.
///
/// An argument is made only when the program takes it. So an early return has no others to let go.
fn command<'a>(alloc: Global) -> Result<Command<'a>, Error> {
    let tells = Arg::new(alloc, "words")
        .long("words")
        .action(ArgAction::SetTrue)
        .conflicts_with("DATA")?
        .help(
            "Tells the words of commands and model, a line each, for who completes words: rlwrap -f",
        );
    let command = Command::new(alloc, "ssdb")
        .version(VERSION)
        .about("Debugs a SIMSCRIPT II model at a prompt, forwards and backwards (docs/PROMPT.md)")
        .arg(tells)?
        .arg(
            Arg::new(alloc, "MODEL")
                .required(true)
                .help("The file of a model (docs/LANGUAGE.md)"),
        )?
        .arg(Arg::new(alloc, "DATA").help("The file of its data"))?;
    Ok(command)
}

/// The words after the program's name, or why they name no model; the reason may be that help or
/// version is asked for.
pub fn read_words<'a>(alloc: Global, arguments: &'a [String]) -> Result<Words<'a>, Error> {
    let matches = command(alloc)?.try_get_matches_from(arguments)?;
    Ok(Words {
        model: matches.get_str("MODEL").unwrap_or(""),
        data: matches.get_str("DATA"),
        tells_words: matches.get_flag("words"),
    })
}

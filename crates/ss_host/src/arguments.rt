//! Reads the words that the program was started with.
ghost use Rattle.std.specs.Prelude.{IfErr};
ghost use Rattle.ss_host.specs.Stops.{IsOfWords};

use crate::stop::{Stop, stop_by};
use std::env;
use std::rt::Env;

/// The words that the program was started with, its name first.
pub fn read_arguments(rt: &HostRuntime) -> Result<Vec<String>, Stop<'static>>
    ensures { IfErr result (λ stop. IsOfWords stop) }
{
    let arguments = match env::args(rt) {
        Ok(arguments) => arguments,
        Err(error) => return Err(stop_by(&error, Stop::Usage)),
    };
    match arguments.collect(rt.alloc()) {
        Ok(words) => Ok(words),
        Err(_) => Err(Stop::Memory),
    }
}

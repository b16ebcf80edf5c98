//! `ssdap`: the debug adapter of an editor, over standard input and output.
#![tactic(auto)]

mod adapter;
mod editing;
mod shelf;
mod stop;
mod words;

use editing::serve_editor;
use shelf::Disk;
use ss_host::read_arguments;
use ss_serve::StreamChannel;
use std::io;
use std::process::ExitCode;
use stop::{Stop, tell};
use words::read_words;

/// Reads the words, and serves if there are none.
fn run(rt: &HostRuntime) -> Result<(), Stop> {
    let Ok(words) = read_arguments(rt) else {
        return Err(Stop::Words(1));
    };
    read_words(rt, &words)?;
    let mut channel = StreamChannel::new(rt.alloc(), rt.reader(), io::writer(rt));
    Ok(serve_editor(rt.alloc(), &Disk::new(rt), &mut channel)?)
}

fn main(rt: HostRuntime) -> ExitCode {
    match run(&rt) {
        Ok(()) => ExitCode::SUCCESS,
        Err(stop) => {
            tell(&rt, stop);
            ExitCode::from(stop.status())
        }
    }
}

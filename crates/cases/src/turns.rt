//! The turns of a debugger over a worked example.
use crate::answer::{put_string, put_text};
use crate::worked::file;
use ss_debug::{Debugger, command, obey};
use ss_links::LinkedSets;
use ss_machine::Machine;
use ss_session::{LoadFault, open_debugger};
use std::alloc::{AllocError, Global};
use std::io;
use std::io::Write;
use std::rt::Files;

/// Obeys commands over a worked example, and writes each answer by itself before the next command
/// is obeyed.
///
/// It writes `MEMORY` in place of an answer if a growth was refused. The text is the example's name
/// and the commands, a `|` before each. The answer to the command `MACHINE` holds the facts of the
/// machine that no answer of the debugger shows.
pub fn show<R: Files + AllocGlobal + Print>(rt: &R, text: &str) -> io::Result<()> {
    let (name, commands) = text.split_once('|').unwrap_or((text, ""));
    match example_debugger(rt, name)? {
        Ok(mut debugger) => {
            let shown = obey_all(rt, &mut debugger, commands);
            debugger.end();
            shown
        }
        Err(LoadFault::Memory) => Err(io::Error::from(AllocError)),
        Err(_) => Ok(()),
    }
}

/// A debugger at the start of an example's run over its data; the data is empty if there is none.
fn example_debugger<R: Files + AllocGlobal>(
    rt: &R,
    name: &str,
) -> io::Result<Result<Debugger<LinkedSets>, LoadFault>> {
    let model = file(rt, name, "sim", None)?;
    let data = file(rt, name, "data", Some(b""))?;
    Ok(open_debugger(rt.alloc(), &model, &data))
}

fn obey_all<R: AllocGlobal + Print>(
    rt: &R,
    debugger: &mut Debugger<LinkedSets>,
    commands: &str,
) -> io::Result<()> {
    for line in commands.split('|') {
        show_turn(rt, debugger, line)?;
    }
    Ok(())
}

/// Writes the answer to a line.
fn show_turn<R: AllocGlobal + Print>(
    rt: &R,
    debugger: &mut Debugger<LinkedSets>,
    line: &str,
) -> io::Result<()> {
    let mut answer = Vec::new(rt.alloc());
    let shown = match put_turn(rt.alloc(), debugger, &mut answer, line) {
        Ok(()) => io::writer(rt).write_all(&answer),
        Err(fault) => Err(io::Error::from(fault)),
    };
    drop(answer);
    shown
}

/// Puts the answer to a line.
fn put_turn(
    alloc: Global,
    debugger: &mut Debugger<LinkedSets>,
    answer: &mut Vec<u8>,
    line: &str,
) -> Result<(), AllocError> {
    if line == "MACHINE" {
        return put_machine(alloc, answer, debugger.machine());
    }
    match obey(debugger, command(line.as_bytes()), answer) {
        Ok(_) => Ok(()),
        Err(_) => put_text(answer, "MEMORY\n"),
    }
}

/// Puts the position, how many steps are kept, and how many frames there are.
fn put_machine(
    alloc: Global,
    answer: &mut Vec<u8>,
    machine: &Machine<LinkedSets>,
) -> Result<(), AllocError> {
    let position = machine.position();
    let kept = machine.kept();
    let frames = machine.frames();
    put_string(
        answer,
        format!(in alloc; "AT {position} KEPT {kept} FRAMES {frames}\n"),
    )
}

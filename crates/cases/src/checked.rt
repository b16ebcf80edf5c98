//! The answers about a program that is checked: its outcome, MAIN's local variables and places.
use crate::answer::{put_number, put_string, put_text};
use ss_program::Program;
use ss_session::{LoadFault, load_program};
use std::alloc::{AllocError, Global};

/// Puts the rule and the line of a refusal.
fn put_refused(alloc: Global, out: &mut Vec<u8>, refused: LoadFault) -> Result<(), AllocError> {
    let put = put_rule(alloc, out, &refused);
    drop(refused);
    put
}

/// Puts the rule and the line of a refusal that is lent.
fn put_rule(alloc: Global, out: &mut Vec<u8>, refused: &LoadFault) -> Result<(), AllocError> {
    let (code, line) = match refused {
        LoadFault::Text { rule, line } => (rule.code(), *line),
        LoadFault::Check { rule, line, .. } => (rule.code(), *line),
        LoadFault::Memory => return Err(AllocError),
    };
    put_text(out, code)?;
    put_number(alloc, out, line)
}

/// Puts that a program is checked, or its refusal.
pub fn put_outcome(alloc: Global, out: &mut Vec<u8>, text: &[u8]) -> Result<(), AllocError> {
    match load_program(alloc, text) {
        Ok(program) => {
            program.end();
            put_text(out, "checked")
        }
        Err(refused) => put_refused(alloc, out, refused),
    }
}

/// Puts the number of the local variable of MAIN of a name, and the name's meaning in the program.
///
/// The name is the first line; the program is after it.
pub fn put_local(alloc: Global, out: &mut Vec<u8>, text: &[u8]) -> Result<(), AllocError> {
    let end = text.iter().position(|byte| *byte == b'\n').unwrap_or(0);
    let (name, rest) = text.split_at(end);
    match load_program(alloc, rest) {
        Ok(program) => {
            let put = put_local_of(alloc, out, &program, name);
            program.end();
            put
        }
        Err(refused) => put_refused(alloc, out, refused),
    }
}

/// Puts that number and that meaning of a name in a program.
fn put_local_of(
    alloc: Global,
    out: &mut Vec<u8>,
    program: &Program,
    name: &[u8],
) -> Result<(), AllocError> {
    let local = program.local(program.main(), name);
    let global = program.find(name);
    put_string(out, format!(in alloc; "{local:?} {global:?}"))
}

/// Puts the number and the line of MAIN, how many local variables it has, and the line of each
/// place.
pub fn put_places(alloc: Global, out: &mut Vec<u8>, text: &[u8]) -> Result<(), AllocError> {
    match load_program(alloc, text) {
        Ok(program) => {
            let put = put_places_of(alloc, out, &program);
            program.end();
            put
        }
        Err(refused) => put_refused(alloc, out, refused),
    }
}

/// Puts the number, line, locals and places of MAIN in a program.
fn put_places_of(alloc: Global, out: &mut Vec<u8>, program: &Program) -> Result<(), AllocError> {
    let main = program.main();
    let section = program.section(main);
    let line = section.line;
    let count = section.locals.len();
    put_string(out, format!(in alloc; "{main} {line} {count}:"))?;
    for spot in &section.places {
        put_number(alloc, out, spot.line)?;
    }
    Ok(())
}

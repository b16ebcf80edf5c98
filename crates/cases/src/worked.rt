//! The worked examples, and the boards over which their sessions give their transcripts.
ghost use Rattle.std.specs.Prelude.{◌≡◌};
ghost use Rattle.ss_links.specs.Board.{empty_board};

use crate::answer::put_text;
use ss_links::{LinkedSets, PlainSets, SetBoard};
use ss_session::{MemoryOutlet, exit_status, session_over};
use std::alloc::{AllocError, Global};
use std::io::ErrorKind;
use std::rt::Files;
use std::{fs, io};

/// A worked example: a model, its data and commands, and the transcript and status that they are to
/// give.
#[derive(Clone, Copy)]
struct Example<'a> {
    model: &'a [u8],
    data: &'a [u8],
    commands: &'a [u8],
    transcript: &'a [u8],
    status: &'a [u8],
}

/// The endings of an example's files, in the order of its fields, and the bytes that replace a file
/// that is not there.
const FILES: [(&str, Option<&[u8]>); 5] = [
    ("sim", None),
    ("data", Some(b"")),
    ("commands", None),
    ("transcript", None),
    ("status", Some(b"0\n")),
];

/// Puts the boards over which a session of this worked example gives its transcript and its status.
pub fn put_boards<R: Files + AllocGlobal>(rt: &R, out: &mut Vec<u8>, name: &str) -> io::Result<()> {
    let files = files(rt, name)?;
    let put = put_boards_of(rt.alloc(), out, &files);
    drop(files);
    Ok(put?)
}

/// Puts those boards for the files of an example.
fn put_boards_of(alloc: Global, out: &mut Vec<u8>, files: &[Vec<u8>]) -> Result<(), AllocError> {
    let Some(example) = example_of(files) else {
        return Ok(());
    };
    if example.holds_over(alloc, LinkedSets::new(alloc), LinkedSets::new(alloc)) {
        put_text(out, "linked")?;
    }
    if example.holds_over(alloc, PlainSets::new(alloc), PlainSets::new(alloc)) {
        put_text(out, " plain")?;
    }
    Ok(())
}

/// The files of an example.
fn files<R: Files + AllocGlobal>(rt: &R, name: &str) -> io::Result<Vec<Vec<u8>>> {
    let mut files = Vec::new(rt.alloc());
    match add_files(rt, &mut files, name) {
        Ok(()) => Ok(files),
        Err(error) => {
            drop(files);
            Err(error)
        }
    }
}

fn add_files<R: Files + AllocGlobal>(
    rt: &R,
    files: &mut Vec<Vec<u8>>,
    name: &str,
) -> io::Result<()> {
    for (ending, otherwise) in &FILES {
        files.push(file(rt, name, ending, *otherwise)?)?;
    }
    Ok(())
}

/// The example with these files.
fn example_of(files: &[Vec<u8>]) -> Option<Example<'_>> {
    match files {
        [model, data, commands, transcript, status] => Some(Example {
            model,
            data,
            commands,
            transcript,
            status,
        }),
        _ => None,
    }
}

/// The file of this name and ending, or these bytes if there is none.
pub fn file<R: Files + AllocGlobal>(
    rt: &R,
    name: &str,
    ending: &str,
    otherwise: Option<&[u8]>,
) -> io::Result<Vec<u8>> {
    let path = format!(in rt.alloc(); "{name}.{ending}")?;
    let read = fs::read(rt, path.as_str());
    drop(path);
    match otherwise {
        Some(bytes) if is_missing(&read) => {
            drop(read);
            Ok(Vec::from_slice(rt.alloc(), bytes)?)
        }
        _ => read,
    }
}

/// Whether there was no file to read.
fn is_missing(read: &io::Result<Vec<u8>>) -> bool {
    match read {
        Ok(_) => false,
        Err(error) => error.kind() == ErrorKind::NotFound,
    }
}

impl Example<'_> {
    /// Whether a session over these boards gives the transcript and the status.
    fn holds_over<S: SetBoard>(self, alloc: Global, sets: S, pending: S) -> bool
        requires sets { S.board sets ≡ empty_board }
        requires pending { S.board pending ≡ empty_board }
    {
        let mut out = MemoryOutlet::new(alloc);
        let status = self.run_over(alloc, sets, pending, &mut out);
        let gives = out.bytes() == self.transcript;
        drop(out);
        gives && is_status(self.status, status)
    }

    /// Runs a session over these boards, and gives its status.
    fn run_over<S: SetBoard>(self, alloc: Global, sets: S, pending: S, out: &mut MemoryOutlet) -> u8
        requires sets { S.board sets ≡ empty_board }
        requires pending { S.board pending ≡ empty_board }
        requires out { out.old.failures ≡ 0 }
    {
        let (model, data, commands) = (self.model, self.data, self.commands);
        exit_status(&session_over(alloc, sets, pending, model, data, commands, out))
    }
}

/// Whether a text is the line of a status, a number of one figure.
fn is_status(text: &[u8], status: u8) -> bool {
    text == [u8::wrapping_add(b'0', status), b'\n'].as_slice()
}

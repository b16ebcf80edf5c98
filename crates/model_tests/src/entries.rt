//! The events at a console or on a channel over memory.
use crate::compare::same;
use ss_console::Entry;
use std::alloc::{AllocError, Global};
use std::process::Abort;

fn put_read(text: &mut Vec<u8>, bytes: &[u8]) -> Result<(), AllocError> {
    text.extend_from_slice(b"<")?;
    text.extend_from_slice(bytes)?;
    text.extend_from_slice(b">")
}

fn put_entry(text: &mut Vec<u8>, entry: &Entry<'_>) -> Result<(), AllocError> {
    match entry {
        Entry::Read(bytes) => put_read(text, bytes),
        Entry::Wrote(byte) => text.extend_from_slice(&[*byte]),
    }
}

/// Compares events with a text: the bytes that were read in angle brackets, and those that were
/// written.
pub fn tell(rt: &impl Abort, alloc: Global, entries: &[Entry<'_>], wanted: &[u8]) {
    let mut text = Vec::new(alloc);
    for entry in entries {
        put_entry(&mut text, entry).expect(rt, "room");
    }
    same(rt, text.as_slice(), wanted);
    drop(text);
}

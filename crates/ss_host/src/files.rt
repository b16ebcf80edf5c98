//! Reads files and standard input whole, up to the limit of 64 MiB.
ghost use Rattle.std.specs.Prelude.{◌≡◌, ◌≢◌, ◌≤◌, ◌^◌, [], length, IfOk, IfErr, IfSome, None, codes};
ghost use Rattle.std.specs.IoError.{error_kind};
ghost use Rattle.ss_host.specs.Stops.{IsOfFile, IsOfPath, IsUnread, path_or};

use crate::stop::{Stop, Unread, stop_by};
use std::alloc::Global;
use std::io::{ErrorKind, Read};
use std::rt::Files;
use std::{fs, io};

/// The most bytes of a file: 64 MiB.
const MOST_BYTES: usize = 1 << 26;

/// Reads to the end, which must come within 64 MiB.
fn read_all<R: Read + Drop>(alloc: Global, reader: R) -> io::Result<Vec<u8>>
    ensures limit { IfOk result (λ bytes. length bytes.items ≤ 2 ^ 26) }
    ensures whole { IfOk result (λ bytes. IfSome (R.remaining reader) (λ all. bytes.items ≡ all)) }
{
    let mut bytes = Vec::new(alloc);
    reader.take(MOST_BYTES as u64 + 1).read_to_end(&mut bytes)?;
    if bytes.len() > MOST_BYTES {
        return Err(io::Error::from(ErrorKind::InvalidData));
    }
    Ok(bytes)
}

/// Why the file of a path was not read.
fn stop_at<'a>(error: io::Error, path: &'a str) -> Stop<'a>
    ensures memory { error_kind error ≡ ErrorKind.OutOfMemory → result ≡ Stop.Memory }
    ensures other { error_kind error ≢ ErrorKind.OutOfMemory → IsUnread path.entry result }
    ensures names { IsOfFile path.now result }
{
    stop_by(&error, Stop::CannotRead(path, Unread::of(&error)))
}

/// The bytes of the file of a path; at most 64 MiB.
pub fn read_file<'a, R: Files + AllocGlobal>(rt: &R, path: &'a str) -> Result<Vec<u8>, Stop<'a>>
    ensures limit { IfOk result (λ bytes. length bytes.items ≤ 2 ^ 26) }
    ensures err { IfErr result (λ stop. IsOfFile path.now stop) }
{
    let file = match fs::open(rt, path) {
        Ok(file) => file,
        Err(error) => return Err(stop_at(error, path)),
    };
    match read_all(rt.alloc(), file) {
        Ok(bytes) => Ok(bytes),
        Err(error) => Err(stop_at(error, path)),
    }
}

/// The bytes of the model's file, or of standard input if no file is named.
pub fn read_model<'a, R: Files + Input + AllocGlobal>(
    rt: &R,
    path: Option<&'a str>,
) -> Result<Vec<u8>, Stop<'a>>
    ensures limit { IfOk result (λ bytes. length bytes.items ≤ 2 ^ 26) }
    ensures err { IfErr result (λ stop. IsOfFile (path_or path.entry (codes "-")) stop) }
{
    let Some(path) = path else {
        return match read_all(rt.alloc(), rt.reader()) {
            Ok(bytes) => Ok(bytes),
            Err(error) => Err(stop_at(error, "-")),
        };
    };
    read_file(rt, path)
}

/// The bytes of a file, or the bytes of `otherwise` if no file is named; then only memory can be
/// refused.
pub fn read_or<'a, R: Files + AllocGlobal>(
    rt: &R,
    path: Option<&'a str>,
    otherwise: &[u8],
) -> Result<Vec<u8>, Stop<'a>>
    ensures limit { path.entry ≢ None → IfOk result (λ bytes. length bytes.items ≤ 2 ^ 26) }
    ensures unnamed { path.entry ≡ None → IfOk result (λ bytes. bytes.items ≡ otherwise.now) }
    ensures err { IfErr result (λ stop. IsOfPath path.entry stop) }
{
    match path {
        Some(path) => read_file(rt, path),
        None => match otherwise.to_vec(rt.alloc()) {
            Ok(bytes) => Ok(bytes),
            Err(_) => Err(Stop::Memory),
        },
    }
}

//! The reasons that stop a program: their exit statuses, and their lines on standard error.
ghost use Rattle.std.specs.Prelude.{◌≡◌, ◌≢◌};
ghost use Rattle.std.specs.IoError.{error_kind};
ghost use Rattle.ss_host.specs.Stops.{stop_status, unread_words};

use std::io::{Error, ErrorKind};

/// Why a file is not read.
#[derive(Clone, Copy, Debug, Drop, PartialEq, Eq)]
pub enum Unread {
    /// There is no such file.
    Missing,
    /// The system does not permit it.
    Forbidden,
    /// It is a folder.
    Folder,
    /// It is over 64 MiB.
    TooLong,
    /// For another reason.
    Unknown,
}

impl Unread {
    /// The reason of an error of the system; a file that is too long comes as `InvalidData`.
    pub fn of(error: &Error) -> Unread
        ensures missing { error_kind error.now ≡ ErrorKind.NotFound → result ≡ Unread.Missing }
        ensures forbidden { error_kind error.now ≡ ErrorKind.PermissionDenied
            → result ≡ Unread.Forbidden }
        ensures folder { error_kind error.now ≡ ErrorKind.IsADirectory → result ≡ Unread.Folder }
        ensures long { error_kind error.now ≡ ErrorKind.InvalidData → result ≡ Unread.TooLong }
    {
        match error.kind() {
            ErrorKind::NotFound => Unread::Missing,
            ErrorKind::PermissionDenied => Unread::Forbidden,
            ErrorKind::IsADirectory => Unread::Folder,
            ErrorKind::InvalidData => Unread::TooLong,
            _ => Unread::Unknown,
        }
    }

    /// The reason in words, after those that say that the file cannot be read.
    fn words(&self) -> &'static str
        ensures { result.now ≡ unread_words self.now }
    {
        match self {
            Unread::Missing => ": there is no such file",
            Unread::Forbidden => ": it is not permitted",
            Unread::Folder => ": it is a folder",
            Unread::TooLong => ": it is over 64 MiB",
            Unread::Unknown => "",
        }
    }
}

/// The reason that stops a program before its work, or ends its work before all is written.
#[derive(Clone, Copy, Drop)]
pub enum Stop<'a> {
    /// The words are none that the program takes.
    Usage,
    /// Memory was refused.
    Memory,
    /// The file of this path, or standard input for `-`, cannot be read, for this reason.
    CannotRead(&'a str, Unread),
    /// Standard output takes nothing more.
    CannotWrite,
}

impl Stop<'_> {
    /// The exit status: 1 for the words, 2 for files and output, 5 for memory.
    pub fn status(&self) -> u8
        ensures { result ≡ stop_status self.now }
    {
        match self {
            Stop::Usage => 1,
            Stop::CannotRead(_, _) => 2,
            Stop::CannotWrite => 2,
            Stop::Memory => 5,
        }
    }
}

/// The reason that an error of the system gives for the stop: memory was refused, or `otherwise`.
pub fn stop_by<'a>(error: &Error, otherwise: Stop<'a>) -> Stop<'a>
    ensures memory { error_kind error.now ≡ ErrorKind.OutOfMemory → result ≡ Stop.Memory }
    ensures other { error_kind error.now ≢ ErrorKind.OutOfMemory → result ≡ otherwise.entry }
{
    match error.kind() {
        ErrorKind::OutOfMemory => Stop::Memory,
        _ => otherwise,
    }
}

/// Says on standard error, in one line, why a program stopped that is started as `usage` says.
pub fn tell<R: Eprint>(rt: &R, stop: Stop<'_>, usage: &str) {
    let _ = match stop {
        Stop::Usage => eprintln!(rt; "USAGE: {usage}"),
        Stop::Memory => eprintln!(rt; "OUT OF MEMORY"),
        Stop::CannotRead(path, _) => eprintln!(rt; "CANNOT READ {path}"),
        Stop::CannotWrite => eprintln!(rt; "CANNOT WRITE"),
    };
}

/// As `tell`, and says why a file cannot be read.
pub fn explain<R: Eprint>(rt: &R, stop: Stop<'_>, usage: &str) {
    let Stop::CannotRead(path, reason) = stop else {
        return tell(rt, stop, usage);
    };
    let words = reason.words();
    let _ = eprintln!(rt; "CANNOT READ {path}{words}");
}

//! The file to which a transcript is written.
use std::fs::{self, File};
use std::io::Write;

/// A file to which a transcript is written, and its path.
#[derive(Drop)]
pub struct Log {
    file: File,
    path: Vec<u8>,
    is_lost: bool,
}

impl Log {
    /// A new file of a path; none if it cannot be written, or memory for its path was refused.
    pub fn create(rt: &HostRuntime, path: &[u8]) -> Option<Log> {
        let name = str::from_utf8(path).ok()?;
        let path = path.to_vec(rt.alloc()).ok()?;
        let file = fs::create(rt, name).ok()?;
        Some(Log {
            file,
            path,
            is_lost: false,
        })
    }

    /// Writes some bytes. After a writing that failed it writes no more.
    pub fn note(&mut self, bytes: &[u8]) {
        if !self.is_lost {
            self.is_lost = self.file.write_all(bytes).is_err();
        }
    }

    /// Whether a writing failed.
    pub fn is_lost(&self) -> bool {
        self.is_lost
    }

    /// The path of the file.
    pub fn path(&self) -> &[u8] {
        &self.path
    }
}

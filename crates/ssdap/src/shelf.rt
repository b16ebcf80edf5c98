//! The files from which models and data are read.
ghost use Rattle.std.specs.Prelude.{ℕ, Bool, None, List, Option, option_map, IfOk};
ghost use Rattle.ssdap.specs.Shelves.{Stands, IsSame};

use ss_host::{Stop, read_file};
use std::alloc::AllocError;
use std::os::unix::fs::MetadataExt;
use std::rt::Files;
use std::{fs, str};

/// The files from which models and data are read.
pub trait Shelf {
    // the file at each path, as its bytes, or nothing that can be read; if the shelf knows its
    // files
    ghost files: { Self → Option (List ℕ → Option (List ℕ)) };

    // whether the files at two paths are one, if the shelf knows its files
    ghost same: { Self → Option (List ℕ → List ℕ → Bool) };

    /// Whether the files at two paths are one.
    fn is_same(&self, path: &[u8], other: &[u8]) -> bool
        ensures { IsSame (same self.now) path.now other.now result };

    /// The bytes at a path; `None` if none can be read.
    fn bytes_at(&self, path: &[u8]) -> Result<Option<Vec<u8>>, AllocError>
        ensures { IfOk result
            (λ bytes. Stands (files self.now) path.now (option_map (λ b. b.items) bytes)) };
}

/// The numbers of the device and the node of the file at a path; `None` if there is none.
fn place_of<R: Files>(rt: &R, path: &[u8]) -> Option<(u64, u64)> {
    let Ok(path) = str::from_utf8(path) else {
        return None;
    };
    match fs::metadata(rt, path) {
        Ok(metadata) => Some((metadata.dev(), metadata.ino())),
        Err(_) => None,
    }
}

/// The files of the system, whose bytes are not known.
#[derive(Drop)]
pub struct Disk<'a, R: Files + AllocGlobal> {
    rt: &'a R,
}

impl<'a, R: Files + AllocGlobal> Disk<'a, R> {
    /// The files of the system.
    pub fn new(rt: &'a R) -> Self {
        Disk { rt }
    }
}

impl<R: Files + AllocGlobal> Shelf for Disk<'_, R> {
    ghost files = { λ _. None };

    ghost same = { λ _. None };

    fn is_same(&self, path: &[u8], other: &[u8]) -> bool {
        match (place_of(self.rt, path), place_of(self.rt, other)) {
            (Some(one), Some(another)) => one == another,
            _ => path == other,
        }
    }

    fn bytes_at(&self, path: &[u8]) -> Result<Option<Vec<u8>>, AllocError> {
        let Ok(path) = str::from_utf8(path) else {
            return Ok(None);
        };
        match read_file(self.rt, path) {
            Ok(bytes) => Ok(Some(bytes)),
            Err(Stop::Memory) => Err(AllocError),
            Err(_) => Ok(None),
        }
    }
}

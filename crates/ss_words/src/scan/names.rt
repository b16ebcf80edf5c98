//! The names of a text, each of which is kept once.
ghost use Rattle.std.specs.Prelude.{◌≡◌, IfOk};

use crate::name::Name;
use std::alloc::{AllocError, Global};
use std::collections::BTreeMap;

/// The names that were met so far, by their bytes.
#[derive(Drop)]
pub struct Names {
    alloc: Global,
    met: BTreeMap<Vec<u8>, Name>,
}

impl Names {
    pub fn new(alloc: Global) -> Self {
        Names {
            alloc,
            met: BTreeMap::new(alloc),
        }
    }

    /// The name of these bytes: a copy of the one that was met, or a new one.
    pub fn name(&mut self, bytes: Vec<u8>) -> Result<Name, AllocError>
        ensures { IfOk result (λ name. name ≡ bytes.items) }
    {
        if let Some(name) = self.met.get(bytes.as_slice()) {
            if name.bytes() == bytes.as_slice() {
                return name.share();
            }
        }
        let key = bytes.to_vec(self.alloc)?;
        let name = Name::new(self.alloc, bytes)?;
        self.met.insert(key, name.share()?)?;
        Ok(name)
    }
}

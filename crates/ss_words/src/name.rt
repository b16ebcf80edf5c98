//! Names in upper case, for all parts of the program: a copy takes no new block of bytes.
ghost use Rattle.std.specs.Prelude.{◌≡◌, IfOk};

use std::alloc::{AllocError, Global};
use std::fmt;
use std::marker::Model;
use std::rc::Rc;

/// A name, in upper case. Its copies share one block of bytes. Contracts see its bytes.
#[derive(Drop)]
pub struct Name {
    bytes: Rc<Vec<u8>>,
}

impl Model for Name {
    ghost use Rattle.std.specs.Prelude.{List, ℕ};

    ghost Value = { List ℕ };

    ghost view = { λ a. a.bytes.value.items };
}

impl Name {
    /// A name of these bytes. The only error is that memory was refused.
    pub fn new(alloc: Global, bytes: Vec<u8>) -> Result<Self, AllocError>
        ensures { IfOk result (λ name. name ≡ bytes.items) }
    {
        Ok(Name {
            bytes: Rc::new(alloc, bytes)?,
        })
    }

    pub fn bytes(&self) -> &[u8]
        ensures { result.now ≡ self.now }
    {
        self.bytes.as_slice()
    }

    /// A further copy, which shares the bytes. The only error is that there are as many copies as
    /// can be counted.
    pub fn share(&self) -> Result<Self, AllocError>
        ensures { IfOk result (λ name. name ≡ self.now) }
    {
        Ok(Name {
            bytes: self.bytes.clone()?,
        })
    }
}

/// The list of its bytes.
impl fmt::Debug for Name {
    fn fmt<W: fmt::Write>(&self, f: &mut fmt::Formatter<W>) -> fmt::Result {
        fmt::Debug::fmt(self.bytes(), f)
    }
}

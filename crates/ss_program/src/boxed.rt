//! Keeps a large or recursive part of a place in a block of its own, so that places stay small.
ghost use Rattle.std.specs.Prelude.{◌≡◌, IfOk};

use std::alloc::{AllocError, Global};
use std::marker::Model;

/// A value in a block of its own, so that its holder is small. Contracts see the value.
#[derive(Drop)]
pub struct Boxed<T> {
    block: Box<T>,
}

impl<T> Model for Boxed<T> {
    ghost Value = { T };

    ghost coded = { T.code };

    ghost view = { λ b. b.block.value };
}

impl<T> Boxed<T> {
    /// The value.
    pub fn value(&self) -> &T
        ensures { result.now ≡ self.now }
    {
        &self.block
    }
}

impl<T: Drop> Boxed<T> {
    /// A value in a block of its own.
    pub fn new(alloc: Global, value: T) -> Result<Self, AllocError>
        ensures { IfOk result (λ b. b ≡ value) }
    {
        Ok(Boxed {
            block: Box::new(alloc, value)?,
        })
    }
}

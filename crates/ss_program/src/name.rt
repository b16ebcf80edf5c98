//! The bytes of one name, as every table of a program holds them.
use std::marker::Model;

/// A name, in upper case. Contracts see its bytes.
#[derive(Drop)]
pub struct Name {
    pub bytes: Vec<u8>,
}

impl Model for Name {
    ghost use Rattle.std.specs.Prelude.{List, ℕ};

    ghost Value = { List ℕ };

    ghost view = { λ a. a.bytes.items };
}

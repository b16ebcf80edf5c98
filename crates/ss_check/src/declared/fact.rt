//! The pair of a name and one fact about it, of which tables are made.

use ss_program::Name;
use std::marker::Model;

/// A name, and the fact about it.
#[derive(Drop)]
pub struct Fact<T> {
    pub name: Name,
    pub what: T,
}

impl<T> Model for Fact<T> {
    ghost use Rattle.ss_check.specs.Facts.{Fact as FactData};

    ghost Value = { FactData T };

    ghost view = { λ a. record { name = a.name; what = a.what } };
}

//! The rows and attribute values of all entities, by class and number, which a store keeps.

ghost use Rattle.std.specs.Prelude.{◌≡◌, ◌<◌, ◌-◌, IfOk, OnErr, None, Some, true, length, replicate, slice_get};
ghost use Rattle.ss_store.specs.Rows.{no_rows, rows_in};
ghost use Rattle.std.specs.Prelude.{ℤ, List, pos, slice_index_or, slice_set};
ghost use Rattle.std.specs.Option.{option_map};
ghost use Rattle.ss_store.specs.Making.{with_row, without_last_row, with_table, numbering_by};
ghost use Rattle.ss_store.specs.Writing.{with_values};

use std::alloc::{AllocError, Global};
use std::marker::Model;

/// The place of an entity on the board: its class, and the first of its heads and of its seats.
#[derive(Clone, Copy)]
pub struct Row {
    pub class: usize,
    pub head: u32,
    pub seat: u32,
}

/// Entities 1, 2, .. of one numbering: the row of each, and the values of its attributes, none
/// if it has ended.
#[derive(Drop)]
pub(crate) struct Rows {
    pub(crate) rows: Vec<Row>,
    pub(crate) values: Vec<Option<Vec<i64>>>,
}

impl Model for Rows {
    ghost use Rattle.std.specs.Prelude.{map};
    ghost use Rattle.std.specs.Option.{option_map};
    ghost use Rattle.ss_store.specs.Rows.{RowTable};

    ghost Value = { RowTable };

    ghost view = { λ a. record {
      rows = a.rows.items;
      values = map (λ o. option_map (λ v. v.items) o) a.values.items;
    } };
}

/// All entities: those of each permanent class, and those with references.
#[derive(Drop)]
pub(crate) struct Entities {
    pub(crate) made: Vec<Rows>,
    pub(crate) references: Rows,
}

impl Model for Entities {
    ghost use Rattle.ss_store.specs.Rows.{EntityTable};

    ghost Value = { EntityTable };

    ghost view = { λ a. record { made = a.made.items; references = a.references } };
}

impl Rows {
    /// No entities. It takes no memory.
    pub(crate) fn new(alloc: Global) -> Self
        ensures { result ≡ no_rows }
    {
        Rows {
            rows: Vec::new(alloc),
            values: Vec::new(alloc),
        }
    }
}

impl Rows {
    /// Adds a row with the values of its attributes.
    fn push(&mut self, row: Row, values: Vec<i64>) -> Result<(), AllocError>
        ensures ok { IfOk result (λ _. self.new ≡ with_row row values.items self.old) }
        ensures err { OnErr result (self.new ≡ self.old) }
    {
        self.rows.try_reserve(1)?;
        self.values.push(Some(values))?;
        self.rows.push_reserved(row);
        Ok(())
    }

    /// Takes the last row off.
    fn pop(&mut self) -> Row
        requires any { 0 < length self.old.rows }
        ensures row { slice_get self.old.rows (length self.old.rows - 1) ≡ Some result }
        ensures rows { self.new ≡ without_last_row self.old }
    {
        let last = self.rows.len() - 1;
        let row = self.rows[last];
        self.rows.truncate(last);
        self.values.truncate(last);
        row
    }

    /// Takes the values of an entity's attributes out, if there are some.
    fn take_values(&mut self, index: usize) -> Option<Vec<i64>>
        requires { index < length self.old.values }
        ensures value { slice_get self.old.values index ≡ Some (option_map (λ v. v.items) result) }
        ensures rows { self.new ≡ with_values index None self.old }
    {
        self.values[index].take()
    }

    /// Puts the values of an entity's attributes in.
    fn put_values(&mut self, index: usize, values: Vec<i64>)
        requires { index < length self.old.values }
        ensures { self.new ≡ with_values index (Some values.items) self.old }
    {
        self.values[index] = Some(values);
    }
}

/// No entities of `classes` classes.
fn class_rows(alloc: Global, classes: usize) -> Result<Vec<Rows>, AllocError>
    ensures { IfOk result (λ made. made.items ≡ replicate classes no_rows) }
{
    let mut made = Vec::new(alloc);
    for _ in 0..classes {
        made.push(Rows::new(alloc))?;
    }
    Ok(made)
}

impl Entities {
    /// No entities of `classes` classes.
    pub(crate) fn new(alloc: Global, classes: usize) -> Result<Self, AllocError>
        ensures { IfOk result
            (λ none. none ≡ record { made = replicate classes no_rows; references = no_rows }) }
    {
        let made = class_rows(alloc, classes)?;
        Ok(Entities {
            made,
            references: Rows::new(alloc),
        })
    }

    /// How many entities a numbering has, including those that have ended.
    pub(crate) fn count(&self, permanent: bool, class: usize) -> usize
        requires { permanent ≡ true → class < length self.now.made }
        ensures { result ≡ length (rows_in self.now (numbering_by permanent class)).rows }
    {
        if permanent {
            let rows = &self.made[class];
            rows.rows.len()
        } else {
            let rows = &self.references;
            rows.rows.len()
        }
    }

    /// Adds an entity to its numbering.
    pub(crate) fn push(
        &mut self,
        permanent: bool,
        row: Row,
        values: Vec<i64>,
    ) -> Result<(), AllocError>
        requires { permanent ≡ true → row.class < length self.old.made }
        ensures ok { IfOk result (λ _. self.new
            ≡ with_table (with_row row values.items) self.old (numbering_by permanent row.class)) }
        ensures err { OnErr result (self.new ≡ self.old) }
    {
        if permanent {
            let rows = &mut self.made[row.class];
            rows.push(row, values)
        } else {
            self.references.push(row, values)
        }
    }

    /// Takes the last entity of a numbering off.
    pub(crate) fn pop(&mut self, permanent: bool, class: usize) -> Row
        requires there { permanent ≡ true → class < length self.old.made }
        requires any { 0 < length (rows_in self.old (numbering_by permanent class)).rows }
        ensures row { slice_get (rows_in self.old (numbering_by permanent class)).rows
            (length (rows_in self.old (numbering_by permanent class)).rows - 1) ≡ Some result }
        ensures rows { self.new
            ≡ with_table without_last_row self.old (numbering_by permanent class) }
    {
        if permanent {
            let rows = &mut self.made[class];
            rows.pop()
        } else {
            self.references.pop()
        }
    }

    /// Takes the values of an entity's attributes out, if there are some.
    pub(crate) fn take_values(
        &mut self,
        permanent: bool,
        class: usize,
        index: usize,
    ) -> Option<Vec<i64>>
        requires there { permanent ≡ true → class < length self.old.made }
        requires index { index < length (rows_in self.old (numbering_by permanent class)).values }
        ensures value { slice_get (rows_in self.old (numbering_by permanent class)).values index
            ≡ Some (option_map (λ v. v.items) result) }
        ensures rows { self.new
            ≡ with_table (with_values index None) self.old (numbering_by permanent class) }
    {
        if permanent {
            let rows = &mut self.made[class];
            rows.take_values(index)
        } else {
            self.references.take_values(index)
        }
    }

    /// Puts the values of an entity's attributes in.
    pub(crate) fn put_values(
        &mut self,
        permanent: bool,
        class: usize,
        index: usize,
        values: Vec<i64>,
    )
        requires there { permanent ≡ true → class < length self.old.made }
        requires index { index < length (rows_in self.old (numbering_by permanent class)).values }
        ensures { self.new
            ≡ with_table (with_values index (Some values.items)) self.old
            (numbering_by permanent class) }
    {
        if permanent {
            let rows = &mut self.made[class];
            rows.put_values(index, values);
        } else {
            self.references.put_values(index, values);
        }
    }
}

//! A list of rows that grows at its end.

use std::alloc::{AllocError, Global};
use std::marker::Model;

/// A list that grows at its end, seen as the list of its rows.
#[derive(Debug, Drop)]
pub struct RowList<T> {
    rows: Vec<T>,
}

impl<T> Model for RowList<T> {
    ghost use Rattle.std.specs.Prelude.{List};

    ghost Value = { List T };

    ghost view = { λ r. r.rows.items };
}

impl<T: Drop> RowList<T> {
    ghost use Rattle.std.specs.Prelude.{◌≡◌, ◌++◌, ◌∷◌, [], OnOk, OnErr};

    /// The empty list.
    pub fn new(alloc: Global) -> RowList<T>
        ensures { result ≡ [] }
    {
        RowList {
            rows: Vec::new(alloc),
        }
    }

    /// Appends, or changes nothing.
    pub fn push(&mut self, row: T) -> Result<(), AllocError>
        ensures ok { OnOk result (self.new ≡ self.old ++ row ∷ []) }
        ensures err { OnErr result (self.new ≡ self.old) }
    {
        self.rows.push(row)?;
        Ok(())
    }

    /// What it holds, in order.
    pub fn as_slice(&self) -> &[T]
        ensures { result.now ≡ self.now }
    {
        &self.rows
    }
}

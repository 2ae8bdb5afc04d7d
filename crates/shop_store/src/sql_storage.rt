//! A storage in SQL tables.

ghost use Rattle.std.specs.Prelude.{◌≡◌, false};

use crate::remembered::Remembered;
use sqlite::{Alter, Connection};
use std::alloc::Global;

/// A storage over any store of `sqlite`.
#[derive(Drop)]
pub struct SqlStorage<S: Alter> {
    pub(crate) alloc: Global,
    pub(crate) conn: Connection<S>,
    pub(crate) remembered: Remembered,
    ghost outside: { conn.in_transaction ≡ false },
}

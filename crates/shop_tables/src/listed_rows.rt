//! Rows of a query, each of which shows a value whole.

ghost use Rattle.std.specs.Prelude.{◌≡◌, pos, IfOk};
ghost use Rattle.sqlite_value.specs.Order.{Row as Values};
ghost use Rattle.shop_statements.specs.Found.{columns_of};

use shop_records::{Demand, Material};
use shop_statements::{TableFault, code_in, number_in, read_demand, read_material};
use sqlite::Row;

/// What a row shows whole.
pub(crate) trait Listed: Copy + Drop {
    ghost use Rattle.std.specs.Prelude.{ℕ};

    /// The row of a value.
    ghost row_of: { Self → Values };

    /// How many columns it has.
    ghost width: { ℕ };

    /// The value of a row.
    fn read(row: &Row) -> Result<Self, TableFault>
        ensures value { (value : Self) → row.now ≡ row_of value
            → IfOk result (λ read. read ≡ value) }
        ensures exact { IfOk result (λ read. columns_of width 0 row.now ≡ row_of read) };
}

impl Listed for Material {
    ghost use Rattle.shop_tables.specs.ListedRows.{listed_material};

    ghost row_of = { listed_material };

    ghost width = { 5 };

    fn read(row: &Row) -> Result<Material, TableFault> {
        let code = code_in(row, 4)?;
        read_material(code, row)
    }
}

impl Listed for Demand {
    ghost use Rattle.shop_tables.specs.ListedRows.{listed_demand};

    ghost row_of = { listed_demand };

    ghost width = { 11 };

    fn read(row: &Row) -> Result<Demand, TableFault> {
        let number = number_in(row, 10)?;
        read_demand(number, row)
    }
}

/// How many rows are asked for at most, as a statement has it.
#[derive(Clone, Copy)]
pub(crate) struct Limit {
    pub rows: i64,
}

/// At most so many, below 9223372036854775808.
pub(crate) fn at_most(most: usize) -> Result<Limit, TableFault>
    ensures { IfOk result (λ limit. limit.rows ≡ pos most) }
{
    match i64::try_from(most) {
        Ok(rows) => Ok(Limit { rows }),
        Err(_) => Err(TableFault::Store),
    }
}

/// A number, below 9223372036854775808.
pub(crate) fn up_to(number: u64) -> Result<Limit, TableFault>
    ensures { IfOk result (λ limit. limit.rows ≡ pos number) }
{
    match i64::try_from(number) {
        Ok(rows) => Ok(Limit { rows }),
        Err(_) => Err(TableFault::Store),
    }
}

//! The rows of a query, and the row of one that gives one at most. No query takes a transaction of its own: a SELECT commits nothing.

ghost use Rattle.std.specs.Prelude.{◌≡◌, true, false, pos, [], ◌∷◌, IfOk};
ghost use Rattle.sqlite.specs.State.{HasCleanDisk, Shown};
ghost use Rattle.sqlite.specs.Held.{state};
ghost use Rattle.sqlite.specs.Values.{bound};
ghost use Rattle.sqlite_value.specs.declared.value.Value.TheVariants.{Int, Text as Word};
ghost use Rattle.shop_statements.specs.Selecting.{is_select};
ghost use Rattle.shop_statements.specs.Shown.{Leaves, GivesRow};

use crate::TableFault;
use crate::columns::counted;
use sqlite::types::ValueRef;
use sqlite::{Alter, Connection, Error, Row, params};

/// All rows of a query.
pub fn all_rows<S: Alter>(
    conn: &mut Connection<S>,
    sql: &str,
    params: &[ValueRef<'_>],
) -> Result<Vec<Row>, Error>
    ensures rows { HasCleanDisk (state S.Store conn.new)
        → IfOk result (λ rows. Shown sql.now (bound params.now) (state S.Store conn.old)
        (state S.Store conn.new) rows.items) }
    ensures leaves { is_select sql.now ≡ true
        → Leaves (state S.Store conn.old) (state S.Store conn.new) }
    ensures mode { conn.old.in_transaction ≡ false → conn.new.in_transaction ≡ false }
{
    let rows = conn.query_all(sql, params)?;
    Ok(rows)
}

fn one_row<S: Alter>(
    conn: &mut Connection<S>,
    sql: &str,
    params: &[ValueRef<'_>],
) -> Result<Option<Row>, Error>
    ensures row { HasCleanDisk (state S.Store conn.new)
        → IfOk result (GivesRow sql.now (bound params.now) (state S.Store conn.old)
        (state S.Store conn.new)) }
    ensures leaves { is_select sql.now ≡ true
        → Leaves (state S.Store conn.old) (state S.Store conn.new) }
    ensures mode { conn.old.in_transaction ≡ false → conn.new.in_transaction ≡ false }
{
    let mut rows = all_rows(conn, sql, params)?;
    Ok(rows.pop())
}

/// By a text.
pub(crate) fn row_by_text<S: Alter>(
    conn: &mut Connection<S>,
    sql: &str,
    text: &str,
) -> Result<Option<Row>, Error>
    ensures row { HasCleanDisk (state S.Store conn.new)
        → IfOk result (GivesRow sql.now (Word text.now ∷ []) (state S.Store conn.old)
        (state S.Store conn.new)) }
    ensures leaves { is_select sql.now ≡ true
        → Leaves (state S.Store conn.old) (state S.Store conn.new) }
    ensures mode { conn.old.in_transaction ≡ false → conn.new.in_transaction ≡ false }
{
    one_row(conn, sql, params![text])
}

/// The row of a query by a number.
pub fn row_by_number<S: Alter>(
    conn: &mut Connection<S>,
    sql: &str,
    number: u32,
) -> Result<Option<Row>, Error>
    ensures row { HasCleanDisk (state S.Store conn.new)
        → IfOk result (GivesRow sql.now (Int (pos number) ∷ []) (state S.Store conn.old)
        (state S.Store conn.new)) }
    ensures leaves { is_select sql.now ≡ true
        → Leaves (state S.Store conn.old) (state S.Store conn.new) }
    ensures mode { conn.old.in_transaction ≡ false → conn.new.in_transaction ≡ false }
{
    one_row(conn, sql, params![number])
}

/// By two numbers.
pub(crate) fn row_by_two<S: Alter>(
    conn: &mut Connection<S>,
    sql: &str,
    one: u32,
    other: u32,
) -> Result<Option<Row>, Error>
    ensures row { HasCleanDisk (state S.Store conn.new)
        → IfOk result (GivesRow sql.now (Int (pos one) ∷ Int (pos other) ∷ [])
        (state S.Store conn.old) (state S.Store conn.new)) }
    ensures leaves { is_select sql.now ≡ true
        → Leaves (state S.Store conn.old) (state S.Store conn.new) }
    ensures mode { conn.old.in_transaction ≡ false → conn.new.in_transaction ≡ false }
{
    one_row(conn, sql, params![one, other])
}

// A count as a statement has it.
#[derive(Clone, Copy)]
struct Count {
    number: i64,
}

fn count_of(count: u64) -> Result<Count, TableFault>
    ensures { IfOk result (λ bound. bound.number ≡ pos count) }
{
    Ok(Count {
        number: counted(count)?,
    })
}

/// By a number below 9223372036854775808.
pub(crate) fn row_by_count<S: Alter>(
    conn: &mut Connection<S>,
    sql: &str,
    count: u64,
) -> Result<Option<Row>, TableFault>
    ensures row { HasCleanDisk (state S.Store conn.new)
        → IfOk result (GivesRow sql.now (Int (pos count) ∷ []) (state S.Store conn.old)
        (state S.Store conn.new)) }
    ensures leaves { is_select sql.now ≡ true
        → Leaves (state S.Store conn.old) (state S.Store conn.new) }
    ensures mode { conn.old.in_transaction ≡ false → conn.new.in_transaction ≡ false }
{
    let bound = count_of(count)?;
    let row = one_row(conn, sql, params![&bound.number])?;
    Ok(row)
}

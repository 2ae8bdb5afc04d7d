//! The orders of which jobs' plans have a piece, as the table `uses` lists them.

ghost use Rattle.std.specs.Prelude.{◌≡◌, false};
ghost use Rattle.sqlite.specs.Held.{state};
ghost use Rattle.shop_statements.specs.Shown.{Leaves};

use crate::stories::MAX_STEPS;
use cut_measure::Code;
use shop_book::{Ledger, ListedUse, StrayUse};
use shop_records::RowList;
use shop_rows::push_copy;
use shop_statements::{all_rows, code_in};
use shop_tables::TableFault;
use sqlite::{Alter, Connection, Row, params};
use std::alloc::{AllocError, Global};

// Rows of the table, by rising job and code.
type UseList = RowList<ListedUse>;

// How many rows the query gives at most.
const ROWS_AT_ONCE: usize = 1000;

// The first rows of jobs from a number on, by rising job and code.
fn rows_from<S: Alter>(conn: &mut Connection<S>, from: i64) -> Result<Vec<Row>, TableFault>
    ensures leaves { Leaves (state S.Store conn.old) (state S.Store conn.new) }
    ensures mode { conn.old.in_transaction ≡ false → conn.new.in_transaction ≡ false }
{
    let rows = all_rows(
        conn,
        "SELECT job, ord FROM uses WHERE job >= ?1 ORDER BY job, ord LIMIT 1000",
        params![&from],
    )?;
    Ok(rows)
}

// The number of a job in a row.
fn job_in(row: &Row) -> i64 {
    row.get(0).unwrap_or(0)
}

// The order of a job in a row.
fn use_in(row: &Row) -> ListedUse {
    ListedUse {
        job: job_in(row),
        order: code_in(row, 1).ok(),
    }
}

// Appends a row.
fn push_use(uses: &mut UseList, row: &Row) -> Result<(), AllocError> {
    let listed = use_in(row);
    push_copy(uses, &listed)
}

// Appends the rows whose job is below a number.
fn push_below(uses: &mut UseList, rows: &[Row], job: i64) -> Result<(), AllocError> {
    for row in rows {
        if job_in(row) < job {
            push_use(uses, row)?;
        }
    }
    Ok(())
}

// Appends rows.
fn push_all(uses: &mut UseList, rows: &[Row]) -> Result<(), AllocError> {
    for row in rows {
        push_use(uses, row)?;
    }
    Ok(())
}

// Appends those of the next rows of whose jobs no more follow, and reports from which job the others begin, if there are any. Of a
// job with more rows than any plan has orders some are left out.
fn push_rows(uses: &mut UseList, rows: &[Row], from: i64) -> Result<Option<i64>, AllocError> {
    let last = match rows.last() {
        Some(row) => job_in(row),
        None => return Ok(None),
    };
    if rows.len() < ROWS_AT_ONCE {
        push_all(uses, rows)?;
        return Ok(None);
    }
    if from < last {
        push_below(uses, rows, last)?;
        return Ok(Some(last));
    }
    push_all(uses, rows)?;
    Ok(last.checked_add(1))
}

// Appends the next rows from a job on.
fn step<S: Alter>(
    conn: &mut Connection<S>,
    from: i64,
    uses: &mut UseList,
) -> Result<Option<i64>, TableFault>
    ensures leaves { Leaves (state S.Store conn.old) (state S.Store conn.new) }
    ensures mode { conn.old.in_transaction ≡ false → conn.new.in_transaction ≡ false }
{
    let rows = rows_from(conn, from)?;
    let next = push_rows(uses, &rows, from)?;
    Ok(next)
}

// All rows, by rising job and code.
fn list_uses<S: Alter>(alloc: Global, conn: &mut Connection<S>) -> Result<UseList, TableFault>
    ensures leaves { Leaves (state S.Store conn.old) (state S.Store conn.new) }
    ensures mode { conn.old.in_transaction ≡ false → conn.new.in_transaction ≡ false }
{
    let mut uses = UseList::new(alloc);
    let mut from = i64::MIN;
    'steps: for _ in 0..MAX_STEPS {
        match step(conn, from, &mut uses)? {
            Some(next) => from = next,
            None => return Ok(uses),
        }
    }
    Err(TableFault::NoMemory)
}

/// Where the table first differs from the plans of the jobs in a ledger.
pub(crate) fn find_stray_use<S: Alter>(
    alloc: Global,
    conn: &mut Connection<S>,
    ledger: &Ledger,
) -> Result<Option<StrayUse>, TableFault>
    ensures leaves { Leaves (state S.Store conn.old) (state S.Store conn.new) }
    ensures mode { conn.old.in_transaction ≡ false → conn.new.in_transaction ≡ false }
{
    let uses = list_uses(alloc, conn)?;
    let found = ledger.stray_use(alloc, uses.as_slice())?;
    Ok(found)
}

//! The table of where the work on broken jobs halted, each under its job's number: read and put.

ghost use Rattle.std.specs.Prelude.{◌≡◌, [], ◌∷◌, pos, false, IfOk, None, OnOk, option_map};
ghost use Rattle.sqlite.specs.Held.{state};
ghost use Rattle.sqlite.specs.State.{HasCleanDisk};
ghost use Rattle.sqlite_value.specs.declared.value.Value.TheVariants.{Int};
ghost use Rattle.shop_records.specs.Content.{halt_at};
ghost use Rattle.shop_statements.specs.Beside.{Spares};
ghost use Rattle.shop_statements.specs.Changes.{with_halt};
ghost use Rattle.shop_statements.specs.Found.{IsUnder};
ghost use Rattle.shop_statements.specs.Halts.{IsOwnHalt};
ghost use Rattle.shop_statements.specs.Layout.{HasShopTables, halts_table};
ghost use Rattle.shop_statements.specs.Rows.{halt_columns};
ghost use Rattle.shop_statements.specs.Shown.{Books, IsRowOf, Leaves, Makes, OnBooks, Ran, Within};

use crate::TableFault;
use crate::columns::text_in;
use crate::halt_texts::{read_halt, see_halt, text_of_halt};
use crate::rows::row_by_number;
use crate::running::run;
use shop_records::JobHalt;
use sqlite::{Alter, Connection, Error, Row, Transaction, params};
use std::alloc::Global;

fn halt_row<S: Alter>(conn: &mut Connection<S>, job: u32) -> Result<Option<Row>, Error>
    ensures row { OnBooks (state S.Store conn.old) (state S.Store conn.new)
        (λ books. IfOk result (IsRowOf
        (IsOwnHalt job) halt_columns (halt_at books.content job))) }
    ensures stands { HasCleanDisk (state S.Store conn.new) → HasShopTables conn.old.schema
        → IfOk result (λ found. IsUnder ((state S.Store conn.old).now.trees 25) 0
        (Int (pos job) ∷ []) 1 2 found) }
    ensures leaves { Leaves (state S.Store conn.old) (state S.Store conn.new) }
    ensures mode { conn.old.in_transaction ≡ false → conn.new.in_transaction ≡ false }
{
    row_by_number(conn, "SELECT body FROM halts WHERE job = ?1", job)
}

/// Where the work on a broken job halted.
pub fn find_halt<S: Alter>(
    alloc: Global,
    conn: &mut Connection<S>,
    job: u32,
) -> Result<Option<JobHalt>, TableFault>
    ensures row { OnBooks (state S.Store conn.old) (state S.Store conn.new)
        (λ books. IfOk result (λ row. row ≡ halt_at books.content job)) }
    ensures stands { HasCleanDisk (state S.Store conn.new) → HasShopTables conn.old.schema
        → IfOk result (λ found. IsUnder ((state S.Store conn.old).now.trees 25) 0
        (Int (pos job) ∷ []) 1 2 (option_map halt_columns found)) }
    ensures leaves { Leaves (state S.Store conn.old) (state S.Store conn.new) }
    ensures mode { conn.old.in_transaction ≡ false → conn.new.in_transaction ≡ false }
{
    let Some(row) = halt_row(conn, job)? else {
        return Ok(None);
    };
    let text = text_in(&row, 0)?;
    let halt = read_halt(alloc, job, text.as_str())?;
    Ok(Some(halt))
}

/// Puts where the work on a job halted, of which that isn't kept yet.
pub fn put_halt<S: Alter>(
    alloc: Global,
    tx: &mut Transaction<'_, S>,
    row: &JobHalt,
) -> Result<(), TableFault>
    ensures same_reference { tx.new.conn.ghost_name ≡ tx.old.conn.ghost_name }
    ensures ran { OnOk result
        (Ran (state S.Store tx.old.conn.now) (state S.Store tx.new.conn.now)) }
    ensures put { (b : Books) → halt_at b.content row.now.job ≡ None
        → OnOk result (Makes (state S.Store tx.old.conn.now) (state S.Store tx.new.conn.now) b
        (with_halt row.now b)) }
    ensures others { OnOk result (Spares (halts_table.tree ∷ [])
        (state S.Store tx.old.conn.now) (state S.Store tx.new.conn.now)) }
    ensures within { Within (state S.Store tx.old.conn.now) (state S.Store tx.new.conn.now) }
{
    let text = text_of_halt(alloc, row)?;
    see_halt(row);
    run(
        tx,
        "INSERT INTO halts (job, body) VALUES (?1, ?2)",
        params![row.job, &text],
    )
}

//! The table of the terminals that have begun jobs, each under its job's number: read and put.

ghost use Rattle.std.specs.Prelude.{◌≡◌, ◌++◌, [], ◌∷◌, IfOk, None, OnOk};
ghost use Rattle.sqlite.specs.Held.{state};
ghost use Rattle.sqlite_value.specs.Order.{Row as Values};
ghost use Rattle.shop_records.specs.Content.{begun_at};
ghost use Rattle.shop_records.specs.declared.records.JobBegin.{JobBegin as BeginRecord};
ghost use Rattle.shop_statements.specs.Beside.{Spares};
ghost use Rattle.shop_statements.specs.Changes.{with_begun, without_begun};
ghost use Rattle.shop_statements.specs.Found.{columns_of};
ghost use Rattle.shop_statements.specs.Layout.{begun_table};
ghost use Rattle.shop_statements.specs.Rows.{begun_columns};
ghost use Rattle.shop_statements.specs.Shown.{Books, Makes, Ran, Within};

use crate::TableFault;
use crate::columns::number_in;
use crate::running::run;
use shop_records::JobBegin;
use sqlite::{Alter, Row, Transaction, params};

/// The terminal that has begun the job of a number, of its columns; the columns after them don't matter.
pub fn read_begun(job: u32, row: &Row) -> Result<JobBegin, TableFault>
    ensures key { IfOk result (λ read. read.job ≡ job) }
    ensures row { (begun : BeginRecord) (after : Values) → begun.job ≡ job
        → row.now ≡ begun_columns begun ++ after → IfOk result (λ read. read ≡ begun) }
    ensures exact { IfOk result (λ read. columns_of 1 0 row.now ≡ begun_columns read) }
{
    Ok(JobBegin {
        job,
        terminal: number_in(row, 0)?,
    })
}

// Takes out which terminal has begun a job, where one has.
fn clear_begun<S: Alter>(tx: &mut Transaction<'_, S>, job: u32) -> Result<(), TableFault>
    ensures same_reference { tx.new.conn.ghost_name ≡ tx.old.conn.ghost_name }
    ensures ran { OnOk result
        (Ran (state S.Store tx.old.conn.now) (state S.Store tx.new.conn.now)) }
    ensures put { (b : Books)
        → OnOk result (Makes (state S.Store tx.old.conn.now) (state S.Store tx.new.conn.now) b
        (without_begun job b)) }
    ensures others { OnOk result (Spares (begun_table.tree ∷ [])
        (state S.Store tx.old.conn.now) (state S.Store tx.new.conn.now)) }
    ensures within { Within (state S.Store tx.old.conn.now) (state S.Store tx.new.conn.now) }
{
    run(tx, "DELETE FROM begun WHERE job = ?1", params![job])
}

// Puts the terminal that has begun a job that none has begun.
fn add_begun<S: Alter>(tx: &mut Transaction<'_, S>, begun: &JobBegin) -> Result<(), TableFault>
    ensures same_reference { tx.new.conn.ghost_name ≡ tx.old.conn.ghost_name }
    ensures ran { OnOk result
        (Ran (state S.Store tx.old.conn.now) (state S.Store tx.new.conn.now)) }
    ensures put { (b : Books) → begun_at b.content begun.now.job ≡ None
        → OnOk result (Makes (state S.Store tx.old.conn.now) (state S.Store tx.new.conn.now) b
        (with_begun begun.now b)) }
    ensures others { OnOk result (Spares (begun_table.tree ∷ [])
        (state S.Store tx.old.conn.now) (state S.Store tx.new.conn.now)) }
    ensures within { Within (state S.Store tx.old.conn.now) (state S.Store tx.new.conn.now) }
{
    run(
        tx,
        "INSERT INTO begun (job, terminal) VALUES (?1, ?2)",
        params![begun.job, begun.terminal],
    )
}

/// Puts the terminal that has begun a job, in place of the one that is there.
#[tactic(auto, using(crate::proofs::Steps::within_then))]
pub fn put_begun<S: Alter>(tx: &mut Transaction<'_, S>, begun: &JobBegin) -> Result<(), TableFault>
    ensures same_reference { tx.new.conn.ghost_name ≡ tx.old.conn.ghost_name }
    ensures ran { OnOk result
        (Ran (state S.Store tx.old.conn.now) (state S.Store tx.new.conn.now)) }
    ensures put { (b : Books)
        → OnOk result (Makes (state S.Store tx.old.conn.now) (state S.Store tx.new.conn.now) b
        (with_begun begun.now b)) }
    ensures others { OnOk result (Spares (begun_table.tree ∷ [])
        (state S.Store tx.old.conn.now) (state S.Store tx.new.conn.now)) }
    ensures within { Within (state S.Store tx.old.conn.now) (state S.Store tx.new.conn.now) }
{
    clear_begun(tx, begun.job)?;
    add_begun(tx, begun)
}

//! The table of totals: a material's cells, read, put and set.

ghost use Rattle.std.specs.Prelude.{◌≡◌, ◌++◌, IfOk};
ghost use Rattle.std.specs.FinMap.{get};
ghost use Rattle.sqlite.specs.Held.{state};
ghost use Rattle.sqlite_value.specs.Order.{Row as Values};
ghost use Rattle.shop_records.specs.declared.records.Totals.{Totals as TotalsRecord};
ghost use Rattle.shop_statements.specs.Beside.{Spares};
ghost use Rattle.shop_statements.specs.Rows.{totals_columns, totals_row};
ghost use Rattle.std.specs.Prelude.{pos, Some, None, OnOk};
ghost use Rattle.shop_statements.specs.Changes.{with_totals};
ghost use Rattle.shop_statements.specs.Shown.{Books, HasExecuted, Makes, Ran, Within};
ghost use Rattle.shop_statements.specs.Found.{columns_of};
ghost use Rattle.shop_statements.specs.Layout.{totals2_table};
ghost use Rattle.std.specs.Prelude.{[], ◌∷◌};

use crate::TableFault;
use crate::columns::{count_in, counted};
use crate::running::run;
use cut_measure::Code;
use shop_records::Totals;
use sqlite::{Alter, Row, Transaction, params};

/// The totals, of their columns; the columns after them don't matter.
pub fn read_totals(row: &Row) -> Result<Totals, TableFault>
    ensures row { (totals : TotalsRecord) (after : Values)
        → row.now ≡ totals_columns totals ++ after → IfOk result (λ read. read ≡ totals) }
    ensures exact { IfOk result (λ read. columns_of 7 0 row.now ≡ totals_columns read) }
{
    Ok(Totals {
        received: count_in(row, 0)?,
        stock: count_in(row, 1)?,
        rack: count_in(row, 2)?,
        pieces: count_in(row, 3)?,
        kerf: count_in(row, 4)?,
        scrap: count_in(row, 5)?,
        returned: count_in(row, 6)?,
    })
}

// Totals as columns have them.
#[derive(Clone, Copy)]
struct Counts {
    received: i64,
    stock: i64,
    rack: i64,
    pieces: i64,
    kerf: i64,
    scrap: i64,
    returned: i64,
}

fn counts_of(totals: &Totals) -> Result<Counts, TableFault>
    ensures { IfOk result (λ counts. counts ≡ record {
      received = pos totals.now.received;
      stock = pos totals.now.stock;
      rack = pos totals.now.rack;
      pieces = pos totals.now.pieces;
      kerf = pos totals.now.kerf;
      scrap = pos totals.now.scrap;
      returned = pos totals.now.returned;
    }) }
{
    Ok(Counts {
        received: counted(totals.received)?,
        stock: counted(totals.stock)?,
        rack: counted(totals.rack)?,
        pieces: counted(totals.pieces)?,
        kerf: counted(totals.kerf)?,
        scrap: counted(totals.scrap)?,
        returned: counted(totals.returned)?,
    })
}

// Runs a statement on a material and its totals, each below 9223372036854775808.
fn run_totals<S: Alter>(
    tx: &mut Transaction<'_, S>,
    sql: &str,
    material: Code,
    totals: &Totals,
) -> Result<(), TableFault>
    ensures same_reference { tx.new.conn.ghost_name ≡ tx.old.conn.ghost_name }
    ensures ran { OnOk result
        (Ran (state S.Store tx.old.conn.now) (state S.Store tx.new.conn.now)) }
    ensures has_run { OnOk result
        (HasExecuted sql.now (totals_row (material, totals.now)) (state S.Store tx.old.conn.now)
        (state S.Store tx.new.conn.now)) }
    ensures within { Within (state S.Store tx.old.conn.now) (state S.Store tx.new.conn.now) }
{
    let counts = counts_of(totals)?;
    run(
        tx,
        sql,
        params![
            material.as_str(),
            &counts.received,
            &counts.stock,
            &counts.rack,
            &counts.pieces,
            &counts.kerf,
            &counts.scrap,
            &counts.returned
        ],
    )
}

/// Puts the totals of a new material, each below 9223372036854775808.
pub fn put_totals<S: Alter>(
    tx: &mut Transaction<'_, S>,
    material: Code,
    totals: &Totals,
) -> Result<(), TableFault>
    ensures same_reference { tx.new.conn.ghost_name ≡ tx.old.conn.ghost_name }
    ensures ran { OnOk result
        (Ran (state S.Store tx.old.conn.now) (state S.Store tx.new.conn.now)) }
    ensures put { (b : Books) → get b.totals material ≡ None
        → OnOk result (Makes (state S.Store tx.old.conn.now) (state S.Store tx.new.conn.now) b
        (with_totals material totals.now b)) }
    ensures others { OnOk result (Spares (totals2_table.tree ∷ [])
        (state S.Store tx.old.conn.now) (state S.Store tx.new.conn.now)) }
    ensures within { Within (state S.Store tx.old.conn.now) (state S.Store tx.new.conn.now) }
{
    run_totals(
        tx,
        "INSERT INTO totals2 (material, received, stock, rack, pieces, kerf, scrap, returned) VALUES (?1, ?2, ?3, ?4, ?5, ?6, ?7, ?8)",
        material,
        totals,
    )
}

/// Gives a material that has totals these, each below 9223372036854775808.
pub fn set_totals<S: Alter>(
    tx: &mut Transaction<'_, S>,
    material: Code,
    totals: &Totals,
) -> Result<(), TableFault>
    ensures same_reference { tx.new.conn.ghost_name ≡ tx.old.conn.ghost_name }
    ensures ran { OnOk result
        (Ran (state S.Store tx.old.conn.now) (state S.Store tx.new.conn.now)) }
    ensures put { (b : Books) → (was : TotalsRecord) → get b.totals material ≡ Some was
        → OnOk result (Makes (state S.Store tx.old.conn.now) (state S.Store tx.new.conn.now) b
        (with_totals material totals.now b)) }
    ensures others { OnOk result (Spares (totals2_table.tree ∷ [])
        (state S.Store tx.old.conn.now) (state S.Store tx.new.conn.now)) }
    ensures within { Within (state S.Store tx.old.conn.now) (state S.Store tx.new.conn.now) }
{
    run_totals(
        tx,
        "UPDATE totals2 SET received = ?2, stock = ?3, rack = ?4, pieces = ?5, kerf = ?6, scrap = ?7, returned = ?8 WHERE material = ?1",
        material,
        totals,
    )
}

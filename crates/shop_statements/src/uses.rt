//! The table of the orders of which a job's plan has a piece: put.

ghost use Rattle.std.specs.Prelude.{◌≡◌, [], ◌∷◌, None, OnOk};
ghost use Rattle.std.specs.FinMap.{get};
ghost use Rattle.sqlite.specs.Held.{state};
ghost use Rattle.shop_statements.specs.Beside.{Spares};
ghost use Rattle.shop_statements.specs.Changes.{with_use};
ghost use Rattle.shop_statements.specs.Layout.{uses_table};
ghost use Rattle.shop_statements.specs.Shown.{Books, Makes, Ran, Within};

use crate::TableFault;
use crate::running::run;
use cut_measure::Code;
use sqlite::{Alter, Transaction, params};

/// An order of which a job's plan has a piece.
#[derive(Clone, Copy, Debug, PartialEq)]
pub struct JobOrder {
    pub job: u32,
    pub order: Code,
}

/// Puts an order of which a new job's plan has a piece.
pub fn put_use<S: Alter>(tx: &mut Transaction<'_, S>, row: &JobOrder) -> Result<(), TableFault>
    ensures same_reference { tx.new.conn.ghost_name ≡ tx.old.conn.ghost_name }
    ensures ran { OnOk result
        (Ran (state S.Store tx.old.conn.now) (state S.Store tx.new.conn.now)) }
    ensures put { (b : Books) → get b.uses row.now ≡ None
        → OnOk result (Makes (state S.Store tx.old.conn.now) (state S.Store tx.new.conn.now) b
        (with_use row.now b)) }
    ensures others { OnOk result (Spares (uses_table.tree ∷ [])
        (state S.Store tx.old.conn.now) (state S.Store tx.new.conn.now)) }
    ensures within { Within (state S.Store tx.old.conn.now) (state S.Store tx.new.conn.now) }
{
    run(
        tx,
        "INSERT INTO uses (job, ord) VALUES (?1, ?2)",
        params![row.job, row.order.as_str()],
    )
}

//! The table of the codes of orders: put.

ghost use Rattle.std.specs.Prelude.{◌≡◌, [], ◌∷◌, false};
ghost use Rattle.sqlite.specs.Held.{state};
ghost use Rattle.shop_records.specs.Content.{has_order};
ghost use Rattle.shop_statements.specs.Beside.{Spares};
ghost use Rattle.shop_statements.specs.Layout.{orders_table};
ghost use Rattle.std.specs.Prelude.{OnOk};
ghost use Rattle.shop_statements.specs.Changes.{with_order};
ghost use Rattle.shop_statements.specs.Shown.{Books, Makes, Ran, Within};

use crate::TableFault;
use crate::running::run;
use cut_measure::Code;
use sqlite::{Alter, Transaction, params};

/// Puts a new order's code.
pub fn put_order<S: Alter>(tx: &mut Transaction<'_, S>, code: Code) -> Result<(), TableFault>
    ensures same_reference { tx.new.conn.ghost_name ≡ tx.old.conn.ghost_name }
    ensures ran { OnOk result
        (Ran (state S.Store tx.old.conn.now) (state S.Store tx.new.conn.now)) }
    ensures put { (b : Books) → has_order b.content code ≡ false
        → OnOk result (Makes (state S.Store tx.old.conn.now) (state S.Store tx.new.conn.now) b
        (with_order code b)) }
    ensures others { OnOk result (Spares (orders_table.tree ∷ [])
        (state S.Store tx.old.conn.now) (state S.Store tx.new.conn.now)) }
    ensures within { Within (state S.Store tx.old.conn.now) (state S.Store tx.new.conn.now) }
{
    run(
        tx,
        "INSERT INTO orders (ord) VALUES (?1)",
        params![code.as_str()],
    )
}

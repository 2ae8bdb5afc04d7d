//! The table of version 1's totals, in which a shop of version 2 has no row.

ghost use Rattle.std.specs.Prelude.{◌≡◌, false, [], IfOk, IsTrue};
ghost use Rattle.std.specs.Bool.{Decides};
ghost use Rattle.sqlite.specs.Held.{state};
ghost use Rattle.sqlite.specs.State.{HasCleanDisk};
ghost use Rattle.shop_statements.specs.Earlier.{second_schema};
ghost use Rattle.shop_statements.specs.Layout.{HasShopTables};
ghost use Rattle.shop_statements.specs.Shown.{Leaves};

use shop_statements::all_rows;
use sqlite::{Alter, Connection, Error};

/// Whether the table of version 1's totals has no row.
pub fn has_no_old_totals<S: Alter>(conn: &mut Connection<S>) -> Result<bool, Error>
    ensures stands { HasCleanDisk (state S.Store conn.new) → HasShopTables conn.old.schema
        → IfOk result (λ none. Decides none ((state S.Store conn.old).now.trees 15 ≡ [])) }
    ensures second { HasCleanDisk (state S.Store conn.new) → conn.old.schema ≡ second_schema
        → IfOk result (λ none. Decides none ((state S.Store conn.old).now.trees 15 ≡ [])) }
    ensures was_open { HasCleanDisk (state S.Store conn.new)
        → IfOk result (λ _. IsTrue (state S.Store conn.old).is_open) }
    ensures leaves { Leaves (state S.Store conn.old) (state S.Store conn.new) }
    ensures mode { conn.old.in_transaction ≡ false → conn.new.in_transaction ≡ false }
{
    let rows = all_rows(conn, "SELECT material FROM totals LIMIT 1", &[])?;
    Ok(rows.is_empty())
}

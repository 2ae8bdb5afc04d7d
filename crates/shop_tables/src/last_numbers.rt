//! The greatest number under which a message of a terminal is kept.

ghost use Rattle.std.specs.Prelude.{◌≡◌, false, Some, IfOk};
ghost use Rattle.std.specs.Option.{option_to_list};
ghost use Rattle.sqlite.specs.State.{HasCleanDisk};
ghost use Rattle.sqlite.specs.Held.{state};
ghost use Rattle.shop_records.specs.Lists.{IsLastNumber};
ghost use Rattle.shop_statements.specs.Layout.{HasShopTables};
ghost use Rattle.shop_statements.specs.Shown.{Leaves, OnBooks};
ghost use Rattle.shop_tables.specs.ListedRows.{IsLastRow};
ghost use Rattle.shop_tables.specs.RowsShown.{AreLastRows, IsLastIn};

use shop_statements::{TableFault, number_in, row_by_number};
use sqlite::{Alter, Connection, Error, Row};

fn last_row<S: Alter>(conn: &mut Connection<S>, terminal: u32) -> Result<Option<Row>, Error>
    ensures row { OnBooks (state S.Store conn.old) (state S.Store conn.new)
        (λ books. IfOk result (IsLastRow books.content terminal)) }
    ensures stands { HasCleanDisk (state S.Store conn.new) → HasShopTables conn.old.schema
        → IfOk result (λ row. AreLastRows terminal ((state S.Store conn.old).now.trees 11)
        (option_to_list row)) }
    ensures leaves { Leaves (state S.Store conn.old) (state S.Store conn.new) }
    ensures mode { conn.old.in_transaction ≡ false → conn.new.in_transaction ≡ false }
{
    row_by_number(
        conn,
        "SELECT number FROM kept WHERE terminal = ?1 ORDER BY number DESC LIMIT 1",
        terminal,
    )
}

/// The greatest number under which a message of a terminal is kept, 0 where none is.
pub fn find_last_number<S: Alter>(
    conn: &mut Connection<S>,
    terminal: u32,
) -> Result<u32, TableFault>
    ensures number { OnBooks (state S.Store conn.old) (state S.Store conn.new)
        (λ books. IfOk result (λ last. IsLastNumber books.content terminal last)) }
    ensures stands { HasCleanDisk (state S.Store conn.new) → HasShopTables conn.old.schema
        → IfOk result (IsLastIn terminal ((state S.Store conn.old).now.trees 11)) }
    ensures leaves { Leaves (state S.Store conn.old) (state S.Store conn.new) }
    ensures mode { conn.old.in_transaction ≡ false → conn.new.in_transaction ≡ false }
{
    let Some(row) = last_row(conn, terminal)? else {
        return Ok(0);
    };
    number_in(&row, 0)
}

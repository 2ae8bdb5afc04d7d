//! The codes of the first orders.

ghost use Rattle.std.specs.Prelude.{◌≡◌, false, map, take, None, IfOk};
ghost use Rattle.sqlite.specs.Held.{state};
ghost use Rattle.shop_statements.specs.Earlier.{OnBooksEarlier, OnBooksSecond};
ghost use Rattle.shop_records.specs.Lists.{orders_after};
ghost use Rattle.shop_tables.specs.Listing.{code_row};
ghost use Rattle.shop_tables.specs.RowsShown.{AreOrderRows, GivesRows};

use crate::listed_rows::at_most;
use shop_statements::{TableFault, all_rows};
use sqlite::{Alter, Connection, Row, params};

/// The rows of the first orders, by rising code: at most so many.
pub fn order_rows<S: Alter>(conn: &mut Connection<S>, most: usize) -> Result<Vec<Row>, TableFault>
    ensures gives { GivesRows (state S.Store conn.old) (state S.Store conn.new) result
        (λ books rows. rows ≡ map code_row (take most (orders_after books.content None)))
        (λ db. AreOrderRows most (db 7)) }
    ensures earlier { OnBooksEarlier (state S.Store conn.old) (state S.Store conn.new)
        (λ books. IfOk result (λ rows. rows.items
        ≡ map code_row (take most (orders_after books.content None)))) }
    ensures second { OnBooksSecond (state S.Store conn.old) (state S.Store conn.new)
        (λ books. IfOk result (λ rows. rows.items
        ≡ map code_row (take most (orders_after books.content None)))) }
    ensures mode { conn.old.in_transaction ≡ false → conn.new.in_transaction ≡ false }
{
    let limit = at_most(most)?;
    let rows = all_rows(
        conn,
        "SELECT ord FROM orders ORDER BY ord LIMIT ?1",
        params![&limit.rows],
    )?;
    Ok(rows)
}

//! All that is said of orders, in order.

ghost use Rattle.std.specs.Prelude.{◌≡◌, false, map};
ghost use Rattle.std.specs.FinMap.{values};
ghost use Rattle.sqlite.specs.Held.{state};
ghost use Rattle.shop_tables.specs.ListedRows.{listed_note};
ghost use Rattle.shop_tables.specs.RowsShown.{AreNoteRows, GivesRows};

use shop_statements::all_rows;
use sqlite::{Alter, Connection, Error, Row};

/// The rows of what is said of all orders, by rising code.
pub fn note_rows<S: Alter>(conn: &mut Connection<S>) -> Result<Vec<Row>, Error>
    ensures gives { GivesRows (state S.Store conn.old) (state S.Store conn.new) result
        (λ books rows. rows ≡ map listed_note (values books.content.notes))
        (λ db. AreNoteRows (db 22)) }
    ensures mode { conn.old.in_transaction ≡ false → conn.new.in_transaction ≡ false }
{
    all_rows(conn, "SELECT due, body, ord FROM notes ORDER BY ord", &[])
}

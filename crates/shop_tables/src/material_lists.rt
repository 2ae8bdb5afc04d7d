//! All materials, in order.

ghost use Rattle.std.specs.Prelude.{◌≡◌, false, map, IfOk};
ghost use Rattle.sqlite.specs.Held.{state};
ghost use Rattle.shop_statements.specs.Earlier.{OnBooksEarlier, OnBooksSecond};
ghost use Rattle.shop_tables.specs.RowsShown.{AreMaterialRows, GivesRows};
ghost use Rattle.shop_records.specs.Lists.{materials_of};
ghost use Rattle.shop_tables.specs.ListedRows.{listed_material};

use shop_statements::all_rows;
use sqlite::{Alter, Connection, Error, Row};

/// The rows of all materials, by rising code.
pub fn material_rows<S: Alter>(conn: &mut Connection<S>) -> Result<Vec<Row>, Error>
    ensures gives { GivesRows (state S.Store conn.old) (state S.Store conn.new) result
        (λ books rows. rows ≡ map listed_material (materials_of books.content))
        (λ db. AreMaterialRows (db 2)) }
    ensures earlier { OnBooksEarlier (state S.Store conn.old) (state S.Store conn.new)
        (λ books. IfOk result (λ rows. rows.items
        ≡ map listed_material (materials_of books.content))) }
    ensures second { OnBooksSecond (state S.Store conn.old) (state S.Store conn.new)
        (λ books. IfOk result (λ rows. rows.items
        ≡ map listed_material (materials_of books.content))) }
    ensures mode { conn.old.in_transaction ≡ false → conn.new.in_transaction ≡ false }
{
    all_rows(
        conn,
        "SELECT kind, kerf, min_long, min_short, code FROM materials ORDER BY code",
        &[],
    )
}

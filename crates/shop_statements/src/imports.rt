//! The table of imports: read and put.

ghost use Rattle.std.specs.Prelude.{◌≡◌, false, IfOk};
ghost use Rattle.sqlite.specs.Held.{state};
ghost use Rattle.shop_records.specs.Content.{import_at};
ghost use Rattle.shop_records.specs.declared.imports.ImportRow.{ImportRow as ImportRecord};
ghost use Rattle.shop_statements.specs.Beside.{Spares};
ghost use Rattle.shop_statements.specs.Rows.{import_columns};
ghost use Rattle.shop_statements.specs.Shown.{Leaves, OnBooks, IsRowOf};
ghost use Rattle.std.specs.Prelude.{None, OnOk};
ghost use Rattle.shop_statements.specs.Changes.{with_import};
ghost use Rattle.shop_statements.specs.Shown.{Books, Makes, Ran, Within};
ghost use Rattle.sqlite.specs.State.{HasCleanDisk};
ghost use Rattle.shop_statements.specs.Found.{IsUnder, columns_of};
ghost use Rattle.shop_statements.specs.Layout.{HasShopTables, imports_table};
ghost use Rattle.sqlite_value.specs.declared.value.Value.TheVariants.{Text as Word};
ghost use Rattle.std.specs.Prelude.{[], ◌∷◌, option_map};

use crate::TableFault;
use crate::columns::{form_in, material_of_form, number_of_form, text_in};
use crate::rows::row_by_text;
use crate::running::run;
use cut_measure::Code;
use shop_records::ImportRow;
use sqlite::{Alter, Connection, Error, Row, Transaction, params};

fn read_import(order: Code, row: &Row) -> Result<ImportRow, TableFault>
    ensures row { (import : ImportRecord) → import.order ≡ order → row.now ≡ import_columns import
        → IfOk result (λ read. read ≡ import) }
    ensures exact { IfOk result (λ read. columns_of 4 0 row.now ≡ import_columns read) }
{
    Ok(ImportRow {
        order,
        form: form_in(row, 0)?,
        text: text_in(row, 2)?,
        reply: text_in(row, 3)?,
    })
}

fn import_row<S: Alter>(conn: &mut Connection<S>, order: Code) -> Result<Option<Row>, Error>
    ensures row { OnBooks (state S.Store conn.old) (state S.Store conn.new)
        (λ books. IfOk result (IsRowOf
        (λ (import : ImportRecord). import.order ≡ order) import_columns
        (import_at books.content order))) }
    ensures stands { HasCleanDisk (state S.Store conn.new) → HasShopTables conn.old.schema
        → IfOk result (λ found. IsUnder ((state S.Store conn.old).now.trees 13) 1
        (Word order ∷ []) 4 2 found) }
    ensures leaves { Leaves (state S.Store conn.old) (state S.Store conn.new) }
    ensures mode { conn.old.in_transaction ≡ false → conn.new.in_transaction ≡ false }
{
    row_by_text(
        conn,
        "SELECT form, material, body, reply FROM imports WHERE ord = ?1",
        order.as_str(),
    )
}

/// What is kept of the import that the order of this code came by.
pub fn find_import<S: Alter>(
    conn: &mut Connection<S>,
    order: Code,
) -> Result<Option<ImportRow>, TableFault>
    ensures row { OnBooks (state S.Store conn.old) (state S.Store conn.new)
        (λ books. IfOk result (λ row. row ≡ import_at books.content order)) }
    ensures stands { HasCleanDisk (state S.Store conn.new) → HasShopTables conn.old.schema
        → IfOk result (λ found. IsUnder ((state S.Store conn.old).now.trees 13) 1
        (Word order ∷ []) 4 2 (option_map import_columns found)) }
    ensures leaves { Leaves (state S.Store conn.old) (state S.Store conn.new) }
    ensures mode { conn.old.in_transaction ≡ false → conn.new.in_transaction ≡ false }
{
    let Some(row) = import_row(conn, order)? else {
        return Ok(None);
    };
    let import = read_import(order, &row)?;
    Ok(Some(import))
}

/// Keeps the import that a new order came by.
pub fn put_import<S: Alter>(
    tx: &mut Transaction<'_, S>,
    import: &ImportRow,
) -> Result<(), TableFault>
    ensures same_reference { tx.new.conn.ghost_name ≡ tx.old.conn.ghost_name }
    ensures ran { OnOk result
        (Ran (state S.Store tx.old.conn.now) (state S.Store tx.new.conn.now)) }
    ensures put { (b : Books) → import_at b.content import.now.order ≡ None
        → OnOk result (Makes (state S.Store tx.old.conn.now) (state S.Store tx.new.conn.now) b
        (with_import import.now b)) }
    ensures others { OnOk result (Spares (imports_table.tree ∷ [])
        (state S.Store tx.old.conn.now) (state S.Store tx.new.conn.now)) }
    ensures within { Within (state S.Store tx.old.conn.now) (state S.Store tx.new.conn.now) }
{
    run(
        tx,
        "INSERT INTO imports (ord, form, material, body, reply) VALUES (?1, ?2, ?3, ?4, ?5)",
        params![
            import.order.as_str(),
            number_of_form(import.form),
            material_of_form(&import.form),
            import.text.as_str(),
            import.reply.as_str()
        ],
    )
}

//! The table of what is said of orders, each under its order's code: read and put.

ghost use Rattle.std.specs.Prelude.{◌≡◌, ◌++◌, [], ◌∷◌, false, IfOk, None, OnOk, option_map};
ghost use Rattle.sqlite.specs.Held.{state};
ghost use Rattle.sqlite.specs.State.{HasCleanDisk};
ghost use Rattle.sqlite_value.specs.Order.{Row as Values};
ghost use Rattle.sqlite_value.specs.declared.value.Value.TheVariants.{Text as Word};
ghost use Rattle.shop_records.specs.Content.{note_at};
ghost use Rattle.shop_records.specs.declared.notes.OrderNote.{OrderNote as NoteRecord};
ghost use Rattle.shop_statements.specs.Beside.{Spares};
ghost use Rattle.shop_statements.specs.Changes.{with_note, without_note};
ghost use Rattle.shop_statements.specs.Found.{IsUnder, columns_of};
ghost use Rattle.shop_statements.specs.Layout.{HasShopTables, notes_table};
ghost use Rattle.shop_statements.specs.Rows.{note_columns};
ghost use Rattle.shop_statements.specs.Shown.{Books, IsRowOf, Leaves, Makes, OnBooks, Ran, Within};

use crate::TableFault;
use crate::columns::{number_in, text_in};
use crate::rows::row_by_text;
use crate::running::run;
use cut_measure::Code;
use shop_records::OrderNote;
use sqlite::{Alter, Connection, Error, Row, Transaction, params};

/// What is said of the order of a code, of its columns; the columns after them don't matter.
pub fn read_note(order: Code, row: &Row) -> Result<OrderNote, TableFault>
    ensures key { IfOk result (λ read. read.order ≡ order) }
    ensures row { (note : NoteRecord) (after : Values) → note.order ≡ order
        → row.now ≡ note_columns note ++ after → IfOk result (λ read. read ≡ note) }
    ensures exact { IfOk result (λ read. columns_of 2 0 row.now ≡ note_columns read) }
{
    Ok(OrderNote {
        order,
        due: number_in(row, 0)?,
        text: text_in(row, 1)?,
    })
}

fn note_row<S: Alter>(conn: &mut Connection<S>, order: Code) -> Result<Option<Row>, Error>
    ensures row { OnBooks (state S.Store conn.old) (state S.Store conn.new)
        (λ books. IfOk result (IsRowOf
        (λ (note : NoteRecord). note.order ≡ order) note_columns
        (note_at books.content order))) }
    ensures stands { HasCleanDisk (state S.Store conn.new) → HasShopTables conn.old.schema
        → IfOk result (λ found. IsUnder ((state S.Store conn.old).now.trees 22) 1
        (Word order ∷ []) 2 2 found) }
    ensures leaves { Leaves (state S.Store conn.old) (state S.Store conn.new) }
    ensures mode { conn.old.in_transaction ≡ false → conn.new.in_transaction ≡ false }
{
    row_by_text(
        conn,
        "SELECT due, body FROM notes WHERE ord = ?1",
        order.as_str(),
    )
}

/// What is said of the order of this code.
pub fn find_note<S: Alter>(
    conn: &mut Connection<S>,
    order: Code,
) -> Result<Option<OrderNote>, TableFault>
    ensures row { OnBooks (state S.Store conn.old) (state S.Store conn.new)
        (λ books. IfOk result (λ row. row ≡ note_at books.content order)) }
    ensures stands { HasCleanDisk (state S.Store conn.new) → HasShopTables conn.old.schema
        → IfOk result (λ found. IsUnder ((state S.Store conn.old).now.trees 22) 1
        (Word order ∷ []) 2 2 (option_map note_columns found)) }
    ensures leaves { Leaves (state S.Store conn.old) (state S.Store conn.new) }
    ensures mode { conn.old.in_transaction ≡ false → conn.new.in_transaction ≡ false }
{
    let Some(row) = note_row(conn, order)? else {
        return Ok(None);
    };
    let note = read_note(order, &row)?;
    Ok(Some(note))
}

// Takes out what is said of an order, where something is.
fn clear_note<S: Alter>(tx: &mut Transaction<'_, S>, order: Code) -> Result<(), TableFault>
    ensures same_reference { tx.new.conn.ghost_name ≡ tx.old.conn.ghost_name }
    ensures ran { OnOk result
        (Ran (state S.Store tx.old.conn.now) (state S.Store tx.new.conn.now)) }
    ensures put { (b : Books)
        → OnOk result (Makes (state S.Store tx.old.conn.now) (state S.Store tx.new.conn.now) b
        (without_note order b)) }
    ensures others { OnOk result (Spares (notes_table.tree ∷ [])
        (state S.Store tx.old.conn.now) (state S.Store tx.new.conn.now)) }
    ensures within { Within (state S.Store tx.old.conn.now) (state S.Store tx.new.conn.now) }
{
    run(
        tx,
        "DELETE FROM notes WHERE ord = ?1",
        params![order.as_str()],
    )
}

// Puts what is said of an order of which nothing is.
fn add_note<S: Alter>(tx: &mut Transaction<'_, S>, note: &OrderNote) -> Result<(), TableFault>
    ensures same_reference { tx.new.conn.ghost_name ≡ tx.old.conn.ghost_name }
    ensures ran { OnOk result
        (Ran (state S.Store tx.old.conn.now) (state S.Store tx.new.conn.now)) }
    ensures put { (b : Books) → note_at b.content note.now.order ≡ None
        → OnOk result (Makes (state S.Store tx.old.conn.now) (state S.Store tx.new.conn.now) b
        (with_note note.now b)) }
    ensures others { OnOk result (Spares (notes_table.tree ∷ [])
        (state S.Store tx.old.conn.now) (state S.Store tx.new.conn.now)) }
    ensures within { Within (state S.Store tx.old.conn.now) (state S.Store tx.new.conn.now) }
{
    run(
        tx,
        "INSERT INTO notes (ord, due, body) VALUES (?1, ?2, ?3)",
        params![note.order.as_str(), note.due, note.text.as_str()],
    )
}

/// Puts what is said of an order, in place of what is there.
#[tactic(auto, using(crate::proofs::Steps::within_then))]
pub fn put_note<S: Alter>(tx: &mut Transaction<'_, S>, note: &OrderNote) -> Result<(), TableFault>
    ensures same_reference { tx.new.conn.ghost_name ≡ tx.old.conn.ghost_name }
    ensures ran { OnOk result
        (Ran (state S.Store tx.old.conn.now) (state S.Store tx.new.conn.now)) }
    ensures put { (b : Books)
        → OnOk result (Makes (state S.Store tx.old.conn.now) (state S.Store tx.new.conn.now) b
        (with_note note.now b)) }
    ensures others { OnOk result (Spares (notes_table.tree ∷ [])
        (state S.Store tx.old.conn.now) (state S.Store tx.new.conn.now)) }
    ensures within { Within (state S.Store tx.old.conn.now) (state S.Store tx.new.conn.now) }
{
    clear_note(tx, note.order)?;
    add_note(tx, note)
}

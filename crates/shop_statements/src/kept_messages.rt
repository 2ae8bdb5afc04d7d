//! The table of accepted messages, each under its terminal and number: read and put.

ghost use Rattle.std.specs.Prelude.{◌≡◌, false, IfOk};
ghost use Rattle.sqlite.specs.Held.{state};
ghost use Rattle.shop_records.specs.Content.{kept_at};
ghost use Rattle.shop_records.specs.declared.texts.Kept.{Kept as KeptRecord};
ghost use Rattle.shop_statements.specs.Beside.{Spares};
ghost use Rattle.shop_statements.specs.Rows.{kept_columns};
ghost use Rattle.shop_statements.specs.Shown.{Leaves, OnBooks, IsRowOf};
ghost use Rattle.std.specs.Prelude.{None, OnOk};
ghost use Rattle.shop_statements.specs.Changes.{with_kept};
ghost use Rattle.shop_statements.specs.Shown.{Books, Makes, Ran, Within};
ghost use Rattle.sqlite.specs.State.{HasCleanDisk};
ghost use Rattle.shop_statements.specs.Found.{IsUnder, columns_of};
ghost use Rattle.shop_statements.specs.Layout.{HasShopTables, kept_table};
ghost use Rattle.sqlite_value.specs.declared.value.Value.TheVariants.{Int};
ghost use Rattle.std.specs.Prelude.{[], ◌∷◌, option_map, pos};

use crate::TableFault;
use crate::columns::text_in;
use crate::rows::row_by_two;
use crate::running::run;
use shop_records::{Kept, KeptMessage, MessageId};
use sqlite::{Alter, Connection, Error, Row, Transaction, params};

fn read_kept(row: &Row) -> Result<Kept, TableFault>
    ensures row { (kept : KeptRecord) → row.now ≡ kept_columns kept
        → IfOk result (λ read. read ≡ kept) }
    ensures exact { IfOk result (λ read. columns_of 2 0 row.now ≡ kept_columns read) }
{
    Ok(Kept {
        command: text_in(row, 0)?,
        reply: text_in(row, 1)?,
    })
}

fn kept_row<S: Alter>(conn: &mut Connection<S>, message_id: MessageId) -> Result<Option<Row>, Error>
    ensures row { OnBooks (state S.Store conn.old) (state S.Store conn.new)
        (λ books. IfOk result (IsRowOf (λ (kept : KeptRecord). Unit {0}) kept_columns
        (kept_at books.content message_id))) }
    ensures stands { HasCleanDisk (state S.Store conn.new) → HasShopTables conn.old.schema
        → IfOk result (λ found. IsUnder ((state S.Store conn.old).now.trees 11) 1
        (Int (pos message_id.terminal) ∷ Int (pos message_id.number) ∷ []) 2 3 found) }
    ensures leaves { Leaves (state S.Store conn.old) (state S.Store conn.new) }
    ensures mode { conn.old.in_transaction ≡ false → conn.new.in_transaction ≡ false }
{
    row_by_two(
        conn,
        "SELECT command, reply FROM kept WHERE terminal = ?1 AND number = ?2",
        message_id.terminal,
        message_id.number,
    )
}

/// What is kept of the accepted message with this ID.
pub fn find_kept<S: Alter>(
    conn: &mut Connection<S>,
    message_id: MessageId,
) -> Result<Option<Kept>, TableFault>
    ensures row { OnBooks (state S.Store conn.old) (state S.Store conn.new)
        (λ books. IfOk result (λ row. row ≡ kept_at books.content message_id)) }
    ensures stands { HasCleanDisk (state S.Store conn.new) → HasShopTables conn.old.schema
        → IfOk result (λ found. IsUnder ((state S.Store conn.old).now.trees 11) 1
        (Int (pos message_id.terminal) ∷ Int (pos message_id.number) ∷ []) 2 3
        (option_map kept_columns found)) }
    ensures leaves { Leaves (state S.Store conn.old) (state S.Store conn.new) }
    ensures mode { conn.old.in_transaction ≡ false → conn.new.in_transaction ≡ false }
{
    let Some(row) = kept_row(conn, message_id)? else {
        return Ok(None);
    };
    let kept = read_kept(&row)?;
    Ok(Some(kept))
}

/// Keeps an accepted message of a new ID.
pub fn put_kept<S: Alter>(
    tx: &mut Transaction<'_, S>,
    message: &KeptMessage,
) -> Result<(), TableFault>
    ensures same_reference { tx.new.conn.ghost_name ≡ tx.old.conn.ghost_name }
    ensures ran { OnOk result
        (Ran (state S.Store tx.old.conn.now) (state S.Store tx.new.conn.now)) }
    ensures put { (b : Books) → kept_at b.content message.now.message_id ≡ None
        → OnOk result (Makes (state S.Store tx.old.conn.now) (state S.Store tx.new.conn.now) b
        (with_kept message.now b)) }
    ensures others { OnOk result (Spares (kept_table.tree ∷ [])
        (state S.Store tx.old.conn.now) (state S.Store tx.new.conn.now)) }
    ensures within { Within (state S.Store tx.old.conn.now) (state S.Store tx.new.conn.now) }
{
    run(
        tx,
        "INSERT INTO kept (terminal, number, command, reply) VALUES (?1, ?2, ?3, ?4)",
        params![
            message.message_id.terminal,
            message.message_id.number,
            message.kept.command.as_str(),
            message.kept.reply.as_str()
        ],
    )
}

//! The table of entries, each under its number: read and put. Nothing changes one.

ghost use Rattle.std.specs.Prelude.{◌≡◌, ◌++◌, false, pos, [], ◌∷◌, IfOk, IfSome, IsTrue, None, OnOk};
ghost use Rattle.cut_measure.specs.Codes.{is_code};
ghost use Rattle.cut_measure.specs.Names.{IsName};
ghost use Rattle.sqlite.specs.Held.{state};
ghost use Rattle.shop_records.specs.Content.{entry_at};
ghost use Rattle.shop_records.specs.declared.journal.Entry.{Entry as EntryRecord};
ghost use Rattle.shop_statements.specs.Beside.{Spares};
ghost use Rattle.shop_statements.specs.Changes.{with_entry};
ghost use Rattle.shop_statements.specs.Found.{columns_of};
ghost use Rattle.shop_statements.specs.Layout.{journal_table};
ghost use Rattle.sqlite_value.specs.declared.value.Value.TheVariants.{Int};
ghost use Rattle.shop_statements.specs.Rows.{entry_columns};
ghost use Rattle.shop_statements.specs.Values.{IsEntryValue, IsOwnEntry};
ghost use Rattle.shop_statements.specs.Shown.{Books, IsRowOf, Leaves, Makes, OnBooks, Ran, Within};

use crate::TableFault;
use crate::columns::{
    act_of_part, count_in, counted, node_of_part, number_in, order_in, part_in, text_of_order,
    word_of_entry,
};
use crate::rows::row_by_count;
use crate::running::run;
use cut_measure::{Code, PartName};
use shop_records::{Entry, MessageId};
use sqlite::{Alter, Connection, Row, Transaction, params};

// An entry's number and time, as columns have them.
#[derive(Clone, Copy)]
struct Stamp {
    number: i64,
    at: i64,
}

fn stamp_of(entry: &Entry) -> Result<Stamp, TableFault>
    ensures { IfOk result (λ stamp. stamp ≡ record {
      number = pos entry.now.number;
      at = pos entry.now.at;
    }) }
{
    Ok(Stamp {
        number: counted(entry.number)?,
        at: counted(entry.at)?,
    })
}

// An order of the program is a code.
fn see_order(order: Option<Code>)
    ensures { IfSome order (λ code. IsTrue (is_code code)) }
{
    if let Some(code) = order {
        let _text = code.as_str();
    }
}

// A part's name of the program is one.
fn see_part(part: Option<PartName>)
    ensures { IfSome part IsName }
{
    if let Some(name) = part {
        let _act = name.act();
    }
}

// An entry of the program is a value.
fn in_ranges(entry: &Entry)
    ensures { IsEntryValue entry.now }
{
    see_order(entry.order);
    see_part(entry.part);
}

/// Puts a new entry, whose number and time are below 9223372036854775808.
pub fn put_entry<S: Alter>(tx: &mut Transaction<'_, S>, entry: &Entry) -> Result<(), TableFault>
    ensures same_reference { tx.new.conn.ghost_name ≡ tx.old.conn.ghost_name }
    ensures ran { OnOk result
        (Ran (state S.Store tx.old.conn.now) (state S.Store tx.new.conn.now)) }
    ensures put { (b : Books) → entry_at b.content entry.now.number ≡ None
        → OnOk result (Makes (state S.Store tx.old.conn.now) (state S.Store tx.new.conn.now) b
        (with_entry entry.now b)) }
    ensures others { OnOk result (Spares (journal_table.tree ∷ [])
        (state S.Store tx.old.conn.now) (state S.Store tx.new.conn.now)) }
    ensures within { Within (state S.Store tx.old.conn.now) (state S.Store tx.new.conn.now) }
{
    let stamp = stamp_of(entry)?;
    in_ranges(entry);
    run(
        tx,
        "INSERT INTO journal (entry, at, terminal, number, word, act, job, ord, part_act, part_node) VALUES (?1, ?2, ?3, ?4, ?5, ?6, ?7, ?8, ?9, ?10)",
        params![
            &stamp.number,
            &stamp.at,
            entry.message_id.terminal,
            entry.message_id.number,
            entry.word.name(),
            entry.act,
            entry.job,
            text_of_order(&entry.order),
            act_of_part(entry.part),
            node_of_part(entry.part)
        ],
    )
}

fn entry_of_columns(number: u64, row: &Row) -> Result<Entry, TableFault>
    ensures number { IfOk result (λ read. read.number ≡ number) }
    ensures exact { IfOk result (λ read. columns_of 9 0 row.now ≡ entry_columns read) }
{
    Ok(Entry {
        number,
        at: count_in(row, 0)?,
        message_id: MessageId {
            terminal: number_in(row, 1)?,
            number: number_in(row, 2)?,
        },
        word: word_of_entry(row, 3)?,
        act: number_in(row, 4)?,
        job: number_in(row, 5)?,
        order: order_in(row, 6)?,
        part: part_in(row, 7)?,
    })
}

/// The entry of a number, of its columns: the first nine of the row.
pub fn read_entry(number: u64, row: &Row) -> Result<Entry, TableFault>
    ensures number { IfOk result (λ read. read.number ≡ number) }
    ensures exact { IfOk result (λ read. columns_of 9 0 row.now ≡ entry_columns read) }
    ensures value { IfOk result IsEntryValue }
{
    let entry = entry_of_columns(number, row)?;
    in_ranges(&entry);
    Ok(entry)
}

/// The entry of a row with its number behind its columns.
pub fn read_listed_entry(row: &Row) -> Result<Entry, TableFault>
    ensures { (entry : EntryRecord) → IsEntryValue entry
        → row.now ≡ entry_columns entry ++ Int (pos entry.number) ∷ []
        → IfOk result (λ read. read ≡ entry) }
{
    let number = count_in(row, 9)?;
    let entry = read_entry(number, row)?;
    Ok(entry)
}

fn entry_row<S: Alter>(conn: &mut Connection<S>, number: u64) -> Result<Option<Row>, TableFault>
    ensures row { OnBooks (state S.Store conn.old) (state S.Store conn.new)
        (λ books. IfOk result (IsRowOf (IsOwnEntry number) entry_columns
        (entry_at books.content number))) }
    ensures leaves { Leaves (state S.Store conn.old) (state S.Store conn.new) }
    ensures mode { conn.old.in_transaction ≡ false → conn.new.in_transaction ≡ false }
{
    row_by_count(
        conn,
        "SELECT at, terminal, number, word, act, job, ord, part_act, part_node FROM journal WHERE entry = ?1",
        number,
    )
}

/// The entry of a number.
pub fn find_entry<S: Alter>(
    conn: &mut Connection<S>,
    number: u64,
) -> Result<Option<Entry>, TableFault>
    ensures row { OnBooks (state S.Store conn.old) (state S.Store conn.new)
        (λ books. IfOk result (λ found. found ≡ entry_at books.content number)) }
    ensures leaves { Leaves (state S.Store conn.old) (state S.Store conn.new) }
    ensures mode { conn.old.in_transaction ≡ false → conn.new.in_transaction ≡ false }
{
    let Some(row) = entry_row(conn, number)? else {
        return Ok(None);
    };
    let entry = read_entry(number, &row)?;
    Ok(Some(entry))
}

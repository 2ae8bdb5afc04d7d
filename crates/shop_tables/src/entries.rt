//! Entries: those behind a number, how many there are, the last one, and one out of their row.

ghost use Rattle.std.specs.Prelude.{◌≡◌, ◌+◌, ◌++◌, ◌≤◌, ℕ, List, false, map, take, [], ◌∷◌, IfOk, IsSome, IsTrue, None, OnOk};
ghost use Rattle.std.specs.List.{AllByRecursion};
ghost use Rattle.sqlite.specs.Held.{state};
ghost use Rattle.sqlite.specs.State.{HasCleanDisk};
ghost use Rattle.sqlite_sql.specs.Aggregate.{count};
ghost use Rattle.shop_records.specs.Content.{entry_at, entry_count, last_time, of_found};
ghost use Rattle.shop_records.specs.Lists.{entries_behind};
ghost use Rattle.shop_records.specs.declared.journal.Entry.{Entry as EntryRecord};
ghost use Rattle.shop_statements.specs.Shown.{Leaves, OnBooks};
ghost use Rattle.shop_statements.specs.Values.{IsEntryValue};
ghost use Rattle.shop_tables.specs.Changing.{AreNumbered};
ghost use Rattle.shop_tables.specs.ListedRows.{listed_entry};
ghost use Rattle.shop_tables.specs.RowsFrom.{HasNoneBut};

use crate::chunks::entry_rows_from;
use crate::invalid::{int_in, may_be_entry};
use crate::listed_rows::up_to;
use crate::valid_rows::NoRow;
use shop_records::{Entry, EntryRows};
use shop_statements::{TableFault, all_rows, count_in, find_entry, read_listed_entry};
use sqlite::{Alter, Connection, Error, Row, params};
use std::alloc::Global;

/// As SQLite counts them, fewer rows than this.
const MAX_ENTRIES: u64 = 9223372036854775807;

// Adds the entry of a row, with its number after its columns.
fn add_entry(entries: &mut EntryRows, row: &Row) -> Result<(), TableFault>
    ensures { (entry : EntryRecord) → IsEntryValue entry → row.now ≡ listed_entry entry
        → OnOk result (entries.new ≡ entries.old ++ entry ∷ []) }
{
    let Entry {
        number,
        message_id,
        at,
        word,
        act,
        job,
        order,
        part,
    } = read_listed_entry(row)?;
    entries.push(Entry {
        number,
        message_id,
        at,
        word,
        act,
        job,
        order,
        part,
    })?;
    Ok(())
}

// The entries of rows.
fn entries_of(alloc: Global, rows: &[Row]) -> Result<EntryRows, TableFault>
    ensures { (entries : List EntryRecord) → AllByRecursion IsEntryValue entries
        → rows.now ≡ map listed_entry entries → IfOk result (λ read. read ≡ entries) }
{
    let mut entries = EntryRows::new(alloc);
    for row in rows {
        add_entry(&mut entries, row)?;
    }
    Ok(entries)
}

// The number behind this one, as rows are asked for from it on.
fn behind(after: u64) -> Result<usize, TableFault>
    ensures { IfOk result (λ from. from ≡ after + 1) }
{
    let Ok(before) = usize::try_from(after) else {
        return Err(TableFault::Store);
    };
    match before.checked_add(1) {
        Some(from) => Ok(from),
        None => Err(TableFault::Store),
    }
}

/// The first entries with greater numbers, rising: at most so many.
pub fn entries_after<S: Alter>(
    alloc: Global,
    conn: &mut Connection<S>,
    after: u64,
    most: usize,
) -> Result<EntryRows, TableFault>
    ensures rows { OnBooks (state S.Store conn.old) (state S.Store conn.new)
        (λ books. IfOk result (λ rows. rows ≡ take most (entries_behind books.content after))) }
    ensures was_open { HasCleanDisk (state S.Store conn.new)
        → IfOk result (λ _. IsTrue (state S.Store conn.old).is_open) }
    ensures leaves { Leaves (state S.Store conn.old) (state S.Store conn.new) }
    ensures mode { conn.old.in_transaction ≡ false → conn.new.in_transaction ≡ false }
{
    let from = behind(after)?;
    let rows = entry_rows_from(conn, from, most)?;
    let entries = entries_of(alloc, &rows)?;
    Ok(entries)
}

fn count_rows<S: Alter>(conn: &mut Connection<S>) -> Result<Vec<Row>, Error>
    ensures rows { OnBooks (state S.Store conn.old) (state S.Store conn.new)
        (λ books. IfOk result (λ rows. rows.items
        ≡ (count (entry_count books.content) ∷ []) ∷ [])) }
    ensures leaves { Leaves (state S.Store conn.old) (state S.Store conn.new) }
    ensures mode { conn.old.in_transaction ≡ false → conn.new.in_transaction ≡ false }
{
    all_rows(conn, "SELECT count(*) FROM journal", &[])
}

/// The number that was counted.
pub(crate) fn counted(rows: &[Row]) -> Result<u64, TableFault>
    ensures { (n : ℕ) → rows.now ≡ (count n ∷ []) ∷ [] → IfOk result (λ number. number ≡ n) }
{
    let Some(row) = rows.first() else {
        return Err(TableFault::Store);
    };
    let number = count_in(row, 0)?;
    if number >= MAX_ENTRIES {
        return Err(TableFault::Store);
    }
    Ok(number)
}

/// How many entries there are, below 9223372036854775807.
pub fn count_entries<S: Alter>(conn: &mut Connection<S>) -> Result<u64, TableFault>
    ensures count { OnBooks (state S.Store conn.old) (state S.Store conn.new)
        (λ books. IfOk result (λ number. number ≡ entry_count books.content)) }
    ensures leaves { Leaves (state S.Store conn.old) (state S.Store conn.new) }
    ensures mode { conn.old.in_transaction ≡ false → conn.new.in_transaction ≡ false }
{
    let rows = count_rows(conn)?;
    counted(&rows)
}

// The time of the entry of a number, 0 where there is none.
fn time_of_entry<S: Alter>(conn: &mut Connection<S>, number: u64) -> Result<u64, TableFault>
    ensures time { OnBooks (state S.Store conn.old) (state S.Store conn.new)
        (λ books. IfOk result (λ at. at
        ≡ of_found (λ (entry : EntryRecord). entry.at) (entry_at books.content number))) }
    ensures leaves { Leaves (state S.Store conn.old) (state S.Store conn.new) }
    ensures mode { conn.old.in_transaction ≡ false → conn.new.in_transaction ≡ false }
{
    match find_entry(conn, number)? {
        Some(entry) => Ok(entry.at),
        None => Ok(0),
    }
}

/// How many entries there are, and the time of the last one: 0 and 0 where there is none.
pub fn find_last_entry<S: Alter>(conn: &mut Connection<S>) -> Result<(u64, u64), TableFault>
    ensures last { OnBooks (state S.Store conn.old) (state S.Store conn.new)
        (λ books. IfOk result (λ last. (last.0 ≡ entry_count books.content)
        × (last.1 ≡ last_time books.content))) }
    ensures leaves { Leaves (state S.Store conn.old) (state S.Store conn.new) }
    ensures mode { conn.old.in_transaction ≡ false → conn.new.in_transaction ≡ false }
{
    let number = count_entries(conn)?;
    let at = time_of_entry(conn, number)?;
    Ok((number, at))
}

// The row of an entry with a number below this one.
fn rows_below<S: Alter>(conn: &mut Connection<S>, number: u64) -> Result<Vec<Row>, TableFault>
    ensures rows { OnBooks (state S.Store conn.old) (state S.Store conn.new)
        (λ books. IfOk result
        (λ rows. HasNoneBut (λ n. number ≤ n) books.content rows.items)) }
    ensures leaves { Leaves (state S.Store conn.old) (state S.Store conn.new) }
    ensures mode { conn.old.in_transaction ≡ false → conn.new.in_transaction ≡ false }
{
    let bound = up_to(number)?;
    let rows = all_rows(
        conn,
        "SELECT entry FROM journal WHERE entry < ?1 LIMIT 1",
        params![&bound.rows],
    )?;
    Ok(rows)
}

// The row of an entry with a number above this one.
fn rows_above<S: Alter>(conn: &mut Connection<S>, number: u64) -> Result<Vec<Row>, TableFault>
    ensures rows { OnBooks (state S.Store conn.old) (state S.Store conn.new)
        (λ books. IfOk result
        (λ rows. HasNoneBut (λ n. n ≤ number) books.content rows.items)) }
    ensures leaves { Leaves (state S.Store conn.old) (state S.Store conn.new) }
    ensures mode { conn.old.in_transaction ≡ false → conn.new.in_transaction ≡ false }
{
    let bound = up_to(number)?;
    let rows = all_rows(
        conn,
        "SELECT entry FROM journal WHERE entry > ?1 LIMIT 1",
        params![&bound.rows],
    )?;
    Ok(rows)
}

// The first of these rows, as that of no entry.
fn stray_row(rows: &[Row]) -> Option<NoRow>
    ensures none { rows.now ≡ [] → result ≡ None }
    ensures empty { result ≡ None → rows.now ≡ [] }
{
    match rows.first() {
        Some(row) => Some(NoRow::Entry(int_in(row, 0))),
        None => None,
    }
}

fn stray_below<S: Alter>(conn: &mut Connection<S>, number: u64) -> Result<Option<NoRow>, TableFault>
    ensures none { OnBooks (state S.Store conn.old) (state S.Store conn.new)
        (λ books. ((n : ℕ) → IsSome (entry_at books.content n) → number ≤ n)
        → IfOk result (λ stray. stray ≡ None)) }
    ensures all { OnBooks (state S.Store conn.old) (state S.Store conn.new)
        (λ books. IfOk result (λ stray. stray ≡ None
        → (n : ℕ) → IsSome (entry_at books.content n) → number ≤ n)) }
    ensures leaves { Leaves (state S.Store conn.old) (state S.Store conn.new) }
    ensures mode { conn.old.in_transaction ≡ false → conn.new.in_transaction ≡ false }
{
    let rows = rows_below(conn, number)?;
    Ok(stray_row(&rows))
}

fn stray_above<S: Alter>(conn: &mut Connection<S>, number: u64) -> Result<Option<NoRow>, TableFault>
    ensures none { OnBooks (state S.Store conn.old) (state S.Store conn.new)
        (λ books. ((n : ℕ) → IsSome (entry_at books.content n) → n ≤ number)
        → IfOk result (λ stray. stray ≡ None)) }
    ensures all { OnBooks (state S.Store conn.old) (state S.Store conn.new)
        (λ books. IfOk result (λ stray. stray ≡ None
        → (n : ℕ) → IsSome (entry_at books.content n) → n ≤ number)) }
    ensures leaves { Leaves (state S.Store conn.old) (state S.Store conn.new) }
    ensures mode { conn.old.in_transaction ≡ false → conn.new.in_transaction ≡ false }
{
    let rows = rows_above(conn, number)?;
    Ok(stray_row(&rows))
}

/// The row of an entry whose number isn't one of those from 1 to how many entries there are.
pub fn stray_entry<S: Alter>(
    conn: &mut Connection<S>,
    count: u64,
) -> Result<Option<NoRow>, TableFault>
    ensures none { OnBooks (state S.Store conn.old) (state S.Store conn.new)
        (λ books. count ≡ entry_count books.content → AreNumbered books.content
        → IfOk result (λ stray. stray ≡ None)) }
    ensures all { OnBooks (state S.Store conn.old) (state S.Store conn.new)
        (λ books. count ≡ entry_count books.content
        → IfOk result (λ stray. stray ≡ None → AreNumbered books.content)) }
    ensures leaves { Leaves (state S.Store conn.old) (state S.Store conn.new) }
    ensures mode { conn.old.in_transaction ≡ false → conn.new.in_transaction ≡ false }
{
    match stray_below(conn, 1)? {
        Some(row) => Ok(Some(row)),
        None => stray_above(conn, count),
    }
}

/// How many rows are read at a time to find one that is no entry's.
const ROWS_AT_ONCE: usize = 1000;

/// How many times rows are read so at most.
const MAX_CHUNKS: usize = 1000000000;

// The first of these rows that is no entry's.
fn invalid_row(rows: &[Row]) -> Option<NoRow>
    ensures { (entries : List EntryRecord) → AllByRecursion IsEntryValue entries
        → rows.now ≡ map listed_entry entries → result ≡ None }
{
    for row in rows {
        if !may_be_entry(row) {
            return Some(NoRow::Entry(int_in(row, 9)));
        }
    }
    None
}

// The number after that of the last of these rows, if there are any.
fn number_behind(rows: &[Row]) -> Option<usize> {
    let number = int_in(rows.last()?, 9)?;
    usize::try_from(number).ok()?.checked_add(1)
}

// The first row that is no entry's among some from a number on, if there is one, and from which number on others follow.
fn invalid_row_from<S: Alter>(
    conn: &mut Connection<S>,
    from: usize,
) -> Result<(Option<NoRow>, Option<usize>), TableFault>
    ensures none { OnBooks (state S.Store conn.old) (state S.Store conn.new)
        (λ _. IfOk result (λ found. found.0 ≡ None)) }
    ensures leaves { Leaves (state S.Store conn.old) (state S.Store conn.new) }
    ensures mode { conn.old.in_transaction ≡ false → conn.new.in_transaction ≡ false }
{
    let rows = entry_rows_from(conn, from, ROWS_AT_ONCE)?;
    Ok((invalid_row(&rows), number_behind(&rows)))
}

/// The first row of the journal whose columns are no entry's, if there is one: none if the tables stand for books. Rows with
/// a number below 0 aren't read.
pub fn invalid_entry<S: Alter>(conn: &mut Connection<S>) -> Result<Option<NoRow>, TableFault>
    ensures none { OnBooks (state S.Store conn.old) (state S.Store conn.new)
        (λ _. IfOk result (λ invalid. invalid ≡ None)) }
    ensures leaves { Leaves (state S.Store conn.old) (state S.Store conn.new) }
    ensures mode { conn.old.in_transaction ≡ false → conn.new.in_transaction ≡ false }
{
    let mut from = 0;
    'chunks: for _ in 0..MAX_CHUNKS {
        match invalid_row_from(conn, from)? {
            (Some(row), _) => return Ok(Some(row)),
            (None, Some(next)) => from = next,
            (None, None) => return Ok(None),
        }
    }
    Ok(None)
}

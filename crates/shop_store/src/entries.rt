//! What is remembered of the entries of tables.

ghost use Rattle.std.specs.Prelude.{◌≡◌, false, IfOk};
ghost use Rattle.std.specs.FinMap.{empty};
ghost use Rattle.sqlite.specs.Held.{state};
ghost use Rattle.shop_records.specs.Content.{Content};
ghost use Rattle.shop_records.specs.Lists.{entries_behind};
ghost use Rattle.shop_statements.specs.Shown.{Leaves, OnBooks};
ghost use Rattle.shop_tables.specs.Changing.{HasTrail};
ghost use Rattle.shop_book.specs.Ends.{AreEnds};
ghost use Rattle.shop_book.specs.FiledEntries.{AreEntriesFiled};
ghost use Rattle.shop_store.specs.Entries.{IsFiledOn, IsFoundOf, IsLastOf, IsNext};
ghost use Rattle.shop_store.specs.Storing.{IsRemembered};

use crate::remembered::Remembered;
use crate::stories::MAX_STEPS;
use shop_book::{JobEnds, NumberIndex};
use shop_tables::{TableFault, entries_after, find_last_entry, invalid_entry, stray_entry};
use sqlite::{Alter, Connection};
use std::alloc::Global;

/// How many entries are read at a time.
const ENTRIES_AT_ONCE: usize = 1000;

/// What is remembered where there is no entry.
pub(crate) fn no_entries(alloc: Global) -> Remembered
    ensures { (m : Content) → m.entries ≡ empty → IsRemembered m result }
{
    Remembered {
        number: 0,
        at: 0,
        ends: JobEnds::new(alloc),
        index: NumberIndex::new(alloc),
    }
}

// Puts the ends of which the next entries behind a number report, files them, and reports behind which number to go on, if there are others.
fn step<S: Alter>(
    alloc: Global,
    conn: &mut Connection<S>,
    at: u64,
    ends: &mut JobEnds,
    index: &mut NumberIndex,
) -> Result<Option<u64>, TableFault>
    ensures ends { OnBooks (state S.Store conn.old) (state S.Store conn.new)
        (λ books. IfOk result (λ next. IsNext books.content ends.old at next ends.new)) }
    ensures filed { OnBooks (state S.Store conn.old) (state S.Store conn.new)
        (λ books. IfOk result (λ next. IsFiledOn books.content index.old at next index.new)) }
    ensures leaves { Leaves (state S.Store conn.old) (state S.Store conn.new) }
    ensures mode { conn.old.in_transaction ≡ false → conn.new.in_transaction ≡ false }
{
    let chunk = entries_after(alloc, conn, at, ENTRIES_AT_ONCE)?;
    let entries = chunk.as_slice();
    let Some(last) = entries.last() else {
        return Ok(None);
    };
    ends.put_all(entries)?;
    index.file_entries(entries)?;
    Ok(Some(last.number))
}

// When jobs were done or broken, and the index, by all entries, which are read once.
fn find_trail<S: Alter>(
    alloc: Global,
    conn: &mut Connection<S>,
) -> Result<(JobEnds, NumberIndex), TableFault>
    ensures ends { OnBooks (state S.Store conn.old) (state S.Store conn.new)
        (λ books. IfOk result (λ found. AreEnds (entries_behind books.content 0) found.0)) }
    ensures filed { OnBooks (state S.Store conn.old) (state S.Store conn.new)
        (λ books. IfOk result (λ found. AreEntriesFiled found.1 (entries_behind books.content 0))) }
    ensures leaves { Leaves (state S.Store conn.old) (state S.Store conn.new) }
    ensures mode { conn.old.in_transaction ≡ false → conn.new.in_transaction ≡ false }
{
    let mut ends = JobEnds::new(alloc);
    let mut index = NumberIndex::new(alloc);
    let mut at = 0;
    'steps: for _ in 0..MAX_STEPS {
        match step(alloc, conn, at, &mut ends, &mut index)? {
            Some(next) => at = next,
            None => return Ok((ends, index)),
        }
    }
    Err(TableFault::NoMemory)
}

// The number and the time of the last entry, 0 and 0 if there is none; None if the entries haven't the numbers from 1 to how
// many there are.
fn find_last<S: Alter>(conn: &mut Connection<S>) -> Result<Option<(u64, u64)>, TableFault>
    ensures last { OnBooks (state S.Store conn.old) (state S.Store conn.new)
        (λ books. HasTrail books → IfOk result (IsLastOf books.content)) }
    ensures leaves { Leaves (state S.Store conn.old) (state S.Store conn.new) }
    ensures mode { conn.old.in_transaction ≡ false → conn.new.in_transaction ≡ false }
{
    let (number, at) = find_last_entry(conn)?;
    match stray_entry(conn, number)? {
        Some(_) => Ok(None),
        None => Ok(Some((number, at))),
    }
}

// What is remembered of the entries; None if they haven't the numbers from 1 to how many there are.
fn read_remembered<S: Alter>(
    alloc: Global,
    conn: &mut Connection<S>,
) -> Result<Option<Remembered>, TableFault>
    ensures found { OnBooks (state S.Store conn.old) (state S.Store conn.new)
        (λ books. HasTrail books → IfOk result (IsFoundOf books.content)) }
    ensures leaves { Leaves (state S.Store conn.old) (state S.Store conn.new) }
    ensures mode { conn.old.in_transaction ≡ false → conn.new.in_transaction ≡ false }
{
    let Some((number, at)) = find_last(conn)? else {
        return Ok(None);
    };
    let (ends, index) = find_trail(alloc, conn)?;
    Ok(Some(Remembered {
        number,
        at,
        ends,
        index,
    }))
}

// What is remembered if the entries couldn't be read because of this fault: None if one of their rows is no entry's.
fn unread<S: Alter>(
    conn: &mut Connection<S>,
    fault: TableFault,
) -> Result<Option<Remembered>, TableFault>
    ensures found { OnBooks (state S.Store conn.old) (state S.Store conn.new)
        (λ _. IfOk result (λ _. ⊥)) }
    ensures leaves { Leaves (state S.Store conn.old) (state S.Store conn.new) }
    ensures mode { conn.old.in_transaction ≡ false → conn.new.in_transaction ≡ false }
{
    match invalid_entry(conn)? {
        Some(_) => Ok(None),
        None => Err(fault),
    }
}

/// What is remembered of the entries; None if they haven't the numbers from 1 to how many there are, or if one of their rows
/// is no entry's.
pub(crate) fn find_remembered<S: Alter>(
    alloc: Global,
    conn: &mut Connection<S>,
) -> Result<Option<Remembered>, TableFault>
    ensures found { OnBooks (state S.Store conn.old) (state S.Store conn.new)
        (λ books. HasTrail books → IfOk result (IsFoundOf books.content)) }
    ensures leaves { Leaves (state S.Store conn.old) (state S.Store conn.new) }
    ensures mode { conn.old.in_transaction ≡ false → conn.new.in_transaction ≡ false }
{
    match read_remembered(alloc, conn) {
        Ok(found) => Ok(found),
        Err(TableFault::NoMemory) => Err(TableFault::NoMemory),
        Err(TableFault::Store) => unread(conn, TableFault::Store),
    }
}

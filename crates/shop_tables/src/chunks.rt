//! The rows of a table some at a time, in the order of their keys, for who reads all of them.

ghost use Rattle.std.specs.Prelude.{◌≡◌, false, map, take, IfOk, IsTrue};
ghost use Rattle.std.specs.FinMap.{values};
ghost use Rattle.std.specs.List.{AllByRecursion};
ghost use Rattle.sqlite.specs.Held.{state};
ghost use Rattle.sqlite.specs.State.{HasCleanDisk};
ghost use Rattle.shop_tables.specs.ListedRows.{listed_begun, listed_demand, listed_entry, listed_job};
ghost use Rattle.shop_tables.specs.RowsFrom.{begun_from, demands_from, entries_from, jobs_from};
ghost use Rattle.shop_statements.specs.Earlier.{OnBooksEarlier, OnBooksSecond};
ghost use Rattle.shop_statements.specs.Shown.{Leaves, OnBooks};
ghost use Rattle.shop_statements.specs.Values.{IsEntryValue};

use crate::invalid::int_in;
use crate::listed_rows::at_most;
use crate::valid_rows::NoRow;
use shop_statements::{TableFault, all_rows};
use sqlite::{Alter, Connection, Row, params};

/// The rows of the first demands from a number on, by rising number: at most so many.
pub fn demand_rows_from<S: Alter>(
    conn: &mut Connection<S>,
    from: usize,
    most: usize,
) -> Result<Vec<Row>, TableFault>
    ensures rows { OnBooks (state S.Store conn.old) (state S.Store conn.new)
        (λ books. IfOk result (λ rows. rows.items
        ≡ map listed_demand (take most (demands_from books.content from)))) }
    ensures earlier { OnBooksEarlier (state S.Store conn.old) (state S.Store conn.new)
        (λ books. IfOk result (λ rows. rows.items
        ≡ map listed_demand (take most (demands_from books.content from)))) }
    ensures second { OnBooksSecond (state S.Store conn.old) (state S.Store conn.new)
        (λ books. IfOk result (λ rows. rows.items
        ≡ map listed_demand (take most (demands_from books.content from)))) }
    ensures was_open { HasCleanDisk (state S.Store conn.new)
        → IfOk result (λ _. IsTrue (state S.Store conn.old).is_open) }
    ensures leaves { Leaves (state S.Store conn.old) (state S.Store conn.new) }
    ensures mode { conn.old.in_transaction ≡ false → conn.new.in_transaction ≡ false }
{
    let first = at_most(from)?;
    let limit = at_most(most)?;
    let rows = all_rows(
        conn,
        "SELECT ord, line, material, w, h, turn, worth, wanted, reserved, made, number FROM demands WHERE number >= ?1 ORDER BY number LIMIT ?2",
        params![&first.rows, &limit.rows],
    )?;
    Ok(rows)
}

/// The rows of the first jobs from a number on, by rising number: at most so many.
pub fn job_rows_from<S: Alter>(
    conn: &mut Connection<S>,
    from: usize,
    most: usize,
) -> Result<Vec<Row>, TableFault>
    ensures rows { OnBooks (state S.Store conn.old) (state S.Store conn.new)
        (λ books. IfOk result (λ rows. rows.items
        ≡ map listed_job (take most (jobs_from books.content from)))) }
    ensures earlier { OnBooksEarlier (state S.Store conn.old) (state S.Store conn.new)
        (λ books. IfOk result (λ rows. rows.items
        ≡ map listed_job (take most (jobs_from books.content from)))) }
    ensures second { OnBooksSecond (state S.Store conn.old) (state S.Store conn.new)
        (λ books. IfOk result (λ rows. rows.items
        ≡ map listed_job (take most (jobs_from books.content from)))) }
    ensures was_open { HasCleanDisk (state S.Store conn.new)
        → IfOk result (λ _. IsTrue (state S.Store conn.old).is_open) }
    ensures leaves { Leaves (state S.Store conn.old) (state S.Store conn.new) }
    ensures mode { conn.old.in_transaction ≡ false → conn.new.in_transaction ≡ false }
{
    let first = at_most(from)?;
    let limit = at_most(most)?;
    let rows = all_rows(
        conn,
        "SELECT part_act, part_node, tree, state, job FROM jobs WHERE job >= ?1 ORDER BY job LIMIT ?2",
        params![&first.rows, &limit.rows],
    )?;
    Ok(rows)
}

/// The rows of the first begun jobs from a number on, by rising number: at most so many. Versions 1 and 2 have
/// no such table.
pub fn begun_rows_from<S: Alter>(
    conn: &mut Connection<S>,
    from: usize,
    most: usize,
) -> Result<Vec<Row>, TableFault>
    ensures rows { OnBooks (state S.Store conn.old) (state S.Store conn.new)
        (λ books. IfOk result (λ rows. rows.items
        ≡ map listed_begun (take most (begun_from books.content from)))) }
    ensures earlier { OnBooksEarlier (state S.Store conn.old) (state S.Store conn.new)
        (λ books. IfOk result (λ _. ⊥)) }
    ensures second { OnBooksSecond (state S.Store conn.old) (state S.Store conn.new)
        (λ books. IfOk result (λ _. ⊥)) }
    ensures was_open { HasCleanDisk (state S.Store conn.new)
        → IfOk result (λ _. IsTrue (state S.Store conn.old).is_open) }
    ensures leaves { Leaves (state S.Store conn.old) (state S.Store conn.new) }
    ensures mode { conn.old.in_transaction ≡ false → conn.new.in_transaction ≡ false }
{
    let first = at_most(from)?;
    let limit = at_most(most)?;
    let rows = all_rows(
        conn,
        "SELECT terminal, job FROM begun WHERE job >= ?1 ORDER BY job LIMIT ?2",
        params![&first.rows, &limit.rows],
    )?;
    Ok(rows)
}

/// The rows of the first entries from a number on, by rising number: at most so many. `read_listed_entry` reads one.
pub fn entry_rows_from<S: Alter>(
    conn: &mut Connection<S>,
    from: usize,
    most: usize,
) -> Result<Vec<Row>, TableFault>
    ensures rows { OnBooks (state S.Store conn.old) (state S.Store conn.new)
        (λ books. IfOk result (λ rows. rows.items
        ≡ map listed_entry (take most (entries_from books.content from)))) }
    ensures noted { OnBooks (state S.Store conn.old) (state S.Store conn.new)
        (λ books. IfOk result
        (λ _. AllByRecursion IsEntryValue (values books.content.entries))) }
    ensures was_open { HasCleanDisk (state S.Store conn.new)
        → IfOk result (λ _. IsTrue (state S.Store conn.old).is_open) }
    ensures leaves { Leaves (state S.Store conn.old) (state S.Store conn.new) }
    ensures mode { conn.old.in_transaction ≡ false → conn.new.in_transaction ≡ false }
{
    let first = at_most(from)?;
    let limit = at_most(most)?;
    let rows = all_rows(
        conn,
        "SELECT at, terminal, number, word, act, job, ord, part_act, part_node, entry FROM journal WHERE entry >= ?1 ORDER BY entry LIMIT ?2",
        params![&first.rows, &limit.rows],
    )?;
    Ok(rows)
}

/// The key of the row of a part that so many others come before, in the order of their names.
pub fn part_key_at<S: Alter>(conn: &mut Connection<S>, before: usize) -> Result<NoRow, TableFault>
    ensures leaves { Leaves (state S.Store conn.old) (state S.Store conn.new) }
    ensures mode { conn.old.in_transaction ≡ false → conn.new.in_transaction ≡ false }
{
    let place = at_most(before)?;
    let rows = all_rows(
        conn,
        "SELECT act, node FROM parts ORDER BY act, node LIMIT 1 OFFSET ?1",
        params![&place.rows],
    )?;
    match rows.first() {
        Some(row) => Ok(NoRow::Part(int_in(row, 0), int_in(row, 1))),
        None => Ok(NoRow::Part(None, None)),
    }
}

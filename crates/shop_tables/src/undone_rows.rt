//! Rows with the states of undone parts and jobs, which came with version 3: a shop of version 1 or 2 has none.

ghost use Rattle.std.specs.Prelude.{◌≡◌, ◌&&◌, false, [], filter, IfOk, IsTrue};
ghost use Rattle.std.specs.Bool.{Decides};
ghost use Rattle.sqlite.specs.Held.{state};
ghost use Rattle.sqlite.specs.State.{HasCleanDisk};
ghost use Rattle.shop_statements.specs.Shown.{Leaves};
ghost use Rattle.shop_tables.specs.Adopting.{HasEarlyTables, HasNoUndone, is_undone_job, is_undone_part};
ghost use Rattle.shop_tables.specs.RowsShown.{SeesCommit};

use shop_statements::all_rows;
use sqlite::{Alter, Connection, Error};

// Whether no row of a part has the state of an undone one.
fn has_no_undone_part<S: Alter>(conn: &mut Connection<S>) -> Result<bool, Error>
    ensures stands { HasCleanDisk (state S.Store conn.new) → HasEarlyTables conn.old.schema
        → IfOk result (λ none. Decides none
        (filter is_undone_part ((state S.Store conn.old).now.trees 4) ≡ [])) }
    ensures was_open { HasCleanDisk (state S.Store conn.new)
        → IfOk result (λ _. IsTrue (state S.Store conn.old).is_open) }
    ensures leaves { Leaves (state S.Store conn.old) (state S.Store conn.new) }
    ensures mode { conn.old.in_transaction ≡ false → conn.new.in_transaction ≡ false }
{
    let rows = all_rows(conn, "SELECT act FROM parts WHERE state = 7 LIMIT 1", &[])?;
    Ok(rows.is_empty())
}

// Whether no row of a job has the state of an undone one.
fn has_no_undone_job<S: Alter>(conn: &mut Connection<S>) -> Result<bool, Error>
    ensures stands { HasCleanDisk (state S.Store conn.new) → HasEarlyTables conn.old.schema
        → IfOk result (λ none. Decides none
        (filter is_undone_job ((state S.Store conn.old).now.trees 6) ≡ [])) }
    ensures was_open { HasCleanDisk (state S.Store conn.new)
        → IfOk result (λ _. IsTrue (state S.Store conn.old).is_open) }
    ensures leaves { Leaves (state S.Store conn.old) (state S.Store conn.new) }
    ensures mode { conn.old.in_transaction ≡ false → conn.new.in_transaction ≡ false }
{
    let rows = all_rows(conn, "SELECT job FROM jobs WHERE state = 4 LIMIT 1", &[])?;
    Ok(rows.is_empty())
}

fn both(one: bool, other: bool) -> bool
    ensures { result ≡ (one && other) }
{
    one && other
}

/// Whether no row of a part or of a job has the state of an undone one.
pub(crate) fn has_none_undone<S: Alter>(conn: &mut Connection<S>) -> Result<bool, Error>
    ensures stands { HasCleanDisk (state S.Store conn.new) → HasEarlyTables conn.old.schema
        → SeesCommit (state S.Store conn.old)
        → IfOk result (λ none. Decides none (HasNoUndone (state S.Store conn.old).now.trees)) }
    ensures was_open { HasCleanDisk (state S.Store conn.new)
        → IfOk result (λ _. IsTrue (state S.Store conn.old).is_open) }
    ensures leaves { Leaves (state S.Store conn.old) (state S.Store conn.new) }
    ensures mode { conn.old.in_transaction ≡ false → conn.new.in_transaction ≡ false }
{
    let no_part = has_no_undone_part(conn)?;
    let no_job = has_no_undone_job(conn)?;
    Ok(both(no_part, no_job))
}

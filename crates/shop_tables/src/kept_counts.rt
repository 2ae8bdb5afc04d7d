//! How many messages, imports and halts are kept.

ghost use Rattle.std.specs.Prelude.{◌≡◌, ◌∷◌, [], false, IfOk};
ghost use Rattle.std.specs.FinMap.{len};
ghost use Rattle.sqlite.specs.Held.{state};
ghost use Rattle.sqlite_sql.specs.Aggregate.{count};
ghost use Rattle.shop_statements.specs.Shown.{Leaves, OnBooks};

use crate::entries::counted;
use shop_statements::{TableFault, all_rows, number_in};
use sqlite::{Alter, Connection, Error, Row};

/// How many messages are kept, as the tables count them: up to 4294967295.
pub fn count_kept<S: Alter>(conn: &mut Connection<S>) -> Result<u32, TableFault>
    ensures leaves { Leaves (state S.Store conn.old) (state S.Store conn.new) }
    ensures mode { conn.old.in_transaction ≡ false → conn.new.in_transaction ≡ false }
{
    let rows = all_rows(conn, "SELECT count(*) FROM kept", &[])?;
    match rows.first() {
        Some(row) => number_in(row, 0),
        None => Err(TableFault::Store),
    }
}

fn kept_rows<S: Alter>(conn: &mut Connection<S>) -> Result<Vec<Row>, Error>
    ensures rows { OnBooks (state S.Store conn.old) (state S.Store conn.new)
        (λ books. IfOk result (λ rows. rows.items
        ≡ (count (len books.content.kept) ∷ []) ∷ [])) }
    ensures leaves { Leaves (state S.Store conn.old) (state S.Store conn.new) }
    ensures mode { conn.old.in_transaction ≡ false → conn.new.in_transaction ≡ false }
{
    all_rows(conn, "SELECT count(*) FROM kept", &[])
}

fn import_rows<S: Alter>(conn: &mut Connection<S>) -> Result<Vec<Row>, Error>
    ensures rows { OnBooks (state S.Store conn.old) (state S.Store conn.new)
        (λ books. IfOk result (λ rows. rows.items
        ≡ (count (len books.content.imports) ∷ []) ∷ [])) }
    ensures leaves { Leaves (state S.Store conn.old) (state S.Store conn.new) }
    ensures mode { conn.old.in_transaction ≡ false → conn.new.in_transaction ≡ false }
{
    all_rows(conn, "SELECT count(*) FROM imports", &[])
}

fn halt_rows<S: Alter>(conn: &mut Connection<S>) -> Result<Vec<Row>, Error>
    ensures rows { OnBooks (state S.Store conn.old) (state S.Store conn.new)
        (λ books. IfOk result (λ rows. rows.items
        ≡ (count (len books.content.halts) ∷ []) ∷ [])) }
    ensures leaves { Leaves (state S.Store conn.old) (state S.Store conn.new) }
    ensures mode { conn.old.in_transaction ≡ false → conn.new.in_transaction ≡ false }
{
    all_rows(conn, "SELECT count(*) FROM halts", &[])
}

// How many imports are kept.
fn count_imports<S: Alter>(conn: &mut Connection<S>) -> Result<u64, TableFault>
    ensures count { OnBooks (state S.Store conn.old) (state S.Store conn.new)
        (λ books. IfOk result (λ number. number ≡ len books.content.imports)) }
    ensures leaves { Leaves (state S.Store conn.old) (state S.Store conn.new) }
    ensures mode { conn.old.in_transaction ≡ false → conn.new.in_transaction ≡ false }
{
    let rows = import_rows(conn)?;
    counted(&rows)
}

// How many messages are kept.
fn count_messages<S: Alter>(conn: &mut Connection<S>) -> Result<u64, TableFault>
    ensures count { OnBooks (state S.Store conn.old) (state S.Store conn.new)
        (λ books. IfOk result (λ number. number ≡ len books.content.kept)) }
    ensures leaves { Leaves (state S.Store conn.old) (state S.Store conn.new) }
    ensures mode { conn.old.in_transaction ≡ false → conn.new.in_transaction ≡ false }
{
    let rows = kept_rows(conn)?;
    counted(&rows)
}

// Of how many jobs it is kept where the work on them halted.
fn count_halts<S: Alter>(conn: &mut Connection<S>) -> Result<u64, TableFault>
    ensures count { OnBooks (state S.Store conn.old) (state S.Store conn.new)
        (λ books. IfOk result (λ number. number ≡ len books.content.halts)) }
    ensures leaves { Leaves (state S.Store conn.old) (state S.Store conn.new) }
    ensures mode { conn.old.in_transaction ≡ false → conn.new.in_transaction ≡ false }
{
    let rows = halt_rows(conn)?;
    counted(&rows)
}

/// How many messages, how many imports and how many halts are kept.
pub fn count_texts<S: Alter>(conn: &mut Connection<S>) -> Result<(u64, u64, u64), TableFault>
    ensures counts { OnBooks (state S.Store conn.old) (state S.Store conn.new)
        (λ books. IfOk result
        (λ counts. (counts.0 ≡ len books.content.kept) × (counts.1 ≡ len books.content.imports)
        × (counts.2 ≡ len books.content.halts))) }
    ensures leaves { Leaves (state S.Store conn.old) (state S.Store conn.new) }
    ensures mode { conn.old.in_transaction ≡ false → conn.new.in_transaction ≡ false }
{
    let messages = count_messages(conn)?;
    let imports = count_imports(conn)?;
    let halts = count_halts(conn)?;
    Ok((messages, imports, halts))
}

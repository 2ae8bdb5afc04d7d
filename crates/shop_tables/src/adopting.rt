//! From a connection to one that holds books.

ghost use Rattle.std.specs.Prelude.{◌≡◌, ◌≢◌, true, false, [], Ok, Err, IfOk, IsTrue, OnOk, OnErr};
ghost use Rattle.sqlite.specs.State.{HasCleanDisk, Survives};
ghost use Rattle.sqlite.specs.Held.{state};
ghost use Rattle.sqlite.specs.Does.{lacks_sequence};
ghost use Rattle.sqlite_catalog.specs.Change.{is_used};
ghost use Rattle.shop_tables.specs.Adopting.{HasEarlyTables, HasNoUndone, HasVersion, HoldsBeside, IsAsBefore, IsVacant, LeavesBooks, StandsBeside, first_are_tables, second_are_tables, last_are_tables, last_are_free, is_table, names_are_free, names_are_tables, names_are_earlier, names_are_second};
ghost use Rattle.shop_statements.specs.Earlier.{HasSomeTables, HoldsEarlier, HoldsSecond, IsSettledEarlier, IsSettledSecond, earlier_schema, second_schema};
ghost use Rattle.shop_statements.specs.Layout.{no_schema, HasShopTables};
ghost use Rattle.shop_statements.specs.Shown.{Books, HasShopSchema, Holds, IsSettled, Leaves, StandsIn, fresh_books};
ghost use Rattle.shop_tables.specs.RowsShown.{SeesCommit};
ghost use Rattle.shop_tables.specs.declared.adopting.Adopted.TheVariants.{Made, Found, Second, Earlier};
ghost use Rattle.shop_tables.specs.declared.adopting.AdoptFault.TheVariants.{WrongVersion};

use crate::invalid::has_number;
use crate::laying::lay_tables;
use crate::old_totals::has_no_old_totals;
use crate::undone_rows::has_none_undone;
use shop_statements::{TableFault, number_row};
use sqlite::{Alter, Connection, Error};
use sqlite_schema::schema::Schema;

/// How a connection was taken over.
#[derive(Clone, Copy, Debug, PartialEq, Eq)]
pub enum Adopted {
    /// The tables of a new shop were made.
    Made,
    /// There were tables of version 3.
    Found,
    /// There are tables of version 2, to which nothing was done yet.
    Second,
    /// There are tables of version 1, to which nothing was done yet.
    Earlier,
}

/// Why a connection wasn't taken over.
#[derive(Clone, Copy, Debug, PartialEq, Eq)]
pub enum AdoptFault {
    /// Memory ran out.
    NoMemory,
    /// The store failed.
    Store,
    /// The database has a table, an index or a view with one of the shop's names, and isn't the shop's.
    WrongVersion,
}

impl From<Error> for AdoptFault {
    ghost use Rattle.shop_statements.specs.Faults.{table_fault};
    ghost use Rattle.shop_tables.specs.Faults.{adopt_fault_of};

    ghost from_gives = { λ error fault. fault ≡ adopt_fault_of (table_fault error) };

    fn from(error: Error) -> AdoptFault {
        match TableFault::from(error) {
            TableFault::NoMemory => AdoptFault::NoMemory,
            TableFault::Store => AdoptFault::Store,
        }
    }
}

fn is_used(schema: &Schema, name: &[u8]) -> bool
    ensures { result ≡ is_used schema.now name.now }
{
    schema.table_named(name).is_some()
        || schema.index_named(name).is_some()
        || schema.view_named(name).is_some()
}

fn is_table(schema: &Schema, name: &[u8]) -> bool
    ensures { result ≡ is_table schema.now name.now }
{
    schema.table_named(name).is_some()
}

// No table, index or view has the name of one that came with version 3.
fn are_last_free(schema: &Schema) -> bool
    ensures { result ≡ last_are_free schema.now }
{
    !is_used(schema, b"journal")
        && (!is_used(schema, b"uses")
            && (!is_used(schema, b"notes")
                && (!is_used(schema, b"begun") && !is_used(schema, b"halts"))))
}

// No table, index or view has a name of ours.
fn are_free(schema: &Schema) -> bool
    ensures { result ≡ names_are_free schema.now }
{
    !is_used(schema, b"meta")
        && (!is_used(schema, b"materials")
            && (!is_used(schema, b"parts")
                && (!is_used(schema, b"jobs")
                    && (!is_used(schema, b"orders")
                        && (!is_used(schema, b"demands")
                            && (!is_used(schema, b"kept")
                                && (!is_used(schema, b"imports")
                                    && (!is_used(schema, b"totals")
                                        && (!is_used(schema, b"totals2")
                                            && are_last_free(schema))))))))))
}

// Each name of version 1 is that of a table.
fn first_are_tables(schema: &Schema) -> bool
    ensures { result ≡ first_are_tables schema.now }
{
    is_table(schema, b"meta")
        && (is_table(schema, b"materials")
            && (is_table(schema, b"parts")
                && (is_table(schema, b"jobs")
                    && (is_table(schema, b"orders")
                        && (is_table(schema, b"demands")
                            && (is_table(schema, b"kept")
                                && (is_table(schema, b"imports")
                                    && is_table(schema, b"totals"))))))))
}

// Each name of version 2 is that of a table.
fn second_are_tables(schema: &Schema) -> bool
    ensures { result ≡ second_are_tables schema.now }
{
    first_are_tables(schema) && is_table(schema, b"totals2")
}

// Each name that came with version 3 is that of a table.
fn last_are_tables(schema: &Schema) -> bool
    ensures { result ≡ last_are_tables schema.now }
{
    is_table(schema, b"journal")
        && (is_table(schema, b"uses")
            && (is_table(schema, b"notes")
                && (is_table(schema, b"begun") && is_table(schema, b"halts"))))
}

// Each name of ours is that of a table.
fn are_tables(schema: &Schema) -> bool
    ensures { result ≡ names_are_tables schema.now }
{
    second_are_tables(schema) && last_are_tables(schema)
}

// Each name of version 1 is that of a table, and those that came later are free.
fn are_earlier(schema: &Schema) -> bool
    ensures { result ≡ names_are_earlier schema.now }
{
    first_are_tables(schema) && (!is_used(schema, b"totals2") && are_last_free(schema))
}

// Each name of version 2 is that of a table, and those that came later are free.
fn are_second(schema: &Schema) -> bool
    ensures { result ≡ names_are_second schema.now }
{
    second_are_tables(schema) && are_last_free(schema)
}

// Over a database in which no name of ours is taken: makes the tables, in one transaction.
fn adopt_new<S: Alter>(conn: &mut Connection<S>) -> Result<Adopted, AdoptFault>
    requires outside { conn.old.in_transaction ≡ false }
    requires settled { IsTrue (state S.Store conn.old).is_open
        → (state S.Store conn.old).now ≡ (state S.Store conn.old).committed }
    ensures mode { conn.new.in_transaction ≡ false }
    ensures earlier { HasCleanDisk (state S.Store conn.new)
        → HasCleanDisk (state S.Store conn.old) }
    ensures fresh { conn.old.schema ≡ no_schema
        → OnOk result (Holds (state S.Store conn.new) fresh_books) }
    ensures vacant { conn.old.schema ≡ no_schema
        → OnErr result (IsVacant (state S.Store conn.new)) }
    ensures crash { conn.old.schema ≡ no_schema
        → Survives (state S.Store conn.old) (state S.Store conn.new)
        (λ db. StandsIn db fresh_books) }
    ensures after { conn.old.schema ≡ no_schema
        → OnOk result (LeavesBooks (state S.Store conn.new) fresh_books) }
    ensures schema { conn.old.schema ≡ no_schema
        → OnOk result (HasShopSchema (state S.Store conn.new)) }
    ensures beside { lacks_sequence conn.old.schema ≡ false
        → OnOk result (HoldsBeside (state S.Store conn.old) (state S.Store conn.new)) }
    ensures undone { OnErr result (IsAsBefore (state S.Store conn.old) (state S.Store conn.new)) }
    ensures beside_crash { lacks_sequence conn.old.schema ≡ false
        → Survives (state S.Store conn.old) (state S.Store conn.new)
        (StandsBeside (state S.Store conn.old).now) }
    ensures only { IfOk result (λ how. how ≡ Made) }
    ensures never { result ≢ Err WrongVersion }
{
    let mut tx = conn.transaction();
    lay_tables(&mut tx)?;
    tx.commit()?;
    Ok(Adopted::Made)
}

// Over tables with the names of a version.
fn adopt_version<S: Alter>(
    conn: &mut Connection<S>,
    version: u32,
    how: Adopted,
) -> Result<Adopted, AdoptFault>
    ensures mode { conn.old.in_transaction ≡ false → conn.new.in_transaction ≡ false }
    ensures only { IfOk result (λ reported. reported ≡ how) }
    ensures leaves { Leaves (state S.Store conn.old) (state S.Store conn.new) }
    ensures three { version ≡ 3 → result ≡ Err WrongVersion → HasCleanDisk (state S.Store conn.new)
        → (b : Books) → Holds (state S.Store conn.old) b → ⊥ }
    ensures two { version ≡ 2 → result ≡ Err WrongVersion → HasCleanDisk (state S.Store conn.new)
        → (b : Books) → HoldsSecond (state S.Store conn.old) b → ⊥ }
    ensures one { version ≡ 1 → result ≡ Err WrongVersion → HasCleanDisk (state S.Store conn.new)
        → (b : Books) → HoldsEarlier (state S.Store conn.old) b → ⊥ }
    ensures named { HasSomeTables conn.old.schema → HasCleanDisk (state S.Store conn.new)
        → OnOk result (HasVersion (state S.Store conn.old) version) }
{
    match number_row(conn, "version")? {
        Some(row) => {
            if has_number(&row, 0, version, version) {
                Ok(how)
            } else {
                Err(AdoptFault::WrongVersion)
            }
        }
        None => Err(AdoptFault::WrongVersion),
    }
}

// Over tables with the names of version 3, in which version 1's totals have no row.
fn adopt_found<S: Alter>(conn: &mut Connection<S>) -> Result<Adopted, AdoptFault>
    ensures mode { conn.old.in_transaction ≡ false → conn.new.in_transaction ≡ false }
    ensures only { IfOk result (λ reported. reported ≡ Found) }
    ensures leaves { Leaves (state S.Store conn.old) (state S.Store conn.new) }
    ensures neither { result ≡ Err WrongVersion → HasCleanDisk (state S.Store conn.new)
        → (b : Books) → Holds (state S.Store conn.old) b → ⊥ }
    ensures named { HasShopTables conn.old.schema → HasCleanDisk (state S.Store conn.new)
        → OnOk result (HasVersion (state S.Store conn.old) 3) }
    ensures no_old_totals { HasShopTables conn.old.schema → HasCleanDisk (state S.Store conn.new)
        → SeesCommit (state S.Store conn.old)
        → OnOk result ((state S.Store conn.old).now.trees 15 ≡ []) }
{
    let how = adopt_version(conn, 3, Adopted::Found)?;
    if has_no_old_totals(conn)? {
        Ok(how)
    } else {
        Err(AdoptFault::WrongVersion)
    }
}

// Over tables with the names of version 2, in which version 1's totals have no row.
fn adopt_totals<S: Alter>(conn: &mut Connection<S>) -> Result<Adopted, AdoptFault>
    ensures mode { conn.old.in_transaction ≡ false → conn.new.in_transaction ≡ false }
    ensures only { IfOk result (λ reported. reported ≡ Second) }
    ensures leaves { Leaves (state S.Store conn.old) (state S.Store conn.new) }
    ensures neither { result ≡ Err WrongVersion → HasCleanDisk (state S.Store conn.new)
        → (b : Books) → HoldsSecond (state S.Store conn.old) b → ⊥ }
    ensures named { conn.old.schema ≡ second_schema → HasCleanDisk (state S.Store conn.new)
        → OnOk result (HasVersion (state S.Store conn.old) 2) }
    ensures no_old_totals { conn.old.schema ≡ second_schema → HasCleanDisk (state S.Store conn.new)
        → SeesCommit (state S.Store conn.old)
        → OnOk result ((state S.Store conn.old).now.trees 15 ≡ []) }
{
    let how = adopt_version(conn, 2, Adopted::Second)?;
    if has_no_old_totals(conn)? {
        Ok(how)
    } else {
        Err(AdoptFault::WrongVersion)
    }
}

// Over tables with the names of version 2 or 1, in which nothing is undone.
fn adopt_early<S: Alter>(conn: &mut Connection<S>, how: Adopted) -> Result<Adopted, AdoptFault>
    ensures mode { conn.old.in_transaction ≡ false → conn.new.in_transaction ≡ false }
    ensures only { IfOk result (λ reported. reported ≡ how) }
    ensures was_open { HasCleanDisk (state S.Store conn.new)
        → OnOk result (IsTrue (state S.Store conn.old).is_open) }
    ensures leaves { Leaves (state S.Store conn.old) (state S.Store conn.new) }
    ensures two { result ≡ Err WrongVersion → HasCleanDisk (state S.Store conn.new)
        → (b : Books) → HoldsSecond (state S.Store conn.old) b → ⊥ }
    ensures one { result ≡ Err WrongVersion → HasCleanDisk (state S.Store conn.new)
        → (b : Books) → HoldsEarlier (state S.Store conn.old) b → ⊥ }
    ensures none { HasEarlyTables conn.old.schema → HasCleanDisk (state S.Store conn.new)
        → SeesCommit (state S.Store conn.old)
        → OnOk result (HasNoUndone (state S.Store conn.old).now.trees) }
{
    if has_none_undone(conn)? {
        Ok(how)
    } else {
        Err(AdoptFault::WrongVersion)
    }
}

// Over tables with the names of version 1, in which nothing is undone.
fn adopt_first<S: Alter>(conn: &mut Connection<S>) -> Result<Adopted, AdoptFault>
    ensures mode { conn.old.in_transaction ≡ false → conn.new.in_transaction ≡ false }
    ensures only { IfOk result (λ reported. reported ≡ Earlier) }
    ensures leaves { Leaves (state S.Store conn.old) (state S.Store conn.new) }
    ensures neither { result ≡ Err WrongVersion → HasCleanDisk (state S.Store conn.new)
        → (b : Books) → HoldsEarlier (state S.Store conn.old) b → ⊥ }
    ensures named { conn.old.schema ≡ earlier_schema → HasCleanDisk (state S.Store conn.new)
        → OnOk result (HasVersion (state S.Store conn.old) 1) }
    ensures no_undone { conn.old.schema ≡ earlier_schema → HasCleanDisk (state S.Store conn.new)
        → SeesCommit (state S.Store conn.old)
        → OnOk result (HasNoUndone (state S.Store conn.old).now.trees) }
{
    let how = adopt_version(conn, 1, Adopted::Earlier)?;
    adopt_early(conn, how)
}

// Over tables with the names of version 2, in which version 1's totals have no row and nothing is undone.
fn adopt_second<S: Alter>(conn: &mut Connection<S>) -> Result<Adopted, AdoptFault>
    ensures mode { conn.old.in_transaction ≡ false → conn.new.in_transaction ≡ false }
    ensures only { IfOk result (λ reported. reported ≡ Second) }
    ensures leaves { Leaves (state S.Store conn.old) (state S.Store conn.new) }
    ensures neither { result ≡ Err WrongVersion → HasCleanDisk (state S.Store conn.new)
        → (b : Books) → HoldsSecond (state S.Store conn.old) b → ⊥ }
    ensures named { conn.old.schema ≡ second_schema → HasCleanDisk (state S.Store conn.new)
        → OnOk result (HasVersion (state S.Store conn.old) 2) }
    ensures no_old_totals { conn.old.schema ≡ second_schema → HasCleanDisk (state S.Store conn.new)
        → SeesCommit (state S.Store conn.old)
        → OnOk result ((state S.Store conn.old).now.trees 15 ≡ []) }
    ensures no_undone { conn.old.schema ≡ second_schema → HasCleanDisk (state S.Store conn.new)
        → SeesCommit (state S.Store conn.old)
        → OnOk result (HasNoUndone (state S.Store conn.old).now.trees) }
{
    let how = adopt_totals(conn)?;
    adopt_early(conn, how)
}

// Over a database in which a name of ours is taken.
fn adopt_taken<S: Alter>(conn: &mut Connection<S>) -> Result<Adopted, AdoptFault>
    requires outside { conn.old.in_transaction ≡ false }
    ensures mode { conn.new.in_transaction ≡ false }
    ensures leaves { Leaves (state S.Store conn.old) (state S.Store conn.new) }
    ensures made { result ≢ Ok Made }
    ensures neither { result ≡ Err WrongVersion → HasCleanDisk (state S.Store conn.new)
        → (b : Books) → IsSettled (state S.Store conn.old) b → ⊥ }
    ensures one { result ≡ Ok Earlier → ¬ HasShopTables conn.old.schema }
    ensures one_only { conn.old.schema ≡ earlier_schema → IfOk result (λ how. how ≡ Earlier) }
    ensures one_neither { result ≡ Err WrongVersion → HasCleanDisk (state S.Store conn.new)
        → (b : Books) → IsSettledEarlier (state S.Store conn.old) b → ⊥ }
    ensures two { result ≡ Ok Second → ¬ HasShopTables conn.old.schema }
    ensures two_only { conn.old.schema ≡ second_schema → IfOk result (λ how. how ≡ Second) }
    ensures two_neither { result ≡ Err WrongVersion → HasCleanDisk (state S.Store conn.new)
        → (b : Books) → IsSettledSecond (state S.Store conn.old) b → ⊥ }
    ensures two_named { conn.old.schema ≡ second_schema → HasCleanDisk (state S.Store conn.new)
        → OnOk result (HasVersion (state S.Store conn.old) 2) }
    ensures two_old_totals { conn.old.schema ≡ second_schema → HasCleanDisk (state S.Store conn.new)
        → SeesCommit (state S.Store conn.old)
        → OnOk result ((state S.Store conn.old).now.trees 15 ≡ []) }
    ensures named { HasShopTables conn.old.schema → HasCleanDisk (state S.Store conn.new)
        → OnOk result (HasVersion (state S.Store conn.old) 3) }
    ensures no_old_totals { HasShopTables conn.old.schema → HasCleanDisk (state S.Store conn.new)
        → SeesCommit (state S.Store conn.old)
        → OnOk result ((state S.Store conn.old).now.trees 15 ≡ []) }
    ensures one_named { conn.old.schema ≡ earlier_schema → HasCleanDisk (state S.Store conn.new)
        → OnOk result (HasVersion (state S.Store conn.old) 1) }
    ensures one_undone { conn.old.schema ≡ earlier_schema → HasCleanDisk (state S.Store conn.new)
        → SeesCommit (state S.Store conn.old)
        → OnOk result (HasNoUndone (state S.Store conn.old).now.trees) }
    ensures two_undone { conn.old.schema ≡ second_schema → HasCleanDisk (state S.Store conn.new)
        → SeesCommit (state S.Store conn.old)
        → OnOk result (HasNoUndone (state S.Store conn.old).now.trees) }
    ensures second_names { names_are_second conn.old.schema ≡ true
        → IfOk result (λ how. how ≡ Second) }
    ensures earlier_names { names_are_earlier conn.old.schema ≡ true
        → IfOk result (λ how. how ≡ Earlier) }
{
    if are_earlier(conn.schema()) {
        return adopt_first(conn);
    }
    if are_second(conn.schema()) {
        return adopt_second(conn);
    }
    if !are_tables(conn.schema()) {
        return Err(AdoptFault::WrongVersion);
    }
    adopt_found(conn)
}

/// Makes the tables where none of their names is taken, in one transaction, goes on with tables of version 3, and returns where
/// there are tables of version 2 or 1. It answers `WrongVersion` where a name is taken and they aren't there, or are of another
/// version, or the totals of version 1 have a row, or tables of version 2 or 1 have an undone part or job, and writes nothing
/// then.
pub fn adopt_tables<S: Alter>(conn: &mut Connection<S>) -> Result<Adopted, AdoptFault>
    requires outside { conn.old.in_transaction ≡ false }
    ensures mode { conn.new.in_transaction ≡ false }
    ensures earlier { HasCleanDisk (state S.Store conn.new)
        → HasCleanDisk (state S.Store conn.old) }
    ensures fresh { conn.old.schema ≡ no_schema
        → OnOk result (Holds (state S.Store conn.new) fresh_books) }
    ensures vacant { conn.old.schema ≡ no_schema
        → OnErr result (IsVacant (state S.Store conn.new)) }
    ensures crash { conn.old.schema ≡ no_schema
        → Survives (state S.Store conn.old) (state S.Store conn.new)
        (λ db. StandsIn db fresh_books) }
    ensures after { conn.old.schema ≡ no_schema
        → OnOk result (LeavesBooks (state S.Store conn.new) fresh_books) }
    ensures schema { conn.old.schema ≡ no_schema
        → OnOk result (HasShopSchema (state S.Store conn.new)) }
    ensures held { (b : Books) → IsSettled (state S.Store conn.old) b
        → Holds (state S.Store conn.new) b }
    ensures made { result ≡ Ok Made → (b : Books) → IsSettled (state S.Store conn.old) b → ⊥ }
    ensures found { result ≡ Ok Found → (conn.old.schema ≢ no_schema)
        × Leaves (state S.Store conn.old) (state S.Store conn.new) }
    ensures still { HasShopTables conn.old.schema
        → Survives (state S.Store conn.old) (state S.Store conn.new) (λ _. ⊥) }
    ensures foreign { result ≡ Err WrongVersion → conn.old.schema ≢ no_schema }
    ensures unwritten { result ≡ Err WrongVersion
        → Leaves (state S.Store conn.old) (state S.Store conn.new) }
    ensures neither { result ≡ Err WrongVersion → HasCleanDisk (state S.Store conn.new)
        → (b : Books) → IsSettled (state S.Store conn.old) b → ⊥ }
    ensures one { result ≡ Ok Earlier → (conn.old.schema ≢ no_schema) × (¬ HasShopTables conn.old.schema)
        × Leaves (state S.Store conn.old) (state S.Store conn.new) }
    ensures one_only { conn.old.schema ≡ earlier_schema → IfOk result (λ how. how ≡ Earlier) }
    ensures one_leaves { conn.old.schema ≡ earlier_schema
        → Leaves (state S.Store conn.old) (state S.Store conn.new) }
    ensures one_neither { result ≡ Err WrongVersion → HasCleanDisk (state S.Store conn.new)
        → (b : Books) → IsSettledEarlier (state S.Store conn.old) b → ⊥ }
    ensures two { result ≡ Ok Second → (conn.old.schema ≢ no_schema) × (¬ HasShopTables conn.old.schema)
        × Leaves (state S.Store conn.old) (state S.Store conn.new) }
    ensures two_leaves { conn.old.schema ≡ second_schema
        → Leaves (state S.Store conn.old) (state S.Store conn.new) }
    ensures two_only { conn.old.schema ≡ second_schema → IfOk result (λ how. how ≡ Second) }
    ensures two_neither { result ≡ Err WrongVersion → HasCleanDisk (state S.Store conn.new)
        → (b : Books) → IsSettledSecond (state S.Store conn.old) b → ⊥ }
    ensures two_named { conn.old.schema ≡ second_schema → HasCleanDisk (state S.Store conn.new)
        → OnOk result (HasVersion (state S.Store conn.old) 2) }
    ensures two_old_totals { conn.old.schema ≡ second_schema → HasCleanDisk (state S.Store conn.new)
        → OnOk result ((state S.Store conn.old).now.trees 15 ≡ []) }
    ensures named { HasShopTables conn.old.schema → HasCleanDisk (state S.Store conn.new)
        → OnOk result (HasVersion (state S.Store conn.old) 3) }
    ensures no_old_totals { HasShopTables conn.old.schema → HasCleanDisk (state S.Store conn.new)
        → OnOk result ((state S.Store conn.old).now.trees 15 ≡ []) }
    ensures one_named { conn.old.schema ≡ earlier_schema → HasCleanDisk (state S.Store conn.new)
        → OnOk result (HasVersion (state S.Store conn.old) 1) }
    ensures one_undone { conn.old.schema ≡ earlier_schema → HasCleanDisk (state S.Store conn.new)
        → OnOk result (HasNoUndone (state S.Store conn.old).now.trees) }
    ensures two_undone { conn.old.schema ≡ second_schema → HasCleanDisk (state S.Store conn.new)
        → OnOk result (HasNoUndone (state S.Store conn.old).now.trees) }
    ensures beside { names_are_free conn.old.schema ≡ true → lacks_sequence conn.old.schema ≡ false
        → OnOk result (HoldsBeside (state S.Store conn.old) (state S.Store conn.new)) }
    ensures undone { OnErr result (IsAsBefore (state S.Store conn.old) (state S.Store conn.new)) }
    ensures beside_crash { lacks_sequence conn.old.schema ≡ false
        → Survives (state S.Store conn.old) (state S.Store conn.new)
        (StandsBeside (state S.Store conn.old).now) }
    ensures free { names_are_free conn.old.schema ≡ true → IfOk result (λ how. how ≡ Made)
        × (result ≢ Err WrongVersion) }
    ensures taken { names_are_free conn.old.schema ≡ false
        → Leaves (state S.Store conn.old) (state S.Store conn.new) }
    ensures second_names { names_are_second conn.old.schema ≡ true
        → IfOk result (λ how. how ≡ Second)
        × Leaves (state S.Store conn.old) (state S.Store conn.new) }
    ensures earlier_names { names_are_earlier conn.old.schema ≡ true
        → IfOk result (λ how. how ≡ Earlier)
        × Leaves (state S.Store conn.old) (state S.Store conn.new) }
    ensures settled { SeesCommit (state S.Store conn.old) }
{
    let _outside = conn.is_autocommit();
    if are_free(conn.schema()) {
        adopt_new(conn)
    } else {
        adopt_taken(conn)
    }
}

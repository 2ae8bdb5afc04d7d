//! Opens and closes the books of store files.

ghost use Rattle.std.specs.Prelude.{◌≡◌, ◌⊎◌, IfOk, IfErr, IfSome};
ghost use Rattle.sqlite_wal.specs.Files.{image_at};
ghost use Rattle.shop_advice.specs.declared.causes.StoreCause.TheVariants as cause;
ghost use Rattle.sqlite.specs.Files.{FailsToClose};
ghost use Rattle.sqlite_store.specs.FileStore.{view};
ghost use Rattle.sqlite_trees.specs.View.{IsClean};
ghost use Rattle.sqlite_wal.specs.Reads.{AreClean};
ghost use Rattle.shop_opening.specs.Causes as causes;
ghost use Rattle.shop_opening.specs.Openings.{AreTablesLeft, IsAdoptFault, IsCodeFault, IsMerged, IsOpenFault, IsLookFault, IsOpenedOn, IsOpening, IsPortLeft};

use crate::before::{Found, LookFault, look_before};
use crate::made::{Made, is_special};
use cut_measure::Code;
use shop_advice::{RowKey, RowName, StoreCause, StoreTable, VersionCause, look_at_store};
use shop_store::{
    BookFault, Loaded, SqlBook, load_earlier_ledger, load_ledger, load_second_ledger,
};
use shop_tables::{NoRow, TableFault, count_entries, invalid_entry, stray_entry};
use sqlite::{
    Alter, Connection, Error, ErrorCode, FileFrom, FileStore, Files, Leftover, Start, Unknown,
};
use sqlite_disk::Disk;
use std::alloc::Global;

/// A book in the SQL tables of files whose contents, before the open, `S` describes.
pub type StoreBook<S> = SqlBook<FileStore<FileFrom<S>>>;

/// Why a store can't be opened.
#[derive(Clone, Copy, Debug, PartialEq)]
pub enum OpenFault {
    /// Memory ran out.
    NoMemory,
    /// It can't be read and written, or isn't a database.
    Store(StoreCause),
    /// Its tables aren't a book's, or are of another version.
    Version(VersionCause),
}

/// How a store is opened.
#[derive(Clone, Copy, Debug)]
pub struct OpenAs {
    /// Whether the store must be there; otherwise a missing one is created.
    pub existing: bool,
    /// Whether its log is merged into it first.
    pub merged: bool,
}

/// Opens the book of a store, once, at a path.
pub trait Opens<B>: Drop {
    ghost use Rattle.std.specs.Prelude.{◌≡◌, List, Result, ℕ};
    ghost use Rattle.shop_opening.specs.declared.stores.OpenFault.{OpenFault as OpenFaultOf};

    /// An open of this path may return this: a book, or the error.
    ghost gives: { Self → List ℕ → Result B OpenFaultOf → Type 0 };

    /// Opens a store's book. After an `Ok`, `made` reports which of its files were created for it.
    ///
    /// `NoMemory`: memory ran out. `Store`: the store can't be read and written, is in use, isn't a database, or has
    /// files that no crash leaves. `Version`: it has other tables under a book's names, or those of another version.
    /// After `Store` and `Version` a store is as it was. A store that was created for a failed call is removed.
    fn open(self, alloc: Global, path: &str, how: OpenAs, made: &mut Made) -> Result<B, OpenFault>
        ensures { gives self path.now result };

    /// Closes a store. Accepted messages are in it before.
    fn close(book: B);
}

// Why a store is no database, where its bytes or its rows are none.
fn damage(rt: &HostRuntime, alloc: Global, path: &str) -> StoreCause
    ensures { (result ≡ cause.NoDatabase) ⊎ (result ≡ cause.Damaged) }
{
    match look_at_store(rt, alloc, path) {
        StoreCause::NoDatabase => StoreCause::NoDatabase,
        _ => StoreCause::Damaged,
    }
}

// Why a store can't be opened, where the port doesn't report.
fn other_cause(rt: &HostRuntime, alloc: Global, path: &str) -> StoreCause {
    if is_special(path) {
        StoreCause::NotPlain
    } else {
        look_at_store(rt, alloc, path)
    }
}

// What a refusal of the port with this code is.
fn code_fault(rt: &HostRuntime, alloc: Global, path: &str, code: ErrorCode) -> OpenFault
    ensures { IsCodeFault code result }
{
    match code {
        ErrorCode::OutOfMemory => OpenFault::NoMemory,
        ErrorCode::DatabaseBusy => OpenFault::Store(StoreCause::InUse),
        ErrorCode::DiskFull => OpenFault::Store(StoreCause::Full),
        ErrorCode::NotADatabase => OpenFault::Store(damage(rt, alloc, path)),
        ErrorCode::DatabaseCorrupt => OpenFault::Store(damage(rt, alloc, path)),
        _ => OpenFault::Store(other_cause(rt, alloc, path)),
    }
}

// What a refusal of the port is.
fn open_fault(rt: &HostRuntime, alloc: Global, path: &str, error: Error) -> OpenFault
    ensures { IsOpenFault error result }
{
    match error {
        Error::SqliteFailure(code) => code_fault(rt, alloc, path, code),
        _ => OpenFault::Store(other_cause(rt, alloc, path)),
    }
}

// The version that the tables of a database say, where they say one.
fn version_of<S: Alter>(conn: &mut Connection<S>) -> Option<i64> {
    match conn.query_row("SELECT value FROM meta WHERE name = 'version'", &[]) {
        Ok(row) => row.get(0).ok(),
        Err(_) => None,
    }
}

// A key that is a number.
fn number_key(number: Option<i64>) -> RowKey
    ensures { result ≡ causes.number_key number }
{
    match number {
        Some(number) => RowKey::Number(number),
        None => RowKey::Unknown,
    }
}

// A key that is a code.
fn code_key(code: Option<Code>) -> RowKey
    ensures { result ≡ causes.code_key code }
{
    match code {
        Some(code) => RowKey::Code(code),
        None => RowKey::Unknown,
    }
}

// A key that is an act and a node.
fn part_key(act: Option<i64>, node: Option<i64>) -> RowKey
    ensures { result ≡ causes.part_key act node }
{
    let Some(act) = act else {
        return RowKey::Unknown;
    };
    match node {
        Some(node) => RowKey::Part(act, node),
        None => RowKey::Unknown,
    }
}

// Which row stands for nothing.
fn row_name(row: NoRow) -> RowName
    ensures { result ≡ causes.row_name row }
{
    match row {
        NoRow::Material(code) => RowName {
            table: StoreTable::Materials,
            key: code_key(code),
        },
        NoRow::Part(act, node) => RowName {
            table: StoreTable::Parts,
            key: part_key(act, node),
        },
        NoRow::Job(number) => RowName {
            table: StoreTable::Jobs,
            key: number_key(number),
        },
        NoRow::Order(code) => RowName {
            table: StoreTable::Orders,
            key: code_key(code),
        },
        NoRow::Demand(number) => RowName {
            table: StoreTable::Demands,
            key: number_key(number),
        },
        NoRow::Entry(number) => RowName {
            table: StoreTable::Journal,
            key: number_key(number),
        },
        NoRow::Begun(number) => RowName {
            table: StoreTable::Begun,
            key: number_key(number),
        },
        NoRow::Note(code) => RowName {
            table: StoreTable::Notes,
            key: code_key(code),
        },
    }
}

// What is wrong in tables of a known version, which were read once more for it.
fn contradiction(loaded: &Result<Loaded, TableFault>) -> VersionCause
    ensures { result ≡ causes.contradiction_of loaded.now }
{
    match loaded {
        Ok(Loaded::NoRow(row)) => VersionCause::Row(row_name(*row)),
        _ => VersionCause::Contradicting,
    }
}

// What is wrong in tables of version 3, entries aside.
fn contradiction_in<S: Alter>(alloc: Global, conn: &mut Connection<S>) -> VersionCause {
    let loaded = load_ledger(alloc, conn);
    contradiction(&loaded)
}

// What is wrong in entries where this one stands for nothing, if any does.
fn stray_cause(row: Option<NoRow>) -> VersionCause
    ensures { result ≡ causes.stray_of row }
{
    match row {
        Some(row) => VersionCause::Row(row_name(row)),
        None => VersionCause::Contradicting,
    }
}

// The row of an entry of version 3 whose number isn't one of those from 1 to how many there are, if there is one.
fn stray_of<S: Alter>(conn: &mut Connection<S>) -> Option<NoRow> {
    let count = count_entries(conn).ok()?;
    stray_entry(conn, count).ok()?
}

// The first of two rows of entries, as far as there are such rows.
fn first_row(stray: Option<NoRow>, invalid: Option<NoRow>) -> Option<NoRow> {
    match (stray, invalid) {
        (Some(NoRow::Entry(Some(outside))), Some(NoRow::Entry(Some(inside)))) if inside < outside =>
            invalid,
        (Some(row), _) => Some(row),
        (None, _) => invalid,
    }
}

// What is wrong in the entries of version 3.
fn stray_in<S: Alter>(conn: &mut Connection<S>) -> VersionCause {
    let stray = stray_of(conn);
    match invalid_entry(conn) {
        Ok(invalid) => stray_cause(first_row(stray, invalid)),
        Err(_) => stray_cause(stray),
    }
}

// What is wrong in tables of version 3.
fn last_contradiction_in<S: Alter>(alloc: Global, conn: &mut Connection<S>) -> VersionCause {
    match contradiction_in(alloc, conn) {
        VersionCause::Contradicting => stray_in(conn),
        cause => cause,
    }
}

// What is wrong in tables of version 2.
fn second_contradiction_in<S: Alter>(alloc: Global, conn: &mut Connection<S>) -> VersionCause {
    let loaded = load_second_ledger(alloc, conn);
    contradiction(&loaded)
}

// What is wrong in tables of version 1.
fn earlier_contradiction_in<S: Alter>(alloc: Global, conn: &mut Connection<S>) -> VersionCause {
    let loaded = load_earlier_ledger(alloc, conn);
    contradiction(&loaded)
}

// Why a database isn't taken over.
fn foreign_cause<S: Alter>(alloc: Global, conn: &mut Connection<S>) -> VersionCause {
    match version_of(conn) {
        Some(version) if version > 3 => VersionCause::Newer,
        Some(3) => last_contradiction_in(alloc, conn),
        Some(2) => second_contradiction_in(alloc, conn),
        Some(1) => earlier_contradiction_in(alloc, conn),
        _ => VersionCause::Foreign,
    }
}

// Why the store of a database that was opened can't be read and written.
fn failure_of<D: Disk + Drop>(store: FileStore<D>) -> StoreCause
    ensures { (result ≡ cause.Full) ⊎ (result ≡ cause.Damaged) }
{
    if store.tally().refused > 0 {
        StoreCause::Full
    } else {
        StoreCause::Damaged
    }
}

/// The error for a database that couldn't be taken over.
pub(crate) fn adopt_fault<D: Disk + Drop>(
    alloc: Global,
    fault: BookFault,
    mut conn: Connection<FileStore<D>>,
) -> OpenFault
    ensures { IsAdoptFault fault result }
{
    match fault {
        BookFault::NoMemory => OpenFault::NoMemory,
        BookFault::Store => OpenFault::Store(failure_of(conn.into_store())),
        BookFault::WrongVersion => OpenFault::Version(foreign_cause(alloc, &mut conn)),
    }
}

// Why there is no book: the tables weren't taken over, with the connection that is left; or the port refused the files, with
// what is left of them, where they were opened.
type Unopened<S> = Result<
    (BookFault, Connection<FileStore<FileFrom<S>>>),
    (Error, Option<Leftover<FileFrom<S>>>),
>;

// Opens the files of a store, and takes their tables over. `start` stands for what the files held.
fn open_book<S: Start>(
    rt: &HostRuntime,
    alloc: Global,
    path: &str,
    start: S,
) -> Result<StoreBook<S>, Unopened<S>>
    ensures opened { IfOk result
        (λ book. IsOpenedOn (image_at S.Start) book.storage.conn book.storage.remembered book.ledger book.failures) }
    ensures tables { IfErr result (λ why. IfOk why
        (λ back. AreTablesLeft (image_at S.Start) back.0 back.1)) }
    ensures port { IfErr result (λ why. IfErr why
        (λ back. IfSome back.1 (IsPortLeft (image_at S.Start) back.0))) }
{
    let conn = match Connection::open_from(rt, path, false, start) {
        Ok(conn) => conn,
        Err((error, left)) => return Err(Err((error, left))),
    };
    match SqlBook::adopt(alloc, conn) {
        Ok(book) => Ok(book),
        Err((fault, last)) => Err(Ok((fault, last))),
    }
}

// Takes away what was made of a store that the port refused. As long as its files are open, no other program has them.
fn take_back(rt: &HostRuntime, alloc: Global, path: &str, made: Made, is_open: bool) {
    if is_open {
        made.take_away(rt, alloc, path);
    } else {
        made.take_empty(rt, alloc, path);
    }
}

// Opens the book of a store file that was looked at, of which these files were made for it.
fn open_looked<S: Start>(
    rt: &HostRuntime,
    alloc: Global,
    path: &str,
    start: S,
    made: Made,
) -> Result<StoreBook<S>, OpenFault>
    ensures { IsOpening (image_at S.Start) result }
{
    match open_book(rt, alloc, path, start) {
        Ok(book) => Ok(book),
        Err(Ok((fault, conn))) => {
            // As long as the files are open, no other program has them.
            made.take_away(rt, alloc, path);
            Err(adopt_fault(alloc, fault, conn))
        }
        Err(Err((error, left))) => {
            let fault = open_fault(rt, alloc, path, error);
            take_back(rt, alloc, path, made, left.is_some());
            Err(fault)
        }
    }
}

// Makes the files of a store, and opens its book.
fn open_new<S: Start>(
    rt: &HostRuntime,
    alloc: Global,
    path: &str,
    start: S,
    made: &mut Made,
) -> Result<StoreBook<S>, OpenFault>
    ensures { IsOpening (image_at S.Start) result }
{
    match Made::make(rt, alloc, path) {
        Ok(files) => {
            *made = files;
            open_looked(rt, alloc, path, start, files)
        }
        Err(fault) => Err(look_fault(fault)),
    }
}

// Closes the files of a book: its log is copied into the store's file.
fn close_files<D: Disk + Drop>(
    book: SqlBook<FileStore<D>>,
) -> Result<Files<D>, (Error, FileStore<D>)>
    ensures ok { IfOk result (λ files. AreClean D.Disk files.log files.db
        → IsMerged book.storage.conn files) }
    ensures err { IfErr result (λ e. IsClean (view e.1)
        → FailsToClose book.storage.conn e.1 e.0) }
{
    let conn = book.into_connection();
    conn.close_files()
}

// Copies the log of a store into its file, where it opens as a book. What stands in the way the next open reports.
fn merge(rt: &HostRuntime, alloc: Global, path: &str) {
    if let Ok(book) = open_looked(rt, alloc, path, Unknown, Made::nothing()) {
        drop(close_files(book));
    }
}

/// The result of a look, as the error of an open.
pub(crate) fn look_fault(fault: LookFault) -> OpenFault
    ensures { IsLookFault result }
{
    match fault {
        LookFault::NoMemory => OpenFault::NoMemory,
        LookFault::Store(cause) => OpenFault::Store(cause),
    }
}

// Opens the book of a store file that is there, once it was merged, where it is to be.
fn open_there<S: Start>(
    rt: &HostRuntime,
    alloc: Global,
    path: &str,
    merged: bool,
    start: S,
) -> Result<StoreBook<S>, OpenFault>
    ensures { IsOpening (image_at S.Start) result }
{
    if merged {
        merge(rt, alloc, path);
    }
    open_looked(rt, alloc, path, start, Made::nothing())
}

/// Opens the book of a store file. `start` stands for what the files held, once they were looked at and merged. `made`
/// then reports which files were created for it.
pub fn open_file<S: Start>(
    rt: &HostRuntime,
    alloc: Global,
    path: &str,
    how: OpenAs,
    start: S,
    made: &mut Made,
) -> Result<StoreBook<S>, OpenFault>
    ensures { IsOpening (image_at S.Start) result }
{
    match look_before(rt, alloc, path, how.existing) {
        Ok(Found::Nothing) => open_new(rt, alloc, path, start, made),
        Ok(found) => {
            let merged = how.merged && found == Found::Commits;
            open_there(rt, alloc, path, merged, start)
        }
        Err(fault) => Err(look_fault(fault)),
    }
}

/// Opens the book of one store file. `S` stands for what the files held before. The open consumes `start`, so no second
/// store is opened under the same `S`.
#[derive(Drop)]
pub struct Opener<'a, S: Start> {
    rt: &'a HostRuntime,
    start: S,
}

impl<'a, S: Start> Opener<'a, S> {
    /// It opens at the path that `open` is given.
    pub fn new(rt: &'a HostRuntime, start: S) -> Opener<'a, S> {
        Opener { rt, start }
    }
}

impl<'a, S: Start> Opens<StoreBook<S>> for Opener<'a, S> {
    ghost use Rattle.sqlite_wal.specs.Files.{image_at};
    ghost use Rattle.shop_opening.specs.Openings.{IsOpening};

    ghost gives = { λ _ _ result. IsOpening (image_at S.Start) result };

    fn open(
        self,
        alloc: Global,
        path: &str,
        how: OpenAs,
        made: &mut Made,
    ) -> Result<StoreBook<S>, OpenFault> {
        let Opener { rt, start } = self;
        open_file(rt, alloc, path, how, start, made)
    }

    fn close(book: StoreBook<S>) {
        drop(close_files(book));
    }
}

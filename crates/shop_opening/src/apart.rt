//! The book of a store that is read into memory and opened there, so that its files don't change by a byte.

ghost use Rattle.std.specs.Prelude.{◌≡◌, IfOk, IsTrue};
ghost use Rattle.sqlite.specs.Files.{image_of};
ghost use Rattle.sqlite_disk.specs.Memory.{memory_bytes, memory_is_usable};
ghost use Rattle.shop_opening.specs.Openings.{IsBookApart, IsOpenedOn, pair_image};

use crate::before::{
    Head, LookFault, content_of, head_of, if_there, is_bound_in, is_hot, lock_alone, look_at_log,
    look_before_apart, look_without_log, looked, memory_of, open_alone, refused, rows_in,
};
use crate::made::Made;
use crate::stores::{OpenAs, OpenFault, Opens, adopt_fault, look_fault};
use os::RangeLock;
use shop_advice::{StoreCause, VersionCause};
use shop_book::{Book, Ledger};
use shop_store::SqlBook;
use sqlite::{Connection, Error, ErrorCode, FileStore, Files, Options};
use sqlite_disk::{Disk, Memory};
use std::alloc::{AllocError, Global};
use std::fs::{self, File};

/// A book over copies of a store's files in memory.
pub type ApartBook = SqlBook<FileStore<Memory>>;

/// The bytes of both files of a store, as they were read.
#[derive(Drop)]
pub struct Pair {
    pub store: Vec<u8>,
    pub log: Vec<u8>,
}

// What the log of a store with this head holds: nothing, where there is none, and the store has no byte.
fn log_of(rt: &HostRuntime, alloc: Global, path: &str, head: &Head) -> Result<Vec<u8>, LookFault> {
    let name = format!(in alloc; "{path}-wal")?;
    match if_there(fs::symlink_metadata(rt, name.as_str()))? {
        Some(it) if it.is_file() => {
            let log = content_of(rt, name.as_str())?;
            look_at_log(head, &log)?;
            Ok(log)
        }
        Some(_) => refused(StoreCause::NotPlain),
        None => {
            look_without_log(head)?;
            Ok(Vec::new(alloc))
        }
    }
}

// Reads both files of a store that is open, and locked.
fn read_locked(
    rt: &HostRuntime,
    alloc: Global,
    path: &str,
    file: &mut File,
    length: u64,
) -> Result<Pair, LookFault> {
    let head = head_of(file, length)?;
    if head.is_other() {
        return refused(StoreCause::OtherForm);
    }
    let log = log_of(rt, alloc, path, &head)?;
    let store = content_of(rt, path)?;
    if is_bound_in(alloc, &log, &store)? {
        return refused(StoreCause::Bound);
    }
    Ok(Pair { store, log })
}

// Opens a store's file that no other program has open: where this account may write it, not even one that reads; nothing is written.
fn open_quietly(rt: &HostRuntime, path: &str) -> Result<File, LookFault> {
    match open_alone(rt, path) {
        Err(LookFault::Store(StoreCause::NotAllowed | StoreCause::ReadOnly)) => {
            lock_alone(looked(File::open(rt, path))?, RangeLock::Shared)
        }
        opened => opened,
    }
}

// Opens a store's file for reading, and reads both files.
fn read_plain(rt: &HostRuntime, alloc: Global, path: &str, length: u64) -> Result<Pair, LookFault> {
    let journal = format!(in alloc; "{path}-journal")?;
    if is_hot(rt, journal.as_str())? {
        return refused(StoreCause::Journal);
    }
    let mut file = open_quietly(rt, path)?;
    read_locked(rt, alloc, path, &mut file, length)
}

// Reads both files of a store under the name to which no link leads any more.
fn read_at(rt: &HostRuntime, alloc: Global, path: &str) -> Result<Pair, LookFault> {
    match looked(fs::metadata(rt, path))? {
        it if it.is_file() => read_plain(rt, alloc, path, it.len()),
        it if it.is_dir() => refused(StoreCause::Folder),
        _ => refused(StoreCause::NotPlain),
    }
}

fn read_named(rt: &HostRuntime, alloc: Global, path: &str) -> Result<Pair, LookFault> {
    let real = look_before_apart(rt, alloc, path)?;
    read_at(rt, alloc, real.as_str())
}

/// Reads both files of a store, and changes neither. A store with 0 bytes may have no log.
///
/// `NoMemory`: memory ran out. `Store`: the store isn't there, another program has it open, it can't be read, or it has
/// files that no crash leaves.
pub fn read_pair(rt: &HostRuntime, alloc: Global, path: &str) -> Result<Pair, OpenFault> {
    match read_named(rt, alloc, path) {
        Ok(pair) => Ok(pair),
        Err(fault) => Err(look_fault(fault)),
    }
}

// What a refusal of the port is. A file in memory fails because memory ran out alone.
fn apart_fault(error: Error, is_database: bool) -> OpenFault {
    match error {
        Error::SqliteFailure(ErrorCode::OutOfMemory | ErrorCode::SystemIoFailure) => {
            OpenFault::NoMemory
        }
        Error::SqliteFailure(ErrorCode::NotADatabase | ErrorCode::DatabaseCorrupt) => {
            if is_database {
                OpenFault::Store(StoreCause::Damaged)
            } else {
                OpenFault::Store(StoreCause::NoDatabase)
            }
        }
        _ => OpenFault::Store(StoreCause::Failed),
    }
}

// Opens files, and takes their tables over.
fn open_over<D: Disk + Drop>(
    alloc: Global,
    files: Files<D>,
    is_database: bool,
) -> Result<SqlBook<FileStore<D>>, OpenFault>
    requires log { IsTrue (D.Disk.is_usable files.log) }
    requires db { IsTrue (D.Disk.is_usable files.db) }
    ensures { IfOk result (λ book. IsOpenedOn (image_of D.Disk files) book.storage.conn
        book.storage.remembered book.ledger book.failures) }
{
    let conn = match Connection::open_files(alloc, files, Options::new(1)) {
        Ok(conn) => conn,
        Err((error, _left)) => return Err(apart_fault(error, is_database)),
    };
    match SqlBook::adopt(alloc, conn) {
        Ok(book) => Ok(book),
        Err((fault, last)) => Err(adopt_fault(alloc, fault, last)),
    }
}

// Files in memory that hold a pair.
fn files_of(alloc: Global, pair: &Pair) -> Result<Files<Memory>, AllocError>
    ensures log { IfOk result (λ files. IsTrue (memory_is_usable files.log)) }
    ensures db { IfOk result (λ files. IsTrue (memory_is_usable files.db)) }
    ensures logged { IfOk result (λ files. memory_bytes files.log ≡ pair.now.log.items) }
    ensures stored { IfOk result (λ files. memory_bytes files.db ≡ pair.now.store.items) }
{
    let log = memory_of(alloc, &pair.log)?;
    let db = memory_of(alloc, &pair.store)?;
    Ok(Files { log, db })
}

/// Opens the book of a pair of files that were read, in memory, where tables of version 1 or 2 become tables of version
/// 3.
///
/// `NoMemory`: memory ran out. `Store`: it isn't a database. `Version`: it has other tables under a book's names, or
/// those of another version.
pub fn open_pair(alloc: Global, pair: &Pair) -> Result<ApartBook, OpenFault>
    ensures { IfOk result (λ book. IsOpenedOn (pair_image pair.now.log.items pair.now.store.items)
        book.storage.conn book.storage.remembered book.ledger book.failures) }
{
    let is_database = pair.store.starts_with(b"SQLite format 3\0");
    match files_of(alloc, pair) {
        Ok(files) => open_over(alloc, files, is_database),
        Err(_) => Err(OpenFault::NoMemory),
    }
}

// Whether a database in memory has none of a shop's tables. Of one that can't be opened the open reports why.
fn is_foreign(alloc: Global, pair: &Pair) -> Result<bool, AllocError> {
    let files = files_of(alloc, pair)?;
    let sql = "SELECT name FROM sqlite_master WHERE name = 'meta'";
    match rows_in(alloc, files, sql)? {
        Some(rows) => Ok(rows.is_empty()),
        None => Ok(false),
    }
}

// Whether a book may be one over a database without a shop's tables: it has no row, or there is none.
fn may_be_foreign(alloc: Global, opened: &Result<ApartBook, OpenFault>) -> bool {
    match opened {
        Ok(book) => book.rows().has_rows_of(&Ledger::new(alloc)),
        Err(_) => true,
    }
}

// Opens the book of a pair in memory, which has a shop's tables where it has to. The port checks each row of a database that it
// opens, so a database is opened a second time only where it may be a foreign one.
fn open_shop(alloc: Global, pair: &Pair, existing: bool) -> Result<ApartBook, OpenFault>
    ensures { IfOk result (λ book. IsOpenedOn (pair_image pair.now.log.items pair.now.store.items)
        book.storage.conn book.storage.remembered book.ledger book.failures) }
{
    let opened = open_pair(alloc, pair);
    if !existing || !may_be_foreign(alloc, &opened) {
        return opened;
    }
    match is_foreign(alloc, pair) {
        Ok(true) => Err(OpenFault::Version(VersionCause::Foreign)),
        Ok(false) => opened,
        Err(_) => Err(OpenFault::NoMemory),
    }
}

/// Opens the book of a store in memory, and changes neither of its files: `read_pair`, then `open_pair`. With
/// `existing` a database that has no table of a shop is `Version`.
pub fn read_apart(
    rt: &HostRuntime,
    alloc: Global,
    path: &str,
    existing: bool,
) -> Result<ApartBook, OpenFault>
    ensures { IfOk result (λ book. IsBookApart book.storage.conn book.storage.remembered book.ledger book.failures) }
{
    match read_pair(rt, alloc, path) {
        Ok(pair) => open_shop(alloc, &pair, existing),
        Err(fault) => Err(fault),
    }
}

/// Opens the book of one store in memory, and only reads its files. The store must be there (with a shop's tables, if
/// it has to exist), and is never merged.
#[derive(Drop)]
pub struct ApartOpener<'a> {
    rt: &'a HostRuntime,
}

impl<'a> ApartOpener<'a> {
    /// It reads at the path that `open` is given.
    pub fn new(rt: &'a HostRuntime) -> ApartOpener<'a> {
        ApartOpener { rt }
    }
}

impl<'a> Opens<ApartBook> for ApartOpener<'a> {
    ghost use Rattle.std.specs.Prelude.{IfOk};
    ghost use Rattle.shop_opening.specs.Openings.{IsBookApart};

    ghost gives = { λ _ _ result. IfOk result (λ book. IsBookApart book.storage.conn book.storage.remembered book.ledger book.failures) };

    fn open(
        self,
        alloc: Global,
        path: &str,
        how: OpenAs,
        _made: &mut Made,
    ) -> Result<ApartBook, OpenFault> {
        let ApartOpener { rt } = self;
        read_apart(rt, alloc, path, how.existing)
    }

    fn close(_book: ApartBook) {}
}

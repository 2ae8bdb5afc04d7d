//! What is checked before a store is opened. Its files are only read.

ghost use Rattle.std.specs.Prelude.{◌≡◌, IfOk, IsTrue};
ghost use Rattle.sqlite_disk.specs.Memory.{memory_bytes, memory_is_usable};

use crate::logs::{LogState, log_state};
use os::RangeLock;
use shop_advice::{StoreCause, kind_cause};
use sqlite::{Connection, Error, ErrorCode, Files, Options, Row};
use sqlite_disk::{Disk, Memory};
use sqlite_schema::names::same_name;
use std::alloc::{AllocError, Global};
use std::fs::{self, File, OpenOptions};
use std::io::{self, ErrorKind, Read};
use std::os::fd::AsRawFd;
use std::path::PathBuf;

// The first bytes of a database of SQLite, and the length of its head.
const MAGIC: [u8; 16] = *b"SQLite format 3\0";

const HEAD: usize = 100;

// The tables of a shop, of each version.
const TABLES: [&str; 15] = [
    "meta",
    "materials",
    "parts",
    "jobs",
    "orders",
    "demands",
    "kept",
    "imports",
    "totals",
    "totals2",
    "journal",
    "uses",
    "notes",
    "begun",
    "halts",
];

/// Why a store mustn't be opened.
#[derive(Clone, Copy, Debug)]
pub(crate) enum LookFault {
    /// Memory ran out.
    NoMemory,
    Store(StoreCause),
}

/// What has the name of a store.
#[derive(Clone, Copy, Debug, PartialEq, Eq)]
pub(crate) enum Found {
    /// Nothing, so the store is to be created.
    Nothing,
    /// A file, or something that the open refuses. Its log has no commit to take.
    Files,
    /// A file, and its log has commits.
    Commits,
}

impl From<AllocError> for LookFault {
    fn from(_error: AllocError) -> LookFault {
        LookFault::NoMemory
    }
}

// The head of a store, or what there is of it, and its length.
#[derive(Clone, Copy)]
pub(crate) struct Head {
    bytes: [u8; HEAD],
    length: u64,
}

impl Head {
    fn is_database(&self) -> bool {
        self.length >= HEAD as u64 && self.bytes.starts_with(&MAGIC)
    }

    // Whether the store has no first byte yet, as one that is being made.
    fn is_begun(&self) -> bool {
        self.length == 1 || (self.length > 1 && self.bytes[0] == 0)
    }

    // Whether it is a database with reserved bytes, with auto_vacuum, or in UTF-16. Three bytes of a head are always the same.
    pub(crate) fn is_other(&self) -> bool {
        self.is_database()
            && self.bytes[21..24] == [64, 32, 32]
            && (self.bytes[20] != 0
                || self.bytes[52..56] != [0, 0, 0, 0]
                || self.bytes[56..60] == [0, 0, 0, 2]
                || self.bytes[56..60] == [0, 0, 0, 3])
    }
}

/// The system's error, as one of a store.
pub(crate) fn kind_fault(kind: ErrorKind) -> LookFault {
    match kind {
        ErrorKind::OutOfMemory => LookFault::NoMemory,
        kind => LookFault::Store(kind_cause(kind)),
    }
}

pub(crate) fn refused<T>(cause: StoreCause) -> Result<T, LookFault> {
    Err(LookFault::Store(cause))
}

/// What the system answered. If a store can't be looked at it isn't opened, since it may be one that has to be refused.
pub(crate) fn looked<T>(answer: io::Result<T>) -> Result<T, LookFault> {
    match answer {
        Ok(found) => Ok(found),
        Err(error) => Err(kind_fault(error.kind())),
    }
}

/// What the system found under a name, or none if nothing has it.
pub(crate) fn if_there<T>(answer: io::Result<T>) -> Result<Option<T>, LookFault> {
    match answer {
        Ok(found) => Ok(Some(found)),
        Err(error) if error.kind() == ErrorKind::NotFound => Ok(None),
        Err(error) => Err(kind_fault(error.kind())),
    }
}

/// Opens a store's file alone, as an open by the port does.
pub(crate) fn open_alone(rt: &HostRuntime, path: &str) -> Result<File, LookFault> {
    let file = looked(OpenOptions::new().read(true).write(true).open(rt, path))?;
    lock_alone(file, RangeLock::Exclusive)
}

// Locks a store's file as long as it is open, as SQLite and the port do. Another program that looks at it has it open, too: what it
// refuses isn't to be opened behind its back.
pub(crate) fn lock_alone(file: File, lock: RangeLock) -> Result<File, LookFault> {
    if os::try_lock_range(file.as_raw_fd(), lock, 1 << 30, 512) == 0 {
        return Ok(file);
    }
    match io::Error::from_raw_os_error(os::errno()).kind() {
        ErrorKind::WouldBlock => refused(StoreCause::InUse),
        kind => Err(kind_fault(kind)),
    }
}

// The head of a file of this length.
pub(crate) fn head_of(file: &mut File, length: u64) -> Result<Head, LookFault> {
    let mut bytes = [0u8; HEAD];
    let _count = looked(file.read(&mut bytes))?;
    Ok(Head { bytes, length })
}

// How many letters of a word were found, once this byte was read behind so many of them. No letter of it is its first again.
fn found_with(word: &[u8], found: usize, byte: u8) -> usize {
    if word.get(found) == Some(&byte) {
        found.saturating_add(1)
    } else if word.first() == Some(&byte) {
        1
    } else {
        0
    }
}

// The same behind all of these bytes; a word that was found stays found.
fn found_in(word: &[u8], found: usize, bytes: &[u8]) -> usize {
    let mut found = found;
    for byte in bytes {
        if found >= word.len() {
            return found;
        }
        found = found_with(word, found, *byte);
    }
    found
}

// Whether bytes have the type of a trigger's or of a view's row.
fn may_bind(bytes: &[u8]) -> bool {
    found_in(b"trigger", 0, bytes) == 7 || found_in(b"view", 0, bytes) == 4
}

// The same of what is left of a file.
fn rest_may_bind(file: &mut File) -> io::Result<bool> {
    let mut buffer = [0u8; 4096];
    let (mut triggers, mut views) = (0, 0);
    for _ in 0..u64::MAX {
        let count = file.read(&mut buffer)?;
        let bytes = buffer.get(..count).unwrap_or(&[]);
        triggers = found_in(b"trigger", triggers, bytes);
        views = found_in(b"view", views, bytes);
        if triggers == 7 || views == 4 {
            return Ok(true);
        }
        if count == 0 {
            return Ok(false);
        }
    }
    Ok(false)
}

fn is_table(name: &[u8]) -> bool {
    for table in TABLES {
        if same_name(name, table.as_bytes()) {
            return true;
        }
    }
    false
}

fn is_in_word(byte: &u8) -> bool {
    byte.is_ascii_alphanumeric() || *byte == b'_'
}

// Whether the text of a view has the name of a shop's table, but for its own.
fn names_table(text: &[u8], own: &str) -> bool {
    for word in text.split(|byte| !is_in_word(byte)) {
        if is_table(word) && !same_name(word, own.as_bytes()) {
            return true;
        }
    }
    false
}

// Whether an object of this type is on a shop's tables, and changes or shows what is there. Of a view `table` is its own name.
fn binds(kind: &str, table: &str, text: &str) -> bool {
    (kind == "trigger" && is_table(table.as_bytes()))
        || (kind == "view" && names_table(text.as_bytes(), table))
}

/// A file in memory that holds these bytes.
pub(crate) fn memory_of(alloc: Global, bytes: &[u8]) -> Result<Memory, AllocError>
    ensures usable { IfOk result (λ file. IsTrue (memory_is_usable file)) }
    ensures bytes { IfOk result (λ file. memory_bytes file ≡ bytes.now) }
{
    let mut file = Memory::new(alloc);
    match file.write_at(0, bytes) {
        Ok(()) => Ok(file),
        Err(_) => Err(AllocError),
    }
}

// What a database in memory gives. None where the port refuses it. A file in memory fails because memory ran out alone.
fn given<T>(answer: Result<T, Error>) -> Result<Option<T>, AllocError> {
    match answer {
        Ok(found) => Ok(Some(found)),
        Err(Error::SqliteFailure(ErrorCode::OutOfMemory | ErrorCode::SystemIoFailure)) => {
            Err(AllocError)
        }
        Err(_) => Ok(None),
    }
}

/// The rows that a statement finds in the database of files in memory. None if the port can't open it, or can't run the
/// statement.
pub(crate) fn rows_in(
    alloc: Global,
    files: Files<Memory>,
    sql: &str,
) -> Result<Option<Vec<Row>>, AllocError>
    requires log { IsTrue (memory_is_usable files.log) }
    requires db { IsTrue (memory_is_usable files.db) }
{
    let mut conn = match Connection::open_files(alloc, files, Options::new(1)) {
        Ok(conn) => conn,
        Err((error, _left)) => return given(Err(error)),
    };
    given(conn.query_all(sql, &[]))
}

// Whether a row is of a trigger or a view on a shop's tables. None where its values are of other types.
fn row_binds(row: &Row) -> Result<Option<bool>, AllocError> {
    let kind: Option<String> = given(row.get(0))?;
    let table: Option<String> = given(row.get(1))?;
    let text: Option<Option<String>> = given(row.get(2))?;
    match (kind, table, text) {
        (Some(kind), Some(table), Some(text)) => Ok(Some(binds(
            kind.as_str(),
            table.as_str(),
            text.as_deref().unwrap_or(""),
        ))),
        _ => Ok(None),
    }
}

// Whether the database of a log and a store has a trigger or a view on a shop's tables. It is opened in memory; None where the port
// can't do that.
fn is_bound_open(alloc: Global, log: &[u8], store: &[u8]) -> Result<Option<bool>, AllocError> {
    let files = Files {
        log: memory_of(alloc, log)?,
        db: memory_of(alloc, store)?,
    };
    let sql = "SELECT type, tbl_name, sql FROM sqlite_master";
    let Some(rows) = rows_in(alloc, files, sql)? else {
        return Ok(None);
    };
    for row in &rows {
        match row_binds(row)? {
            Some(false) => (),
            bound => return Ok(bound),
        }
    }
    Ok(Some(false))
}

// The text that begins with these bytes, up to the first that no line of a statement has.
fn text_at(bytes: &[u8]) -> &[u8] {
    match bytes.iter().position(|byte| *byte < b'\t') {
        Some(end) => bytes.get(..end).unwrap_or(bytes),
        None => bytes,
    }
}

// Whether the bytes of a file have a text that begins with these words and names a shop's table.
fn has_text(bytes: &[u8], words: &[u8]) -> bool {
    let mut found = 0;
    for (at, byte) in bytes.iter().enumerate() {
        found = found_with(words, found, *byte);
        if found == words.len() && names_table(text_at(bytes.get(at..).unwrap_or(&[])), "") {
            return true;
        }
    }
    false
}

// Whether the bytes of a file have the text of a trigger or a view that names a shop's table.
fn has_bound_text(bytes: &[u8]) -> bool {
    has_text(bytes, b"CREATE TRIGGER ") || has_text(bytes, b"CREATE VIEW ")
}

// Whether the database of a log and a store has a trigger or a view on a shop's tables. SQLite opens some that the port doesn't, such
// as a trigger on a table with foreign keys; in these the bytes are searched.
fn is_bound(alloc: Global, log: &[u8], store: &[u8]) -> Result<bool, AllocError> {
    match is_bound_open(alloc, log, store)? {
        Some(bound) => Ok(bound),
        None => Ok(has_bound_text(log) || has_bound_text(store)),
    }
}

/// Whether the database of a log and a store, if it is one, has a trigger or a view on a shop's tables.
pub(crate) fn is_bound_in(alloc: Global, log: &[u8], store: &[u8]) -> Result<bool, AllocError> {
    if may_bind(log) || may_bind(store) {
        is_bound(alloc, log, store)
    } else {
        Ok(false)
    }
}

/// The bytes of a file.
pub(crate) fn content_of(rt: &HostRuntime, path: &str) -> Result<Vec<u8>, LookFault> {
    looked(fs::read(rt, path))
}

// Looks for triggers and views on a shop's tables, where the bytes may have some.
fn look_for_bonds(
    rt: &HostRuntime,
    alloc: Global,
    path: &str,
    file: &mut File,
    log: &[u8],
) -> Result<(), LookFault> {
    if !may_bind(log) && !looked(rest_may_bind(file))? {
        return Ok(());
    }
    let store = content_of(rt, path)?;
    if is_bound(alloc, log, &store)? {
        refused(StoreCause::Bound)
    } else {
        Ok(())
    }
}

// Looks at a log whose store has this head.
pub(crate) fn look_at_log(head: &Head, log: &[u8]) -> Result<Found, LookFault> {
    match log_state(log, head.is_begun()) {
        LogState::Damaged => refused(StoreCause::DamagedLog),
        LogState::Commits if head.length == 0 => refused(StoreCause::DamagedLog),
        LogState::Commits => Ok(Found::Commits),
        LogState::Empty => Ok(Found::Files),
    }
}

// Looks at a store beside which no log lies. One without a byte is still to be made.
pub(crate) fn look_without_log(head: &Head) -> Result<Found, LookFault> {
    if head.length == 0 {
        Ok(Found::Files)
    } else if head.is_database() {
        refused(StoreCause::NoLog)
    } else {
        refused(StoreCause::NoDatabase)
    }
}

// Looks at both files of a store that is opened alone, and has this head.
fn look_inside(
    rt: &HostRuntime,
    alloc: Global,
    path: &str,
    file: &mut File,
    head: &Head,
) -> Result<Found, LookFault> {
    if head.is_other() {
        return refused(StoreCause::OtherForm);
    }
    let log = format!(in alloc; "{path}-wal")?;
    match if_there(fs::symlink_metadata(rt, log.as_str()))? {
        Some(it) if it.is_file() => (),
        Some(_) => return Ok(Found::Files),
        None => return look_without_log(head),
    }
    let log = content_of(rt, log.as_str())?;
    let found = look_at_log(head, &log)?;
    if head.is_database() {
        look_for_bonds(rt, alloc, path, file, &log)?;
    }
    Ok(found)
}

// Whether a journal has something to play back.
fn has_entries(rt: &HostRuntime, journal: &str) -> Result<bool, LookFault> {
    let mut first = [0u8];
    let mut file = looked(File::open(rt, journal))?;
    Ok(looked(file.read(&mut first))? == 1 && first[0] != 0)
}

// Whether something has the name of a rollback journal that the port doesn't pass over.
pub(crate) fn is_hot(rt: &HostRuntime, journal: &str) -> Result<bool, LookFault> {
    match if_there(fs::symlink_metadata(rt, journal))? {
        Some(it) if it.is_file() => has_entries(rt, journal),
        Some(_) => Ok(true),
        None => Ok(false),
    }
}

// Looks at a store under the name to which no link leads any more.
fn look_at_files(rt: &HostRuntime, alloc: Global, path: &str) -> Result<Found, LookFault> {
    let length = match looked(fs::metadata(rt, path))? {
        it if it.is_file() => it.len(),
        _ => return Ok(Found::Files),
    };
    let journal = format!(in alloc; "{path}-journal")?;
    if is_hot(rt, journal.as_str())? {
        return Ok(Found::Files);
    }
    let mut file = open_alone(rt, path)?;
    let head = head_of(&mut file, length)?;
    look_inside(rt, alloc, path, &mut file, &head)
}

// The name to which no link leads any more, of what has a store's name.
fn real_name(rt: &HostRuntime, path: &str) -> Result<PathBuf, LookFault> {
    match if_there(fs::canonicalize(rt, path))? {
        Some(real) => Ok(real),
        None => refused(StoreCause::DanglingLink),
    }
}

// Looks for the log of a store that isn't there, which is a fault itself where it has to exist.
fn look_beside(
    rt: &HostRuntime,
    alloc: Global,
    path: &str,
    existing: bool,
) -> Result<Found, LookFault> {
    let log = format!(in alloc; "{path}-wal")?;
    match if_there(fs::symlink_metadata(rt, log.as_str()))? {
        Some(it) if it.len() > 0 => refused(StoreCause::LoneLog),
        _ if existing => refused(StoreCause::Missing),
        _ => Ok(Found::Nothing),
    }
}

/// Looks at the files of a store before they are opened, and reports what is there; `existing`: the store must be
/// there. Other defects are for the open to report.
pub(crate) fn look_before(
    rt: &HostRuntime,
    alloc: Global,
    path: &str,
    existing: bool,
) -> Result<Found, LookFault> {
    match if_there(fs::symlink_metadata(rt, path))? {
        Some(_) => {
            let real = real_name(rt, path)?;
            look_at_files(rt, alloc, real.as_str())
        }
        None => look_beside(rt, alloc, path, existing),
    }
}

/// Looks for a store that is only read, and returns the name to which its links lead.
pub(crate) fn look_before_apart(
    rt: &HostRuntime,
    alloc: Global,
    path: &str,
) -> Result<PathBuf, LookFault> {
    match if_there(fs::symlink_metadata(rt, path))? {
        Some(_) => real_name(rt, path),
        None => {
            look_beside(rt, alloc, path, true)?;
            refused(StoreCause::Missing)
        }
    }
}

//! A store's place among files, where a backup replaces it.

ghost use Rattle.std.specs.Prelude.{None};

use crate::backing::{CopyFault, copy_all};
use crate::folders::{Target, sync_folder};
use crate::held::{HeldFile, HeldFolder, HoldFault};
use crate::restoring::{Place, RestoreFault, RestoreStep, restore};
use crate::shelves::StoreFile;
use shop_advice::{StoreCause, kind_cause};
use shop_streams::Counted;
use std::alloc::{AllocError, Global};
use std::fs::{self, File, Files, Metadata, OpenFile, OpenOptions, Permissions};
use std::io::{self, ErrorKind, Write};
use std::os::unix::fs::{MetadataExt, OpenOptionsExt, PermissionsExt};

/// What a book reports about its entries.
#[derive(Clone, Copy, Debug, PartialEq, Eq)]
pub struct BookEntries {
    /// How many there are.
    pub count: u64,
    /// The second of the last one, since 1970-01-01 00:00 UTC; 0 if none has a time.
    pub last_time: u64,
}

/// What judges whether files hold a book.
pub trait Judges {
    /// What the book of a store's file and its log reports about its entries, or none if they hold no book. The files
    /// are only read.
    fn book_entries(
        &mut self,
        alloc: Global,
        store: &str,
    ) -> Result<Option<BookEntries>, AllocError>;
}

// The names that a store's files have, get and had.
#[derive(Drop)]
struct Paths {
    store: String,
    log: String,
    new_store: String,
    new_log: String,
    old_store: String,
    old_log: String,
    journal: String,
    old_journal: String,
    folder: String,
}

// Why a store's file can't be read, written or renamed, by the system's error.
fn kind_failed(kind: ErrorKind) -> RestoreFault {
    match kind {
        ErrorKind::OutOfMemory => RestoreFault::NoMemory,
        kind => RestoreFault::Store(kind_cause(kind)),
    }
}

fn failed(error: &io::Error) -> RestoreFault {
    kind_failed(error.kind())
}

// Why a backup can't be read.
fn unread(error: &io::Error) -> RestoreFault {
    match error.kind() {
        ErrorKind::OutOfMemory => RestoreFault::NoMemory,
        _ => RestoreFault::NoBackup,
    }
}

// What has this name, if anything does. A link to nothing has one, too.
fn found_at<R: Files>(rt: &R, path: &str) -> Result<Option<Metadata>, RestoreFault> {
    match fs::symlink_metadata(rt, path) {
        Ok(found) => Ok(Some(found)),
        Err(error) if error.kind() == ErrorKind::NotFound => Ok(None),
        Err(error) => Err(failed(&error)),
    }
}

// Whether anything has this name. A link to nothing has one, too.
fn is_named<R: Files>(rt: &R, path: &str) -> Result<bool, RestoreFault> {
    Ok(found_at(rt, path)?.is_some())
}

// The folder in which a path is.
fn folder_of(path: &str) -> &str {
    match path.rsplit_once('/') {
        Some(("", _)) => "/",
        Some((folder, _)) => folder,
        None => ".",
    }
}

// Where the links of a store's path lead, or the path itself where nothing is there.
fn resolved<R: Files>(rt: &R, alloc: Global, path: &str) -> Result<String, RestoreFault> {
    if !is_named(rt, path)? {
        return Ok(format!(in alloc; "{path}")?);
    }
    match rt.canonicalize(alloc, path) {
        Ok(path) => Ok(path.into_string()),
        Err(error) if error.kind() == ErrorKind::NotFound => {
            Err(RestoreFault::Store(StoreCause::DanglingLink))
        }
        Err(error) => Err(failed(&error)),
    }
}

// Whether a path names no file of its own: an empty one, and those that SQLite gives another meaning.
fn is_no_file(path: &str) -> bool {
    path.is_empty() || path == ":memory:" || path.starts_with("file:")
}

impl Paths {
    fn new<R: Files>(rt: &R, alloc: Global, path: &str) -> Result<Paths, RestoreFault> {
        if is_no_file(path) {
            return Err(RestoreFault::Store(StoreCause::NotPlain));
        }
        let store = resolved(rt, alloc, path)?;
        let path = store.as_str();
        let folder = folder_of(path);
        Ok(Paths {
            log: format!(in alloc; "{path}-wal")?,
            new_store: format!(in alloc; "{path}.new")?,
            new_log: format!(in alloc; "{path}.new-wal")?,
            old_store: format!(in alloc; "{path}.before")?,
            old_log: format!(in alloc; "{path}.before-wal")?,
            journal: format!(in alloc; "{path}-journal")?,
            old_journal: format!(in alloc; "{path}.before-journal")?,
            folder: format!(in alloc; "{folder}")?,
            store,
        })
    }

    fn name(&self, which: StoreFile) -> &str {
        match which {
            StoreFile::Store => self.store.as_str(),
            StoreFile::Log => self.log.as_str(),
        }
    }

    fn new_name(&self, which: StoreFile) -> &str {
        match which {
            StoreFile::Store => self.new_store.as_str(),
            StoreFile::Log => self.new_log.as_str(),
        }
    }
}

// A file of a store, locked as it is by a program that has it open, if it is there.
fn lock<R: Files>(rt: &R, path: &str) -> Result<Option<HeldFile>, RestoreFault> {
    match found_at(rt, path)? {
        Some(found) if found.is_dir() => return Err(RestoreFault::Store(StoreCause::Folder)),
        Some(found) if !found.is_file() => return Err(RestoreFault::Store(StoreCause::NotPlain)),
        Some(_) => (),
        None => return Ok(None),
    }
    match HeldFile::lock(path) {
        Ok(held) => Ok(Some(held)),
        Err(HoldFault::InUse) => Err(RestoreFault::Store(StoreCause::InUse)),
        Err(HoldFault::Failed(error)) => Err(failed(&error)),
    }
}

// Refuses a file that a program has open as its store. One that this account can't lock may be replaced.
fn leave_open<R: Files>(rt: &R, path: &str) -> Result<(), RestoreFault> {
    match found_at(rt, path)? {
        Some(found) if found.is_file() => (),
        _ => return Ok(()),
    }
    match HeldFile::lock(path) {
        Err(HoldFault::InUse) => Err(RestoreFault::Store(StoreCause::InUse)),
        Err(HoldFault::Failed(error)) if error.kind() == ErrorKind::OutOfMemory => {
            Err(RestoreFault::NoMemory)
        }
        _ => Ok(()),
    }
}

// Whether two names are of one file.
fn are_one<R: Files>(rt: &R, first: &str, second: &str) -> Result<bool, RestoreFault> {
    match (found_at(rt, first)?, found_at(rt, second)?) {
        (Some(first), Some(second)) => {
            Ok(first.dev() == second.dev() && first.ino() == second.ino())
        }
        _ => Ok(false),
    }
}

// Whether a file in a folder has a byte, and its log is there, too.
fn is_store<R: Files>(
    rt: &R,
    alloc: Global,
    folder: &str,
    name: &str,
) -> Result<bool, RestoreFault> {
    let store = format!(in alloc; "{folder}/{name}")?;
    let log = format!(in alloc; "{folder}/{name}-wal")?;
    Ok(is_plain(rt, store.as_str(), 1)? && is_plain(rt, log.as_str(), 0)?)
}

// Whether a file has this path, and so many bytes at least. What can't be looked at is none.
fn is_plain<R: Files>(rt: &R, path: &str, least: u64) -> Result<bool, RestoreFault> {
    match fs::symlink_metadata(rt, path) {
        Ok(found) => Ok(found.is_file() && found.len() >= least),
        Err(error) if error.kind() == ErrorKind::OutOfMemory => Err(RestoreFault::NoMemory),
        Err(_) => Ok(false),
    }
}

// The path of the only store in a folder that has its log beside it.
fn store_in<R: Files>(rt: &R, alloc: Global, folder: &str) -> Result<String, RestoreFault> {
    let names = match fs::read_dir(&(rt, alloc), folder) {
        Ok(names) => names,
        Err(error) => return Err(unread(&error)),
    };
    let mut found = None;
    for name in names {
        let name = match name {
            Ok(name) => name,
            // (a name that is no text is no store's)
            Err(error) if error.kind() == ErrorKind::InvalidFilename => continue,
            Err(error) => return Err(unread(&error)),
        };
        let name = name.file_name();
        if is_store(rt, alloc, folder, name)? {
            if found.is_some() {
                return Err(RestoreFault::NoBackup);
            }
            found = Some(format!(in alloc; "{folder}/{name}")?);
        }
    }
    match found {
        Some(path) => Ok(path),
        None => Err(RestoreFault::NoBackup),
    }
}

// Whether a folder has the name of a backup that isn't whole.
fn is_part(folder: &str) -> bool {
    folder.trim_end_matches('/').ends_with(".part")
}

// Takes away what an earlier try left under a name.
fn free_name<R: Files>(rt: &R, path: &str) -> Result<(), RestoreFault> {
    match fs::remove_file(rt, path) {
        Ok(()) => Ok(()),
        Err(error) if error.kind() == ErrorKind::NotFound => Ok(()),
        Err(error) => Err(failed(&error)),
    }
}

// What was tried, whether it was refused or not. Only that memory ran out is handed on.
fn tried(done: io::Result<()>) -> io::Result<()> {
    match done {
        Err(error) if error.kind() == ErrorKind::OutOfMemory => Err(error),
        _ => Ok(()),
    }
}

// Gives a file the owner and the permissions of another, as far as this account may.
fn copy_access<R: Files>(rt: &R, path: &str, from: &Metadata) -> io::Result<()> {
    tried(rt.chown(path, None, Some(from.gid())))?;
    tried(rt.chown(path, Some(from.uid()), None))?;
    tried(rt.set_permissions(path, Permissions::from_mode(from.mode() & 0o666)))
}

// Makes a file of this access, where nothing has its name.
fn make_file<R: Files>(rt: &R, path: &str, access: Option<&Metadata>) -> io::Result<R::File> {
    let mut options = OpenOptions::new();
    options.write(true).create_new(true).mode(0o600);
    let file = options.open(rt, path)?;
    if let Some(access) = access {
        copy_access(rt, path, access)?;
    }
    Ok(file)
}

// Copies a file, and has the copy on the disk.
fn copy_file<R: Files>(
    rt: &R,
    from: &str,
    to: &str,
    access: Option<&Metadata>,
) -> Result<(), RestoreFault> {
    let source = match File::open(rt, from) {
        Ok(source) => source,
        Err(error) => return Err(unread(&error)),
    };
    let file = match make_file(rt, to, access) {
        Ok(file) => file,
        Err(error) => return Err(failed(&error)),
    };
    let mut source = Counted::new(source);
    let mut sink = Target::new(file);
    match copy_all(&mut source, &mut sink) {
        Ok(()) => (),
        Err(CopyFault::Read) => return Err(RestoreFault::NoBackup),
        Err(CopyFault::Write) => return Err(kind_failed(sink.kind())),
    }
    match sink.into_file().sync_all() {
        Ok(()) => Ok(()),
        Err(error) => Err(failed(&error)),
    }
}

// Writes a byte to a file, and has it on the disk.
fn write_byte<R: Files>(rt: &R, path: &str) -> io::Result<()> {
    let mut file = OpenOptions::new().write(true).open(rt, path)?;
    file.write_all(&[0])?;
    file.sync_all()
}

// Gives a log without a byte one, which is part of no commit. A start takes a log without a byte and without a store for nothing.
fn mark_log<R: Files>(rt: &R, path: &str) -> Result<(), RestoreFault> {
    match found_at(rt, path)? {
        Some(found) if found.len() == 0 => (),
        _ => return Ok(()),
    }
    match write_byte(rt, path) {
        Ok(()) => Ok(()),
        Err(error) => Err(failed(&error)),
    }
}

// The place of a store among files; the backup's store, once it was judged; the files that were there, held so that no program
// opens them; whether the store's own file has the log's name, since no log was there; whether copies were begun; and whether the old
// files were begun to be put aside.
#[derive(Drop)]
struct Replacing<'a, R, J> {
    rt: &'a R,
    alloc: Global,
    judge: J,
    from: &'a str,
    paths: Paths,
    copy: Option<String>,
    entries: BookEntries,
    held: [Option<HeldFile>; 2],
    is_shielded: bool,
    has_copies: bool,
    is_replacing: bool,
}

impl<'a, R: Files, J: Judges> Replacing<'a, R, J> {
    // An earlier try may have been stopped with the store under the log's name, too.
    fn close(&mut self) -> Result<(), RestoreFault> {
        let (store, log) = (self.paths.store.as_str(), self.paths.log.as_str());
        self.is_shielded = are_one(self.rt, store, log)?;
        let held = lock(self.rt, store)?;
        self.held = if self.is_shielded {
            [held, None]
        } else {
            [held, lock(self.rt, log)?]
        };
        Ok(())
    }

    fn judge(&mut self) -> Result<(), RestoreFault> {
        if is_part(self.from) {
            return Err(RestoreFault::NoBackup);
        }
        let copy = store_in(self.rt, self.alloc, self.from)?;
        match self.judge.book_entries(self.alloc, copy.as_str())? {
            Some(entries) => {
                self.entries = entries;
                self.copy = Some(copy);
                Ok(())
            }
            None => Err(RestoreFault::NoBackup),
        }
    }

    // A store of its own may have the copies' names: it stays if a program has it open.
    fn look(&self) -> Result<(), RestoreFault> {
        for path in [
            self.paths.old_store.as_str(),
            self.paths.old_log.as_str(),
            self.paths.old_journal.as_str(),
        ] {
            if is_named(self.rt, path)? {
                return Err(RestoreFault::Before);
            }
        }
        leave_open(self.rt, self.paths.new_store.as_str())
    }

    // The owner and the permissions that the new files get: those of the old ones, or of the backup.
    fn access(&self, copy: &str) -> Result<Option<Metadata>, RestoreFault> {
        for path in [
            self.paths.name(StoreFile::Store),
            self.paths.name(StoreFile::Log),
            copy,
        ] {
            if let Some(found) = found_at(self.rt, path)? {
                return Ok(Some(found));
            }
        }
        Ok(None)
    }

    fn copy(&self, which: StoreFile) -> Result<(), RestoreFault> {
        let Some(store) = &self.copy else {
            return Err(RestoreFault::NoBackup);
        };
        let store = store.as_str();
        let log = format!(in self.alloc; "{store}-wal")?;
        let from = match which {
            StoreFile::Store => store,
            StoreFile::Log => log.as_str(),
        };
        let to = self.paths.new_name(which);
        free_name(self.rt, to)?;
        let access = self.access(store)?;
        copy_file(self.rt, from, to, access.as_ref())?;
        match which {
            StoreFile::Store => Ok(()),
            StoreFile::Log => mark_log(self.rt, to),
        }
    }

    // Renames a file, and has that on the disk.
    fn rename(&self, from: &str, to: &str) -> Result<(), RestoreFault> {
        self.named(fs::rename(self.rt, from, to))
    }

    // Gives a file one name more, and has that on the disk.
    fn link(&self, from: &str, to: &str) -> Result<(), RestoreFault> {
        self.named(self.rt.hard_link(from, to))
    }

    fn named(&self, done: io::Result<()>) -> Result<(), RestoreFault> {
        if let Err(error) = done {
            return Err(failed(&error));
        }
        match sync_folder(self.rt, self.paths.folder.as_str()) {
            Ok(()) => Ok(()),
            Err(error) => Err(failed(&error)),
        }
    }

    // Where no log is there, or one without a byte, the store gets the log's name, too, and this reports so: no start takes a store for
    // its own log, nor a log without its store, so that what a stop leaves now isn't taken for a new shop.
    fn shield(&self) -> Result<bool, RestoreFault> {
        let log = self.paths.log.as_str();
        match found_at(self.rt, log)? {
            Some(found) if found.len() > 0 => return Ok(false),
            Some(_) => self.rename(log, self.paths.old_log.as_str())?,
            None => (),
        }
        self.link(self.paths.store.as_str(), log)?;
        Ok(true)
    }

    fn put_store_aside(&mut self) -> Result<(), RestoreFault> {
        self.is_replacing = true;
        if is_named(self.rt, self.paths.store.as_str())? {
            if !self.is_shielded {
                self.is_shielded = self.shield()?;
            }
            self.rename(self.paths.store.as_str(), self.paths.old_store.as_str())?;
        }
        self.put_journal_aside()
    }

    // A rollback journal belongs to the old store. Beside the new one it would undo there what another program began in the old one.
    fn put_journal_aside(&self) -> Result<(), RestoreFault> {
        let journal = self.paths.journal.as_str();
        if !is_named(self.rt, journal)? {
            return Ok(());
        }
        self.rename(journal, self.paths.old_journal.as_str())
    }

    fn put_log_aside(&self) -> Result<(), RestoreFault> {
        if self.is_shielded || !is_named(self.rt, self.paths.log.as_str())? {
            return Ok(());
        }
        self.link(self.paths.log.as_str(), self.paths.old_log.as_str())
    }

    fn put_in(&self, which: StoreFile) -> Result<(), RestoreFault> {
        self.rename(self.paths.new_name(which), self.paths.name(which))
    }

    // Takes the copies away, unless the old files were begun to be put aside.
    fn clear(&self) {
        if self.has_copies && !self.is_replacing {
            let _ = fs::remove_file(self.rt, self.paths.new_store.as_str());
            let _ = fs::remove_file(self.rt, self.paths.new_log.as_str());
        }
    }
}

impl<'a, R: Files, J: Judges> Place for Replacing<'a, R, J> {
    ghost done = { λ _. None };

    fn take(&mut self, step: RestoreStep) -> Result<(), RestoreFault> {
        match step {
            RestoreStep::Close => self.close(),
            RestoreStep::Judge => self.judge(),
            RestoreStep::Look => self.look(),
            RestoreStep::Copy(which) => {
                self.has_copies = true;
                self.copy(which)
            }
            RestoreStep::PutAside(StoreFile::Store) => self.put_store_aside(),
            RestoreStep::PutAside(StoreFile::Log) => self.put_log_aside(),
            RestoreStep::PutIn(which) => self.put_in(which),
        }
    }
}

/// Puts a backup in the place of a store, and returns what its book reports about its entries. Files that were there
/// become `FILE.before` and `FILE.before-wal`, and another program's rollback journal `FILE.before-journal`. The copies
/// are `FILE.new` and `FILE.new-wal` until they get their names; those of an earlier attempt are removed.
///
/// Nothing was changed after `Store(InUse)` (a program has the store or `FILE.new` open), `NoBackup` (the folder has no
/// store with its log, or they hold no book) and `Before` (a name with `.before` is taken). `NoMemory` (memory ran out)
/// and `Store` with another cause (the system refused a step) come at any step: until the old files are renamed, the
/// copies are removed; after that the steps done stay, and the next start finds the old files, the new ones, or some
/// that it refuses.
pub fn put_back<R: Files, J: Judges + Drop>(
    rt: &R,
    alloc: Global,
    judge: J,
    store: &str,
    from: &str,
) -> Result<BookEntries, RestoreFault> {
    let paths = Paths::new(rt, alloc, store)?;
    let mut place = Replacing {
        rt,
        alloc,
        judge,
        from,
        paths,
        copy: None,
        entries: BookEntries {
            count: 0,
            last_time: 0,
        },
        held: [None, None],
        is_shielded: false,
        has_copies: false,
        is_replacing: false,
    };
    match restore(&mut place) {
        Ok(()) => Ok(place.entries),
        Err(fault) => {
            place.clear();
            Err(fault)
        }
    }
}

//! Looks at files that couldn't be used.

use crate::causes::{BackupCause, FileCause, StoreCause};
use std::alloc::Global;
use std::fs::{self, File, Files, Metadata, OpenFile, OpenOptions};
use std::io::{self, ErrorKind, Read, Write};
use std::os::unix::fs::{MetadataExt, OpenOptionsExt};
use std::path::Path;

// The first bytes of a database of SQLite.
const HEAD: [u8; 16] = *b"SQLite format 3\0";

/// Whether something has this name.
pub fn is_there<R: Files>(rt: &R, path: &str) -> bool {
    match fs::exists(rt, path) {
        Ok(is) => is,
        Err(_) => true,
    }
}

/// Why a store couldn't be created, by the system's error.
pub fn kind_cause(kind: ErrorKind) -> StoreCause {
    match kind {
        ErrorKind::NotFound | ErrorKind::NotADirectory => StoreCause::NoFolder,
        ErrorKind::IsADirectory => StoreCause::Folder,
        ErrorKind::PermissionDenied => StoreCause::NotAllowed,
        ErrorKind::ReadOnlyFilesystem => StoreCause::ReadOnly,
        ErrorKind::StorageFull | ErrorKind::QuotaExceeded => StoreCause::Full,
        _ => StoreCause::Failed,
    }
}

/// Why no file could be made in a folder of backups, by the system's error.
pub fn backup_cause(kind: ErrorKind) -> BackupCause {
    match kind {
        ErrorKind::NotFound => BackupCause::NoFolder,
        ErrorKind::NotADirectory => BackupCause::Other,
        ErrorKind::PermissionDenied => BackupCause::NotAllowed,
        ErrorKind::ReadOnlyFilesystem => BackupCause::ReadOnly,
        ErrorKind::StorageFull | ErrorKind::QuotaExceeded => BackupCause::Full,
        _ => BackupCause::Failed,
    }
}

/// Why a file can't be read; `NoText` if it can.
pub fn look_at_file<R: Files>(rt: &R, path: &str) -> FileCause {
    match fs::metadata(rt, path) {
        Ok(found) if found.is_dir() => return FileCause::Folder,
        Ok(_) => (),
        Err(error) => return file_cause(error.kind()),
    }
    match File::open(rt, path) {
        Ok(_) => FileCause::NoText,
        Err(error) => file_cause(error.kind()),
    }
}

fn file_cause(kind: ErrorKind) -> FileCause {
    match kind {
        ErrorKind::NotFound | ErrorKind::NotADirectory => FileCause::Missing,
        ErrorKind::PermissionDenied => FileCause::NotAllowed,
        _ => FileCause::Unreadable,
    }
}

/// Why a store can't be opened; `Failed` if nothing is found.
pub fn look_at_store<R: Files>(rt: &R, alloc: Global, path: &str) -> StoreCause {
    let found = match fs::metadata(rt, path) {
        Ok(found) => found,
        Err(error) => return kind_cause(error.kind()),
    };
    if found.is_dir() {
        return StoreCause::Folder;
    }
    if !found.is_file() || found.nlink() > 1 {
        return StoreCause::NotPlain;
    }
    match look_inside(rt, path, found.len()) {
        StoreCause::Failed if has_journal(rt, alloc, path) => StoreCause::Journal,
        cause => cause,
    }
}

// Whether a rollback journal lies beside a store.
fn has_journal<R: Files>(rt: &R, alloc: Global, path: &str) -> bool {
    match format!(in alloc; "{path}-journal") {
        Ok(name) => is_there(rt, name.as_str()),
        Err(_) => false,
    }
}

// Why a plain file can't be opened as a store.
fn look_inside<R: Files>(rt: &R, path: &str, length: u64) -> StoreCause {
    let mut file = match OpenOptions::new().read(true).write(true).open(rt, path) {
        Ok(file) => file,
        Err(error) => return kind_cause(error.kind()),
    };
    if length == 0 {
        return StoreCause::Failed;
    }
    let mut head = [0u8; 16];
    match file.read(&mut head) {
        Ok(_) if head == HEAD => StoreCause::Failed,
        Ok(_) => StoreCause::NoDatabase,
        Err(_) => StoreCause::Failed,
    }
}

// Whether two names are those of one file.
fn is_same(one: &Metadata, other: &Metadata) -> bool {
    one.dev() == other.dev() && one.ino() == other.ino()
}

// Writes 64 KiB.
fn fill<F: Write>(file: &mut F) -> io::Result<()> {
    let page = [0u8; 4096];
    for _ in 0..16 {
        file.write_all(&page)?;
    }
    Ok(())
}

// Writes 64 KiB into a new file of this name, and takes it away again.
fn try_room<R: Files>(rt: &R, path: &str) -> io::Result<()> {
    let mut options = OpenOptions::new();
    options.write(true).create_new(true).mode(0o600);
    let mut file = options.open(rt, path)?;
    let made = file.metadata()?;
    let filled = fill(&mut file);
    if is_same(&made, &fs::symlink_metadata(rt, path)?) {
        fs::remove_file(rt, path)?;
    }
    filled
}

/// Whether a store's disk is full: a new file beside it, `FILE-room`, doesn't take 64 KiB. That file is removed again.
/// False if this can't be tried. The path mustn't contain links.
pub fn is_disk_full<R: Files>(rt: &R, alloc: Global, store: &str) -> bool {
    let Ok(path) = format!(in alloc; "{store}-room") else {
        return false;
    };
    match try_room(rt, path.as_str()) {
        Ok(()) => false,
        Err(error) => match error.kind() {
            ErrorKind::StorageFull | ErrorKind::QuotaExceeded => true,
            _ => false,
        },
    }
}

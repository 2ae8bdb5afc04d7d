//! The files of a store that a start creates, and removes again if it ends before it serves. Files that it didn't
//! create itself stay, whatever has the names by then.

use crate::before::{LookFault, kind_fault};
use os::RangeLock;
use std::alloc::Global;
use std::fs::{self, File, Files, Metadata, OpenFile, OpenOptions};
use std::io::{self, ErrorKind};
use std::os::fd::AsRawFd;
use std::os::unix::fs::{MetadataExt, OpenOptionsExt};

// A file, whatever its name.
#[derive(Clone, Copy, Debug, PartialEq, Eq)]
struct Identity {
    device: u64,
    number: u64,
}

/// Which files of a store an open has created: none; or the store, and beside it a log that it created, or one that was
/// there with 0 bytes.
#[derive(Clone, Copy, Debug)]
pub struct Made {
    store: Option<Identity>,
    log: Option<Identity>,
    has_made_log: bool,
}

fn identity_of(found: &Metadata) -> Identity {
    Identity {
        device: found.dev(),
        number: found.ino(),
    }
}

// Whether this name is that of a file that was made, and of no link to it.
fn is_own<R: Files>(rt: &R, path: &str, made: Option<Identity>) -> bool {
    match (fs::symlink_metadata(rt, path), made) {
        (Ok(found), Some(made)) => identity_of(&found) == made,
        _ => false,
    }
}

// Takes a file away, if it was made.
fn remove_own<R: Files>(rt: &R, path: &str, made: Option<Identity>) {
    if is_own(rt, path, made) {
        let _ = fs::remove_file(rt, path);
    }
}

// Makes a file that its owner alone may read and write, where none has this name. Which it is, where it was made and that is known.
fn make_file<R: Files>(rt: &R, path: &str) -> Result<Option<Identity>, ErrorKind> {
    let mut options = OpenOptions::new();
    options.write(true).create_new(true).mode(0o600);
    match options.open(rt, path) {
        Ok(file) => match file.metadata() {
            Ok(found) => Ok(Some(identity_of(&found))),
            Err(_) => Ok(None),
        },
        Err(error) => match error.kind() {
            ErrorKind::AlreadyExists => Ok(None),
            kind => Err(kind),
        },
    }
}

/// Whether a name is one that no file of a store has.
pub(crate) fn is_special(path: &str) -> bool {
    path == ":memory:" || path.starts_with("file:")
}

// Which file without a byte has this name, and is no link.
fn empty_file<R: Files>(rt: &R, path: &str) -> Option<Identity> {
    match fs::symlink_metadata(rt, path) {
        Ok(found) if found.is_file() && found.len() == 0 => Some(identity_of(&found)),
        _ => None,
    }
}

// Cuts a file to no byte, if it is this one, and reports whether it has none now.
fn empty_own<R: Files>(rt: &R, path: &str, own: Option<Identity>) -> bool {
    if !is_own(rt, path, own) {
        return false;
    }
    let Ok(file) = OpenOptions::new().write(true).open(rt, path) else {
        return false;
    };
    match (file.metadata(), own) {
        (Ok(found), Some(own)) if identity_of(&found) == own => file.set_len(0).is_ok(),
        _ => false,
    }
}

// Opens a file and locks it, as an open of a store does, where no other program has it open.
fn lock_file(rt: &HostRuntime, path: &str) -> Option<File> {
    let file = OpenOptions::new()
        .read(true)
        .write(true)
        .open(rt, path)
        .ok()?;
    if os::try_lock_range(file.as_raw_fd(), RangeLock::Exclusive, 1 << 30, 512) == 0 {
        Some(file)
    } else {
        None
    }
}

// Whether a file was made, and nothing was written to it.
fn is_empty_own(found: io::Result<Metadata>, made: Option<Identity>) -> bool {
    match (found, made) {
        (Ok(found), Some(made)) => identity_of(&found) == made && found.len() == 0,
        _ => false,
    }
}

impl Made {
    /// No file.
    pub fn nothing() -> Made {
        Made {
            store: None,
            log: None,
            has_made_log: false,
        }
    }

    /// Whether the store was created.
    pub fn is_new(&self) -> bool {
        self.store.is_some()
    }

    // Makes both files of a store, each where none has its name. Names that no file of a store has are left to the open.
    pub(crate) fn make<R: Files>(rt: &R, alloc: Global, path: &str) -> Result<Made, LookFault> {
        if is_special(path) {
            return Ok(Made::nothing());
        }
        let log = format!(in alloc; "{path}-wal")?;
        let store = match make_file(rt, path) {
            Ok(store) => store,
            Err(kind) => return Err(kind_fault(kind)),
        };
        match make_file(rt, log.as_str()) {
            Ok(None) => Ok(Made {
                store,
                log: empty_file(rt, log.as_str()),
                has_made_log: false,
            }),
            Ok(made) => Ok(Made {
                store,
                log: made,
                has_made_log: true,
            }),
            Err(kind) => {
                remove_own(rt, path, store);
                Err(kind_fault(kind))
            }
        }
    }

    /// Removes the files that were created; a log that was there with 0 bytes stays, with 0 bytes. The store is still
    /// open, so no other program has the files, and nothing is done with it afterwards. A crash within this leaves
    /// files that a start accepts.
    pub fn take_away<R: Files>(&self, rt: &R, alloc: Global, path: &str) {
        if !is_own(rt, path, self.store) {
            return;
        }
        let Ok(log) = format!(in alloc; "{path}-wal") else {
            return;
        };
        if empty_own(rt, log.as_str(), self.log) {
            remove_own(rt, path, self.store);
            if self.has_made_log {
                remove_own(rt, log.as_str(), self.log);
            }
        }
    }

    // The same of a store that isn't open any more: not where another program has it open, or where something was written to its
    // files since.
    pub(crate) fn take_empty(&self, rt: &HostRuntime, alloc: Global, path: &str) {
        if self.store.is_none() {
            return;
        }
        let Ok(log) = format!(in alloc; "{path}-wal") else {
            return;
        };
        let Some(file) = lock_file(rt, path) else {
            return;
        };
        let is_empty = is_empty_own(file.metadata(), self.store)
            && is_empty_own(fs::symlink_metadata(rt, log.as_str()), self.log);
        if is_empty {
            self.take_away(rt, alloc, path);
        }
        drop(file);
    }
}

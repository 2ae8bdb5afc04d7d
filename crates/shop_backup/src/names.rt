//! The names of an open store, and which files they lead to.

use crate::faults::BackupFault;
use shop_advice::{BackupCause, is_disk_full};
use std::alloc::Global;
use std::fs::{self, Files, Metadata};
use std::io::{self, ErrorKind};
use std::os::unix::fs::MetadataExt;

// A file, whatever its name.
#[derive(Clone, Copy, Debug, PartialEq, Eq)]
pub(crate) struct Identity {
    device: u64,
    number: u64,
}

impl Identity {
    // Whether another one lies on the same disk.
    pub(crate) fn is_on_disk_of(self, other: Identity) -> bool {
        self.device == other.device
    }
}

/// The names of an open store: the one that was given, those of its two files, and which files these are.
#[derive(Drop)]
pub struct Names {
    given: String,
    pub(crate) store: String,
    pub(crate) log: String,
    pub(crate) store_is: Identity,
    pub(crate) log_is: Identity,
}

// A file of the store can't be used.
pub(crate) fn unread(error: &io::Error) -> BackupFault {
    match error.kind() {
        ErrorKind::OutOfMemory => BackupFault::NoMemory,
        ErrorKind::NotFound => BackupFault::Failed(BackupCause::Moved),
        _ => BackupFault::Failed(BackupCause::Unread),
    }
}

// Which file these data are of.
pub(crate) fn identity_of(found: &Metadata) -> Identity {
    Identity {
        device: found.dev(),
        number: found.ino(),
    }
}

fn identity_at<R: Files>(rt: &R, path: &str) -> Result<Identity, BackupFault> {
    match fs::symlink_metadata(rt, path) {
        Ok(found) => Ok(identity_of(&found)),
        Err(error) => Err(unread(&error)),
    }
}

// Where the links of a path lead.
fn resolved<R: Files>(rt: &R, alloc: Global, path: &str) -> Result<String, BackupFault> {
    match rt.canonicalize(alloc, path) {
        Ok(path) => Ok(path.into_string()),
        Err(error) => Err(unread(&error)),
    }
}

// Whether a path leads to a file. A look that fails is tried once more, so that one failure doesn't end an open shop.
fn leads_to<R: Files>(rt: &R, path: &str, file: Identity) -> bool {
    let found = match fs::metadata(rt, path) {
        Ok(found) => Ok(found),
        Err(_) => fs::metadata(rt, path),
    };
    match found {
        Ok(found) => identity_of(&found) == file,
        Err(_) => false,
    }
}

impl Names {
    /// The names of an open store.
    pub fn new<R: Files>(rt: &R, alloc: Global, store: &str) -> Result<Names, BackupFault> {
        let given = format!(in alloc; "{store}")?;
        let store = resolved(rt, alloc, store)?;
        let path = store.as_str();
        let log = format!(in alloc; "{path}-wal")?;
        let store_is = identity_at(rt, store.as_str())?;
        let log_is = identity_at(rt, log.as_str())?;
        Ok(Names {
            given,
            store,
            log,
            store_is,
            log_is,
        })
    }

    /// Whether the store's disk is full.
    pub fn is_disk_full<R: Files>(&self, rt: &R, alloc: Global) -> bool {
        is_disk_full(rt, alloc, self.store.as_str())
    }

    /// Whether both names still lead to the two files.
    pub fn lead_there<R: Files>(&self, rt: &R) -> bool {
        leads_to(rt, self.given.as_str(), self.store_is)
            && leads_to(rt, self.log.as_str(), self.log_is)
    }
}

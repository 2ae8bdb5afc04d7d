//! A folder that is held open: what is done in it is done there, whatever has its name by then. And a file that is
//! held, so that no program opens the store.

use os::{FromRawFd, RangeLock};
use std::io::{self, ErrorKind};
use std::os::fd::{AsRawFd, OwnedFd};

// How many bytes of names are read at once, and how often at most.
const NAMES_SIZE: usize = 4096;

const MAX_READS: u32 = 1000;

/// A folder that is held open.
#[derive(Drop)]
pub(crate) struct HeldFolder {
    fd: OwnedFd,
}

// How many of these names are one of two. None where another one is among them; the names of the folder itself and of the one
// that it is in don't count. Each stands before a byte of 0.
fn count_names(names: &[u8], wanted: [&str; 2]) -> Option<u32> {
    let mut count = 0u32;
    for name in names.split(|byte| *byte == 0) {
        if name == wanted[0].as_bytes() || name == wanted[1].as_bytes() {
            count = count.saturating_add(1);
        } else if !name.is_empty() && name != b".".as_slice() && name != b"..".as_slice() {
            return None;
        }
    }
    Some(count)
}

impl HeldFolder {
    /// Holds the folder of this path. None if it isn't a folder, if it is a link to one, or if it can't be opened.
    pub(crate) fn open(path: &str) -> Option<HeldFolder> {
        let number = os::open_dir_at(libc::AT_FDCWD, path.as_bytes());
        if number < 0 {
            return None;
        }
        let fd = unsafe { OwnedFd::from_raw_fd(number) };
        Some(HeldFolder { fd })
    }

    /// Whether it contains exactly two things, of these two names. It may be asked only once.
    pub(crate) fn holds_just(&self, names: [&str; 2]) -> bool {
        let mut found = 0u32;
        let mut buffer = [0u8; NAMES_SIZE];
        for _ in 0..MAX_READS {
            let count = os::read_dir(self.fd.as_raw_fd(), &mut buffer);
            if count == 0 {
                return os::errno() == 0 && found == 2;
            }
            match count_names(&buffer[..count], names) {
                Some(more) => found = found.saturating_add(more),
                None => return false,
            }
        }
        false
    }

    /// Removes a file or a link that is in it, and returns whether it did.
    pub(crate) fn remove(&self, name: &str) -> bool {
        os::unlink_at(self.fd.as_raw_fd(), name.as_bytes()) == 0
    }
}

/// A file of a store that is held: no program opens it as a store meanwhile.
#[derive(Drop)]
pub(crate) struct HeldFile {
    fd: OwnedFd,
}

/// Why a file can't be held.
#[derive(Clone, Copy, Debug)]
pub(crate) enum HoldFault {
    /// A program has it open.
    InUse,
    /// The system refuses it.
    Failed(io::Error),
}

// What the call that failed last says.
fn last_fault() -> HoldFault {
    let error = io::Error::from_raw_os_error(os::errno());
    match error.kind() {
        ErrorKind::WouldBlock => HoldFault::InUse,
        _ => HoldFault::Failed(error),
    }
}

impl HeldFile {
    /// Opens a file, and locks it as SQLite does (its pending, reserved and shared locks).
    pub(crate) fn lock(path: &str) -> Result<HeldFile, HoldFault> {
        let number = os::open_update(path.as_bytes());
        if number < 0 {
            return Err(last_fault());
        }
        let fd = unsafe { OwnedFd::from_raw_fd(number) };
        if os::try_lock_range(fd.as_raw_fd(), RangeLock::Exclusive, 1 << 30, 512) == 0 {
            Ok(HeldFile { fd })
        } else {
            Err(last_fault())
        }
    }
}

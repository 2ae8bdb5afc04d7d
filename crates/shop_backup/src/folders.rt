//! Backups as folders: `FOLDER/1`, `FOLDER/2` and so on, each with copies of both files under their own names.

ghost use Rattle.std.specs.Prelude.{[], None};

use crate::backing::{MAX_BACKUPS, back_up};
use crate::faults::BackupFault;
use crate::held::HeldFolder;
use crate::made::Made;
use crate::names::{Identity, Names, identity_of, unread};
use crate::shelves::{BackupTarget, Numbers, StoreFile};
use shop_advice::{BackupCause, backup_cause};
use shop_streams::{Counted, Failed, Sink};
use std::alloc::{AllocError, Global};
use std::fs::{self, DirBuilder, File, Files, OpenFile, OpenOptions, ReadDir};
use std::io::{self, ErrorKind, Write};
use std::os::unix::fs::{DirBuilderExt, MetadataExt, OpenOptionsExt};

// How often a call is made that is interrupted each time, and how many names are tried for one that is free.
const MAX_TRIES: u32 = 1000;

// The permission to write of all but a folder's owner. Where a list of permissions gives it to somebody, it is that of the group.
const WRITE_OF_OTHERS: u32 = 0o022;

/// Where the backups of an open store are made: the store's names, the folder's name, and which folder that is.
#[derive(Drop)]
pub struct Backups {
    names: Names,
    folder: String,
    folder_is: Identity,
    keep: Option<u32>,
}

// What the system's error says of a folder.
fn failed(error: &io::Error) -> BackupFault {
    match error.kind() {
        ErrorKind::OutOfMemory => BackupFault::NoMemory,
        kind => BackupFault::Failed(backup_cause(kind)),
    }
}

// The last name of a path.
fn last_name(path: &str) -> &str {
    match path.rsplit_once('/') {
        Some((_, name)) => name,
        None => path,
    }
}

// Has the names of a folder on the disk.
pub(crate) fn sync_folder<R: Files>(rt: &R, path: &str) -> io::Result<()> {
    File::open(rt, path)?.sync_all()
}

// Makes a folder of the owner alone.
fn make_folder<R: Files>(rt: &R, path: &str) -> io::Result<()> {
    let mut maker = DirBuilder::new();
    maker.mode(0o700).create(rt, path)
}

// Makes a folder and takes it away again, or one that was left there, and reports whether the name was free.
fn try_name<R: Files>(rt: &R, path: &str) -> io::Result<bool> {
    match make_folder(rt, path) {
        Ok(()) => {
            fs::remove_dir(rt, path)?;
            Ok(true)
        }
        Err(error) => match error.kind() {
            ErrorKind::AlreadyExists => Ok(fs::remove_dir(rt, path).is_ok()),
            _ => Err(error),
        },
    }
}

// Which folder has this path, if nobody but its owner may write in it.
fn folder_at<R: Files>(rt: &R, path: &str) -> Result<Identity, BackupFault> {
    let found = match fs::metadata(rt, path) {
        Ok(found) => found,
        Err(error) => return Err(failed(&error)),
    };
    if !found.is_dir() {
        return Err(BackupFault::Failed(BackupCause::Other));
    }
    if found.mode() & WRITE_OF_OTHERS != 0 {
        return Err(BackupFault::Failed(BackupCause::Open));
    }
    Ok(identity_of(&found))
}

// The name of a folder that is no backup's.
fn trial_path(alloc: Global, folder: &str, attempt: u32) -> Result<String, AllocError> {
    match attempt {
        0 => format!(in alloc; "{folder}/0.part"),
        _ => format!(in alloc; "{folder}/0.{attempt}.part"),
    }
}

// Makes a folder of a name that is free and no backup's, and takes it away again.
fn try_in<R: Files>(rt: &R, alloc: Global, folder: &str) -> Result<(), BackupFault> {
    for attempt in 0..MAX_TRIES {
        let path = trial_path(alloc, folder, attempt)?;
        match try_name(rt, path.as_str()) {
            Ok(true) => return Ok(()),
            Ok(false) => (),
            Err(error) => return Err(failed(&error)),
        }
    }
    Err(BackupFault::Failed(BackupCause::Failed))
}

/// Checks that backups can be made in a folder, and that nobody but its owner may write in it.
pub fn test_folder<R: Files>(rt: &R, alloc: Global, folder: &str) -> Result<(), BackupFault> {
    folder_at(rt, folder)?;
    try_in(rt, alloc, folder)?;
    match sync_folder(rt, folder) {
        Ok(()) => Ok(()),
        Err(error) => Err(failed(&error)),
    }
}

// The number of a backup that is named so, whole or not.
fn number_of(name: &str) -> Option<u32> {
    let digits = name.strip_suffix(".part").unwrap_or(name);
    if digits.starts_with('0') || digits.starts_with('+') {
        return None;
    }
    match digits.parse::<u32>() {
        Ok(number) if number <= MAX_BACKUPS => Some(number),
        _ => None,
    }
}

// Adds the number of a name, if it is a backup's.
fn add_number(numbers: &mut Numbers, name: &str) -> Result<(), AllocError> {
    if let Some(number) = number_of(name) {
        numbers.all.push(number)?;
        if !name.ends_with(".part") {
            numbers.whole.push(number)?;
        }
    }
    Ok(())
}

// The numbers of what is left of a folder's names.
fn numbers_in<R: Files + Clone + Drop>(
    alloc: Global,
    names: ReadDir<R, Global>,
) -> Result<Numbers, BackupFault> {
    let mut numbers = Numbers {
        all: Vec::new(alloc),
        whole: Vec::new(alloc),
    };
    for name in names {
        match name {
            Ok(name) => add_number(&mut numbers, name.file_name())?,
            // (a name that is no text is no backup's)
            Err(error) if error.kind() == ErrorKind::InvalidFilename => (),
            Err(error) => return Err(failed(&error)),
        }
    }
    Ok(numbers)
}

impl Backups {
    /// The backups of an open store in a folder, where the newest `keep` stay, or all.
    pub fn new<R: Files>(
        rt: &R,
        alloc: Global,
        store: &str,
        folder: &str,
        keep: Option<u32>,
    ) -> Result<Backups, BackupFault> {
        let names = Names::new(rt, alloc, store)?;
        let folder_is = folder_at(rt, folder)?;
        let folder = format!(in alloc; "{folder}")?;
        Ok(Backups {
            names,
            folder,
            folder_is,
            keep,
        })
    }

    /// Whether the folder is on the store's disk.
    pub fn is_on_store_disk(&self) -> bool {
        self.folder_is.is_on_disk_of(self.names.store_is)
    }

    /// The folder's name.
    pub fn folder(&self) -> &str {
        self.folder.as_str()
    }

    /// Makes a backup, and removes older ones if only so many stay.
    pub fn make<R: Files>(&self, rt: &R, alloc: Global) -> Result<Made, BackupFault> {
        let mut target = Folder {
            rt,
            alloc,
            backups: self,
            part: None,
            held: None,
            has_store: false,
            has_log: false,
            stayed: Vec::new(alloc),
        };
        let number = back_up(&mut target, self.keep)?;
        let Folder { stayed, .. } = target;
        Ok(Made { number, stayed })
    }

    // The path of a file of the store.
    fn path(&self, which: StoreFile) -> &str {
        match which {
            StoreFile::Store => self.names.store.as_str(),
            StoreFile::Log => self.names.log.as_str(),
        }
    }

    fn identity(&self, which: StoreFile) -> Identity {
        match which {
            StoreFile::Store => self.names.store_is,
            StoreFile::Log => self.names.log_is,
        }
    }

    // The folder of a backup that is whole.
    fn whole(&self, alloc: Global, number: u32) -> Result<String, BackupFault> {
        let folder = self.folder();
        let path = format!(in alloc; "{folder}/{number}")?;
        Ok(path)
    }

    // The folder of one that isn't whole yet.
    fn part(&self, alloc: Global, number: u32) -> Result<String, BackupFault> {
        let folder = self.folder();
        let path = format!(in alloc; "{folder}/{number}.part")?;
        Ok(path)
    }

    // The name that a file of the store has in a backup.
    fn name(&self, which: StoreFile) -> &str {
        last_name(self.path(which))
    }

    // A file of one that isn't whole yet.
    fn part_file(
        &self,
        alloc: Global,
        number: u32,
        which: StoreFile,
    ) -> Result<String, BackupFault> {
        let folder = self.folder();
        let name = self.name(which);
        let path = format!(in alloc; "{folder}/{number}.part/{name}")?;
        Ok(path)
    }

    // Whether a file is a copy, and no file of the open store by another name.
    fn is_copy<R: Files>(&self, rt: &R, path: &str) -> bool {
        match fs::symlink_metadata(rt, path) {
            Ok(found) => {
                let is = identity_of(&found);
                found.is_file() && is != self.names.store_is && is != self.names.log_is
            }
            Err(_) => false,
        }
    }

    // Whether the folder of a whole backup has a copy of this file.
    fn has_copy<R: Files>(&self, rt: &R, alloc: Global, whole: &str, which: StoreFile) -> bool {
        let name = self.name(which);
        match format!(in alloc; "{whole}/{name}") {
            Ok(path) => self.is_copy(rt, path.as_str()),
            Err(_) => false,
        }
    }

    // Holds the folder of a whole backup, if it is on the folder's own disk and has copies of both files and nothing else.
    fn hold_whole<R: Files>(&self, rt: &R, alloc: Global, whole: &str) -> Option<HeldFolder> {
        let found = fs::symlink_metadata(rt, whole).ok()?;
        if !identity_of(&found).is_on_disk_of(self.folder_is) {
            return None;
        }
        let held = HeldFolder::open(whole)?;
        let is_backup = held.holds_just([self.name(StoreFile::Store), self.name(StoreFile::Log)])
            && self.has_copy(rt, alloc, whole, StoreFile::Store)
            && self.has_copy(rt, alloc, whole, StoreFile::Log);
        if is_backup { Some(held) } else { None }
    }
}

// A new file, and why writing it failed, if it did.
#[derive(Drop)]
pub(crate) struct Target<F> {
    file: F,
    failures: u64,
    kind: Option<ErrorKind>,
}

impl<F> Target<F> {
    pub(crate) fn new(file: F) -> Target<F> {
        Target {
            file,
            failures: 0,
            kind: None,
        }
    }

    // Why writing it failed.
    pub(crate) fn kind(&self) -> ErrorKind {
        self.kind.unwrap_or(ErrorKind::Other)
    }

    pub(crate) fn into_file(self) -> F {
        self.file
    }
}

impl<F: Write> Sink for Target<F> {
    ghost held = { λ target. F.contents target.file };

    ghost failed = { λ target. target.failures };

    fn write(&mut self, bytes: &[u8]) -> Result<usize, Failed> {
        for _ in 0..MAX_TRIES {
            match self.file.write(bytes) {
                Ok(0) => break,
                Ok(count) => return Ok(count),
                Err(error) => match error.kind() {
                    ErrorKind::Interrupted => (),
                    kind => {
                        self.kind = Some(kind);
                        break;
                    }
                },
            }
        }
        self.failures = self.failures.saturating_add(1);
        Err(Failed)
    }

    fn failures(&self) -> u64 {
        self.failures
    }
}

// The place of backups, by the calls of a runtime; which the folder of a backup is that it made itself, held open, and which files
// it made there; and the older backups that stayed.
#[derive(Drop)]
struct Folder<'a, R> {
    rt: &'a R,
    alloc: Global,
    backups: &'a Backups,
    part: Option<Identity>,
    held: Option<HeldFolder>,
    has_store: bool,
    has_log: bool,
    stayed: Vec<u32>,
}

impl<'a, R: Files> Folder<'a, R> {
    // Whether this path is that of something that was made here, and not of a link to it.
    fn is_own(&self, path: &str, made: Option<Identity>) -> bool {
        match (fs::symlink_metadata(self.rt, path), made) {
            (Ok(found), Some(made)) => identity_of(&found) == made,
            _ => false,
        }
    }

    // Notes which the folder of a backup is, and holds it.
    fn hold_part(&mut self, path: &str) -> io::Result<()> {
        let found = fs::symlink_metadata(self.rt, path)?;
        self.part = Some(identity_of(&found));
        match HeldFolder::open(path) {
            Some(held) => {
                self.held = Some(held);
                Ok(())
            }
            None => Err(ErrorKind::Other.into()),
        }
    }

    // Makes the folder of a backup, and holds it.
    fn make_part(&mut self, path: &str) -> io::Result<()> {
        make_folder(self.rt, path)?;
        match self.hold_part(path) {
            Ok(()) => Ok(()),
            Err(error) => {
                // (at most a folder without a file is taken away so)
                let _ = fs::remove_dir(self.rt, path);
                Err(error)
            }
        }
    }

    // Makes a file of a backup, and notes that it did.
    fn make_file(&mut self, path: &str, which: StoreFile) -> io::Result<R::File> {
        let mut options = OpenOptions::new();
        options.write(true).create_new(true).mode(0o600);
        let file = options.open(self.rt, path)?;
        match which {
            StoreFile::Store => self.has_store = true,
            StoreFile::Log => self.has_log = true,
        }
        Ok(file)
    }

    // Opens a file of the store, if it is the one that is open.
    fn open(&self, which: StoreFile) -> Result<R::File, BackupFault> {
        let file = match File::open(self.rt, self.backups.path(which)) {
            Ok(file) => file,
            Err(error) => return Err(unread(&error)),
        };
        match file.metadata() {
            Ok(found) if identity_of(&found) == self.backups.identity(which) => Ok(file),
            Ok(_) => Err(BackupFault::Failed(BackupCause::Moved)),
            Err(error) => Err(unread(&error)),
        }
    }

    // Renames the folder of a backup that has all its files, and takes that back where it can't be had on the disk.
    fn rename(&self, part: &str, whole: &str) -> io::Result<()> {
        if !self.is_own(part, self.part) {
            return Err(ErrorKind::Other.into());
        }
        sync_folder(self.rt, part)?;
        fs::rename(self.rt, part, whole)?;
        match sync_folder(self.rt, self.backups.folder()) {
            Ok(()) => Ok(()),
            Err(error) => {
                let _ = fs::rename(self.rt, whole, part);
                Err(error)
            }
        }
    }

    // Takes away what was made here of a backup that isn't whole.
    fn remove_part(&self, held: &HeldFolder) {
        if self.has_store {
            let _ = held.remove(self.backups.name(StoreFile::Store));
        }
        if self.has_log {
            let _ = held.remove(self.backups.name(StoreFile::Log));
        }
    }

    // Gives the folder of a whole backup the name of one that isn't, if that is free, and has this on the disk.
    fn unname(&self, whole: &str, part: &str) -> io::Result<()> {
        if fs::symlink_metadata(self.rt, part).is_ok() {
            return Err(ErrorKind::AlreadyExists.into());
        }
        fs::rename(self.rt, whole, part)?;
        match sync_folder(self.rt, self.backups.folder()) {
            Ok(()) => Ok(()),
            Err(error) => {
                let _ = fs::rename(self.rt, part, whole);
                Err(error)
            }
        }
    }

    // Takes away a whole backup, whose name goes first, so that what a stop leaves of it isn't taken for one. Only its two files are
    // taken away, in the folder that was looked at. Where that is possible for none of them, it keeps its name.
    fn remove_whole(&self, whole: &str, part: &str) -> bool {
        let Some(held) = self.backups.hold_whole(self.rt, self.alloc, whole) else {
            return false;
        };
        if self.unname(whole, part).is_err() {
            return false;
        }
        if !held.remove(self.backups.name(StoreFile::Store)) {
            let _ = fs::rename(self.rt, part, whole);
            return false;
        }
        held.remove(self.backups.name(StoreFile::Log)) && fs::remove_dir(self.rt, part).is_ok()
    }
}

impl<'a, R: Files> BackupTarget<Counted<R::File>, Target<R::File>> for Folder<'a, R> {
    ghost done = { λ _. None };

    ghost holds = { λ _ _. [] };

    fn look(&mut self) -> Result<(), BackupFault> {
        if folder_at(self.rt, self.backups.folder())? == self.backups.folder_is {
            Ok(())
        } else {
            Err(BackupFault::Failed(BackupCause::Another))
        }
    }

    fn list(&mut self) -> Result<Numbers, BackupFault> {
        match fs::read_dir(&(self.rt, self.alloc), self.backups.folder()) {
            Ok(names) => numbers_in(self.alloc, names),
            Err(error) => Err(failed(&error)),
        }
    }

    fn begin(&mut self, number: u32) -> Result<(), BackupFault> {
        let part = self.backups.part(self.alloc, number)?;
        match self.make_part(part.as_str()) {
            Ok(()) => Ok(()),
            Err(error) => Err(failed(&error)),
        }
    }

    fn source(&mut self, which: StoreFile) -> Result<Counted<R::File>, BackupFault> {
        let file = self.open(which)?;
        Ok(Counted::new(file))
    }

    fn sink(&mut self, number: u32, which: StoreFile) -> Result<Target<R::File>, BackupFault> {
        let path = self.backups.part_file(self.alloc, number, which)?;
        match self.make_file(path.as_str(), which) {
            Ok(file) => Ok(Target {
                file,
                failures: 0,
                kind: None,
            }),
            Err(error) => Err(failed(&error)),
        }
    }

    fn cause(&self, sink: &Target<R::File>) -> BackupCause {
        match sink.kind {
            Some(kind) => backup_cause(kind),
            None => BackupCause::Failed,
        }
    }

    fn keep(
        &mut self,
        _number: u32,
        _half: StoreFile,
        sink: Target<R::File>,
    ) -> Result<(), BackupFault> {
        match sink.file.sync_all() {
            Ok(()) => Ok(()),
            Err(error) => Err(failed(&error)),
        }
    }

    fn finish(&mut self, number: u32) -> Result<(), BackupFault> {
        let part = self.backups.part(self.alloc, number)?;
        let whole = self.backups.whole(self.alloc, number)?;
        match self.rename(part.as_str(), whole.as_str()) {
            Ok(()) => Ok(()),
            Err(error) => Err(failed(&error)),
        }
    }

    // (what another has put in the place of the folder stays, and what that leads to)
    fn clear(&mut self, number: u32) {
        if let Some(held) = &self.held {
            self.remove_part(held);
        }
        if let Ok(part) = self.backups.part(self.alloc, number) {
            if self.is_own(part.as_str(), self.part) {
                let _ = fs::remove_dir(self.rt, part.as_str());
            }
        }
    }

    fn take_away(&mut self, number: u32) -> bool {
        match (
            self.backups.whole(self.alloc, number),
            self.backups.part(self.alloc, number),
        ) {
            (Ok(whole), Ok(part)) => self.remove_whole(whole.as_str(), part.as_str()),
            _ => false,
        }
    }

    // (without memory for it nobody hears of it)
    fn stay(&mut self, number: u32) {
        let _ = self.stayed.push(number);
    }
}

//! Backups of an open store: its two files, copied as they are between two requests into a new folder; and how a backup
//! replaces a store.
#![tactic(auto)]

mod backing;
mod faults;
mod folders;
mod held;
mod made;
mod names;
mod replacing;
mod restoring;
mod shelves;

pub use backing::back_up;
pub use faults::BackupFault;
pub use folders::{Backups, test_folder};
pub use made::{Made, stayed_note};
pub use names::Names;
pub use replacing::{BookEntries, Judges, put_back};
pub use restoring::{Place, RestoreFault, RestoreStep, restore};
pub use shelves::{BackupTarget, Numbers, StoreFile};

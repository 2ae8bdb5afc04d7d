//! The steps by which a backup replaces a store, over any place for it.

ghost use Rattle.std.specs.Prelude.{◌≡◌, ◌∷◌, [], List, Option, OnErr, OnOk};
ghost use Rattle.shop_backup.specs.Steps.{Adds};
ghost use Rattle.shop_backup.specs.Restores.{IsBrokenOff, restored};

use crate::shelves::StoreFile;
use shop_advice::StoreCause;
use std::alloc::AllocError;

/// Why a backup didn't replace a store.
#[derive(Clone, Copy, Debug, PartialEq, Eq)]
pub enum RestoreFault {
    /// Memory ran out.
    NoMemory,
    /// The store is in use, or its files can't be made or renamed.
    Store(StoreCause),
    /// It is no backup: one of its files is missing, or they hold no book.
    NoBackup,
    /// Files that an earlier attempt put aside are still there.
    Before,
}

impl From<AllocError> for RestoreFault {
    ghost use Rattle.std.specs.Prelude.{◌≡◌};
    ghost use Rattle.shop_backup.specs.declared.restoring.RestoreFault.TheVariants.{NoMemory};

    ghost from_gives = { λ _ fault. fault ≡ NoMemory };

    fn from(_error: AllocError) -> RestoreFault {
        RestoreFault::NoMemory
    }
}

/// A step by which a backup replaces a store.
#[derive(Clone, Copy, Debug, PartialEq, Eq)]
pub enum RestoreStep {
    /// Makes sure that no program has the store open, or opens it meanwhile.
    Close,
    /// Judges whether the backup has both files, and whether they hold a book.
    Judge,
    /// Checks that the names are free which the old files will get.
    Look,
    /// Copies a file of the backup beside the store, under its own name, and syncs it.
    Copy(StoreFile),
    /// Gives an old file another name, if it is there.
    PutAside(StoreFile),
    /// Gives a copy the name of the store's file.
    PutIn(StoreFile),
}

/// A store's place, where a backup replaces it.
pub trait Place {
    ghost use Rattle.shop_backup.specs.declared.restoring.RestoreStep.{RestoreStep as Step};

    /// The steps done so far, if they are known.
    ghost done: { Self → Option (List Step) };

    /// Does a step.
    fn take(&mut self, step: RestoreStep) -> Result<(), RestoreFault>
        ensures ok { OnOk result (Adds (done self.old) (done self.new) (step ∷ [])) }
        ensures err { OnErr result (done self.new ≡ done self.old) };
}

// Does these steps, one after the other, until one fails.
fn take_all<P: Place>(place: &mut P, steps: &[RestoreStep]) -> Result<(), RestoreFault>
    ensures ok { OnOk result (Adds (P.done place.old) (P.done place.new) steps.now) }
    ensures err { OnErr result (IsBrokenOff steps.now (P.done place.old) (P.done place.new)) }
{
    for step in steps {
        place.take(*step)?;
    }
    Ok(())
}

/// Replaces a store by a backup, in the steps that `restored` lists, each of which is on the disk before the next.
/// After an `Err` only a prefix of them was done, and the error is that of the next one.
pub fn restore<P: Place>(place: &mut P) -> Result<(), RestoreFault>
    ensures ok { OnOk result (Adds (P.done place.old) (P.done place.new) restored) }
    ensures err { OnErr result (IsBrokenOff restored (P.done place.old) (P.done place.new)) }
{
    let steps = [
        RestoreStep::Close,
        RestoreStep::Judge,
        RestoreStep::Look,
        RestoreStep::Copy(StoreFile::Store),
        RestoreStep::Copy(StoreFile::Log),
        RestoreStep::PutAside(StoreFile::Store),
        RestoreStep::PutAside(StoreFile::Log),
        RestoreStep::PutIn(StoreFile::Log),
        RestoreStep::PutIn(StoreFile::Store),
    ];
    take_all(place, &steps)
}

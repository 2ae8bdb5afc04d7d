//! Why a backup wasn't made.

use shop_advice::BackupCause;
use std::alloc::AllocError;

/// Why a backup wasn't made.
#[derive(Clone, Copy, Debug, PartialEq, Eq)]
pub enum BackupFault {
    /// Memory ran out.
    NoMemory,
    /// It couldn't be made in the folder.
    Failed(BackupCause),
}

impl From<AllocError> for BackupFault {
    ghost use Rattle.std.specs.Prelude.{◌≡◌};
    ghost use Rattle.shop_backup.specs.declared.faults.BackupFault.TheVariants.{NoMemory};

    ghost from_gives = { λ _ fault. fault ≡ NoMemory };

    fn from(_error: AllocError) -> BackupFault {
        BackupFault::NoMemory
    }
}

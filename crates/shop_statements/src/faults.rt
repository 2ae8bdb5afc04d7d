//! Why tables gave no answer: memory ran out, or the store failed.

use sqlite::{Error, ErrorCode};
use std::alloc::AllocError;

/// Why the tables gave no answer.
#[derive(Clone, Copy, Debug, PartialEq, Eq)]
pub enum TableFault {
    /// Memory ran out.
    NoMemory,
    /// The store failed, or a row is none of ours.
    Store,
}

impl From<Error> for TableFault {
    ghost use Rattle.std.specs.Prelude.{◌≡◌};
    ghost use Rattle.shop_statements.specs.Faults.{table_fault};

    ghost from_gives = { λ error fault. fault ≡ table_fault error };

    fn from(error: Error) -> TableFault {
        match error {
            Error::SqliteFailure(ErrorCode::OutOfMemory) => TableFault::NoMemory,
            _ => TableFault::Store,
        }
    }
}

impl From<AllocError> for TableFault {
    ghost use Rattle.std.specs.Prelude.{◌≡◌};
    ghost use Rattle.shop_statements.specs.declared.faults.TableFault.TheVariants.{NoMemory};

    ghost from_gives = { λ _ fault. fault ≡ NoMemory };

    fn from(_error: AllocError) -> TableFault {
        TableFault::NoMemory
    }
}

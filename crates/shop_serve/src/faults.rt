//! Why no more connections are served.

use std::alloc::AllocError;

/// Why no more connections are served.
#[derive(Clone, Copy, Debug, PartialEq, Eq)]
pub enum ServeFault {
    /// Memory ran out before the first connection.
    NoMemory,
    /// Connections couldn't be accepted or waited for.
    Port,
    /// The store's names lead to other files than those that are open.
    Moved,
}

impl From<AllocError> for ServeFault {
    ghost use Rattle.std.specs.Prelude.{◌≡◌};
    ghost use Rattle.shop_serve.specs.declared.faults.ServeFault.TheVariants.{NoMemory};

    ghost from_gives = { λ _ fault. fault ≡ NoMemory };

    fn from(_error: AllocError) -> ServeFault {
        ServeFault::NoMemory
    }
}

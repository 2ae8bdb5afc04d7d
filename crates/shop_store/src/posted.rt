//! A ledger beside a storage, as one.

use shop_book::{Ledger, Storage};

/// A book with its rows in a ledger, and a storage that makes its changes last.
#[derive(Drop)]
pub struct LedgerBook<S: Storage> {
    pub(crate) ledger: Ledger,
    pub(crate) storage: S,
    pub(crate) failures: u64,
}

//! What loading the tables gives.

use shop_book::Ledger;
use shop_tables::NoRow;

/// What loading the tables gives.
#[derive(Drop)]
pub enum Loaded {
    /// All rows but long texts, in a ledger.
    Ledger(Ledger),
    /// The totals aren't the sums of the parts.
    OtherSums,
    /// A row stands for no value.
    NoRow(NoRow),
}

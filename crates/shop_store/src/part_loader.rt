//! Loads parts that are handed out into a ledger, and adds them up.

use crate::adders::PartAdder;
use shop_book::Ledger;
use shop_records::PartList;
use std::alloc::Global;

/// Loads the parts that are handed out, some thousand at a time, and adds them up. It stops where memory runs out, and where
/// the adder stops.
#[derive(Drop)]
pub(crate) struct PartLoader {
    pub alloc: Global,
    pub adder: PartAdder,
    pub ledger: Ledger,
    /// Parts that aren't in the ledger yet.
    pub waiting: PartList,
    /// How many parts were handed out.
    pub seen: usize,
    /// Whether memory ran out.
    pub wanting: bool,
}

//! What a storage in SQL tables remembers.

use shop_book::{JobEnds, NumberIndex};

/// What is remembered of the entries: the number and the time of the last one, 0 and 0 if there is none, when jobs were done or
/// broken, and an index for stories.
#[derive(Drop)]
pub struct Remembered {
    pub(crate) number: u64,
    pub(crate) at: u64,
    pub(crate) ends: JobEnds,
    pub(crate) index: NumberIndex,
}

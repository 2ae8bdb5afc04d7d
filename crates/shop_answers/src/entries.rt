//! How much of the history an answer reports.

ghost use Rattle.std.specs.Prelude.{◌≡◌, ◌+◌, ◌<◌, ◌||◌, nat_le, length};
ghost use Rattle.shop_answers.specs.declared.listing.TheConstants.{MAX_LISTED, MAX_LISTED_BYTES};
ghost use Rattle.shop_answers.specs.Listing.{entry_bytes};

use crate::listing::{MAX_LISTED, MAX_LISTED_BYTES};
use shop_records::{ReportedEntry, Text};

// Bytes of a text.
fn bytes_of(text: &Text) -> u64
    ensures { result ≡ length text.now }
{
    text.as_str().len() as u64
}

/// Bytes of messages and replies with one entry more, or the greatest number of 64 bits where there are more. It is exact
/// as long as another entry may follow.
pub fn bytes_with(bytes: u64, reported: &ReportedEntry) -> u64
    ensures reached { nat_le MAX_LISTED_BYTES result
        ≡ nat_le MAX_LISTED_BYTES (bytes + entry_bytes reported.now) }
    ensures exact { result < MAX_LISTED_BYTES → result ≡ bytes + entry_bytes reported.now }
{
    let own = bytes_of(&reported.message).saturating_add(bytes_of(&reported.reply));
    bytes.saturating_add(own)
}

/// Whether a reply with so many entries and so many bytes takes no further entry.
pub fn is_full(count: usize, bytes: u64) -> bool
    ensures { result ≡ (nat_le MAX_LISTED count || nat_le MAX_LISTED_BYTES bytes) }
{
    count >= MAX_LISTED || bytes >= MAX_LISTED_BYTES
}

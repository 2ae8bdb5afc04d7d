//! Whether entries are the same.

ghost use Rattle.std.specs.Prelude.{◌≡◌};
ghost use Rattle.std.specs.Bool.{Decides};
ghost use Rattle.shop_book.specs.Equal.{same_entry};

use shop_records::Entry;

// Whether two entries are the same.
fn is_same(a: &Entry, b: &Entry) -> bool
    ensures { result ≡ same_entry a.now b.now }
{
    a.number == b.number
        && a.message_id == b.message_id
        && a.at == b.at
        && a.word.name() == b.word.name()
        && a.act == b.act
        && a.job == b.job
        && a.order == b.order
        && a.part == b.part
}

/// Whether these are the same entries, in the same order.
pub(crate) fn are_same(entries: &[Entry], others: &[Entry]) -> bool
    ensures { Decides result (entries.now ≡ others.now) }
{
    let len = entries.len();
    if len != others.len() {
        return false;
    }
    for i in 0..len {
        if !is_same(&entries[i], &others[i]) {
            return false;
        }
    }
    true
}

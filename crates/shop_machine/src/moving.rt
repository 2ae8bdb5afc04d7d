//! The totals of a material as a part becomes other parts: cells that go and cells that come.

ghost use Rattle.std.specs.Prelude.{◌≡◌, ◌*◌, ◌<◌, ◌≤◌, ◌^◌, ◌+◌, ◌-◌, ◌∷◌, [], sum_by, IsTrue};
ghost use Rattle.shop_machine.specs.Moving.{cells_counted, tally, can_move, has_cells, moved_totals, AreFew};

use shop_records::{Column, Part, Totals};

// The cells of parts that a column counts.
fn cells_counted(column: Column, parts: &[Part]) -> u64
    requires { sum_by (λ part. part.size.w * part.size.h) parts.now < 2 ^ 64 }
    ensures { result ≡ cells_counted column parts.now }
{
    let mut cells = 0;
    for part in parts {
        if part.counts_in(column) {
            cells += part.size.cells();
        }
    }
    cells
}

/// The cells of parts, column by column.
pub fn tally(parts: &[Part]) -> Totals
    requires { sum_by (λ part. part.size.w * part.size.h) parts.now < 2 ^ 64 }
    ensures { result ≡ tally parts.now }
{
    Totals {
        received: cells_counted(Column::Received, parts),
        stock: cells_counted(Column::Stock, parts),
        rack: cells_counted(Column::Rack, parts),
        pieces: cells_counted(Column::Pieces, parts),
        kerf: cells_counted(Column::Kerf, parts),
        scrap: cells_counted(Column::Scrap, parts),
        returned: cells_counted(Column::Returned, parts),
    }
}

/// The cells of one part, column by column.
pub fn tally_one(part: &Part) -> Totals
    ensures { result ≡ tally (part.now ∷ []) }
{
    let _cells = part.size.cells();
    tally(&[*part])
}

/// Whether a total holds what goes, and has room for so much more.
pub(crate) fn can_move(outgoing: u64, most: u64, total: u64) -> bool
    ensures { result ≡ can_move outgoing most total }
{
    outgoing <= total && most <= u64::MAX - total
}

/// Whether the totals of a part's material hold the part, and have room for as many cells more.
pub fn has_cells(part: &Part, totals: &Totals) -> bool
    ensures { result ≡ has_cells part.now totals.now }
{
    let outgoing = tally_one(part);
    let most = part.size.cells();
    can_move(outgoing.stock, most, totals.stock)
        && can_move(outgoing.rack, most, totals.rack)
        && can_move(outgoing.pieces, most, totals.pieces)
        && can_move(outgoing.kerf, most, totals.kerf)
        && can_move(outgoing.scrap, most, totals.scrap)
        && can_move(outgoing.returned, most, totals.returned)
}

/// A total when cells go and others come.
pub(crate) fn moved_total(outgoing: u64, incoming: u64, total: u64, most: u64) -> u64
    requires holds { IsTrue (can_move outgoing most total) }
    requires few { incoming ≤ most }
    ensures { result ≡ total - outgoing + incoming }
{
    total - outgoing + incoming
}

/// The totals when a part becomes other parts, of which these are the cells, column by column.
pub fn moved_totals(part: &Part, incoming: &Totals, totals: &Totals) -> Totals
    requires holds { IsTrue (has_cells part.now totals.now) }
    requires few { AreFew (part.now.size.w * part.now.size.h) incoming.now }
    ensures { result ≡ moved_totals part.now incoming.now totals.now }
{
    let outgoing = tally_one(part);
    let most = part.size.cells();
    Totals {
        received: totals.received,
        stock: moved_total(outgoing.stock, incoming.stock, totals.stock, most),
        rack: moved_total(outgoing.rack, incoming.rack, totals.rack, most),
        pieces: moved_total(outgoing.pieces, incoming.pieces, totals.pieces, most),
        kerf: moved_total(outgoing.kerf, incoming.kerf, totals.kerf, most),
        scrap: moved_total(outgoing.scrap, incoming.scrap, totals.scrap, most),
        returned: moved_total(outgoing.returned, incoming.returned, totals.returned, most),
    }
}

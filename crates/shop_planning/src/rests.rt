//! The largest rest that is kept when the plans of an answer are carried out.

ghost use Rattle.std.specs.Prelude.{◌≡◌, IfOk};
ghost use Rattle.shop_records.specs.Columns.{is_free};
ghost use Rattle.shop_machine.specs.Ending.{state_after_cut};
ghost use Rattle.shop_planning.specs.Rests as rests;
ghost use Rattle.shop_planning.specs.Rests.{IsLargestRest, IsRestOf};

use cut_bound::PlannedUnit;
use cut_measure::Limits;
use cut_tree::{Owner, Plan, Row, Stop};
use std::alloc::{AllocError, Global};

// Whether a rectangle that is laid stands once the job has ended.
fn is_kept(limits: Limits, row: &Row) -> bool
    ensures { result ≡ is_free (state_after_cut limits row.now.owner (record { w = row.now.w; h = row.now.h })) }
{
    let (long, short) = (row.w.max(row.h), row.w.min(row.h));
    match row.owner {
        Owner::Piece(_) | Owner::Kerf | Owner::Lost => false,
        Owner::Rest | Owner::Uncut => limits.min_long() <= long && limits.min_short() <= short,
    }
}

// The cells of a rectangle that is laid if it is kept, else none.
fn kept_cells(limits: Limits, row: &Row) -> u64
    ensures { result ≡ rests.kept_cells limits row.now }
{
    if is_kept(limits, row) {
        row.w as u64 * row.h as u64
    } else {
        0
    }
}

// The most cells that one of the rectangles keeps.
fn most_kept(limits: Limits, rows: &[Row]) -> u64
    ensures { result ≡ rests.most_kept limits rows.now }
{
    let mut most: u64 = 0;
    for row in rows {
        most = most.max(kept_cells(limits, row));
    }
    most
}

// The cells of the largest rest that a job on a plan keeps whose cuts are all made.
fn rest_of(alloc: Global, limits: Limits, plan: &Plan) -> Result<u64, AllocError>
    ensures { IfOk result (IsRestOf limits plan.now) }
{
    let rows = plan.lay(alloc, Stop::All)?;
    Ok(most_kept(limits, &rows))
}

/// The cells of the largest rest that jobs keep that carry the units' plans out; 0 if they keep none.
pub fn largest_rest(alloc: Global, limits: Limits, units: &[PlannedUnit]) -> Result<u64, AllocError>
    ensures { IfOk result (IsLargestRest limits units.now) }
{
    let mut largest: u64 = 0;
    for unit in units {
        let rest = rest_of(alloc, limits, &unit.plan)?;
        largest = largest.max(rest);
    }
    Ok(largest)
}

//! The best worth of a sheet without kerf, for every rectangle up to a size.

ghost use Rattle.std.specs.Prelude.{◌≡◌, ℕ, ◌+◌, ◌-◌, ◌*◌, ◌/◌, ◌^◌, ◌<◌, ◌≤◌, length, map, IfOk, IsTrue, All, true, false};
ghost use Rattle.cut_wants.specs.Legal.{HaveOwnDemands, HasSides};
ghost use Rattle.cut_wants.specs.Best.{IsBestOf};
ghost use Rattle.cut_sheets.specs.Table.{IsOffered, IsPlainRow, IsLiftedRow, IsUncutRow, IsBestRow, AreBestRows, AreUseful, ArePriced, IsPricedBelow, IsTable, HaveSidesAndBoundedWorths, heights};

use crate::row::{is_same, join_row, offer, stack_rows};
use cut_wants::number::Number;
use cut_wants::wants::Scaled;
use std::alloc::{AllocError, Global};

/// The most steps that a side of a sheet is counted in.
pub const MAX_STEPS: u32 = 500;

/// The best worths of rectangles by height and then width, in narrow numbers where they do.
#[derive(Drop)]
pub enum Table {
    /// Worths below 2^32.
    Narrow(Vec<Vec<u32>>),
    /// Worths below 2^64.
    Wide(Vec<Vec<u64>>),
}

/// The worth of one want, where it has the height as it stands.
fn offer_upright<T: Number>(row: &mut [T], want: &Scaled, height: usize)
    requires { (w : ℕ) → w < length row.old → HasSides want.now false w height
        → want.now.worth < T.limit }
    ensures { IsOffered want.now false height (map T.value row.old) (map T.value row.new) }
{
    if want.h as usize == height {
        offer(row, want.w as usize, want.worth as u64);
    }
}

/// The worth of one want, where it may be turned and then has the height.
fn offer_turned<T: Number>(row: &mut [T], want: &Scaled, height: usize)
    requires { (w : ℕ) → w < length row.old → HasSides want.now true w height
        → want.now.worth < T.limit }
    ensures { IsOffered want.now true height (map T.value row.old) (map T.value row.new) }
{
    if want.may_turn && want.w as usize == height {
        offer(row, want.h as usize, want.worth as u64);
    }
}

/// For each width, the best single piece of the height.
fn fill_plain<T: Number>(row: &mut [T], wants: &[Scaled], height: usize)
    requires fits { IsPricedBelow T.limit wants.now (length row.old) height }
    requires zeros { All (λ v. v ≡ 0) (map T.value row.old) }
    ensures { IsPlainRow wants.now height (map T.value row.new) }
{
    for want in wants {
        offer_upright(row, want, height);
        offer_turned(row, want, height);
    }
}

/// Raises each place to the best worth of the height below.
fn lift<T: Number>(row: &mut [T], wants: &[Scaled], rows: &[Vec<T>])
    requires own { HaveOwnDemands wants.now }
    requires fits { IsPricedBelow T.limit wants.now (length row.old) (length rows.now) }
    requires table { AreBestRows T.value wants.now (length row.old) rows.now }
    requires plain { IsPlainRow wants.now (length rows.now) (map T.value row.old) }
    ensures { IsLiftedRow wants.now (length rows.now) (map T.value row.new) }
{
    if rows.len() > 0 {
        stack_rows(row, &rows[0], &rows[rows.len() - 1]);
    }
}

/// Raises each place to the best of two rows that have the height together. A height that is worth no more than the one
/// below it gives no more with any other.
fn stack_all<T: Number>(row: &mut [T], wants: &[Scaled], rows: &[Vec<T>], useful: &[bool])
    requires own { HaveOwnDemands wants.now }
    requires fits { IsPricedBelow T.limit wants.now (length row.old) (length rows.now) }
    requires table { AreBestRows T.value wants.now (length row.old) rows.now }
    requires len { length useful.now ≡ length rows.now }
    requires useful { AreUseful wants.now (length row.old) useful.now }
    requires lifted { IsLiftedRow wants.now (length rows.now) (map T.value row.old) }
    ensures { IsUncutRow wants.now (length rows.now) (map T.value row.new) }
{
    let height = rows.len();
    for a in 1..height / 2 + 1 {
        if useful[a] && useful[height - a] {
            stack_rows(row, &rows[a], &rows[height - a]);
        }
    }
}

/// Each place of the row of zeros becomes the best worth of its width and the next height.
fn fill_best<T: Number>(row: &mut [T], wants: &[Scaled], rows: &[Vec<T>], useful: &[bool])
    requires own { HaveOwnDemands wants.now }
    requires fits { IsPricedBelow T.limit wants.now (length row.old) (length rows.now) }
    requires table { AreBestRows T.value wants.now (length row.old) rows.now }
    requires len { length useful.now ≡ length rows.now }
    requires useful { AreUseful wants.now (length row.old) useful.now }
    requires zeros { All (λ v. v ≡ 0) (map T.value row.old) }
    ensures { IsBestRow wants.now (length row.old) (length rows.now) (map T.value row.new) }
{
    fill_plain(row, wants, rows.len());
    lift(row, wants, rows);
    stack_all(row, wants, rows, useful);
    join_row(row);
}

fn best_row<T: Number>(
    alloc: Global,
    wants: &[Scaled],
    rows: &[Vec<T>],
    useful: &[bool],
    width: usize,
) -> Result<Vec<T>, AllocError>
    requires own { HaveOwnDemands wants.now }
    requires width { width ≤ MAX_STEPS }
    requires fits { IsPricedBelow T.limit wants.now (width + 1) (length rows.now) }
    requires table { AreBestRows T.value wants.now (width + 1) rows.now }
    requires len { length useful.now ≡ length rows.now }
    requires useful { AreUseful wants.now (width + 1) useful.now }
    ensures { IfOk result (λ row. IsBestRow wants.now (width + 1) (length rows.now)
        (map T.value row.items)) }
{
    let mut row = T::zeros(alloc, width + 1)?;
    fill_best(&mut row, wants, rows, useful);
    Ok(row)
}

/// Whether the next row is worth more than the last one somewhere.
fn is_useful<T: Number>(rows: &[Vec<T>], row: &[T], wants: &[Scaled], places: usize) -> bool
    requires table { AreBestRows T.value wants.now places rows.now }
    requires row { IsBestRow wants.now places (length rows.now) (map T.value row.now) }
    ensures no { result ≡ false → (w v : ℕ) → w < places
        → IsBestOf wants.now 0 w (length rows.now) v
        → IsBestOf wants.now 0 w (length rows.now - 1) v }
    ensures yes { IsTrue result → 1 ≤ length rows.now
        → ((w v : ℕ) → w < places → IsBestOf wants.now 0 w (length rows.now) v
        → IsBestOf wants.now 0 w (length rows.now - 1) v) → ⊥ }
{
    rows.len() == 0 || !is_same(&rows[rows.len() - 1], row)
}

/// The rows of every height up to one.
fn best_rows<T: Number>(
    alloc: Global,
    wants: &[Scaled],
    width: usize,
    height: usize,
) -> Result<Vec<Vec<T>>, AllocError>
    requires own { HaveOwnDemands wants.now }
    requires width { width ≤ MAX_STEPS }
    requires height { height ≤ MAX_STEPS }
    requires fits { IsPricedBelow T.limit wants.now (width + 1) height }
    ensures len { IfOk result (λ rows. length rows.items ≡ height + 1) }
    ensures table { IfOk result (λ rows. AreBestRows T.value wants.now (width + 1) rows.items) }
{
    let mut rows: Vec<Vec<T>> = Vec::new(alloc);
    let mut useful = Vec::new(alloc);
    for _ in 0..height + 1 {
        let row = best_row(alloc, wants, &rows, &useful, width)?;
        useful.push(is_useful(&rows, &row, wants, width + 1))?;
        rows.push(row)?;
    }
    Ok(rows)
}

/// The worth of a want for each unit of its area, rounded up.
fn price(want: &Scaled) -> u64
    requires sides { (1 ≤ want.now.size.w) × (1 ≤ want.now.size.h) }
    requires worth { want.now.worth ≤ 2 ^ 30 }
    ensures enough { want.now.worth ≤ result * (want.now.size.w * want.now.size.h) }
    ensures small { result ≤ 2 ^ 30 }
{
    (want.worth as u64).div_ceil(want.w as u64 * want.h as u64)
}

/// The highest price of a want.
fn highest_price(wants: &[Scaled]) -> u64
    requires small { HaveSidesAndBoundedWorths wants.now }
    ensures priced { ArePriced result wants.now }
    ensures small { result ≤ 2 ^ 30 }
{
    let mut highest = 0;
    for want in wants {
        highest = price(want).max(highest);
    }
    highest
}

/// The best worth of every rectangle up to the size.
pub fn best_table(
    alloc: Global,
    wants: &[Scaled],
    width: usize,
    height: usize,
) -> Result<Table, AllocError>
    requires own { HaveOwnDemands wants.now }
    requires small { HaveSidesAndBoundedWorths wants.now }
    requires width { width ≤ MAX_STEPS }
    requires height { height ≤ MAX_STEPS }
    ensures len { IfOk result (λ table. heights table ≡ height + 1) }
    ensures table { IfOk result (IsTable wants.now (width + 1)) }
{
    let area = width as u64 * height as u64;
    if highest_price(wants) * area < 4294967296 {
        let rows = best_rows(alloc, wants, width, height)?;
        Ok(Table::Narrow(rows))
    } else {
        let rows = best_rows(alloc, wants, width, height)?;
        Ok(Table::Wide(rows))
    }
}

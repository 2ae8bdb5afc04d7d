//! How a row of a table is filled: by single pieces, by two rows of parts, and by two parts in it.

ghost use Rattle.std.specs.Prelude.{◌≡◌, ◌≢◌, ℕ, ◌+◌, ◌≤◌, ◌<◌, length, map, max, slice_index, slice_index_or, true, false, [], ◌↔◌, All, Contains, IsTrue};
ghost use Rattle.cut_wants.specs.declared.wants.Want.{Want};
ghost use Rattle.cut_classes.specs.declared.pairs.Pair.{Pair};
ghost use Rattle.cut_classes.specs.Classes.{count};
ghost use Rattle.cut_classes.specs.Classes as specs;
ghost use Rattle.cut_classes.specs.Grids.{IsUsableGrid, across_of, down_of};
ghost use Rattle.cut_classes.specs.Filling.{AreFilledRows, CoverParts, CoversParts, HasCeilingBelow, IsFilledRow, IsOfferedTo, IsOverParts, IsOverSums, IsPieceRow, IsRaised, rows_of, worth_at};

use crate::grid::Grid;
use crate::pairs::{Pair, class_of, high_of};
use cut_measure::MAX_KERF;
use cut_wants::number::Number;
use cut_wants::wants::Want;

// A worth at a place of the row, where it is greater than what stands there.
fn offer<T: Number>(row: &mut [T], at: usize, worth: u64)
    requires { at < length row.old → worth < T.limit }
    ensures at { at < length row.old
        → slice_index (map T.value row.new) at ≡ max (slice_index (map T.value row.old) at) worth }
    ensures others { (p : ℕ) → p ≢ at
        → slice_index (map T.value row.new) p ≡ slice_index (map T.value row.old) p }
{
    if at < row.len() {
        row[at] = row[at].raised(T::of(0), T::of(worth));
    }
}

// Whether a piece has its width in a class and its height within the greatest.
fn is_in_row(grid: &Grid, class: usize, w: u32, h: u32) -> bool
    requires { class < length grid.now.across.items }
    ensures { IsTrue result ↔ ((slice_index grid.now.across.items class ≤ w)
        × (w ≤ specs.high_of (across_of grid.now) class) × (h ≤ grid.now.most_down)) }
{
    grid.across[class] <= w
        && w <= high_of(&grid.across, grid.most_across, class)
        && h <= grid.most_down
}

// The worth of a want at the class of its height, where its width is in the row's class.
fn offer_upright<T: Number>(row: &mut [T], grid: &Grid, class: usize, kerf: u32, want: &Want)
    requires kerf { kerf ≤ MAX_KERF }
    requires usable { IsUsableGrid grid.now }
    requires class { class < length grid.now.across.items }
    requires len { length row.old ≡ length grid.now.down.items }
    requires worth { want.now.worth < T.limit }
    ensures { IsOfferedTo (down_of grid.now) (across_of grid.now) kerf want.now false class
        (map T.value row.old) (map T.value row.new) }
{
    let w = want.size.w() + kerf;
    let h = want.size.h() + kerf;
    if is_in_row(grid, class, w, h) {
        offer(row, class_of(&grid.down, h), want.worth as u64);
    }
}

// The worth of a want at the class of its width, where it may be turned and its height is in the
// row's class.
fn offer_turned<T: Number>(row: &mut [T], grid: &Grid, class: usize, kerf: u32, want: &Want)
    requires kerf { kerf ≤ MAX_KERF }
    requires usable { IsUsableGrid grid.now }
    requires class { class < length grid.now.across.items }
    requires len { length row.old ≡ length grid.now.down.items }
    requires worth { want.now.worth < T.limit }
    ensures { IsOfferedTo (down_of grid.now) (across_of grid.now) kerf want.now true class
        (map T.value row.old) (map T.value row.new) }
{
    let w = want.size.h() + kerf;
    let h = want.size.w() + kerf;
    if want.may_turn && is_in_row(grid, class, w, h) {
        offer(row, class_of(&grid.down, h), want.worth as u64);
    }
}

// The worths of the wants that have a side in the row's class, each at the class of its other side.
fn offer_wants<T: Number>(row: &mut [T], grid: &Grid, class: usize, kerf: u32, wants: &[Want])
    requires kerf { kerf ≤ MAX_KERF }
    requires usable { IsUsableGrid grid.now }
    requires class { class < length grid.now.across.items }
    requires len { length row.old ≡ length grid.now.down.items }
    requires worths { (x : Want) → Contains wants.now x → x.worth < T.limit }
    requires zeros { All (λ v. v ≡ 0) (map T.value row.old) }
    ensures { IsPieceRow wants.now kerf (down_of grid.now) (across_of grid.now) (map T.value row.new)
        class }
{
    for want in wants {
        offer_upright(row, grid, class, kerf, want);
        offer_turned(row, grid, class, kerf, want);
    }
}

// Each place is raised to the sum of the two rows there.
fn stack_rows<T: Number>(row: &mut [T], low: &[T], high: &[T])
    requires low_len { length low.now ≡ length row.old }
    requires high_len { length high.now ≡ length row.old }
    requires fits { (p : ℕ) → p < length row.old
        → slice_index (map T.value low.now) p + slice_index (map T.value high.now) p < T.limit }
    ensures { (p : ℕ) → p < length row.old → slice_index (map T.value row.new) p
        ≡ max (slice_index (map T.value row.old) p)
        (slice_index (map T.value low.now) p + slice_index (map T.value high.now) p) }
{
    for p in 0..row.len() {
        row[p] = row[p].raised(low[p], high[p]);
    }
}

// The same with the two rows of a pair.
fn stack_pair<T: Number>(row: &mut [T], rows: &[Vec<T>], pair: &Pair)
    requires inside { (pair.now.first < length rows.now) × (pair.now.second < length rows.now) }
    requires wide { (j : ℕ) → j < length rows.now
        → length (slice_index_or (rows_of T.value rows.now) j []) ≡ length row.old }
    requires fits { (p : ℕ) → p < length row.old
        → worth_at (rows_of T.value rows.now) p pair.now.first
        + worth_at (rows_of T.value rows.now) p pair.now.second < T.limit }
    ensures { (p : ℕ) → p < length row.old → slice_index (map T.value row.new) p
        ≡ max (slice_index (map T.value row.old) p)
        (worth_at (rows_of T.value rows.now) p pair.now.first
        + worth_at (rows_of T.value rows.now) p pair.now.second) }
{
    stack_rows(row, &rows[pair.first as usize], &rows[pair.second as usize]);
}

// Each place is raised to the sum of any two rows of parts.
fn stack_all<T: Number>(
    row: &mut [T],
    grid: &Grid,
    kerf: u32,
    wants: &[Want],
    rows: &[Vec<T>],
    pairs: &[Pair],
)
    requires usable { IsUsableGrid grid.now }
    requires class { length rows.now < length grid.now.across.items }
    requires fits { HasCeilingBelow T.limit wants.now kerf (down_of grid.now) (across_of grid.now) }
    requires rows { AreFilledRows wants.now kerf (down_of grid.now) (across_of grid.now)
        (rows_of T.value rows.now) }
    requires pairs { CoversParts (across_of grid.now) (length rows.now) pairs.now }
    requires pieces { IsPieceRow wants.now kerf (down_of grid.now) (across_of grid.now)
        (map T.value row.old) (length rows.now) }
    ensures pieces { IsPieceRow wants.now kerf (down_of grid.now) (across_of grid.now)
        (map T.value row.new) (length rows.now) }
    ensures sums { IsOverSums (down_of grid.now) (across_of grid.now) (rows_of T.value rows.now)
        (map T.value row.new) (length rows.now) }
{
    for pair in pairs {
        stack_pair(row, rows, pair);
    }
}

// A worth or the sum of two places, whichever is more.
fn raised_by<T: Number>(worth: T, row: &[T], pair: &Pair) -> T
    requires inside { (pair.now.first < length row.now) × (pair.now.second < length row.now) }
    requires fits { slice_index (map T.value row.now) pair.now.first
        + slice_index (map T.value row.now) pair.now.second < T.limit }
    ensures { T.value result ≡ max (T.value worth) (slice_index (map T.value row.now) pair.now.first
        + slice_index (map T.value row.now) pair.now.second) }
{
    worth.raised(row[pair.first as usize], row[pair.second as usize])
}

// A worth or the greatest sum of two places of a pair, whichever is more.
fn best_sum<T: Number>(worth: T, row: &[T], pairs: &[Pair]) -> T
    requires inside { (p : Pair) → Contains pairs.now p
        → (p.first < length row.now) × (p.second < length row.now) }
    requires fits { (p : Pair) → Contains pairs.now p → slice_index (map T.value row.now) p.first
        + slice_index (map T.value row.now) p.second < T.limit }
    ensures raised { T.value worth ≤ T.value result }
    ensures most { (p : Pair) → Contains pairs.now p → slice_index (map T.value row.now) p.first
        + slice_index (map T.value row.now) p.second ≤ T.value result }
    ensures least { (bound : ℕ) → T.value worth ≤ bound
        → ((p : Pair) → Contains pairs.now p → slice_index (map T.value row.now) p.first
        + slice_index (map T.value row.now) p.second ≤ bound) → T.value result ≤ bound }
{
    let mut best = worth;
    for pair in pairs {
        best = raised_by(best, row, pair);
    }
    best
}

// A place is raised to the greatest sum of two places of a pair.
fn join_place<T: Number>(row: &mut [T], at: usize, pairs: &[Pair])
    requires at { at < length row.old }
    requires inside { (p : Pair) → Contains pairs.now p → (p.first < at) × (p.second < at) }
    requires fits { (p : Pair) → Contains pairs.now p → slice_index (map T.value row.old) p.first
        + slice_index (map T.value row.old) p.second < T.limit }
    ensures raised { slice_index (map T.value row.old) at ≤ slice_index (map T.value row.new) at }
    ensures others { (p : ℕ) → p ≢ at
        → slice_index (map T.value row.new) p ≡ slice_index (map T.value row.old) p }
    ensures most { (p : Pair) → Contains pairs.now p → slice_index (map T.value row.old) p.first
        + slice_index (map T.value row.old) p.second ≤ slice_index (map T.value row.new) at }
    ensures least { (bound : ℕ) → slice_index (map T.value row.old) at ≤ bound
        → ((p : Pair) → Contains pairs.now p → slice_index (map T.value row.old) p.first
        + slice_index (map T.value row.old) p.second ≤ bound)
        → slice_index (map T.value row.new) at ≤ bound }
{
    row[at] = best_sum(row[at], row, pairs);
}

// Each place is raised to the sum of any two places of parts.
fn join_row<T: Number>(
    row: &mut [T],
    grid: &Grid,
    kerf: u32,
    wants: &[Want],
    class: usize,
    lists: &[Vec<Pair>],
)
    requires usable { IsUsableGrid grid.now }
    requires class { class < length grid.now.across.items }
    requires fits { HasCeilingBelow T.limit wants.now kerf (down_of grid.now) (across_of grid.now) }
    requires len { length lists.now ≡ length row.old }
    requires lists { CoverParts (down_of grid.now) lists.now }
    requires pieces { IsPieceRow wants.now kerf (down_of grid.now) (across_of grid.now)
        (map T.value row.old) class }
    ensures kept { IsRaised (map T.value row.old) (map T.value row.new) }
    ensures pieces { IsPieceRow wants.now kerf (down_of grid.now) (across_of grid.now)
        (map T.value row.new) class }
    ensures parts { IsOverParts (down_of grid.now) (map T.value row.new)
        (count (down_of grid.now)) }
{
    for at in 0..row.len() {
        join_place(row, at, &lists[at]);
    }
}

// A row of zeros becomes the one of the next class.
pub(crate) fn fill_row<T: Number>(
    row: &mut [T],
    grid: &Grid,
    kerf: u32,
    wants: &[Want],
    rows: &[Vec<T>],
    pairs: &[Pair],
    lists: &[Vec<Pair>],
)
    requires kerf { kerf ≤ MAX_KERF }
    requires usable { IsUsableGrid grid.now }
    requires class { length rows.now < length grid.now.across.items }
    requires fits { HasCeilingBelow T.limit wants.now kerf (down_of grid.now) (across_of grid.now) }
    requires rows { AreFilledRows wants.now kerf (down_of grid.now) (across_of grid.now)
        (rows_of T.value rows.now) }
    requires pairs { CoversParts (across_of grid.now) (length rows.now) pairs.now }
    requires lists { CoverParts (down_of grid.now) lists.now }
    requires len { length lists.now ≡ length row.old }
    requires wide { length row.old ≡ length grid.now.down.items }
    requires zeros { All (λ v. v ≡ 0) (map T.value row.old) }
    ensures { IsFilledRow wants.now kerf (down_of grid.now) (across_of grid.now)
        (rows_of T.value rows.now) (map T.value row.new) (length rows.now) }
{
    offer_wants(row, grid, rows.len(), kerf, wants);
    stack_all(row, grid, kerf, wants, rows, pairs);
    join_row(row, grid, kerf, wants, rows.len(), lists);
}

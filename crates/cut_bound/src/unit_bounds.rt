//! What a unit of each size is worth at most, read from one table that is made for all of them.

ghost use Rattle.std.specs.Prelude.{◌≡◌, ◌+◌, ◌≤◌, ◌<◌, ℕ, All, IfOk, map};
ghost use Rattle.cut_wants.specs.Legal.{HaveOwnDemands};
ghost use Rattle.cut_wants.specs.Best.{IsBestOf};
ghost use Rattle.cut_bars.specs.Counts.{HaveBoundedWorthsAndLefts};
ghost use Rattle.cut_sheets.specs.Rounded.{IsStep, steps_down, wants_down};
ghost use Rattle.cut_sheets.specs.Table.{HaveBoundedWorths, IsTable, heights};
ghost use Rattle.cut_bound.specs.Bounds.{IsGreatest, sizes_of};
ghost use Rattle.cut_classes.specs.Classes.{IsLeastCeiling};
ghost use Rattle.cut_classes.specs.Filling.{worth_in};
ghost use Rattle.cut_classes.specs.Grids.{IsUsableGrid, across_of, counted, down_of};
ghost use Rattle.cut_bound.specs.UnitBounds.{IsBarBound, IsClassBound};

use crate::stock::{BoundedSize, StockSize};
use cut_bars::bar::{Entry, MAX_BAR_LENGTH, reach};
use cut_classes::{CeilingTable, Grid, ceiling_of, ceilings, counted_wants, grid_of};
use cut_measure::{MAX_KERF, Size};
use cut_sheets::bound::all_down;
use cut_sheets::read::worth_at;
use cut_sheets::sheet::{MAX_STEPS, Table, best_table};
use cut_wants::wants::{Scaled, Want};
use std::alloc::{AllocError, Global};

// The longest of the sizes.
fn longest(sizes: &[StockSize]) -> u32
    ensures most { All (λ z. z.size.w ≤ result) sizes.now }
    ensures least { (bound : ℕ) → All (λ z. z.size.w ≤ bound) sizes.now → result ≤ bound }
{
    let mut longest = 0;
    for stock in sizes {
        longest = stock.size.w().max(longest);
    }
    longest
}

// The greatest worth of an entry within a span.
fn best_within(entries: &[Entry], span: u32) -> u64
    ensures { IsGreatest (λ e. e.span ≤ span) (λ e. e.worth) entries.now result }
{
    let mut best = 0;
    for entry in entries {
        if entry.span <= span {
            best = entry.worth.max(best);
        }
    }
    best
}

/// Each of some bars with the worth of its best plan within the counts, from the spans that counts
/// reach of the longest.
pub fn bounded_bars(
    alloc: Global,
    kerf: u32,
    sizes: &[StockSize],
    wants: &[Want],
) -> Result<Vec<BoundedSize>, AllocError>
    requires modest { HaveBoundedWorthsAndLefts wants.now }
    requires short { All (λ z. z.size.w ≤ MAX_BAR_LENGTH) sizes.now }
    requires kerf { kerf ≤ MAX_KERF }
    ensures sizes { IfOk result (λ bounded. sizes_of bounded.items ≡ sizes.now) }
    ensures unit_bounds { IfOk result
        (λ bounded. All (λ r. IsBarBound wants.now kerf r.stock.size.w r.best) bounded.items) }
{
    let longest = longest(sizes);
    let entries = reach(alloc, wants, longest, kerf)?;
    let mut bounded = Vec::new(alloc);
    for stock in sizes {
        let best = best_within(&entries, stock.size.w() + kerf);
        let size = BoundedSize {
            stock: *stock,
            best,
        };
        bounded.push(size)?;
    }
    Ok(bounded)
}

// The most steps that a size has across.
fn most_across(sizes: &[StockSize], kerf: u32, step: u32) -> u32
    requires kerf { kerf ≤ MAX_KERF }
    requires step { 1 ≤ step }
    ensures most { All (λ z. steps_down kerf step z.size.w ≤ result) sizes.now }
    ensures least { (bound : ℕ) → All (λ z. steps_down kerf step z.size.w ≤ bound) sizes.now
        → result ≤ bound }
{
    let mut most = 0;
    for stock in sizes {
        most = ((stock.size.w() + kerf) / step).max(most);
    }
    most
}

// The most steps that a size has down.
fn most_down(sizes: &[StockSize], kerf: u32, step: u32) -> u32
    requires kerf { kerf ≤ MAX_KERF }
    requires step { 1 ≤ step }
    ensures most { All (λ z. steps_down kerf step z.size.h ≤ result) sizes.now }
    ensures least { (bound : ℕ) → All (λ z. steps_down kerf step z.size.h ≤ bound) sizes.now
        → result ≤ bound }
{
    let mut most = 0;
    for stock in sizes {
        most = ((stock.size.h() + kerf) / step).max(most);
    }
    most
}

// Each of some sheets with its best worth in a table.
fn read_sheets(
    alloc: Global,
    kerf: u32,
    step: u32,
    sizes: &[StockSize],
    rounded: &[Scaled],
    table: &Table,
    places: usize,
) -> Result<Vec<BoundedSize>, AllocError>
    requires kerf { kerf ≤ MAX_KERF }
    requires step { 1 ≤ step }
    requires table { IsTable rounded.now places table.now }
    requires wide { All (λ z. steps_down kerf step z.size.w < places) sizes.now }
    requires tall { All (λ z. steps_down kerf step z.size.h < heights table.now) sizes.now }
    ensures sizes { IfOk result (λ bounded. sizes_of bounded.items ≡ sizes.now) }
    ensures unit_bounds { IfOk result (λ bounded. All (λ r. IsBestOf rounded.now 0
        (steps_down kerf step r.stock.size.w) (steps_down kerf step r.stock.size.h) r.best)
        bounded.items) }
{
    let mut bounded = Vec::new(alloc);
    for stock in sizes {
        let w = ((stock.size.w() + kerf) / step) as usize;
        let h = ((stock.size.h() + kerf) / step) as usize;
        let best = worth_at(rounded, table, places, w, h);
        let size = BoundedSize {
            stock: *stock,
            best,
        };
        bounded.push(size)?;
    }
    Ok(bounded)
}

/// Each of some sheets with its ceiling, from the table of a sheet that has as many steps on each
/// side as any.
pub fn bounded_sheets(
    alloc: Global,
    kerf: u32,
    step: u32,
    sizes: &[StockSize],
    wants: &[Want],
) -> Result<Vec<BoundedSize>, AllocError>
    requires own { HaveOwnDemands wants.now }
    requires worthy { HaveBoundedWorths wants.now }
    requires kerf { kerf ≤ MAX_KERF }
    requires step { IsStep kerf step wants.now }
    requires wide { All (λ z. steps_down kerf step z.size.w ≤ MAX_STEPS) sizes.now }
    requires tall { All (λ z. steps_down kerf step z.size.h ≤ MAX_STEPS) sizes.now }
    ensures sizes { IfOk result (λ bounded. sizes_of bounded.items ≡ sizes.now) }
    ensures unit_bounds { IfOk result (λ bounded. All (λ r. IsBestOf (wants_down kerf step wants.now) 0
        (steps_down kerf step r.stock.size.w) (steps_down kerf step r.stock.size.h) r.best)
        bounded.items) }
{
    let across = most_across(sizes, kerf, step) as usize;
    let down = most_down(sizes, kerf, step) as usize;
    let rounded = all_down(alloc, wants, kerf, step)?;
    let table = best_table(alloc, &rounded, across, down)?;
    read_sheets(alloc, kerf, step, sizes, &rounded, &table, across + 1)
}

// The sides of some sizes.
fn extents_of(alloc: Global, sizes: &[StockSize]) -> Result<Vec<Size>, AllocError>
    ensures { IfOk result (λ extents. extents.items ≡ map (λ z. z.size) sizes.now) }
{
    sizes.iter().map(|stock| stock.size).collect(alloc)
}

/// Points of both axes for some sheets and wants, about so many along each.
pub(crate) fn stock_grid(
    alloc: Global,
    kerf: u32,
    points: usize,
    sizes: &[StockSize],
    wants: &[Want],
) -> Result<Grid, AllocError>
    requires kerf { kerf ≤ MAX_KERF }
    ensures usable { IfOk result IsUsableGrid }
    ensures wide { IfOk result (λ grid. All (λ z. z.size.w + kerf ≤ grid.most_across) sizes.now) }
    ensures tall { IfOk result (λ grid. All (λ z. z.size.h + kerf ≤ grid.most_down) sizes.now) }
{
    let extents = extents_of(alloc, sizes)?;
    let grid = grid_of(alloc, kerf, &extents, wants, points)?;
    Ok(grid)
}

// Each of some sheets with the worth of a table at the classes of its sides.
fn read_classes(
    alloc: Global,
    kerf: u32,
    grid: &Grid,
    sizes: &[StockSize],
    wants: &[Want],
    table: &CeilingTable,
) -> Result<Vec<BoundedSize>, AllocError>
    requires kerf { kerf ≤ MAX_KERF }
    requires usable { IsUsableGrid grid.now }
    requires wide { All (λ z. z.size.w + kerf ≤ grid.now.most_across) sizes.now }
    requires tall { All (λ z. z.size.h + kerf ≤ grid.now.most_down) sizes.now }
    requires table { IsLeastCeiling wants.now kerf (across_of grid.now) (down_of grid.now)
        (worth_in table.now) }
    ensures sizes { IfOk result (λ bounded. sizes_of bounded.items ≡ sizes.now) }
    ensures unit_bounds { IfOk result (λ bounded. All (λ r. IsClassBound wants.now kerf
        (across_of grid.now) (down_of grid.now) r.stock.size r.best) bounded.items) }
{
    let mut bounded = Vec::new(alloc);
    for stock in sizes {
        let best = ceiling_of(table, grid, kerf, stock.size);
        let size = BoundedSize {
            stock: *stock,
            best,
        };
        bounded.push(size)?;
    }
    Ok(bounded)
}

/// Each of some sheets with its ceiling, from the table over the classes of a grid.
pub(crate) fn bounded_classes(
    alloc: Global,
    kerf: u32,
    grid: &Grid,
    sizes: &[StockSize],
    wants: &[Want],
) -> Result<Vec<BoundedSize>, AllocError>
    requires kerf { kerf ≤ MAX_KERF }
    requires usable { IsUsableGrid grid.now }
    requires wide { All (λ z. z.size.w + kerf ≤ grid.now.most_across) sizes.now }
    requires tall { All (λ z. z.size.h + kerf ≤ grid.now.most_down) sizes.now }
    ensures sizes { IfOk result (λ bounded. sizes_of bounded.items ≡ sizes.now) }
    ensures unit_bounds { IfOk result (λ bounded. All (λ r. IsClassBound
        (counted kerf (across_of grid.now) (down_of grid.now) wants.now) kerf
        (across_of grid.now) (down_of grid.now) r.stock.size r.best) bounded.items) }
{
    let table = ceilings(alloc, kerf, grid, wants)?;
    let counted = counted_wants(alloc, kerf, grid, wants)?;
    read_classes(alloc, kerf, grid, sizes, &counted, &table)
}

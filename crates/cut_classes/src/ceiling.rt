//! What a sheet is worth at most, by the classes of its sides.

ghost use Rattle.std.specs.Prelude.{◌≡◌, ◌+◌, ◌*◌, ◌^◌, ◌≤◌, ◌<◌, IfOk};
ghost use Rattle.cut_classes.specs.Classes.{IsCeilingOf, IsLeastCeiling};
ghost use Rattle.cut_classes.specs.Grids as grids;
ghost use Rattle.cut_classes.specs.Grids.{AreCounted, IsUsableGrid, across_of, down_of};
ghost use Rattle.cut_classes.specs.Filling.{HasCeilingBelow, worth_in};

use crate::grid::Grid;
use crate::narrow::is_narrow;
use crate::pairs::class_of;
use crate::table::filled_rows;
use crate::usable::{counted_wants, is_usable_grid};
use cut_measure::{MAX_KERF, Size};
use cut_wants::wants::Want;
use std::alloc::{AllocError, Global};

/// A worth for each class of widths and each of heights: a row for each class of widths, in
/// narrow numbers where they do.
#[derive(Drop)]
pub enum CeilingTable {
    /// Worths below 2^32.
    Narrow(Vec<Vec<u32>>),
    /// Worths below 2^64.
    Wide(Vec<Vec<u64>>),
}

impl CeilingTable {
    /// The worth at a class of widths and one of heights, 0 where the table has no such place.
    pub fn worth(&self, across: usize, down: usize) -> u64
        ensures { result ≡ worth_in self.now across down }
    {
        match self {
            CeilingTable::Narrow(rows) => match rows.get(across) {
                None => 0,
                Some(row) => match row.get(down) {
                    None => 0,
                    Some(worth) => *worth as u64,
                },
            },
            CeilingTable::Wide(rows) => match rows.get(across) {
                None => 0,
                Some(row) => match row.get(down) {
                    None => 0,
                    Some(worth) => *worth,
                },
            },
        }
    }
}

// The table of wants that it counts, in narrow numbers.
fn narrow_ceilings(
    alloc: Global,
    kerf: u32,
    grid: &Grid,
    wants: &[Want],
) -> Result<CeilingTable, AllocError>
    requires kerf { kerf ≤ MAX_KERF }
    requires usable { IsUsableGrid grid.now }
    requires counted { AreCounted wants.now kerf (across_of grid.now) (down_of grid.now) }
    requires fits { HasCeilingBelow (2 ^ 32) wants.now kerf (down_of grid.now) (across_of grid.now) }
    ensures { IfOk result (λ table. IsLeastCeiling wants.now kerf (across_of grid.now)
        (down_of grid.now) (worth_in table)) }
{
    let rows = filled_rows(alloc, grid, kerf, wants)?;
    Ok(CeilingTable::Narrow(rows))
}

// The table of wants that it counts, in wide numbers.
fn wide_ceilings(
    alloc: Global,
    kerf: u32,
    grid: &Grid,
    wants: &[Want],
) -> Result<CeilingTable, AllocError>
    requires kerf { kerf ≤ MAX_KERF }
    requires usable { IsUsableGrid grid.now }
    requires counted { AreCounted wants.now kerf (across_of grid.now) (down_of grid.now) }
    ensures { IfOk result (λ table. IsLeastCeiling wants.now kerf (across_of grid.now)
        (down_of grid.now) (worth_in table)) }
{
    let rows = filled_rows(alloc, grid, kerf, wants)?;
    Ok(CeilingTable::Wide(rows))
}

// The table of wants that it counts.
fn counted_ceilings(
    alloc: Global,
    kerf: u32,
    grid: &Grid,
    wants: &[Want],
) -> Result<CeilingTable, AllocError>
    requires kerf { kerf ≤ MAX_KERF }
    requires usable { IsUsableGrid grid.now }
    requires counted { AreCounted wants.now kerf (across_of grid.now) (down_of grid.now) }
    ensures { IfOk result (λ table. IsLeastCeiling wants.now kerf (across_of grid.now)
        (down_of grid.now) (worth_in table)) }
{
    if is_narrow(kerf, grid, wants) {
        narrow_ceilings(alloc, kerf, grid, wants)
    } else {
        wide_ceilings(alloc, kerf, grid, wants)
    }
}

/// The least table over the classes of a grid that no legal plan of a sheet with sides of two
/// classes is worth more than (`ceilings_hold`), for the wants that it counts (`is_counted`). An
/// empty one where the grid is none that a table can be filled over.
pub fn ceilings(
    alloc: Global,
    kerf: u32,
    grid: &Grid,
    wants: &[Want],
) -> Result<CeilingTable, AllocError>
    requires kerf { kerf ≤ MAX_KERF }
    ensures { IsUsableGrid grid.now → IfOk result (λ table. IsLeastCeiling
        (grids.counted kerf (across_of grid.now) (down_of grid.now) wants.now) kerf
        (across_of grid.now) (down_of grid.now) (worth_in table)) }
{
    if !is_usable_grid(grid) {
        return Ok(CeilingTable::Narrow(Vec::new(alloc)));
    }
    let counted = counted_wants(alloc, kerf, grid, wants)?;
    counted_ceilings(alloc, kerf, grid, &counted)
}

/// The worth of a table at the classes of a sheet's sides, a kerf added to each.
pub fn ceiling_of(table: &CeilingTable, grid: &Grid, kerf: u32, size: Size) -> u64
    requires kerf { kerf ≤ MAX_KERF }
    ensures { IsUsableGrid grid.now → size.w + kerf ≤ grid.now.most_across
        → size.h + kerf ≤ grid.now.most_down → IsCeilingOf kerf (across_of grid.now)
        (down_of grid.now) (worth_in table.now) size.w size.h result }
{
    let across = class_of(&grid.across, size.w() + kerf);
    let down = class_of(&grid.down, size.h() + kerf);
    table.worth(across, down)
}

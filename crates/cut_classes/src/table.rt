//! A table over the classes of a grid, filled row by row.

ghost use Rattle.std.specs.Prelude.{◌≡◌, ◌≤◌, ◌<◌, length, map, IfOk};
ghost use Rattle.cut_classes.specs.Grids.{IsUsableGrid, across_of, down_of};
ghost use Rattle.cut_classes.specs.Filling.{AreFilledRows, CoverParts, CoversParts, HasCeilingBelow, IsFilledRow, rows_of};

use crate::grid::Grid;
use crate::pairs::{Pair, all_pairs, covering_pairs};
use crate::row::fill_row;
use cut_measure::MAX_KERF;
use cut_wants::number::Number;
use cut_wants::wants::Want;
use std::alloc::{AllocError, Global};

// The next row.
fn next_row<T: Number>(
    alloc: Global,
    grid: &Grid,
    kerf: u32,
    wants: &[Want],
    rows: &[Vec<T>],
    pairs: &[Pair],
    lists: &[Vec<Pair>],
) -> Result<Vec<T>, AllocError>
    requires kerf { kerf ≤ MAX_KERF }
    requires usable { IsUsableGrid grid.now }
    requires class { length rows.now < length grid.now.across.items }
    requires fits { HasCeilingBelow T.limit wants.now kerf (down_of grid.now) (across_of grid.now) }
    requires rows { AreFilledRows wants.now kerf (down_of grid.now) (across_of grid.now)
        (rows_of T.value rows.now) }
    requires pairs { CoversParts (across_of grid.now) (length rows.now) pairs.now }
    requires lists { CoverParts (down_of grid.now) lists.now }
    requires len { length lists.now ≡ length grid.now.down.items }
    ensures { IfOk result (λ row. IsFilledRow wants.now kerf (down_of grid.now) (across_of grid.now)
        (rows_of T.value rows.now) (map T.value row.items) (length rows.now)) }
{
    let mut row = T::zeros(alloc, grid.down.len())?;
    fill_row(&mut row, grid, kerf, wants, rows, pairs, lists);
    Ok(row)
}

// A row for each class of widths: as most sheets are wider than high, that leaves fewer pairs of
// places to each row, which take longer than pairs of rows.
pub(crate) fn filled_rows<T: Number>(
    alloc: Global,
    grid: &Grid,
    kerf: u32,
    wants: &[Want],
) -> Result<Vec<Vec<T>>, AllocError>
    requires kerf { kerf ≤ MAX_KERF }
    requires usable { IsUsableGrid grid.now }
    requires fits { HasCeilingBelow T.limit wants.now kerf (down_of grid.now) (across_of grid.now) }
    ensures len { IfOk result (λ rows. length rows.items ≡ length grid.now.across.items) }
    ensures rows { IfOk result (λ rows. AreFilledRows wants.now kerf (down_of grid.now)
        (across_of grid.now) (rows_of T.value rows.items)) }
{
    let lists = all_pairs(alloc, &grid.down, grid.most_down)?;
    let mut rows: Vec<Vec<T>> = Vec::new(alloc);
    for class in 0..grid.across.len() {
        let pairs = covering_pairs(alloc, &grid.across, grid.most_across, class)?;
        let row = next_row(alloc, grid, kerf, wants, &rows, &pairs, &lists)?;
        rows.push(row)?;
    }
    Ok(rows)
}

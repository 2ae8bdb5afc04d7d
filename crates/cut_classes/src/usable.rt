//! Whether a table can be filled over points, and which wants it counts.

ghost use Rattle.std.specs.Prelude.{◌≡◌, ◌+◌, ◌≤◌, ◌<◌, ◌↔◌, length, slice_index, IfOk, IsTrue};
ghost use Rattle.cut_classes.specs.Classes as specs;
ghost use Rattle.cut_classes.specs.Grids as grids;
ghost use Rattle.cut_classes.specs.Grids.{AreUsable, IsUsableGrid, across_of, classes, down_of};

use crate::grid::Grid;
use crate::pairs::{MAX_POINTS, high_of};
use cut_measure::{MAX_HEIGHT, MAX_KERF, MAX_WIDTH, MAX_WORTH};
use cut_wants::wants::Want;
use std::alloc::{AllocError, Global};

// Whether the point after one is greater, and the class between them no longer than the first.
fn is_near(points: &[u32], most: u32, class: usize) -> bool
    requires some { 2 ≤ length points.now }
    requires class { class < length points.now }
    ensures rises { IsTrue result → class + 1 < length points.now
        → slice_index points.now class < slice_index points.now (class + 1) }
    ensures near { IsTrue result → specs.high_of (classes points.now most) class
        < slice_index points.now class + slice_index points.now 1 }
    ensures yes { (class + 1 < length points.now
        → slice_index points.now class < slice_index points.now (class + 1))
        → specs.high_of (classes points.now most) class
        < slice_index points.now class + slice_index points.now 1 → IsTrue result }
{
    let high = high_of(points, most, class) as u64;
    let rises = class + 1 == points.len() || points[class] < points[class + 1];
    rises && high < points[class] as u64 + points[1] as u64
}

// Whether the points rise from 0 by no more than the second of them, the greatest length being one
// more.
pub(crate) fn is_usable(points: &[u32], most: u32) -> bool
    ensures { IsTrue result ↔ AreUsable (classes points.now most) }
{
    if points.len() < 2 {
        return false;
    }
    if points[0] != 0 {
        return false;
    }
    if most < points[points.len() - 1] {
        return false;
    }
    for class in 0..points.len() {
        if !is_near(points, most, class) {
            return false;
        }
    }
    true
}

// Whether a table can be filled over the classes of a grid.
pub(crate) fn is_usable_grid(grid: &Grid) -> bool
    ensures { IsTrue result ↔ IsUsableGrid grid.now }
{
    grid.most_across <= MAX_WIDTH + MAX_KERF
        && grid.most_down <= MAX_HEIGHT + MAX_KERF
        && grid.across.len() <= MAX_POINTS
        && grid.down.len() <= MAX_POINTS
        && is_usable(&grid.across, grid.most_across)
        && is_usable(&grid.down, grid.most_down)
}

// The second point, or 0.
fn second_of(points: &[u32]) -> u32
    ensures { result ≡ slice_index points.now 1 }
{
    match points.get(1) {
        Some(point) => *point,
        None => 0,
    }
}

// Whether a piece is longer than the greatest lengths, or has no side in a first class.
fn is_above(grid: &Grid, w: u32, h: u32) -> bool
    ensures { result ≡ grids.is_above (across_of grid.now) (down_of grid.now) w h }
{
    grid.most_across < w
        || grid.most_down < h
        || second_of(&grid.across) <= w && second_of(&grid.down) <= h
}

/// Whether a table over the classes of a grid counts a want: it is worth at most 1000000000, and
/// where it has room, as it stands or turned, no side of it is in a first class.
pub fn is_counted(kerf: u32, grid: &Grid, want: &Want) -> bool
    requires { kerf ≤ MAX_KERF }
    ensures { result ≡ grids.is_counted kerf (across_of grid.now) (down_of grid.now) want.now }
{
    let w = want.size.w() + kerf;
    let h = want.size.h() + kerf;
    want.worth <= MAX_WORTH && is_above(grid, w, h) && (!want.may_turn || is_above(grid, h, w))
}

/// The wants that a table over the classes of a grid counts.
pub fn counted_wants(
    alloc: Global,
    kerf: u32,
    grid: &Grid,
    wants: &[Want],
) -> Result<Vec<Want>, AllocError>
    requires { kerf ≤ MAX_KERF }
    ensures { IfOk result (λ counted. counted.items
        ≡ grids.counted kerf (across_of grid.now) (down_of grid.now) wants.now) }
{
    let mut counted = Vec::new(alloc);
    for want in wants {
        if is_counted(kerf, grid, want) {
            counted.push(*want)?;
        }
    }
    Ok(counted)
}

//! Points of both axes of a sheet.

ghost use Rattle.std.specs.Prelude.{◌+◌, ◌≤◌, All, IfOk, length};
ghost use Rattle.cut_classes.specs.Grids.{AreUsable, IsUsableGrid, classes};

use crate::choice::points_along;
use crate::pairs::MAX_POINTS;
use crate::usable::is_usable;
use cut_measure::{Axis, MAX_HEIGHT, MAX_KERF, MAX_WIDTH, Size};
use cut_wants::wants::Want;
use std::alloc::{AllocError, Global};

/// Points of both axes, at which classes of lengths begin. A length is a side with the kerf added,
/// in tenths of a millimetre. Each list rises from 0.
#[derive(Drop)]
pub struct Grid {
    /// The points of widths.
    pub across: Vec<u32>,
    /// The greatest width, at most 200200.
    pub most_across: u32,
    /// The points of heights.
    pub down: Vec<u32>,
    /// The greatest height, at most 60200.
    pub most_down: u32,
}

// The greatest width of the sizes, a kerf added, or 1.
fn most_across(sizes: &[Size], kerf: u32) -> u32
    requires { kerf ≤ MAX_KERF }
    ensures most { All (λ z. z.w + kerf ≤ result) sizes.now }
    ensures some { 1 ≤ result }
    ensures small { result ≤ MAX_WIDTH + MAX_KERF }
{
    let mut most = 1;
    for size in sizes {
        most = (size.w() + kerf).max(most);
    }
    most
}

// The greatest height of the sizes, a kerf added, or 1.
fn most_down(sizes: &[Size], kerf: u32) -> u32
    requires { kerf ≤ MAX_KERF }
    ensures most { All (λ z. z.h + kerf ≤ result) sizes.now }
    ensures some { 1 ≤ result }
    ensures small { result ≤ MAX_HEIGHT + MAX_KERF }
{
    let mut most = 1;
    for size in sizes {
        most = (size.h() + kerf).max(most);
    }
    most
}

// Two classes: of the greatest length alone, and of all that are less.
fn two_points(alloc: Global, most: u32) -> Result<Vec<u32>, AllocError>
    requires { 1 ≤ most }
    ensures usable { IfOk result (λ points. AreUsable (classes points.items most)) }
    ensures few { IfOk result (λ points. length points.items ≤ MAX_POINTS) }
{
    let mut points = Vec::new(alloc);
    points.push(0)?;
    points.push(most)?;
    Ok(points)
}

// The points where they are such that a table can be filled over their classes, and else two.
fn usable_points(alloc: Global, points: Vec<u32>, most: u32) -> Result<Vec<u32>, AllocError>
    requires { 1 ≤ most }
    ensures usable { IfOk result (λ points. AreUsable (classes points.items most)) }
    ensures few { IfOk result (λ points. length points.items ≤ MAX_POINTS) }
{
    if points.len() <= MAX_POINTS && is_usable(&points, most) {
        Ok(points)
    } else {
        two_points(alloc, most)
    }
}

/// A grid for sheets of some sizes and wants: of each axis all sums of the sides that wants which
/// fit some size may have along it, a kerf added to each, up to the greatest side. Where there are
/// more than so many, half as many of the least sums, the sides themselves, and even points behind.
/// After the sides of each lesser size a class begins, so that they are not rounded up. Where
/// pieces are narrow there are more points than asked for, so that no class has room for two; a
/// side that there would be more than 500 of, and more than asked for, is below the first class.
pub fn grid_of(
    alloc: Global,
    kerf: u32,
    sizes: &[Size],
    wants: &[Want],
    most: usize,
) -> Result<Grid, AllocError>
    requires { kerf ≤ MAX_KERF }
    ensures usable { IfOk result IsUsableGrid }
    ensures wide { IfOk result (λ grid. All (λ z. z.w + kerf ≤ grid.most_across) sizes.now) }
    ensures tall { IfOk result (λ grid. All (λ z. z.h + kerf ≤ grid.most_down) sizes.now) }
{
    let most_across = most_across(sizes, kerf);
    let most_down = most_down(sizes, kerf);
    let widths = points_along(alloc, Axis::X, kerf, sizes, wants, most_across, most)?;
    let heights = points_along(alloc, Axis::Y, kerf, sizes, wants, most_down, most)?;
    let across = usable_points(alloc, widths, most_across)?;
    let down = usable_points(alloc, heights, most_down)?;
    Ok(Grid {
        across,
        most_across,
        down,
        most_down,
    })
}

//! Whether the worths of a table are below 2^32.

ghost use Rattle.std.specs.Prelude.{ℕ, Bool, ◌+◌, ◌*◌, ◌^◌, ◌≤◌, ◌<◌, length, Contains, IfSome, IsTrue};
ghost use Rattle.cut_wants.specs.declared.wants.Want.{Want};
ghost use Rattle.cut_classes.specs.Grids.{AreCounted, AreUsable, IsUsableGrid, across_of, classes, down_of};
ghost use Rattle.cut_classes.specs.Filling.{HasCeilingBelow};
ghost use Rattle.cut_classes.specs.Rates.{IsRatedAt, IsRatedWant, IsSpanAt, IsSlack};

use crate::grid::Grid;
use crate::pairs::{class_of, high_of};
use cut_measure::MAX_KERF;
use cut_wants::wants::Want;

// How much longer the longest length of a class is than its shortest, in any but the first.
fn slack_of(points: &[u32], most: u32) -> u32
    ensures { IsSlack result (classes points.now most) }
{
    let mut slack: u32 = 0;
    for class in 1..points.len() {
        let longer = high_of(points, most, class).saturating_sub(points[class]);
        slack = longer.max(slack);
    }
    slack
}

// The point of a length's class, less a slack.
fn span_at(points: &[u32], slack: u32, length: u32) -> u32
    ensures { (most : ℕ) → AreUsable (classes points.now most) → length ≤ most
        → IsSpanAt slack (classes points.now most) length result }
{
    let class = class_of(points, length);
    if class < points.len() {
        points[class].saturating_sub(slack)
    } else {
        0
    }
}

// What a worth is for each unit of an area, rounded up, or None where there is none.
fn rate_of(worth: u32, across: u32, down: u32) -> Option<u64>
    ensures { IfSome result (λ rate. worth ≤ rate * (across * down)) }
{
    let area = across as u64 * down as u64;
    if area == 0 {
        None
    } else {
        Some((worth as u64).div_ceil(area))
    }
}

// What a piece is worth for each unit of the area of its classes, less the slacks, rounded up, or
// None where nothing is left of one. It is 0 where the piece has no room.
fn rate_at(
    grid: &Grid,
    slack_across: u32,
    slack_down: u32,
    w: u32,
    h: u32,
    worth: u32,
) -> Option<u64>
    requires usable { IsUsableGrid grid.now }
    ensures { IfSome result (IsRatedAt slack_across slack_down (across_of grid.now)
        (down_of grid.now) worth w h) }
{
    if grid.most_across < w {
        return Some(0);
    }
    if grid.most_down < h {
        return Some(0);
    }
    let across = span_at(&grid.across, slack_across, w);
    let down = span_at(&grid.down, slack_down, h);
    let rate = rate_of(worth, across, down)?;
    Some(rate)
}

// The rate of a want, as it stands or turned.
fn want_rate(grid: &Grid, slack_across: u32, slack_down: u32, kerf: u32, want: &Want) -> Option<u64>
    requires kerf { kerf ≤ MAX_KERF }
    requires usable { IsUsableGrid grid.now }
    ensures { IfSome result (λ rate. (turned : Bool) → IsRatedWant slack_across slack_down
        (across_of grid.now) (down_of grid.now) kerf want.now turned rate) }
{
    let w = want.size.w() + kerf;
    let h = want.size.h() + kerf;
    let upright = rate_at(grid, slack_across, slack_down, w, h, want.worth)?;
    if !want.may_turn {
        return Some(upright);
    }
    let turned = rate_at(grid, slack_across, slack_down, h, w, want.worth)?;
    Some(upright.max(turned))
}

// The highest rate of a want.
fn highest_rate(
    grid: &Grid,
    slack_across: u32,
    slack_down: u32,
    kerf: u32,
    wants: &[Want],
) -> Option<u64>
    requires kerf { kerf ≤ MAX_KERF }
    requires usable { IsUsableGrid grid.now }
    ensures { IfSome result (λ rate. (x : Want) (turned : Bool) → Contains wants.now x
        → IsRatedWant slack_across slack_down (across_of grid.now) (down_of grid.now) kerf x turned
        rate) }
{
    let mut highest: u64 = 0;
    for want in wants {
        let rate = want_rate(grid, slack_across, slack_down, kerf, want)?;
        highest = rate.max(highest);
    }
    Some(highest)
}

// Whether no worth of a table has more than 32 bits, by the areas of its classes.
pub(crate) fn is_narrow(kerf: u32, grid: &Grid, wants: &[Want]) -> bool
    requires kerf { kerf ≤ MAX_KERF }
    requires usable { IsUsableGrid grid.now }
    requires counted { AreCounted wants.now kerf (across_of grid.now) (down_of grid.now) }
    ensures { IsTrue result → HasCeilingBelow (2 ^ 32) wants.now kerf (down_of grid.now)
        (across_of grid.now) }
{
    let slack_across = slack_of(&grid.across, grid.most_across);
    let slack_down = slack_of(&grid.down, grid.most_down);
    let area = grid.most_across as u64 * grid.most_down as u64;
    match highest_rate(grid, slack_across, slack_down, kerf, wants) {
        None => false,
        Some(rate) => rate as u128 * (area as u128) < 4294967296,
    }
}

//! Which points an axis gets. Any are right; these make a table low. Whoever takes them tests them.

use cut_measure::{Axis, Size};
use cut_wants::wants::Want;
use std::alloc::{AllocError, Global};

// The least points that are asked for.
const MIN_POINTS: usize = 4;

// A side that an axis has room for so many times has classes of its own, however few points are
// asked for.
const MAX_NARROW: usize = 500;

// A size's side along an axis, a kerf added.
fn added_side(size: Size, axis: Axis, kerf: u32) -> u32 {
    match axis {
        Axis::X => size.w().saturating_add(kerf),
        Axis::Y => size.h().saturating_add(kerf),
    }
}

fn other(axis: Axis) -> Axis {
    match axis {
        Axis::X => Axis::Y,
        Axis::Y => Axis::X,
    }
}

// Whether some size has room for these sides along an axis and the other.
fn fits_some(sizes: &[Size], axis: Axis, kerf: u32, along: u32, beside: u32) -> bool {
    sizes.iter().any(|size| {
        along <= added_side(*size, axis, kerf) && beside <= added_side(*size, other(axis), kerf)
    })
}

// The sides that wants may have along an axis on some size, a kerf added to each, rising.
fn sides_along(
    alloc: Global,
    axis: Axis,
    kerf: u32,
    sizes: &[Size],
    wants: &[Want],
) -> Result<Vec<u32>, AllocError> {
    let mut sides = Vec::new(alloc);
    for want in wants {
        let along = added_side(want.size, axis, kerf);
        let beside = added_side(want.size, other(axis), kerf);
        if fits_some(sizes, axis, kerf, along, beside) {
            sides.push(along)?;
        }
        if want.may_turn && fits_some(sizes, axis, kerf, beside, along) {
            sides.push(beside)?;
        }
    }
    sides.sort()?;
    sides.dedup();
    Ok(sides)
}

// The sums of sides up to the most, rising from 0, as far as one more than the limit.
fn sums_of(alloc: Global, sides: &[u32], most: u32, limit: usize) -> Result<Vec<u32>, AllocError> {
    let mut reached = vec![in alloc; false; (most as usize).saturating_add(1)]?;
    if let Some(none) = reached.first_mut() {
        *none = true;
    }
    let mut sums = Vec::new(alloc);
    for sum in 0..most.saturating_add(1) {
        if limit < sums.len() {
            break;
        }
        if reached.get(sum as usize) == Some(&true) {
            sums.push(sum)?;
            mark_sums(&mut reached, sides, sum);
        }
    }
    Ok(sums)
}

// Marks what a sum and each side make.
fn mark_sums(reached: &mut [bool], sides: &[u32], sum: u32) {
    for side in sides {
        if let Some(place) = reached.get_mut(sum.saturating_add(*side) as usize) {
            *place = true;
        }
    }
}

// Half as many of the sums as the limit, the sides, and even points behind, none further from the
// one before it than the least side.
fn thinned(
    sums: Vec<u32>,
    sides: &[u32],
    least: u32,
    most: u32,
    limit: usize,
) -> Result<Vec<u32>, AllocError> {
    let half = limit / 2;
    let mut points = sums;
    points.truncate(half);
    let from = points.last().copied().unwrap_or(0);
    for side in sides {
        points.push(*side)?;
    }
    let behind = most.saturating_sub(from);
    let step = (behind as usize / half.max(1)).min(least as usize).max(1) as u32;
    for times in 0..(behind / step).saturating_add(1) {
        points.push(from.saturating_add(times.saturating_mul(step)))?;
    }
    Ok(points)
}

// The lengths one above the sides of the sizes, where a class can begin there, rising.
fn ends_of(
    alloc: Global,
    axis: Axis,
    kerf: u32,
    sizes: &[Size],
    least: u32,
    most: u32,
) -> Result<Vec<u32>, AllocError> {
    let mut ends = Vec::new(alloc);
    for size in sizes {
        let end = added_side(*size, axis, kerf).saturating_add(1);
        if least < end && end <= most {
            ends.push(end)?;
        }
    }
    ends.sort()?;
    ends.dedup();
    Ok(ends)
}

// Adds the ends, or every so many of them where there are more than a limit.
fn add_ends(points: &mut Vec<u32>, ends: &[u32], limit: usize) -> Result<(), AllocError> {
    let every = ends.len().div_ceil(limit.max(1)).max(1);
    for (place, end) in ends.iter().enumerate() {
        if place % every == 0 {
            points.push(*end)?;
        }
    }
    Ok(())
}

/// Points of an axis whose greatest length is the most, about as many as the limit.
pub(crate) fn points_along(
    alloc: Global,
    axis: Axis,
    kerf: u32,
    sizes: &[Size],
    wants: &[Want],
    most: u32,
    limit: usize,
) -> Result<Vec<u32>, AllocError> {
    let limit = limit.max(MIN_POINTS);
    let mut sides = sides_along(alloc, axis, kerf, sizes, wants)?;
    let narrow = (most as usize).div_ceil(limit.max(MAX_NARROW));
    sides.retain(|side| narrow <= *side as usize);
    let Some(least) = sides.first().copied() else {
        return Ok(Vec::new(alloc));
    };
    let sums = sums_of(alloc, &sides, most, limit)?;
    let mut points = if sums.len() <= limit {
        sums
    } else {
        thinned(sums, &sides, least, most, limit)?
    };
    let ends = ends_of(alloc, axis, kerf, sizes, least, most)?;
    add_ends(&mut points, &ends, limit / 2)?;
    points.sort()?;
    points.dedup();
    Ok(points)
}

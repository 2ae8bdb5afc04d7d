//! First fit decreasing over bars, without a table: pieces go, the longest first, into the first
//! unit that has room.

use crate::draft::Draft;
use crate::order::Order;
use cut_tree::MAX_CUTS;
use std::alloc::{AllocError, Global};

/// Open units that are filled alike.
#[derive(Drop)]
struct Open {
    size: usize,
    span: u64,
    counts: Vec<u32>,
    /// So many pieces more may go into a unit: each takes a cut.
    pieces: u32,
    times: u32,
}

impl Open {
    /// So many units like these, each with so many pieces of a want more.
    fn with(
        &self,
        alloc: Global,
        times: u32,
        want: usize,
        pieces: u32,
        cells: u64,
    ) -> Result<Open, AllocError> {
        let mut counts = Vec::from_slice(alloc, &self.counts)?;
        if let Some(count) = counts.get_mut(want) {
            *count = count.saturating_add(pieces);
        }
        Ok(Open {
            size: self.size,
            span: self
                .span
                .saturating_sub(cells.saturating_mul(pieces as u64)),
            counts,
            pieces: self.pieces.saturating_sub(pieces),
            times,
        })
    }
}

/// How many pieces fit a span, of so many.
fn pieces_within(span: u64, cells: u64, most: u32) -> u32 {
    let fit = span.checked_div(cells).unwrap_or(0);
    u32::try_from(fit).unwrap_or(u32::MAX).min(most)
}

/// Fills pieces into the units of one kind: those that are filled, one that has what is left over,
/// and the others.
fn fill(
    alloc: Global,
    open: Open,
    want: usize,
    cells: u64,
    left: &mut u32,
    units: &mut Vec<Open>,
) -> Result<(), AllocError> {
    let each = pieces_within(open.span, cells, open.pieces.min(*left));
    let full = left.checked_div(each).unwrap_or(0).min(open.times);
    let mut after = open.times - full;
    *left = left.saturating_sub(full.saturating_mul(each));
    if full > 0 {
        units.push(open.with(alloc, full, want, each, cells)?)?;
    }
    if each > 0 && *left > 0 && after > 0 {
        let last = (*left).min(each);
        units.push(open.with(alloc, 1, want, last, cells)?)?;
        *left = left.saturating_sub(last);
        after -= 1;
    }
    if after > 0 {
        units.push(open.with(alloc, after, want, 0, cells)?)?;
    }
    Ok(())
}

/// The size whose span costs least among those that are free and hold a piece.
fn cheapest(order: &Order, free: &[Option<u32>], cells: u64) -> Option<usize> {
    let mut found: Option<(usize, u64, u64)> = None;
    let sizes = order.unit_cells.iter().zip(&order.costs).zip(free);
    for (size, ((span, cost), number)) in sizes.enumerate() {
        if *number == Some(0) || *span < cells {
            continue;
        }
        let better = found.map_or(true, |(_, other_span, other_cost)| {
            (*cost as u128 * other_span as u128) < other_cost as u128 * *span as u128
        });
        if better {
            found = Some((size, *span, *cost));
        }
    }
    found.map(|(size, _, _)| size)
}

/// Opens units of the cheapest size for pieces of a want. False where there is none.
fn open_units(
    alloc: Global,
    order: &Order,
    want: usize,
    cells: u64,
    left: &mut u32,
    free: &mut [Option<u32>],
    units: &mut Vec<Open>,
) -> Result<bool, AllocError> {
    let Some(size) = cheapest(order, free, cells) else {
        return Ok(false);
    };
    let span = order.unit_cells.get(size).copied().unwrap_or(0);
    let each = pieces_within(span, cells, MAX_CUTS);
    let needed = left.div_ceil(each.max(1));
    let mut times = needed;
    if let Some(Some(number)) = free.get_mut(size) {
        times = needed.min(*number);
        *number = number.saturating_sub(times);
    }
    let empty = Open {
        size,
        span,
        counts: vec![in alloc; 0u32; order.left.len()]?,
        pieces: MAX_CUTS,
        times,
    };
    fill(alloc, empty, want, cells, left, units)?;
    Ok(true)
}

/// The wants with something left, those with the largest pieces first.
fn largest_first(
    alloc: Global,
    order: &Order,
    left: &[u32],
) -> Result<Vec<(u64, usize)>, AllocError> {
    let mut largest = Vec::new(alloc);
    for (want, (cells, count)) in order.piece_cells.iter().zip(left).enumerate() {
        if *count > 0 {
            largest.push((u64::MAX.saturating_sub(*cells), want))?;
        }
    }
    largest.sort()?;
    Ok(largest)
}

/// Adds to a draft units that are filled with what is left, the largest pieces first.
pub fn fill_up(alloc: Global, order: &Order, draft: &mut Draft) -> Result<(), AllocError> {
    let mut free = Vec::from_slice(alloc, &draft.free)?;
    let mut units: Vec<Open> = Vec::new(alloc);
    for (_, want) in &largest_first(alloc, order, &draft.left)? {
        let cells = order.piece_cells.get(*want).copied().unwrap_or(u64::MAX);
        let mut left = draft.left.get(*want).copied().unwrap_or(0);
        let mut next = Vec::new(alloc);
        for unit in units {
            fill(alloc, unit, *want, cells, &mut left, &mut next)?;
        }
        for _ in 0..order.costs.len() {
            if left == 0
                || !open_units(alloc, order, *want, cells, &mut left, &mut free, &mut next)?
            {
                break;
            }
        }
        units = next;
    }
    for unit in &units {
        let cost = order.cost(unit.size);
        draft.add(alloc, unit.size, &unit.counts, 0, unit.times, cost)?;
    }
    Ok(())
}

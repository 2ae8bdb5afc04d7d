//! Units of a whole plan taken apart, those that lose most, so that their pieces are planned again.

use crate::correct::roll_within;
use crate::draft::{Batch, Draft};
use crate::order::Order;
use std::alloc::{AllocError, Global};

/// So many units are taken apart at most.
const MAX_REPAIRED_UNITS: u64 = 12;

/// What a unit loses, in thousandths.
fn loss_of(order: &Order, batch: &Batch) -> u64 {
    let mut used = 0u64;
    for (cells, count) in order.piece_cells.iter().zip(&batch.counts) {
        used = used.saturating_add(cells.saturating_mul(*count as u64));
    }
    let span = order.unit_cells.get(batch.size).copied().unwrap_or(0);
    let share = used.saturating_mul(1000).checked_div(span).unwrap_or(0);
    1000u64.saturating_sub(share)
}

/// The batches of single units, those that lose most last; chance shuffles them, the more the wider
/// it is.
fn by_loss(
    alloc: Global,
    order: &Order,
    draft: &Draft,
    width: u64,
    dice: &mut u64,
) -> Result<Vec<(u64, usize)>, AllocError> {
    let mut units = Vec::new(alloc);
    for (place, batch) in draft.batches.iter().enumerate() {
        let loss = loss_of(order, batch);
        for _ in 0..(batch.times as u64).min(MAX_REPAIRED_UNITS) {
            let key = loss.saturating_add(roll_within(dice, 0, width));
            units.push((key, place))?;
        }
    }
    units.sort()?;
    Ok(units)
}

/// The plan without some of its units, half of them at most.
pub fn taken_apart(
    alloc: Global,
    order: &Order,
    draft: &Draft,
    width: u64,
    dice: &mut u64,
) -> Result<Draft, AllocError> {
    let units = by_loss(alloc, order, draft, width, dice)?;
    let half = units.len().div_ceil(2).max(3) as u64;
    let most = half.min(MAX_REPAIRED_UNITS);
    let count = roll_within(dice, 3, most.max(3));
    let mut rest = draft.copy(alloc)?;
    for (_, place) in units.iter().rev().take(count as usize) {
        let cost = match draft.batches.get(*place) {
            Some(batch) => order.cost(batch.size),
            None => 0,
        };
        rest.take_apart(*place, cost);
    }
    rest.batches.retain(|batch| batch.times > 0);
    Ok(rest)
}

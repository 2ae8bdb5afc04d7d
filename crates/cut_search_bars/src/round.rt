//! The numbers of the master program made whole: rounded down, or the greatest taken once.

use crate::draft::{Draft, times_within};
use crate::order::Order;
use cut_master::fixed::ONE;
use cut_master::master::Taken;
use std::alloc::{AllocError, Global};

/// An amount that lacks no more of a whole one counts as it: 2^-16.
const NEARLY: i128 = 16_777_216;

/// The places of what is taken, those with the greatest amounts first.
pub fn greatest_first(alloc: Global, taken: &[Taken]) -> Result<Vec<(i128, usize)>, AllocError> {
    let mut places = Vec::new(alloc);
    for (place, one) in taken.iter().enumerate() {
        places.push((one.amount.saturating_neg(), place))?;
    }
    places.sort()?;
    Ok(places)
}

/// How many whole units an amount has: a little below one counts as one.
pub fn whole_units(amount: i128) -> u32 {
    u32::try_from(amount.saturating_add(NEARLY) / ONE).unwrap_or(0)
}

/// Adds the whole parts of what is taken to a draft, as far as what is left and the stock allow.
/// How many units.
pub fn round_down(
    alloc: Global,
    order: &Order,
    taken: &[Taken],
    draft: &mut Draft,
) -> Result<u32, AllocError> {
    let mut done = 0u32;
    for (_, place) in &greatest_first(alloc, taken)? {
        if let Some(one) = taken.get(*place) {
            let plan = &one.plan;
            let fit = times_within(&plan.counts, &draft.left).min(draft.free_of(plan.size));
            let times = whole_units(one.amount).min(fit);
            if times > 0 {
                let cost = order.cost(plan.size);
                draft.add(alloc, plan.size, &plan.counts, plan.tag, times, cost)?;
                done = done.saturating_add(times);
            }
        }
    }
    Ok(done)
}

/// Adds one unit of what is taken to a draft: the one with the greatest amount that fits, after so
/// many others. Whether there was one.
pub fn take_greatest(
    alloc: Global,
    order: &Order,
    taken: &[Taken],
    skipped: usize,
    draft: &mut Draft,
) -> Result<bool, AllocError> {
    let places = greatest_first(alloc, taken)?;
    let skip = skipped.min(places.len().saturating_sub(1));
    for (_, place) in places.iter().skip(skip) {
        if let Some(one) = taken.get(*place) {
            let plan = &one.plan;
            let fit = times_within(&plan.counts, &draft.left).min(draft.free_of(plan.size));
            if fit > 0 {
                let cost = order.cost(plan.size);
                draft.add(alloc, plan.size, &plan.counts, plan.tag, 1, cost)?;
                return Ok(true);
            }
        }
    }
    Ok(false)
}

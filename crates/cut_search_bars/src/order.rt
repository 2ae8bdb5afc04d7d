//! What is to be cut, of what, and what it costs at least.

use crate::stock::SearchSize;
use cut_measure::Size;
use cut_wants::wants::Want;
use std::alloc::{AllocError, Global};

/// The greatest worth of what one unit holds, so that no table overflows and each worth may be reported
/// as a price.
const MAX_UNIT_WORTH: u128 = 1_000_000_000;

/// What is to be cut, and the stock.
#[derive(Drop)]
pub struct Order {
    /// What a unit of each size costs.
    pub costs: Vec<u64>,
    /// How many units of each size there are, where that is limited.
    pub limits: Vec<Option<u32>>,
    /// How many of each want are left to make.
    pub left: Vec<u32>,
    /// The sides of a unit of each size.
    pub units: Vec<Size>,
    /// The wants, with the sides of a piece of each.
    pub pieces: Vec<Want>,
    /// How wide the saw cuts, in tenths of a millimetre: 0 to 200.
    pub kerf: u32,
    /// Span that a unit of each size has, with a kerf.
    pub unit_cells: Vec<u64>,
    /// Span that a piece of each want takes, with a kerf.
    pub piece_cells: Vec<u64>,
    /// The greatest of the costs.
    pub dearest: u64,
    /// The greatest common divisor of the costs.
    pub grain: u64,
}

/// Worths of the wants, and what a unit of each size is worth at most by them.
#[derive(Drop)]
pub struct UnitBounds {
    /// What a piece of each want is worth, 0 to 1000000000.
    pub worths: Vec<u32>,
    /// What a unit of each size is worth at most.
    pub bests: Vec<u64>,
}

/// The greatest common divisor.
fn divisor(a: u64, b: u64) -> u64 {
    let (mut a, mut b) = (a, b);
    for _ in 0..128 {
        let Some(rest) = a.checked_rem(b) else {
            return a;
        };
        a = b;
        b = rest;
    }
    1
}

/// The least multiple of the grain that is not below a cost.
pub fn rounded_up(cost: u128, grain: u64) -> u64 {
    let times = cost.div_ceil((grain as u128).max(1));
    let whole = times.saturating_mul(grain as u128);
    u64::try_from(whole).unwrap_or(u64::MAX)
}

/// What so many of each are worth together.
pub fn total(worths: &[u32], left: &[u32]) -> u128 {
    let mut sum = 0u128;
    for (worth, count) in worths.iter().zip(left) {
        sum = sum.saturating_add(*worth as u128 * *count as u128);
    }
    sum
}

impl Order {
    /// The order of these wants, by this stock. The cells are still to be reported.
    pub fn new(
        alloc: Global,
        kerf: u32,
        sizes: &[SearchSize],
        wants: &[Want],
    ) -> Result<Order, AllocError> {
        let mut order = Order {
            costs: Vec::new(alloc),
            limits: Vec::new(alloc),
            left: Vec::new(alloc),
            units: Vec::new(alloc),
            pieces: Vec::from_slice(alloc, wants)?,
            kerf,
            unit_cells: Vec::new(alloc),
            piece_cells: Vec::new(alloc),
            dearest: 1,
            grain: 0,
        };
        for stock in sizes {
            order.costs.push(stock.cost.max(1))?;
            order.limits.push(stock.limit)?;
            order.units.push(stock.size)?;
            order.dearest = order.dearest.max(stock.cost);
            order.grain = divisor(stock.cost, order.grain);
        }
        order.grain = order.grain.max(1);
        for want in wants {
            order.left.push(want.left)?;
        }
        Ok(order)
    }

    /// How many pieces of a side lie on a side, with a kerf each.
    fn in_line(&self, long: u32, side: u32) -> u32 {
        let whole = long.saturating_add(self.kerf);
        whole
            .checked_div(side.saturating_add(self.kerf))
            .unwrap_or(0)
    }

    /// How many pieces of a want lie on a unit of a size in rows and columns.
    pub fn in_grid(&self, size: usize, want: usize) -> u32 {
        let (Some(unit), Some(piece)) = (self.units.get(size), self.pieces.get(want)) else {
            return 0;
        };
        let (w, h) = (piece.size.w(), piece.size.h());
        let upright = self
            .in_line(unit.w(), w)
            .saturating_mul(self.in_line(unit.h(), h));
        if !piece.may_turn {
            return upright;
        }
        let turned = self
            .in_line(unit.w(), h)
            .saturating_mul(self.in_line(unit.h(), w));
        upright.max(turned)
    }

    /// What a unit of a size costs: where there is none, more than all.
    pub fn cost(&self, size: usize) -> u64 {
        self.costs.get(size).copied().unwrap_or(u64::MAX)
    }

    /// The span of the longest unit.
    pub fn most_cells(&self) -> u64 {
        let mut most = 1;
        for cells in &self.unit_cells {
            most = (*cells).max(most);
        }
        most
    }

    /// Whole worths in proportion to values, at least 1 where something is left, so that what a
    /// unit holds is worth at most 10^9.
    pub fn scaled(
        &self,
        alloc: Global,
        values: &[u64],
        left: &[u32],
    ) -> Result<Vec<u32>, AllocError> {
        let most = self.most_cells() as u128;
        let mut densest = 1u128;
        for ((value, cells), count) in values.iter().zip(&self.piece_cells).zip(left) {
            if *count > 0 {
                let full = (*value as u128 * most).div_ceil((*cells as u128).max(1));
                densest = full.max(densest);
            }
        }
        let mut worths = Vec::new(alloc);
        for (value, count) in values.iter().zip(left) {
            let worth = if densest < MAX_UNIT_WORTH {
                *value as u128
            } else {
                (*value as u128 * MAX_UNIT_WORTH)
                    .checked_div(densest)
                    .unwrap_or(0)
            };
            let whole = u32::try_from(worth).unwrap_or(1).max(1);
            worths.push(if *count > 0 { whole } else { 0 })?;
        }
        Ok(worths)
    }

    /// What the excess of the sizes takes from the bound by a size: none where an unlimited size
    /// has one.
    fn excess(
        &self,
        cost: u64,
        best: u64,
        unit_bounds: &UnitBounds,
        free: &[Option<u32>],
    ) -> Option<u128> {
        let mut sum = 0u128;
        let sizes = self.costs.iter().zip(&unit_bounds.bests).zip(free);
        for ((other_cost, other_best), number) in sizes {
            let has = cost as u128 * *other_best as u128;
            let over = has.saturating_sub(best as u128 * *other_cost as u128);
            if over > 0 {
                sum = sum.saturating_add(over.saturating_mul((*number)? as u128));
            }
        }
        Some(sum)
    }

    /// What all that is left costs at least, by worths with their unit bounds: the greatest over the sizes,
    /// rounded up.
    pub fn least_cost(&self, unit_bounds: &UnitBounds, left: &[u32], free: &[Option<u32>]) -> u64 {
        let all = total(&unit_bounds.worths, left);
        let mut least = 0u128;
        for (cost, best) in self.costs.iter().zip(&unit_bounds.bests) {
            if let Some(excess) = self.excess(*cost, *best, unit_bounds, free) {
                let worth = all.saturating_mul(*cost as u128).saturating_sub(excess);
                let bound = worth.div_ceil((*best as u128).max(1));
                if *best > 0 {
                    least = bound.max(least);
                }
            }
        }
        rounded_up(least, self.grain)
    }

    /// What all that is left costs at least by its span.
    pub fn least_by_cells(&self, left: &[u32]) -> u64 {
        let mut cells = 0u128;
        for (piece, count) in self.piece_cells.iter().zip(left) {
            cells = cells.saturating_add(*piece as u128 * *count as u128);
        }
        let mut least = u128::MAX;
        for (cost, unit) in self.costs.iter().zip(&self.unit_cells) {
            if *unit > 0 {
                let all = cells
                    .saturating_mul(*cost as u128)
                    .div_ceil((*unit as u128).max(1));
                least = all.min(least);
            }
        }
        rounded_up(least, self.grain)
    }
}

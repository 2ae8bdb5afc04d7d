//! What pieces and sizes are worth, by their area and by the prices of the bound.

use crate::sheets::ceilings::Ceilings;
use crate::sheets::job::Job;
use cut_search_bars::order::Order;
use std::alloc::{AllocError, Global};

/// Values count 1024ths of a cell.
pub const VALUE_PARTS: u64 = 1024;

/// How much prices count in a mixed value, in 1000ths; area has the rest.
const PRICE_SHARE: u128 = 800;

/// Hints for the search.
#[derive(Drop)]
pub struct Hints {
    /// What a piece of each want is worth by its area.
    pub cells: Vec<u64>,
    /// What it is worth by prices, with some area.
    pub priced: Vec<u64>,
    /// What a unit of each size is worth for its cost.
    pub rates: Vec<u64>,
    /// What all costs at least, as far as it is known.
    pub bound: u64,
}

/// What pieces are worth by prices and by their area, so that both give the same in all.
pub fn mixed(
    alloc: Global,
    order: &Order,
    cells: &[u64],
    prices: &[u64],
) -> Result<Vec<u64>, AllocError> {
    let mut all_prices = 0u128;
    let mut all_cells = 0u128;
    for ((price, area), left) in prices.iter().zip(cells).zip(&order.left) {
        all_prices = all_prices.saturating_add(*price as u128 * *left as u128);
        all_cells = all_cells.saturating_add(*area as u128 * *left as u128);
    }
    let mut values = Vec::new(alloc);
    for (price, area) in prices.iter().zip(cells) {
        let by_price = (*price as u128)
            .saturating_mul(all_cells)
            .checked_div(all_prices)
            .unwrap_or(*area as u128);
        let value = by_price
            .saturating_mul(PRICE_SHARE)
            .saturating_add((*area as u128).saturating_mul(1000 - PRICE_SHARE))
            / 1000;
        values.push(u64::try_from(value).unwrap_or(u64::MAX).max(1))?;
    }
    Ok(values)
}

impl Hints {
    /// Hints by area alone.
    pub fn new(alloc: Global, job: &Job) -> Result<Hints, AllocError> {
        let mut cells = Vec::new(alloc);
        for area in &job.order.piece_cells {
            cells.push(area.saturating_mul(VALUE_PARTS).max(1))?;
        }
        let mut rates = Vec::new(alloc);
        for (area, cost) in job.order.unit_cells.iter().zip(&job.order.costs) {
            rates.push(rate_of(*area, *cost))?;
        }
        Ok(Hints {
            priced: Vec::from_slice(alloc, &cells)?,
            cells,
            rates,
            bound: 0,
        })
    }

    /// Takes prices.
    pub fn take_prices(
        &mut self,
        alloc: Global,
        job: &Job,
        prices: &[u64],
    ) -> Result<(), AllocError> {
        self.priced = mixed(alloc, &job.order, &self.cells, prices)?;
        Ok(())
    }

    /// Takes the bound of a program, and its prices and rates.
    pub fn take_bound(
        &mut self,
        alloc: Global,
        job: &Job,
        ceilings: &Ceilings,
    ) -> Result<(), AllocError> {
        self.bound = self.bound.max(ceilings.least);
        self.take_prices(alloc, job, &ceilings.prices)?;
        if let Some(unit_bounds) = &ceilings.unit_bounds {
            let mut rates = Vec::new(alloc);
            for (best, cost) in unit_bounds.bests.iter().zip(&job.order.costs) {
                rates.push(rate_of(*best, *cost))?;
            }
            self.rates = rates;
        }
        Ok(())
    }
}

/// A worth for a cost, in 10^12ths.
fn rate_of(worth: u64, cost: u64) -> u64 {
    let rate = (worth as u128 * 1_000_000_000_000).div_ceil((cost as u128).max(1));
    u64::try_from(rate).unwrap_or(u64::MAX)
}

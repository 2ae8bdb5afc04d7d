//! Column generation (Gilmore and Gomory 1961): the master program's prices ask for plans of
//! one bar, and its plans are offered to the program, until none gains. Each table is a bound of the
//! cost as well.

use crate::draft::times_within;
use crate::order::{Order, UnitBounds, rounded_up};
use cut_fill_bars::bars::{Bars, Priced};
use cut_master::column::Plan;
use cut_master::fixed::{ONE, ratio};
use cut_master::master::{End, MIN_GAIN, Master, Size, Taken};
use std::alloc::{AllocError, Global};

/// So many pivots are made between two looks elsewhere.
const PIVOTS: u32 = 200;

/// So many limited sizes have a row of the program at most, so that its tables stay small.
const MAX_LIMITED: usize = 100;

/// So many further columns are taken from a table.
const MORE_COLUMNS: usize = 12;

/// Plans of so many sizes are taken from a table.
const MAX_SIZES: usize = 3;

/// A run of it.
#[derive(Drop)]
pub struct Relax {
    master: Master,
    left: Vec<u32>,
    free: Vec<Option<u32>>,
    /// Whether plans of a size are offered.
    offered: Vec<bool>,
    /// So many tables are left to it.
    tables: u32,
    begun: bool,
    asked: Vec<u32>,
    /// The prices of the program, in its fixed point.
    pub prices: Vec<u64>,
    /// The best bound of the cost.
    pub least: u64,
    /// The worths that gave it.
    pub unit_bounds: Option<UnitBounds>,
}

/// Which sizes are offered: all that are free, but only some of those that are limited where they
/// are many.
pub fn offered_sizes(alloc: Global, free: &[Option<u32>]) -> Result<Vec<bool>, AllocError> {
    let mut limited = 0usize;
    for number in free {
        if number.is_some() && *number != Some(0) {
            limited = limited.saturating_add(1);
        }
    }
    let stride = limited.div_ceil(MAX_LIMITED).max(1);
    let mut offered = Vec::new(alloc);
    let mut place = 0usize;
    for number in free {
        match number {
            None => offered.push(true)?,
            Some(0) => offered.push(false)?,
            Some(_) => {
                offered.push(place.checked_rem(stride) == Some(0))?;
                place = place.saturating_add(1);
            }
        }
    }
    Ok(offered)
}

/// The program of what is left, without a plan.
pub fn empty_master(
    alloc: Global,
    order: &Order,
    left: &[u32],
    free: &[Option<u32>],
    offered: &[bool],
) -> Result<Option<Master>, AllocError> {
    let mut sizes = Vec::new(alloc);
    for (cost, (number, is_offered)) in order.costs.iter().zip(free.iter().zip(offered)) {
        sizes.push(Size {
            cost: ratio(*cost, order.dearest).unwrap_or(0),
            number: if *is_offered {
                number.map(|n| n as u64)
            } else {
                None
            },
        })?;
    }
    Master::new(alloc, left, &sizes)
}

impl Relax {
    /// The program of what is left, by so many tables at most. None where its numbers are too
    /// large.
    pub fn new(
        alloc: Global,
        order: &Order,
        left: &[u32],
        free: &[Option<u32>],
        tables: u32,
    ) -> Result<Option<Relax>, AllocError> {
        let offered = offered_sizes(alloc, free)?;
        let Some(master) = empty_master(alloc, order, left, free, &offered)? else {
            return Ok(None);
        };
        Ok(Some(Relax {
            master,
            left: Vec::from_slice(alloc, left)?,
            free: Vec::from_slice(alloc, free)?,
            offered,
            tables,
            begun: false,
            asked: Vec::new(alloc),
            prices: Vec::new(alloc),
            least: 0,
            unit_bounds: None,
        }))
    }

    /// Offers a plan, where it is within what is left.
    pub fn offer(
        &mut self,
        alloc: Global,
        size: usize,
        counts: &[u32],
        tag: usize,
    ) -> Result<(), AllocError> {
        let is_free = self.offered.get(size).copied().unwrap_or(false);
        if is_free && times_within(counts, &self.left) > 0 {
            self.master.add(Plan {
                size,
                counts: Vec::from_slice(alloc, counts)?,
                tag,
            })?;
        }
        Ok(())
    }

    /// Offers the plans of another run, without what is no longer left.
    pub fn offer_within(&mut self, alloc: Global, plans: &[Plan]) -> Result<(), AllocError> {
        for plan in plans {
            let mut counts = Vec::from_slice(alloc, &plan.counts)?;
            for (count, left) in counts.iter_mut().zip(&self.left) {
                *count = (*count).min(*left);
            }
            self.offer(alloc, plan.size, &counts, plan.tag)?;
        }
        Ok(())
    }

    /// The plans that were offered.
    pub fn plans(&self) -> &[Plan] {
        self.master.plans()
    }

    /// The plans that the program takes, and how many of each.
    pub fn taken(&self, alloc: Global) -> Result<Vec<Taken>, AllocError> {
        self.master.taken(alloc)
    }

    /// What the program costs, rounded up: no bound by it is greater.
    pub fn most_bound(&self, order: &Order) -> u64 {
        let value = u128::try_from(self.master.value().saturating_sub(MIN_GAIN)).unwrap_or(0);
        let cost = value.saturating_mul(order.dearest as u128);
        rounded_up(cost.div_ceil(ONE as u128), order.grain)
    }

    /// Asks for plans by the program's prices.
    fn begin(&mut self, alloc: Global, order: &Order, bars: &mut Bars) -> Result<(), AllocError> {
        self.prices = self.master.want_prices(alloc, self.left.len())?;
        self.asked = order.scaled(alloc, &self.prices, &self.left)?;
        self.begun = true;
        bars.begin_columns(alloc, &self.asked, &self.left)
    }

    /// Keeps the bound of a table, if it is the best.
    fn rate(&mut self, alloc: Global, order: &Order, priced: &[Priced]) -> Result<(), AllocError> {
        let mut bests = Vec::new(alloc);
        for one in priced {
            bests.push(one.best)?;
        }
        let unit_bounds = UnitBounds {
            worths: Vec::from_slice(alloc, &self.asked)?,
            bests,
        };
        let least = order.least_cost(&unit_bounds, &self.left, &self.free);
        if least > self.least || self.unit_bounds.is_none() {
            self.least = least;
            self.unit_bounds = Some(unit_bounds);
        }
        Ok(())
    }

    /// The sizes whose plans gain most, those first.
    fn gaining(&self, alloc: Global, plans: &[Plan]) -> Result<Vec<(i128, usize)>, AllocError> {
        let mut gains = Vec::new(alloc);
        for (place, plan) in plans.iter().enumerate() {
            let gain = self.master.gain(plan).unwrap_or(0);
            let is_free = self.offered.get(plan.size).copied().unwrap_or(false);
            if gain > MIN_GAIN && is_free {
                gains.push((gain.saturating_neg(), place))?;
            }
        }
        gains.sort()?;
        Ok(gains)
    }

    /// Offers further plans of a size that gain.
    fn add_more(&mut self, alloc: Global, bars: &Bars, first: &Plan) -> Result<(), AllocError> {
        let mut plans: Vec<Plan> = Vec::new(alloc);
        plans.push(first.copy(alloc)?)?;
        for counts in bars.more_columns(alloc, first.size, MORE_COLUMNS)? {
            let plan = Plan {
                size: first.size,
                counts,
                tag: first.tag,
            };
            let known = plans
                .iter()
                .any(|p| p.counts.as_slice() == plan.counts.as_slice());
            let gains = self.master.gain(&plan).unwrap_or(0) > MIN_GAIN;
            if gains && !known && times_within(&plan.counts, &self.left) > 0 {
                plans.push(plan)?;
            }
        }
        for plan in plans {
            self.master.add(plan)?;
        }
        Ok(())
    }

    /// Offers the plans of a table that gain. Whether there was one.
    fn add(&mut self, alloc: Global, bars: &Bars, priced: Vec<Priced>) -> Result<bool, AllocError> {
        let mut plans = Vec::new(alloc);
        for (size, one) in priced.into_iter().enumerate() {
            plans.push(Plan {
                size,
                counts: one.counts,
                tag: one.plan,
            })?;
        }
        let gains = self.gaining(alloc, &plans)?;
        for (_, place) in gains.iter().take(MAX_SIZES) {
            if let Some(plan) = plans.get(*place) {
                self.add_more(alloc, bars, plan)?;
            }
        }
        Ok(!gains.is_empty())
    }

    /// Takes what was offered last into the program, for who reads it.
    pub fn settle(&mut self) -> bool {
        for _ in 0..20 {
            match self.master.improve(PIVOTS) {
                End::Best => return true,
                End::Failed => return false,
                End::Spent => {}
            }
        }
        false
    }

    /// Goes on by a table at most; `enough` is a bound that need not be exceeded. Whether it is at
    /// its end.
    pub fn go_on(
        &mut self,
        alloc: Global,
        order: &Order,
        bars: &mut Bars,
        enough: u64,
    ) -> Result<bool, AllocError> {
        if !self.begun {
            match self.master.improve(PIVOTS) {
                End::Best => self.begin(alloc, order, bars)?,
                End::Spent => return Ok(false),
                End::Failed => return Ok(true),
            }
        }
        let Some(priced) = bars.go_on_columns(alloc)? else {
            return Ok(false);
        };
        self.begun = false;
        self.tables = self.tables.saturating_sub(1);
        self.rate(alloc, order, &priced)?;
        if self.least >= enough || self.least >= self.most_bound(order) {
            return Ok(true);
        }
        let added = self.add(alloc, bars, priced)?;
        Ok(!added || self.tables == 0)
    }
}

//! A plan from nothing: the unit that is worth most for its cost is cut next, until nothing is left.
//! Where values are corrected (Belov and Scheithauer 2007, after Mukhacheva), the pieces of each unit
//! get new ones by what of it was lost.

use crate::sheets::job::{Job, is_within, sum_of};
use crate::sheets::units::{MAX_ORDER_UNITS, Plan, Units};
use crate::sheets::worker::{PLAIN_BEAM, Worker};
use cut_search_bars::correct::{Loss, corrected};
use cut_search_bars::draft::{have_some, times_within};
use std::alloc::{AllocError, Global};
use std::rc::Rc;

/// So many sizes are filled for one unit at most, before the best that is known is taken.
const MAX_GREEDY_TRIES: u32 = 16;

/// The same of a plain plan.
const PLAIN_TRIES: u32 = 3;

/// So many cheaper sizes are tried for all that is left.
const MAX_CHEAPER: u32 = 8;

/// So many different units a plan has at most, so that its memory is bounded. What is left then is
/// missing.
pub const MAX_BATCHES: usize = 1500;

/// The old value's weight in a corrected one at least, in 1000ths.
const MIN_WEIGHT: u64 = 667;

/// That weight at most.
const MAX_WEIGHT: u64 = 1500;

/// How much the power of an area is above 1 at least, in 1000ths.
const MIN_POWER: u64 = 20;

/// How much it is at most.
const MAX_POWER: u64 = 99;

/// What is known of a unit of a size.
#[derive(Drop)]
struct Known {
    /// What it is worth at most.
    value: u64,
    /// A plan of that worth, if one was made.
    plan: Option<Rc<Plan>>,
}

/// A plan that is being made.
#[derive(Drop)]
pub struct Greedy {
    /// The units so far.
    pub units: Units,
    /// What a piece of each want is worth.
    pub values: Vec<u64>,
    /// How much more a size is liked, in 1000ths.
    likes: Vec<u64>,
    beam: usize,
    known: Vec<Known>,
    /// So many fillings were made for the next unit.
    tries: u32,
    /// The size of the next unit, once it is known.
    chosen: Option<usize>,
    /// The cheaper sizes that are still to be tried for all that is left, the cheapest last.
    cheaper: Vec<usize>,
    is_corrected: bool,
    /// More than this isn't worth its cost.
    most_cost: u64,
}

/// What a unit of a size is worth at most: all that is left, or its area at the greatest value of a
/// piece's area.
fn most_value(job: &Job, size: usize, left: &[u32], values: &[u64]) -> u64 {
    let unit = job.unit_cells(size);
    let mut most = 0u128;
    let cells = job.order.piece_cells.iter();
    for (want, ((count, value), area)) in left.iter().zip(values).zip(cells).enumerate() {
        if *count > 0 && job.holds(size, want) {
            let full = (*value as u128 * unit as u128).div_ceil((*area as u128).max(1));
            most = full.max(most);
        }
    }
    u64::try_from(most)
        .unwrap_or(u64::MAX)
        .min(sum_of(left, values))
}

impl Greedy {
    /// A plan without a unit, of a stock of which so many are free.
    pub fn new(
        alloc: Global,
        worker: &mut Worker,
        free: &[u32],
        values: &[u64],
        beam: usize,
        noise: u64,
    ) -> Result<Greedy, AllocError> {
        let units = Units::new(alloc, &worker.job, free)?;
        let mut likes = Vec::new(alloc);
        let mut known = Vec::new(alloc);
        for size in 0..worker.job.size_count() {
            likes.push(worker.dice.noisy(1000, noise))?;
            known.push(Known {
                value: most_value(&worker.job, size, &units.missing, values),
                plan: None,
            })?;
        }
        Ok(Greedy {
            units,
            values: Vec::from_slice(alloc, values)?,
            likes,
            beam,
            known,
            tries: 0,
            chosen: None,
            cheaper: Vec::new(alloc),
            is_corrected: false,
            most_cost: u64::MAX,
        })
    }

    /// The same, with values that are corrected, and an end where it must cost more than so much.
    pub fn corrected(
        alloc: Global,
        worker: &mut Worker,
        free: &[u32],
        values: &[u64],
        beam: usize,
        most_cost: u64,
    ) -> Result<Greedy, AllocError> {
        let mut greedy = Greedy::new(alloc, worker, free, values, beam, 0)?;
        greedy.is_corrected = true;
        greedy.most_cost = most_cost;
        Ok(greedy)
    }

    /// Whether a plan of a size is known that is within what is left.
    fn is_ready(&self, size: usize) -> bool {
        match self.known.get(size) {
            Some(known) => match &known.plan {
                Some(plan) => is_within(&plan.counts, &self.units.missing),
                None => false,
            },
            None => false,
        }
    }

    /// The free size that is worth most for its cost; among those that are ready alone, if so asked.
    fn best_size(&self, job: &Job, is_ready: bool) -> Option<usize> {
        let mut best: Option<(usize, u128, u64)> = None;
        for (size, (known, like)) in self.known.iter().zip(&self.likes).enumerate() {
            let is_out = self.units.free_of(size) == 0 || known.value == 0;
            if is_out || is_ready && !self.is_ready(size) {
                continue;
            }
            let value = known.value as u128 * *like as u128;
            let cost = job.cost(size);
            let better = best.map_or(true, |(_, other, other_cost)| {
                value.saturating_mul(other_cost as u128) > other.saturating_mul(cost as u128)
            });
            if better {
                best = Some((size, value, cost));
            }
        }
        best.map(|(size, _, _)| size)
    }

    /// Fills a unit of a size, and keeps it.
    fn learn(&mut self, alloc: Global, worker: &mut Worker, size: usize) -> Result<(), AllocError> {
        let left = &self.units.missing;
        let filled = worker.fill(alloc, size, left, &self.values, self.beam)?;
        self.tries = self.tries.saturating_add(1);
        if let Some(known) = self.known.get_mut(size) {
            known.value = filled.value;
            known.plan = Some(Rc::new(alloc, filled.plan)?);
        }
        Ok(())
    }

    /// The cheaper sizes that might hold all that is left, the cheapest last.
    fn cheaper_sizes(
        &self,
        alloc: Global,
        job: &Job,
        size: usize,
    ) -> Result<Vec<usize>, AllocError> {
        let mut sizes = Vec::new(alloc);
        let (cost, all) = (job.cost(size), sum_of(&self.units.missing, &self.values));
        for (other, known) in self.known.iter().enumerate() {
            let is_able = self.units.free_of(other) > 0 && job.cost(other) < cost;
            let is_less = known.value < all && self.is_ready(other);
            if is_able && !is_less && job.might_hold(other, &self.units.missing) {
                sizes.push((job.cost(other), other))?;
            }
        }
        sizes.sort()?;
        let mut order = Vec::new(alloc);
        for (_, other) in sizes.iter().take(MAX_CHEAPER as usize).rev() {
            order.push(*other)?;
        }
        Ok(order)
    }

    /// Looks for the next unit's size, by one filling at most. Whether there is none.
    fn choose(&mut self, alloc: Global, worker: &mut Worker) -> Result<bool, AllocError> {
        let is_plain = self.beam <= PLAIN_BEAM;
        let is_enough = self.tries
            >= if is_plain {
                PLAIN_TRIES
            } else {
                MAX_GREEDY_TRIES
            };
        let best = self.best_size(&worker.job, is_enough);
        let Some(size) = best.or(self.best_size(&worker.job, false)) else {
            return Ok(true);
        };
        if !self.is_ready(size) {
            self.learn(alloc, worker, size)?;
            return Ok(false);
        }
        self.cheaper = self.cheaper_sizes(alloc, &worker.job, size)?;
        self.chosen = Some(size);
        Ok(false)
    }

    /// How often a plan is taken at once: as long as much more is left than one unit holds.
    fn times_of(&self, job: &Job, plan: &Plan) -> u32 {
        let area = MAX_ORDER_UNITS.saturating_sub(self.units.count());
        let fit = times_within(&plan.counts, &self.units.missing)
            .min(self.units.free_of(plan.size))
            .min(u32::try_from(area).unwrap_or(0));
        if self.is_corrected {
            return fit;
        }
        let mut most = 0u64;
        for cells in &job.order.unit_cells {
            most = (*cells).max(most);
        }
        let left = job.cells_in(&self.units.missing).saturating_sub(most);
        let whole = left.checked_div(job.cells_in(&plan.counts)).unwrap_or(1);
        fit.min(u32::try_from(whole).unwrap_or(u32::MAX).max(1))
    }

    /// Gives the pieces of units new values; so many were left before.
    fn correct(&mut self, worker: &mut Worker, plan: &Plan, times: u32) {
        let job = &worker.job;
        let loss = Loss {
            most: job.order.most_cells(),
            unit: job.unit_cells(plan.size),
            used: job.cells_in(&plan.counts).max(1),
            weight: worker.dice.within(MIN_WEIGHT, MAX_WEIGHT),
            power: worker.dice.within(MIN_POWER, MAX_POWER),
        };
        let pieces = job
            .order
            .piece_cells
            .iter()
            .zip(&plan.counts)
            .zip(&self.units.missing);
        for (value, ((cells, count), left)) in self.values.iter_mut().zip(pieces) {
            if *count > 0 {
                let taken = *count as u64 * times as u64;
                let often = (*left as u64).saturating_mul(2).saturating_add(taken);
                *value = corrected(*value, *cells, *count, often, &loss);
            }
        }
        for known in self.known.iter_mut() {
            known.value = u64::MAX;
            known.plan = None;
        }
    }

    /// Takes the unit of a size that is known.
    fn take(&mut self, worker: &mut Worker, size: usize) -> Result<(), AllocError> {
        self.chosen = None;
        self.tries = 0;
        let plan = match self.known.get(size) {
            Some(known) => match &known.plan {
                Some(plan) => Rc::clone(plan)?,
                None => return Ok(()),
            },
            None => return Ok(()),
        };
        let times = self.times_of(&worker.job, &plan);
        if times == 0 {
            self.drop_size(size);
            return Ok(());
        }
        let shared = Rc::clone(&plan)?;
        self.units.add(&worker.job, shared, times)?;
        if self.is_corrected {
            self.correct(worker, &plan, times);
        }
        Ok(())
    }

    /// Takes no more units of a size.
    fn drop_size(&mut self, size: usize) {
        if let Some(known) = self.known.get_mut(size) {
            known.value = 0;
        }
    }

    /// Tries a cheaper size for all that is left.
    fn try_cheaper(
        &mut self,
        alloc: Global,
        worker: &mut Worker,
        size: usize,
    ) -> Result<(), AllocError> {
        self.learn(alloc, worker, size)?;
        if let Some(known) = self.known.get(size) {
            if let Some(plan) = &known.plan {
                if plan.counts.as_slice() == self.units.missing.as_slice() {
                    self.chosen = Some(size);
                    self.cheaper = Vec::new(alloc);
                }
            }
        }
        Ok(())
    }

    /// Whether the plan must cost more than is worth it.
    fn is_hopeless(&self, job: &Job) -> bool {
        let least = job.least_by_cells(&self.units.missing);
        self.units.cost.saturating_add(least) > self.most_cost
    }

    /// Goes on by one filling at most. Whether it is at its end.
    pub fn go_on(&mut self, alloc: Global, worker: &mut Worker) -> Result<bool, AllocError> {
        let is_full = self.units.batches.len() >= MAX_BATCHES
            || self.units.count() >= MAX_ORDER_UNITS;
        if is_full || !have_some(&self.units.missing) {
            return Ok(true);
        }
        let Some(size) = self.chosen else {
            if self.most_cost < u64::MAX && self.is_hopeless(&worker.job) {
                return Ok(true);
            }
            return self.choose(alloc, worker);
        };
        match self.cheaper.pop() {
            Some(other) => self.try_cheaper(alloc, worker, other)?,
            None => self.take(worker, size)?,
        }
        Ok(false)
    }
}

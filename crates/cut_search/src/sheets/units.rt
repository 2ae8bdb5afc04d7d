//! Units that are cut by plans, and the pieces that they leave out.

use crate::sheets::job::{Job, pieces_in};
use cut_fill_sheets::Shape;
use std::alloc::{AllocError, Global};
use std::rc::Rc;

/// So many units an answer has at most.
pub const MAX_ORDER_UNITS: u64 = 100_000;

/// A plan of one unit.
#[derive(Drop)]
pub struct Plan {
    /// The place of the unit's size in the stock.
    pub size: usize,
    /// Where the cuts are.
    pub shape: Shape,
    /// How many pieces of each want it has.
    pub counts: Vec<u32>,
}

/// Units that are cut alike.
#[derive(Drop)]
pub struct Batch {
    pub plan: Rc<Plan>,
    /// How many units they are.
    pub times: u32,
}

/// Some units, what is left of the wants and of the stock after them, and what they cost.
#[derive(Drop)]
pub struct Units {
    pub batches: Vec<Batch>,
    /// How many pieces of each want are in no unit.
    pub missing: Vec<u32>,
    /// How many units of each size are not used; the most where there is no end.
    pub free: Vec<u32>,
    /// The sum of the units' costs.
    pub cost: u64,
}

/// Adds counts.
pub fn give(left: &mut [u32], counts: &[u32], times: u32) {
    for (rest, count) in left.iter_mut().zip(counts) {
        *rest = rest.saturating_add(count.saturating_mul(times));
    }
}

/// Takes counts away.
pub fn take(left: &mut [u32], counts: &[u32], times: u32) {
    for (rest, count) in left.iter_mut().zip(counts) {
        *rest = rest.saturating_sub(count.saturating_mul(times));
    }
}

impl Units {
    /// No units, of a stock of which so many are free.
    pub fn new(alloc: Global, job: &Job, free: &[u32]) -> Result<Units, AllocError> {
        let missing = Vec::from_slice(alloc, &job.order.left)?;
        let free = Vec::from_slice(alloc, free)?;
        Ok(Units {
            batches: Vec::new(alloc),
            missing,
            free,
            cost: 0,
        })
    }

    /// The same again; the plans are shared.
    pub fn copy(&self, alloc: Global) -> Result<Units, AllocError> {
        let missing = Vec::from_slice(alloc, &self.missing)?;
        let free = Vec::from_slice(alloc, &self.free)?;
        let mut batches = Vec::new(alloc);
        for batch in &self.batches {
            batches.push(Batch {
                plan: Rc::clone(&batch.plan)?,
                times: batch.times,
            })?;
        }
        Ok(Units {
            batches,
            missing,
            free,
            cost: self.cost,
        })
    }

    /// How many pieces are missing.
    pub fn missing_pieces(&self) -> u64 {
        pieces_in(&self.missing)
    }

    /// How many units there are.
    pub fn count(&self) -> u64 {
        let mut sum = 0u64;
        for batch in &self.batches {
            sum = sum.saturating_add(batch.times as u64);
        }
        sum
    }

    /// The place of the batch that has a unit, the units counted through.
    pub fn batch_of(&self, unit: u64) -> usize {
        let mut before = 0u64;
        for (place, batch) in self.batches.iter().enumerate() {
            before = before.saturating_add(batch.times as u64);
            if unit < before {
                return place;
            }
        }
        0
    }

    /// How many units of a size are free.
    pub fn free_of(&self, size: usize) -> u32 {
        self.free.get(size).copied().unwrap_or(0)
    }

    /// Takes units of a size from the stock.
    pub fn use_up(&mut self, job: &Job, size: usize, times: u32) {
        if !job.is_endless(size) {
            if let Some(number) = self.free.get_mut(size) {
                *number = number.saturating_sub(times);
            }
        }
        let cost = job.cost(size).saturating_mul(times as u64);
        self.cost = self.cost.saturating_add(cost);
    }

    /// Gives units of a size back to the stock.
    fn give_back(&mut self, job: &Job, size: usize, times: u32) {
        if !job.is_endless(size) {
            if let Some(number) = self.free.get_mut(size) {
                *number = number.saturating_add(times);
            }
        }
        let cost = job.cost(size).saturating_mul(times as u64);
        self.cost = self.cost.saturating_sub(cost);
    }

    /// Adds units to a batch of the same, if there is one.
    fn join(&mut self, plan: &Plan, times: u32) -> bool {
        for batch in self.batches.iter_mut() {
            let same = batch.plan.size == plan.size
                && batch.plan.counts.as_slice() == plan.counts.as_slice();
            if same {
                batch.times = batch.times.saturating_add(times);
                return true;
            }
        }
        false
    }

    /// Adds so many units, without a look at what is missing.
    pub fn put(&mut self, job: &Job, plan: Rc<Plan>, times: u32) -> Result<(), AllocError> {
        self.use_up(job, plan.size, times);
        if !self.join(&plan, times) {
            self.batches.push(Batch { plan, times })?;
        }
        Ok(())
    }

    /// Adds so many units of pieces that are missing.
    pub fn add(&mut self, job: &Job, plan: Rc<Plan>, times: u32) -> Result<(), AllocError> {
        take(&mut self.missing, &plan.counts, times);
        self.put(job, plan, times)
    }

    /// Takes one unit of a batch away; its pieces are missing. The batch stays, if only of none.
    pub fn take_apart(&mut self, job: &Job, place: usize) {
        let mut size = None;
        if let Some(batch) = self.batches.get_mut(place) {
            batch.times = batch.times.saturating_sub(1);
            give(&mut self.missing, &batch.plan.counts, 1);
            size = Some(batch.plan.size);
        }
        if let Some(size) = size {
            self.give_back(job, size, 1);
        }
    }

    /// Lets batches of no units go.
    pub fn tidy(&mut self) {
        self.batches.retain(|batch| batch.times > 0);
    }

    /// Puts another plan of the same pieces in the place of so many units of a batch. The batch
    /// stays, if only of none.
    pub fn exchange(
        &mut self,
        job: &Job,
        place: usize,
        plan: Rc<Plan>,
        times: u32,
    ) -> Result<(), AllocError> {
        let Some(batch) = self.batches.get_mut(place) else {
            return Ok(());
        };
        let size = batch.plan.size;
        batch.times = batch.times.saturating_sub(times);
        self.give_back(job, size, times);
        self.use_up(job, plan.size, times);
        self.batches.push(Batch { plan, times })?;
        Ok(())
    }

    /// Frees the units of a stock that are not used.
    pub fn free_all(&mut self, alloc: Global, job: &Job) -> Result<(), AllocError> {
        let mut free = job.numbers(alloc)?;
        for batch in &self.batches {
            if !job.is_endless(batch.plan.size) {
                if let Some(number) = free.get_mut(batch.plan.size) {
                    *number = number.saturating_sub(batch.times);
                }
            }
        }
        self.free = free;
        Ok(())
    }
}

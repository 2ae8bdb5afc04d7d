//! A plan is made whole and cheaper: while something is missing that a free unit holds, that unit is
//! filled; and the pieces of each unit go to the cheapest free size that holds them.

use crate::sheets::job::Job;
use crate::sheets::units::Units;
use crate::sheets::worker::{WIDE_BEAM, Worker};
use cut_search_bars::draft::{have_some, times_within};
use std::alloc::{AllocError, Global};
use std::rc::Rc;

/// So many cheaper sizes are tried for a unit at most.
const MAX_CHEAPER: usize = 6;

/// So many units are tried at most.
const MAX_SETTLED_UNITS: usize = 300;

/// So many units are added at most.
const MAX_ADDED: u32 = 400;

/// A plan that is being settled.
#[derive(Drop)]
pub struct Settle {
    pub units: Units,
    values: Vec<u64>,
    /// Whether something missing may still find a unit.
    is_filling: bool,
    added: u32,
    /// The batch that is tried next.
    place: usize,
    /// The cheaper sizes for its pieces that are still to be tried, the cheapest last.
    cheaper: Option<Vec<usize>>,
}

impl Settle {
    /// A plan that is still to be settled.
    pub fn new(alloc: Global, units: Units, values: &[u64]) -> Result<Settle, AllocError> {
        Ok(Settle {
            units,
            values: Vec::from_slice(alloc, values)?,
            is_filling: true,
            added: 0,
            place: 0,
            cheaper: None,
        })
    }

    /// The dearest free size that holds something that is missing.
    fn size_for_missing(&self, job: &Job) -> Option<usize> {
        let mut best: Option<(u64, usize)> = None;
        for (size, free) in self.units.free.iter().enumerate() {
            let cost = job.cost(size);
            let better = best.map_or(true, |(other, _)| cost > other);
            if *free > 0 && better && job.holds_some(size, &self.units.missing) {
                best = Some((cost, size));
            }
        }
        best.map(|(_, size)| size)
    }

    /// Fills a unit with what is missing. Whether there is none.
    fn fill(&mut self, alloc: Global, worker: &mut Worker) -> Result<bool, AllocError> {
        if !have_some(&self.units.missing) || self.added >= MAX_ADDED {
            return Ok(true);
        }
        let Some(size) = self.size_for_missing(&worker.job) else {
            return Ok(true);
        };
        let filled = worker.fill(alloc, size, &self.units.missing, &self.values, WIDE_BEAM)?;
        self.added = self.added.saturating_add(1);
        let counts = &filled.plan.counts;
        let times = times_within(counts, &self.units.missing).min(self.units.free_of(size));
        if times == 0 {
            return Ok(true);
        }
        let plan = Rc::new(alloc, filled.plan)?;
        self.units.add(&worker.job, plan, times)?;
        Ok(false)
    }

    /// The cheaper free sizes that might hold the pieces of a batch's unit, the cheapest last.
    fn cheaper_sizes(&self, alloc: Global, job: &Job) -> Result<Vec<usize>, AllocError> {
        let mut sizes = Vec::new(alloc);
        if let Some(batch) = self.units.batches.get(self.place) {
            let cost = job.cost(batch.plan.size);
            for (size, free) in self.units.free.iter().enumerate() {
                let is_cheaper = *free > 0 && job.cost(size) < cost;
                if is_cheaper && job.might_hold(size, &batch.plan.counts) {
                    sizes.push((job.cost(size), size))?;
                }
            }
        }
        sizes.sort()?;
        let mut order = Vec::new(alloc);
        for (_, size) in sizes.iter().take(MAX_CHEAPER).rev() {
            order.push(*size)?;
        }
        Ok(order)
    }

    /// Tries a cheaper size for a batch's unit. Whether it holds its pieces.
    fn try_size(
        &mut self,
        alloc: Global,
        worker: &mut Worker,
        size: usize,
    ) -> Result<bool, AllocError> {
        let Some(batch) = self.units.batches.get(self.place) else {
            return Ok(true);
        };
        let filled = worker.fill(alloc, size, &batch.plan.counts, &self.values, WIDE_BEAM)?;
        if filled.plan.counts.as_slice() != batch.plan.counts.as_slice() {
            return Ok(false);
        }
        let times = batch.times.min(self.units.free_of(size));
        let plan = Rc::new(alloc, filled.plan)?;
        self.units.exchange(&worker.job, self.place, plan, times)?;
        Ok(true)
    }

    /// Goes on with a batch's unit.
    fn cheapen(&mut self, alloc: Global, worker: &mut Worker) -> Result<(), AllocError> {
        let mut sizes = match self.cheaper.take() {
            Some(sizes) => sizes,
            None => self.cheaper_sizes(alloc, &worker.job)?,
        };
        let is_done = match sizes.pop() {
            Some(size) => self.try_size(alloc, worker, size)?,
            None => true,
        };
        if is_done || sizes.is_empty() {
            self.place = self.place.saturating_add(1);
        } else {
            self.cheaper = Some(sizes);
        }
        Ok(())
    }

    /// Goes on by one filling at most. Whether it is at its end.
    pub fn go_on(&mut self, alloc: Global, worker: &mut Worker) -> Result<bool, AllocError> {
        if self.is_filling {
            self.is_filling = !self.fill(alloc, worker)?;
            return Ok(false);
        }
        worker.count_work(1);
        if self.place >= self.units.batches.len().min(MAX_SETTLED_UNITS) {
            self.units.tidy();
            return Ok(true);
        }
        self.cheapen(alloc, worker)?;
        Ok(false)
    }
}

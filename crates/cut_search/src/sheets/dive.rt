//! A dive: the program of plans rounded down, or its greatest column taken once, and solved again
//! for what is left, until nothing is.

use crate::sheets::job::Job;
use crate::sheets::program::{Program, plan_of};
use crate::sheets::units::{Plan, Units};
use crate::sheets::worker::{WIDE_BEAM, Worker};
use cut_master::master::Taken;
use cut_search_bars::draft::{have_some, times_within};
use cut_search_bars::round::{greatest_first, whole_units};
use std::alloc::{AllocError, Global};
use std::rc::Rc;

/// So many fillings are made for a program on the way at most.
const FILLINGS: u32 = 30;

/// A dive on its way.
#[derive(Drop)]
pub struct Dive {
    /// The units so far.
    pub units: Units,
    program: Program,
    /// Whether the program is solved.
    is_solved: bool,
    /// More than this isn't worth its cost.
    most_cost: u64,
}

impl Dive {
    /// A dive that begins with a program that is solved.
    pub fn new(
        alloc: Global,
        worker: &Worker,
        free: &[u32],
        program: Program,
        most_cost: u64,
    ) -> Result<Dive, AllocError> {
        Ok(Dive {
            units: Units::new(alloc, &worker.job, free)?,
            program,
            is_solved: true,
            most_cost,
        })
    }

    /// How often a plan of a size may be taken.
    fn fit(&self, size: usize, counts: &[u32]) -> u32 {
        times_within(counts, &self.units.missing).min(self.units.free_of(size))
    }

    /// The size of a column of the program.
    fn size_of(&self, place: usize) -> usize {
        self.program.sizes.get(place).copied().unwrap_or(0)
    }

    /// The size that is worth most for its cost, among those with a free unit that hold a missing
    /// piece.
    fn best_size(&self, worker: &Worker) -> Option<usize> {
        let mut best: Option<(u64, usize)> = None;
        for size in &self.program.sizes {
            let rate = worker.hints.rates.get(*size).copied().unwrap_or(0);
            let is_able = self.units.free_of(*size) > 0
                && worker.job.holds_some(*size, &self.units.missing);
            if is_able && best.map_or(true, |(other, _)| rate > other) {
                best = Some((rate, *size));
            }
        }
        best.map(|(_, size)| size)
    }

    /// Takes the whole parts of the columns; of none the greatest that fits once, if so asked.
    /// Whether one was taken.
    fn round(
        &mut self,
        alloc: Global,
        worker: &Worker,
        taken: &[Taken],
        is_once: bool,
    ) -> Result<bool, AllocError> {
        let mut done = false;
        for (_, place) in &greatest_first(alloc, taken)? {
            let Some(one) = taken.get(*place) else {
                continue;
            };
            let whole = if is_once { 1 } else { whole_units(one.amount) };
            let size = self.size_of(one.plan.size);
            let times = whole.min(self.fit(size, &one.plan.counts));
            if times > 0 {
                if let Some(plan) = plan_of(alloc, &self.program.plans, &one.plan)? {
                    let fit = times.min(self.fit(size, &plan.counts));
                    self.units.add(&worker.job, plan, fit)?;
                    done = done || fit > 0;
                }
            }
            if is_once && done {
                return Ok(true);
            }
        }
        Ok(done)
    }

    /// Takes one unit that is filled by the prices. Whether it has a piece.
    fn fill_one(&mut self, alloc: Global, worker: &mut Worker) -> Result<bool, AllocError> {
        let Some(size) = self.best_size(worker) else {
            return Ok(false);
        };
        let left = &self.units.missing;
        let filled = worker.fill(alloc, size, left, &self.program.prices, WIDE_BEAM)?;
        let fit = self.fit(size, &filled.plan.counts).min(1);
        if fit > 0 {
            let plan: Rc<Plan> = Rc::new(alloc, filled.plan)?;
            self.units.add(&worker.job, plan, fit)?;
        }
        Ok(fit > 0)
    }

    /// Takes units of the program. Whether there were some.
    fn take(&mut self, alloc: Global, worker: &mut Worker) -> Result<bool, AllocError> {
        let taken = self.program.taken(alloc)?;
        if self.round(alloc, worker, &taken, false)? || self.round(alloc, worker, &taken, true)? {
            return Ok(true);
        }
        self.fill_one(alloc, worker)
    }

    /// Begins the program of what is left, with the columns of the one before. Whether there is
    /// one.
    fn descend(&mut self, alloc: Global, job: &Job) -> Result<bool, AllocError> {
        let (left, free) = (&self.units.missing, &self.units.free);
        let sizes = &self.program.sizes;
        let Some(mut next) = Program::new(alloc, job, sizes, left, free, FILLINGS)? else {
            return Ok(false);
        };
        for plan in &self.program.plans {
            next.offer(alloc, plan)?;
        }
        next.prices = Vec::from_slice(alloc, &self.program.prices)?;
        self.program = next;
        self.is_solved = false;
        Ok(true)
    }

    /// Goes on by some pivots or one filling. Whether it is at its end.
    pub fn go_on(&mut self, alloc: Global, worker: &mut Worker) -> Result<bool, AllocError> {
        if !self.is_solved {
            self.is_solved = self.program.go_on(alloc, worker)?;
            return Ok(false);
        }
        if !have_some(&self.units.missing) || !self.take(alloc, worker)? {
            return Ok(true);
        }
        worker.count_work(4);
        let least = worker.job.least_by_cells(&self.units.missing);
        if !have_some(&self.units.missing)
            || self.units.cost.saturating_add(least) > self.most_cost
        {
            return Ok(true);
        }
        Ok(!self.descend(alloc, &worker.job)?)
    }
}

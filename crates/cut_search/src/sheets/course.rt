//! A course of a search over some sizes of the stock, with its own job, hints and chance.

use crate::sheets::flow::{Flow, Reported};
use crate::sheets::hints::Hints;
use crate::sheets::job::Job;
use crate::sheets::units::{Plan, Units};
use crate::sheets::worker::{SLICE, Worker};
use cut_search_bars::stock::SearchSize;
use cut_wants::wants::Want;
use std::alloc::{AllocError, Global};
use std::rc::Rc;

/// The seed of a course's chance.
const SEED: u64 = 88_172_645_463_325_252;

/// A course makes at most so many steps in a row, however little work each is.
const STEPS: u32 = 2000;

/// A course over some sizes of the stock.
#[derive(Drop)]
pub struct Course {
    pub worker: Worker,
    pub flow: Flow,
    /// For each of its sizes the place of that size in the whole stock.
    places: Vec<usize>,
    /// How many slices it has had.
    pub slices: u64,
    /// How much work of the next slice is done.
    done: u64,
}

/// Whether there are units of a size and it holds a piece.
fn is_useful(job: &Job, size: usize) -> bool {
    job.order.limits.get(size).copied() != Some(Some(0)) && job.holds_some(size, &job.order.left)
}

/// The useful size of a job, if exactly one size is useful.
fn only_size(job: &Job) -> Option<usize> {
    let mut only = None;
    for size in 0..job.size_count() {
        if is_useful(job, size) {
            if only.is_some() {
                return None;
            }
            only = Some(size);
        }
    }
    only
}

/// The places of a size and of all sizes that have a limit.
pub fn places_with(
    alloc: Global,
    sizes: &[SearchSize],
    size: usize,
) -> Result<Vec<usize>, AllocError> {
    let mut places = Vec::new(alloc);
    for (place, one) in sizes.iter().enumerate() {
        if place == size || one.limit.is_some() {
            places.push(place)?;
        }
    }
    Ok(places)
}

/// The sizes at these places.
fn sizes_at(
    alloc: Global,
    sizes: &[SearchSize],
    places: &[usize],
) -> Result<Vec<SearchSize>, AllocError> {
    let mut some = Vec::new(alloc);
    for place in places {
        if let Some(size) = sizes.get(*place) {
            some.push(*size)?;
        }
    }
    Ok(some)
}

impl Course {
    /// A course over the sizes at these places of the stock, which has made nothing yet.
    pub fn new(
        alloc: Global,
        kerf: u32,
        step: Option<u32>,
        stages: Option<u32>,
        sizes: &[SearchSize],
        wants: &[Want],
        places: Vec<usize>,
    ) -> Result<Course, AllocError> {
        let own = sizes_at(alloc, sizes, &places)?;
        let job = Job::new(alloc, kerf, step, stages, &own, wants)?;
        let hints = Hints::new(alloc, &job)?;
        let worker = Worker::new(job, hints, SEED);
        let free = worker.job.numbers(alloc)?;
        let only = only_size(&worker.job);
        let flow = Flow::new(alloc, &worker, only, free)?;
        Ok(Course {
            worker,
            flow,
            places,
            slices: 0,
            done: 0,
        })
    }

    /// Whether its sizes hold each piece that the sizes of another job hold.
    pub fn holds_all(&self, other: &Job) -> bool {
        let left = self.worker.job.order.left.as_slice();
        left == other.order.left.as_slice()
    }

    /// A lower bound of the cost of its plans, as far as it knows one.
    pub fn least(&self) -> u64 {
        let job = &self.worker.job;
        let by_cells = self
            .flow
            .least(job)
            .max(job.least_by_cells(&job.order.left));
        by_cells.max(self.worker.hints.bound)
    }

    /// Goes on until it reports something, by about so much work at most.
    pub fn run(&mut self, alloc: Global, most: u64, goal: u64) -> Result<Reported, AllocError> {
        self.worker.spent = 0;
        for _ in 0..STEPS {
            let reported = self.flow.go_on(alloc, &mut self.worker, goal)?;
            if reported != Reported::Nothing || self.worker.spent >= most {
                return Ok(reported);
            }
        }
        Ok(Reported::Nothing)
    }

    /// Goes on with a slice, by about so much work at most. The slice ends when the course reports
    /// something or the work of the slice is done.
    pub fn take_slice(
        &mut self,
        alloc: Global,
        most: u64,
        goal: u64,
    ) -> Result<Reported, AllocError> {
        let rest = SLICE.saturating_sub(self.done).max(1);
        let reported = self.run(alloc, rest.min(most), goal)?;
        self.done = self.done.saturating_add(self.worker.spent);
        if reported != Reported::Nothing || self.done >= SLICE {
            self.slices = self.slices.saturating_add(1);
            self.done = 0;
        }
        Ok(reported)
    }

    /// Its best units, as units of a job over the whole stock. `free` says how many units of each
    /// size that job has.
    pub fn best_units(
        &self,
        alloc: Global,
        job: &Job,
        free: &[u32],
    ) -> Result<Option<Units>, AllocError> {
        let Some(best) = &self.flow.best.units else {
            return Ok(None);
        };
        let mut units = Units::new(alloc, job, free)?;
        for batch in &best.batches {
            let Some(place) = self.places.get(batch.plan.size) else {
                return Ok(None);
            };
            let plan = Plan {
                size: *place,
                shape: batch.plan.shape.copy(alloc)?,
                counts: Vec::from_slice(alloc, &batch.plan.counts)?,
            };
            units.add(job, Rc::new(alloc, plan)?, batch.times)?;
        }
        Ok(Some(units))
    }
}

//! The pieces of one unit put as narrow or as low as can be, so that the largest rest is left.

use crate::sheets::job::Job;
use crate::sheets::units::Plan;
use crate::sheets::worker::{WIDE_BEAM, Worker};
use cut_fill_sheets::Shape;
use cut_measure::Axis;
use std::alloc::{AllocError, Global};
use std::rc::Rc;

/// So many parts of a side are tried along an axis at most.
const TRIES: u32 = 10;

/// A side's part is found to within a so manieth of the side.
const FINENESS: u32 = 500;

/// Looking for the part of a side that is enough.
#[derive(Drop)]
pub struct Pack {
    size: usize,
    /// The pieces.
    counts: Vec<u32>,
    values: Vec<u64>,
    axis: Axis,
    /// Too little of the side.
    low: u32,
    /// Enough of it.
    high: u32,
    /// What is tried next.
    at: u32,
    tries: u32,
    /// The plan with the largest rest, and its cells.
    pub best: Option<Rc<Plan>>,
    pub rest: u64,
}

/// The cells of the largest rest of a plan, sides added.
pub fn rest_of(alloc: Global, job: &Job, plan: &Plan) -> Result<u64, AllocError> {
    let (w, h) = job.sides_of(plan.size);
    let (across, down) = plan.shape.largest_rest(alloc, w, h)?;
    Ok(across as u64 * down as u64)
}

impl Pack {
    /// Pieces for one unit of a size; rests count that are larger than one that is known.
    pub fn new(
        alloc: Global,
        job: &Job,
        size: usize,
        counts: &[u32],
        values: &[u64],
        rest: u64,
    ) -> Result<Pack, AllocError> {
        let mut pack = Pack {
            size,
            counts: Vec::from_slice(alloc, counts)?,
            values: Vec::from_slice(alloc, values)?,
            axis: Axis::X,
            low: 0,
            high: 0,
            at: 0,
            tries: 0,
            best: None,
            rest,
        };
        pack.begin(job);
        Ok(pack)
    }

    /// The side along the axis, and the one across.
    fn sides(&self, job: &Job) -> (u32, u32) {
        let (w, h) = job.sides_of(self.size);
        match self.axis {
            Axis::X => (w, h),
            Axis::Y => (h, w),
        }
    }

    /// Begins along an axis, with the whole side.
    fn begin(&mut self, job: &Job) {
        let (side, across) = self.sides(job);
        let cells = job.cells_in(&self.counts);
        let least = cells.checked_div(across as u64).unwrap_or(0);
        self.low = u32::try_from(least)
            .unwrap_or(side)
            .min(side)
            .saturating_sub(1);
        self.high = side;
        self.at = side;
        self.tries = TRIES;
    }

    /// Whether a cut of the unit's side may stand before the others: it may be a stage of its own.
    fn is_allowed(&self, job: &Job, side: u32) -> bool {
        self.at >= side || job.stages.map_or(true, |stages| stages > 2)
    }

    /// The stages that are left behind that cut.
    fn stages_within(&self, job: &Job, side: u32) -> Option<u32> {
        let taken = u32::from(self.at < side);
        job.stages.map(|stages| stages.saturating_sub(taken))
    }

    /// Keeps a plan, if its rest is the largest.
    fn offer(&mut self, alloc: Global, job: &Job, shape: Shape) -> Result<(), AllocError> {
        let plan = Plan {
            size: self.size,
            shape,
            counts: Vec::from_slice(alloc, &self.counts)?,
        };
        let rest = rest_of(alloc, job, &plan)?;
        if rest > self.rest {
            self.rest = rest;
            self.best = Some(Rc::new(alloc, plan)?);
        }
        Ok(())
    }

    /// Fills the part of the unit that is tried. Whether it holds all.
    fn fill(&mut self, alloc: Global, worker: &mut Worker, side: u32) -> Result<bool, AllocError> {
        if !self.is_allowed(&worker.job, side) {
            return Ok(false);
        }
        let (w, h) = worker.job.sides_of(self.size);
        let part = match self.axis {
            Axis::X => (self.at, h),
            Axis::Y => (w, self.at),
        };
        let mut effort = worker.effort(WIDE_BEAM);
        effort.stages = self.stages_within(&worker.job, side);
        let filled = worker.fill_part(alloc, self.size, part, &self.counts, &self.values, effort)?;
        let plan = filled.plan;
        if plan.counts.as_slice() != self.counts.as_slice() {
            return Ok(false);
        }
        let shape = plan.shape.cut_off(self.axis, self.at, side)?;
        self.offer(alloc, &worker.job, shape)?;
        Ok(true)
    }

    /// Goes to the other axis. Whether there is none.
    fn next_axis(&mut self, job: &Job) -> bool {
        if self.axis == Axis::Y {
            return true;
        }
        self.axis = Axis::Y;
        self.begin(job);
        false
    }

    /// Goes on by one filling. Whether it is at its end.
    pub fn go_on(&mut self, alloc: Global, worker: &mut Worker) -> Result<bool, AllocError> {
        let (side, _) = self.sides(&worker.job);
        if self.fill(alloc, worker, side)? {
            self.high = self.at;
        } else if self.at >= side {
            return Ok(self.next_axis(&worker.job));
        } else {
            self.low = self.at;
        }
        self.tries = self.tries.saturating_sub(1);
        let span = self.high.saturating_sub(self.low);
        if self.tries == 0 || span <= (side / FINENESS).max(1) {
            return Ok(self.next_axis(&worker.job));
        }
        self.at = self.low.saturating_add(span / 2);
        Ok(false)
    }
}

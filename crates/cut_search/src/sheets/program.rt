//! The program of plans (Gilmore and Gomory 1961) of one size or of several: its columns are
//! fillings, asked for by its prices, size by size, until none gains.

use crate::sheets::job::Job;
use crate::sheets::units::Plan;
use crate::sheets::worker::{WIDE_BEAM, Worker};
use cut_fill_sheets::Shape;
use cut_master::column::Plan as Column;
use cut_master::fixed::ratio;
use cut_master::master::{End, MIN_GAIN, Master, Size, Taken};
use cut_search_bars::draft::times_within;
use std::alloc::{AllocError, Global};
use std::rc::Rc;

/// So many columns are kept at most.
pub const MAX_COLUMNS: usize = 300;

/// So many pivots are made in one step.
const PIVOTS: u32 = 8;

/// So many steps of pivots are made for a program at most.
const PIVOT_STEPS: u32 = 500;

/// A run of it.
#[derive(Drop)]
pub struct Program {
    master: Master,
    /// What has to be made.
    pub left: Vec<u32>,
    /// The plans, by the columns' tags.
    pub plans: Vec<Rc<Plan>>,
    /// The sizes whose units it takes.
    pub sizes: Vec<usize>,
    /// The place among its sizes of the size that is asked for next.
    next: usize,
    /// How many fillings in a row brought no gain.
    vain: usize,
    /// So many fillings are left to it.
    fillings: u32,
    steps: u32,
    is_best: bool,
    /// The prices, in the master's fixed point.
    pub prices: Vec<u64>,
}

/// The plan of a column: what it has of a kept plan.
pub fn plan_of(
    alloc: Global,
    plans: &[Rc<Plan>],
    column: &Column,
) -> Result<Option<Rc<Plan>>, AllocError> {
    let Some(plan) = plans.get(column.tag) else {
        return Ok(None);
    };
    if plan.counts.as_slice() == column.counts.as_slice() {
        return Ok(Some(Rc::clone(plan)?));
    }
    let part: Shape = plan.shape.within(alloc, &column.counts)?;
    let counts = part.counts(alloc, column.counts.len())?;
    Ok(Some(Rc::new(
        alloc,
        Plan {
            size: plan.size,
            shape: part,
            counts,
        },
    )?))
}

/// The sizes as a program has them. `free` says how many units of each size of the job may be cut.
fn master_sizes(
    alloc: Global,
    job: &Job,
    sizes: &[usize],
    free: &[u32],
) -> Result<Vec<Size>, AllocError> {
    let mut dearest = 1u64;
    for size in sizes {
        dearest = dearest.max(job.cost(*size));
    }
    let mut offered = Vec::new(alloc);
    for size in sizes {
        let number = match free.get(*size) {
            Some(&u32::MAX) | None => None,
            Some(number) => Some(*number as u64),
        };
        offered.push(Size {
            cost: ratio(job.cost(*size), dearest).unwrap_or(0),
            number,
        })?;
    }
    Ok(offered)
}

impl Program {
    /// The program of what is left, from some sizes of a job. `free` says how many units of each size
    /// of the job may be cut. None if the numbers are too large.
    pub fn new(
        alloc: Global,
        job: &Job,
        sizes: &[usize],
        left: &[u32],
        free: &[u32],
        fillings: u32,
    ) -> Result<Option<Program>, AllocError> {
        let offered = master_sizes(alloc, job, sizes, free)?;
        let copied = Vec::from_slice(alloc, left)?;
        let Some(master) = Master::new(alloc, left, &offered)? else {
            return Ok(None);
        };
        Ok(Some(Program {
            master,
            left: copied,
            plans: Vec::new(alloc),
            sizes: Vec::from_slice(alloc, sizes)?,
            next: 0,
            vain: 0,
            fillings,
            steps: PIVOT_STEPS,
            is_best: false,
            prices: Vec::new(alloc),
        }))
    }

    /// Offers what a plan has of what is left.
    pub fn offer(&mut self, alloc: Global, plan: &Rc<Plan>) -> Result<(), AllocError> {
        let Some(size) = self.sizes.iter().position(|size| *size == plan.size) else {
            return Ok(());
        };
        if self.plans.len() >= MAX_COLUMNS {
            return Ok(());
        }
        let mut counts = Vec::from_slice(alloc, &plan.counts)?;
        for (count, left) in counts.iter_mut().zip(&self.left) {
            *count = (*count).min(*left);
        }
        let mut known = self.master.plans().iter();
        let is_known = known.any(|other| {
            other.size == size && other.counts.as_slice() == counts.as_slice()
        });
        if times_within(&counts, &self.left) > 0 && !is_known {
            let tag = self.plans.len();
            self.plans.push(Rc::clone(plan)?)?;
            self.master.add(Column { size, counts, tag })?;
            self.is_best = false;
        }
        Ok(())
    }

    /// The columns that the program takes, and how many of each.
    pub fn taken(&self, alloc: Global) -> Result<Vec<Taken>, AllocError> {
        self.master.taken(alloc)
    }

    /// Makes some pivots. Whether the program is of no more use.
    fn pivot(&mut self, worker: &mut Worker) -> bool {
        let rows = self.left.len() as u64;
        let columns = self.plans.len() as u64;
        let all = rows.saturating_add(columns).saturating_mul(rows) / 10_000;
        worker.count_work(all.saturating_add(1).saturating_mul(PIVOTS as u64));
        self.steps = self.steps.saturating_sub(1);
        match self.master.improve(PIVOTS) {
            End::Best => self.is_best = true,
            End::Spent => {}
            End::Failed => return true,
        }
        self.steps == 0
    }

    /// The place among its sizes of the size that is asked for now, and that size. Goes on to the
    /// next place.
    fn next_size(&mut self) -> Option<(usize, usize)> {
        let place = self.next;
        let next = place.saturating_add(1);
        self.next = if next < self.sizes.len() { next } else { 0 };
        let size = self.sizes.get(place)?;
        Some((place, *size))
    }

    /// Asks for a filling of the next size by the prices. Returns whether no size has a filling that
    /// gains, or no filling is left.
    fn ask(&mut self, alloc: Global, worker: &mut Worker) -> Result<bool, AllocError> {
        self.prices = self.master.want_prices(alloc, self.left.len())?;
        let Some((place, size)) = self.next_size() else {
            return Ok(true);
        };
        let filled = worker.fill(alloc, size, &self.left, &self.prices, WIDE_BEAM)?;
        self.fillings = self.fillings.saturating_sub(1);
        self.vain = self.vain.saturating_add(1);
        let before = self.plans.len();
        let column = Column {
            size: place,
            counts: Vec::from_slice(alloc, &filled.plan.counts)?,
            tag: before,
        };
        if self.master.gain(&column).unwrap_or(0) > MIN_GAIN {
            let plan = Rc::new(alloc, filled.plan)?;
            self.offer(alloc, &plan)?;
            if self.plans.len() > before {
                self.vain = 0;
            }
        }
        Ok(self.vain >= self.sizes.len() || self.fillings == 0)
    }

    /// Goes on by some pivots or one filling. Whether it is at its end.
    pub fn go_on(&mut self, alloc: Global, worker: &mut Worker) -> Result<bool, AllocError> {
        if !self.is_best {
            return Ok(self.pivot(worker));
        }
        self.ask(alloc, worker)
    }
}

//! The bound: a program (Gilmore and Gomory 1961) whose columns are read from tables over classes of
//! sides. Each table is a bound of the cost as well.

use crate::sheets::job::Job;
use crate::sheets::table::Table;
use crate::sheets::units::Plan;
use crate::sheets::worker::{MAX_WORK, Worker};
use cut_master::column::Plan as Column;
use cut_master::fixed::ONE;
use cut_master::master::{End, MIN_GAIN, Master};
use cut_search_bars::order::{Order, UnitBounds, rounded_up};
use cut_search_bars::relax::{empty_master, offered_sizes};
use std::alloc::{AllocError, Global};
use std::rc::Rc;

/// So many pivots are made in one step.
const PIVOTS: u32 = 8;

/// So many steps of pivots are made for a program at most.
const PIVOT_STEPS: u32 = 2000;

/// Columns of so many sizes are read from a table. Remnants are often worth most for their cost, though
/// no more of them can be cut: were only a few sizes read, no column that gains might be among them.
const MAX_READ: usize = 32;

/// So many of them are offered.
const MAX_OFFERED: usize = 3;

/// So many columns a program has at most.
const MAX_COLUMNS: usize = 1200;

/// A run of it.
#[derive(Drop)]
pub struct Ceilings {
    master: Master,
    table: Table,
    free: Vec<Option<u32>>,
    offered: Vec<bool>,
    /// So many tables are left to it.
    tables: u32,
    steps: u32,
    is_best: bool,
    /// The prices, in the master's fixed point.
    pub prices: Vec<u64>,
    /// The best bound of the cost.
    pub least: u64,
    /// The worths that gave it.
    pub unit_bounds: Option<UnitBounds>,
    /// Whether the numbers failed.
    pub has_failed: bool,
    /// Worths whose table comes before those of the program.
    first: Option<Vec<u32>>,
}

/// Offers units that are full of one want, of the sizes without an end, or of all where each has
/// one.
fn offer_grids(alloc: Global, order: &Order, ceilings: &mut Ceilings) -> Result<(), AllocError> {
    let has_endless = order.limits.iter().any(|limit| limit.is_none());
    for (size, limit) in order.limits.iter().enumerate() {
        if limit.is_some() && (has_endless || size >= MAX_READ) {
            continue;
        }
        for (want, left) in order.left.iter().enumerate() {
            let mut counts = vec![in alloc; 0u32; order.left.len()]?;
            let count = order.in_grid(size, want).min(*left);
            if let Some(place) = counts.get_mut(want) {
                *place = count;
            }
            if count > 0 {
                ceilings.offer(size, counts)?;
            }
        }
    }
    Ok(())
}

impl Ceilings {
    /// The program of a job over tables of about so many points an axis, with these plans. None
    /// where the numbers are too large.
    pub fn new(
        alloc: Global,
        job: &Job,
        points: usize,
        plans: &[Rc<Plan>],
        tables: u32,
    ) -> Result<Option<Ceilings>, AllocError> {
        let order = &job.order;
        let offered = offered_sizes(alloc, &order.limits)?;
        let made = empty_master(alloc, order, &order.left, &order.limits, &offered)?;
        let Some(master) = made else {
            return Ok(None);
        };
        let mut ceilings = Ceilings {
            master,
            table: Table::new(alloc, job, points)?,
            free: Vec::from_slice(alloc, &order.limits)?,
            offered,
            tables,
            steps: PIVOT_STEPS,
            is_best: false,
            prices: Vec::new(alloc),
            least: 0,
            unit_bounds: None,
            has_failed: false,
            first: None,
        };
        offer_grids(alloc, order, &mut ceilings)?;
        for plan in plans {
            ceilings.offer(plan.size, Vec::from_slice(alloc, &plan.counts)?)?;
        }
        Ok(Some(ceilings))
    }

    /// Whether one table takes more than a call may.
    pub fn is_too_large(&self) -> bool {
        self.table.work() > 2 * MAX_WORK
    }

    /// Makes the table of these worths first.
    pub fn begin_with(&mut self, worths: Vec<u32>) {
        self.first = Some(worths);
    }

    /// Offers a column.
    fn offer(&mut self, size: usize, counts: Vec<u32>) -> Result<(), AllocError> {
        let is_offered = self.offered.get(size).copied().unwrap_or(false);
        if is_offered && self.master.plans().len() < MAX_COLUMNS {
            self.master.add(Column {
                size,
                counts,
                tag: 0,
            })?;
            self.is_best = false;
        }
        Ok(())
    }

    /// What the program costs, rounded up: no bound by it is greater.
    fn most_bound(&self, order: &Order) -> u64 {
        let value = u128::try_from(self.master.value().saturating_sub(MIN_GAIN)).unwrap_or(0);
        let cost = value.saturating_mul(order.dearest as u128);
        rounded_up(cost.div_ceil(ONE as u128), order.grain)
    }

    /// What the program costs, in 1000ths.
    pub fn value(&self, order: &Order) -> u128 {
        let value = u128::try_from(self.master.value()).unwrap_or(0);
        value
            .saturating_mul(order.dearest as u128)
            .saturating_mul(1000)
            / ONE as u128
    }

    /// The sizes that are worth most for their cost, those first.
    fn best_sizes(
        &self,
        alloc: Global,
        order: &Order,
        bests: &[u64],
    ) -> Result<Vec<usize>, AllocError> {
        let mut rates = Vec::new(alloc);
        for (size, ((best, cost), is_offered)) in bests
            .iter()
            .zip(&order.costs)
            .zip(&self.offered)
            .enumerate()
        {
            if *is_offered && *best > 0 {
                let rate = (*best as u128 * 1_000_000_000).div_ceil((*cost as u128).max(1));
                rates.push((u128::MAX.saturating_sub(rate), size))?;
            }
        }
        rates.sort()?;
        let mut sizes = Vec::new(alloc);
        for (_, size) in rates.iter().take(MAX_READ) {
            sizes.push(*size)?;
        }
        Ok(sizes)
    }

    /// Offers the columns of the table that gain most. Whether there was one.
    fn read(&mut self, alloc: Global, job: &Job, bests: &[u64]) -> Result<bool, AllocError> {
        let mut columns = Vec::new(alloc);
        let mut gains = Vec::new(alloc);
        for size in &self.best_sizes(alloc, &job.order, bests)? {
            let column = Column {
                size: *size,
                counts: self.table.counts(alloc, job, *size)?,
                tag: 0,
            };
            let gain = self.master.gain(&column).unwrap_or(0);
            if gain > MIN_GAIN {
                gains.push((gain.saturating_neg(), columns.len()))?;
            }
            columns.push(column)?;
        }
        gains.sort()?;
        for (_, place) in gains.iter().take(MAX_OFFERED) {
            if let Some(column) = columns.get(*place) {
                self.offer(column.size, Vec::from_slice(alloc, &column.counts)?)?;
            }
        }
        Ok(!gains.is_empty())
    }

    /// Keeps the bound of a table, if it is the best.
    fn rate(&mut self, job: &Job, worths: Vec<u32>, bests: Vec<u64>) {
        let unit_bounds = UnitBounds { worths, bests };
        let least = job
            .order
            .least_cost(&unit_bounds, &job.order.left, &self.free);
        if least > self.least || self.unit_bounds.is_none() {
            self.least = least;
            self.unit_bounds = Some(unit_bounds);
        }
    }

    /// Makes some pivots. Whether the program is of no more use.
    fn pivot(&mut self, worker: &mut Worker) -> bool {
        let rows = (worker.job.order.left.len() as u64)
            .saturating_add(self.free.len() as u64)
            .min(200);
        let columns = self.master.plans().len() as u64;
        let all = rows.saturating_add(columns).saturating_mul(rows) / 10_000;
        worker.count_work(all.saturating_add(1).saturating_mul(PIVOTS as u64));
        self.steps = self.steps.saturating_sub(1);
        match self.master.improve(PIVOTS) {
            End::Best => self.is_best = true,
            End::Spent => {}
            End::Failed => self.has_failed = true,
        }
        self.has_failed || self.steps == 0
    }

    /// Makes a table by the prices, or by the first worths. Whether it is the last.
    fn ask(&mut self, alloc: Global, worker: &mut Worker, enough: u64) -> Result<bool, AllocError> {
        let order = &worker.job.order;
        let is_first = self.first.is_some();
        self.prices = self.master.want_prices(alloc, order.left.len())?;
        let mut worths = match self.first.take() {
            Some(worths) => worths,
            None => order.scaled(alloc, &self.prices, &order.left)?,
        };
        self.table.make(alloc, &worker.job, &mut worths)?;
        self.tables = self.tables.saturating_sub(1);
        let bests = self.table.bests(alloc, &worker.job)?;
        let added = self.read(alloc, &worker.job, &bests)?;
        self.rate(&worker.job, worths, bests);
        let met = self.least >= enough || self.least >= self.most_bound(&worker.job.order);
        worker.count_work(self.table.work());
        Ok(!is_first && (met || !added) || self.tables == 0)
    }

    /// Goes on by some pivots or one table; `enough` is a bound that need not be exceeded. Whether
    /// it is at its end.
    pub fn go_on(
        &mut self,
        alloc: Global,
        worker: &mut Worker,
        enough: u64,
    ) -> Result<bool, AllocError> {
        if !self.is_best {
            return Ok(self.pivot(worker));
        }
        self.ask(alloc, worker, enough)
    }
}

//! How a course begins each of its stages, and goes on to the next one where there is nothing to begin.

use crate::sheets::ceilings::Ceilings;
use crate::sheets::dive::Dive;
use crate::sheets::flow::{COARSE, FINE, Flow, Stage, Task};
use crate::sheets::give_up::{GiveUp, Persistence, cheapened};
use crate::sheets::greedy::{Greedy, MAX_BATCHES};
use crate::sheets::hints::Hints;
use crate::sheets::job::{Job, sum_of};
use crate::sheets::program::Program;
use crate::sheets::rest::Pack;
use crate::sheets::units::{MAX_ORDER_UNITS, Plan, Units};
use crate::sheets::worker::{BEAM, PLAIN_BEAM, WIDE_BEAM, Worker};
use cut_search_bars::relax::offered_sizes;
use std::alloc::{AllocError, Global};
use std::rc::Rc;

/// Rounds of plans from nothing, before the prices and with them.
const ROUNDS: u32 = 2;

/// The noise of the values in the later of these rounds over several sizes, in 1000ths.
const ROUND_NOISE: u64 = 30;

/// Fillings of the program of plans, of one size.
const COLUMNS: u32 = 300;

/// The same of several sizes.
const MIXED_COLUMNS: u32 = 600;

/// Tables of a bound's program, at first and where more may help.
const COARSE_TABLES: u32 = 400;

const FINE_TABLES: u32 = 150;

/// The same over several sizes.
const MIXED_COARSE_TABLES: u32 = 250;

const MIXED_FINE_TABLES: u32 = 1;

/// So many fillings give units up before the finer bound, of one size and of several.
const FIRST_GAINS: u64 = 1500;

const MIXED_FIRST_GAINS: u64 = 1000;

/// So many are made in all, before the large rest is looked for, of one size and of several.
const MAX_FILLINGS: u64 = 12_000;

const MIXED_FILLINGS: u64 = 1500;

/// So many times units are given up at most.
const MAX_ATTEMPTS: u32 = 2000;

/// How units of one size are given up.
const PERSISTENCE: Persistence = Persistence {
    patience: 300,
    slack: 40,
};

/// How units of several sizes are given up.
const MIXED_PERSISTENCE: Persistence = Persistence {
    patience: 60,
    slack: 20,
};

/// The noise of a plan from nothing that units are given up of, in 1000ths.
const NOISE: u64 = 50;

/// The finer bound is looked for where the program's value is above the bound less so many 1000ths
/// of the cost's grain.
const NEAR: u128 = 300;

/// So many of the emptiest units are put narrow or low over several sizes.
const MAX_PACKED: usize = 3;

/// The batches with the most area that isn't filled, the emptiest last.
fn emptiest(
    alloc: Global,
    worker: &Worker,
    units: &Units,
    most: usize,
) -> Result<Vec<usize>, AllocError> {
    let mut list = Vec::new(alloc);
    for (place, batch) in units.batches.iter().enumerate() {
        let plan = &batch.plan;
        let filled = worker.job.cells_in(&plan.counts);
        let empty = worker.job.unit_cells(plan.size).saturating_sub(filled);
        list.push((empty, place))?;
    }
    list.sort()?;
    let mut places = Vec::new(alloc);
    let skipped = list.len().saturating_sub(most);
    for (_, place) in list.iter().skip(skipped) {
        places.push(*place)?;
    }
    Ok(places)
}

impl Flow {
    /// Begins the quick plan.
    fn begin_quick(&mut self, alloc: Global, worker: &mut Worker) -> Result<(), AllocError> {
        if self.round > 0 {
            self.go_to(Stage::Rounds);
            if self.only.is_some() && self.best.missing > 0 {
                self.only = None;
            }
            return Ok(());
        }
        let values = Vec::from_slice(alloc, &worker.hints.cells)?;
        let greedy = Greedy::new(alloc, worker, &self.free, &values, PLAIN_BEAM, 0)?;
        self.task = Task::Greedy(greedy);
        Ok(())
    }

    /// Begins a round of plans from nothing over several sizes.
    fn begin_mixed_round(
        &mut self,
        alloc: Global,
        worker: &mut Worker,
        next: Stage,
    ) -> Result<(), AllocError> {
        if self.round >= ROUNDS || self.is_met(worker) {
            self.go_to(next);
            return Ok(());
        }
        let is_priced = matches!(self.stage, Stage::Priced);
        let noise = if self.round == 0 { 0 } else { ROUND_NOISE };
        let mut values = Vec::new(alloc);
        for (cells, priced) in worker.hints.cells.iter().zip(&worker.hints.priced) {
            let value = if is_priced { *priced } else { *cells };
            values.push(worker.dice.noisy(value, noise))?;
        }
        let greedy = Greedy::new(alloc, worker, &self.free, &values, WIDE_BEAM, 0)?;
        self.task = Task::Greedy(greedy);
        Ok(())
    }

    /// Begins a round of value correction.
    fn begin_round(
        &mut self,
        alloc: Global,
        worker: &mut Worker,
        next: Stage,
    ) -> Result<(), AllocError> {
        if self.round >= ROUNDS || self.is_met(worker) {
            self.go_to(next);
            return Ok(());
        }
        if self.round == 0 {
            self.values = if matches!(self.stage, Stage::Priced) {
                Vec::from_slice(alloc, &worker.hints.priced)?
            } else {
                Vec::from_slice(alloc, &worker.hints.cells)?
            };
        }
        let one = match self.only {
            Some(size) => worker.job.cost(size),
            None => 0,
        };
        let most = self.best.cost.saturating_add(one);
        let values = Vec::from_slice(alloc, &self.values)?;
        let greedy = Greedy::corrected(alloc, worker, &self.free, &values, WIDE_BEAM, most)?;
        self.task = Task::Greedy(greedy);
        Ok(())
    }

    /// The sizes whose plans are columns of the program.
    fn program_sizes(&self, alloc: Global, job: &Job) -> Result<Vec<usize>, AllocError> {
        let mut sizes = Vec::new(alloc);
        if let Some(size) = self.only {
            sizes.push(size)?;
            return Ok(sizes);
        }
        let offered = offered_sizes(alloc, &job.order.limits)?;
        for (size, is_offered) in offered.iter().enumerate() {
            if *is_offered && job.holds_some(size, &job.order.left) {
                sizes.push(size)?;
            }
        }
        Ok(sizes)
    }

    /// Begins the program of plans.
    fn begin_plans(&mut self, alloc: Global, worker: &Worker) -> Result<(), AllocError> {
        let sizes = self.program_sizes(alloc, &worker.job)?;
        let left = &worker.job.order.left;
        let fillings = if self.only.is_some() {
            COLUMNS
        } else {
            MIXED_COLUMNS
        };
        let made = Program::new(alloc, &worker.job, &sizes, left, &self.free, fillings)?;
        let Some(mut program) = made else {
            self.go_to(Stage::Bound);
            return Ok(());
        };
        for plan in &self.plans {
            program.offer(alloc, plan)?;
        }
        self.task = Task::Program(program);
        Ok(())
    }

    /// Begins the bound's program, with the plans that are known or without.
    fn begin_bound(&mut self, alloc: Global, worker: &Worker) -> Result<(), AllocError> {
        let is_fine = matches!(self.stage, Stage::Fine);
        let points = if is_fine { FINE } else { COARSE };
        let tables = match (self.only.is_some(), is_fine) {
            (true, false) => COARSE_TABLES,
            (true, true) => FINE_TABLES,
            (false, false) => MIXED_COARSE_TABLES,
            (false, true) => MIXED_FINE_TABLES,
        };
        let plans: &[Rc<Plan>] = if self.round == 0 { &self.plans } else { &[] };
        let made = Ceilings::new(alloc, &worker.job, points, plans, tables)?;
        let Some(mut ceilings) = made else {
            self.end_bound();
            return Ok(());
        };
        if is_fine && ceilings.is_too_large() {
            self.end_bound();
            return Ok(());
        }
        if is_fine && self.round == 0 {
            ceilings.begin_with(Vec::from_slice(alloc, &self.worths)?);
        }
        self.task = Task::Ceilings(ceilings);
        Ok(())
    }

    /// Goes on behind the bound.
    pub(crate) fn end_bound(&mut self) {
        let is_fine = matches!(self.stage, Stage::Fine);
        self.go_to(if is_fine { Stage::More } else { Stage::Priced });
    }

    /// Begins a dive.
    fn begin_dive(&mut self, alloc: Global, worker: &Worker) -> Result<(), AllocError> {
        let Some(program) = self.program.take() else {
            self.go_to(Stage::Gains);
            return Ok(());
        };
        if self.is_met(worker) {
            self.go_to(Stage::Gains);
            return Ok(());
        }
        let most = self.best.cost.saturating_sub(1);
        let dive = Dive::new(alloc, worker, &self.free, program, most)?;
        self.task = Task::Dive(dive);
        Ok(())
    }

    /// Whether the finer bound may help.
    fn needs_fine(&self, worker: &Worker) -> bool {
        let order = &worker.job.order;
        let near = (order.grain as u128).saturating_mul(NEAR);
        let least = (worker.hints.bound as u128).saturating_mul(1000);
        worker.job.step.is_none()
            && !self.worths.is_empty()
            && (self.only.is_none() || self.value.saturating_add(near) > least)
    }

    /// Goes on where no more units are given up.
    fn end_gains(&mut self, worker: &Worker) {
        let next = if matches!(self.stage, Stage::More) || self.is_met(worker) {
            Stage::Packs
        } else if self.needs_fine(worker) {
            Stage::Fine
        } else {
            Stage::More
        };
        self.go_to(next);
    }

    /// Whether units are given up no more in this stage.
    pub(crate) fn is_enough(&self, worker: &Worker) -> bool {
        let most = match (self.stage, self.only) {
            (Stage::Gains, Some(_)) => self.begun.saturating_add(FIRST_GAINS),
            (Stage::Gains, None) => self.begun.saturating_add(MIXED_FIRST_GAINS),
            (_, Some(_)) => MAX_FILLINGS,
            (_, None) => MIXED_FILLINGS,
        };
        self.is_met(worker) || self.fillings >= most || self.attempts >= MAX_ATTEMPTS
    }

    /// What the units of an attempt may cost.
    fn most_cost(&self, worker: &mut Worker, is_far: bool) -> u64 {
        if self.best.missing > 0 {
            return u64::MAX / 4;
        }
        let grain = worker.job.order.grain.max(1);
        let over = self.best.cost.saturating_sub(worker.hints.bound);
        let steps = over.checked_div(grain).unwrap_or(0) / 4;
        let more = if is_far {
            worker.dice.below(steps.saturating_add(1))
        } else {
            0
        };
        let less = grain.saturating_mul(more.saturating_add(1));
        self.best.cost.saturating_sub(less)
    }

    /// What pieces count in an attempt.
    fn attempt_worths(&self, alloc: Global, hints: &Hints) -> Result<Vec<u64>, AllocError> {
        if self.attempts & 1 == 0 {
            let cells = Vec::from_slice(alloc, &hints.cells)?;
            return Ok(cells);
        }
        if self.best.missing > 0 && self.best.missing < u64::MAX {
            // as many pieces as can be: each counts the same, and a little its area
            let mut most = 1u64;
            for cells in &hints.cells {
                most = most.max(*cells);
            }
            let mut worths = Vec::new(alloc);
            for cells in &hints.cells {
                worths.push(most.saturating_add(*cells / 8))?;
            }
            return Ok(worths);
        }
        let priced = Vec::from_slice(alloc, &hints.priced)?;
        Ok(priced)
    }

    /// Gives units up of a plan.
    pub(crate) fn give_up(
        &mut self,
        alloc: Global,
        worker: &mut Worker,
        from: Units,
    ) -> Result<(), AllocError> {
        let worths = self.attempt_worths(alloc, &worker.hints)?;
        let is_far = self.only.is_none() && self.attempts.checked_rem(3) == Some(0);
        let most = self.most_cost(worker, is_far);
        self.attempts = self.attempts.saturating_add(1);
        let goal = match &self.best.units {
            Some(best) if self.best.missing > 0 => sum_of(&best.missing, &worths),
            _ => 1,
        };
        let mut units = cheapened(alloc, &worker.job, &from, &worths, most)?;
        self.limit(&mut units, &worker.job.order.limits);
        worker.count_work(2);
        let persistence = if self.only.is_some() {
            PERSISTENCE
        } else {
            MIXED_PERSISTENCE
        };
        let rates = Vec::from_slice(alloc, &worker.hints.rates)?;
        let next = GiveUp::new(
            alloc,
            worker,
            units,
            &worths,
            &rates,
            most,
            goal,
            persistence,
        )?;
        self.task = Task::GiveUp(next);
        Ok(())
    }

    /// Takes sizes from units' stock that the course may not use.
    fn limit(&self, units: &mut Units, limits: &[Option<u32>]) {
        for ((free, own), limit) in units.free.iter_mut().zip(&self.free).zip(limits) {
            if limit.is_none() {
                *free = *own;
            }
        }
    }

    /// Whether there are units that may be given up.
    fn has_start(&self) -> bool {
        match &self.start {
            Some(start) => {
                start.batches.len() < MAX_BATCHES / 2 && start.count() < MAX_ORDER_UNITS / 2
            }
            None => false,
        }
    }

    /// Packs the emptiest unit of a plan that is new.
    fn pack_fresh(&mut self, alloc: Global, worker: &Worker) -> Result<(), AllocError> {
        self.is_fresh = false;
        if let Some(best) = &self.best.units {
            self.packed = emptiest(alloc, worker, best, 1)?;
        }
        self.begin_pack(alloc, worker)
    }

    /// Begins a plan from nothing that units are given up of.
    fn begin_anew(&mut self, alloc: Global, worker: &mut Worker) -> Result<(), AllocError> {
        let mut values = Vec::new(alloc);
        for worth in &self.attempt_worths(alloc, &worker.hints)? {
            values.push(worker.dice.noisy(*worth, NOISE))?;
        }
        let greedy = Greedy::new(alloc, worker, &self.free, &values, BEAM, NOISE)?;
        self.task = Task::Greedy(greedy);
        Ok(())
    }

    /// The units that are given up of.
    pub(crate) fn start_copy(&self, alloc: Global) -> Result<Option<Units>, AllocError> {
        match &self.start {
            Some(start) => Ok(Some(start.copy(alloc)?)),
            None => Ok(None),
        }
    }

    /// Begins the next attempt to give units up.
    fn begin_gains(&mut self, alloc: Global, worker: &mut Worker) -> Result<(), AllocError> {
        if !self.has_start() || self.is_enough(worker) {
            self.end_gains(worker);
            return Ok(());
        }
        if self.is_fresh {
            return self.pack_fresh(alloc, worker);
        }
        let is_new = self.only.is_none() && self.best.missing == 0;
        if is_new && self.attempts.checked_rem(3) == Some(2) {
            return self.begin_anew(alloc, worker);
        }
        match self.start_copy(alloc)? {
            Some(from) => self.give_up(alloc, worker, from),
            None => Ok(()),
        }
    }

    /// Packs the next of the units that are to be packed.
    fn begin_pack(&mut self, alloc: Global, worker: &Worker) -> Result<(), AllocError> {
        let (Some(place), Some(best)) = (self.packed.pop(), &self.best.units) else {
            return Ok(());
        };
        if let Some(batch) = best.batches.get(place) {
            let plan = &batch.plan;
            let values = &worker.hints.cells;
            let (size, rest) = (plan.size, self.best.rest);
            let pack = Pack::new(alloc, &worker.job, size, &plan.counts, values, rest)?;
            self.round = u32::try_from(place).unwrap_or(0);
            self.task = Task::Pack(pack);
        }
        Ok(())
    }

    /// Begins to pack the emptiest units of the best plan.
    fn begin_packs(&mut self, alloc: Global, worker: &Worker) -> Result<(), AllocError> {
        let Some(best) = &self.best.units else {
            self.go_to(Stage::Ended);
            return Ok(());
        };
        if self.fillings == self.begun && self.packed.is_empty() {
            let most = if self.only.is_some() { 1 } else { MAX_PACKED };
            self.packed = emptiest(alloc, worker, best, most)?;
        }
        if self.packed.is_empty() {
            self.go_to(Stage::Rest);
            return Ok(());
        }
        self.begin_pack(alloc, worker)?;
        if matches!(self.task, Task::Nothing) {
            self.go_to(Stage::Rest);
        }
        Ok(())
    }

    /// Begins to fill units again for a large rest: the emptiest one is given up.
    fn begin_rest(&mut self, alloc: Global, worker: &Worker) -> Result<(), AllocError> {
        let Some(best) = &self.best.units else {
            self.go_to(Stage::Ended);
            return Ok(());
        };
        if self.round > 0 || best.batches.len() >= MAX_BATCHES / 2 || best.count() < 2 {
            self.go_to(Stage::Ended);
            return Ok(());
        }
        self.round = 1;
        let mut units = best.copy(alloc)?;
        if let Some(place) = emptiest(alloc, worker, best, 1)?.pop() {
            self.packed = Vec::new(alloc);
            if let Some(batch) = units.batches.get(place) {
                self.packed.push(batch.plan.size)?;
            }
            units.take_apart(&worker.job, place);
            units.tidy();
        }
        let worths = Vec::from_slice(alloc, &worker.hints.cells)?;
        let rates = Vec::from_slice(alloc, &worker.hints.rates)?;
        let most = units.cost;
        let mut next = GiveUp::new(alloc, worker, units, &worths, &rates, most, 0, PERSISTENCE)?;
        next.keep_sizes();
        self.task = Task::GiveUp(next);
        Ok(())
    }

    /// Begins what comes next.
    pub(crate) fn begin(&mut self, alloc: Global, worker: &mut Worker) -> Result<(), AllocError> {
        match (self.stage, self.only) {
            (Stage::Quick, _) => self.begin_quick(alloc, worker),
            (Stage::Rounds, Some(_)) => self.begin_round(alloc, worker, Stage::Plans),
            (Stage::Rounds, None) => self.begin_mixed_round(alloc, worker, Stage::Plans),
            (Stage::Plans, _) => self.begin_plans(alloc, worker),
            (Stage::Bound | Stage::Fine, _) => self.begin_bound(alloc, worker),
            (Stage::Priced, Some(_)) => self.begin_round(alloc, worker, Stage::Dive),
            (Stage::Priced, None) => self.begin_mixed_round(alloc, worker, Stage::Dive),
            (Stage::Dive, _) => self.begin_dive(alloc, worker),
            (Stage::Gains | Stage::More, _) => self.begin_gains(alloc, worker),
            (Stage::Packs, _) => self.begin_packs(alloc, worker),
            (Stage::Rest, _) => self.begin_rest(alloc, worker),
            (Stage::Ended, _) => Ok(()),
        }
    }
}

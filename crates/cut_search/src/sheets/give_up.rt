//! Units are given up, and their pieces are fitted into the others: some units are taken apart and
//! filled again, again and again, and what is left out may not grow much.

use crate::sheets::job::{Job, sum_of};
use crate::sheets::units::{Plan, Units, give, take};
use crate::sheets::worker::{BEAM, Worker};
use cut_search_bars::draft::have_some;
use std::alloc::{AllocError, Global};
use std::rc::Rc;

/// By how much values are changed by chance, in 1000ths.
const NOISE: u64 = 50;

/// Of 100 tries so many take one unit apart.
const ONES: u64 = 40;

/// So many take one or two.
const TWOS: u64 = 85;

/// Of 100 new units so many have the size of one that was taken apart.
const SAME_SIZE: u64 = 60;

/// Of 100 others so many have the better of two sizes.
const BETTER_SIZE: u64 = 70;

/// Of so many sizes all are looked at; of more as many by chance.
const FEW_SIZES: usize = 48;

/// How long giving up goes on, and how far it may lead away.
#[derive(Clone, Copy)]
pub struct Persistence {
    /// It is tired after so many tries in a row without a gain.
    pub patience: u32,
    /// So much more than the least may be left out, in 1000ths of the largest unit.
    pub slack: u64,
}

/// How it ended.
#[derive(Clone, Copy, PartialEq, Eq)]
pub enum Given {
    /// There is more to do.
    More,
    /// What is left out is less than the goal.
    Reached,
    /// Less is left out than ever.
    Less,
    /// So many tries brought nothing.
    Tired,
}

/// Some units that are taken apart and filled again.
#[derive(Drop)]
struct Try {
    /// The places of their batches, each as often as units of it are taken.
    chosen: Vec<usize>,
    /// The sizes of the new units that are still to be filled, the last first.
    sizes: Vec<usize>,
    /// The pieces that are in none of the others.
    left: Vec<u32>,
    /// The new units.
    made: Vec<Rc<Plan>>,
}

/// Giving up towards a cost.
#[derive(Drop)]
pub struct GiveUp {
    /// The units, and what is left out.
    pub units: Units,
    /// What a piece of each want counts.
    worths: Vec<u64>,
    /// What a unit of each size is worth for its cost.
    rates: Vec<u64>,
    /// The units may cost so much at most.
    most_cost: u64,
    /// Whether new units have the sizes of the old ones.
    same_sizes: bool,
    slack: u64,
    goal: u64,
    loss: u64,
    least: u64,
    fails: u32,
    patience: u32,
    now: Option<Try>,
}

/// What a plan's pieces count for the cost of its unit.
fn rate_of(job: &Job, plan: &Plan, worths: &[u64]) -> u128 {
    let value = sum_of(&plan.counts, worths) as u128 * 1_000_000;
    value.div_ceil((job.cost(plan.size) as u128).max(1))
}

/// The rates of the batches.
fn rates_of(
    alloc: Global,
    job: &Job,
    units: &Units,
    worths: &[u64],
) -> Result<Vec<u128>, AllocError> {
    let mut rates = Vec::new(alloc);
    for batch in &units.batches {
        rates.push(rate_of(job, &batch.plan, worths))?;
    }
    Ok(rates)
}

/// The batch with the least rate that has a unit.
fn emptiest(units: &Units, rates: &[u128]) -> Option<usize> {
    let mut best: Option<(u128, usize)> = None;
    for (place, (batch, rate)) in units.batches.iter().zip(rates).enumerate() {
        if batch.times > 0 && best.map_or(true, |(other, _)| *rate < other) {
            best = Some((*rate, place));
        }
    }
    best.map(|(_, place)| place)
}

/// Takes the emptiest units apart until the others cost no more than so much.
pub fn cheapened(
    alloc: Global,
    job: &Job,
    units: &Units,
    worths: &[u64],
    most_cost: u64,
) -> Result<Units, AllocError> {
    let mut rest = units.copy(alloc)?;
    let rates = rates_of(alloc, job, &rest, worths)?;
    for _ in 0..units.count().min(100_000) {
        if rest.cost <= most_cost {
            break;
        }
        let Some(place) = emptiest(&rest, &rates) else {
            break;
        };
        rest.take_apart(job, place);
    }
    rest.tidy();
    Ok(rest)
}

/// How often a place is in a list.
fn times_in(list: &[usize], place: usize) -> u32 {
    let mut times = 0u32;
    for other in list {
        if *other == place {
            times = times.saturating_add(1);
        }
    }
    times
}

impl GiveUp {
    /// Giving up from units that cost at most so much, until what is left out counts less than a
    /// goal.
    pub fn new(
        alloc: Global,
        worker: &Worker,
        units: Units,
        worths: &[u64],
        rates: &[u64],
        most_cost: u64,
        goal: u64,
        persistence: Persistence,
    ) -> Result<GiveUp, AllocError> {
        let job = &worker.job;
        let mut largest = 0u64;
        for (cells, limit) in job.order.unit_cells.iter().zip(&units.free) {
            if *limit > 0 {
                largest = largest.max(*cells);
            }
        }
        let loss = sum_of(&units.missing, worths);
        Ok(GiveUp {
            units,
            worths: Vec::from_slice(alloc, worths)?,
            rates: Vec::from_slice(alloc, rates)?,
            most_cost,
            same_sizes: false,
            slack: (largest.saturating_mul(1024) / 1000).saturating_mul(persistence.slack),
            goal,
            loss,
            least: loss,
            fails: 0,
            patience: persistence.patience,
            now: None,
        })
    }

    /// Keeps the sizes of the units as they are.
    pub fn keep_sizes(&mut self) {
        self.same_sizes = true;
    }

    /// The emptier of two batches, by chance; one that has a unit that isn't chosen yet.
    fn pick(&self, worker: &mut Worker, chosen: &[usize], count: u64) -> Option<usize> {
        let a = self.units.batch_of(worker.dice.below(count));
        let b = self.units.batch_of(worker.dice.below(count));
        let (first, second) = (self.units.batches.get(a)?, self.units.batches.get(b)?);
        let job = &worker.job;
        let first_rate = rate_of(job, &first.plan, &self.worths);
        let second_rate = rate_of(job, &second.plan, &self.worths);
        let (place, batch) = if first_rate <= second_rate {
            (a, first)
        } else {
            (b, second)
        };
        if times_in(chosen, place) < batch.times {
            Some(place)
        } else {
            None
        }
    }

    /// One, two or three units, by chance.
    fn choose(&self, alloc: Global, worker: &mut Worker) -> Result<Vec<usize>, AllocError> {
        let roll = worker.dice.below(100);
        let wanted = if roll < ONES {
            1
        } else if roll < TWOS {
            2
        } else {
            3
        };
        let count = self.units.count();
        let most = count.min(wanted);
        let mut chosen = Vec::new(alloc);
        for _ in 0..40 {
            if chosen.len() as u64 >= most {
                break;
            }
            if let Some(place) = self.pick(worker, &chosen, count) {
                chosen.push(place)?;
            }
        }
        Ok(chosen)
    }

    /// Whether a unit of a size may be cut next.
    fn is_able(job: &Job, size: usize, free: &[u32], budget: u64, left: &[u32]) -> bool {
        free.get(size).copied().unwrap_or(0) > 0
            && job.cost(size) <= budget
            && job.holds_some(size, left)
    }

    /// The sizes that may be cut next: of few all, of many some by chance.
    fn able_sizes(
        alloc: Global,
        worker: &mut Worker,
        free: &[u32],
        budget: u64,
        left: &[u32],
    ) -> Result<Vec<usize>, AllocError> {
        let mut sizes = Vec::new(alloc);
        let count = worker.job.size_count();
        for number in 0..count.min(FEW_SIZES) {
            let size = if count <= FEW_SIZES {
                number
            } else {
                worker.dice.place(count)
            };
            if GiveUp::is_able(&worker.job, size, free, budget, left) {
                sizes.push(size)?;
            }
        }
        Ok(sizes)
    }

    /// Another size than before, by chance.
    fn other_size(
        &self,
        alloc: Global,
        worker: &mut Worker,
        free: &[u32],
        budget: u64,
        left: &[u32],
    ) -> Result<Option<usize>, AllocError> {
        let sizes = GiveUp::able_sizes(alloc, worker, free, budget, left)?;
        let first = sizes.get(worker.dice.place(sizes.len())).copied();
        let second = sizes.get(worker.dice.place(sizes.len())).copied();
        let (Some(a), Some(b)) = (first, second) else {
            return Ok(None);
        };
        let is_better = worker.dice.below(100) < BETTER_SIZE;
        let (first_rate, second_rate) = (self.rates.get(a), self.rates.get(b));
        Ok(Some(if is_better && first_rate < second_rate {
            b
        } else {
            a
        }))
    }

    /// Sizes for new units that cost no more than the budget together.
    fn sizes_for(
        &self,
        alloc: Global,
        worker: &mut Worker,
        old: &[usize],
        free: &mut [u32],
        budget: u64,
        left: &[u32],
    ) -> Result<Vec<usize>, AllocError> {
        let mut budget = budget;
        let mut list = Vec::new(alloc);
        for number in 0..old.len().saturating_add(1) {
            let again = old.get(number).copied();
            let is_again = worker.dice.below(100) < SAME_SIZE;
            let same = again.filter(|size| {
                is_again && GiveUp::is_able(&worker.job, *size, free, budget, left)
            });
            let chosen = match same {
                Some(size) => Some(size),
                None => self.other_size(alloc, worker, free, budget, left)?,
            };
            let Some(size) = chosen else {
                break;
            };
            let cost = worker.job.cost(size);
            budget = budget.saturating_sub(cost);
            if !worker.job.is_endless(size) {
                if let Some(number) = free.get_mut(size) {
                    *number = number.saturating_sub(1);
                }
            }
            list.push((cost, size))?;
        }
        list.sort()?;
        let mut sizes = Vec::new(alloc);
        for (_, size) in &list {
            sizes.push(*size)?;
        }
        Ok(sizes)
    }

    /// Chooses units that are taken apart, and the sizes of those that come in their place.
    fn begin(&self, alloc: Global, worker: &mut Worker) -> Result<Try, AllocError> {
        let chosen = self.choose(alloc, worker)?;
        let mut left = Vec::from_slice(alloc, &self.units.missing)?;
        let mut free = Vec::from_slice(alloc, &self.units.free)?;
        let mut budget = self.most_cost.saturating_sub(self.units.cost);
        let mut old = Vec::new(alloc);
        for place in &chosen {
            if let Some(batch) = self.units.batches.get(*place) {
                give(&mut left, &batch.plan.counts, 1);
                let size = batch.plan.size;
                budget = budget.saturating_add(worker.job.cost(size));
                old.push(size)?;
                if !worker.job.is_endless(size) {
                    if let Some(number) = free.get_mut(size) {
                        *number = number.saturating_add(1);
                    }
                }
            }
        }
        let sizes = if self.same_sizes {
            old
        } else {
            self.sizes_for(alloc, worker, &old, &mut free, budget, &left)?
        };
        Ok(Try {
            chosen,
            sizes,
            left,
            made: Vec::new(alloc),
        })
    }

    /// Fills one of the new units.
    fn fill(
        &self,
        alloc: Global,
        worker: &mut Worker,
        one: &mut Try,
        size: usize,
    ) -> Result<(), AllocError> {
        let mut values = Vec::new(alloc);
        for worth in &self.worths {
            values.push(worker.dice.noisy(*worth, NOISE))?;
        }
        let filled = worker.fill(alloc, size, &one.left, &values, BEAM)?;
        if filled.value > 0 {
            take(&mut one.left, &filled.plan.counts, 1);
            one.made.push(Rc::new(alloc, filled.plan)?)?;
        }
        Ok(())
    }

    /// Puts the new units in the place of those that were taken apart.
    fn accept(&mut self, worker: &Worker, one: Try) -> Result<(), AllocError> {
        for place in &one.chosen {
            self.units.take_apart(&worker.job, *place);
        }
        self.units.tidy();
        for plan in one.made {
            self.units.add(&worker.job, plan, 1)?;
        }
        Ok(())
    }

    /// Ends a try.
    fn judge(&mut self, worker: &Worker, one: Try) -> Result<Given, AllocError> {
        let after = sum_of(&one.left, &self.worths);
        self.fails = self.fails.saturating_add(1);
        if after <= self.loss || after <= self.least.saturating_add(self.slack) {
            self.accept(worker, one)?;
            self.loss = after;
            if after < self.least {
                self.least = after;
                self.fails = 0;
                if after < self.goal {
                    return Ok(Given::Reached);
                }
                return Ok(Given::Less);
            }
        }
        if self.fails >= self.patience {
            return Ok(Given::Tired);
        }
        Ok(Given::More)
    }

    /// Goes on by one filling at most.
    pub fn go_on(&mut self, alloc: Global, worker: &mut Worker) -> Result<Given, AllocError> {
        if self.loss < self.goal {
            return Ok(Given::Reached);
        }
        let mut one = match self.now.take() {
            Some(one) => one,
            None => self.begin(alloc, worker)?,
        };
        if have_some(&one.left) {
            if let Some(size) = one.sizes.pop() {
                self.fill(alloc, worker, &mut one, size)?;
                self.now = Some(one);
                return Ok(Given::More);
            }
        }
        worker.count_work(1);
        self.judge(worker, one)
    }
}

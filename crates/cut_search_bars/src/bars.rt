//! The search for plans of a whole order of bars, step by step: a quick plan; the program of the bound; its
//! prices; rounding with value correction; dives.

use crate::correct::{Correct, Progress, values_of};
use crate::dive::Dive;
use crate::draft::Draft;
use crate::found::{Found, FoundUnit};
use crate::order::{Order, UnitBounds};
use crate::quick::fill_up;
use crate::relax::Relax;
use crate::repair::taken_apart;
use crate::round::round_down;
use crate::stock::SearchSize;
use cut_fill_bars::bars::Bars;
use cut_measure::Size;
use cut_wants::wants::Want;
use std::alloc::{AllocError, Global};

/// So many tables are made for a program at most.
const TABLES: u32 = 2000;

/// So many rounds of value correction, before the first dive and after each.
const ROUNDS: u32 = 20;

/// What chance begins with.
const SEED: u64 = 88_172_645_463_325_252;

/// So many dives.
const DIVES: usize = 3;

/// So many times some units are taken apart.
const REPAIRS: u32 = 100;

/// What chance begins with in that.
const REPAIR_SEED: u64 = 2_463_534_242;

/// Rounds of value correction for each.
const REPAIR_ROUNDS: u32 = 3;

/// Steps without a table in one call at most.
const STEPS: u32 = 64;

/// What a step of the search did.
#[derive(Drop)]
enum Step {
    /// It made a table, or may have.
    Table,
    /// It passed on to something else.
    Passed,
    /// It has something to report.
    Reported(Found),
}

/// How far the search is.
#[derive(Clone, Copy, PartialEq, Eq)]
enum Stage {
    Quick,
    Bound,
    Prices,
    Round,
    Correct,
    Dive,
    Repair,
    Ended,
}

/// A search.
#[derive(Drop)]
pub struct BarSearch {
    order: Order,
    bars: Bars,
    stage: Stage,
    relax: Option<Relax>,
    correct: Option<Correct>,
    dive: Option<Dive>,
    dives: usize,
    repairs: u32,
    dice: u64,
    /// The best plan.
    plan: Option<Draft>,
    /// The worths of the best bound that was found.
    unit_bounds: Option<UnitBounds>,
    /// That bound.
    bound: u64,
    /// The cost of the best plan, and the pieces that it leaves out.
    cost: u64,
    missing: u64,
}

/// The sizes of a stock.
fn sizes_of(alloc: Global, stock: &[SearchSize]) -> Result<Vec<Size>, AllocError> {
    let mut sizes = Vec::new(alloc);
    for one in stock {
        sizes.push(one.size)?;
    }
    Ok(sizes)
}

/// Offers the program units that are full of one want, of the sizes without an end.
fn offer_grids(alloc: Global, order: &Order, relax: &mut Relax) -> Result<(), AllocError> {
    for (size, limit) in order.limits.iter().enumerate() {
        if limit.is_some() {
            continue;
        }
        for (want, left) in order.left.iter().enumerate() {
            let mut counts = vec![in alloc; 0u32; order.left.len()]?;
            if let Some(count) = counts.get_mut(want) {
                *count = order.in_grid(size, want).min(*left);
            }
            relax.offer(alloc, size, &counts, 0)?;
        }
    }
    Ok(())
}

impl BarSearch {
    /// A search that has made no table yet.
    pub fn new(
        alloc: Global,
        kerf: u32,
        sizes: &[SearchSize],
        wants: &[Want],
    ) -> Result<BarSearch, AllocError> {
        let units = sizes_of(alloc, sizes)?;
        let bars = Bars::new(alloc, kerf, &units, wants)?;
        let mut order = Order::new(alloc, kerf, sizes, wants)?;
        for size in 0..sizes.len() {
            order.unit_cells.push(bars.unit_cells(size))?;
        }
        for want in 0..wants.len() {
            order.piece_cells.push(bars.piece_cells(want))?;
        }
        Ok(BarSearch {
            order,
            bars,
            stage: Stage::Quick,
            relax: None,
            correct: None,
            dive: None,
            dives: 0,
            repairs: 0,
            dice: REPAIR_SEED,
            plan: None,
            unit_bounds: None,
            bound: 0,
            cost: u64::MAX,
            missing: u64::MAX,
        })
    }

    /// The units of a draft, with their trees.
    fn units_of(&self, alloc: Global, draft: &Draft) -> Result<Vec<FoundUnit>, AllocError> {
        let mut units = Vec::new(alloc);
        for batch in &draft.batches {
            let made = self.bars.node(alloc, batch.size, &batch.counts)?;
            if let Some(node) = made {
                units.push(FoundUnit {
                    place: batch.size,
                    times: batch.times,
                    node,
                })?;
            }
        }
        Ok(units)
    }

    /// Reports a draft, if it is the best so far.
    fn report(&mut self, alloc: Global, draft: &Draft) -> Result<Step, AllocError> {
        let missing = draft.missing();
        if missing > self.missing || missing == self.missing && draft.cost >= self.cost {
            return Ok(Step::Passed);
        }
        self.missing = missing;
        self.cost = draft.cost;
        self.plan = Some(draft.copy(alloc)?);
        Ok(Step::Reported(Found::Units(self.units_of(alloc, draft)?)))
    }

    /// A plan without tables, and the program with its plans.
    fn begin(&mut self, alloc: Global) -> Result<Step, AllocError> {
        let mut draft = Draft::new(alloc, &self.order.left, &self.order.limits)?;
        fill_up(alloc, &self.order, &mut draft)?;
        let order = &self.order;
        let made = Relax::new(alloc, order, &order.left, &order.limits, TABLES)?;
        let Some(mut relax) = made else {
            self.stage = Stage::Ended;
            return Ok(Step::Passed);
        };
        for batch in &draft.batches {
            relax.offer(alloc, batch.size, &batch.counts, batch.tag)?;
        }
        offer_grids(alloc, order, &mut relax)?;
        self.relax = Some(relax);
        self.stage = Stage::Bound;
        self.report(alloc, &draft)
    }

    /// Goes on with the program of the bound.
    fn go_on_bound(&mut self, alloc: Global, goal: u64) -> Result<Step, AllocError> {
        let Some(relax) = &mut self.relax else {
            self.stage = Stage::Ended;
            return Ok(Step::Passed);
        };
        if !relax.go_on(alloc, &self.order, &mut self.bars, goal)? {
            return Ok(Step::Table);
        }
        relax.settle();
        self.bound = relax.least;
        self.unit_bounds = relax.unit_bounds.take();
        self.stage = Stage::Prices;
        Ok(Step::Table)
    }

    /// Reports the prices of the bound.
    fn report_prices(&mut self, alloc: Global) -> Result<Step, AllocError> {
        self.stage = Stage::Round;
        match &self.unit_bounds {
            None => Ok(Step::Passed),
            Some(unit_bounds) => {
                let numbers = Vec::from_slice(alloc, &unit_bounds.worths)?;
                Ok(Step::Reported(Found::Prices { numbers, points: 0 }))
            }
        }
    }

    /// Rounds the program down, and begins to correct what is left.
    fn round(&mut self, alloc: Global) -> Result<Step, AllocError> {
        let mut base = Draft::new(alloc, &self.order.left, &self.order.limits)?;
        let mut start = Vec::new(alloc);
        if let Some(relax) = &self.relax {
            let taken = relax.taken(alloc)?;
            round_down(alloc, &self.order, &taken, &mut base)?;
            start = values_of(alloc, &self.order, &relax.prices)?;
        }
        self.correct = Some(Correct::new(alloc, base, start, SEED, ROUNDS)?);
        self.stage = Stage::Correct;
        Ok(Step::Passed)
    }

    /// Ends a round of value correction.
    fn end_round(&mut self, alloc: Global, filled: bool) -> Result<Step, AllocError> {
        let Some(mut correct) = self.correct.take() else {
            return Ok(Step::Passed);
        };
        let reported = if filled {
            self.report(alloc, &correct.draft)?
        } else {
            Step::Passed
        };
        if correct.rounds <= 1 {
            self.stage = Stage::Dive;
        } else {
            correct.begin_round(alloc)?;
            self.correct = Some(correct);
        }
        Ok(reported)
    }

    /// Goes on with value correction.
    fn go_on_correct(&mut self, alloc: Global, goal: u64) -> Result<Step, AllocError> {
        let Some(correct) = &mut self.correct else {
            self.stage = Stage::Dive;
            return Ok(Step::Passed);
        };
        let unit_bounds = self.unit_bounds.as_ref();
        match correct.go_on(alloc, &self.order, &mut self.bars, unit_bounds, goal)? {
            Progress::More => Ok(Step::Table),
            Progress::Filled => self.end_round(alloc, true),
            Progress::Hopeless => self.end_round(alloc, false),
        }
    }

    /// Ends a dive.
    fn end_dive(&mut self, alloc: Global, filled: bool) -> Result<Step, AllocError> {
        self.dives = self.dives.saturating_add(1);
        if self.dives >= DIVES {
            self.stage = Stage::Repair;
            self.correct = None;
        }
        match self.dive.take() {
            Some(dive) if filled => self.report(alloc, &dive.draft),
            _ => Ok(Step::Passed),
        }
    }

    /// Goes on with a dive.
    fn go_on_dive(&mut self, alloc: Global, goal: u64) -> Result<Step, AllocError> {
        let mut dive = match self.dive.take() {
            Some(dive) => dive,
            None => Dive::new(alloc, &self.order, self.dives)?,
        };
        let Some(first) = &self.relax else {
            self.stage = Stage::Ended;
            return Ok(Step::Passed);
        };
        let progress = dive.go_on(alloc, &self.order, &mut self.bars, first, goal)?;
        self.dive = Some(dive);
        match progress {
            Progress::More => Ok(Step::Table),
            Progress::Filled => self.end_dive(alloc, true),
            Progress::Hopeless => self.end_dive(alloc, false),
        }
    }

    /// Takes some units of the plan apart.
    fn begin_repair(&mut self, alloc: Global) -> Result<Step, AllocError> {
        let (Some(plan), Some(relax)) = (&self.plan, &self.relax) else {
            self.stage = Stage::Ended;
            return Ok(Step::Passed);
        };
        if self.repairs >= REPAIRS {
            self.stage = Stage::Ended;
            return Ok(Step::Passed);
        }
        self.repairs = self.repairs.saturating_add(1);
        let width = 1 + 10 * self.repairs as u64;
        let base = taken_apart(alloc, &self.order, plan, width, &mut self.dice)?;
        let start = values_of(alloc, &self.order, &relax.prices)?;
        self.correct = Some(Correct::new(alloc, base, start, self.dice, REPAIR_ROUNDS)?);
        Ok(Step::Passed)
    }

    /// Keeps a plan that is as good as the best.
    fn keep(&mut self, alloc: Global, draft: &Draft) -> Result<Step, AllocError> {
        let missing = draft.missing();
        if missing == self.missing && draft.cost == self.cost {
            self.plan = Some(draft.copy(alloc)?);
        }
        self.report(alloc, draft)
    }

    /// Goes on with the pieces that were taken apart.
    fn go_on_repair(&mut self, alloc: Global, goal: u64) -> Result<Step, AllocError> {
        let Some(mut correct) = self.correct.take() else {
            return self.begin_repair(alloc);
        };
        let unit_bounds = self.unit_bounds.as_ref();
        let beyond = goal.saturating_add(1);
        let progress = correct.go_on(alloc, &self.order, &mut self.bars, unit_bounds, beyond)?;
        if progress == Progress::More {
            self.correct = Some(correct);
            return Ok(Step::Table);
        }
        let reported = if progress == Progress::Filled {
            self.keep(alloc, &correct.draft)?
        } else {
            Step::Passed
        };
        if correct.rounds > 1 && matches!(reported, Step::Passed) {
            correct.begin_round(alloc)?;
            self.correct = Some(correct);
        }
        Ok(reported)
    }

    /// One step.
    fn step(&mut self, alloc: Global, goal: u64) -> Result<Step, AllocError> {
        match self.stage {
            Stage::Quick => self.begin(alloc),
            Stage::Bound => self.go_on_bound(alloc, goal),
            Stage::Prices => self.report_prices(alloc),
            Stage::Round => self.round(alloc),
            Stage::Correct => self.go_on_correct(alloc, goal),
            Stage::Dive => self.go_on_dive(alloc, goal),
            Stage::Repair => self.go_on_repair(alloc, goal),
            Stage::Ended => Ok(Step::Reported(Found::Ended)),
        }
    }

    /// Goes on, by at most one table. `least` is the greatest bound that is certified so far,
    /// `best` the cost of the best plan that makes all and was checked, if there is one.
    pub fn go_on(
        &mut self,
        alloc: Global,
        least: u64,
        best: Option<u64>,
    ) -> Result<Found, AllocError> {
        let own = if self.missing == 0 {
            self.cost
        } else {
            u64::MAX
        };
        let goal = own.min(best.unwrap_or(u64::MAX));
        if least >= goal {
            self.stage = Stage::Ended;
        }
        for _ in 0..STEPS {
            match self.step(alloc, goal)? {
                Step::Table => return Ok(Found::Nothing),
                Step::Reported(found) => return Ok(found),
                Step::Passed => {}
            }
        }
        Ok(Found::Nothing)
    }
}

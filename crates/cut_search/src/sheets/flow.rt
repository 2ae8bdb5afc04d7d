//! The course of a search, step by step: first plans, the program of plans, the bound, plans by
//! prices, a dive, units given up, and a large rest. A course uses one size alone, or all that it
//! may.

mod begins;
mod ends;

use crate::sheets::best::Best;
use crate::sheets::ceilings::Ceilings;
use crate::sheets::dive::Dive;
use crate::sheets::give_up::GiveUp;
use crate::sheets::greedy::Greedy;
use crate::sheets::job::Job;
use crate::sheets::program::{MAX_COLUMNS, Program};
use crate::sheets::rest::Pack;
use crate::sheets::settle::Settle;
use crate::sheets::units::{Plan, Units};
use crate::sheets::worker::Worker;
use std::alloc::{AllocError, Global};
use std::rc::Rc;

/// Points an axis of the bound's tables, at first and where more may help.
pub const COARSE: usize = 250;

pub const FINE: usize = 600;

/// What a step reported.
#[derive(Clone, Copy, PartialEq, Eq)]
pub enum Reported {
    Nothing,
    /// There is a better plan.
    Units,
    /// There are prices.
    Prices,
    /// No more will be found.
    Ended,
}

/// How far the course is.
#[derive(Clone, Copy)]
enum Stage {
    /// A plain plan.
    Quick,
    /// First plans.
    Rounds,
    /// The program of plans.
    Plans,
    /// The bound.
    Bound,
    /// Plans by prices.
    Priced,
    /// A dive.
    Dive,
    /// Units are given up.
    Gains,
    /// The finer bound.
    Fine,
    /// More units are given up.
    More,
    /// Pieces of the emptiest units are put narrow or low.
    Packs,
    /// Units are filled again for a large rest.
    Rest,
    Ended,
}

/// What is being done.
#[derive(Drop)]
enum Task {
    Nothing,
    Greedy(Greedy),
    Settle(Settle),
    Program(Program),
    Ceilings(Ceilings),
    Dive(Dive),
    GiveUp(GiveUp),
    Pack(Pack),
    /// What is left out of units is put into one more.
    Last(GiveUp, Pack),
}

/// A course.
#[derive(Drop)]
pub struct Flow {
    /// The only size, where it uses one alone.
    only: Option<usize>,
    /// What it may use of the stock.
    free: Vec<u32>,
    pub best: Best,
    /// What units are given up of.
    start: Option<Units>,
    stage: Stage,
    round: u32,
    task: Task,
    /// Values that are corrected from round to round.
    values: Vec<u64>,
    /// Plans for the programs.
    plans: Vec<Rc<Plan>>,
    program: Option<Program>,
    /// Worths of the bound, and about how many points an axis its tables have.
    pub worths: Vec<u32>,
    pub points: usize,
    /// What the bound's program costs, in 1000ths.
    value: u128,
    /// Its own fillings.
    fillings: u64,
    /// Its fillings when the stage began.
    begun: u64,
    attempts: u32,
    /// Batches whose units are to be packed, the last first.
    packed: Vec<usize>,
    /// Whether the best plan is to be packed.
    is_fresh: bool,
}

impl Flow {
    /// A course that has made nothing yet, over what is free of the stock.
    pub fn new(
        alloc: Global,
        worker: &Worker,
        only: Option<usize>,
        free: Vec<u32>,
    ) -> Result<Flow, AllocError> {
        Ok(Flow {
            only,
            free,
            best: Best::new(),
            start: None,
            stage: Stage::Quick,
            round: 0,
            task: Task::Nothing,
            values: Vec::from_slice(alloc, &worker.hints.cells)?,
            plans: Vec::new(alloc),
            program: None,
            worths: Vec::new(alloc),
            points: COARSE,
            value: 0,
            fillings: 0,
            begun: 0,
            attempts: 0,
            packed: Vec::new(alloc),
            is_fresh: false,
        })
    }

    /// Whether no more will be found.
    pub fn has_ended(&self) -> bool {
        matches!(self.stage, Stage::Ended)
    }

    /// Whether it no longer looks for a lower cost.
    pub fn has_cost(&self) -> bool {
        matches!(self.stage, Stage::Packs | Stage::Rest | Stage::Ended)
    }

    /// What all costs at least by its area, where it uses one size alone.
    pub fn least(&self, job: &Job) -> u64 {
        match self.only {
            Some(size) => {
                let cells = job.cells_in(&job.order.left);
                let units = cells.div_ceil(job.unit_cells(size).max(1));
                units.saturating_mul(job.cost(size))
            }
            None => 0,
        }
    }

    /// Whether its plan costs no more than all costs at least.
    fn is_met(&self, worker: &Worker) -> bool {
        let least = self.least(&worker.job).max(worker.hints.bound);
        self.best.missing == 0 && self.best.cost <= least
    }

    /// Goes on to a stage.
    fn go_to(&mut self, stage: Stage) {
        self.stage = stage;
        self.round = 0;
        self.begun = self.fillings;
        self.task = Task::Nothing;
    }

    /// Goes on to what is left where no lower cost can be found.
    pub fn finish(&mut self) {
        if !self.has_cost() {
            self.go_to(Stage::Packs);
        }
    }

    /// Ends it.
    pub fn stop(&mut self) {
        self.go_to(Stage::Ended);
    }

    /// Remembers the plans of units for the programs.
    fn remember(&mut self, units: &Units) -> Result<(), AllocError> {
        for batch in &units.batches {
            if self.plans.len() < MAX_COLUMNS {
                self.plans.push(Rc::clone(&batch.plan)?)?;
            }
        }
        Ok(())
    }

    /// Keeps units, if they are the best. Whether they are reported.
    pub fn offer(
        &mut self,
        alloc: Global,
        worker: &Worker,
        units: &Units,
    ) -> Result<Reported, AllocError> {
        if !self.best.offer(alloc, &worker.job, units)? {
            return Ok(Reported::Nothing);
        }
        self.start = Some(units.copy(alloc)?);
        self.is_fresh = true;
        Ok(Reported::Units)
    }

    /// Goes on with what is being done.
    fn work(
        &mut self,
        alloc: Global,
        worker: &mut Worker,
        goal: u64,
    ) -> Result<Reported, AllocError> {
        let task = std::mem::replace(&mut self.task, Task::Nothing);
        match task {
            Task::Nothing => {
                self.begin(alloc, worker)?;
                Ok(Reported::Nothing)
            }
            Task::Greedy(mut greedy) => {
                if greedy.go_on(alloc, worker)? {
                    return self.end_greedy(alloc, worker, greedy);
                }
                self.task = Task::Greedy(greedy);
                Ok(Reported::Nothing)
            }
            Task::Settle(mut settle) => {
                if settle.go_on(alloc, worker)? {
                    let units = settle.units;
                    return self.offer(alloc, worker, &units);
                }
                self.task = Task::Settle(settle);
                Ok(Reported::Nothing)
            }
            Task::Program(mut program) => {
                if program.go_on(alloc, worker)? {
                    return self.end_program(alloc, program);
                }
                self.task = Task::Program(program);
                Ok(Reported::Nothing)
            }
            other => self.work_on(alloc, worker, other, goal),
        }
    }

    /// Goes on with the rest of what may be done.
    fn work_on(
        &mut self,
        alloc: Global,
        worker: &mut Worker,
        task: Task,
        goal: u64,
    ) -> Result<Reported, AllocError> {
        match task {
            Task::Ceilings(mut ceilings) => {
                if ceilings.go_on(alloc, worker, goal)? {
                    return self.end_ceilings(alloc, worker, ceilings);
                }
                self.task = Task::Ceilings(ceilings);
                Ok(Reported::Nothing)
            }
            Task::Dive(mut dive) => {
                if dive.go_on(alloc, worker)? {
                    return self.end_dive(alloc, worker, dive);
                }
                self.task = Task::Dive(dive);
                Ok(Reported::Nothing)
            }
            Task::GiveUp(mut next) => {
                let given = next.go_on(alloc, worker)?;
                self.after_try(alloc, worker, next, given)
            }
            Task::Pack(mut pack) => {
                if pack.go_on(alloc, worker)? {
                    return self.end_pack(alloc, worker, pack);
                }
                self.task = Task::Pack(pack);
                Ok(Reported::Nothing)
            }
            Task::Last(next, mut pack) => {
                if pack.go_on(alloc, worker)? {
                    return self.end_last(alloc, worker, next, pack);
                }
                self.task = Task::Last(next, pack);
                Ok(Reported::Nothing)
            }
            _ => Ok(Reported::Nothing),
        }
    }

    /// Goes on by one filling, one table or some pivots at most. `goal` is a cost that is known.
    pub fn go_on(
        &mut self,
        alloc: Global,
        worker: &mut Worker,
        goal: u64,
    ) -> Result<Reported, AllocError> {
        if matches!(self.stage, Stage::Ended) {
            return Ok(Reported::Ended);
        }
        let before = worker.fillings;
        let reported = self.work(alloc, worker, goal)?;
        let made = worker.fillings.saturating_sub(before);
        self.fillings = self.fillings.saturating_add(made);
        Ok(reported)
    }
}

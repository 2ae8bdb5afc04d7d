//! What a course makes of each task that has ended.

use crate::sheets::ceilings::Ceilings;
use crate::sheets::dive::Dive;
use crate::sheets::flow::{COARSE, FINE, Flow, Reported, Stage, Task};
use crate::sheets::give_up::{GiveUp, Given};
use crate::sheets::greedy::{Greedy, MAX_BATCHES};
use crate::sheets::program::Program;
use crate::sheets::rest::Pack;
use crate::sheets::settle::Settle;
use crate::sheets::units::Units;
use crate::sheets::worker::{WIDE_BEAM, Worker};
use cut_search_bars::order::UnitBounds;
use std::alloc::{AllocError, Global};
use std::rc::Rc;

/// So many look for the large rest.
const REST_FILLINGS: u64 = 400;

impl Flow {
    /// Settles units.
    fn settle(&mut self, alloc: Global, worker: &Worker, units: Units) -> Result<(), AllocError> {
        let settle = Settle::new(alloc, units, &worker.hints.cells)?;
        self.task = Task::Settle(settle);
        Ok(())
    }

    /// Gives units up of a plan from nothing; of the best one where it leaves something out.
    fn give_up_new(
        &mut self,
        alloc: Global,
        worker: &mut Worker,
        units: Units,
    ) -> Result<(), AllocError> {
        if units.missing_pieces() == 0 {
            return self.give_up(alloc, worker, units);
        }
        match self.start_copy(alloc)? {
            Some(from) => self.give_up(alloc, worker, from),
            None => Ok(()),
        }
    }

    /// Ends a plan from nothing.
    pub(crate) fn end_greedy(
        &mut self,
        alloc: Global,
        worker: &mut Worker,
        greedy: Greedy,
    ) -> Result<Reported, AllocError> {
        self.round = self.round.saturating_add(1);
        match (self.stage, self.only) {
            (Stage::Quick, _) => self.offer(alloc, worker, &greedy.units),
            (Stage::Gains | Stage::More, _) => {
                self.give_up_new(alloc, worker, greedy.units)?;
                Ok(Reported::Nothing)
            }
            (_, Some(_)) => {
                self.values = greedy.values;
                if greedy.units.missing_pieces() > 0 {
                    return Ok(Reported::Nothing);
                }
                self.remember(&greedy.units)?;
                self.offer(alloc, worker, &greedy.units)
            }
            (_, None) => {
                self.remember(&greedy.units)?;
                self.settle(alloc, worker, greedy.units)?;
                Ok(Reported::Nothing)
            }
        }
    }

    /// Ends the program of plans.
    pub(crate) fn end_program(
        &mut self,
        alloc: Global,
        program: Program,
    ) -> Result<Reported, AllocError> {
        self.plans = Vec::new(alloc);
        for plan in &program.plans {
            self.plans.push(Rc::clone(plan)?)?;
        }
        self.program = Some(program);
        self.go_to(Stage::Bound);
        Ok(Reported::Nothing)
    }

    /// Ends a dive.
    pub(crate) fn end_dive(
        &mut self,
        alloc: Global,
        worker: &Worker,
        dive: Dive,
    ) -> Result<Reported, AllocError> {
        self.go_to(Stage::Gains);
        let units = dive.units;
        if self.only.is_some() {
            return self.offer(alloc, worker, &units);
        }
        self.settle(alloc, worker, units)?;
        Ok(Reported::Nothing)
    }

    /// Keeps the worths of the greatest bound.
    fn keep_worths(&mut self, unit_bounds: Option<UnitBounds>) {
        if let Some(unit_bounds) = unit_bounds {
            self.worths = unit_bounds.worths;
            self.points = if matches!(self.stage, Stage::Fine) {
                FINE
            } else {
                COARSE
            };
        }
    }

    /// Ends the bound's program.
    pub(crate) fn end_ceilings(
        &mut self,
        alloc: Global,
        worker: &mut Worker,
        ceilings: Ceilings,
    ) -> Result<Reported, AllocError> {
        let mut ended = ceilings;
        let is_better = ended.least > worker.hints.bound || self.worths.is_empty();
        if ended.least >= worker.hints.bound || self.worths.is_empty() {
            worker.hints.take_bound(alloc, &worker.job, &ended)?;
            self.value = ended.value(&worker.job.order);
        }
        let unit_bounds = ended.unit_bounds.take();
        if is_better {
            self.keep_worths(unit_bounds);
        }
        if ended.has_failed && self.round == 0 {
            self.round = 1;
        } else {
            self.end_bound();
        }
        Ok(if is_better {
            Reported::Prices
        } else {
            Reported::Nothing
        })
    }

    /// Takes another plan of as many units to begin with, where one unit holds what is left out.
    fn begin_elsewhere(
        &mut self,
        alloc: Global,
        worker: &mut Worker,
        next: GiveUp,
    ) -> Result<(), AllocError> {
        let mut units = next.units;
        let Some(size) = self.only else {
            return Ok(());
        };
        if units.free_of(size) == 0 || self.best.missing > 0 {
            return Ok(());
        }
        let values = Vec::from_slice(alloc, &worker.hints.cells)?;
        let filled = worker.fill(alloc, size, &units.missing, &values, WIDE_BEAM)?;
        if filled.plan.counts.as_slice() == units.missing.as_slice() {
            let plan = Rc::new(alloc, filled.plan)?;
            units.add(&worker.job, plan, 1)?;
            self.start = Some(units);
        }
        Ok(())
    }

    /// Goes on where the goal is reached.
    fn after_reached(
        &mut self,
        alloc: Global,
        worker: &Worker,
        next: GiveUp,
    ) -> Result<Reported, AllocError> {
        let units = next.units;
        if self.only.is_some() {
            return self.offer(alloc, worker, &units);
        }
        self.settle(alloc, worker, units)?;
        Ok(Reported::Nothing)
    }

    /// Goes on behind a try to give units up.
    pub(crate) fn after_try(
        &mut self,
        alloc: Global,
        worker: &mut Worker,
        next: GiveUp,
        given: Given,
    ) -> Result<Reported, AllocError> {
        if matches!(self.stage, Stage::Rest) {
            return self.after_rest(alloc, worker, next, given);
        }
        let is_full = next.units.batches.len() >= MAX_BATCHES;
        match given {
            Given::Reached => self.after_reached(alloc, worker, next),
            Given::Tired => {
                self.begin_elsewhere(alloc, worker, next)?;
                Ok(Reported::Nothing)
            }
            Given::More | Given::Less => {
                let is_over = is_full || self.is_enough(worker);
                self.task = if is_over {
                    Task::Nothing
                } else {
                    Task::GiveUp(next)
                };
                Ok(Reported::Nothing)
            }
        }
    }

    /// Goes on behind a try for a large rest: where less is left out than ever, it is put into one
    /// unit.
    fn after_rest(
        &mut self,
        alloc: Global,
        worker: &mut Worker,
        next: GiveUp,
        given: Given,
    ) -> Result<Reported, AllocError> {
        let is_over = self.fillings >= self.begun.saturating_add(REST_FILLINGS);
        if is_over || given == Given::Tired {
            self.go_to(Stage::Ended);
            return Ok(Reported::Nothing);
        }
        if given == Given::Less {
            let size = self.packed.first().copied().unwrap_or(0);
            let area = worker.job.unit_cells(size);
            let used = worker.job.cells_in(&next.units.missing);
            if area.saturating_sub(used) > self.best.rest {
                self.pack_rest(alloc, worker, next, size)?;
                return Ok(Reported::Nothing);
            }
        }
        self.task = Task::GiveUp(next);
        Ok(Reported::Nothing)
    }

    /// Begins to put what is left out into one unit, as narrow or as low as can be.
    fn pack_rest(
        &mut self,
        alloc: Global,
        worker: &Worker,
        next: GiveUp,
        size: usize,
    ) -> Result<(), AllocError> {
        let counts = &next.units.missing;
        let values = &worker.hints.cells;
        let pack = Pack::new(alloc, &worker.job, size, counts, values, self.best.rest)?;
        self.task = Task::Last(next, pack);
        Ok(())
    }

    /// Ends that, and goes on to fill units again.
    pub(crate) fn end_last(
        &mut self,
        alloc: Global,
        worker: &Worker,
        next: GiveUp,
        pack: Pack,
    ) -> Result<Reported, AllocError> {
        let mut packed = pack;
        let found = packed.best.take();
        let mut reported = Reported::Nothing;
        if let Some(plan) = found {
            let mut whole = next.units.copy(alloc)?;
            whole.add(&worker.job, plan, 1)?;
            if self.best.offer_rest(alloc, &worker.job, &whole)? {
                reported = Reported::Units;
            }
        }
        self.task = Task::GiveUp(next);
        Ok(reported)
    }

    /// Ends a pack: the unit's plan is exchanged.
    pub(crate) fn end_pack(
        &mut self,
        alloc: Global,
        worker: &Worker,
        pack: Pack,
    ) -> Result<Reported, AllocError> {
        let (Some(plan), Some(best)) = (pack.best, &self.best.units) else {
            return Ok(Reported::Nothing);
        };
        let mut whole = best.copy(alloc)?;
        whole.exchange(&worker.job, self.round as usize, plan, 1)?;
        whole.tidy();
        if self.best.offer_rest(alloc, &worker.job, &whole)? {
            return Ok(Reported::Units);
        }
        Ok(Reported::Nothing)
    }
}

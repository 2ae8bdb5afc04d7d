//! A dive: the master program rounded down, or its greatest unit taken once, and solved again for
//! what is left, until nothing is.

use crate::correct::Progress;
use crate::draft::{Draft, have_some};
use crate::order::Order;
use crate::quick::fill_up;
use crate::relax::Relax;
use crate::round::{round_down, take_greatest};
use cut_fill_bars::bars::Bars;
use cut_master::column::Plan;
use cut_master::master::Taken;
use std::alloc::{AllocError, Global};

/// So many tables are made for a program on the way at most.
const TABLES: u32 = 30;

/// A dive on its way.
#[derive(Drop)]
pub struct Dive {
    /// The units so far.
    pub draft: Draft,
    relax: Option<Relax>,
    /// So many are skipped where the greatest is taken first.
    skipped: usize,
}

impl Dive {
    /// A dive from the top.
    pub fn new(alloc: Global, order: &Order, skipped: usize) -> Result<Dive, AllocError> {
        Ok(Dive {
            draft: Draft::new(alloc, &order.left, &order.limits)?,
            relax: None,
            skipped,
        })
    }

    /// Takes units of a program that is solved. Whether there was one.
    fn take(&mut self, alloc: Global, order: &Order, taken: &[Taken]) -> Result<bool, AllocError> {
        if round_down(alloc, order, taken, &mut self.draft)? > 0 {
            return Ok(true);
        }
        let skipped = self.skipped;
        self.skipped = 0;
        take_greatest(alloc, order, taken, skipped, &mut self.draft)
    }

    /// Completes the draft without a table, if that reaches the goal.
    fn complete(&mut self, alloc: Global, order: &Order, goal: u64) -> Result<bool, AllocError> {
        let mut whole = self.draft.copy(alloc)?;
        fill_up(alloc, order, &mut whole)?;
        let reached = !have_some(&whole.left) && whole.cost < goal;
        if reached {
            self.draft = whole;
        }
        Ok(reached)
    }

    /// Begins the program of what is left, with plans of the one before.
    fn descend(
        &mut self,
        alloc: Global,
        order: &Order,
        plans: &[Plan],
    ) -> Result<bool, AllocError> {
        let left = &self.draft.left;
        let next = Relax::new(alloc, order, left, &self.draft.free, TABLES)?;
        let Some(mut relax) = next else {
            return Ok(false);
        };
        relax.offer_within(alloc, plans)?;
        self.relax = Some(relax);
        Ok(true)
    }

    /// Takes units of a program, and begins the next one.
    fn turn(
        &mut self,
        alloc: Global,
        order: &Order,
        above: &Relax,
        goal: u64,
    ) -> Result<Progress, AllocError> {
        let taken = above.taken(alloc)?;
        let some = self.take(alloc, order, &taken)?;
        if !some || !have_some(&self.draft.left) || self.complete(alloc, order, goal)? {
            return Ok(Progress::Filled);
        }
        if !self.descend(alloc, order, above.plans())? {
            return Ok(Progress::Filled);
        }
        Ok(Progress::More)
    }

    /// Goes on by a table at most, towards a cost below a goal; `first` is the program at the top.
    pub fn go_on(
        &mut self,
        alloc: Global,
        order: &Order,
        bars: &mut Bars,
        first: &Relax,
        goal: u64,
    ) -> Result<Progress, AllocError> {
        let Some(mut relax) = self.relax.take() else {
            return self.turn(alloc, order, first, goal);
        };
        let enough = goal.saturating_sub(self.draft.cost);
        if !relax.go_on(alloc, order, bars, enough)? {
            self.relax = Some(relax);
            return Ok(Progress::More);
        }
        if relax.least >= enough || !relax.settle() {
            return Ok(Progress::Hopeless);
        }
        self.turn(alloc, order, &relax, goal)
    }
}

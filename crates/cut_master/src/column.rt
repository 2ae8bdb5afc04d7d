//! The columns of the program: what may be taken, what it costs, and what it gives to each row.

use crate::fixed::{ONE, counted};
use std::alloc::{AllocError, Global};

/// What a piece costs that isn't made, beside a cost of 1 for the dearest unit.
const PENALTY: i128 = 4 * ONE;

/// A size of which units are cut.
#[derive(Clone, Copy)]
pub struct Supply {
    /// What a unit costs, in fixed point.
    pub cost: i128,
    /// The row that counts its units, where their number is limited.
    pub row: Option<usize>,
}

/// A plan of one unit.
#[derive(Drop)]
pub struct Plan {
    /// The place of the unit's size among the sizes.
    pub size: usize,
    /// How many pieces of each want it gives.
    pub counts: Vec<u32>,
    /// Which of its user's plans it is; the program doesn't read it.
    pub tag: usize,
}

/// What may be taken, any part of it.
#[derive(Clone, Copy)]
pub enum Column {
    /// A piece of a want that isn't made.
    Missing(usize),
    /// A piece too many of a want.
    Spare(usize),
    /// A unit of a limited size that isn't cut, by its row.
    Unused(usize),
    /// A unit that is cut by a plan.
    Cut(usize),
}

/// The sizes and the plans that the columns speak of.
#[derive(Drop)]
pub struct Choice {
    pub supplies: Vec<Supply>,
    pub plans: Vec<Plan>,
}

impl Plan {
    /// The same plan again.
    pub fn copy(&self, alloc: Global) -> Result<Plan, AllocError> {
        Ok(Plan {
            size: self.size,
            counts: Vec::from_slice(alloc, &self.counts)?,
            tag: self.tag,
        })
    }
}

impl Choice {
    /// No size and no plan.
    pub fn new(alloc: Global) -> Choice {
        Choice {
            supplies: Vec::new(alloc),
            plans: Vec::new(alloc),
        }
    }

    /// One more plan.
    pub fn add(&mut self, plan: Plan) -> Result<(), AllocError> {
        self.plans.push(plan)?;
        Ok(())
    }

    /// What a plan gives to the rows, each at a price.
    fn plan_worth(&self, plan: &Plan, prices: &[i128]) -> Option<i128> {
        let pieces = counted(&plan.counts, prices)?;
        match self.supplies.get(plan.size)?.row {
            None => Some(pieces),
            Some(row) => pieces.checked_add(*prices.get(row)?),
        }
    }

    /// What a plan's unit costs.
    fn plan_cost(&self, plan: &Plan) -> Option<i128> {
        Some(self.supplies.get(plan.size)?.cost)
    }

    /// What a plan is worth at prices, less its cost.
    pub fn gain(&self, plan: &Plan, prices: &[i128]) -> Option<i128> {
        let worth = self.plan_worth(plan, prices)?;
        worth.checked_sub(self.plan_cost(plan)?)
    }

    /// What a column gives to the rows, each at a price.
    pub fn worth(&self, column: Column, prices: &[i128]) -> Option<i128> {
        match column {
            Column::Missing(row) => Some(*prices.get(row)?),
            Column::Spare(row) => prices.get(row)?.checked_neg(),
            Column::Unused(row) => Some(*prices.get(row)?),
            Column::Cut(place) => self.plan_worth(self.plans.get(place)?, prices),
        }
    }

    /// What a column costs.
    pub fn cost(&self, column: Column) -> Option<i128> {
        match column {
            Column::Missing(_) => Some(PENALTY),
            Column::Spare(_) => Some(0),
            Column::Unused(_) => Some(0),
            Column::Cut(place) => self.plan_cost(self.plans.get(place)?),
        }
    }
}

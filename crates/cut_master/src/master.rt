//! The master program by the revised simplex method (Dantzig and Orchard-Hays 1954), dense: a row
//! for each want, of which at least so many are made, and for each limited size, of which at most
//! so many units are cut.

use crate::column::{Choice, Column, Plan, Supply};
use crate::fixed::{TINY, add_times, whole};
use crate::pivot::{find_slopes, leaving_row, pivot, place, reset};
use std::alloc::{AllocError, Global};

/// So many pivots at least, and as many as there are rows, are made before the inverse is made anew
/// from the basis, against the errors of rounding.
const PIVOTS: usize = 64;

/// What a plan has to gain, so that it is taken: 2^-20.
pub const MIN_GAIN: i128 = 1_048_576;

/// A size of which units may be cut.
#[derive(Clone, Copy, Debug, PartialEq, Eq)]
pub struct Size {
    /// What a unit costs, in fixed point: 1 for the dearest.
    pub cost: i128,
    /// How many units there are, where that is limited.
    pub number: Option<u64>,
}

/// How a run of pivots ended.
#[derive(Clone, Copy, Debug, PartialEq, Eq)]
pub enum End {
    /// No column gains.
    Best,
    /// So many pivots weren't enough.
    Spent,
    /// A number overflowed, or no row can leave: the program is of no more use.
    Failed,
}

/// How many units are cut by a plan.
#[derive(Drop)]
pub struct Taken {
    pub plan: Plan,
    /// In fixed point.
    pub amount: i128,
}

/// The rows of the program, the column that each begins with and its amount.
#[derive(Drop)]
struct Setup {
    choice: Choice,
    amounts: Vec<i128>,
    basis: Vec<Column>,
}

impl Setup {
    /// A row for each want, of which so many are left to make.
    fn new(alloc: Global, left: &[u32]) -> Result<Setup, AllocError> {
        let mut amounts = Vec::new(alloc);
        let mut basis = Vec::new(alloc);
        for (want, count) in left.iter().enumerate() {
            amounts.push(whole(*count as u64))?;
            basis.push(Column::Missing(want))?;
        }
        Ok(Setup {
            choice: Choice::new(alloc),
            amounts,
            basis,
        })
    }

    /// One more size, and a row for it where its number is limited.
    fn add(&mut self, size: &Size) -> Result<(), AllocError> {
        let row = self.amounts.len();
        if let Some(number) = size.number {
            self.amounts.push(whole(number))?;
            self.basis.push(Column::Unused(row))?;
        }
        self.choice.supplies.push(Supply {
            cost: size.cost,
            row: size.number.map(|_| row),
        })?;
        Ok(())
    }
}

/// The program, a basis of it, and the basis's prices.
#[derive(Drop)]
pub struct Master {
    wants: usize,
    choice: Choice,
    amounts: Vec<i128>,
    basis: Vec<Column>,
    /// The inverse of the basis, and last in each row the amount of its column.
    rows: Vec<Vec<i128>>,
    /// What the column that enters takes of each row's column.
    slopes: Vec<i128>,
    /// The price of each row, and last the cost of all that is taken.
    prices: Vec<i128>,
    /// How many were made on this inverse.
    pivots: usize,
}

/// So many rows of zeros, each longer by one.
fn zero_rows(alloc: Global, count: usize) -> Result<Vec<Vec<i128>>, AllocError> {
    let mut rows = Vec::new(alloc);
    for _ in 0..count {
        rows.push(vec![in alloc; 0i128; count.saturating_add(1)]?)?;
    }
    Ok(rows)
}

impl Master {
    /// The program of what is left of each want and of the sizes, with no plan yet. None where the
    /// numbers are too large.
    pub fn new(alloc: Global, left: &[u32], sizes: &[Size]) -> Result<Option<Master>, AllocError> {
        let mut setup = Setup::new(alloc, left)?;
        for size in sizes {
            setup.add(size)?;
        }
        let Setup {
            choice,
            amounts,
            basis,
        } = setup;
        let count = amounts.len();
        let mut master = Master {
            wants: left.len(),
            choice,
            amounts,
            basis,
            rows: zero_rows(alloc, count)?,
            slopes: vec![in alloc; 0i128; count]?,
            prices: vec![in alloc; 0i128; count.saturating_add(1)]?,
            pivots: 0,
        };
        reset(&mut master.rows, &master.amounts);
        match master.price() {
            None => Ok(None),
            Some(()) => Ok(Some(master)),
        }
    }

    /// Offers a plan to the program.
    pub fn add(&mut self, plan: Plan) -> Result<(), AllocError> {
        self.choice.add(plan)
    }

    /// All plans that were offered.
    pub fn plans(&self) -> &[Plan] {
        &self.choice.plans
    }

    /// Writes the prices: the costs of the basis times its inverse.
    fn price(&mut self) -> Option<()> {
        self.prices.fill(0);
        for (column, row) in self.basis.iter().zip(&self.rows) {
            add_times(&mut self.prices, self.choice.cost(*column)?, row)?;
        }
        Some(())
    }

    /// Makes the inverse anew from the basis.
    fn refresh(&mut self) -> Option<()> {
        reset(&mut self.rows, &self.amounts);
        for (row, column) in self.basis.iter().enumerate() {
            place(&mut self.rows, &mut self.slopes, &self.choice, *column, row)?;
        }
        self.pivots = 0;
        Some(())
    }

    /// Counts a pivot, and makes the inverse anew after some of them.
    fn count_pivot(&mut self) -> Option<()> {
        if self.pivots < self.rows.len().max(PIVOTS) {
            self.pivots = self.pivots.saturating_add(1);
            return Some(());
        }
        self.refresh()
    }

    /// Takes a column into the basis, in place of the one that is used up first.
    fn enter(&mut self, column: Column) -> Option<()> {
        find_slopes(&mut self.slopes, &self.rows, &self.choice, column)?;
        let row = leaving_row(&self.rows, &self.slopes)?;
        pivot(&mut self.rows, &self.slopes, row)?;
        *self.basis.get_mut(row)? = column;
        self.count_pivot()?;
        self.price()
    }

    /// A column that costs nothing and gains: a spare piece, or a unit that isn't cut.
    fn free_column(&self) -> Option<Column> {
        for (row, price) in self.prices.iter().enumerate() {
            if row < self.wants && *price < -TINY {
                return Some(Column::Spare(row));
            }
            if self.wants <= row && row < self.amounts.len() && *price > TINY {
                return Some(Column::Unused(row));
            }
        }
        None
    }

    /// What a plan gains by the prices. None where the numbers fail.
    pub fn gain(&self, plan: &Plan) -> Option<i128> {
        self.choice.gain(plan, &self.prices)
    }

    /// The plan that gains most, if it gains enough.
    fn best_plan(&self) -> Option<Column> {
        let mut best = None;
        let mut most = MIN_GAIN;
        for (place, plan) in self.choice.plans.iter().enumerate() {
            let gain = self.gain(plan).unwrap_or(0);
            if gain > most {
                most = gain;
                best = Some(Column::Cut(place));
            }
        }
        best
    }

    /// Takes columns into the basis while one gains, by at most so many pivots.
    pub fn improve(&mut self, pivots: u32) -> End {
        for _ in 0..pivots {
            let Some(column) = self.free_column().or(self.best_plan()) else {
                return End::Best;
            };
            if self.enter(column).is_none() {
                return End::Failed;
            }
        }
        End::Spent
    }

    /// What all that is taken costs, in fixed point: that of the units and the penalties.
    pub fn value(&self) -> i128 {
        self.prices.last().copied().unwrap_or(0)
    }

    /// The price of a piece of each of the first wants, in fixed point.
    pub fn want_prices(&self, alloc: Global, wants: usize) -> Result<Vec<u64>, AllocError> {
        let mut prices = vec![in alloc; 0u64; wants]?;
        for (to, price) in prices.iter_mut().zip(&self.prices) {
            *to = u64::try_from((*price).max(0)).unwrap_or(u64::MAX);
        }
        Ok(prices)
    }

    /// The plan that a column cuts by.
    fn plan_of(&self, column: Column) -> Option<&Plan> {
        match column {
            Column::Cut(place) => self.choice.plans.get(place),
            _ => None,
        }
    }

    /// The plans by which units are cut, and how many.
    pub fn taken(&self, alloc: Global) -> Result<Vec<Taken>, AllocError> {
        let mut taken = Vec::new(alloc);
        for (column, row) in self.basis.iter().zip(&self.rows) {
            let amount = row.last().copied().unwrap_or(0);
            if let Some(plan) = self.plan_of(*column) {
                if amount > MIN_GAIN {
                    taken.push(Taken {
                        plan: plan.copy(alloc)?,
                        amount,
                    })?;
                }
            }
        }
        Ok(taken)
    }
}

//! The orders of which jobs' plans have a piece, as the rows in memory have them, and where a list of them differs.

ghost use Rattle.std.specs.Prelude.{◌≤◌, length};

use crate::ledger::Ledger;
use cut_measure::Code;
use cut_tree::Leaf;
use std::alloc::{AllocError, Global};
use std::cmp::Ordering;

/// An order of which a job's plan has a piece, as a store lists it: the job's number, whatever it is, and the order, unless its
/// text is no code.
#[derive(Clone, Copy, Debug, PartialEq)]
pub struct ListedUse {
    pub job: i64,
    pub order: Option<Code>,
}

/// Where a list of the orders of jobs differs from the jobs' plans.
#[derive(Clone, Copy, Debug, PartialEq)]
pub enum StrayUse {
    /// At this order of the job of this number.
    Use(u32, Code),
    /// At what is no order of a job.
    Other,
}

// At which place of rising codes another one stands, or would stand.
fn place_of(codes: &[Code], code: &Code) -> usize
    ensures { result ≤ length codes.now }
{
    codes
        .iter()
        .take_while(|it| matches!(it.order(code), Ordering::Less))
        .count()
}

// Puts a code among rising ones, unless it is there.
fn put_code(codes: &mut Vec<Code>, code: Code) -> Result<(), AllocError> {
    let at = place_of(codes, &code);
    if let Some(found) = codes.get(at) {
        if found.is(&code) {
            return Ok(());
        }
    }
    if at <= codes.len() {
        codes.insert(at, code)?;
    }
    Ok(())
}

// Where a row stands that differs.
fn stray(row: &ListedUse) -> StrayUse {
    match (u32::try_from(row.job), row.order) {
        (Ok(job), Some(order)) => StrayUse::Use(job, order),
        _ => StrayUse::Other,
    }
}

// Whether a row is that of an order of a job.
fn is_of(row: &ListedUse, job: u32, order: &Code) -> bool {
    match &row.order {
        Some(found) => row.job == i64::from(job) && found.is(order),
        None => false,
    }
}

// Whether a row comes before an order of a job.
fn comes_before(row: &ListedUse, job: u32, order: &Code) -> bool {
    if row.job < i64::from(job) {
        return true;
    }
    match &row.order {
        Some(found) => matches!(found.order(order), Ordering::Less),
        None => true,
    }
}

// Where the row of an order of a job differs, which is to be this one.
fn difference(job: u32, order: &Code, row: Option<&ListedUse>) -> Option<StrayUse> {
    let Some(row) = row else {
        return Some(StrayUse::Use(job, *order));
    };
    if is_of(row, job, order) {
        None
    } else if comes_before(row, job, order) {
        Some(stray(row))
    } else {
        Some(StrayUse::Use(job, *order))
    }
}

// Where the rows of a job differ from its orders, both rising.
fn difference_in(job: u32, orders: &[Code], rows: &[ListedUse]) -> Option<StrayUse> {
    for (at, order) in orders.iter().enumerate() {
        if let Some(found) = difference(job, order, rows.get(at)) {
            return Some(found);
        }
    }
    let row = rows.get(orders.len())?;
    Some(stray(row))
}

// How many of the first rows are of a job or of one before it.
fn count_of(rows: &[ListedUse], job: u32) -> usize
    ensures { result ≤ length rows.now }
{
    let last = i64::from(job);
    rows.iter().take_while(|row| row.job <= last).count()
}

impl Ledger {
    // Puts the order of a leaf's demand among rising codes.
    fn put_order(&self, codes: &mut Vec<Code>, leaf: &Leaf) -> Result<(), AllocError> {
        match self.demand(leaf.demand) {
            Some(demand) => put_code(codes, demand.order),
            None => Ok(()),
        }
    }

    // The orders of which the plan of the job of a number has a piece, rising; none if there is no such job.
    fn orders_of(&self, alloc: Global, number: u32) -> Result<Vec<Code>, AllocError> {
        let mut codes = Vec::new(alloc);
        let Some(job) = self.job(alloc, number)? else {
            return Ok(codes);
        };
        let leaves = job.plan.leaves(alloc)?;
        for leaf in leaves.iter() {
            self.put_order(&mut codes, leaf)?;
        }
        Ok(codes)
    }

    /// Where a list of the orders of jobs, by rising job and code, first differs from the plans of the jobs.
    pub fn stray_use(
        &self,
        alloc: Global,
        rows: &[ListedUse],
    ) -> Result<Option<StrayUse>, AllocError> {
        let behind = self.next_act().unwrap_or(u32::MAX);
        let mut rest = rows;
        for number in 1..behind {
            let orders = self.orders_of(alloc, number)?;
            let (own, others) = rest.split_at(count_of(rest, number));
            if let Some(found) = difference_in(number, &orders, own) {
                return Ok(Some(found));
            }
            rest = others;
        }
        match rest.first() {
            Some(row) => Ok(Some(stray(row))),
            None => Ok(None),
        }
    }
}

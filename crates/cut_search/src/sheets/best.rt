//! The best plan that was found.

use crate::sheets::job::Job;
use crate::sheets::rest::rest_of;
use crate::sheets::units::Units;
use cut_search_bars::found::FoundUnit;
use std::alloc::{AllocError, Global};

/// The best plan so far.
#[derive(Drop)]
pub struct Best {
    pub units: Option<Units>,
    /// How many pieces it leaves out; the most where there is no plan.
    pub missing: u64,
    /// What it costs; the most where there is no plan.
    pub cost: u64,
    /// The cells of its largest rest.
    pub rest: u64,
}

/// The largest rest of units.
fn largest_rest(alloc: Global, job: &Job, units: &Units) -> Result<u64, AllocError> {
    let mut most = 0u64;
    for batch in &units.batches {
        most = most.max(rest_of(alloc, job, &batch.plan)?);
    }
    Ok(most)
}

/// The units with their trees.
pub fn found_units(alloc: Global, job: &Job, units: &Units) -> Result<Vec<FoundUnit>, AllocError> {
    let mut found = Vec::new(alloc);
    for batch in &units.batches {
        let size = batch.plan.size;
        let (w, h) = job.sides_of(size);
        let node = batch.plan.shape.node(alloc, &job.wants, w, h, job.kerf)?;
        if let Some(node) = node {
            if batch.times > 0 {
                found.push(FoundUnit {
                    place: size,
                    times: batch.times,
                    node,
                })?;
            }
        }
    }
    Ok(found)
}

impl Best {
    /// None yet.
    pub fn new() -> Best {
        Best {
            units: None,
            missing: u64::MAX,
            cost: u64::MAX,
            rest: 0,
        }
    }

    /// Keeps units that leave out fewer pieces, or as many at a lower cost. Whether they do.
    pub fn offer(&mut self, alloc: Global, job: &Job, units: &Units) -> Result<bool, AllocError> {
        let missing = units.missing_pieces();
        if missing > self.missing || missing == self.missing && units.cost >= self.cost {
            return Ok(false);
        }
        self.missing = missing;
        self.cost = units.cost;
        self.rest = largest_rest(alloc, job, units)?;
        self.units = Some(units.copy(alloc)?);
        Ok(true)
    }

    /// Keeps units that are as good with a larger rest. Whether they are.
    pub fn offer_rest(
        &mut self,
        alloc: Global,
        job: &Job,
        units: &Units,
    ) -> Result<bool, AllocError> {
        if units.missing_pieces() != self.missing || units.cost != self.cost {
            return self.offer(alloc, job, units);
        }
        let rest = largest_rest(alloc, job, units)?;
        if rest <= self.rest {
            return Ok(false);
        }
        self.rest = rest;
        self.units = Some(units.copy(alloc)?);
        Ok(true)
    }
}

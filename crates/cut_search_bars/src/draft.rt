//! Plans of an order that are being made: batches of units that are cut alike, and what is left.

use std::alloc::{AllocError, Global};

/// Units of a size that are cut alike.
#[derive(Drop)]
pub struct Batch {
    /// The place of their size in the stock's list.
    pub size: usize,
    /// Pieces of each want.
    pub counts: Vec<u32>,
    /// The number of the plan, for who keeps plans.
    pub tag: usize,
    /// How many units they are.
    pub times: u32,
}

/// Some units, what is left of the wants and of the stock after them, and what they cost.
#[derive(Drop)]
pub struct Draft {
    pub batches: Vec<Batch>,
    /// How many pieces of each want.
    pub left: Vec<u32>,
    /// How many units of each size, where that is limited.
    pub free: Vec<Option<u32>>,
    /// The sum of the units' costs.
    pub cost: u64,
}

/// Whether there is a piece.
pub fn have_some(counts: &[u32]) -> bool {
    for count in counts {
        if *count > 0 {
            return true;
        }
    }
    false
}

/// How often the counts are within what is left; 0 where they have no piece.
pub fn times_within(counts: &[u32], left: &[u32]) -> u32 {
    let mut times = u32::MAX;
    for (count, rest) in counts.iter().zip(left) {
        if let Some(whole) = rest.checked_div(*count) {
            times = whole.min(times);
        }
    }
    if have_some(counts) { times } else { 0 }
}

impl Draft {
    /// No units yet.
    pub fn new(alloc: Global, left: &[u32], free: &[Option<u32>]) -> Result<Draft, AllocError> {
        Ok(Draft {
            batches: Vec::new(alloc),
            left: Vec::from_slice(alloc, left)?,
            free: Vec::from_slice(alloc, free)?,
            cost: 0,
        })
    }

    /// The same again.
    pub fn copy(&self, alloc: Global) -> Result<Draft, AllocError> {
        let mut draft = Draft::new(alloc, &self.left, &self.free)?;
        draft.cost = self.cost;
        for batch in &self.batches {
            draft.batches.push(Batch {
                size: batch.size,
                counts: Vec::from_slice(alloc, &batch.counts)?,
                tag: batch.tag,
                times: batch.times,
            })?;
        }
        Ok(draft)
    }

    /// How many pieces are missing.
    pub fn missing(&self) -> u64 {
        let mut sum = 0u64;
        for count in &self.left {
            sum = sum.saturating_add(*count as u64);
        }
        sum
    }

    /// How many units of a size are free.
    pub fn free_of(&self, size: usize) -> u32 {
        match self.free.get(size) {
            None => 0,
            Some(None) => u32::MAX,
            Some(Some(number)) => *number,
        }
    }

    /// Takes counts from what is left.
    fn take(&mut self, size: usize, counts: &[u32], times: u32) {
        for (rest, count) in self.left.iter_mut().zip(counts) {
            *rest = rest.saturating_sub(count.saturating_mul(times));
        }
        if let Some(Some(number)) = self.free.get_mut(size) {
            *number = number.saturating_sub(times);
        }
    }

    /// Takes a unit of a batch apart, of a cost.
    pub fn take_apart(&mut self, place: usize, cost: u64) {
        let Some(batch) = self.batches.get_mut(place) else {
            return;
        };
        batch.times = batch.times.saturating_sub(1);
        for (rest, count) in self.left.iter_mut().zip(&batch.counts) {
            *rest = rest.saturating_add(*count);
        }
        if let Some(Some(number)) = self.free.get_mut(batch.size) {
            *number = number.saturating_add(1);
        }
        self.cost = self.cost.saturating_sub(cost);
    }

    /// Adds units to a batch of the same, if there is one.
    fn join(&mut self, size: usize, counts: &[u32], tag: usize, times: u32) -> bool {
        for batch in self.batches.iter_mut() {
            if batch.size == size && batch.tag == tag && batch.counts.as_slice() == counts {
                batch.times = batch.times.saturating_add(times);
                return true;
            }
        }
        false
    }

    /// Adds so many units, each of a cost. The counts have to be within what is left.
    pub fn add(
        &mut self,
        alloc: Global,
        size: usize,
        counts: &[u32],
        tag: usize,
        times: u32,
        cost: u64,
    ) -> Result<(), AllocError> {
        self.take(size, counts, times);
        self.cost = self.cost.saturating_add(cost.saturating_mul(times as u64));
        if !self.join(size, counts, tag, times) {
            self.batches.push(Batch {
                size,
                counts: Vec::from_slice(alloc, counts)?,
                tag,
                times,
            })?;
        }
        Ok(())
    }
}

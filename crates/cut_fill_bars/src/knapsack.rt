//! The bounded knapsack: for each span the greatest worth of items within it, by a row of cells
//! after each item. What it answers is a hint, and where worths are so great that a row's cells
//! overflow, it is a wrong one.

use std::alloc::{AllocError, Global};

/// What may be put into a span, more than once.
#[derive(Clone, Copy)]
pub struct Item {
    /// The span that one takes: of 0 none is taken.
    pub step: u32,
    /// What one is worth. What a span may hold is worth less than 2^32.
    pub gain: u32,
    /// How many there are.
    pub most: u32,
}

/// Offers the cells from a place on what as many cells before it hold, and a gain.
fn offer(row: &mut [u32], at: usize, step: usize, gain: u32) {
    if step > at || at > row.len() {
        return;
    }
    let (low, high) = row.split_at_mut(at);
    let from = &low[at - step..];
    for (cell, below) in high.iter_mut().zip(from) {
        *cell = (*cell).max(below.wrapping_add(gain));
    }
}

/// Offers one of a step to each span, the longest first.
fn raise(row: &mut [u32], step: usize, gain: u32) {
    let blocks = row.len().checked_div(step).unwrap_or(0);
    for block in (0..blocks).rev() {
        offer(
            row,
            block.saturating_add(1).saturating_mul(step),
            step,
            gain,
        );
    }
}

/// Offers any number of a step to each span, the shortest first.
fn raise_freely(row: &mut [u32], step: usize, gain: u32) {
    let blocks = row.len().checked_div(step).unwrap_or(0);
    for block in 0..blocks {
        offer(
            row,
            block.saturating_add(1).saturating_mul(step),
            step,
            gain,
        );
    }
}

/// Offers up to so many of a step to each span: batches of 1, 2, 4 and so on, which any number up
/// to that is a sum of.
fn raise_often(row: &mut [u32], item: &Item, most: u32) {
    let mut rest = most;
    let mut part = 1u32;
    for _ in 0..32 {
        let batch = part.min(rest);
        if batch == 0 {
            return;
        }
        let step = (item.step as usize).saturating_mul(batch as usize);
        raise(row, step, item.gain.wrapping_mul(batch));
        rest -= batch;
        part = part.saturating_mul(2);
    }
}

/// How many of an item the longest span holds.
fn most_within(item: &Item, cells: usize) -> u32 {
    let fit = cells.saturating_sub(1).checked_div(item.step as usize);
    u32::try_from(fit.unwrap_or(0)).unwrap_or(u32::MAX)
}

/// Writes the row after an item from the row before it.
fn write_row(row: &mut [u32], before: &[u32], item: &Item) {
    for (cell, below) in row.iter_mut().zip(before) {
        *cell = *below;
    }
    let fit = most_within(item, row.len());
    if fit <= item.most {
        raise_freely(row, item.step as usize, item.gain);
    } else {
        raise_often(row, item, item.most);
    }
}

/// Writes the rows after the items from the first row.
fn write_rows(rows: &mut [Vec<u32>], items: &[Item]) {
    for (place, item) in items.iter().enumerate() {
        let next = place.saturating_add(1);
        if next > rows.len() {
            return;
        }
        let (done, others) = rows.split_at_mut(next);
        if let (Some(before), Some(row)) = (done.last(), others.first_mut()) {
            write_row(row, before, item);
        }
    }
}

/// How many of an item the best of a span has, the fewest where several do: the rest of it is the
/// best before the item.
fn count_of(item: &Item, before: &[u32], row: &[u32], span: usize) -> Option<u32> {
    let worth = *row.get(span)?;
    let most = most_within(item, span.saturating_add(1)).min(item.most);
    let mut low = span;
    let mut gain = 0u32;
    for count in 0..=most {
        if before.get(low)?.wrapping_add(gain) == worth {
            return Some(count);
        }
        low = low.saturating_sub(item.step as usize);
        gain = gain.wrapping_add(item.gain);
    }
    None
}

/// The rows of some items. Its memory serves one table after the other.
#[derive(Drop)]
pub struct Table {
    items: Vec<Item>,
    rows: Vec<Vec<u32>>,
}

impl Table {
    /// No items, and no spans.
    pub fn new(alloc: Global) -> Table {
        Table {
            items: Vec::new(alloc),
            rows: Vec::new(alloc),
        }
    }

    /// Takes so many rows, each of so many cells.
    fn size(&mut self, alloc: Global, count: usize, cells: usize) -> Result<(), AllocError> {
        for row in self.rows.iter_mut() {
            row.resize(cells, 0)?;
        }
        for _ in self.rows.len()..count {
            self.rows.push(vec![in alloc; 0u32; cells]?)?;
        }
        Ok(())
    }

    /// The table of the items over the worths that the spans have without them, as many spans as
    /// those are.
    pub fn make_on(
        &mut self,
        alloc: Global,
        start: &[u32],
        items: &[Item],
    ) -> Result<(), AllocError> {
        self.size(alloc, items.len().saturating_add(1), start.len())?;
        self.items = Vec::from_slice(alloc, items)?;
        if let Some(first) = self.rows.first_mut() {
            for (cell, worth) in first.iter_mut().zip(start) {
                *cell = *worth;
            }
        }
        write_rows(&mut self.rows, items);
        Ok(())
    }

    /// The table of the items in the spans from 0 to a whole.
    pub fn make(&mut self, alloc: Global, items: &[Item], whole: u32) -> Result<(), AllocError> {
        let start = vec![in alloc; 0u32; (whole as usize).saturating_add(1)]?;
        self.make_on(alloc, &start, items)
    }

    /// The worths of the spans, by the first items, so many of them.
    pub fn worths(&self, items: usize) -> Option<&Vec<u32>> {
        self.rows.get(items)
    }

    /// The best worth of a span, by the first items, so many of them.
    pub fn best(&self, items: usize, span: u32) -> Option<u32> {
        self.rows.get(items)?.get(span as usize).copied()
    }

    /// Adds to the counts how many of each the best of a span has, by the first items, so many of
    /// them. What is left of the room for what the table began with; None out of the table.
    pub fn take(&self, items: usize, span: u32, counts: &mut [u32]) -> Option<u32> {
        let mut rest = span;
        for place in (0..items).rev() {
            let item = self.items.get(place)?;
            let before = self.rows.get(place)?;
            let row = self.rows.get(place.saturating_add(1))?;
            let count = count_of(item, before, row, rest as usize)?;
            rest = rest.saturating_sub(count.saturating_mul(item.step));
            let cell = counts.get_mut(place)?;
            *cell = cell.saturating_add(count);
        }
        Some(rest)
    }
}

//! A table of what a unit of each size is worth at most, over classes of sides (`cut_classes`), and
//! the pieces that it counts.

use crate::sheets::job::{Job, fits};
use cut_classes::{CeilingTable, Grid, ceilings, class_of, grid_of, high_of, is_counted, pairs_of};
use cut_fill_sheets::Piece;
use cut_measure::{MAX_KERF, Size};
use cut_wants::wants::Want;
use std::alloc::{AllocError, Global};

/// So many places of a table are looked at for one unit at most.
const MAX_PLACES: usize = 20_000;

/// A worker's work makes so many places of a table, times the points of both axes together.
const POINTS_A_WORK: u64 = 1_080_000;

/// A table, once it is made.
#[derive(Drop)]
pub struct Table {
    grid: Grid,
    /// Whether each want is in the table.
    counted: Vec<bool>,
    worths: Vec<u32>,
    made: Option<CeilingTable>,
}

/// The multiples of a step up to a length.
fn multiples(alloc: Global, step: u32, most: u32) -> Result<Vec<u32>, AllocError> {
    let mut points = Vec::new(alloc);
    let count = most.checked_div(step).unwrap_or(0);
    for number in 0..count.saturating_add(1) {
        points.push(number.saturating_mul(step))?;
    }
    Ok(points)
}

/// The grid of a job: its points, or the multiples of the step that is given.
fn grid_for(alloc: Global, job: &Job, points: usize) -> Result<Grid, AllocError> {
    let mut wants = Vec::new(alloc);
    for want in &job.wants {
        if want.left > 0 {
            wants.push(*want)?;
        }
    }
    let kerf = job.kerf.min(MAX_KERF);
    let units: &[Size] = &job.order.units;
    let mut grid = grid_of(alloc, kerf, units, &wants, points)?;
    if let Some(step) = job.step {
        grid.across = multiples(alloc, step, grid.most_across)?;
        grid.down = multiples(alloc, step, grid.most_down)?;
    }
    Ok(grid)
}

/// The want that is worth so much and has no greater sides.
fn piece_at(pieces: &[Piece], worths: &[u32], w: u32, h: u32, worth: u64) -> Option<usize> {
    for (want, (piece, value)) in pieces.iter().zip(worths).enumerate() {
        if *value as u64 == worth && fits(piece, w, h) {
            return Some(want);
        }
    }
    None
}

impl Table {
    /// A table of a job that isn't made yet, with about so many points an axis.
    pub fn new(alloc: Global, job: &Job, points: usize) -> Result<Table, AllocError> {
        let grid = grid_for(alloc, job, points)?;
        let kerf = job.kerf.min(MAX_KERF);
        let mut counted = Vec::new(alloc);
        for want in &job.wants {
            counted.push(want.left > 0 && is_counted(kerf, &grid, want))?;
        }
        Ok(Table {
            grid,
            counted,
            worths: Vec::new(alloc),
            made: None,
        })
    }

    /// The work that a table takes, as a worker counts it: it grows by the points of both axes and
    /// by their sum.
    pub fn work(&self) -> u64 {
        let across = self.grid.across.len() as u64;
        let down = self.grid.down.len() as u64;
        let all = across.saturating_mul(down);
        all.saturating_mul(across.saturating_add(down)) / POINTS_A_WORK
    }

    /// Makes the table by these worths; those of wants that aren't in it become 0.
    pub fn make(&mut self, alloc: Global, job: &Job, worths: &mut [u32]) -> Result<(), AllocError> {
        for (worth, is_in) in worths.iter_mut().zip(&self.counted) {
            if !*is_in {
                *worth = 0;
            }
        }
        let mut wants: Vec<Want> = Vec::new(alloc);
        for (want, worth) in job.wants.iter().zip(worths.iter()) {
            if *worth > 0 {
                let mut one = *want;
                one.worth = *worth;
                wants.push(one)?;
            }
        }
        let kerf = job.kerf.min(MAX_KERF);
        self.worths = Vec::from_slice(alloc, worths)?;
        self.made = Some(ceilings(alloc, kerf, &self.grid, &wants)?);
        Ok(())
    }

    /// The classes of a unit of a size.
    fn classes(&self, job: &Job, size: usize) -> (usize, usize) {
        let (w, h) = job.sides_of(size);
        (class_of(&self.grid.across, w), class_of(&self.grid.down, h))
    }

    /// The worth at classes.
    fn worth(&self, place: (usize, usize)) -> u64 {
        match &self.made {
            Some(made) => made.worth(place.0, place.1),
            None => 0,
        }
    }

    /// What a unit of each size is worth at most.
    pub fn bests(&self, alloc: Global, job: &Job) -> Result<Vec<u64>, AllocError> {
        let mut bests = Vec::new(alloc);
        for size in 0..job.size_count() {
            bests.push(self.worth(self.classes(job, size)))?;
        }
        Ok(bests)
    }

    /// The place before one along an axis, if it is worth the same.
    fn lower(&self, place: (usize, usize), worth: u64) -> Option<(usize, usize)> {
        let (i, j) = place;
        if i > 0 && self.worth((i.saturating_sub(1), j)) == worth {
            return Some((i.saturating_sub(1), j));
        }
        if j > 0 && self.worth((i, j.saturating_sub(1))) == worth {
            return Some((i, j.saturating_sub(1)));
        }
        None
    }

    /// The places of the two parts of a cut that are worth so much together.
    fn parts(
        &self,
        alloc: Global,
        place: (usize, usize),
        worth: u64,
    ) -> Result<Option<((usize, usize), (usize, usize))>, AllocError> {
        let (i, j) = place;
        for pair in &pairs_of(alloc, &self.grid.across, self.grid.most_across, i)? {
            let (a, b) = ((pair.first as usize, j), (pair.second as usize, j));
            if self.worth(a).saturating_add(self.worth(b)) == worth {
                return Ok(Some((a, b)));
            }
        }
        for pair in &pairs_of(alloc, &self.grid.down, self.grid.most_down, j)? {
            let (a, b) = ((i, pair.first as usize), (i, pair.second as usize));
            if self.worth(a).saturating_add(self.worth(b)) == worth {
                return Ok(Some((a, b)));
            }
        }
        Ok(None)
    }

    /// The want that a place is worth alone.
    fn piece(&self, job: &Job, place: (usize, usize), worth: u64) -> Option<usize> {
        let w = high_of(&self.grid.across, self.grid.most_across, place.0);
        let h = high_of(&self.grid.down, self.grid.most_down, place.1);
        piece_at(&job.pieces, &self.worths, w, h, worth)
    }

    /// How many pieces of each want the table counts for a unit of a size.
    pub fn counts(&self, alloc: Global, job: &Job, size: usize) -> Result<Vec<u32>, AllocError> {
        let mut counts = vec![in alloc; 0u32; job.pieces.len()]?;
        let mut places = Vec::new(alloc);
        places.push(self.classes(job, size))?;
        for _ in 0..MAX_PLACES {
            let Some(place) = places.pop() else {
                return Ok(counts);
            };
            let worth = self.worth(place);
            if worth == 0 {
                continue;
            }
            if let Some(lower) = self.lower(place, worth) {
                places.push(lower)?;
            } else if let Some(want) = self.piece(job, place, worth) {
                if let Some(count) = counts.get_mut(want) {
                    *count = count.saturating_add(1);
                }
            } else if let Some((a, b)) = self.parts(alloc, place, worth)? {
                places.push(a)?;
                places.push(b)?;
            }
        }
        Ok(counts)
    }
}

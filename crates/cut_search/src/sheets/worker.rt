//! Fillings of sheets, and how much work a call has done.

use crate::sheets::dice::Dice;
use crate::sheets::hints::Hints;
use crate::sheets::job::{Job, pieces_in};
use crate::sheets::units::Plan;
use cut_fill_sheets::{Effort, fill};
use std::alloc::{AllocError, Global};

/// The beam of the very first plan.
pub const PLAIN_BEAM: usize = 4;

/// The beam of first plans, of the program's columns and of dives. A wider one takes longer and brings no more.
pub const WIDE_BEAM: usize = 24;

/// The beam where units are filled again and again.
pub const BEAM: usize = 20;

/// The points of a filling's guide.
const GUIDE_POINTS: usize = 96;

/// So much work a call does at most, in some 50 microseconds each.
pub const MAX_WORK: u64 = 500;

/// So much work is a slice of a course, a third of a call's.
pub const SLICE: u64 = 170;

/// So many looks of a filling are a worker's work.
const LOOKS_A_WORK: u64 = 1600;

/// A filling's guide takes a worker's work for so many kinds.
const KINDS_A_WORK: u64 = 3;

/// A filled unit.
#[derive(Drop)]
pub struct Filled {
    pub plan: Plan,
    /// What its pieces are worth.
    pub value: u64,
}

/// What fills sheets.
#[derive(Drop)]
pub struct Worker {
    pub job: Job,
    pub hints: Hints,
    pub dice: Dice,
    /// What the call has done so far.
    pub spent: u64,
    /// How many fillings were made in all.
    pub fillings: u64,
}

impl Worker {
    /// One that has filled nothing.
    pub fn new(job: Job, hints: Hints, seed: u64) -> Worker {
        Worker {
            job,
            hints,
            dice: Dice::new(seed),
            spent: 0,
            fillings: 0,
        }
    }

    /// Counts a filling of so many pieces: its time grows by the beam, by the kinds and by the
    /// pieces, and its guide takes some too.
    fn count_filling(&mut self, beam: usize, kinds: u64, pieces: u64) {
        let wide = (beam as u64).saturating_mul(kinds.saturating_add(10));
        let work = wide.saturating_mul(pieces.saturating_add(5)) / LOOKS_A_WORK;
        let guide = (kinds / KINDS_A_WORK).saturating_add(1);
        self.spent = self.spent.saturating_add(work).saturating_add(guide);
        self.fillings = self.fillings.saturating_add(1);
    }

    /// Counts other work.
    pub fn count_work(&mut self, work: u64) {
        self.spent = self.spent.saturating_add(work);
    }

    /// A filling of a rectangle that is a part of a unit of a size, in so many stages.
    pub fn fill_part(
        &mut self,
        alloc: Global,
        size: usize,
        sides: (u32, u32),
        left: &[u32],
        values: &[u64],
        effort: Effort,
    ) -> Result<Filled, AllocError> {
        let (w, h) = sides;
        let filling = fill(alloc, &self.job.pieces, left, values, w, h, effort)?;
        let kinds = left.iter().filter(|count| **count > 0).count() as u64;
        self.count_filling(effort.beam, kinds, pieces_in(&filling.counts));
        Ok(Filled {
            plan: Plan {
                size,
                shape: filling.shape,
                counts: filling.counts,
            },
            value: filling.value,
        })
    }

    /// The effort of a beam, within the job's stages.
    pub fn effort(&self, beam: usize) -> Effort {
        Effort {
            beam,
            points: GUIDE_POINTS,
            stages: self.job.stages,
        }
    }

    /// A filling of a unit of a size.
    pub fn fill(
        &mut self,
        alloc: Global,
        size: usize,
        left: &[u32],
        values: &[u64],
        beam: usize,
    ) -> Result<Filled, AllocError> {
        let sides = self.job.sides_of(size);
        let effort = self.effort(beam);
        self.fill_part(alloc, size, sides, left, values, effort)
    }
}

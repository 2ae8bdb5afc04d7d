//! A beam search over blocks at exact places: each level places one block more in each of its states, and the best ones of
//! all that come of that go on.

use crate::blocks::{Block, Blocks, Way};
use crate::choice::{Child, Choice};
use crate::guide::Guide;
use crate::space::{Space, Trail};
use crate::states::{CUTS, Rules, State, Step, cuts_of};
use cut_measure::Axis;
use std::alloc::{AllocError, Global};
use std::mem;

/// A beam has so many states at most.
const MAX_BEAM: usize = 100;

/// So many times the states of a beam are tried, as some are alike.
const TRIED: usize = 3;

/// A search looks at about so many ways and blocks at most. Once it has looked at half of them, the beam grows narrower, down to
/// one state.
const MAX_LOOKED: u64 = 2_000_000;

/// A space that a block is placed in. Each of the trails leads to a block's own rectangle, and the tables are those of what is over.
#[derive(Clone, Copy)]
struct Seat<'a> {
    /// The place of the state.
    state: usize,
    space: Space,
    /// The places of the space's sides in the guide.
    across: usize,
    down: usize,
    cuts: u32,
    /// The value of what was placed, and what the other spaces may be worth.
    base: u64,
    /// How many pieces of the way are left.
    left: u32,
    /// First along the width.
    columns: Order<'a>,
    /// First along the height.
    rows: Order<'a>,
}

/// An order of the two cuts that part a block from what is over.
#[derive(Clone, Copy)]
struct Order<'a> {
    /// The trail with the first cut.
    first: Trail,
    /// The trail with both cuts.
    both: Trail,
    /// What is over of the full side may be worth so much.
    full: &'a [u32],
    /// What is over beside the block may be worth so much.
    beside: &'a [u32],
}

/// States of one level. Those behind the used ones wait for their use.
#[derive(Drop)]
struct Level {
    states: Vec<State>,
    used: usize,
}

/// The steps of a search, and the best of them.
#[derive(Drop)]
struct Record {
    steps: Vec<Step>,
    /// The number of the step after which the value was greatest.
    best: usize,
    value: u64,
}

/// The blocks of the best filling in the order in which they were placed, and its value.
#[derive(Drop)]
pub(crate) struct Found {
    /// Each with its number.
    pub path: Vec<(usize, Step)>,
    pub value: u64,
}

/// A beam that is narrower, the more was looked at.
fn narrowed(beam: usize, looked: u64) -> usize {
    let half = MAX_LOOKED / 2;
    let left = MAX_LOOKED.saturating_sub(looked).min(half);
    let states = (beam as u64).saturating_mul(left) / half;
    usize::try_from(states).unwrap_or(beam).max(1)
}

impl Rules<'_> {
    // The order whose first cut is along an axis, in a space at the end of a trail.
    fn order(&self, trail: Trail, axis: Axis) -> Order<'_> {
        let first = trail.with(axis);
        let both = first.with(match axis {
            Axis::X => Axis::Y,
            Axis::Y => Axis::X,
        });
        Order {
            first,
            both,
            full: self.guide.table(first, self.stages),
            beside: self.guide.table(both, self.stages),
        }
    }

    // Whether a block's pieces may be cut at the end of a trail.
    #[inline]
    fn allows_block(&self, trail: Trail, block: &Block) -> bool {
        self.allows(trail, block.extent.across > 1, block.extent.down > 1)
    }

    // Rates a block in a part that is longer or higher, both ways of parting it.
    #[inline]
    fn rate_parted(
        &self,
        seat: &Seat<'_>,
        place: usize,
        block: &Block,
        choice: &mut Choice,
    ) -> Result<(), AllocError> {
        let guide = self.guide;
        let (is_over_w, is_over_h) = (block.w < seat.space.w, block.h < seat.space.h);
        let across = guide.across(seat.space.w.saturating_sub(block.w));
        let down = guide.down(seat.space.h.saturating_sub(block.h));
        let base = seat.base.saturating_add(block.value);
        let rows = &seat.rows;
        let own = if is_over_w { rows.both } else { rows.first };
        if is_over_h && self.allows_block(own, block) {
            let full = guide.rounded(rows.full, seat.across, down);
            let beside = guide.rounded(rows.beside, across, block.down);
            let rating = base.saturating_add(guide.worth(full.saturating_add(beside)));
            choice.offer(Child::new(rating, seat.state, place, false))?;
        }
        let columns = &seat.columns;
        let own = if is_over_h {
            columns.both
        } else {
            columns.first
        };
        if is_over_w && self.allows_block(own, block) {
            let full = guide.rounded(columns.full, across, seat.down);
            let beside = guide.rounded(columns.beside, block.across, down);
            let rating = base.saturating_add(guide.worth(full.saturating_add(beside)));
            choice.offer(Child::new(rating, seat.state, place, true))?;
        }
        Ok(())
    }

    // Rates a block that fits.
    #[inline]
    fn rate_block(
        &self,
        seat: &Seat<'_>,
        place: usize,
        block: &Block,
        choice: &mut Choice,
    ) -> Result<(), AllocError> {
        if seat.cuts.saturating_add(cuts_of(&seat.space, block)) > CUTS {
            return Ok(());
        }
        if block.w < seat.space.w || block.h < seat.space.h {
            return self.rate_parted(seat, place, block, choice);
        }
        if !self.allows_block(seat.space.trail, block) {
            return Ok(());
        }
        let rating = seat.base.saturating_add(block.value);
        choice.offer(Child::new(rating, seat.state, place, false))
    }

    // Rates the blocks from one place to another, as long as each that follows is larger.
    fn rate_run(
        &self,
        seat: &Seat<'_>,
        from: usize,
        to: usize,
        choice: &mut Choice,
    ) -> Result<u64, AllocError> {
        let mut looked = 0u64;
        let blocks = self.blocks.get(from..to).unwrap_or(&[]);
        for (place, block) in (from..to).zip(blocks) {
            if !seat.holds(block) {
                break;
            }
            self.rate_block(seat, place, block, choice)?;
            looked = looked.saturating_add(1);
        }
        Ok(looked)
    }

    // Rates the grids of a way.
    fn rate_grids(
        &self,
        seat: &Seat<'_>,
        way: &Way,
        choice: &mut Choice,
    ) -> Result<u64, AllocError> {
        let mut looked = 0u64;
        let blocks = self.blocks.get(way.grids..way.end).unwrap_or(&[]);
        for (place, block) in (way.grids..way.end).zip(blocks) {
            if seat.holds(block) {
                self.rate_block(seat, place, block, choice)?;
            }
            looked = looked.saturating_add(1);
        }
        Ok(looked)
    }

    // Rates the blocks of a way.
    fn rate_way(&self, seat: &Seat<'_>, way: &Way, choice: &mut Choice) -> Result<u64, AllocError> {
        let rows = self.rate_run(seat, way.rows, way.columns, choice)?;
        let columns = self.rate_run(seat, way.columns, way.grids, choice)?;
        let grids = self.rate_grids(seat, way, choice)?;
        Ok(rows.saturating_add(columns).saturating_add(grids))
    }

    // Rates all blocks in the next space of a state, and returns how many were looked at.
    fn rate(&self, place: usize, state: &State, choice: &mut Choice) -> Result<u64, AllocError> {
        let Some(space) = state.spaces.last() else {
            return Ok(0);
        };
        let mut seat = self.seat(place, state, *space);
        let mut looked = self.ways.len() as u64;
        for way in self.ways {
            seat.left = state.left.get(way.piece).copied().unwrap_or(0);
            if seat.left > 0 && space.holds(way.w, way.h) {
                looked = looked.saturating_add(self.rate_way(&seat, way, choice)?);
            }
        }
        Ok(looked)
    }

    // The seat in the next space of a state.
    fn seat(&self, place: usize, state: &State, space: Space) -> Seat<'_> {
        let mut base = state.value;
        for other in state.spaces.iter().rev().skip(1) {
            base = base.saturating_add(self.guide.space(other, self.stages));
        }
        Seat {
            state: place,
            space,
            across: self.guide.across(space.w),
            down: self.guide.down(space.h),
            cuts: state.cuts,
            base,
            left: 0,
            columns: self.order(space.trail, Axis::X),
            rows: self.order(space.trail, Axis::Y),
        }
    }
}

impl Seat<'_> {
    // Whether a block fits, and its pieces are left.
    #[inline]
    fn holds(&self, block: &Block) -> bool {
        self.space.holds(block.w, block.h) && block.pieces <= self.left
    }
}

impl Level {
    fn new(alloc: Global) -> Level {
        Level {
            states: Vec::new(alloc),
            used: 0,
        }
    }

    // The states that are used.
    fn states(&self) -> &[State] {
        self.states.as_slice().get(..self.used).unwrap_or(&[])
    }

    // Sees to a state behind the used ones.
    fn make_spare(&mut self, alloc: Global) -> Result<(), AllocError> {
        if self.used >= self.states.len() {
            self.states.push(State::empty(alloc))?;
        }
        Ok(())
    }
}

impl Record {
    // Counts a step that led to a state, which is numbered by it.
    fn push(&mut self, step: Step, value: u64) -> Result<(), AllocError> {
        self.steps.push(step)?;
        if value > self.value {
            self.value = value;
            self.best = self.steps.len();
        }
        Ok(())
    }

    // The path of the steps to the best one, each with its number.
    fn found(&self, alloc: Global) -> Result<Found, AllocError> {
        let mut path = Vec::new(alloc);
        let mut number = self.best;
        for _ in 0..self.steps.len() {
            let Some(place) = number.checked_sub(1) else {
                break;
            };
            let Some(step) = self.steps.get(place) else {
                break;
            };
            path.push((number, *step))?;
            number = step.before;
        }
        path.reverse();
        Ok(Found {
            path,
            value: self.value,
        })
    }
}

/// A search that goes on level by level.
#[derive(Drop)]
struct Search {
    alloc: Global,
    record: Record,
    level: Level,
    next: Level,
    /// The hashes of the next level's states.
    seen: Vec<u64>,
    choice: Choice,
    beam: usize,
    /// How many ways and blocks were looked at.
    looked: u64,
}

impl Search {
    fn new(alloc: Global, beam: usize) -> Search {
        Search {
            alloc,
            record: Record {
                steps: Vec::new(alloc),
                best: 0,
                value: 0,
            },
            level: Level::new(alloc),
            next: Level::new(alloc),
            seen: Vec::new(alloc),
            choice: Choice::new(alloc, beam.saturating_mul(TRIED)),
            beam,
            looked: 0,
        }
    }

    // Begins with the whole rectangle.
    fn begin(&mut self, rules: &Rules<'_>, left: Vec<u32>, whole: Space) -> Result<(), AllocError> {
        let mut state = State::empty(self.alloc);
        state.left = left;
        state.free(rules, whole)?;
        self.level.states.push(state)?;
        self.level.used = 1;
        Ok(())
    }

    // Rates the children of all states of the level.
    fn rate(&mut self, rules: &Rules<'_>) -> Result<(), AllocError> {
        self.choice.clear();
        for (place, state) in self.level.states().iter().enumerate() {
            let looked = rules.rate(place, state, &mut self.choice)?;
            self.looked = self.looked.saturating_add(looked);
        }
        Ok(())
    }

    // Makes a state of the next level, unless there is one like it.
    fn take(&mut self, rules: &Rules<'_>, child: Child) -> Result<(), AllocError> {
        self.next.make_spare(self.alloc)?;
        let Some(state) = self.next.states.get_mut(self.next.used) else {
            return Ok(());
        };
        let Some(from) = self.level.states.get(child.state) else {
            return Ok(());
        };
        let Some(block) = rules.blocks.get(child.block) else {
            return Ok(());
        };
        self.looked = self.looked.saturating_add(rules.ways.len() as u64);
        state.copy_from(from)?;
        let first = if child.along_width { Axis::X } else { Axis::Y };
        let number = self.record.steps.len().saturating_add(1);
        let Some(space) = state.place(rules, block, first, number)? else {
            return Ok(());
        };
        if self.seen.contains(&state.hash) {
            return Ok(());
        }
        self.seen.push(state.hash)?;
        let step = Step {
            before: from.step,
            block: child.block,
            first,
            space,
        };
        self.record.push(step, state.value)?;
        if !state.spaces.is_empty() {
            self.next.used = self.next.used.saturating_add(1);
        }
        Ok(())
    }

    // Goes on to the next level with the best children.
    fn advance(&mut self, rules: &Rules<'_>) -> Result<(), AllocError> {
        let beam = narrowed(self.beam, self.looked);
        let children = Vec::from_slice(self.alloc, self.choice.best())?;
        self.next.used = 0;
        self.seen.clear();
        for child in &children {
            if self.next.used >= beam {
                break;
            }
            self.take(rules, *child)?;
        }
        mem::swap(&mut self.level, &mut self.next);
        Ok(())
    }

    // Goes on until no state has a space that anything fits.
    fn run(&mut self, rules: &Rules<'_>) -> Result<(), AllocError> {
        for _ in 0..CUTS.saturating_add(1) {
            if self.level.used == 0 {
                break;
            }
            self.rate(rules)?;
            self.advance(rules)?;
        }
        Ok(())
    }
}

/// The best filling that a beam finds of a rectangle, whose blocks and guide these are.
pub(crate) fn best_found(
    alloc: Global,
    blocks: &Blocks,
    guide: &Guide,
    left: Vec<u32>,
    whole: Space,
    stages: Option<u32>,
    beam: usize,
) -> Result<Found, AllocError> {
    let rules = Rules {
        ways: &blocks.ways,
        blocks: &blocks.blocks,
        guide,
        stages,
        least_w: blocks.ways.iter().map(|way| way.w).min().unwrap_or(0),
        least_h: blocks.ways.iter().map(|way| way.h).min().unwrap_or(0),
    };
    let mut search = Search::new(alloc, beam.clamp(1, MAX_BEAM));
    search.begin(&rules, left, whole)?;
    search.run(&rules)?;
    search.record.found(alloc)
}

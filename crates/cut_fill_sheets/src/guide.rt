//! What a free rectangle may be worth: the best of cuts at pieces' sides by unlimited counts, for all pairs of points of both
//! sides (Gilmore and Gomory 1965, over the sides' points alone). It guides the search, and bounds nothing.

use crate::blocks::Way;
use crate::places::{Cuts, Pair, Places};
use crate::space::{Space, Trail};
use cut_measure::Axis;
use std::alloc::{AllocError, Global};

/// With more stages to come than these, a rectangle is guided as without a limit.
const MAX_STAGED: u32 = 2;

/// Fewer points of a side than these aren't taken.
const MIN_POINTS: usize = 16;

/// More points of a side than these aren't taken.
const MAX_GUIDE_POINTS: usize = 254;

/// Worths by the places of both sides, those of a width in a row.
type Worths = Vec<u32>;

/// What rectangles are worth with so many stages to come.
#[derive(Drop)]
struct Staged {
    /// The last cut was along the width.
    across: Worths,
    /// The last cut was along the height.
    down: Worths,
    /// There is no cut yet.
    uncut: Worths,
}

/// The points of both sides, and how they are cut.
#[derive(Drop)]
struct Grid {
    across: Places,
    down: Places,
    columns: Cuts,
    rows: Cuts,
}

/// What rectangles may be worth.
#[derive(Drop)]
pub(crate) struct Guide {
    grid: Grid,
    /// How many heights there are.
    height: usize,
    /// Without a limit of stages.
    free: Worths,
    /// By the stages to come, 0 first.
    staged: Vec<Staged>,
    /// Worths are rounded down by so many bits.
    shift: u32,
}

/// Raises each worth to another.
fn raise(worths: &mut [u32], others: &[u32]) {
    if others.len() < worths.len() {
        return;
    }
    for place in 0..worths.len() {
        worths[place] = worths[place].max(others[place]);
    }
}

/// Raises each worth to a sum of two others.
fn raise_to_sums(worths: &mut [u32], others: &[u32], more: &[u32]) {
    if others.len() < worths.len() || more.len() < worths.len() {
        return;
    }
    for place in 0..worths.len() {
        let sum = others[place].wrapping_add(more[place]);
        worths[place] = worths[place].max(sum);
    }
}

/// The best of a place's cuts, where the worths of the places before it are known.
fn best_cut(worths: &[u32], pairs: &[Pair]) -> u32 {
    let mut best = 0;
    for pair in pairs {
        if let (Some(short), Some(long)) = (worths.get(pair.short), worths.get(pair.long)) {
            best = short.wrapping_add(*long).max(best);
        }
    }
    best
}

/// Raises the worths of a width by cuts along the height, from a place on. Those before it are raised already.
fn cut_heights(worths: &mut [u32], rows: &Cuts, first: usize) {
    let mut last = 0;
    for place in first..worths.len() {
        let best = best_cut(worths, rows.of(place)).max(last);
        last = worths[place].max(best);
        worths[place] = last;
    }
}

/// The worths from those of a width on.
fn worths_from(worths: &[u32], start: usize) -> &[u32] {
    worths.get(start..).unwrap_or(&[])
}

/// Raises the worths of a width by those of the width before it, the last one of those before, and by cuts along the width.
fn cut_width(worths: &mut [u32], before: &[u32], pairs: &[Pair]) {
    let height = worths.len();
    let last = worths_from(before, before.len().saturating_sub(height));
    raise(worths, last);
    for pair in pairs {
        let short = worths_from(before, pair.short.wrapping_mul(height));
        let long = worths_from(before, pair.long.wrapping_mul(height));
        raise_to_sums(worths, short, long);
    }
}

/// The first place of a width whose worth isn't that of the width before it. What is worth no more than there gains nothing by
/// cuts along the height.
fn first_change(worths: &[u32], before: &[u32]) -> usize {
    let last = worths_from(before, before.len().saturating_sub(worths.len()));
    for (place, (worth, other)) in worths.iter().zip(last).enumerate() {
        if *worth != *other {
            return place;
        }
    }
    worths.len()
}

/// The worth rounded down by so many bits.
fn rounded_down(worth: u64, shift: u32) -> u32 {
    let rounded = worth.checked_shr(shift).unwrap_or(0);
    u32::try_from(rounded).unwrap_or(u32::MAX)
}

/// By so many bits worths are rounded down, so that no rectangle up to these sides is worth 2^32: it is worth no more than its
/// area at the highest price of any way.
fn shift_of(ways: &[Way], w: u32, h: u32) -> u32 {
    let whole = u128::from(w).saturating_mul(u128::from(h));
    let mut most = 1u128;
    for way in ways {
        let area = u128::from(way.w).saturating_mul(u128::from(way.h)).max(1);
        let worth = u128::from(way.value).saturating_mul(whole) / area;
        most = worth.saturating_add(1).max(most);
    }
    let bits = u128::BITS.saturating_sub(most.leading_zeros());
    bits.saturating_sub(32)
}

/// The lengths of ways along an axis, rising.
fn lengths(alloc: Global, ways: &[Way], axis: Axis) -> Result<Vec<u32>, AllocError> {
    let mut lengths = Vec::new(alloc);
    for way in ways {
        lengths.push(match axis {
            Axis::X => way.w,
            Axis::Y => way.h,
        })?;
    }
    lengths.sort_unstable();
    lengths.dedup();
    Ok(lengths)
}

impl Grid {
    fn new(alloc: Global, ways: &[Way], w: u32, h: u32, most: usize) -> Result<Grid, AllocError> {
        let most = most.clamp(MIN_POINTS, MAX_GUIDE_POINTS);
        let widths = lengths(alloc, ways, Axis::X)?;
        let heights = lengths(alloc, ways, Axis::Y)?;
        let across = Places::new(alloc, &widths, w, most)?;
        let down = Places::new(alloc, &heights, h, most)?;
        let columns = across.cuts(alloc, &widths)?;
        let rows = down.cuts(alloc, &heights)?;
        Ok(Grid {
            across,
            down,
            columns,
            rows,
        })
    }

    // The place of a rectangle's worth.
    #[inline]
    fn cell(&self, across: usize, down: usize) -> usize {
        across.wrapping_mul(self.down.len()).wrapping_add(down)
    }

    // The worths of single pieces.
    fn pieces(&self, alloc: Global, ways: &[Way], shift: u32) -> Result<Worths, AllocError> {
        let cells = self.across.len().saturating_mul(self.down.len());
        let mut worths = vec![in alloc; 0u32; cells]?;
        for way in ways {
            let cell = self.cell(self.across.of(way.w), self.down.of(way.h));
            if let Some(worth) = worths.get_mut(cell) {
                *worth = rounded_down(way.value, shift).max(*worth);
            }
        }
        Ok(worths)
    }

    // Raises worths by cuts along the width, along the height, or along both.
    fn cut(&self, worths: &mut [u32], along_width: bool, along_height: bool) {
        let height = self.down.len();
        for place in 1..self.across.len() {
            let start = place.saturating_mul(height);
            let Some((before, rest)) = worths.split_at_mut_checked(start) else {
                return;
            };
            let Some(row) = rest.get_mut(..height) else {
                return;
            };
            let mut first = 0;
            if along_width {
                cut_width(row, before, self.columns.of(place));
                first = first_change(row, before);
            }
            if along_height {
                cut_heights(row, &self.rows, first);
            }
        }
    }

    // The worths of another table with a run of cuts along an axis.
    fn run(&self, alloc: Global, worths: &[u32], axis: Axis) -> Result<Worths, AllocError> {
        let mut run = Vec::from_slice(alloc, worths)?;
        self.cut(&mut run, axis == Axis::X, axis == Axis::Y);
        Ok(run)
    }

    // The tables with no stage to come: a piece has to have its place exactly, but for a run that is going on.
    fn last_stage(&self, alloc: Global, pieces: Worths) -> Result<Staged, AllocError> {
        Ok(Staged {
            across: self.run(alloc, &pieces, Axis::X)?,
            down: self.run(alloc, &pieces, Axis::Y)?,
            uncut: pieces,
        })
    }

    // The tables with one stage more to come.
    fn next_stage(&self, alloc: Global, stage: &Staged) -> Result<Staged, AllocError> {
        let mut uncut = Vec::from_slice(alloc, &stage.across)?;
        raise(&mut uncut, &stage.down);
        Ok(Staged {
            across: self.run(alloc, &stage.down, Axis::X)?,
            down: self.run(alloc, &stage.across, Axis::Y)?,
            uncut,
        })
    }

    // The tables of all numbers of stages that are limited.
    fn staged(
        &self,
        alloc: Global,
        pieces: Worths,
        stages: u32,
    ) -> Result<Vec<Staged>, AllocError> {
        let mut staged = Vec::new(alloc);
        let mut stage = self.last_stage(alloc, pieces)?;
        for _ in 0..stages.min(MAX_STAGED) {
            let next = self.next_stage(alloc, &stage)?;
            staged.push(stage)?;
            stage = next;
        }
        staged.push(stage)?;
        Ok(staged)
    }
}

impl Guide {
    /// What rectangles up to these sides may be worth by the ways, with some points a side, and at most so many stages.
    pub(crate) fn new(
        alloc: Global,
        ways: &[Way],
        w: u32,
        h: u32,
        points: usize,
        stages: Option<u32>,
    ) -> Result<Guide, AllocError> {
        let grid = Grid::new(alloc, ways, w, h, points)?;
        let shift = shift_of(ways, w, h);
        let mut free = grid.pieces(alloc, ways, shift)?;
        let staged = match stages {
            Some(stages) => {
                let pieces = Vec::from_slice(alloc, &free)?;
                grid.staged(alloc, pieces, stages)?
            }
            None => Vec::new(alloc),
        };
        grid.cut(&mut free, true, true);
        Ok(Guide {
            height: grid.down.len(),
            grid,
            free,
            staged,
            shift,
        })
    }

    /// The place of a width.
    #[inline]
    pub(crate) fn across(&self, w: u32) -> usize {
        self.grid.across.of(w)
    }

    /// The place of a height.
    #[inline]
    pub(crate) fn down(&self, h: u32) -> usize {
        self.grid.down.of(h)
    }

    /// The table of rectangles at the end of a trail, with at most so many stages in all; without any worth where the trail has
    /// more.
    pub(crate) fn table(&self, trail: Trail, most_stages: Option<u32>) -> &[u32] {
        let Some(most) = most_stages else {
            return &self.free;
        };
        let Some(to_come) = most.checked_sub(trail.stages) else {
            return &[];
        };
        let Some(staged) = self.staged.get(to_come as usize) else {
            return &self.free;
        };
        match trail.last {
            Some(Axis::X) => &staged.across,
            Some(Axis::Y) => &staged.down,
            None => &staged.uncut,
        }
    }

    /// What a rectangle with these places may be worth by a table, rounded down by some bits.
    #[inline]
    pub(crate) fn rounded(&self, worths: &[u32], across: usize, down: usize) -> u64 {
        let cell = across.wrapping_mul(self.height).wrapping_add(down);
        u64::from(worths.get(cell).copied().unwrap_or(0))
    }

    /// What a rounded worth stands for.
    #[inline]
    pub(crate) fn worth(&self, rounded: u64) -> u64 {
        rounded.checked_shl(self.shift).unwrap_or(0)
    }

    /// What a space may be worth, with at most so many stages in all.
    pub(crate) fn space(&self, space: &Space, most_stages: Option<u32>) -> u64 {
        let worths = self.table(space.trail, most_stages);
        let rounded = self.rounded(worths, self.across(space.w), self.down(space.h));
        self.worth(rounded)
    }
}

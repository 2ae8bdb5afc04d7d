//! Fillings: one rectangle filled with pieces of limited counts. All sides have the kerf added, the rectangle's too, so that the
//! kerf needs no care here.

use crate::beam::{Found, best_found};
use crate::blocks::{Block, Blocks, Way};
use crate::guide::Guide;
use crate::piece::{Piece, Stock};
use crate::shape::{Mark, Shape};
use crate::space::Space;
use crate::states::Step;
use cut_measure::Axis;
use std::alloc::{AllocError, Global};

/// Of a rectangle with a longer side, in tenths of a millimetre, nothing is filled: no unit has one.
const MAX_SIDE: u32 = 262_144;

/// How hard a filling is looked for.
#[derive(Clone, Copy)]
pub struct Effort {
    /// How many states go on at once, 1 to 100.
    pub beam: usize,
    /// About how many points of a side the guide tells apart, 16 to 254.
    pub points: usize,
    /// The most stages, which are runs of parallel cuts on the way to a piece, trims included; None is without a limit.
    pub stages: Option<u32>,
}

/// A filling of a rectangle.
#[derive(Drop)]
pub struct Filling {
    pub shape: Shape,
    /// How many pieces of each kind it has.
    pub counts: Vec<u32>,
    /// The sum of their values.
    pub value: u64,
}

/// What is written next of a tree.
#[derive(Clone, Copy)]
struct Spot {
    /// The number of the step that left the part free.
    step: usize,
    is_full: bool,
}

/// Writes the tree of the blocks that were placed.
#[derive(Clone, Copy)]
struct Scribe<'a> {
    ways: &'a [Way],
    blocks: &'a [Block],
    path: &'a [(usize, Step)],
}

/// A run of equal parts along an axis.
#[derive(Clone, Copy)]
struct Run {
    axis: Axis,
    side: u32,
    count: u32,
}

impl Run {
    // Parts off one more part, unless it is the last.
    fn cut(&self, place: u32, marks: &mut Vec<Mark>) -> Result<(), AllocError> {
        if place.saturating_add(1) < self.count {
            marks.push(Mark::Cut(self.axis, self.side))?;
        }
        Ok(())
    }
}

/// Writes a grid of pieces: runs of runs.
fn write_grid(
    outer: Run,
    inner: Run,
    piece: Mark,
    marks: &mut Vec<Mark>,
) -> Result<(), AllocError> {
    for place in 0..outer.count {
        outer.cut(place, marks)?;
        for within in 0..inner.count {
            inner.cut(within, marks)?;
            marks.push(piece)?;
        }
    }
    Ok(())
}

impl Scribe<'_> {
    // The step that placed a block at a spot, and its number.
    fn step_at(&self, spot: Spot) -> Option<(usize, Step)> {
        for (number, step) in self.path {
            if step.space.step == spot.step && step.space.is_full == spot.is_full {
                return Some((*number, *step));
            }
        }
        None
    }

    // Writes the pieces of a block. The cuts across the axis of the last cut come last, so that there are fewer stages.
    fn write_block(
        &self,
        block: &Block,
        last: Option<Axis>,
        marks: &mut Vec<Mark>,
    ) -> Result<(), AllocError> {
        let Some(way) = self.ways.get(block.way) else {
            return Ok(());
        };
        let columns = Run {
            axis: Axis::X,
            side: way.w,
            count: block.extent.across,
        };
        let rows = Run {
            axis: Axis::Y,
            side: way.h,
            count: block.extent.down,
        };
        let piece = Mark::Piece(way.piece, way.turned);
        if last == Some(Axis::X) {
            write_grid(columns, rows, piece, marks)
        } else {
            write_grid(rows, columns, piece, marks)
        }
    }

    // Writes a step's cuts and block, and returns which of the parts over, beside the block and of the full side, follow.
    fn write_step(&self, step: &Step, marks: &mut Vec<Mark>) -> Result<(bool, bool), AllocError> {
        let Some(block) = self.blocks.get(step.block) else {
            marks.push(Mark::Rest)?;
            return Ok((false, false));
        };
        let parted = step.space.parted(block.w, block.h, step.first);
        let (is_over_w, is_over_h) = (block.w < step.space.w, block.h < step.space.h);
        let width = (Axis::X, block.w, is_over_w);
        let height = (Axis::Y, block.h, is_over_h);
        let (first, second) = match step.first {
            Axis::X => (width, height),
            Axis::Y => (height, width),
        };
        for (axis, at, is_cut) in [first, second] {
            if is_cut {
                marks.push(Mark::Cut(axis, at))?;
            }
        }
        self.write_block(block, parted.own.trail.last, marks)?;
        Ok((second.2, first.2))
    }

    // Writes the tree, spot by spot: what is written of a part stands together.
    fn write(&self, alloc: Global) -> Result<Vec<Mark>, AllocError> {
        let mut marks = Vec::new(alloc);
        let mut spots = Vec::new(alloc);
        spots.push(Spot {
            step: 0,
            is_full: true,
        })?;
        for _ in 0..self.path.len().saturating_mul(2).saturating_add(1) {
            let Some(spot) = spots.pop() else {
                break;
            };
            let Some((number, step)) = self.step_at(spot) else {
                marks.push(Mark::Rest)?;
                continue;
            };
            let (is_beside, is_full) = self.write_step(&step, &mut marks)?;
            for (is_over, is_full) in [(is_full, true), (is_beside, false)] {
                if is_over {
                    spots.push(Spot {
                        step: number,
                        is_full,
                    })?;
                }
            }
        }
        Ok(marks)
    }
}

/// What there is of each piece.
fn stocks_of(
    alloc: Global,
    pieces: &[Piece],
    left: &[u32],
    values: &[u64],
) -> Result<Vec<Stock>, AllocError> {
    let mut stocks = Vec::new(alloc);
    for (piece, (left, value)) in pieces.iter().zip(left.iter().zip(values)) {
        stocks.push(Stock {
            piece: *piece,
            left: *left,
            value: *value,
        })?;
    }
    Ok(stocks)
}

/// A filling without a piece.
fn empty(alloc: Global, pieces: &[Piece]) -> Result<Filling, AllocError> {
    Ok(Filling {
        shape: Shape::empty(alloc)?,
        counts: vec![in alloc; 0u32; pieces.len()]?,
        value: 0,
    })
}

/// The filling of the blocks that a search placed.
fn filling_of(
    alloc: Global,
    blocks: &Blocks,
    found: &Found,
    kinds: usize,
) -> Result<Filling, AllocError> {
    let scribe = Scribe {
        ways: &blocks.ways,
        blocks: &blocks.blocks,
        path: &found.path,
    };
    let shape = Shape::of(scribe.write(alloc)?);
    let counts = shape.counts(alloc, kinds)?;
    Ok(Filling {
        shape,
        counts,
        value: found.value,
    })
}

/// The best filling that a beam search finds of a rectangle of these sides, within what is left. `left` and `values` have a number
/// for each piece; one without, or of value 0, isn't placed.
pub fn fill(
    alloc: Global,
    pieces: &[Piece],
    left: &[u32],
    values: &[u64],
    w: u32,
    h: u32,
    effort: Effort,
) -> Result<Filling, AllocError> {
    if w.max(h) > MAX_SIDE {
        return empty(alloc, pieces);
    }
    let stocks = stocks_of(alloc, pieces, left, values)?;
    let mut blocks = Blocks::new(alloc, &stocks, w, h)?;
    if blocks.ways.is_empty() {
        return empty(alloc, pieces);
    }
    let guide = Guide::new(alloc, &blocks.ways, w, h, effort.points, effort.stages)?;
    blocks.look_up(&guide);
    let left = Vec::from_slice(alloc, left)?;
    let whole = Space::whole(w, h);
    let found = best_found(
        alloc,
        &blocks,
        &guide,
        left,
        whole,
        effort.stages,
        effort.beam,
    )?;
    filling_of(alloc, &blocks, &found, pieces.len())
}

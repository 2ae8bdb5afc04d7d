//! What is to be cut of which sheets, in added sides: each side has the kerf added, so that pieces
//! tile.

use cut_fill_sheets::Piece;
use cut_measure::Size;
use cut_search_bars::order::Order;
use cut_search_bars::stock::SearchSize;
use cut_wants::wants::Want;
use std::alloc::{AllocError, Global};

/// What is to be cut, and the stock.
#[derive(Drop)]
pub struct Job {
    /// How wide the saw cuts, in tenths of a millimetre: 0 to 200.
    pub kerf: u32,
    /// So many stages a plan may have at most; None: without a limit.
    pub stages: Option<u32>,
    /// The step of the bound's tables, where one is given.
    pub step: Option<u32>,
    /// A piece of each want.
    pub pieces: Vec<Piece>,
    /// The wants. Nothing is left of those that no size holds.
    pub wants: Vec<Want>,
    /// The added sides of each size.
    pub sides: Vec<(u32, u32)>,
    /// Costs, numbers and cells.
    pub order: Order,
}

/// A side with the kerf added.
fn added(side: u32, kerf: u32) -> u32 {
    side.saturating_add(kerf).max(1)
}

/// Whether a piece fits a rectangle, one way or the other.
pub fn fits(piece: &Piece, w: u32, h: u32) -> bool {
    piece.w <= w && piece.h <= h || piece.may_turn && piece.h <= w && piece.w <= h
}

/// So many of each, at a value each.
pub fn sum_of(counts: &[u32], values: &[u64]) -> u64 {
    let mut sum = 0u64;
    for (count, value) in counts.iter().zip(values) {
        if *count > 0 {
            sum = sum.saturating_add(value.saturating_mul(*count as u64));
        }
    }
    sum
}

/// How many pieces.
pub fn pieces_in(counts: &[u32]) -> u64 {
    let mut sum = 0u64;
    for count in counts {
        sum = sum.saturating_add(*count as u64);
    }
    sum
}

/// Whether each count is within what is left.
pub fn is_within(counts: &[u32], left: &[u32]) -> bool {
    for (count, rest) in counts.iter().zip(left) {
        if count > rest {
            return false;
        }
    }
    true
}

/// The wants as they are planned: nothing is left of one that no size holds.
fn held_wants(
    alloc: Global,
    wants: &[Want],
    pieces: &[Piece],
    sides: &[(u32, u32)],
) -> Result<Vec<Want>, AllocError> {
    let mut held = Vec::new(alloc);
    for (want, piece) in wants.iter().zip(pieces) {
        let mut one = *want;
        if !sides.iter().any(|(w, h)| fits(piece, *w, *h)) {
            one.left = 0;
        }
        held.push(one)?;
    }
    Ok(held)
}

/// The pieces of wants.
fn pieces_of(alloc: Global, kerf: u32, wants: &[Want]) -> Result<Vec<Piece>, AllocError> {
    let mut pieces = Vec::new(alloc);
    for want in wants {
        pieces.push(Piece {
            w: added(want.size.w(), kerf),
            h: added(want.size.h(), kerf),
            may_turn: want.may_turn,
        })?;
    }
    Ok(pieces)
}

impl Job {
    /// The job of these wants and this stock.
    pub fn new(
        alloc: Global,
        kerf: u32,
        step: Option<u32>,
        stages: Option<u32>,
        sizes: &[SearchSize],
        wants: &[Want],
    ) -> Result<Job, AllocError> {
        let pieces = pieces_of(alloc, kerf, wants)?;
        let mut sides = Vec::new(alloc);
        for one in sizes {
            sides.push((added(one.size.w(), kerf), added(one.size.h(), kerf)))?;
        }
        let wants = held_wants(alloc, wants, &pieces, &sides)?;
        let mut order = Order::new(alloc, kerf, sizes, &wants)?;
        for (w, h) in &sides {
            order.unit_cells.push(*w as u64 * *h as u64)?;
        }
        for piece in &pieces {
            order.piece_cells.push(piece.w as u64 * piece.h as u64)?;
        }
        Ok(Job {
            kerf,
            stages,
            step,
            pieces,
            wants,
            sides,
            order,
        })
    }

    /// The sides of a unit of a size, for whoever adds the kerf himself.
    pub fn unit_size(&self, size: usize) -> Option<Size> {
        self.order.units.get(size).copied()
    }

    /// The added sides of a unit of a size.
    pub fn sides_of(&self, size: usize) -> (u32, u32) {
        self.sides.get(size).copied().unwrap_or((1, 1))
    }

    /// Whether a unit of a size holds a piece of a want.
    pub fn holds(&self, size: usize, want: usize) -> bool {
        let (w, h) = self.sides_of(size);
        match self.pieces.get(want) {
            Some(piece) => fits(piece, w, h),
            None => false,
        }
    }

    /// Whether a unit of a size holds one of the pieces.
    pub fn holds_some(&self, size: usize, counts: &[u32]) -> bool {
        let (w, h) = self.sides_of(size);
        for (count, piece) in counts.iter().zip(&self.pieces) {
            if *count > 0 && fits(piece, w, h) {
                return true;
            }
        }
        false
    }

    /// Whether a unit of a size might hold all of the pieces: each of them, and their area.
    pub fn might_hold(&self, size: usize, counts: &[u32]) -> bool {
        let (w, h) = self.sides_of(size);
        for (count, piece) in counts.iter().zip(&self.pieces) {
            if *count > 0 && !fits(piece, w, h) {
                return false;
            }
        }
        self.cells_in(counts) <= self.unit_cells(size)
    }

    /// The area of a unit.
    pub fn unit_cells(&self, size: usize) -> u64 {
        self.order.unit_cells.get(size).copied().unwrap_or(1).max(1)
    }

    /// The area that pieces take.
    pub fn cells_in(&self, counts: &[u32]) -> u64 {
        sum_of(counts, &self.order.piece_cells)
    }

    /// What a unit costs.
    pub fn cost(&self, size: usize) -> u64 {
        self.order.cost(size)
    }

    /// How many sizes there are.
    pub fn size_count(&self) -> usize {
        self.sides.len()
    }

    /// Whether there are as many units of a size as are wanted.
    pub fn is_endless(&self, size: usize) -> bool {
        self.order.limits.get(size).copied() == Some(None)
    }

    /// How many units of each size there are; the most where there is no end.
    pub fn numbers(&self, alloc: Global) -> Result<Vec<u32>, AllocError> {
        let mut numbers = Vec::new(alloc);
        for limit in &self.order.limits {
            numbers.push(limit.unwrap_or(u32::MAX))?;
        }
        Ok(numbers)
    }

    /// What all that is left costs at least by its area, at the least cost of area.
    pub fn least_by_cells(&self, left: &[u32]) -> u64 {
        self.order.least_by_cells(left)
    }
}

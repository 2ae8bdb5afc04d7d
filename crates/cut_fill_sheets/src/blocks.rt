//! Blocks: grids of equal pieces that are placed at once.

use crate::guide::Guide;
use crate::piece::{Piece, Stock};
use std::alloc::{AllocError, Global};

/// A plan has so many pieces at most, as it has one cut less at most.
const MAX_PIECES: u32 = 255;

/// A grid of several rows and several columns has so many pieces at most.
const MAX_IN_GRID: u32 = 12;

/// There are about so many rows and columns at most. Of more, lengths are left out evenly.
const MAX_BLOCKS: u32 = 6000;

/// Where rows of fewer lengths than these are taken, no grids are: there are so many ways.
const MIN_LENGTHS: u32 = 8;

/// One way of laying pieces of a kind, turned or not, and where its blocks stand in the list.
#[derive(Clone, Copy)]
pub(crate) struct Way {
    /// The place of the piece among the pieces.
    pub piece: usize,
    pub turned: bool,
    pub w: u32,
    pub h: u32,
    /// The value of one piece.
    pub value: u64,
    /// Rows stand from here on, each longer than the one before it; the first is a single piece.
    pub rows: usize,
    /// Columns stand from here on, each longer than the one before it.
    pub columns: usize,
    /// Grids stand from here on.
    pub grids: usize,
    /// The first block of the next way.
    pub end: usize,
    /// How many pieces fit along the width and along the height, as far as there are so many.
    most: Extent,
}

/// How many pieces a block has along its width and along its height.
#[derive(Clone, Copy)]
pub(crate) struct Extent {
    pub across: u32,
    pub down: u32,
}

/// A grid of pieces of one way.
#[derive(Clone, Copy)]
pub(crate) struct Block {
    pub w: u32,
    pub h: u32,
    pub value: u64,
    /// How many pieces it has, at most 255.
    pub pieces: u32,
    pub extent: Extent,
    /// The place of its way among the ways.
    pub way: usize,
    /// The places of its sides in the guide.
    pub across: usize,
    pub down: usize,
}

/// The blocks of one rectangle, those of a way together.
#[derive(Drop)]
pub(crate) struct Blocks {
    pub ways: Vec<Way>,
    pub blocks: Vec<Block>,
}

impl Extent {
    fn pieces(self) -> u32 {
        self.across.saturating_mul(self.down)
    }
}

impl Block {
    /// How many cuts part its pieces.
    pub(crate) fn cuts(&self) -> u32 {
        self.pieces.saturating_sub(1)
    }
}

/// One length of a row of so many pieces at most, where only so many lengths are taken: the first is 1, and the last the
/// greatest.
fn spread(place: u32, most: u32, lengths: u32) -> u32 {
    if most <= lengths {
        return place.saturating_add(1);
    }
    let over = most.saturating_sub(1).saturating_mul(place);
    let last = lengths.saturating_sub(1);
    over.checked_div(last).unwrap_or(0).saturating_add(1)
}

impl Way {
    // A way of a kind in a rectangle, where it fits there and something is left of it.
    fn new(place: usize, stock: &Stock, turned: bool, w: u32, h: u32) -> Option<Way> {
        let Piece {
            w: mut own_w,
            h: mut own_h,
            may_turn,
        } = stock.piece;
        if turned {
            if !may_turn || own_w == own_h {
                return None;
            }
            (own_w, own_h) = (own_h, own_w);
        }
        let left = stock.left.min(MAX_PIECES);
        let most = Extent {
            across: w.checked_div(own_w)?.min(left),
            down: h.checked_div(own_h)?.min(left),
        };
        if most.pieces() == 0 || stock.value == 0 {
            return None;
        }
        Some(Way {
            piece: place,
            turned,
            w: own_w,
            h: own_h,
            value: stock.value,
            rows: 0,
            columns: 0,
            grids: 0,
            end: 0,
            most,
        })
    }

    // A block of the way.
    fn block(&self, way: usize, across: u32, down: u32) -> Block {
        let extent = Extent { across, down };
        Block {
            w: self.w.saturating_mul(across),
            h: self.h.saturating_mul(down),
            value: self.value.saturating_mul(u64::from(extent.pieces())),
            pieces: extent.pieces(),
            extent,
            way,
            across: 0,
            down: 0,
        }
    }
}

impl Blocks {
    /// The blocks of all ways that fit a rectangle of these sides.
    pub(crate) fn new(
        alloc: Global,
        stocks: &[Stock],
        w: u32,
        h: u32,
    ) -> Result<Blocks, AllocError> {
        let mut ways = Vec::new(alloc);
        for (place, stock) in stocks.iter().enumerate() {
            for turned in [false, true] {
                if let Some(way) = Way::new(place, stock, turned, w, h) {
                    ways.push(way)?;
                }
            }
        }
        let mut blocks = Blocks {
            ways,
            blocks: Vec::new(alloc),
        };
        let lengths = blocks.lengths();
        for place in 0..blocks.ways.len() {
            blocks.push_way(place, stocks, lengths)?;
        }
        Ok(blocks)
    }

    /// Looks up the places of all blocks' sides.
    pub(crate) fn look_up(&mut self, guide: &Guide) {
        for block in self.blocks.iter_mut() {
            block.across = guide.across(block.w);
            block.down = guide.down(block.h);
        }
    }

    // So many lengths of a way's rows are taken at most, and so many of its columns.
    fn lengths(&self) -> u32 {
        let mut all = 0u32;
        for way in &self.ways {
            all = all
                .saturating_add(way.most.across)
                .saturating_add(way.most.down);
        }
        if all <= MAX_BLOCKS {
            return MAX_PIECES;
        }
        let ways = u32::try_from(self.ways.len()).unwrap_or(u32::MAX);
        let most = MAX_BLOCKS.checked_div(ways).unwrap_or(0);
        (most / 2).max(2)
    }

    // Adds rows of a way.
    fn push_rows(&mut self, place: usize, way: &Way, lengths: u32) -> Result<(), AllocError> {
        for row in 0..way.most.across.min(lengths) {
            let across = spread(row, way.most.across, lengths);
            self.blocks.push(way.block(place, across, 1))?;
        }
        Ok(())
    }

    // Adds columns of a way.
    fn push_columns(&mut self, place: usize, way: &Way, lengths: u32) -> Result<(), AllocError> {
        for column in 1..way.most.down.min(lengths) {
            let down = spread(column, way.most.down, lengths);
            self.blocks.push(way.block(place, 1, down))?;
        }
        Ok(())
    }

    // Adds grids of a way.
    fn push_grids(&mut self, place: usize, way: &Way, left: u32) -> Result<(), AllocError> {
        let most = left.min(MAX_IN_GRID);
        for across in 2..way.most.across.min(MAX_IN_GRID).saturating_add(1) {
            for down in 2..way.most.down.min(MAX_IN_GRID).saturating_add(1) {
                let block = way.block(place, across, down);
                if block.pieces <= most {
                    self.blocks.push(block)?;
                }
            }
        }
        Ok(())
    }

    // Adds the blocks of the way at a place.
    fn push_way(&mut self, place: usize, stocks: &[Stock], lengths: u32) -> Result<(), AllocError> {
        let Some(way) = self.ways.get(place).copied() else {
            return Ok(());
        };
        let left = stocks.get(way.piece).map_or(0, |stock| stock.left);
        let rows = self.blocks.len();
        self.push_rows(place, &way, lengths)?;
        let columns = self.blocks.len();
        self.push_columns(place, &way, lengths)?;
        let grids = self.blocks.len();
        if lengths >= MIN_LENGTHS {
            self.push_grids(place, &way, left)?;
        }
        let end = self.blocks.len();
        if let Some(way) = self.ways.get_mut(place) {
            way.rows = rows;
            way.columns = columns;
            way.grids = grids;
            way.end = end;
        }
        Ok(())
    }
}

//! The states of the search: what was placed, and what is free and left.

use crate::blocks::{Block, Way};
use crate::guide::Guide;
use crate::space::{Space, Trail};
use cut_measure::Axis;
use std::alloc::{AllocError, Global};

/// A filling makes so many cuts at most: one less than a plan may have, as one more may part a rest of a last sheet.
pub const CUTS: u32 = 254;

/// What a search goes by.
#[derive(Clone, Copy)]
pub(crate) struct Rules<'a> {
    pub ways: &'a [Way],
    pub blocks: &'a [Block],
    pub guide: &'a Guide,
    /// The most stages on the way to a piece.
    pub stages: Option<u32>,
    /// No way is less wide.
    pub least_w: u32,
    /// No way is less high.
    pub least_h: u32,
}

/// A block that was placed.
#[derive(Clone, Copy)]
pub(crate) struct Step {
    /// The number of the step before it, from 1 on; 0 where there is none.
    pub before: usize,
    /// The place of the block among the blocks.
    pub block: usize,
    /// The axis of the first of the cuts that part it from what is over.
    pub first: Axis,
    /// Where it was placed.
    pub space: Space,
}

/// A part of a filling.
#[derive(Drop)]
pub(crate) struct State {
    /// What is free; the last one is filled next.
    pub spaces: Vec<Space>,
    /// How many pieces are left of each kind.
    pub left: Vec<u32>,
    pub value: u64,
    pub cuts: u32,
    /// The number of the last step; 0 where there is none.
    pub step: usize,
    /// A sum over what is free and what was placed.
    pub hash: u64,
}

/// Mixes the bits of a number, as Appleby's MurmurHash3 does at its end.
fn mix(number: u64) -> u64 {
    let mut mixed = number;
    mixed ^= mixed >> 33;
    mixed = mixed.wrapping_mul(0xff51_afd7_ed55_8ccd);
    mixed ^= mixed >> 33;
    mixed = mixed.wrapping_mul(0xc4ce_b9fe_1a85_ec53);
    mixed ^ (mixed >> 33)
}

/// What pieces of a kind add to the hash.
fn pieces_hash(piece: usize, count: u32) -> u64 {
    let kind = mix((piece as u64).wrapping_add(0x0123_4567));
    kind.wrapping_mul(u64::from(count))
}

impl Rules<'_> {
    // What a space adds to the hash. Its stages count only where they are limited.
    fn space_hash(&self, space: &Space) -> u64 {
        let sides = mix((u64::from(space.w) << 32) | u64::from(space.h));
        if self.stages.is_none() {
            return sides;
        }
        let axis = match space.trail.last {
            None => 0,
            Some(Axis::X) => 1,
            Some(Axis::Y) => 2,
        };
        let cuts = u64::from(space.trail.stages)
            .wrapping_mul(3)
            .wrapping_add(axis);
        mix(sides.wrapping_add(cuts))
    }

    /// Whether there may be cuts along the width, along the height or along both at the end of a trail.
    #[inline]
    pub(crate) fn allows(&self, trail: Trail, along_width: bool, along_height: bool) -> bool {
        match self.stages {
            Some(most) => trail.stages_of(along_width, along_height) <= most,
            None => true,
        }
    }

    // Whether a piece laid so may be cut of a space.
    fn takes(&self, way: &Way, space: &Space) -> bool {
        if !space.holds(way.w, way.h) {
            return false;
        }
        self.allows(space.trail, way.w < space.w, way.h < space.h)
    }

    // Whether any piece that is left may be cut of a space.
    fn fits(&self, left: &[u32], space: &Space) -> bool {
        if space.w < self.least_w || space.h < self.least_h {
            return false;
        }
        self.ways.iter().any(|way| {
            left.get(way.piece).is_some_and(|count| *count > 0) && self.takes(way, space)
        })
    }
}

impl State {
    /// A state without anything.
    pub(crate) fn empty(alloc: Global) -> State {
        State {
            spaces: Vec::new(alloc),
            left: Vec::new(alloc),
            value: 0,
            cuts: 0,
            step: 0,
            hash: 0,
        }
    }

    /// Copies another state.
    pub(crate) fn copy_from(&mut self, other: &State) -> Result<(), AllocError> {
        self.spaces.clear();
        self.spaces.extend_from_slice(&other.spaces)?;
        self.left.clear();
        self.left.extend_from_slice(&other.left)?;
        self.value = other.value;
        self.cuts = other.cuts;
        self.step = other.step;
        self.hash = other.hash;
        Ok(())
    }

    /// One more free space, which is filled next. One without an area isn't kept.
    pub(crate) fn free(&mut self, rules: &Rules<'_>, space: Space) -> Result<(), AllocError> {
        if space.w > 0 && space.h > 0 {
            self.spaces.push(space)?;
            self.hash = self.hash.wrapping_add(rules.space_hash(&space));
        }
        Ok(())
    }

    // Takes the space that is filled next.
    fn take_space(&mut self, rules: &Rules<'_>) -> Option<Space> {
        let space = self.spaces.pop()?;
        self.hash = self.hash.wrapping_sub(rules.space_hash(&space));
        Some(space)
    }

    // Takes the pieces of a block.
    fn take_pieces(&mut self, rules: &Rules<'_>, block: &Block) {
        let Some(way) = rules.ways.get(block.way) else {
            return;
        };
        if let Some(left) = self.left.get_mut(way.piece) {
            *left = left.saturating_sub(block.pieces);
        }
        let hash = pieces_hash(way.piece, block.pieces);
        self.hash = self.hash.wrapping_add(hash);
        self.value = self.value.saturating_add(block.value);
    }

    // Forgets the next spaces that nothing fits.
    fn forget_unfit(&mut self, rules: &Rules<'_>) {
        for _ in 0..self.spaces.len() {
            let Some(space) = self.spaces.last() else {
                return;
            };
            if rules.fits(&self.left, space) {
                return;
            }
            let _space = self.take_space(rules);
        }
    }

    /// Places a block in the corner of the next space by the step of a number, and returns that space. Of what is over the
    /// smaller space is filled next.
    pub(crate) fn place(
        &mut self,
        rules: &Rules<'_>,
        block: &Block,
        first: Axis,
        step: usize,
    ) -> Result<Option<Space>, AllocError> {
        let Some(space) = self.take_space(rules) else {
            return Ok(None);
        };
        self.take_pieces(rules, block);
        self.cuts = self.cuts.saturating_add(cuts_of(&space, block));
        let parted = space.parted(block.w, block.h, first);
        let full = Space {
            step,
            is_full: true,
            ..parted.full
        };
        let beside = Space {
            step,
            is_full: false,
            ..parted.beside
        };
        if full.cells() >= beside.cells() {
            self.free(rules, full)?;
            self.free(rules, beside)?;
        } else {
            self.free(rules, beside)?;
            self.free(rules, full)?;
        }
        self.forget_unfit(rules);
        self.step = step;
        Ok(Some(space))
    }
}

/// How many cuts a block in a space takes.
pub(crate) fn cuts_of(space: &Space, block: &Block) -> u32 {
    let edges = u32::from(block.w < space.w) + u32::from(block.h < space.h);
    block.cuts().saturating_add(edges)
}

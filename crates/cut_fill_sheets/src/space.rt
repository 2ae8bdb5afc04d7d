//! Free rectangles of a filling, and the stages of the cuts that lead to them.

use cut_measure::Axis;

/// The cuts on the way to a rectangle, as far as stages are counted: a stage is a run of parallel cuts.
#[derive(Clone, Copy)]
pub(crate) struct Trail {
    /// The axis of the last cut.
    pub last: Option<Axis>,
    pub stages: u32,
}

/// A rectangle that is free: its sides, in tenths of a millimetre, the kerf added.
#[derive(Clone, Copy)]
pub(crate) struct Space {
    pub w: u32,
    pub h: u32,
    pub trail: Trail,
    /// The number of the step that left it free.
    pub step: usize,
    /// Whether it has the full side there, and isn't the one beside the block.
    pub is_full: bool,
}

/// What a block in the corner parts a space into.
#[derive(Clone, Copy)]
pub(crate) struct Parted {
    /// The block's own rectangle.
    pub own: Space,
    /// What is over along the axis of the first cut, of the full side across it.
    pub full: Space,
    /// What is over beside the block, behind the second cut.
    pub beside: Space,
}

impl Trail {
    /// The trail with one more cut along an axis.
    pub(crate) fn with(self, axis: Axis) -> Trail {
        let is_more = self.last != Some(axis);
        Trail {
            last: Some(axis),
            stages: self.stages.saturating_add(u32::from(is_more)),
        }
    }

    /// How many stages there are with cuts along the width, along the height or along both, in the order that gives fewest.
    #[inline]
    pub(crate) fn stages_of(self, along_width: bool, along_height: bool) -> u32 {
        let axis = match (along_width, along_height) {
            (false, false) => return self.stages,
            (true, false) => Axis::X,
            (false, true) => Axis::Y,
            // first along the axis of the last cut
            (true, true) => {
                let more = if self.last.is_some() { 1 } else { 2 };
                return self.stages.saturating_add(more);
            }
        };
        self.with(axis).stages
    }
}

impl Space {
    /// A whole rectangle, which no cut has made.
    pub(crate) fn whole(w: u32, h: u32) -> Space {
        Space {
            w,
            h,
            trail: Trail {
                last: None,
                stages: 0,
            },
            step: 0,
            is_full: true,
        }
    }

    /// How many cells there are.
    pub(crate) fn cells(&self) -> u64 {
        u64::from(self.w).saturating_mul(u64::from(self.h))
    }

    /// Whether a rectangle of these sides lies in it.
    pub(crate) fn holds(&self, w: u32, h: u32) -> bool {
        w <= self.w && h <= self.h
    }

    // The space with another side, behind a cut along that axis.
    fn behind(&self, axis: Axis, side: u32) -> Space {
        let (w, h) = match axis {
            Axis::X => (side, self.h),
            Axis::Y => (self.w, side),
        };
        Space {
            w,
            h,
            trail: self.trail.with(axis),
            step: self.step,
            is_full: self.is_full,
        }
    }

    // What a cut parts off at a length of a side, and what is over. Where nothing is over, there is no cut.
    fn split(&self, axis: Axis, length: u32) -> (Space, Space) {
        let side = match axis {
            Axis::X => self.w,
            Axis::Y => self.h,
        };
        let over = self.behind(axis, side.saturating_sub(length));
        if length < side {
            (self.behind(axis, length), over)
        } else {
            (*self, over)
        }
    }

    /// What a block of these sides leaves, with the first cut along the axis.
    pub(crate) fn parted(&self, w: u32, h: u32, first: Axis) -> Parted {
        match first {
            Axis::X => {
                let (column, full) = self.split(Axis::X, w);
                let (own, beside) = column.split(Axis::Y, h);
                Parted { own, full, beside }
            }
            Axis::Y => {
                let (row, full) = self.split(Axis::Y, h);
                let (own, beside) = row.split(Axis::X, w);
                Parted { own, full, beside }
            }
        }
    }
}

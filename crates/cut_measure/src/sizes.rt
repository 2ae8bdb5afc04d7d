//! Bars and sheets, the axes along which they are cut, and the sides of a unit or a part.

ghost use Rattle.std.specs.Prelude.{◌≡◌, ◌*◌, ◌≤◌, length};
ghost use Rattle.cut_measure.specs.Measures.{size_of, cells_of};

use crate::ranges::{MAX_HEIGHT, MAX_WIDTH};
use std::marker::Model;

/// What a material comes as.
#[derive(Clone, Copy, Debug, PartialEq, Eq)]
pub enum Kind {
    /// One cell high: only its length is cut.
    Bar,
    /// Glass, boards and the like, cut along both sides.
    Sheet,
}

/// The direction along which a cut divides: `X` parts columns, `Y` parts rows.
#[derive(Clone, Copy, Debug, PartialEq, Eq)]
pub enum Axis {
    /// Along the width.
    X,
    /// Along the height.
    Y,
}

/// The sides of a unit or a part, in tenths of a millimetre: a width of 1 to 200000 and a height of 1 to 60000.
#[derive(Clone, Copy, Debug, PartialEq, Eq)]
pub struct Size {
    w: u32,
    h: u32,
}

impl Model for Size {
    ghost use Rattle.std.specs.Prelude.{◌≤◌};
    ghost use Rattle.cut_measure.specs.declared.ranges.TheConstants.{MAX_WIDTH, MAX_HEIGHT};
    ghost use Rattle.cut_measure.specs.Measures.{Size};

    ghost Value = { Size };

    ghost view = { λ s. record { w = s.w; h = s.h } };

    ghost invariant = { λ s. (1 ≤ s.w) × (s.w ≤ MAX_WIDTH) × (1 ≤ s.h) × (s.h ≤ MAX_HEIGHT) };

    ghost inverse = { λ e. record { w = e.w; h = e.h } };
}

impl Size {
    /// The size of these sides in tenths of a millimetre, where a unit of the kind may have them: a width of
    /// 1 to 200000, and a height of 1 to 60000, which for a bar is 1.
    pub fn new(kind: Kind, w: u32, h: u32) -> Option<Size>
        ensures { result ≡ size_of kind w h }
    {
        let fits = match kind {
            Kind::Bar => h == 1,
            Kind::Sheet => 1 <= h && h <= MAX_HEIGHT,
        };
        if 1 <= w && w <= MAX_WIDTH && fits {
            Some(Size { w, h })
        } else {
            None
        }
    }

    /// The width in tenths of a millimetre.
    pub fn w(&self) -> u32
        ensures value { result ≡ self.now.w }
        ensures least { 1 ≤ result }
        ensures most { result ≤ MAX_WIDTH }
    {
        self.w
    }

    /// The height in tenths of a millimetre.
    pub fn h(&self) -> u32
        ensures value { result ≡ self.now.h }
        ensures least { 1 ≤ result }
        ensures most { result ≤ MAX_HEIGHT }
    {
        self.h
    }

    /// How many cells it has: a cell is a tenth of a millimetre on each side.
    pub fn cells(&self) -> u64
        ensures value { result ≡ self.now.w * self.now.h }
        ensures counted { result ≡ length (cells_of self.now) }
        ensures most { result ≤ MAX_WIDTH * MAX_HEIGHT }
    {
        u64::from(self.w) * u64::from(self.h)
    }
}

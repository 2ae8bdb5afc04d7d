//! What a material's saw takes, and from which sides on a rest of the material is kept.

ghost use Rattle.std.specs.Prelude.{◌≡◌, ◌≤◌};
ghost use Rattle.cut_measure.specs.Measures.{params_of, is_kept};

use crate::ranges::{MAX_KERF, MAX_WIDTH};
use crate::sizes::{Kind, Size};
use std::marker::Model;

/// How wide the saw cuts a material, and from which sides on a rest is kept, all in tenths of a millimetre.
#[derive(Clone, Copy, Debug, PartialEq, Eq)]
pub struct Limits {
    kerf: u32,
    min_long: u32,
    min_short: u32,
}

impl Model for Limits {
    ghost use Rattle.std.specs.Prelude.{◌≤◌};
    ghost use Rattle.cut_measure.specs.declared.ranges.TheConstants.{MAX_KERF, MAX_WIDTH};
    ghost use Rattle.cut_measure.specs.Measures.{CutParams};

    ghost Value = { CutParams };

    ghost view = { λ l. record { kerf = l.kerf; min_long = l.min_long; min_short = l.min_short } };

    ghost invariant = { λ l. (l.kerf ≤ MAX_KERF) × (1 ≤ l.min_short) × (l.min_short ≤ l.min_long)
        × (l.min_long ≤ MAX_WIDTH) };

    ghost inverse = { λ r. record {
      kerf = r.kerf;
      min_long = r.min_long;
      min_short = r.min_short;
    } };
}

impl Limits {
    /// These limits, where a material of the kind may have them: a kerf of at most 200, a longer side of at most
    /// 200000, and a shorter side of at least 1 and at most the longer one, which for a bar is 1.
    pub fn new(kind: Kind, kerf: u32, min_long: u32, min_short: u32) -> Option<Limits>
        ensures { result ≡ params_of kind kerf min_long min_short }
    {
        let fits = match kind {
            Kind::Bar => min_short == 1,
            Kind::Sheet => 1 <= min_short,
        };
        if kerf <= MAX_KERF && fits && min_short <= min_long && min_long <= MAX_WIDTH {
            Some(Limits {
                kerf,
                min_long,
                min_short,
            })
        } else {
            None
        }
    }

    /// How wide the saw cuts: 0 to 200.
    pub fn kerf(&self) -> u32
        ensures value { result ≡ self.now.kerf }
        ensures most { result ≤ MAX_KERF }
    {
        self.kerf
    }

    /// The least longer side of a rest that is kept: from the least shorter side on, and at most 200000.
    pub fn min_long(&self) -> u32
        ensures value { result ≡ self.now.min_long }
        ensures least { self.now.min_short ≤ result }
        ensures most { result ≤ MAX_WIDTH }
    {
        self.min_long
    }

    /// The least shorter side of a rest that is kept: from 1 on, and at most the least longer side.
    pub fn min_short(&self) -> u32
        ensures value { result ≡ self.now.min_short }
        ensures least { 1 ≤ result }
        ensures most { result ≤ self.now.min_long }
    {
        self.min_short
    }

    /// Whether a rest of this size is a remnant: its sides, turned as fits, are at least the limits'.
    pub fn keeps(&self, size: Size) -> bool
        ensures { result ≡ is_kept self.now size }
    {
        let w = size.w();
        let h = size.h();
        self.min_long <= w.max(h) && self.min_short <= w.min(h)
    }
}

//! What is wanted of one size, in tenths of a millimetre and in steps.

use cut_measure::Size;
use std::marker::Model;

/// What is wanted of one size: how many are left to make, and what each is worth.
#[derive(Clone, Copy, Debug, PartialEq, Eq)]
pub struct Want {
    /// The demand's number, 1 to 2147483647.
    pub demand: u32,
    /// The sides of a piece, in tenths of a millimetre.
    pub size: Size,
    /// Whether a piece may be turned by a quarter, which of a bar none may.
    pub may_turn: bool,
    /// How many pieces are left to make, 1 to 1000000.
    pub left: u32,
    /// What a piece is worth, 1 to 1000000000.
    pub worth: u32,
}

/// A want whose sides are counted in steps. What its other fields say stands at `Want`.
#[derive(Clone, Copy)]
pub struct Scaled {
    pub demand: u32,
    /// At most 200200 steps.
    pub w: u32,
    /// At most 60200 steps.
    pub h: u32,
    pub may_turn: bool,
    pub left: u32,
    pub worth: u32,
}

impl Model for Scaled {
    ghost use Rattle.cut_wants.specs.declared.wants.Want.{Want};

    ghost Value = { Want };

    ghost view = { λ s. record {
      demand = s.demand;
      size = record { w = s.w; h = s.h };
      may_turn = s.may_turn;
      left = s.left;
      worth = s.worth;
    } };

    ghost inverse = { λ x. record {
      demand = x.demand;
      w = x.size.w;
      h = x.size.h;
      may_turn = x.may_turn;
      left = x.left;
      worth = x.worth;
    } };
}

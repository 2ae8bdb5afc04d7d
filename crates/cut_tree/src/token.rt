//! The words of which the text of a cutting tree consists, and what may be wrong with one.

ghost use Rattle.std.specs.Prelude.{◌≡◌, ◌≤◌, ◌<◌, ◌^◌, ℕ, MatchOption, ◌∷◌, ◌++◌};
ghost use Rattle.std.specs.Fmt.{decimal};

use cut_measure::{Axis, read_number};
use std::error::Error;
use std::fmt;

/// The most cuts that a plan has.
pub const MAX_CUTS: u32 = 255;

/// A node of a tree as its text has it.
#[derive(Clone, Copy, PartialEq, Eq, Debug)]
pub enum Token {
    /// `x30` or `y30`: a cut along the axis at this place, from 1 on.
    Cut(Axis, u32),
    /// `p7`, or `p7t` where it is turned: a piece of a demand, 1 to 2147483647.
    Piece(u32, bool),
    /// `r`: a rest.
    Rest,
}

/// Why a text is no tree's, in the order of what is judged at one token.
#[derive(Clone, Copy, PartialEq, Eq, Debug)]
pub enum Cause {
    /// No token, an empty one too.
    BadToken,
    /// A 256th cut.
    TooManyCuts,
    /// A cut whose place isn't inside its rectangle.
    OffUnit,
    /// The text ended before the tree; the token is the number of its tokens.
    Missing,
    /// A token after the whole tree.
    Extra,
    /// Want of memory; the token is 0.
    NoMemory,
}

impl fmt::Display for Cause {
    ghost use Rattle.std.specs.Prelude.{Some};
    ghost use Rattle.cut_tree.specs.Messages.{cause_text};

    ghost output = { λ fault. Some (cause_text fault) };

    fn fmt<W: fmt::Write>(&self, f: &mut fmt::Formatter<W>) -> fmt::Result {
        match self {
            Cause::BadToken => f.write_str("this is no token"),
            Cause::TooManyCuts => f.write_str("this is one cut too many"),
            Cause::OffUnit => f.write_str("this cut is not inside its rectangle"),
            Cause::Missing => f.write_str("the text ends before the tree"),
            Cause::Extra => f.write_str("the text goes on behind the tree"),
            Cause::NoMemory => f.write_str("memory ran out"),
        }
    }
}

impl Error for Cause {}

/// The number of at least 1 that the digits are, without leading zeros.
pub fn number(digits: &[u8]) -> Option<u32>
    ensures { MatchOption result
        ((n : ℕ) → 1 ≤ n → n < 2 ^ 32 → decimal n ≡ digits.now → ⊥)
        (λ n. (1 ≤ n) × (decimal n ≡ digits.now)) }
{
    let n = read_number(digits)?;
    if n == 0 {
        return None;
    }
    Some(n)
}

/// The sides of a rectangle, in tenths of a millimetre: at most 200000.
#[derive(Clone, Copy, PartialEq, Eq, Debug)]
pub struct Sides {
    pub w: u32,
    pub h: u32,
}

impl Sides {
    ghost use Rattle.cut_tree.specs.Sides.{side_along, part_sides};

    /// The side that a cut along an axis divides.
    pub fn along(self, axis: Axis) -> u32
        ensures { result ≡ side_along self axis }
    {
        match axis {
            Axis::X => self.w,
            Axis::Y => self.h,
        }
    }

    /// The sides of a part of this length.
    pub fn part(self, axis: Axis, length: u32) -> Sides
        ensures { result ≡ part_sides self axis length }
    {
        match axis {
            Axis::X => Sides { w: length, ..self },
            Axis::Y => Sides { h: length, ..self },
        }
    }
}

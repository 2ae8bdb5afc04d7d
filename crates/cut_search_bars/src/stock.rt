//! The sizes of units that a search may take.

use cut_measure::Size;

/// A size of units.
#[derive(Clone, Copy)]
pub struct SearchSize {
    /// The sides of a unit, in tenths of a millimetre.
    pub size: Size,
    /// What a unit costs.
    pub cost: u64,
    /// How many there are, or None where there are as many as are wanted.
    pub limit: Option<u32>,
}

//! What may be cut of a rectangle.

/// A kind of piece: its sides in tenths of a millimetre, the kerf added, each at least 1.
#[derive(Clone, Copy)]
pub struct Piece {
    pub w: u32,
    pub h: u32,
    /// Whether it may be turned by a quarter.
    pub may_turn: bool,
}

/// A kind of piece, how many are left of it, and the value of each.
#[derive(Clone, Copy)]
pub(crate) struct Stock {
    pub piece: Piece,
    pub left: u32,
    pub value: u64,
}

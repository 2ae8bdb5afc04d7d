//! The greatest measures and numbers that the shop allows.

/// The greatest width of a unit, a part or a piece, in tenths of a millimetre.
pub const MAX_WIDTH: u32 = 200_000;

/// The greatest height of a unit, a part or a piece, in tenths of a millimetre.
pub const MAX_HEIGHT: u32 = 60_000;

/// The widest kerf, in tenths of a millimetre.
pub const MAX_KERF: u32 = 200;

/// The most acts and the most demands: each of them has a number from 1 to this.
pub const MAX_NUMBERS: u32 = 2_147_483_647;

/// The most pieces of one demand.
pub const MAX_COUNT: u32 = 1_000_000;

/// The most that a piece is worth.
pub const MAX_WORTH: u32 = 1_000_000_000;

/// The most characters of a code.
pub const MAX_CODE_LEN: usize = 16;

//! The most bytes, pieces, lines and materials of a file that is read.

/// The most bytes of a text that is read.
pub const MAX_TEXT_LEN: usize = 65_536;

/// The most pieces of a problem.
pub const MAX_PIECES: u32 = 200;

/// The most lines of an order.
pub const MAX_LINES: usize = 200;

/// The most materials of a shop.
pub const MAX_ENTRIES: usize = 1000;

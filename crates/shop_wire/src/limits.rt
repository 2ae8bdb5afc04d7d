//! The most bytes and reads of lines and of what is held.

/// The most reads of a replay.
pub(crate) const MAX_READS: u32 = 1_000_000_000;

/// The most bytes of a line that may be a message or a query.
pub(crate) const MAX_LINE_LEN: usize = 131_072;

/// The most bytes of one read.
pub(crate) const BUFFER_SIZE: usize = 65_536;

/// So many bytes of replies are written before the next line is answered.
pub const MAX_HELD: usize = 65_536;

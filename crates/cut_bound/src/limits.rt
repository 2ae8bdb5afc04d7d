//! The limits of an order.

/// The most wants of an order.
pub const MAX_ORDER_WANTS: usize = 100;

/// The most parts of a stock: the units at hand of its limited sizes, together.
pub const MAX_PARTS: u32 = 1000;

/// The most sizes that may be bought: those without a limit.
pub const MAX_BOUGHT_SIZES: usize = 10;

/// The most calls of `advance` that are asked for an order.
pub const MAX_CALLS: u32 = 5000;

/// The most units of an answer.
pub const MAX_ORDER_UNITS: u32 = 100_000;

/// The greatest bound that is reported.
pub const MAX_BOUND: u64 = 1_000_000_000_000_000_000;

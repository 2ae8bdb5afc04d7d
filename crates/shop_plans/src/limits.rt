//! The ranges of a query's numbers, and what they are where a query doesn't say.

/// What a cell of a unit costs. A cell of a remnant costs 1 to as much.
pub const UNIT_COST: u32 = 100;

/// What a cell of a remnant costs where a query doesn't say.
pub const DEFAULT_REMNANT: u32 = 90;

/// The least limit of a plan's stages that a query may set.
pub const MIN_STAGES: u32 = 2;

/// The greatest limit of a plan's stages that a query may set.
pub const MAX_STAGES: u32 = 255;

/// The most tables that a query may let the search make.
pub const MAX_CALLS: u32 = 5000;

/// How many tables the search may make where a query doesn't say.
pub const DEFAULT_CALLS: u32 = 500;

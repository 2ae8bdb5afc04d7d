//! Tables of the worths of a sheet over classes of its sides, which no legal plan is worth more than.
#![tactic(auto)]

mod ceiling;
mod choice;
mod grid;
mod laws;
mod narrow;
mod pairs;
mod row;
mod table;
mod usable;

pub use ceiling::{CeilingTable, ceiling_of, ceilings};
pub use grid::{Grid, grid_of};
pub use pairs::{Pair, class_of, high_of, pairs_of};
pub use usable::{counted_wants, is_counted};
